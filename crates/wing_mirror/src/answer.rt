// What the queries of a table, a feed and a set answer.
use crate::origin::Origin;
use wing_node::refusal::Refusal;
use wing_node::value::Value;
use wing_wire::state::{Control, State};

// A record. The bytes of a string, zero-filled, stand beside its value; with any other value these bytes are all 0.
#[derive(Clone, Copy)]
pub struct RecordRead {
    pub id: i32,
    pub value: Value,
    pub origin: Origin,
    pub string: [u8; 256],
}

// The six counts of a feed.
#[derive(Clone, Copy)]
pub struct Counts {
    pub stored: u32,
    pub unplaced: u32,
    pub strings_refused: u32,
    pub definitions_read: u32,
    pub definitions_refused: u32,
    pub ends: u32,
}

// A feed where the store is lent: its six counts or the refusal, with the control after it and the number of records.
#[derive(Clone, Copy)]
pub struct LentFeedReply {
    pub answer: Result<Counts, Refusal>,
    pub control: Control,
    pub count: usize,
}

// The same with the whole state after it. A refused feed changes and counts nothing; state and number are told of it too.
#[derive(Clone, Copy)]
pub struct FeedReply {
    pub answer: Result<Counts, Refusal>,
    pub state: State,
    pub count: usize,
}

// How many bytes a set wrote or the refusal, with the number of records: beside the Result, since it is told of a refusal too.
#[derive(Clone, Copy)]
pub struct SetReply {
    pub answer: Result<usize, Refusal>,
    pub count: usize,
}
