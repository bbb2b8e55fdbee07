// What crosses the border: an enum cannot, so each answer of the libraries is a struct of numbers here. A refusal is its number with a minus
// sign; where a call can answer 1 or 5, the good of the string stands beside it (02), 0 for all else.
ghost use Rattle.std.specs.Prelude.{◌≡◌};
ghost use Rattle.wing_node.specs.Refusal.{refusal_number};
ghost use Rattle.wing_c.specs.Numbers.{minus as minus_of, sent_back, no_refusal, written_as, written_numbers, set_as, set_numbers, fed_as, fed_numbers, lookup_numbers, same_number};
ghost use Rattle.wing_c.specs.Numbers.{held_numbers, record_numbers, event_as, no_event, event_numbers, requested_numbers, meters_numbers, loaded_as, loaded_numbers};

use wing_listing::answer::Loaded;
use wing_mirror::answer::{Counts, RecordRead};
use wing_node::refusal::Refusal;
use wing_node::value::Value;
use wing_wire::meter::{MetersRead, Requested};
use wing_wire::unit::Answer;

// How a call came out: its status, and the good beside 1 and 5.
#[derive(Clone, Copy)]
pub(crate) struct Outcome {
    pub status: i32,
    pub good: u16,
}

// A command, a definition or a listing: 0 and the bytes written.
#[repr(C)]
#[derive(Clone, Copy)]
pub struct WingWritten {
    pub status: i32,
    pub good: u16,
    pub len: usize,
}

// A set through the mirror: 0, the bytes written and the records there are.
#[repr(C)]
#[derive(Clone, Copy)]
pub struct WingSet {
    pub status: i32,
    pub good: u16,
    pub len: usize,
    pub count: usize,
}

// A feed: 0, the six counts and the records there are.
#[repr(C)]
#[derive(Clone, Copy)]
pub struct WingFed {
    pub status: i32,
    pub stored: u32,
    pub unplaced: u32,
    pub strings_refused: u32,
    pub definitions_read: u32,
    pub definitions_refused: u32,
    pub ends: u32,
    pub count: usize,
}

// A lookup: 1 and the record's number, or 0 for none.
#[repr(C)]
#[derive(Clone, Copy)]
pub struct WingLookup {
    pub status: i32,
    pub number: usize,
}

// A record: 0, its id, its kind (0 integer, 1 float, 2 string), the 32 bits of a number, or a string's length and bytes; 02: and its
// origin (0 console, 1 set order).
#[repr(C)]
#[derive(Clone, Copy)]
pub struct WingRecord {
    pub status: i32,
    pub id: i32,
    pub value: u32,
    pub len: u16,
    pub kind: u8,
    pub origin: u8,
    pub string: [u8; 256],
}

// An event of the decoder: 1 and its kind (0 integer, 1 float, 2 string, 3 body, 4 end), the 32 bits of a number, or how many bytes
// of a string or a body were handed out; or 0 for more. The node is the current one, the bytes taken are those of this call.
#[repr(C)]
#[derive(Clone, Copy)]
pub struct WingEvent {
    pub status: i32,
    pub good: u16,
    pub node: i32,
    pub value: u32,
    pub len: u16,
    pub kind: u8,
    pub taken: usize,
}

// A meter request: 0, the bytes written and the new meter id.
#[repr(C)]
#[derive(Clone, Copy)]
pub struct WingRequested {
    pub status: i32,
    pub id: u16,
    pub len: usize,
}

// A meter packet: 0, its meter id and how many readings it holds.
#[repr(C)]
#[derive(Clone, Copy)]
pub struct WingMeters {
    pub status: i32,
    pub id: u16,
    pub count: usize,
}

// A load: 0 and the records there are now; or a refusal and the line that it is about, 0 for none.
#[repr(C)]
#[derive(Clone, Copy)]
pub struct WingLoaded {
    pub status: i32,
    pub good: u16,
    pub count: usize,
    pub line: usize,
}

// A refusal's number with a minus sign.
pub(crate) fn minus(why: Refusal) -> i32
    ensures { result ≡ minus_of (refusal_number why) }
{
    -i32::from(why.number())
}

// 02: the good beside 1 and 5; the others have none, 0.
pub(crate) fn sent_back(why: Refusal) -> Outcome
    ensures { result ≡ sent_back why }
{
    Outcome {
        status: minus(why),
        good: why.good().unwrap_or(0),
    }
}

pub(crate) fn no_refusal() -> Outcome
    ensures { result ≡ no_refusal }
{
    Outcome { status: 0, good: 0 }
}

fn written_as(o: Outcome, len: usize) -> WingWritten
    ensures { result ≡ written_as o len }
{
    WingWritten {
        status: o.status,
        good: o.good,
        len,
    }
}

pub(crate) fn written(w: Result<usize, Refusal>) -> WingWritten
    ensures { result ≡ written_numbers w }
{
    match w {
        Ok(n) => written_as(no_refusal(), n),
        Err(why) => written_as(sent_back(why), 0),
    }
}

fn set_as(o: Outcome, len: usize, count: usize) -> WingSet
    ensures { result ≡ set_as o len count }
{
    WingSet {
        status: o.status,
        good: o.good,
        len,
        count,
    }
}

pub(crate) fn set(w: Result<usize, Refusal>, count: usize) -> WingSet
    ensures { result ≡ set_numbers w count }
{
    match w {
        Ok(n) => set_as(no_refusal(), n, count),
        Err(why) => set_as(sent_back(why), 0, count),
    }
}

fn fed_as(status: i32, c: Counts, count: usize) -> WingFed
    ensures { result ≡ fed_as status c count }
{
    WingFed {
        status,
        stored: c.stored,
        unplaced: c.unplaced,
        strings_refused: c.strings_refused,
        definitions_read: c.definitions_read,
        definitions_refused: c.definitions_refused,
        ends: c.ends,
        count,
    }
}

// A refused feed counts nothing.
pub(crate) fn fed(answer: Result<Counts, Refusal>, count: usize) -> WingFed
    ensures { result ≡ fed_numbers answer count }
{
    match answer {
        Ok(c) => fed_as(0, c, count),
        Err(why) => {
            let none = Counts {
                stored: 0,
                unplaced: 0,
                strings_refused: 0,
                definitions_read: 0,
                definitions_refused: 0,
                ends: 0,
            };
            fed_as(minus(why), none, count)
        }
    }
}

pub(crate) fn found(l: Result<Option<usize>, Refusal>) -> WingLookup
    ensures { result ≡ lookup_numbers l }
{
    match l {
        Ok(Some(n)) => WingLookup {
            status: 1,
            number: n,
        },
        Ok(None) => WingLookup {
            status: 0,
            number: 0,
        },
        Err(why) => WingLookup {
            status: minus(why),
            number: 0,
        },
    }
}

pub(crate) fn same(s: Result<bool, Refusal>) -> i32
    ensures { result ≡ same_number s }
{
    match s {
        Ok(true) => 1,
        Ok(false) => 0,
        Err(why) => minus(why),
    }
}

fn record_of(id: i32, value: Value, origin: u8, string: [u8; 256]) -> WingRecord
    ensures { result ≡ held_numbers id value origin string }
{
    match value {
        Value::Integer(x) => WingRecord {
            status: 0,
            id,
            value: x.cast_unsigned(),
            len: 0,
            kind: 0,
            origin,
            string,
        },
        Value::Float(bits) => WingRecord {
            status: 0,
            id,
            value: bits,
            len: 0,
            kind: 1,
            origin,
            string,
        },
        Value::String(n) => WingRecord {
            status: 0,
            id,
            value: 0,
            len: n,
            kind: 2,
            origin,
            string,
        },
    }
}

pub(crate) fn record(r: Result<RecordRead, Refusal>) -> WingRecord
    ensures { result ≡ record_numbers r }
{
    match r {
        Ok(r) => record_of(r.id, r.value, u8::from(r.origin), r.string),
        Err(why) => WingRecord {
            status: minus(why),
            id: 0,
            value: 0,
            len: 0,
            kind: 0,
            origin: 0,
            string: [0u8; 256],
        },
    }
}

// An event, at the current node.
fn event_of(kind: u8, value: u32, len: u16, node: i32, taken: usize) -> WingEvent
    ensures { result ≡ event_as kind value len node taken }
{
    WingEvent {
        status: 1,
        good: 0,
        node,
        value,
        len,
        kind,
        taken,
    }
}

// More, or a refusal.
fn without_event(o: Outcome, node: i32, taken: usize) -> WingEvent
    ensures { result ≡ no_event o node taken }
{
    WingEvent {
        status: o.status,
        good: o.good,
        node,
        value: 0,
        len: 0,
        kind: 0,
        taken,
    }
}

pub(crate) fn event(a: Answer, node: i32, taken: usize) -> WingEvent
    ensures { result ≡ event_numbers a node taken }
{
    match a {
        Answer::More => without_event(no_refusal(), node, taken),
        Answer::Integer(x) => event_of(0, x.cast_unsigned(), 0, node, taken),
        Answer::Float(bits) => event_of(1, bits, 0, node, taken),
        Answer::String(n) => event_of(2, 0, n, node, taken),
        Answer::Body(n) => event_of(3, 0, n, node, taken),
        Answer::End => event_of(4, 0, 0, node, taken),
        Answer::Refused(why) => without_event(sent_back(why), node, taken),
    }
}

pub(crate) fn requested(r: Result<Requested, Refusal>) -> WingRequested
    ensures { result ≡ requested_numbers r }
{
    match r {
        Ok(r) => WingRequested {
            status: 0,
            id: r.id,
            len: r.len,
        },
        Err(why) => WingRequested {
            status: minus(why),
            id: 0,
            len: 0,
        },
    }
}

pub(crate) fn meters(r: Result<MetersRead, Refusal>) -> WingMeters
    ensures { result ≡ meters_numbers r }
{
    match r {
        Ok(r) => WingMeters {
            status: 0,
            id: r.id,
            count: r.count,
        },
        Err(why) => WingMeters {
            status: minus(why),
            id: 0,
            count: 0,
        },
    }
}

fn loaded_as(o: Outcome, count: usize, line: usize) -> WingLoaded
    ensures { result ≡ loaded_as o count line }
{
    WingLoaded {
        status: o.status,
        good: o.good,
        count,
        line,
    }
}

pub(crate) fn loaded(a: Loaded) -> WingLoaded
    ensures { result ≡ loaded_numbers a }
{
    match a {
        Ok(n) => loaded_as(no_refusal(), n, 0),
        Err(bad) => loaded_as(sent_back(bad.why), 0, bad.line),
    }
}
