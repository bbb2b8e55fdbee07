// The mirror that the orders go to. Its table buffer is the front of one memory.
use crate::commands::of_written;
use crate::show;
use crate::show::{Answered, Dashed, Pairs, Unanswered, tell_refused};
use crate::words::Words;
use std::alloc::{AllocError, Global};
use wing_mirror::{answer, origin, query, recall, set, table};
use wing_node::refusal::Refusal;
use wing_node::value::Value;
use wing_wire::state::State;

// 1,026 places: 01 allows 1,024, and a buffer of one place more is refused.
const MEMORY: usize = 270864;

const PLACE: usize = State::PLACE_WIDTH;

// The most room of an output.
pub const ROOM: usize = 16384;

// An order to the mirror. A set and a recall write into so many bytes.
#[derive(Drop)]
pub enum Order {
    New { size: usize, fill: u8 },
    Count(usize),
    Poke { at: usize, bytes: Vec<u8> },
    Feed(Vec<u8>),
    Send { what: Sent, room: usize },
    Dump,
    Lookup(i32),
    Record(usize),
    Peek { at: usize, len: usize },
}

// What is sent: a node's set, or everything.
#[derive(Drop)]
pub enum Sent {
    Int(i32, i32),
    Float(i32, u32),
    String(i32, Vec<u8>),
    Recall,
}

fn send(what: Sent, words: &mut Words, most: usize) -> Result<Order, Unanswered> {
    let room = words.up_to(most)?;
    Ok(Order::Send { what, room })
}

// A buffer of places and some bytes more, within the memory, and what it is filled with, 0 unless that is said.
fn fresh(words: &mut Words) -> Result<Order, Unanswered> {
    let places = words.up_to(1026)?;
    let extra = if words.is_empty() {
        0
    } else {
        words.up_to(263)?
    };
    let fill = if words.is_empty() { 0 } else { words.number()? };
    let size = places * PLACE + extra;
    if MEMORY < size {
        return Err(Unanswered::Form);
    }
    Ok(Order::New { size, fill })
}

pub fn parse(alloc: Global, name: &str, words: &mut Words) -> Result<Option<Order>, Unanswered> {
    let order = match name {
        "new" => fresh(words)?,
        "count" => Order::Count(words.number::<u32>()? as usize),
        "poke" => Order::Poke {
            at: words.up_to(MEMORY)?,
            bytes: words.bytes(alloc)?,
        },
        "feed" => Order::Feed(words.bytes(alloc)?),
        "repeat" => Order::Feed(words.repeated(alloc)?),
        "int" => send(Sent::Int(words.number()?, words.number()?), words, 512)?,
        "float" => send(Sent::Float(words.number()?, words.hex(8)?), words, 512)?,
        "string" => send(
            Sent::String(words.number()?, words.bytes(alloc)?),
            words,
            512,
        )?,
        "recall" => send(Sent::Recall, words, ROOM)?,
        "dump" => Order::Dump,
        "lookup" => Order::Lookup(words.number()?),
        "record" => Order::Record(words.number::<u32>()? as usize),
        "peek" => Order::Peek {
            at: words.up_to(MEMORY)?,
            len: words.up_to(4096)?,
        },
        _ => return Ok(None),
    };
    Ok(Some(order))
}

// The count is that of the records, the size the table buffer's, the fill what the memory held when the mirror was fresh.
#[derive(Drop)]
pub struct Mirror {
    pub state: State,
    memory: Vec<u8>,
    size: usize,
    fill: u8,
    pub count: usize,
}

impl Mirror {
    // Before the first order there is a buffer of no bytes.
    pub fn start(alloc: Global) -> Result<Mirror, AllocError> {
        Ok(Mirror {
            state: State::fresh(),
            memory: vec![in alloc; 0; MEMORY]?,
            size: 0,
            fill: 0,
            count: 0,
        })
    }

    pub fn table(&self) -> &[u8] {
        self.memory.get(..self.size).unwrap_or(b"")
    }

    pub fn table_mut(&mut self) -> &mut [u8] {
        let size = self.size.min(self.memory.len());
        &mut self.memory[..size]
    }

    pub fn obey(&mut self, alloc: Global, order: Order, text: &mut String) -> Answered {
        match order {
            Order::New { size, fill } => self.renew(size, fill, text),
            Order::Count(count) => {
                self.count = count;
                write!(text, "count {count}")?;
                Ok(())
            }
            Order::Poke { at, bytes } => self.poke(at, &bytes, text),
            Order::Feed(bytes) => self.feed(&bytes, text),
            Order::Send { what, room } => self.send(alloc, &what, room, text),
            Order::Dump => self.dump(text),
            Order::Lookup(id) => found(text, query::lookup(self.table(), self.count, id)),
            Order::Record(n) => entry_origin(text, query::record(self.table(), self.count, n)),
            Order::Peek { at, len } => self.peek(at, len, text),
        }
    }

    // A fresh mirror.
    fn renew(&mut self, size: usize, fill: u8, text: &mut String) -> Answered {
        self.state = State::fresh();
        self.memory.fill(fill);
        self.size = size;
        self.fill = fill;
        self.count = 0;
        let places = table::places(self.table());
        write!(text, "places {places}")?;
        Ok(())
    }

    // Bytes within the table buffer.
    fn poke(&mut self, at: usize, bytes: &[u8], text: &mut String) -> Answered {
        let end = at.saturating_add(bytes.len());
        let place = self.table_mut().get_mut(at..end).ok_or(Unanswered::Form)?;
        place.copy_from_slice(bytes);
        text.push_str("poked")?;
        Ok(())
    }

    fn peek(&self, at: usize, len: usize, text: &mut String) -> Answered {
        let end = at.saturating_add(len);
        let place = self.table().get(at..end).ok_or(Unanswered::Form)?;
        let bytes = Dashed(Some(place));
        write!(text, "{bytes}")?;
        Ok(())
    }

    fn feed(&mut self, bytes: &[u8], text: &mut String) -> Answered {
        let (state, count) = (self.state, self.count);
        let r = wing_mirror::feed::feed(state, self.table_mut(), count, bytes);
        self.state = r.state;
        self.count = r.count;
        fed(text, r.answer)
    }

    fn send(&mut self, alloc: Global, what: &Sent, room: usize, text: &mut String) -> Answered {
        let mut lent = vec![in alloc; show::MARK; room]?;
        let count = self.count;
        let r = written(what, self.table_mut(), count, &mut lent);
        self.count = r.count;
        let w = r.answer;
        of_written(text, w, "sent", &lent)
    }

    // The memory past the last record holds what it held when the mirror was fresh. Each record is read by itself, as the table of
    // one place that it is: so the places of the whole are no matter.
    fn dump(&self, text: &mut String) -> Answered {
        let count = self.count;
        if !table::is_sound(self.table(), count) {
            return tell_refused(text, Refusal::TableUnsound);
        }
        let records = count.saturating_mul(PLACE);
        let clean = show::clean(show::all_same(&self.memory, records, self.fill));
        write!(text, "{count} records {clean}")?;
        for place in self.table().chunks(PLACE).take(count) {
            text.push(' ')?;
            record(text, query::record(place, 1, 0))?;
        }
        Ok(())
    }
}

fn fed(text: &mut String, a: Result<answer::Counts, Refusal>) -> Answered {
    match a {
        Ok(c) => counts(text, c),
        Err(why) => tell_refused(text, why),
    }
}

fn counts(text: &mut String, c: answer::Counts) -> Answered {
    let answer::Counts {
        stored,
        unplaced,
        strings_refused: strings,
        definitions_read: read,
        definitions_refused: refused,
        ends,
    } = c;
    write!(
        text,
        "fed {stored} {unplaced} {strings} {read} {refused} {ends}"
    )?;
    Ok(())
}

// A set or a recall.
fn written(what: &Sent, table: &mut [u8], count: usize, lent: &mut [u8]) -> answer::SetReply {
    match what {
        Sent::Int(id, x) => set::set_int(table, count, lent, *id, *x),
        Sent::Float(id, bits) => set::set_float(table, count, lent, *id, *bits),
        Sent::String(id, s) => set::set_string(table, count, lent, *id, s),
        Sent::Recall => answer::SetReply {
            answer: recall::recall(table, count, lent),
            count,
        },
    }
}

fn value(text: &mut String, id: i32, v: Value, string: &[u8]) -> Answered {
    match v {
        Value::Integer(x) => write!(text, "{id},i,{x}")?,
        Value::Float(bits) => write!(text, "{id},f,{bits:08x}")?,
        Value::String(n) => {
            let pairs = Pairs(string.get(..n as usize));
            write!(text, "{id},s,{pairs}")?
        }
    }
    Ok(())
}

type Record = Result<answer::RecordRead, Refusal>;

// A record as mirror lists it, and its origin; a refusal has none.
fn record(text: &mut String, r: Record) -> Result<Option<origin::Origin>, Unanswered> {
    match r {
        Ok(r) => {
            value(text, r.id, r.value, &r.string)?;
            Ok(Some(r.origin))
        }
        Err(why) => {
            tell_refused(text, why)?;
            Ok(None)
        }
    }
}

fn entry_origin(text: &mut String, r: Record) -> Answered {
    if let Some(origin) = record(text, r)? {
        let number = u8::from(origin);
        write!(text, " origin {number}")?;
    }
    Ok(())
}

fn found(text: &mut String, a: Result<Option<usize>, Refusal>) -> Answered {
    match a {
        Ok(Some(n)) => write!(text, "at {n}")?,
        Ok(None) => write!(text, "none")?,
        Err(why) => tell_refused(text, why)?,
    }
    Ok(())
}
