// Commands and definitions, each written into an output of a given length, and meter packets: what was written, and
// whether the output is as it was past it.
use crate::mirror::ROOM;
use crate::show;
use crate::show::{Answered, Dashed, Pairs, Unanswered, tell_refused, tell_short};
use crate::words::Words;
use std::alloc::Global;
use wing_node::refusal::Refusal;
use wing_node::writer::Fields;
use wing_node::{anew, writer};
use wing_wire::meter::Meter;
use wing_wire::{meter, request, set};

const READING_MARK: i16 = 0x6eee;

// Keep-alives of 13 bytes for 65,536 ids.
const KEEP_ALIVES: usize = 851968;

const READINGS: usize = 4200;

// A command's writer with what it is given.
#[derive(Drop)]
pub enum Command {
    SetInt(i32, i32),
    SetFloat(i32, u32),
    SetString(i32, Vec<u8>),
    Format {
        id: i32,
        prefix: u8,
        suffix: Option<u8>,
    },
    AskDefinition(i32),
    AskData(i32),
    AskMeters(Request),
    KeepAlive {
        last: u16,
        port: u16,
    },
}

// The meters that are asked for, by kind and index; past them the other one.
#[derive(Drop)]
pub struct Request {
    port: u16,
    last: u16,
    count: usize,
    other: Meter,
    meters: Vec<u8>,
}

// An order whose answer is short.
#[derive(Drop)]
pub enum Order {
    Write { room: usize, command: Command },
    Packet { room: usize, bytes: Vec<u8> },
}

// An order to write a definition's body, or to write one anew.
#[derive(Drop)]
pub enum Body {
    Define(Definition),
    Again(Vec<u8>),
}

#[derive(Drop)]
pub struct Definition {
    fields: Fields,
    name: Vec<u8>,
    long_name: Vec<u8>,
    items: Vec<u8>,
    room: usize,
}

// A suffix has one byte or none.
fn suffix(bytes: &[u8]) -> Result<Option<u8>, Unanswered> {
    match bytes {
        [] => Ok(None),
        [b] => Ok(Some(*b)),
        _ => Err(Unanswered::Form),
    }
}

// Past the items: rta, unless the order names a meter.
fn meters(alloc: Global, name: &str, words: &mut Words) -> Result<Command, Unanswered> {
    let port = words.number()?;
    let last = words.number()?;
    let count = words.up_to(255)?;
    let other = if name == "askmetersfill" {
        let named = words.hex(4)?;
        meter_of((named / 0x100 % 0x100) as u8, (named % 0x100) as u8)
    } else {
        Meter::Rta
    };
    let meters = words.bytes(alloc)?;
    Ok(Command::AskMeters(Request {
        port,
        last,
        count,
        other,
        meters,
    }))
}

fn command_of(alloc: Global, name: &str, words: &mut Words) -> Result<Command, Unanswered> {
    Ok(match name {
        "setint" => Command::SetInt(words.number()?, words.number()?),
        "setfloat" => Command::SetFloat(words.number()?, words.hex(8)?),
        "setstring" => Command::SetString(words.number()?, words.bytes(alloc)?),
        "format" => Command::Format {
            id: words.number()?,
            prefix: (words.hex(2)? % 0x100) as u8,
            suffix: suffix(&words.bytes(alloc)?)?,
        },
        "askdefinition" => Command::AskDefinition(words.number()?),
        "askdata" => Command::AskData(words.number()?),
        "askmeters" | "askmetersfill" => meters(alloc, name, words)?,
        "keepalive" => Command::KeepAlive {
            last: words.number()?,
            port: words.number()?,
        },
        _ => return Err(Unanswered::Form),
    })
}

pub fn parse(alloc: Global, name: &str, words: &mut Words) -> Result<Order, Unanswered> {
    if name == "packet" {
        let room = words.up_to(READINGS)?;
        let bytes = words.bytes_or_held(alloc)?;
        return Ok(Order::Packet { room, bytes });
    }
    let most = if name == "keepalive" {
        KEEP_ALIVES
    } else {
        ROOM
    };
    let room = words.up_to(most)?;
    let command = command_of(alloc, name, words)?;
    Ok(Order::Write { room, command })
}

// The limits are handed over as float bits and as integers: the writer takes those that the type has.
fn fields(words: &mut Words) -> Result<Fields, Unanswered> {
    let parent_id = words.number()?;
    let id = words.number()?;
    let index = words.number()?;
    let node_type = words.number()?;
    let unit = words.number()?;
    let read_only = words.up_to(1)? == 1;
    let min = words.hex(8)?;
    let max = words.hex(8)?;
    Ok(Fields {
        parent_id,
        id,
        index,
        node_type,
        unit,
        read_only,
        min_float: min,
        max_float: max,
        min_int: min.cast_signed(),
        max_int: max.cast_signed(),
        steps: words.number()?,
        count: words.number()?,
        max_len: words.number()?,
    })
}

pub fn parse_body(
    alloc: Global,
    name: &str,
    words: &mut Words,
) -> Result<Option<Body>, Unanswered> {
    let body = match name {
        "define" => Body::Define(Definition {
            fields: fields(words)?,
            name: words.bytes(alloc)?,
            long_name: words.bytes(alloc)?,
            items: words.bytes(alloc)?,
            room: words.up_to(ROOM)?,
        }),
        "again" => Body::Again(words.bytes(alloc)?),
        _ => return Ok(None),
    };
    Ok(Some(body))
}

// 01's order. A kind past the last is rta.
fn meter_of(kind: u8, index: u8) -> Meter {
    match kind {
        0x00 => Meter::Channel(index),
        0x01 => Meter::Aux(index),
        0x02 => Meter::Bus(index),
        0x03 => Meter::Main(index),
        0x04 => Meter::Matrix(index),
        0x05 => Meter::Dca(index),
        0x06 => Meter::Fx(index),
        0x07 => Meter::Source(index),
        0x08 => Meter::Output(index),
        0x09 => Meter::Monitor,
        0x0b => Meter::Channel2(index),
        0x0c => Meter::Aux2(index),
        0x0d => Meter::Bus2(index),
        0x0e => Meter::Main2(index),
        0x0f => Meter::Matrix2(index),
        _ => Meter::Rta,
    }
}

// A missing last index is 0.
fn meters_of(items: &[u8], other: Meter) -> [Meter; 64] {
    let mut meters = [other; 64];
    for (meter, item) in meters.iter_mut().zip(items.chunks(2)) {
        *meter = match item {
            [kind, index] => meter_of(*kind, *index),
            [kind] => meter_of(*kind, 0),
            _ => other,
        };
    }
    meters
}

fn ask_meters(r: &Request, lent: &mut [u8]) -> Result<meter::Requested, Refusal> {
    let meters = meters_of(&r.meters, r.other);
    meter::request_meter(lent, meters, r.count, r.port, r.last)
}

// One call of the writer that the command names.
fn written(text: &mut String, command: &Command, lent: &mut [u8]) -> Answered {
    let w = match command {
        Command::SetInt(id, x) => set::set_int(lent, *id, *x),
        Command::SetFloat(id, bits) => set::set_float(lent, *id, *bits),
        Command::SetString(id, s) => set::set_string(lent, *id, s),
        Command::Format { id, prefix, suffix } => { set::format_id(lent, *id, *prefix, *suffix) }
        Command::AskDefinition(id) => request::request_node_definition(lent, *id),
        Command::AskData(id) => request::request_node_data(lent, *id),
        Command::AskMeters(r) => {
            let asked = ask_meters(r, lent);
            return of_requested(text, asked, lent);
        }
        Command::KeepAlive { last, port } => meter::keep_alive_meters(lent, *last, *port),
    };
    of_command(text, w, lent)
}

pub fn obey(alloc: Global, order: Order, text: &mut String) -> Answered {
    match order {
        Order::Write { room, command } => {
            let mut lent = vec![in alloc; show::MARK; room]?;
            written(text, &command, &mut lent)
        }
        Order::Packet { room, bytes } => {
            let mut lent = vec![in alloc; READING_MARK; room]?;
            let r = meter::read_meters(&bytes, &mut lent);
            of_read(text, r, &lent)
        }
    }
}

// A body written anew that has the same bytes is answered by a word.
pub fn obey_body(alloc: Global, order: Body, text: &mut String) -> Answered {
    match order {
        Body::Define(d) => {
            let mut lent = vec![in alloc; show::MARK; d.room]?;
            let w = writer::to_bytes(d.fields, &d.name, &d.long_name, &d.items, &mut lent);
            of_body(text, w, &lent)
        }
        Body::Again(bytes) => {
            let mut lent = vec![in alloc; show::MARK; 4096]?;
            let w = anew::write_anew(&bytes, &mut lent);
            of_again(text, w, &lent, &bytes)
        }
    }
}

// What a call wrote, after a word for it, or the refusal, and whether the rest of the output is as it was.
pub fn of_written(
    text: &mut String,
    w: Result<usize, Refusal>,
    word: &str,
    lent: &[u8],
) -> Answered {
    match w {
        Ok(len) => told(text, word, lent, len),
        Err(why) => told_refused(text, why, lent),
    }
}

fn of_body(text: &mut String, w: Result<usize, Refusal>, lent: &[u8]) -> Answered {
    match w {
        Ok(len) => told(text, "wrote", lent, len),
        Err(why) => told_refused(text, why, lent),
    }
}

fn told(text: &mut String, word: &str, lent: &[u8], len: usize) -> Answered {
    let bytes = Dashed(lent.get(..len));
    let clean = show::clean(show::is_kept(lent, len));
    write!(text, "{word} {bytes} {clean}")?;
    Ok(())
}

fn told_refused(text: &mut String, why: Refusal, lent: &[u8]) -> Answered {
    tell_refused(text, why)?;
    let clean = show::clean(show::is_kept(lent, 0));
    write!(text, " {clean}")?;
    Ok(())
}

fn of_again(text: &mut String, w: Result<usize, Refusal>, lent: &[u8], before: &[u8]) -> Answered {
    match w {
        Ok(len) => again(text, lent.get(..len), before),
        Err(why) => tell_refused(text, why),
    }
}

fn again(text: &mut String, written: Option<&[u8]>, before: &[u8]) -> Answered {
    if written == Some(before) {
        text.push_str("same")?;
        return Ok(());
    }
    let bytes = Dashed(written);
    write!(text, "other {bytes}")?;
    Ok(())
}

fn of_command(text: &mut String, w: Result<usize, Refusal>, lent: &[u8]) -> Answered {
    match w {
        Ok(len) => shortly(text, 0, lent, len),
        Err(why) => shortly_refused(text, why, lent),
    }
}

fn of_requested(text: &mut String, r: Result<meter::Requested, Refusal>, lent: &[u8]) -> Answered {
    match r {
        Ok(r) => shortly(text, r.id, lent, r.len),
        Err(why) => shortly_refused(text, why, lent),
    }
}

// The meter id, 0 where there is none, and the bytes.
fn shortly(text: &mut String, id: u16, lent: &[u8], len: usize) -> Answered {
    let bytes = Pairs(lent.get(..len));
    let kept = show::is_kept(lent, len) as u8;
    write!(text, "{id:04x}{bytes}{kept}")?;
    Ok(())
}

fn shortly_refused(text: &mut String, why: Refusal, lent: &[u8]) -> Answered {
    tell_short(text, why)?;
    let kept = show::is_kept(lent, 0) as u8;
    write!(text, "{kept}")?;
    Ok(())
}

fn of_read(text: &mut String, r: Result<meter::MetersRead, Refusal>, lent: &[i16]) -> Answered {
    match r {
        Ok(r) => readings(text, r.id, r.count, lent),
        Err(why) => {
            tell_short(text, why)?;
            kept_readings(text, 0, lent)
        }
    }
}

fn readings(text: &mut String, id: u16, count: usize, lent: &[i16]) -> Answered {
    write!(text, "{id:04x}{count:08x}:")?;
    for reading in lent.iter().take(count) {
        write!(text, "{reading:04x}")?;
    }
    kept_readings(text, count, lent)
}

// Whether the output is as it was from a place on.
fn kept_readings(text: &mut String, from: usize, lent: &[i16]) -> Answered {
    let past = lent.get(from..).unwrap_or(&[]);
    let kept = past.iter().all(|x| *x == READING_MARK) as u8;
    write!(text, "{kept}")?;
    Ok(())
}
