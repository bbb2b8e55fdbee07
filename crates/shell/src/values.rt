// Characters, the getters of values, and what one byte more makes of a front.
use crate::show::{Answered, Pairs, Unanswered, expect};
use crate::words::Words;
use crate::{places, streams};
use std::alloc::Global;
use wing_node::value::Value;
use wing_node::{field, utf8, value};
use wing_wire::state::zeros_from;

// The longest string.
pub const STRING: usize = 256;

#[derive(Drop)]
pub enum Order {
    Utf8(Vec<u8>),
    // These two are of the byte strings that are one byte longer.
    Utf8s(Vec<u8>),
    Streams(Vec<u8>),
    Places(Vec<u8>),
    // A value whose array holds so many bytes; those past them are none that a getter may give.
    Getters { value: Value, bytes: Vec<u8> },
}

// A value by its kind and the bytes of its array.
fn value_of(kind: usize, s: &[u8]) -> Result<Value, Unanswered> {
    match (kind, s.len()) {
        (0, 4) => Ok(Value::Integer(field::number_at::<i32>(s, 0))),
        (1, 4) => Ok(Value::Float(field::number_at::<u32>(s, 0))),
        (2, 0..=STRING) => Ok(Value::String(s.len() as u16)),
        _ => Err(Unanswered::Form),
    }
}

fn getters(alloc: Global, words: &mut Words) -> Result<Order, Unanswered> {
    let kind = words.up_to(2)?;
    let bytes = words.bytes(alloc)?;
    let value = value_of(kind, &bytes)?;
    Ok(Order::Getters { value, bytes })
}

pub fn parse(alloc: Global, name: &str, words: &mut Words) -> Result<Option<Order>, Unanswered> {
    let order = match name {
        "utf8" => Order::Utf8(words.bytes(alloc)?),
        "utf8s" => Order::Utf8s(words.bytes(alloc)?),
        "streams" => Order::Streams(words.bytes(alloc)?),
        "places" => Order::Places(words.bytes(alloc)?),
        "getters" => getters(alloc, words)?,
        "getstring" => Order::Getters {
            value: Value::String(words.number()?),
            bytes: words.bytes(alloc)?,
        },
        _ => return Ok(None),
    };
    Ok(Some(order))
}

// Whether the bytes are UTF-8, and their good.
fn characters(text: &mut String, s: &[u8]) -> Answered {
    let is_utf8 = utf8::is_utf8(s) as u8;
    let good = utf8::good_len(s);
    write!(text, "{is_utf8}{good:04x}")?;
    Ok(())
}

// The 256 byte strings that are one byte longer than a front, as characters or as a stream.
fn one_more<F: Fn(&mut String, &[u8]) -> Answered>(
    text: &mut String,
    mut front: Vec<u8>,
    longest: usize,
    tell: F,
) -> Answered
    requires { F.IsAlwaysCallable tell }
{
    if longest < front.len() {
        return Err(Unanswered::Form);
    }
    for last in u8::MIN..=u8::MAX {
        front.push(last)?;
        tell(text, &front)?;
        front.pop();
    }
    Ok(())
}

// The integer that a value gives, and its string.
fn got(text: &mut String, v: Value, s: &[u8]) -> Answered {
    let mut array = [0xee; STRING];
    let place = array.get_mut(..s.len()).ok_or(Unanswered::Form)?;
    place.copy_from_slice(s);
    let int = value::get_int(v);
    write!(text, "{int:08x}")?;
    match value::get_string(v, array) {
        None => Ok(text.push('-')?),
        Some(r) => string(text, &r.bytes, r.len as usize),
    }
}

// The bytes past the string must be 0.
fn string(text: &mut String, bytes: &[u8], n: usize) -> Answered {
    let pairs = Pairs(bytes.get(..n));
    write!(text, "s{pairs}")?;
    expect(text, zeros_from(bytes, n))
}

pub fn obey(order: Order, text: &mut String) -> Answered {
    match order {
        Order::Utf8(bytes) => characters(text, &bytes),
        Order::Utf8s(bytes) => one_more(text, bytes, 255, characters),
        Order::Streams(bytes) => one_more(text, bytes, 63, streams::stream),
        Order::Places(bytes) => places::all(text, &bytes),
        Order::Getters { value, bytes } => got(text, value, &bytes),
    }
}
