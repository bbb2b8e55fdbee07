// A record of the table, 264 bytes: where it stands in the order, whether it has 01's form, what it holds, and how one is laid.
ghost use Rattle.std.specs.Prelude.{◌≡◌, false, ◌≤◌, length, take, replicate};
ghost use Rattle.wing_node.specs.Field.{bytes_of};
ghost use Rattle.wing_node.specs.Value.{node_value};
ghost use Rattle.wing_mirror.specs.Entry.{flipped, rank_of, entry};
ghost use Rattle.wing_mirror.specs.Call.{too_long};
ghost use Rattle.wing_mirror.specs.Origin.{origin_of};
ghost use Rattle.wing_mirror.specs.Record.{width, key_of, string_kept, well_kept, well_formed, id_in, payload_in, value_in, origin_byte, record_of, head_from, laid_from};

use crate::bytes;
use crate::origin::Origin;
use wing_node::field::{number_at, put_number};
use wing_node::utf8::is_utf8;
use wing_node::value::Value;
use wing_wire::state::{State, zeros_from};

// 01: a place is 264 bytes.
pub(crate) type Record = [u8; State::PLACE_WIDTH];

// Signed order as the order of numbers: the top bit the other way.
fn flip(bits: u32) -> u32
    ensures { result ≡ flipped bits }
{
    bits.wrapping_add(0x8000_0000)
}

// Where an id stands in the order.
pub(crate) fn rank(id: i32) -> u32
    ensures { result ≡ rank_of id }
{
    flip(id.cast_unsigned())
}

// Where a record stands in the order: its id is its first four bytes.
pub(crate) fn key<const W: usize>(rec: &[u8; W]) -> u32
    requires { 4 ≤ W }
    ensures { result ≡ key_of rec.now }
{
    flip(number_at::<u32>(rec, 0))
}

// 01: the payload, 256 bytes.
pub(crate) fn payload(rec: &Record) -> &[u8; 256]
    ensures { result.now ≡ payload_in rec.now }
{
    &rec[8..].as_chunks().0[0]
}

// A string's length is 0 to 256, its bytes are UTF-8, and 0 stands after them.
#[tactic(auto, unfolding(crate::specs::Record::string_kept))]
fn string_kept(n: u16, payload: &[u8; 256]) -> bool
    ensures { result ≡ string_kept n payload.now }
{
    let len = n as usize;
    len <= 256 && zeros_from(payload, len) && is_utf8(&payload[..len])
}

// Kinds are 01's bytes here, read once in this match and once in value_in, where Value is the enum of them.
#[tactic(auto, unfolding(crate::specs::Record::well_kept))]
fn well_kept(kind: u8, n: u16, payload: &[u8; 256]) -> bool
    ensures { result ≡ well_kept kind n payload.now }
{
    match kind {
        0 | 1 => n == 4 && zeros_from(payload, 4),
        2 => string_kept(n, payload),
        _ => false,
    }
}

pub(crate) fn well_formed(rec: &Record) -> bool
    ensures { result ≡ well_formed rec.now }
{
    let origin = rec[5];
    origin <= 1 && well_kept(rec[4], number_at::<u16>(rec, 6), payload(rec))
}

pub(crate) fn id_in(rec: &Record) -> i32
    ensures { result ≡ id_in rec.now }
{
    number_at::<i32>(rec, 0)
}

// Its value, whatever its form. A string's bytes stand in the payload, as many as its length.
pub(crate) fn value_in(rec: &Record) -> Value
    ensures { node_value result (payload_in rec.now) ≡ value_in rec.now }
{
    match rec[4] {
        0 => Value::Integer(number_at::<i32>(rec, 8)),
        1 => Value::Float(number_at::<u32>(rec, 8)),
        _ => Value::String(number_at::<u16>(rec, 6)),
    }
}

// 02: who gave its value.
pub(crate) fn origin_in(rec: &Record) -> Origin
    ensures { result ≡ origin_of (origin_byte rec.now) }
{
    if rec[5] == 0 {
        return Origin::Console;
    }
    Origin::SetOrder
}

// Kind, length and payload of a number.
fn lay_number(out: &mut Record, kind: u8, bits: u32)
    ensures { out.new ≡ laid_from out.old kind (bytes_of 4 bits) }
{
    out[4] = kind;
    put_number::<u16>(out, 6, 4);
    put_number(out, 8, bits);
}

// Kind, length and payload of a string, the first n of the bytes lent.
fn lay_string(out: &mut Record, string: &[u8], n: u16)
    requires { length (take n string.now) ≤ 256 }
    ensures { out.new ≡ laid_from out.old 2 (take n string.now) }
{
    let len = (n as usize).min(string.len());
    out[4] = 2;
    put_number(out, 6, len as u16);
    bytes::lay(out, 8, &string[..len]);
}

// The id and, by 02, the origin.
fn lay_head(out: &mut Record, id: i32, origin: Origin)
    ensures { out.new ≡ head_from out.old id origin }
{
    put_number(out, 0, id);
    out[5] = u8::from(origin);
}

// The record of an id, a value and its origin, laid over zeros; a string's bytes stand beside its length. Into an array that is lent: by value it
// was copied twice for each value of a feed.
pub(crate) fn lay_record(out: &mut Record, id: i32, value: Value, string: &[u8], origin: Origin)
    requires { (out.old ≡ replicate width 0) × (too_long (node_value value string.now) ≡ false) }
    ensures { out.new ≡ record_of (entry id (node_value value string.now) origin) }
{
    lay_head(out, id, origin);
    match value {
        Value::Integer(x) => lay_number(out, 0, x.cast_unsigned()),
        Value::Float(bits) => lay_number(out, 1, bits),
        Value::String(n) => lay_string(out, string, n),
    }
}
