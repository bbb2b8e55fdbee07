// What a table is asked: an id's record number, a record, and whether two tables are the same.
ghost use Rattle.std.specs.Prelude.{◌≡◌, ◌*◌, ◌≤◌, length, take};
ghost use Rattle.wing_node.specs.Value.{string as string_of};
ghost use Rattle.wing_mirror.specs.Rows.{records, number_of};
ghost use Rattle.wing_mirror.specs.Entry.{entry};
ghost use Rattle.wing_mirror.specs.Record.{width, key_of, entry_in, full};
ghost use Rattle.wing_mirror.specs.Table.{table as table_of};
ghost use Rattle.wing_mirror.specs.Order.{InOrder};
ghost use Rattle.wing_mirror.specs.Query.{lookup_answer, answer_of, read_of, beside_zeros, record_answer, same_tables, same_answer};

use crate::answer::RecordRead;
use crate::bytes::lay;
use crate::order::search;
use crate::origin::Origin;
use crate::record::{Record, id_in, origin_in, payload, rank, value_in};
use crate::table::{is_usable, row};
use wing_node::refusal::Refusal;
use wing_node::value::Value;
use wing_wire::state::State;

fn number_of<const W: usize>(table: &[u8], count: usize, key: u32) -> Result<Option<usize>, Refusal>
    requires { InOrder W (table_of table.now count) }
    ensures { result ≡ answer_of (number_of key_of key (records W count table.now)) }
{
    match search::<W>(table, count, key) {
        Ok(number) => Ok(Some(number)),
        Err(_) => Ok(None),
    }
}

// 01: an id's record number, or none. 7.
pub fn lookup(table: &[u8], count: usize, id: i32) -> Result<Option<usize>, Refusal>
    ensures { result ≡ lookup_answer full (table_of table.now count) id }
{
    if is_usable(table, count) {
        return number_of::<{ State::PLACE_WIDTH }>(table, count, rank(id));
    }
    Err(Refusal::TableUnsound)
}

// The first n of a payload's bytes.
fn string_read(id: i32, n: u16, payload: &[u8; 256], origin: Origin) -> RecordRead
    ensures { result ≡ read_of (entry id (string_of (take n payload.now)) origin) }
{
    let len = (n as usize).min(256);
    let mut string = [0u8; 256];
    lay(&mut string, 0, &payload[..len]);
    let value = Value::String(len as u16);
    RecordRead {
        id,
        value,
        origin,
        string,
    }
}

// A value with no bytes beside it.
fn number_read(id: i32, value: Value, origin: Origin) -> RecordRead
    ensures { result ≡ beside_zeros id value origin }
{
    RecordRead {
        id,
        value,
        origin,
        string: [0u8; 256],
    }
}

// What a record says.
fn read_record(rec: &Record) -> RecordRead
    ensures { result ≡ read_of (entry_in rec.now) }
{
    let id = id_in(rec);
    let value = value_in(rec);
    let origin = origin_in(rec);
    match value {
        Value::Integer(_) => number_read(id, value, origin),
        Value::Float(_) => number_read(id, value, origin),
        Value::String(n) => string_read(id, n, payload(rec), origin),
    }
}

// 01: a record is read by number, from 0: its id and value, the bytes of a string beside it; 02: and its origin. 7, 14.
pub fn record(table: &[u8], count: usize, number: usize) -> Result<RecordRead, Refusal>
    ensures { result ≡ record_answer full (table_of table.now count) number }
{
    if is_usable(table, count) {
        if number < count {
            return Ok(read_record(row(table, number)));
        }
        return Err(Refusal::NumberOver);
    }
    Err(Refusal::TableUnsound)
}

fn same_records(a: &[u8], count_a: usize, b: &[u8], count_b: usize) -> bool
    requires { (width * count_a ≤ length a.now) × (width * count_b ≤ length b.now) }
    ensures { result ≡ same_tables full (table_of a.now count_a) (table_of b.now count_b) }
{
    let end = State::PLACE_WIDTH * count_a;
    count_a == count_b && a[..end] == b[..end]
}

// 01: two mirrors are equal if count and records are, 02: origins included. 7 for either table.
#[tactic(auto, unfolding(crate::specs::Query::same_answer))]
pub fn same(a: &[u8], count_a: usize, b: &[u8], count_b: usize) -> Result<bool, Refusal>
    ensures { result ≡ same_answer full (table_of a.now count_a) (table_of b.now count_b) }
{
    if is_usable(a, count_a) && is_usable(b, count_b) {
        return Ok(same_records(a, count_a, b, count_b));
    }
    Err(Refusal::TableUnsound)
}
