// Recall: a table's records as set orders. 01: 7, then 9; refused, the output is as it was.
ghost use Rattle.std.specs.Prelude.{◌≡◌, true, ◌+◌, ◌*◌, ◌≤◌, length};
ghost use Rattle.wing_wire.specs.Write.{Laid, write_effect, write_of};
ghost use Rattle.wing_mirror.specs.Record.{width, well_formed, full};
ghost use Rattle.wing_mirror.specs.Table.{table as table_of, rows, row_at, usable};
ghost use Rattle.wing_mirror.specs.Recall.{recall_bytes, recall_of};
ghost use Rattle.wing_mirror.specs.Sending.{order_in, orders_of, size_in};

use crate::record::{self, Record};
use crate::table::{is_usable, row};
use wing_node::refusal::Refusal;
use wing_node::value::Value;
use wing_wire::set;

// The set order of what a record holds. Not by `send`, which would be a call for each record, with the value in memory.
fn send_record(out: &mut [u8], rec: &Record) -> Result<usize, Refusal>
    requires { well_formed rec.now ≡ true }
    ensures { write_effect result out.new ≡ write_of (order_in rec.now) out.old }
{
    let id = record::id_in(rec);
    let value = record::value_in(rec);
    match value {
        Value::Integer(x) => set::set_int(out, id, x),
        Value::Float(bits) => set::set_float(out, id, bits),
        Value::String(n) => {
            let bytes = record::payload(rec);
            let len = (n as usize).min(bytes.len());
            set::set_string(out, id, &bytes[..len])
        }
    }
}

fn size_in(w: Result<usize, Refusal>) -> usize
    ensures { result ≡ size_in w }
{
    match w {
        Ok(n) => n,
        Err(_) => 0,
    }
}

// The set order of the record of a number, into an output that has room for it.
fn lay_order(out: &mut [u8], table: &[u8], number: usize) -> usize
    requires { (width * number + width ≤ length table.now) × (well_formed (row_at number table.now) ≡ true) × (length (order_in (row_at number table.now)) ≤ length out.old) }
    ensures { Laid (order_in (row_at number table.now)) 0 out.old out.new result }
{
    let sent = send_record(out, row(table, number));
    size_in(sent)
}

// How many bytes the set orders take. The scratch buffer has room for any of them.
fn orders_len(table: &[u8], count: usize) -> usize
    requires { usable full (table_of table.now count) ≡ true }
    ensures { result ≡ length (orders_of (rows full (table_of table.now count))) }
{
    let mut scratch = [0u8; 395];
    let mut total = 0;
    for number in 0..count {
        total += lay_order(&mut scratch, table, number);
    }
    total
}

// 01: df d1, then each record's order in the part of the output after the last one.
fn lay_recall(out: &mut [u8], table: &[u8], count: usize) -> usize
    requires { (usable full (table_of table.now count) ≡ true) × (length (recall_bytes full (table_of table.now count)) ≤ length out.old) }
    ensures { Laid (recall_bytes full (table_of table.now count)) 0 out.old out.new result }
{
    out[0] = 0xdf;
    out[1] = 0xd1;
    let mut at = 2;
    for number in 0..count {
        at += lay_order(&mut out[at..], table, number);
    }
    at
}

// No set order is longer than 395 bytes: an output with room for as many such is not measured.
pub fn recall(table: &[u8], count: usize, out: &mut [u8]) -> Result<usize, Refusal>
    ensures { write_effect result out.new ≡ recall_of full (table_of table.now count) out.old }
{
    if is_usable(table, count) {
        if out.len() < 2 + 395 * count && out.len() < 2 + orders_len(table, count) {
            return Err(Refusal::OutputShort);
        }
        return Ok(lay_recall(out, table, count));
    }
    Err(Refusal::TableUnsound)
}
