// Set through the mirror: the command is written and the value stored. 01: 7, 10, 1, 6, 9; refused, all is as it was.
ghost use Rattle.std.specs.Prelude.{◌≡◌, true};
ghost use Rattle.wing_node.specs.Bool.{if};
ghost use Rattle.wing_node.specs.Value.{integer, float, string as string_of, node_value};
ghost use Rattle.wing_mirror.specs.Entry.{storable};
ghost use Rattle.wing_mirror.specs.Record.{full};
ghost use Rattle.wing_mirror.specs.Table.{table as table_of, usable};
ghost use Rattle.wing_mirror.specs.Mirror.{mirror_set, set_effect};
ghost use Rattle.wing_mirror.specs.Sets.{replied, kept_of, refused_set_reply};
ghost use Rattle.wing_node.specs.declared.refusal.Refusal.TheVariants.{TableUnsound};

use crate::answer::SetReply;
use crate::origin::Origin;
use crate::record::{Record, lay_record};
use crate::send::send;
use crate::store::{has_room, put};
use crate::table::is_usable;
use wing_node::refusal::{Refusal, string_fault};
use wing_node::value::Value;
use wing_wire::state::State;

fn refused(why: Refusal, count: usize) -> SetReply
    ensures { result ≡ refused_set_reply why count }
{
    SetReply {
        answer: Err(why),
        count,
    }
}

// Stored if its command was written.
fn keep_written(
    table: &mut [u8],
    count: usize,
    rec: &Record,
    written: Result<usize, Refusal>,
) -> SetReply
    requires { usable full (table_of table.old count) ≡ true }
    ensures { replied result table.new ≡ kept_of full written rec.now (table_of table.old count) }
{
    match written {
        Ok(n) => {
            let kept = put(table, count, rec).unwrap_or(count);
            SetReply {
                answer: Ok(n),
                count: kept,
            }
        }
        Err(why) => refused(why, count),
    }
}

// A value that may be stored. 01: 7, 6, 9. 02: a set order gave it.
fn set_value(
    table: &mut [u8],
    count: usize,
    out: &mut [u8],
    id: i32,
    value: Value,
    string: &[u8],
) -> SetReply
    requires { storable (node_value value string.now) ≡ true }
    ensures { set_effect result out.new table.new ≡ mirror_set full id (node_value value string.now) (table_of table.old count) out.old }
{
    if is_usable(table, count) {
        let mut rec = [0u8; State::PLACE_WIDTH];
        lay_record(&mut rec, id, value, string, Origin::SetOrder);
        if has_room(table, count, &rec) {
            let written = send(out, id, value, string);
            return keep_written(table, count, &rec, written);
        }
        return refused(Refusal::NoPlace, count);
    }
    refused(Refusal::TableUnsound, count)
}

// 01: set through the mirror writes the command and stores the value. 7, 6, 9.
pub fn set_int(table: &mut [u8], count: usize, out: &mut [u8], id: i32, value: i32) -> SetReply
    ensures { set_effect result out.new table.new ≡ mirror_set full id (integer value) (table_of table.old count) out.old }
{
    set_value(table, count, out, id, Value::Integer(value), b"")
}

// The same for a float, by its 32 bits.
pub fn set_float(table: &mut [u8], count: usize, out: &mut [u8], id: i32, bits: u32) -> SetReply
    ensures { set_effect result out.new table.new ≡ mirror_set full id (float bits) (table_of table.old count) out.old }
{
    set_value(table, count, out, id, Value::Float(bits), b"")
}

// A string's set that is refused for what it is: 7 before that.
fn refused_string(table: &[u8], count: usize, why: Refusal) -> SetReply
    ensures { result ≡ refused_set_reply (if (usable full (table_of table.now count)) why TableUnsound) count }
{
    if is_usable(table, count) {
        return refused(why, count);
    }
    refused(Refusal::TableUnsound, count)
}

// The same for a string. 7, 10, 1, 6, 9.
pub fn set_string(table: &mut [u8], count: usize, out: &mut [u8], id: i32, value: &[u8]) -> SetReply
    ensures { set_effect result out.new table.new ≡ mirror_set full id (string_of value.now) (table_of table.old count) out.old }
{
    if value.len() <= 256 {
        let string = Value::String(value.len() as u16);
        return match string_fault(value, 256) {
            Ok(()) => set_value(table, count, out, id, string, value),
            Err(why) => refused_string(table, count, why),
        };
    }
    refused_string(table, count, Refusal::StringLong)
}
