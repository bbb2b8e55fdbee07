// The mirror: a state's bytes, a table buffer and its count.
ghost use Rattle.std.specs.Prelude.{◌≡◌, true, pos, length, is_ok};
ghost use Rattle.wing_node.specs.Bool.{if};
ghost use Rattle.wing_node.specs.Value.{integer, float, string as string_of};
ghost use Rattle.wing_wire.specs.State.{sound_state};
ghost use Rattle.wing_saved.specs.Saved.{saved_size, state_from, HeadOf};
ghost use Rattle.wing_mirror.specs.Record.{full};
ghost use Rattle.wing_mirror.specs.Table.{table as table_of, usable};
ghost use Rattle.wing_mirror.specs.Mirror.{mirror_set};
ghost use Rattle.wing_mirror.specs.Recall.{recall_of};
ghost use Rattle.wing_mirror.specs.Query.{lookup_answer, record_answer, same_answer};
ghost use Rattle.wing_c.specs.Numbers.{minus, lookup_numbers, record_numbers, same_number};
ghost use Rattle.wing_c.specs.Written.{command, command_of, mirror_command, mirror_command_of};
ghost use Rattle.wing_c.specs.Kept.{state_in, kept_feed, state_after, read_after, feed_kept, state_fed};

use crate::answers;
use crate::answers::{WingFed, WingLookup, WingRecord, WingSet, WingWritten};
use crate::kept::keep;
use wing_mirror::answer::Counts;
use wing_mirror::feed::feed_lent;
use wing_mirror::recall::recall;
use wing_mirror::table::is_usable;
use wing_mirror::{query, set};
use wing_node::refusal::Refusal;
use wing_saved::HEAD;
use wing_wire::state::Control;

// 0 for a table that the calls take. 7.
#[unsafe(no_mangle)]
pub extern "C" fn wing_table_check(table: &[u8], count: usize) -> i32
    ensures { result ≡ if (usable full (table_of table.now count)) (pos 0) (minus 7) }
{
    if is_usable(table, count) {
        return 0;
    }
    answers::minus(Refusal::TableUnsound)
}

// A feed that was taken leaves its control before the store.
fn keep_state(state: &mut [u8], a: Result<Counts, Refusal>, after: Control)
    requires { (is_ok a ≡ true → sound_state (state_in after state.old) ≡ true) × (length state.old ≡ saved_size) }
    ensures state_after { state.new ≡ state_after a (state_in after state.old) state.old }
    ensures state_after_2 { state_from state.new ≡ read_after a (state_in after state.old) (state_from state.old) }
{
    match a {
        Ok(_) => keep(state, after),
        Err(_) => {}
    }
}

// The store is used where it stands, so that nothing of it is copied; the library refuses a state that is not sound.
fn feed_in(state: &mut [u8], c: Control, table: &mut [u8], count: usize, bytes: &[u8]) -> WingFed
    requires { HeadOf state.old c }
    ensures table_after { kept_feed result state.new table.new ≡ feed_kept state.old (table_of table.old count) bytes.now }
    ensures state_after { state_from state.new ≡ state_fed (state_from state.old) (table_of table.old count) bytes.now }
{
    let r = feed_lent(c, &mut state[HEAD..], table, count, bytes);
    keep_state(state, r.answer, r.control);
    answers::fed(r.answer, r.count)
}

// 01: up to 65,536 bytes; the six counts, and the records there are. 8, 7, 14.
#[unsafe(no_mangle)]
pub extern "C" fn wing_feed(
    state: &mut [u8],
    table: &mut [u8],
    count: usize,
    bytes: &[u8],
) -> WingFed
    ensures table_after { kept_feed result state.new table.new ≡ feed_kept state.old (table_of table.old count) bytes.now }
    ensures state_after { state_from state.new ≡ state_fed (state_from state.old) (table_of table.old count) bytes.now }
{
    match wing_saved::head(state) {
        Ok(c) => feed_in(state, c, table, count, bytes),
        Err(why) => answers::fed(Err(why), count),
    }
}

// 01: writes the command and stores the value. 7, 6, 9.
#[unsafe(no_mangle)]
pub extern "C" fn wing_set_int(
    table: &mut [u8],
    count: usize,
    out: &mut [u8],
    id: i32,
    value: i32,
) -> WingSet
    ensures { mirror_command result out.new table.new ≡ mirror_command_of (mirror_set full id (integer value) (table_of table.old count) out.old) }
{
    let r = set::set_int(table, count, out, id, value);
    answers::set(r.answer, r.count)
}

// The same for a float, by its 32 bits.
#[unsafe(no_mangle)]
pub extern "C" fn wing_set_float(
    table: &mut [u8],
    count: usize,
    out: &mut [u8],
    id: i32,
    bits: u32,
) -> WingSet
    ensures { mirror_command result out.new table.new ≡ mirror_command_of (mirror_set full id (float bits) (table_of table.old count) out.old) }
{
    let r = set::set_float(table, count, out, id, bits);
    answers::set(r.answer, r.count)
}

// The same for a string. 7, 10, 1, 6, 9.
#[unsafe(no_mangle)]
pub extern "C" fn wing_set_string(
    table: &mut [u8],
    count: usize,
    out: &mut [u8],
    id: i32,
    value: &[u8],
) -> WingSet
    ensures { mirror_command result out.new table.new ≡ mirror_command_of (mirror_set full id (string_of value.now) (table_of table.old count) out.old) }
{
    let r = set::set_string(table, count, out, id, value);
    answers::set(r.answer, r.count)
}

// 01: df d1, then the set bytes of each record in order. 7, 9.
#[unsafe(no_mangle)]
pub extern "C" fn wing_recall(table: &[u8], count: usize, out: &mut [u8]) -> WingWritten
    ensures { command result out.new ≡ command_of (recall_of full (table_of table.now count) out.old) }
{
    answers::written(recall(table, count, out))
}

// 01: an id's record number, or none. 7.
#[unsafe(no_mangle)]
pub extern "C" fn wing_lookup(table: &[u8], count: usize, id: i32) -> WingLookup
    ensures { result ≡ lookup_numbers (lookup_answer full (table_of table.now count) id) }
{
    answers::found(query::lookup(table, count, id))
}

// 01: a record is read by number, from 0; 02: with its origin. 7, 14.
#[unsafe(no_mangle)]
pub extern "C" fn wing_record(table: &[u8], count: usize, number: usize) -> WingRecord
    ensures { result ≡ record_numbers (record_answer full (table_of table.now count) number) }
{
    answers::record(query::record(table, count, number))
}

// 01: 1 if count and records are equal, 02: origins included, else 0. 7.
#[unsafe(no_mangle)]
pub extern "C" fn wing_same(a: &[u8], count_a: usize, b: &[u8], count_b: usize) -> i32
    ensures { result ≡ same_number (same_answer full (table_of a.now count_a) (table_of b.now count_b)) }
{
    answers::same(query::same(a, count_a, b, count_b))
}
