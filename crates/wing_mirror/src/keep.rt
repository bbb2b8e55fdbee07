// What a feed makes of one answer of the decoder.
ghost use Rattle.std.specs.Prelude.{◌≡◌, true, false, ◌<◌, length};
ghost use Rattle.wing_node.specs.Value.{node_value};
ghost use Rattle.wing_wire.specs.State.{body_limit};
ghost use Rattle.wing_wire.specs.Range.{Within};
ghost use Rattle.wing_wire.specs.Reader.{value as value_event};
ghost use Rattle.wing_mirror.specs.Record.{full};
ghost use Rattle.wing_mirror.specs.Table.{table as table_of, usable};
ghost use Rattle.wing_mirror.specs.Call.{too_long};
ghost use Rattle.wing_mirror.specs.Counts.{total};
ghost use Rattle.wing_mirror.specs.Mirror.{keep_event, keep};
ghost use Rattle.wing_mirror.specs.Tally.{tally_of};

use crate::answer::Counts;
use crate::counts::{Mark, body_mark, refusal_mark, tick};
use crate::origin::Origin;
use crate::record::lay_record;
use crate::store::put;
use wing_node::value::Value;
use wing_wire::state::State;
use wing_wire::unit::Answer;

// The number of records and the counts of a feed so far.
#[derive(Clone, Copy)]
pub struct Tally {
    pub count: usize,
    pub counts: Counts,
}

// 01: a value is stored at its node, or has no place. 02: it came from the console. A function of its own in the compiled code too: inside the
// feed's loop the search's loop ran slower.
#[inline(never)]
fn keep_value(table: &mut [u8], t: &mut Tally, node: i32, value: Value, string: &[u8])
    requires { (usable full (table_of table.old t.old.count) ≡ true) × (total t.old.counts < 4294967295) × (too_long (node_value value string.now) ≡ false) }
    ensures { tally_of t.new table.new ≡ keep_event full node (value_event (node_value value string.now)) (tally_of t.old table.old) }
{
    let mut rec = [0u8; State::PLACE_WIDTH];
    lay_record(&mut rec, node, value, string, Origin::Console);
    match put(table, t.count, &rec) {
        Some(count) => {
            t.count = count;
            tick(&mut t.counts, Mark::Stored);
        }
        None => tick(&mut t.counts, Mark::Unplaced),
    }
}

// The answer's string or body stands at the front of the store.
pub(crate) fn keep_answer(table: &mut [u8], t: &mut Tally, node: i32, a: Answer, store: &[u8])
    requires { (usable full (table_of table.old t.old.count) ≡ true) × (total t.old.counts < 4294967295) × (length store.now ≡ body_limit) × Within a store.now }
    ensures { tally_of t.new table.new ≡ keep full node a store.now (tally_of t.old table.old) }
{
    match a {
        Answer::More => {}
        Answer::Integer(x) => keep_value(table, t, node, Value::Integer(x), store),
        Answer::Float(bits) => keep_value(table, t, node, Value::Float(bits), store),
        Answer::String(n) => keep_value(table, t, node, Value::String(n), store),
        Answer::Body(n) => tick(&mut t.counts, body_mark(&store[..n as usize])),
        Answer::End => tick(&mut t.counts, Mark::Ended),
        Answer::Refused(why) => tick(&mut t.counts, refusal_mark(why)),
    }
}
