// The calls of the mirror, each with what is promised of it as its contract. There is nothing here but the call.
ghost use Rattle.std.specs.Prelude.{◌≡◌, ◌/◌, length};
ghost use Rattle.wing_node.specs.Utf8.{Decides};
ghost use Rattle.wing_node.specs.Value.{integer as integer_of, float as float_of, string as string_of};
ghost use Rattle.wing_wire.specs.State.{state_of};
ghost use Rattle.wing_mirror.specs.Origin.{origin_number};
ghost use Rattle.wing_mirror.specs.Table.{table as table_of};
ghost use Rattle.promises.specs.TableBytes.{SoundBytes, UsableBytes};
ghost use Rattle.promises.specs.Mirror.{mirror as mirror_of, FeedCall, LentFeedCall, SetCall, RecallCall, LookupCall, RecordCall, SameCall};

use wing_mirror::answer::{FeedReply, LentFeedReply, RecordRead, SetReply};
use wing_mirror::origin::Origin;
use wing_node::refusal::Refusal;
use wing_wire::state::{Control, State};

pub fn feed(state: State, table: &mut [u8], count: usize, bytes: &[u8]) -> FeedReply
    ensures { FeedCall (mirror_of state (table_of table.old count)) bytes.now result.answer (mirror_of result.state (table_of table.new result.count)) }
{
    wing_mirror::feed::feed(state, table, count, bytes)
}

pub fn feed_lent(
    c: Control,
    store: &mut [u8],
    table: &mut [u8],
    count: usize,
    bytes: &[u8],
) -> LentFeedReply
    ensures { LentFeedCall (mirror_of (state_of c store.old) (table_of table.old count)) bytes.now result.answer (mirror_of (state_of result.control store.new) (table_of table.new result.count)) }
{
    wing_mirror::feed::feed_lent(c, store, table, count, bytes)
}

pub fn set_int(table: &mut [u8], count: usize, out: &mut [u8], id: i32, value: i32) -> SetReply
    ensures { SetCall id (integer_of value) (table_of table.old count) out.old result.answer (table_of table.new result.count) out.new }
{
    wing_mirror::set::set_int(table, count, out, id, value)
}

pub fn set_float(table: &mut [u8], count: usize, out: &mut [u8], id: i32, bits: u32) -> SetReply
    ensures { SetCall id (float_of bits) (table_of table.old count) out.old result.answer (table_of table.new result.count) out.new }
{
    wing_mirror::set::set_float(table, count, out, id, bits)
}

pub fn set_string(table: &mut [u8], count: usize, out: &mut [u8], id: i32, value: &[u8]) -> SetReply
    ensures { SetCall id (string_of value.now) (table_of table.old count) out.old result.answer (table_of table.new result.count) out.new }
{
    wing_mirror::set::set_string(table, count, out, id, value)
}

pub fn recall(table: &[u8], count: usize, out: &mut [u8]) -> Result<usize, Refusal>
    ensures { RecallCall (table_of table.now count) out.old result out.new }
{
    wing_mirror::recall::recall(table, count, out)
}

pub fn lookup(table: &[u8], count: usize, id: i32) -> Result<Option<usize>, Refusal>
    ensures { LookupCall (table_of table.now count) id result }
{
    wing_mirror::query::lookup(table, count, id)
}

pub fn record(table: &[u8], count: usize, number: usize) -> Result<RecordRead, Refusal>
    ensures { RecordCall (table_of table.now count) number result }
{
    wing_mirror::query::record(table, count, number)
}

pub fn same(a: &[u8], count_a: usize, b: &[u8], count_b: usize) -> Result<bool, Refusal>
    ensures { SameCall (table_of a.now count_a) (table_of b.now count_b) result }
{
    wing_mirror::query::same(a, count_a, b, count_b)
}

// 01: places = buffer length div 264.
pub fn places(table: &[u8]) -> usize
    ensures { result ≡ length table.now / 264 }
{
    wing_mirror::table::places(table)
}

// 01: the count is at most the places, the records have their form and order, and strings are UTF-8.
pub fn is_sound(table: &[u8], count: usize) -> bool
    ensures { Decides result (SoundBytes (table_of table.now count)) }
{
    wing_mirror::table::is_sound(table, count)
}

// The tables that the calls take: sound, with 1 to 1,024 places.
pub fn is_usable(table: &[u8], count: usize) -> bool
    ensures { Decides result (UsableBytes (table_of table.now count)) }
{
    wing_mirror::table::is_usable(table, count)
}

// 02: an origin's number, 0 for the console and 1 for a set order.
pub fn origin_number(origin: Origin) -> u8
    ensures { result ≡ origin_number origin }
{
    u8::from(origin)
}
