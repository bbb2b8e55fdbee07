// The listing of a table, printed and loaded.
ghost use Rattle.std.specs.Prelude.{◌≡◌};
ghost use Rattle.wing_mirror.specs.Table.{table as table_of};
ghost use Rattle.wing_listing.specs.Calls.{print_of, load_of};
ghost use Rattle.wing_c.specs.Written.{command, command_of, table_load, table_load_of};

use crate::answers;
use crate::answers::{WingLoaded, WingWritten};
use wing_listing::load::load;
use wing_listing::print::print;

// 02: the header, then a line for each record in order. 7, 9.
#[unsafe(no_mangle)]
pub extern "C" fn wing_print(table: &[u8], count: usize, out: &mut [u8]) -> WingWritten
    ensures { command result out.new ≡ command_of (print_of (table_of table.now count) out.old) }
{
    answers::written(print(table, count, out))
}

// 02: a table from a listing, its old records replaced. The decoder that goes with it is a fresh one, which the caller lays by wing_state_fresh.
// 7, 14, then the first bad line: 17, 18, 10, 1; then 6.
#[unsafe(no_mangle)]
pub extern "C" fn wing_load(text: &[u8], table: &mut [u8]) -> WingLoaded
    ensures { table_load result table.new ≡ table_load_of (load_of text.now table.old) }
{
    answers::loaded(load(text, table).answer)
}
