// The calls that print a table and load a listing, each with what is promised of it as its contract. There is nothing here but the call.
ghost use Rattle.wing_mirror.specs.Table.{table as table_of};
ghost use Rattle.promises.specs.Listing.{PrintCall, LoadCall};

use wing_listing::answer::LoadReply;
use wing_node::refusal::Refusal;

pub fn print(table: &[u8], count: usize, out: &mut [u8]) -> Result<usize, Refusal>
    ensures { PrintCall (table_of table.now count) out.old result out.new }
{
    wing_listing::print::print(table, count, out)
}

pub fn load(text: &[u8], table: &mut [u8]) -> LoadReply
    ensures { LoadCall text.now table.old result table.new }
{
    wing_listing::load::load(text, table)
}
