// Where a key stands in a table whose keys rise. Records of any width, the id their first four bytes.
ghost use Rattle.std.specs.Prelude.{◌≡◌, ◌+◌, ◌*◌, ◌/◌, ◌≤◌, ◌<◌, length};
ghost use Rattle.wing_mirror.specs.Rows.{row as row_of, records, next_above};
ghost use Rattle.wing_mirror.specs.Record.{key_of};
ghost use Rattle.wing_mirror.specs.Table.{table as table_of};
ghost use Rattle.wing_mirror.specs.Order.{position_of, InOrder};
ghost use Rattle.wing_mirror.specs.HighEnd.{counted_of};

use crate::record;
use crate::table::row;

// Where a key is, or where it belongs: how many records have a lower one. And how many keys were read to find it.
#[derive(Clone, Copy)]
pub struct Counted {
    pub position: Result<usize, usize>,
    pub reads: usize,
}

// The places of a buffer for records of a width.
pub(crate) fn places_of<const W: usize>(table: &[u8]) -> usize
    requires { 1 ≤ W }
    ensures { result ≡ length table.now / W }
{
    table.len() / W
}

// Where the record of a number stands in the order.
fn key_at<const W: usize>(table: &[u8], number: usize) -> u32
    requires { (4 ≤ W) × (W * number + W ≤ length table.now) }
    ensures { result ≡ key_of (row_of W number table.now) }
{
    record::key::<W>(row(table, number))
}

// 02: from the high end, down to the first key that is not above `key`, and how many keys are read: where ids come in rising order, at most one.
fn search_down<const W: usize>(table: &[u8], count: usize, key: u32) -> Counted
    requires { InOrder W (table_of table.now count) }
    ensures { result ≡ counted_of key_of key (records W count table.now) }
{
    let mut position = Err(count);
    let mut reads = 0;
    for number in (0..count).rev() {
        let last = key_at::<W>(table, number);
        reads += 1;
        if last < key {
            return Counted { position, reads };
        }
        if last == key {
            let position = Ok(number);
            return Counted { position, reads };
        }
        position = Err(number);
    }
    Counted { position, reads }
}

// Where a key stands; callers have no use for the count.
pub(crate) fn search<const W: usize>(table: &[u8], count: usize, key: u32) -> Result<usize, usize>
    requires { InOrder W (table_of table.now count) }
    ensures { result ≡ position_of key_of key (records W count table.now) }
{
    search_down::<W>(table, count, key).position
}

// The record after that of a number, if there is one, has a higher key.
#[tactic(auto, unfolding(crate::specs::Rows::next_above))]
pub(crate) fn is_below_next<const W: usize>(table: &[u8], count: usize, number: usize) -> bool
    requires { (4 ≤ W) × (W * count ≤ length table.now) × (number < count) }
    ensures { result ≡ next_above W key_of table.now count number }
{
    count <= number + 1 || key_at::<W>(table, number) < key_at::<W>(table, number + 1)
}
