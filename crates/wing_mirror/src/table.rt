// The table of records at the front of a lent buffer, and whether it is usable.
ghost use Rattle.std.specs.Prelude.{◌≡◌, ◌+◌, ◌*◌, ◌/◌, ◌≤◌, ◌<◌, length};
ghost use Rattle.wing_mirror.specs.Rows.{row as row_of, records};
ghost use Rattle.wing_mirror.specs.Record.{width, key_of, well_formed, full};
ghost use Rattle.wing_mirror.specs.Table.{table as table_of, places_allowed, passes_at, checked_of, sound_table, usable};

use crate::order::{is_below_next, places_of};
use crate::record;
use wing_wire::state::State;

// 01: places = buffer length div 264.
pub fn places(table: &[u8]) -> usize
    ensures { result ≡ length table.now / width }
{
    places_of::<{ State::PLACE_WIDTH }>(table)
}

// The record of a number.
pub(crate) fn row<const W: usize>(table: &[u8], number: usize) -> &[u8; W]
    requires { (1 ≤ W) × (W * number + W ≤ length table.now) }
    ensures { result.now ≡ row_of W number table.now }
{
    &table.as_chunks().0[number]
}

// 01: a table has 1 to 1,024 places.
#[tactic(auto, unfolding(crate::specs::Table::places_allowed))]
pub fn are_allowed(places: usize) -> bool
    ensures { result ≡ places_allowed places }
{
    1 <= places && places <= 1024
}

// The record of a number has 01's form, and the next one is above it.
#[tactic(auto, unfolding(crate::specs::Table::passes_at))]
fn passes(table: &[u8], count: usize, number: usize) -> bool
    requires { (width * count ≤ length table.now) × (number < count) }
    ensures { result ≡ passes_at width key_of well_formed table.now count number }
{
    record::well_formed(row(table, number))
        && is_below_next::<{ State::PLACE_WIDTH }>(table, count, number)
}

// The records have their form and order.
fn all_pass(table: &[u8], count: usize) -> bool
    requires { width * count ≤ length table.now }
    ensures { result ≡ checked_of key_of well_formed (records width count table.now) }
{
    for number in 0..count {
        if !passes(table, count, number) {
            return false;
        }
    }
    true
}

// 01: the count is at most the places, the records have their form and order, and strings are UTF-8.
#[tactic(auto, unfolding(crate::specs::Table::sound_of))]
pub fn is_sound(table: &[u8], count: usize) -> bool
    ensures { result ≡ sound_table full (table_of table.now count) }
{
    count <= places(table) && all_pass(table, count)
}

// The tables that the calls take; any other is refused (refusal 7).
#[tactic(auto, unfolding(crate::specs::Table::usable_of))]
pub fn is_usable(table: &[u8], count: usize) -> bool
    ensures { result ≡ usable full (table_of table.now count) }
{
    are_allowed(places(table)) && is_sound(table, count)
}
