// Load: a listing into a table. Nothing is written until the whole text has passed.
ghost use Rattle.std.specs.Prelude.{◌≡◌, map, ◌*◌, ◌≤◌, length, take};
ghost use Rattle.wing_mirror.specs.Rows.{laid};
ghost use Rattle.wing_mirror.specs.Record.{width, record_of};
ghost use Rattle.wing_listing.specs.Reading.{reading_of, entries_in};
ghost use Rattle.wing_listing.specs.Steps.{checked_as};
ghost use Rattle.wing_listing.specs.Calls.{load_effect, load_of};

use crate::answer::{LoadReply, Loaded};
use crate::line::find;
use crate::place::record_in;
use crate::print::HEADER;
use crate::scan::{bad, scan};
use wing_mirror::table::{are_allowed, places};
use wing_node::refusal::Refusal;
use wing_wire::state::State;

// How many entries a text has that may be loaded. 02: 7, 14, the first bad line, 6.
#[tactic(auto, unfolding(crate::specs::Steps::checked_as, crate::specs::Steps::fitting))]
fn check(text: &[u8], places: usize) -> Loaded
    ensures { result ≡ checked_as text.now places }
{
    if !are_allowed(places) {
        return bad(Refusal::TableUnsound, 0);
    }
    if text.len() > 65536 {
        return bad(Refusal::NumberOver, 0);
    }
    let count = scan(text)?;
    if count > places {
        return bad(Refusal::NoPlace, 0);
    }
    Ok(count)
}

// The first lines after the header, each as the record of its number.
fn lay_lines(table: &mut [u8], text: &[u8], count: usize)
    requires { (count ≤ length (entries_in (reading_of text.now))) × (width * count ≤ length table.old) }
    ensures { table.new ≡ laid width (map record_of (take count (entries_in (reading_of text.now)))) table.old }
{
    let mut at = HEADER.len();
    for number in 0..count {
        let end = at + find(&text[at..], 0x0a);
        let from = State::PLACE_WIDTH * number;
        table[from..from + State::PLACE_WIDTH].copy_from_slice(&record_in(&text[at..end]));
        at = end + 1;
    }
}

// 02: a table from a listing, its old records replaced, and a fresh decoder. 7, 14, then the first bad line: 17, 18, 10, 1; then 6.
pub fn load(text: &[u8], table: &mut [u8]) -> LoadReply
    ensures { load_effect result table.new ≡ load_of text.now table.old }
{
    let answer = check(text, places(table));
    match answer {
        Ok(count) => lay_lines(table, text, count),
        Err(_) => {}
    }
    LoadReply {
        answer,
        state: State::fresh(),
    }
}
