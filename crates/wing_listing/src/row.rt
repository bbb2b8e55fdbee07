// A record of the table as a line of text.
ghost use Rattle.std.specs.Prelude.{◌≡◌, true, ◌+◌, ◌*◌, ◌≤◌, length};
ghost use Rattle.wing_wire.specs.Write.{Laid};
ghost use Rattle.wing_mirror.specs.Record.{width, well_formed, value_in, entry_in};
ghost use Rattle.wing_mirror.specs.Table.{row_at};
ghost use Rattle.wing_listing.specs.Parts.{ended};
ghost use Rattle.wing_listing.specs.Listing.{value_text, line_of};
ghost use Rattle.wing_listing.specs.Steps.{letter_in};

use crate::hex::lay_pairs;
use wing_node::field::number_at;
use wing_node::value::put_decimal;
use wing_wire::state::State;

// 01: the kind letters i, f, s.
#[tactic(auto, unfolding(crate::specs::Steps::letter_in))]
fn letter(kind: u8) -> u8
    ensures { result ≡ letter_in kind }
{
    if kind == 0 {
        return 0x69;
    }
    if kind == 1 {
        return 0x66;
    }
    0x73
}

// The text of a record's value. A float's bytes and a string's stand alike, as many as the record's length.
fn lay_value(out: &mut [u8], at: usize, rec: &[u8; State::PLACE_WIDTH]) -> usize
    requires { (well_formed rec.now ≡ true) × (at + length (value_text (value_in rec.now)) ≤ length out.old) }
    ensures { Laid (value_text (value_in rec.now)) at out.old out.new result }
{
    if rec[4] == 0 {
        return at + put_decimal(out, at, number_at::<i32>(rec, 8));
    }
    let n = number_at::<u16>(rec, 6) as usize;
    lay_pairs(out, at, &rec[8..8 + n]);
    at + 2 * n
}

// 01: id in decimal, kind letter and value, with commas between, and the line's end.
fn lay_entry(out: &mut [u8], at: usize, rec: &[u8; State::PLACE_WIDTH]) -> usize
    requires { (well_formed rec.now ≡ true) × (at + length (ended (line_of (entry_in rec.now))) ≤ length out.old) }
    ensures { Laid (ended (line_of (entry_in rec.now))) at out.old out.new result }
{
    let to = at + put_decimal(out, at, number_at::<i32>(rec, 0));
    out[to] = 0x2c;
    out[to + 1] = letter(rec[4]);
    out[to + 2] = 0x2c;
    let end = lay_value(out, to + 3, rec);
    out[end] = 0x0a;
    end + 1
}

// The line of the record of a number, into an output that has room for it.
pub(crate) fn print_record(out: &mut [u8], at: usize, table: &[u8], number: usize) -> usize
    requires { (width * number + width ≤ length table.now) × (well_formed (row_at number table.now) ≡ true) × (at + length (ended (line_of (entry_in (row_at number table.now)))) ≤ length out.old) }
    ensures { Laid (ended (line_of (entry_in (row_at number table.now)))) at out.old out.new result }
{
    lay_entry(out, at, &table.as_chunks().0[number])
}
