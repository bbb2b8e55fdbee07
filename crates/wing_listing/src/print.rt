// Print: a table's records as lines. 02: 7, then 9; refused, the output is as it was.
ghost use Rattle.std.specs.Prelude.{◌≡◌, true, ◌≤◌, length};
ghost use Rattle.std.proofs.lemmas.List.Edits.{sets};
ghost use Rattle.wing_wire.specs.Write.{Laid, write_effect};
ghost use Rattle.wing_mirror.specs.Record.{full};
ghost use Rattle.wing_mirror.specs.Table.{table as table_of, rows, usable};
ghost use Rattle.wing_listing.specs.Parts.{ended};
ghost use Rattle.wing_listing.specs.Listing.{header, printed};
ghost use Rattle.wing_listing.specs.Steps.{lines_of};
ghost use Rattle.wing_listing.specs.Calls.{print_of};

use crate::row::print_record;
use wing_mirror::table::is_usable;
use wing_node::refusal::Refusal;

// The header's line, with its end.
pub(crate) const HEADER: &[u8; 14] = b"id,kind,value\n";

// The longest line: an id of 11 characters, two commas, a letter, a string of 512 digits and the line's end.
const LINE: usize = 527;

// How many bytes the lines take. The scratch buffer has room for any of them.
// As recall counts its orders: one generic function for both would need a trait with a ghost text and its greatest length, and more lines.
fn lines_len(table: &[u8], count: usize) -> usize
    requires { usable full (table_of table.now count) ≡ true }
    ensures { result ≡ length (lines_of (rows full (table_of table.now count))) }
{
    let mut scratch = [0u8; LINE];
    let mut total = 0;
    for number in 0..count {
        total += print_record(&mut scratch, 0, table, number);
    }
    total
}

fn lay_header(out: &mut [u8])
    requires { length (ended header) ≤ length out.old }
    ensures { out.new ≡ sets out.old 0 (ended header) }
{
    out[..HEADER.len()].copy_from_slice(HEADER);
}

// The header and then each record's line after the last one.
fn lay_listing(out: &mut [u8], table: &[u8], count: usize) -> usize
    requires { (usable full (table_of table.now count) ≡ true) × (length (printed (table_of table.now count)) ≤ length out.old) }
    ensures { Laid (printed (table_of table.now count)) 0 out.old out.new result }
{
    lay_header(out);
    let mut at = HEADER.len();
    for number in 0..count {
        at = print_record(out, at, table, number);
    }
    at
}

// No line is longer than 527 bytes: an output with room for as many such is not measured.
pub fn print(table: &[u8], count: usize, out: &mut [u8]) -> Result<usize, Refusal>
    ensures { write_effect result out.new ≡ print_of (table_of table.now count) out.old }
{
    if is_usable(table, count) {
        if out.len() < HEADER.len() + LINE * count
            && out.len() < HEADER.len() + lines_len(table, count)
        {
            return Err(Refusal::OutputShort);
        }
        return Ok(lay_listing(out, table, count));
    }
    Err(Refusal::TableUnsound)
}
