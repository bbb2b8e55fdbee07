// A text looked through, before anything is written: the first bad line decides.
ghost use Rattle.std.specs.Prelude.{◌≡◌};
ghost use Rattle.wing_mirror.specs.Rows.{nothing};
ghost use Rattle.wing_listing.specs.Parts.{newline, parted};
ghost use Rattle.wing_listing.specs.Reading.{lines_from, reading_of};
ghost use Rattle.wing_listing.specs.Steps.{scanned_as, scanned_bad};

use crate::answer::{BadLine, Loaded};
use crate::line::judge;
use crate::print::HEADER;
use wing_node::refusal::Refusal;

pub(crate) fn bad(why: Refusal, line: usize) -> Loaded
    ensures { result ≡ scanned_bad why line }
{
    Err(BadLine { why, line })
}

// The lines after the header, which is line 1.
fn scan_lines(text: &[u8]) -> Loaded
    ensures { result ≡ scanned_as (lines_from 2 nothing (parted newline text.now)) }
{
    let mut number = 2;
    let mut before = None;
    for ended in text.split_inclusive(|b| *b == b'\n') {
        let Some(line) = ended.strip_suffix(b"\n") else {
            return bad(Refusal::LineWrong, number);
        };
        match judge(line, before) {
            Ok(id) => before = Some(id),
            Err(why) => return bad(why, number),
        }
        number += 1;
    }
    Ok(number - 2)
}

// How many entries a text has, or its first bad line.
pub(crate) fn scan(text: &[u8]) -> Loaded
    ensures { result ≡ scanned_as (reading_of text.now) }
{
    match text.strip_prefix(HEADER) {
        Some(lines) => scan_lines(lines),
        None => bad(Refusal::LineWrong, 1),
    }
}
