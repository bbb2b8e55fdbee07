// One line of a listing: three fields parted by commas. 02: within a line 17, 18, 10, 1.
ghost use Rattle.std.specs.Prelude.{◌≡◌, true, false, length, MatchOption};
ghost use Rattle.wing_listing.specs.Parts.{part};
ghost use Rattle.wing_listing.specs.Reading.{is_value, is_line, value_said, value_fault, above};
ghost use Rattle.wing_listing.specs.Steps.{LineSays, id_before, judged_as};
ghost use Rattle.wing_node.specs.declared.refusal.Refusal.TheVariants.{IdNotAbove, LineWrong};

use crate::hex::{are_pairs, lay_bytes};
use crate::integer::integer_in;
use wing_node::refusal::{Refusal, string_fault};

// A line in form: its id, its kind letter, and where its value begins.
#[derive(Clone, Copy)]
pub struct Line {
    pub id: i32,
    pub kind: u8,
    pub from: usize,
}

// The length of the part before the first byte b, or of the whole where there is none.
pub(crate) fn find(s: &[u8], b: u8) -> usize
    ensures { result ≡ length (part b 0 s.now) }
{
    s.iter().position(|a| *a == b).unwrap_or(s.len())
}

fn is_value(kind: u8, s: &[u8]) -> bool
    ensures { result ≡ is_value kind s.now }
{
    if kind == 0x69 {
        return integer_in(s).is_some();
    }
    if kind == 0x66 {
        if s.len() == 8 {
            return are_pairs(s);
        }
        return false;
    }
    if kind == 0x73 {
        return are_pairs(s);
    }
    false
}

// The fields of a line in form. A value in form has no comma in it, so that there is no need to look for one.
pub(crate) fn line_in(s: &[u8]) -> Option<Line>
    ensures { MatchOption result (is_line s.now ≡ false) (λ l. LineSays l s.now) }
{
    let a = find(s, b',');
    let id = integer_in(&s[..a])?;
    if s.len() <= a + 2 || s[a + 2] != b',' {
        return None;
    }
    let kind = s[a + 1];
    if !is_value(kind, &s[a + 3..]) {
        return None;
    }
    let from = a + 3;
    Some(Line { id, kind, from })
}

// 02: a string over 256 bytes gets 10 and one that isn't UTF-8 gets 1, with its good.
fn value_fault(kind: u8, s: &[u8]) -> Result<(), Refusal>
    requires { is_value kind s.now ≡ true }
    ensures { result ≡ value_fault (value_said kind s.now) }
{
    if kind == 0x73 {
        if s.len() <= 512 {
            let mut bytes = [0u8; 256];
            lay_bytes(&mut bytes, 0, s);
            return string_fault(&bytes, (s.len() / 2) as u16);
        }
        return Err(Refusal::StringLong);
    }
    Ok(())
}

// 02: above the id before, if there is one.
#[tactic(auto, unfolding(crate::specs::Reading::above, crate::specs::Steps::id_before))]
fn rises(before: Option<i32>, id: i32) -> bool
    ensures { result ≡ above (id_before before) id }
{
    match before {
        Some(last) => last < id,
        None => true,
    }
}

// The id of a line after one with the id before, if there is any. 02: out of form is 17, and after that an id not above the one before 18.
pub(crate) fn judge(s: &[u8], before: Option<i32>) -> Result<i32, Refusal>
    ensures { result ≡ judged_as (id_before before) s.now }
{
    let l = line_in(s).ok_or(Refusal::LineWrong)?;
    if !rises(before, l.id) {
        return Err(Refusal::IdNotAbove);
    }
    value_fault(l.kind, &s[l.from..])?;
    Ok(l.id)
}
