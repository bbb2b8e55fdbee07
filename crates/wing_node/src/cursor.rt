// Reading a body field by field. A reading answers the field with the place after it, or why it is refused, so with `?` the first
// failing field counts.
ghost use Rattle.std.specs.Prelude.{◌≡◌};
ghost use Rattle.wing_node.specs.Refusal.{no_fault};
ghost use Rattle.wing_node.specs.Cursor.{number, string, cursor, read_at, field_of, short_of};

use crate::field::{left, number_at};
use crate::refusal::Refusal;
use crate::utf8::good_len;

// A field that was read: its number (a string's is its length), where its bytes begin, and the place after it.
#[derive(Clone, Copy)]
pub struct FieldRead {
    pub value: u32,
    pub start: usize,
    pub next: usize,
}

// A 16-bit number that was read.
#[derive(Clone, Copy)]
pub struct ShortRead {
    pub value: u16,
    pub next: usize,
}

pub(crate) fn read_32(body: &[u8], at: usize) -> Result<FieldRead, Refusal>
    ensures { result ≡ field_of (read_at (number 4) body.now (cursor at no_fault)) }
{
    if left(body, at) < 4 {
        return Err(Refusal::DefinitionShort);
    }
    Ok(FieldRead {
        value: number_at::<u32>(body, at),
        start: at,
        next: at + 4,
    })
}

pub(crate) fn read_16(body: &[u8], at: usize) -> Result<ShortRead, Refusal>
    ensures { result ≡ short_of (read_at (number 2) body.now (cursor at no_fault)) }
{
    if left(body, at) < 2 {
        return Err(Refusal::DefinitionShort);
    }
    Ok(ShortRead {
        value: number_at::<u16>(body, at),
        next: at + 2,
    })
}

// A string's bytes are looked at as far as they are there. 01: length before UTF-8. The tests stand here, one
// after the other: a fault handed on before it is tested costs a tenth of a definition's reading.
pub(crate) fn read_string(body: &[u8], at: usize) -> Result<FieldRead, Refusal>
    ensures { result ≡ field_of (read_at string body.now (cursor at no_fault)) }
{
    let there = left(body, at);
    if there < 1 {
        return Err(Refusal::DefinitionShort);
    }
    let len = body[at] as usize;
    let first = at + 1;
    let rest = there - 1;
    let end = first + len.min(rest);
    let good = good_len(&body[first..end]);
    if rest < len {
        return Err(Refusal::DefinitionShort);
    }
    if good < len {
        return Err(Refusal::DefinitionNotUtf8 { good: good as u16 });
    }
    Ok(FieldRead {
        value: len as u32,
        start: first,
        next: end,
    })
}
