// What the texts of answers are made of.
use std::alloc::{AllocError, AllocFailed};
use std::fmt;
use wing_node::refusal::Refusal;

// What every output is filled with before a call.
pub const MARK: u8 = 0xee;

// Why a line has no answer: it is out of form, or there is not memory enough for the answer.
#[derive(Clone, Copy)]
pub enum Unanswered {
    Form,
    Memory,
}

impl From<AllocError> for Unanswered {
    fn from(_e: AllocError) -> Unanswered {
        Unanswered::Memory
    }
}

impl<T: Drop> From<AllocFailed<T>> for Unanswered {
    fn from(_e: AllocFailed<T>) -> Unanswered {
        Unanswered::Memory
    }
}

pub type Answered = Result<(), Unanswered>;

// How many bytes are spelled at a time: with a write! for each, spelling took over ten times as long.
const SPELLED: usize = 32;

const DIGITS: &[u8; 16] = b"0123456789abcdef";

// The pairs of at most SPELLED bytes, over the front of the digits.
fn spell(digits: &mut [u8; 2 * SPELLED], bytes: &[u8]) {
    for (pair, b) in digits.as_chunks_mut::<2>().0.iter_mut().zip(bytes) {
        *pair = [DIGITS[(*b / 16) as usize], DIGITS[(*b % 16) as usize]];
    }
}

// Bytes in pairs. More than there are, which no answer should have, are `!`.
#[derive(Clone, Copy)]
pub struct Pairs<'a>(pub Option<&'a [u8]>);

impl fmt::Display for Pairs<'_> {
    fn fmt<W: fmt::Write>(&self, f: &mut fmt::Formatter<W>) -> fmt::Result {
        let Some(bytes) = self.0 else {
            return write!(f, "!");
        };
        let mut digits = [0u8; 2 * SPELLED];
        for part in bytes.chunks(SPELLED) {
            spell(&mut digits, part);
            let spelled = digits.get(..part.len().saturating_mul(2)).unwrap_or(&[]);
            f.write_str(str::from_utf8(spelled).unwrap_or("!"))?;
        }
        Ok(())
    }
}

// The same, none as `-`.
#[derive(Clone, Copy)]
pub struct Dashed<'a>(pub Option<&'a [u8]>);

impl fmt::Display for Dashed<'_> {
    fn fmt<W: fmt::Write>(&self, f: &mut fmt::Formatter<W>) -> fmt::Result {
        match self.0 {
            Some([]) => write!(f, "-"),
            bytes => {
                let pairs = Pairs(bytes);
                write!(f, "{pairs}")
            }
        }
    }
}

// A refusal in words: 01's number, and the good of a string.
#[derive(Clone, Copy)]
pub struct Refused(pub Refusal);

impl fmt::Display for Refused {
    fn fmt<W: fmt::Write>(&self, f: &mut fmt::Formatter<W>) -> fmt::Result {
        let number = self.0.number();
        write!(f, "refused {number}")?;
        if let Some(good) = self.0.good() {
            write!(f, " good {good}")?;
        }
        Ok(())
    }
}

// The same short: two decimal digits, and the good in four hex digits.
#[derive(Clone, Copy)]
pub struct Short(pub Refusal);

impl fmt::Display for Short {
    fn fmt<W: fmt::Write>(&self, f: &mut fmt::Formatter<W>) -> fmt::Result {
        let number = self.0.number();
        write!(f, "r{number:02}")?;
        if let Some(good) = self.0.good() {
            write!(f, "g{good:04x}")?;
        }
        Ok(())
    }
}

pub fn tell_refused(text: &mut String, why: Refusal) -> Answered {
    let why = Refused(why);
    write!(text, "{why}")?;
    Ok(())
}

pub fn tell_short(text: &mut String, why: Refusal) -> Answered {
    let why = Short(why);
    write!(text, "{why}")?;
    Ok(())
}

pub fn clean(kept: bool) -> &'static str {
    if kept { "clean" } else { "dirt" }
}

// A `!` unless all is as it should be.
pub fn expect(text: &mut String, good: bool) -> Answered {
    if !good {
        text.push('!')?;
    }
    Ok(())
}

// Whether the bytes from a place on are all one byte. Joined with no test on the way, so that many are compared at a time.
pub fn all_same(s: &[u8], from: usize, value: u8) -> bool {
    let mut differing = 0u8;
    for b in s.get(from..).unwrap_or(&[]) {
        differing |= *b ^ value;
    }
    differing == 0
}

// Whether a lent output is as it was from a place on.
pub fn is_kept(lent: &[u8], from: usize) -> bool {
    all_same(lent, from, MARK)
}

// How many there are up to the last that is not 0.
pub fn used<T: Copy + Into<u16>>(xs: &[T]) -> usize {
    let last = xs.iter().rposition(|x| -> bool { (*x).into() != 0 });
    last.map_or(0, |last| last.saturating_add(1))
}

// A text and another that should be the same: where it is not, ` !` is put after the first.
pub fn same_again(text: &mut String, again: &str) -> Answered {
    if text.as_str() != again {
        text.push_str(" !")?;
    }
    Ok(())
}

// The text as digits to the base 257, mod the greatest prime of 32 bits.
pub fn sum(text: &str) -> u64 {
    text.bytes().fold(0u64, |total, b| {
        (total % 0x1_0000_0000 * 257 + b as u64) % 4294967291
    })
}
