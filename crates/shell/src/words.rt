// The words of a line, and the numbers and bytes that they spell (docs/ORDERS.md).
ghost use Rattle.std.specs.Prelude.{◌<◌, ◌≤◌, IfOk};

use crate::show::{Answered, Unanswered};
use std::alloc::Global;
use std::str::FromStr;

// The most bytes that an order makes by repeating: more than the 65,536 that 01 lets a feed have, so that 14 can be seen.
const MOST: usize = 65600;

// The most sizes of a list.
const SIZES: usize = 64;

// The words that are not read yet, with one space between them; none after the last. The bytes held stand for a word `+`.
#[derive(Clone, Copy)]
pub struct Words<'a> {
    rest: Option<&'a str>,
    held: &'a [u8],
    took_held: bool,
}

impl<'a> Words<'a> {
    pub fn new(line: &'a str, held: &'a [u8]) -> Words<'a> {
        Words {
            rest: Some(line),
            held,
            took_held: false,
        }
    }

    pub fn took_held(&self) -> bool {
        self.took_held
    }

    pub fn is_empty(&self) -> bool {
        self.rest.is_none()
    }

    // All words of a line must be read.
    pub fn end(&self) -> Answered {
        if self.is_empty() {
            Ok(())
        } else {
            Err(Unanswered::Form)
        }
    }

    pub fn word(&mut self) -> Result<&'a str, Unanswered> {
        let rest = self.rest.ok_or(Unanswered::Form)?;
        match rest.split_once(' ') {
            Some((word, after)) => {
                self.rest = Some(after);
                Ok(word)
            }
            None => {
                self.rest = None;
                Ok(rest)
            }
        }
    }

    // A number that the type has.
    pub fn number<T: FromStr>(&mut self) -> Result<T, Unanswered>
    where
        T::Err: Drop,
    {
        number(self.word()?)
    }

    pub fn up_to(&mut self, most: usize) -> Result<usize, Unanswered>
        ensures { IfOk result (λ n. n ≤ most) }
    {
        let n = self.number()?;
        if n <= most {
            Ok(n)
        } else {
            Err(Unanswered::Form)
        }
    }

    // A number of exactly so many hex digits.
    pub fn hex(&mut self, digits: usize) -> Result<u32, Unanswered> {
        let word = self.word()?;
        if word.len() != digits || !word.bytes().all(is_hex) {
            return Err(Unanswered::Form);
        }
        u32::from_str_radix(word, 16).map_err(|_| Unanswered::Form)
    }

    pub fn bytes(&mut self, alloc: Global) -> Result<Vec<u8>, Unanswered> {
        pairs(alloc, self.word()?)
    }

    // The bytes of the word after a number, so many times over.
    pub fn repeated(&mut self, alloc: Global) -> Result<Vec<u8>, Unanswered> {
        let times = self.number::<u32>()? as usize;
        let mut all = self.bytes(alloc)?;
        let most = all.len().saturating_mul(times);
        if MOST < most {
            return Err(Unanswered::Form);
        }
        all.truncate(most);
        // What is there is doubled at each turn: a copy for each time takes far longer where the bytes are few.
        for _ in 0..usize::BITS {
            let more = most.saturating_sub(all.len());
            all.extend_from_within(..more.min(all.len()))?;
        }
        Ok(all)
    }

    // The bytes of a word, `+` for those held.
    pub fn bytes_or_held(&mut self, alloc: Global) -> Result<Vec<u8>, Unanswered> {
        let word = self.word()?;
        if word == "+" {
            self.took_held = true;
            return Ok(self.held.to_vec(alloc)?);
        }
        pairs(alloc, word)
    }

    // A list of sizes, of which none is 0.
    pub fn sizes(&mut self, alloc: Global) -> Result<Vec<usize>, Unanswered> {
        let mut sizes = Vec::new(alloc);
        for word in self.word()?.split(',') {
            let size = number::<u16>(word)?;
            if size == 0 || sizes.len() == SIZES {
                return Err(Unanswered::Form);
            }
            sizes.push(size as usize)?;
        }
        Ok(sizes)
    }

    // A list of numbers that the type has, `-` for none.
    pub fn list<T: FromStr + Drop>(&mut self, alloc: Global) -> Result<Vec<T>, Unanswered>
    where
        T::Err: Drop,
    {
        let mut all = Vec::new(alloc);
        let list = self.word()?;
        if list == "-" {
            return Ok(all);
        }
        for word in list.split(',') {
            all.push(number(word)?)?;
        }
        Ok(all)
    }
}

// One to ten decimal digits, after a minus sign or none.
fn number<T: FromStr>(word: &str) -> Result<T, Unanswered>
where
    T::Err: Drop,
{
    let digits = word.strip_prefix('-').unwrap_or(word);
    if 10 < digits.len() || !digits.bytes().all(|c| c.is_ascii_digit()) {
        return Err(Unanswered::Form);
    }
    word.parse().map_err(|_| Unanswered::Form)
}

fn is_hex(c: u8) -> bool {
    matches!(c, b'0'..=b'9' | b'a'..=b'f')
}

// The value of a hex digit.
fn digit(c: u8) -> Result<u8, Unanswered>
    ensures { IfOk result (λ d. d < 16) }
{
    match c {
        b'0'..=b'9' => Ok(c - b'0'),
        b'a'..=b'f' => Ok(c - b'a' + 10),
        _ => Err(Unanswered::Form),
    }
}

// The bytes that a word spells, `-` for none.
fn pairs(alloc: Global, word: &str) -> Result<Vec<u8>, Unanswered> {
    let mut bytes = Vec::new(alloc);
    if word == "-" {
        return Ok(bytes);
    }
    if word.is_empty() {
        return Err(Unanswered::Form);
    }
    for pair in word.as_bytes().chunks(2) {
        let [high, low] = pair else {
            return Err(Unanswered::Form);
        };
        bytes.push(digit(*high)? * 16 + digit(*low)?)?;
    }
    Ok(bytes)
}
