// UTF-8 (RFC 3629): how many leading bytes form whole characters, and whether all do.
// 01: "a lead byte's class is its count of leading one bits".
ghost use Rattle.std.specs.Prelude.{◌≡◌, ◌∷◌, [], ◌+◌, drop, replicate};
ghost use Rattle.wing_node.specs.Utf8.{◌to◌, utf8_tail, begins, lead_length, second, char_length, good, utf8, Octets, Longest, Decides};

use crate::field::{left, number_at};

// The length of the sequence that a lead byte begins, 0 where it begins none.
// Its class, the count of its leading ones, chooses. C0 and C1 would begin a character that one byte holds, F5 to F7 one past U+10FFFF.
fn lead_length(lead: u8) -> usize
    ensures { result ≡ lead_length lead }
{
    match lead.leading_ones() {
        0 => 1,
        2 => if lead < 0xc2 { 0 } else { 2 },
        3 => 3,
        4 => if lead < 0xf5 { 4 } else { 0 },
        _ => 0,
    }
}

// The lowest and the highest byte after a lead byte. After E0 and F0 a lower one would spell a character that a shorter sequence holds,
// after ED a higher one a surrogate, after F4 a higher one a character past U+10FFFF.
fn second(lead: u8) -> (u8, u8)
    ensures { result ≡ ((second lead).low, (second lead).high) }
{
    match lead {
        0xe0 => (0xa0, 0xbf),
        0xed => (0x80, 0x9f),
        0xf0 => (0x90, 0xbf),
        0xf4 => (0x80, 0x8f),
        _ => (0x80, 0xbf),
    }
}

// Whether a byte from low to high stands at i.
fn is_in_range(s: &[u8], i: usize, low: u8, high: u8) -> bool
    ensures { result ≡ begins ((low to high) ∷ []) (drop i s.now) }
{
    match s.get(i) {
        Some(&byte) => low <= byte && byte <= high,
        None => false,
    }
}

// Whether n tail bytes stand at the front.
fn tails(s: &[u8], n: usize) -> bool
    ensures { result ≡ begins (replicate n utf8_tail) s.now }
{
    n <= s.len() && s[..n].iter().all(|byte| matches!(*byte, 0x80..=0xbf))
}

// The length of the character at i, 0 where none stands there.
fn char_length(s: &[u8], i: usize) -> usize
    ensures { result ≡ char_length (drop i s.now) }
{
    if i < s.len() {
        let lead = s[i];
        let length = lead_length(lead);
        if length < 2 {
            return length;
        }
        let (low, high) = second(lead);
        if is_in_range(s, i + 1, low, high) {
            if tails(&s[i + 2..], length - 2) {
                return length;
            }
        }
    }
    0
}

// The place after the whole characters from a place on.
fn good_from(s: &[u8], from: usize) -> usize
    ensures { result ≡ from + good (drop from s.now) }
{
    let mut i = from;
    // A while, as a turn goes on by a whole character.
    while i < s.len() {
        // ASCII is passed without a call.
        if s[i] < 0x80 {
            i += 1;
        } else {
            let length = char_length(s, i);
            if length == 0 {
                return i;
            }
            i += length;
        }
    }
    i
}

// Whether four bytes of ASCII stand at i: no byte of the number that they make has its high bit.
fn ascii_4(s: &[u8], i: usize) -> bool
    ensures { result ≡ begins (replicate 4 (0x00 to 0x7f)) (drop i s.now) }
{
    if left(s, i) < 4 {
        return false;
    }
    number_at::<u32>(s, i) & 0x8080_8080 == 0
}

// How many leading bytes form whole characters by RFC 3629's grammar: the largest such number.
pub fn good_len(s: &[u8]) -> usize
    ensures value { result ≡ good s.now }
    ensures longest { Longest result s.now }
{
    // ASCII at the front, often the whole, is passed four bytes at a time.
    let mut i = 0;
    // A while, as a turn goes on by four bytes.
    while ascii_4(s, i) {
        i += 4;
    }
    good_from(s, i)
}

// Whether the bytes are UTF-8: all of them are good.
pub fn is_utf8(s: &[u8]) -> bool
    ensures value { result ≡ utf8 s.now }
    ensures decides { Decides result (Octets s.now) }
{
    good_len(s) == s.len()
}
