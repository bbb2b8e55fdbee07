// The good of strings of 256 bytes that are 61 but for a piece, in three ways that must agree: by the check itself, by the
// set order and by the decoder.
use crate::show::{Answered, Unanswered, expect};
use crate::values::STRING;
use std::alloc::{AllocError, Global};
use wing_node::refusal::Refusal;
use wing_node::utf8;
use wing_wire::state::State;
use wing_wire::unit::Answer;
use wing_wire::{reader, set};

// The good of a string that is refused for it.
fn refused_good(why: Refusal) -> Option<usize> {
    match why {
        Refusal::StringNotUtf8 { good } => Some(good as usize),
        _ => None,
    }
}

// All of a string that is taken is good.
fn set_good(s: &[u8]) -> Option<usize> {
    let mut out = [0u8; 512];
    let w = set::set_string(&mut out, 0, s);
    match w {
        Ok(_) => Some(s.len()),
        Err(why) => refused_good(why),
    }
}

// 01: d1, the length minus 1, and the bytes, each df followed by de.
fn token_of(alloc: Global, s: &[u8]) -> Result<Vec<u8>, AllocError> {
    let mut token = Vec::with_capacity(alloc, 2 + 2 * STRING)?;
    token.extend_from_slice(&[0xd1, 0xff])?;
    for b in s {
        token.push(*b)?;
        if *b == 0xdf {
            token.push(0xde)?;
        }
    }
    Ok(token)
}

fn answer_good(a: Answer) -> Option<usize> {
    match a {
        Answer::String(n) => Some(n as usize),
        Answer::Refused(why) => refused_good(why),
        _ => None,
    }
}

fn read_good(alloc: Global, s: &[u8]) -> Result<Option<usize>, AllocError> {
    let token = token_of(alloc, s)?;
    let r = reader::next(State::fresh(), &token);
    let a = r.answer;
    Ok(answer_good(a))
}

// A string with the piece in a place: its good, and `!` where the ways differ.
fn good(text: &mut String, piece: &[u8], place: usize) -> Answered {
    let mut s = [b'a'; STRING];
    for (to, from) in s.iter_mut().skip(place).zip(piece) {
        *to = *from;
    }
    let alloc = *text.allocator();
    let n = utf8::good_len(&s);
    write!(text, "{n:04x}")?;
    expect(
        text,
        set_good(&s) == Some(n) && read_good(alloc, &s)? == Some(n),
    )
}

// The piece in every place that it fits. No bytes are out of form, and so are more than a string has.
pub fn all(text: &mut String, piece: &[u8]) -> Answered {
    if piece.is_empty() || STRING < piece.len() {
        return Err(Unanswered::Form);
    }
    for place in 0..=STRING - piece.len() {
        good(text, piece, place)?;
    }
    Ok(())
}
