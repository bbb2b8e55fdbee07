// The width of the windows.
use std::env::FillError;
use std::rt::Env;

// What a word of decimal digits spells, 0, which is no width, for any other.
fn spelled(word: &[u8]) -> u32 {
    if !word.iter().all(|c| c.is_ascii_digit()) {
        return 0;
    }
    match str::from_utf8(word) {
        Ok(digits) => digits.parse().unwrap_or(0),
        Err(_) => 0,
    }
}

// Whether the program has an argument at a place; at 0 is its name.
pub fn is_given(rt: &impl Env, at: usize) -> bool {
    !matches!(rt.arg(at, &mut []), Err(FillError::NotPresent))
}

// The program's first argument, 256 where there is none. One of over 64 bytes is no width.
pub fn asked(rt: &impl Env) -> u32 {
    let mut word = [0u8; 64];
    match rt.arg(1, &mut word) {
        Ok(n) => spelled(&word[..n]),
        Err(FillError::TooLong) => 0,
        Err(FillError::NotPresent) => 256,
    }
}
