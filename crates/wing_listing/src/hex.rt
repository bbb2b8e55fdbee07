// 01: hex pairs. 02: hex digits are lower case.
ghost use Rattle.std.specs.Prelude.{◌≡◌, true, ◌+◌, ◌*◌, ◌≤◌, ◌<◌, length};
ghost use Rattle.std.proofs.lemmas.List.Edits.{sets};
ghost use Rattle.wing_mirror.specs.Table.{every};
ghost use Rattle.wing_listing.specs.Hex.{hex_digit, hex_value, is_hex, pairs_of, from_pairs, are_pairs};

#[tactic(auto, unfolding(crate::specs::Hex::hex_digit))]
fn hex_digit(d: u8) -> u8
    requires { d < 16 }
    ensures { result ≡ hex_digit d }
{
    if d < 10 { b'0' + d } else { b'a' + (d - 10) }
}

// The hex pairs of bytes, from a place on. By hand and not by Display: they go into a lent buffer, without a heap.
pub(crate) fn lay_pairs(out: &mut [u8], at: usize, s: &[u8])
    requires { at + 2 * length s.now ≤ length out.old }
    ensures { out.new ≡ sets out.old at (pairs_of s.now) }
{
    for (i, b) in s.iter().enumerate() {
        out[at + 2 * i] = hex_digit(b / 16);
        out[at + 2 * i + 1] = hex_digit(b % 16);
    }
}

#[tactic(auto, unfolding(crate::specs::Hex::is_hex, crate::specs::Integers::is_digit))]
fn is_hex(a: u8) -> bool
    ensures { result ≡ is_hex a }
{
    matches!(a, b'0'..=b'9' | b'a'..=b'f')
}

fn all_hex(s: &[u8]) -> bool
    ensures { result ≡ every is_hex s.now }
{
    s.iter().all(|a| is_hex(*a))
}

// 02: an even number of lower-case hex digits.
#[tactic(auto, unfolding(crate::specs::Hex::are_pairs))]
pub(crate) fn are_pairs(s: &[u8]) -> bool
    ensures { result ≡ are_pairs s.now }
{
    s.len() % 2 == 0 && all_hex(s)
}

#[tactic(auto, unfolding(crate::specs::Hex::hex_value, crate::specs::Hex::is_hex, crate::specs::Integers::is_digit))]
fn hex_value(a: u8) -> u8
    requires { is_hex a ≡ true }
    ensures { (result ≡ hex_value a) × (hex_value a < 16) }
{
    if a <= b'9' { a - b'0' } else { a - b'a' + 10 }
}

// The bytes of hex pairs, from a place on.
pub(crate) fn lay_bytes(out: &mut [u8], at: usize, s: &[u8])
    requires { (are_pairs s.now ≡ true) × (at + length (from_pairs s.now) ≤ length out.old) }
    ensures { out.new ≡ sets out.old at (from_pairs s.now) }
{
    for i in 0..s.len() / 2 {
        out[at + i] = hex_value(s[2 * i]) * 16 + hex_value(s[2 * i + 1]);
    }
}
