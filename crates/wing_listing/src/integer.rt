// 02: integers fit 32 bits and have no leading zero, no plus sign and no minus zero.
ghost use Rattle.std.specs.Prelude.{◌≡◌};
ghost use Rattle.wing_listing.specs.Integers.{no_leading_zero};
ghost use Rattle.wing_listing.specs.Steps.{number_up_to, natural_read, negative_read, integer_read};

// More than any number that fits.
const TOO_MUCH: u64 = 0x1_0000_0000;

// The number that digits spell; 2^32 for one that is no less, and for a text that is not of digits alone.
fn number_in(s: &[u8]) -> u64
    ensures { result ≡ number_up_to s.now }
{
    let mut n: u64 = 0;
    for a in s {
        if !a.is_ascii_digit() {
            return TOO_MUCH;
        }
        n = (n * 10 + u64::from(*a - b'0')).min(TOO_MUCH);
    }
    n
}

// 02: 0 comes first only alone.
#[tactic(auto, unfolding(crate::specs::Integers::no_leading_zero))]
fn is_led(s: &[u8]) -> bool
    ensures { result ≡ no_leading_zero s.now }
{
    s.len() == 1 || 1 < s.len() && s[0] != b'0'
}

fn natural_in(s: &[u8]) -> Option<i32>
    ensures { result ≡ natural_read s.now }
{
    if is_led(s) {
        let n = number_in(s);
        if n < 0x8000_0000 {
            return Some((n as u32).cast_signed());
        }
    }
    None
}

// What stands after a minus sign.
fn negative_in(s: &[u8]) -> Option<i32>
    ensures { result ≡ negative_read s.now }
{
    if s.len() > 0 && s[0] != b'0' {
        let n = number_in(s);
        if n <= 0x8000_0000 {
            return Some(((TOO_MUCH - n) as u32).cast_signed());
        }
    }
    None
}

// The integer that a text is in form, if it is.
pub(crate) fn integer_in(s: &[u8]) -> Option<i32>
    ensures { result ≡ integer_read s.now }
{
    match s.strip_prefix(b"-") {
        Some(digits) => negative_in(digits),
        None => natural_in(s),
    }
}
