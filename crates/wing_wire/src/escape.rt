// The escapes: bytes into units, one at a time (libwing's decode_next).
ghost use Rattle.std.specs.Prelude.{◌≡◌};
ghost use Rattle.wing_wire.specs.State.{escape};
ghost use Rattle.wing_wire.specs.Escape.{decoded, ended, other_of, escaped_of, plain_of, decode_of, decode_next_of};

use crate::state::Escape;

// What a byte gives: no unit, a unit that a body does not keep, one that is appended to it.
#[derive(Clone, Copy)]
pub enum Unit {
    Nothing,
    Bare(u8),
    Appended(u8),
}

// The escapes after one byte, and what it gives.
#[derive(Clone, Copy)]
pub struct Decoded {
    pub escape: Escape,
    pub unit: Unit,
}

// The escapes, the next unit, if there is one, and the place of the byte after it.
#[derive(Clone, Copy)]
pub struct NextUnit {
    pub escape: Escape,
    pub unit: Unit,
    pub at: usize,
}

fn escape_of(escaped: bool, channel: i8, pending: Option<u8>) -> Escape
    ensures { result ≡ escape escaped channel pending }
{
    Escape {
        escaped,
        channel,
        pending,
    }
}

fn end_escape(e: Escape) -> Escape
    ensures { result ≡ ended e }
{
    Escape {
        escaped: false,
        ..e
    }
}

// A byte after df that is none of d0 to df.
fn other(e: Escape, b: u8) -> Decoded
    ensures { result ≡ other_of e b }
{
    if e.channel < 0 {
        let after = end_escape(e);
        return Decoded {
            escape: after,
            unit: Unit::Appended(b),
        };
    }
    let after = escape_of(false, e.channel, Some(b));
    Decoded {
        escape: after,
        unit: Unit::Appended(0xdf),
    }
}

fn decoded_of(e: Escape, unit: Unit) -> Decoded
    ensures { result ≡ decoded e unit }
{
    Decoded { escape: e, unit }
}

#[tactic(auto, unfolding(crate::specs::Escape::escaped_of))]
fn decode_escaped(e: Escape, b: u8) -> Decoded
    ensures { result ≡ escaped_of e b }
{
    // 01: df df is still escaped; anything else ends escaped.
    let ended = end_escape(e);
    match b {
        0xdf => decoded_of(e, Unit::Bare(0xdf)),
        0xde => decoded_of(ended, Unit::Appended(0xdf)),
        0xd0..=0xdd => {
            let after = Escape {
                channel: (b - 0xd0) as i8,
                ..ended
            };
            decoded_of(after, Unit::Nothing)
        }
        _ => other(e, b),
    }
}

#[tactic(auto, unfolding(crate::specs::Escape::plain_of))]
fn decode_plain(e: Escape, b: u8) -> Decoded
    ensures { result ≡ plain_of e b }
{
    if b == 0xdf {
        let after = Escape { escaped: true, ..e };
        return decoded_of(after, Unit::Nothing);
    }
    decoded_of(e, Unit::Appended(b))
}

// One byte, where nothing is pending.
#[tactic(auto, unfolding(crate::specs::Escape::decode_of))]
fn decode_byte(e: Escape, b: u8) -> Decoded
    ensures { result ≡ decode_of e b }
{
    if e.escaped {
        decode_escaped(e, b)
    } else {
        decode_plain(e, b)
    }
}

// The pending byte, if there is one, is the next unit and no byte is taken. Else the byte at the place, if there is one,
// is taken and gives its unit or none.
pub fn decode_next(e: Escape, bytes: &[u8], at: usize) -> NextUnit
    ensures { result ≡ decode_next_of e bytes.now at }
{
    let pending = e.pending;
    match pending {
        None => {
            if at < bytes.len() {
                let d = decode_byte(e, bytes[at]);
                return NextUnit {
                    escape: d.escape,
                    unit: d.unit,
                    at: at + 1,
                };
            }
            NextUnit {
                escape: e,
                unit: Unit::Nothing,
                at,
            }
        }
        Some(u) => {
            let after = escape_of(e.escaped, e.channel, None);
            NextUnit {
                escape: after,
                unit: Unit::Appended(u),
                at,
            }
        }
    }
}
