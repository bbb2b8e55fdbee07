// A line of text as a record in its place.
ghost use Rattle.std.specs.Prelude.{◌≡◌, true};
ghost use Rattle.wing_mirror.specs.Record.{kind_of, payload_of, laid_from, record_of};
ghost use Rattle.wing_node.specs.Refusal.{no_fault};
ghost use Rattle.wing_listing.specs.Reading.{is_value, value_said, value_fault, is_line, entry_said};
ghost use Rattle.wing_listing.specs.Steps.{kind_of_letter};

use crate::hex::lay_bytes;
use crate::integer::integer_in;
use crate::line::line_in;
use wing_node::field::put_number;
use wing_wire::state::State;

// The kind of a letter that is not i.
#[tactic(auto, unfolding(crate::specs::Steps::kind_of_letter))]
fn kind_of(letter: u8) -> u8
    ensures { result ≡ kind_of_letter letter }
{
    if letter == 0x66 { 1 } else { 2 }
}

// Kind, length and payload. As wing_mirror lays them, whose own function asks that the value fit, which no public one may.
fn lay_said(out: &mut [u8; State::PLACE_WIDTH], kind: u8, s: &[u8])
    requires { (is_value kind s.now ≡ true) × (value_fault (value_said kind s.now) ≡ no_fault) }
    ensures { out.new ≡ laid_from out.old (kind_of (value_said kind s.now)) (payload_of (value_said kind s.now)) }
{
    if kind == 0x69 {
        let x = integer_in(s).unwrap();
        out[4] = 0;
        put_number::<u16>(out, 6, 4);
        put_number(out, 8, x);
    } else {
        out[4] = kind_of(kind);
        put_number(out, 6, (s.len() / 2) as u16);
        lay_bytes(out, 8, s);
    }
}

// A line as a record. 02: its origin is one of the zeros, the console's.
pub(crate) fn record_in(s: &[u8]) -> [u8; State::PLACE_WIDTH]
    requires { (is_line s.now ≡ true) × (value_fault (entry_said s.now).value ≡ no_fault) }
    ensures { result ≡ record_of (entry_said s.now) }
{
    let l = line_in(s).unwrap();
    let mut out = [0u8; State::PLACE_WIDTH];
    put_number(&mut out, 0, l.id);
    lay_said(&mut out, l.kind, &s[l.from..]);
    out
}
