// The next call in libwing's form, with the receiving state lent to be altered (01: "then add one thin call in the
// lent form"). The core is next by value.
ghost use Rattle.std.specs.Prelude.{◌≡◌};
ghost use Rattle.wing_wire.specs.Reader.{next_of, event_in, next_event};
ghost use Rattle.wing_wire.specs.Lent.{whole_reply};

use crate::reader;
use crate::state::State;
use crate::unit::Answer;

// A reply without the state, which the caller has.
#[derive(Clone, Copy)]
pub struct LentReply {
    pub answer: Answer,
    pub taken: usize,
    pub string: [u8; 256],
    pub body: [u8; State::BODY_LIMIT],
}

// The walk stores the one field back and returns the other.
#[derive(Clone, Copy)]
pub struct Parted {
    pub state: State,
    pub reply: LentReply,
}

// next with its reply parted from the state, as the lent form stores them apart.
fn next_parted(s: State, bytes: &[u8]) -> Parted
    ensures { (whole_reply result.reply result.state ≡ next_of s bytes.now) × (event_in (whole_reply result.reply result.state) ≡ next_event s bytes.now) }
{
    let r = reader::next(s, bytes);
    let answer = r.answer;
    let state = r.state;
    let string = r.string;
    let body = r.body;
    let reply = LentReply {
        answer,
        taken: r.taken,
        string,
        body,
    };
    Parted { state, reply }
}

// Refused calls (8, 14) leave the state as it was: next_of says so of the state at exit.
pub fn next_lent(s: &mut State, bytes: &[u8]) -> LentReply
    ensures { (whole_reply result s.new ≡ next_of s.old bytes.now) × (event_in (whole_reply result s.new) ≡ next_event s.old bytes.now) }
{
    let r = next_parted(*s, bytes);
    *s = r.state;
    r.reply
}

// Test support: next_lent by value. It lends a local.
pub fn next_over(s: State, bytes: &[u8]) -> Parted
    ensures { (whole_reply result.reply result.state ≡ next_of s bytes.now) × (event_in (whole_reply result.reply result.state) ≡ next_event s bytes.now) }
{
    let mut state = s;
    let reply = next_lent(&mut state, bytes);
    Parted { state, reply }
}
