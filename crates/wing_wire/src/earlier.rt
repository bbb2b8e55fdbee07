// A decoder state of the time when a body's counts had 16 bits, and a count of 0 took four units more and was refused (02, Job 4); and how it is
// carried over.
ghost use Rattle.std.specs.Prelude.{◌≡◌};
ghost use Rattle.wing_wire.specs.Earlier.{is_started, carried_token, carried, carry_of};

use crate::state;
use crate::state::{Escape, is_sound};
use crate::token::Class;
use wing_node::refusal::Refusal;

// The token in progress, as it was: a type of its own, since version 1's form may not change with today's.
#[derive(Clone, Copy)]
pub enum Token {
    Between,
    Number { class: Class, left: u16, value: u32 },
    String { want: u16, left: u16 },
    Body { want: u16, left: u16, stored: u16 },
}

// The state without its store, as it was.
#[derive(Clone, Copy)]
pub struct Control {
    pub escape: Escape,
    pub node: i32,
    pub token: Token,
}

#[derive(Clone, Copy)]
pub struct State {
    pub control: Control,
    pub store: [u8; state::State::BODY_LIMIT],
}

// Whether any of the four units after a count of 0 is taken.
#[tactic(auto, unfolding(crate::specs::Earlier::is_started, crate::specs::Earlier::is_long_count))]
fn is_started(token: Token) -> bool
    ensures { result ≡ is_started token }
{
    matches!(token, Token::Number { class: Class::LongCount, left, .. } if left < 4)
}

// The same token, a body's counts in 32 bits.
#[tactic(auto, unfolding(crate::specs::Earlier::carried_token))]
fn carried_token(token: Token) -> state::Token
    ensures { result ≡ carried_token token }
{
    match token {
        Token::Between => state::Token::Between,
        Token::Number { class, left, value } => state::Token::Number { class, left, value },
        Token::String { want, left } => state::Token::String { want, left },
        Token::Body { want, left, stored } => state::Token::Body {
            want: want as u32,
            left: left as u32,
            stored,
        },
    }
}

// The same state, its token carried over.
fn carried_state(s: State) -> state::State
    ensures { result ≡ carried s }
{
    let c = s.control;
    let store = s.store;
    state::State {
        control: state::Control {
            escape: c.escape,
            node: c.node,
            token: carried_token(c.token),
        },
        store,
    }
}

// 02: an old sound state is carried over with its units left, stored bytes and all else the same; 8 for one that is not sound or has taken
// any of the four units after a count of 0.
pub fn carry_over(s: State) -> Result<state::State, Refusal>
    ensures { result ≡ carry_of s }
{
    if is_started(s.control.token) {
        return Err(Refusal::StateUnsound);
    }
    let over = carried_state(s);
    if is_sound(over) {
        return Ok(over);
    }
    Err(Refusal::StateUnsound)
}
