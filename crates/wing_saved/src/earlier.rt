// States saved under version 1, before a body's counts had 32 bits (02, Job 4). Their fields are those of today, so that they are read by the same
// functions, and then carried over.
ghost use Rattle.std.specs.Prelude.{◌≡◌, length};
ghost use Rattle.wing_wire.specs.State.{body_limit};
ghost use Rattle.wing_wire.specs.Earlier.{earlier_control, earlier_state, carry_of};
ghost use Rattle.wing_saved.specs.Earlier.{is_narrow, narrowed, load_earlier_of};

use crate::{HEAD, head_under, lay, low_16};
use wing_node::refusal::Refusal;
use wing_wire::earlier;
use wing_wire::state::{Control, State, Token};

// The version of that form.
pub const EARLIER_VERSION: u8 = 1;

// Whether a body's counts have 16 bits.
#[tactic(auto, unfolding(crate::specs::Earlier::is_narrow))]
fn is_narrow(token: Token) -> bool
    ensures { result ≡ is_narrow token }
{
    match token {
        Token::Body { want, left, .. } => want < 0x10000 && left < 0x10000,
        _ => true,
    }
}

// The token as it was, a body's counts in 16 bits.
#[tactic(auto, unfolding(crate::specs::Earlier::narrowed))]
fn narrow(token: Token) -> earlier::Token
    ensures { result ≡ narrowed token }
{
    match token {
        Token::Between => earlier::Token::Between,
        Token::Number { class, left, value } => earlier::Token::Number { class, left, value },
        Token::String { want, left } => earlier::Token::String { want, left },
        Token::Body { want, left, stored } => earlier::Token::Body {
            want: low_16(want),
            left: low_16(left),
            stored,
        },
    }
}

// The old state of a control and of the bytes of its store, carried over.
fn carry(c: Control, bytes: &[u8]) -> Result<State, Refusal>
    requires { length bytes.now ≡ body_limit }
    ensures { result ≡ carry_of (earlier_state (earlier_control c.escape c.node (narrowed c.token)) bytes.now) }
{
    let escape = c.escape;
    let token = c.token;
    let was = narrow(token);
    let mut store = [0u8; State::BODY_LIMIT];
    lay(&mut store, 0, bytes);
    let s = earlier::State {
        control: earlier::Control {
            escape,
            node: c.node,
            token: was,
        },
        store,
    };
    earlier::carry_over(s)
}

// The state whose bytes under version 1 these are, carried over; 8 if they are no sound state's, or if it has taken any of the four units after a count
// of 0.
pub fn load_earlier(bytes: &[u8]) -> Result<State, Refusal>
    ensures { result ≡ load_earlier_of bytes.now }
{
    let c = head_under(EARLIER_VERSION, bytes)?;
    if is_narrow(c.token) {
        return carry(c, &bytes[HEAD..]);
    }
    Err(Refusal::StateUnsound)
}
