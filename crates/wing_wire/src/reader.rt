// The next call: one event or refusal from a lent piece of the stream, the state by value.
ghost use Rattle.std.specs.Prelude.{◌≡◌, take};
ghost use Rattle.wing_wire.specs.State.{body_limit};
ghost use Rattle.wing_wire.specs.Stream.{advance_of};
ghost use Rattle.wing_wire.specs.Reader.{over, filled, string_beside, body_beside, next_from, refused_next, next_of, event_in, next_event};

use crate::state::{State, is_sound};
use crate::stream::{advance, release};
use crate::unit::Answer;
use wing_node::refusal::Refusal;

// The answer, the bytes taken, the state after it, and the string or body, zero-filled.
// 01: a value belongs to the current node, which is state.control.node.
#[derive(Clone, Copy)]
pub struct Reply {
    pub answer: Answer,
    pub taken: usize,
    pub state: State,
    pub string: [u8; 256],
    pub body: [u8; State::BODY_LIMIT],
}

// The first n bytes of s to the front of out, as far as both reach.
pub fn copy_front(out: &mut [u8], s: &[u8], n: usize)
    ensures { out.new ≡ over (take n s.now) out.old }
{
    let most = n.min(s.len()).min(out.len());
    // By a loop: a slice's own copy would make the archive for C need memmove.
    for i in 0..most {
        out[i] = s[i];
    }
}

// The first n bytes of the store, zero-filled.
fn front<const N: usize>(store: &[u8], n: u16) -> [u8; N]
    ensures { result ≡ filled N (take n store.now) }
{
    let mut out = [0u8; N];
    copy_front(&mut out, store, n as usize);
    out
}

#[tactic(auto, unfolding(crate::specs::Reader::string_beside))]
fn string_beside(a: Answer, store: &[u8]) -> [u8; 256]
    ensures { result ≡ string_beside a store.now }
{
    match a {
        Answer::String(n) => front(store, n),
        _ => [0u8; 256],
    }
}

#[tactic(auto, unfolding(crate::specs::Reader::body_beside))]
fn body_beside(a: Answer, store: &[u8]) -> [u8; State::BODY_LIMIT]
    ensures { result ≡ body_beside a store.now }
{
    match a {
        Answer::Body(n) => front(store, n),
        _ => [0u8; State::BODY_LIMIT],
    }
}

// A refused call takes nothing and gives the state back as it was.
fn refuse(s: State, why: Refusal) -> Reply
    ensures { result ≡ refused_next why s }
{
    Reply {
        answer: Answer::Refused(why),
        taken: 0,
        state: s,
        string: [0u8; 256],
        body: [0u8; State::BODY_LIMIT],
    }
}

fn read_on(s: State, bytes: &[u8]) -> Reply
    ensures { result ≡ next_from (advance_of s.control s.store bytes.now) }
{
    let mut store = s.store;
    let r = advance(s.control, &mut store, bytes);
    let string = string_beside(r.answer, &store);
    let body = body_beside(r.answer, &store);
    release(&mut store, r.answer);
    Reply {
        answer: r.answer,
        taken: r.taken,
        state: State {
            control: r.control,
            store,
        },
        string,
        body,
    }
}

// 01: takes up to 65,536 bytes and stops after the unit that completes an event or refusal; 'more' only when all bytes are taken
// and nothing is pending. 8, 14.
pub fn next(s: State, bytes: &[u8]) -> Reply
    ensures value { result ≡ next_of s bytes.now }
    ensures result_value { event_in result ≡ next_event s bytes.now }
{
    if is_sound(s) {
        if bytes.len() <= 65536 {
            return read_on(s, bytes);
        }
        return refuse(s, Refusal::NumberOver);
    }
    refuse(s, Refusal::StateUnsound)
}
