// Bytes one after the other, up to the next answer: the core, over the small control and the lent store.
ghost use Rattle.std.specs.Prelude.{◌≡◌, drop};
ghost use Rattle.wing_wire.specs.State.{control};
ghost use Rattle.wing_wire.specs.Stream.{answered, step_effect, is_more, given_of, advance_of, run, released};
ghost use Rattle.wing_wire.specs.Plain.{is_pending, is_nothing, is_appended, value_of, is_inner, number_ahead, ahead_effect, string_ahead, token_ahead, is_plain, is_free, stepped, ahead_of, once_of, is_on};

use crate::escape::{Unit, decode_next};
use crate::state::{Control, Escape, Token, collected};
use crate::token::Class;
use crate::unit::{Answer, Taken, clear, put, shift_in, take_unit};

// An answer, with the control after it.
#[derive(Clone, Copy)]
pub struct Answered {
    pub answer: Answer,
    pub control: Control,
}

// The same, with the number of bytes taken.
#[derive(Clone, Copy)]
pub struct Advanced {
    pub answer: Answer,
    pub control: Control,
    pub taken: usize,
}

// What a unit gave, with the escapes as they now are.
fn after_unit(e: Escape, t: Taken) -> Answered
    ensures { result ≡ answered t.answer (control e t.node t.token) }
{
    Answered {
        answer: t.answer,
        control: Control {
            escape: e,
            node: t.node,
            token: t.token,
        },
    }
}

// Whether an answer is 'more'.
pub fn is_more(a: Answer) -> bool
    ensures { result ≡ is_more a }
{
    matches!(a, Answer::More)
}

// The token after a run of plain bytes, and the place of the byte after them.
#[derive(Clone, Copy)]
pub struct TokenAt {
    pub token: Token,
    pub at: usize,
}

// An answer with the control after it, and the place of the byte after it.
#[derive(Clone, Copy)]
pub struct Stepped {
    pub answered: Answered,
    pub at: usize,
}

fn is_pending(p: Option<u8>) -> bool
    ensures { result ≡ is_pending p }
{
    match p {
        None => false,
        Some(_) => true,
    }
}

fn is_nothing(u: Unit) -> bool
    ensures { result ≡ is_nothing u }
{
    matches!(u, Unit::Nothing)
}

fn is_appended(u: Unit) -> bool
    ensures { result ≡ is_appended u }
{
    matches!(u, Unit::Appended(_))
}

fn value_of(u: Unit) -> u8
    ensures { result ≡ value_of u }
{
    match u {
        Unit::Nothing => 0,
        Unit::Bare(b) | Unit::Appended(b) => b,
    }
}

// What a unit makes of the control. take_unit is called here alone, so that it becomes part of the loop.
fn take(c: Control, store: &mut [u8], after: Escape, unit: Unit) -> Answered
    ensures { step_effect result store.new ≡ given_of unit after c store.old }
{
    if is_nothing(unit) {
        return Answered {
            answer: Answer::More,
            control: Control { escape: after, ..c },
        };
    }
    let t = take_unit(c.node, c.token, store, value_of(unit), is_appended(unit));
    after_unit(after, t)
}

// Whether a plain byte is a unit of its token but not the last.
#[tactic(auto, unfolding(crate::specs::Plain::is_inner))]
fn is_inner(left: u16, b: u8) -> bool
    ensures { result ≡ is_inner left b }
{
    1 < left && b != 0xdf
}

// The units of a number up to its last, from plain bytes: these change nothing else, so they go fast.
fn number_ahead(class: Class, left: u16, value: u32, bytes: &[u8], at: usize) -> TokenAt
    ensures { result ≡ number_ahead class left value at (drop at bytes.now) }
{
    let mut l = left;
    let mut v = value;
    let mut i = at;
    // A while, since the place is handed in and handed back.
    while i < bytes.len() && is_inner(l, bytes[i]) {
        v = shift_in(v, bytes[i]);
        l -= 1;
        i += 1;
    }
    TokenAt {
        token: Token::Number {
            class,
            left: l,
            value: v,
        },
        at: i,
    }
}

// The inner units of a string, which are stored as they come.
fn string_ahead(want: u16, left: u16, store: &mut [u8], bytes: &[u8], at: usize) -> TokenAt
    ensures { ahead_effect result store.new ≡ string_ahead want left store.old at (drop at bytes.now) }
{
    let mut l = left;
    let mut i = at;
    // A while, since the place is handed in and handed back.
    while i < bytes.len() && is_inner(l, bytes[i]) {
        put(store, collected(want, l), bytes[i]);
        l -= 1;
        i += 1;
    }
    TokenAt {
        token: Token::String { want, left: l },
        at: i,
    }
}

#[tactic(auto, unfolding(crate::specs::Plain::token_ahead))]
fn token_ahead(token: Token, store: &mut [u8], bytes: &[u8], at: usize) -> TokenAt
    ensures { ahead_effect result store.new ≡ token_ahead token store.old at (drop at bytes.now) }
{
    match token {
        Token::Number { class, left, value } => number_ahead(class, left, value, bytes, at),
        Token::String { want, left } => string_ahead(want, left, store, bytes, at),
        _ => TokenAt { token, at },
    }
}

// Unescaped, and nothing pending.
fn is_plain(e: Escape) -> bool
    ensures { result ≡ is_plain e }
{
    !e.escaped && !is_pending(e.pending)
}

// No answer yet, and the next byte is plain or df.
fn is_free(t: Answered) -> bool
    ensures { result ≡ is_free t }
{
    is_more(t.answer) && is_plain(t.control.escape)
}

#[tactic(auto, unfolding(crate::specs::Plain::ahead_of))]
fn ahead(c: Control, store: &mut [u8], bytes: &[u8], at: usize) -> Stepped
    ensures { stepped result store.new ≡ ahead_of c store.old at (drop at bytes.now) }
{
    let g = token_ahead(c.token, store, bytes, at);
    Stepped {
        answered: Answered {
            answer: Answer::More,
            control: Control {
                token: g.token,
                ..c
            },
        },
        at: g.at,
    }
}

// One unit, and after it the plain bytes that go fast.
#[tactic(auto, unfolding(crate::specs::Plain::once_of, crate::specs::Plain::on_ahead))]
fn step(c: Control, store: &mut [u8], bytes: &[u8], at: usize) -> Stepped
    ensures { stepped result store.new ≡ once_of c store.old bytes.now at }
{
    let g = decode_next(c.escape, bytes, at);
    let t = take(c, store, g.escape, g.unit);
    if is_free(t) {
        return ahead(t.control, store, bytes, g.at);
    }
    Stepped {
        answered: t,
        at: g.at,
    }
}

// No answer yet, and a byte is left or pending.
fn is_on(t: Answered, at: usize, end: usize) -> bool
    ensures { result ≡ is_on t at end }
{
    is_more(t.answer) && (at < end || is_pending(t.control.escape.pending))
}

// The next answer. The store then holds the bytes of a string or body: release gives them up.
pub fn advance(c: Control, store: &mut [u8], bytes: &[u8]) -> Advanced
    ensures { run result store.new ≡ advance_of c store.old bytes.now }
{
    let mut t = Answered {
        answer: Answer::More,
        control: c,
    };
    let mut i = 0;
    // A while, since a turn may take one byte or many, or none at the end.
    while is_on(t, i, bytes.len()) {
        let g = step(t.control, store, bytes, i);
        t = g.answered;
        i = g.at;
    }
    Advanced {
        answer: t.answer,
        control: t.control,
        taken: i,
    }
}

// Gives up the bytes of an answer's string or body, so that the store is clear for the next token.
#[tactic(auto, unfolding(crate::specs::Stream::released))]
pub fn release(store: &mut [u8], a: Answer)
    ensures { store.new ≡ released a store.old }
{
    match a {
        Answer::String(n) | Answer::Body(n) => clear(store, n as usize),
        _ => {}
    }
}
