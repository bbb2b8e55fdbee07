// Units to tokens, tokens to events (libwing's read): what one unit makes of the token in progress.
ghost use Rattle.std.specs.Prelude.{◌≡◌, ◌-◌, set};
ghost use Rattle.wing_wire.specs.Unit.{taken, single_of, is_string, token_of, begin_of, counted, count_of, long_count_of, number_of, shift_in, number_unit, unit_effect, cleared, string_done, string_unit, keeps, body_done, body_next, body_unit, unit_of};

use crate::state::{State, Token, collected};
use crate::token::{Class, rule_of};
use wing_node::refusal::{Refusal, string_fault};

// What reading gives: 01's events, a refusal, or that more bytes are wanted.
// A string's or a body's bytes stand at the front of the store, or of the array beside the answer.
// One enum and no Result of an Option, since a reader goes on after each of them, a refusal too: 1 to 3 are answers, not failures.
#[derive(Clone, Copy)]
pub enum Answer {
    More,
    Integer(i32),
    Float(u32),
    String(u16),
    Body(u16),
    End,
    Refused(Refusal),
}

// What one unit makes of the token layer.
#[derive(Clone, Copy)]
pub struct Taken {
    pub answer: Answer,
    pub node: i32,
    pub token: Token,
}

fn taken_of(answer: Answer, node: i32, token: Token) -> Taken
    ensures { result ≡ taken answer node token }
{
    Taken {
        answer,
        node,
        token,
    }
}

// The token is read to its end, and the refusal given.
fn refuse(why: Refusal, node: i32) -> Taken
    ensures { result ≡ taken (Answer.Refused why) node Token.Between }
{
    taken_of(Answer::Refused(why), node, Token::Between)
}

// What a first unit that is its whole token gives.
#[tactic(auto, unfolding(crate::specs::Unit::single_of))]
fn single(class: Class, t: u8) -> Answer
    ensures { result ≡ single_of class t }
{
    match class {
        Class::Integer => Answer::Integer(t as i32),
        Class::String => Answer::String(0),
        Class::End => Answer::End,
        _ => Answer::More,
    }
}

#[tactic(auto, unfolding(crate::specs::Unit::is_string))]
fn is_string(class: Class) -> bool
    ensures { result ≡ is_string class }
{
    matches!(class, Class::String)
}

// A token that wants units.
#[tactic(auto, unfolding(crate::specs::Unit::token_of))]
fn token_of(class: Class, wants: u16) -> Token
    ensures { result ≡ token_of class wants }
{
    if is_string(class) {
        return Token::String {
            want: wants,
            left: wants,
        };
    }
    Token::Number {
        class,
        left: wants,
        value: 0,
    }
}

#[tactic(auto, unfolding(crate::specs::Unit::begin_of))]
fn begin(node: i32, t: u8) -> Taken
    ensures { result ≡ begin_of node t }
{
    let rule = rule_of(t);
    let class = rule.class;
    let wants = rule.wants;
    if wants == 0 {
        let answer = single(class, t);
        return taken_of(answer, node, Token::Between);
    }
    let token = token_of(class, wants);
    taken_of(Answer::More, node, token)
}

// A count that is not 0 wants as many units.
fn body_of(node: i32, c: u32) -> Taken
    ensures { result ≡ counted node c }
{
    taken_of(
        Answer::More,
        node,
        Token::Body {
            want: c,
            left: c,
            stored: 0,
        },
    )
}

// A 16-bit count; after 0 comes a 32-bit one.
#[tactic(auto, unfolding(crate::specs::Unit::count_of))]
fn count(node: i32, c: u16) -> Taken
    ensures { result ≡ count_of node c }
{
    if c == 0 {
        return taken_of(
            Answer::More,
            node,
            Token::Number {
                class: Class::LongCount,
                left: 4,
                value: 0,
            },
        );
    }
    body_of(node, c as u32)
}

// The 32-bit count after a count of 0; 3 if both are 0.
fn long_count(node: i32, c: u32) -> Taken
    ensures { result ≡ long_count_of node c }
{
    if c == 0 {
        return refuse(Refusal::BodyEmpty, node);
    }
    body_of(node, c)
}

// What a number gives when its last unit is there.
#[tactic(auto, unfolding(crate::specs::Unit::number_of))]
fn number(node: i32, class: Class, v: u32) -> Taken
    ensures { result ≡ number_of node class v }
{
    match class {
        Class::Length => {
            let n = (v % 0x100) as u16 + 1;
            taken_of(Answer::More, node, Token::String { want: n, left: n })
        }
        Class::Int16 => {
            let x = ((v % 0x10000) as u16).cast_signed();
            taken_of(Answer::Integer(x as i32), node, Token::Between)
        }
        Class::Int32 => taken_of(Answer::Integer(v.cast_signed()), node, Token::Between),
        Class::Float => taken_of(Answer::Float(v), node, Token::Between),
        Class::Node => taken_of(Answer::More, v.cast_signed(), Token::Between),
        Class::Count => count(node, (v % 0x10000) as u16),
        Class::LongCount => long_count(node, v),
        _ => taken_of(Answer::More, node, Token::Between),
    }
}

// A number with one unit more at its end, in 32 bits.
pub(crate) fn shift_in(v: u32, u: u8) -> u32
    ensures { result ≡ shift_in v u }
{
    v % 0x1000000 * 256 + (u as u32)
}

#[tactic(auto, unfolding(crate::specs::Unit::number_unit))]
fn number_unit(node: i32, class: Class, left: u16, v: u32, u: u8) -> Taken
    ensures { result ≡ number_unit node class left v u }
{
    let value = shift_in(v, u);
    if left <= 1 {
        return number(node, class, value);
    }
    taken_of(
        Answer::More,
        node,
        Token::Number {
            class,
            left: left - 1,
            value,
        },
    )
}

pub(crate) fn put(store: &mut [u8], at: usize, u: u8)
    ensures { store.new ≡ set store.old at u }
{
    if at < store.len() {
        store[at] = u;
    }
}

// The first n bytes of the store to 0, all of them where it has fewer.
pub(crate) fn clear(store: &mut [u8], n: usize)
    ensures { store.new ≡ cleared n store.old }
{
    let end = n.min(store.len());
    store[..end].fill(0);
}

fn string_done(node: i32, want: u16, store: &mut [u8]) -> Taken
    ensures { unit_effect result store.new ≡ string_done node want store.old }
{
    let fault = string_fault(store, want);
    match fault {
        Ok(()) => taken_of(Answer::String(want), node, Token::Between),
        Err(why) => {
            clear(store, want as usize);
            refuse(why, node)
        }
    }
}

#[tactic(auto, unfolding(crate::specs::Unit::string_unit))]
fn string_unit(node: i32, want: u16, left: u16, store: &mut [u8], u: u8) -> Taken
    ensures { unit_effect result store.new ≡ string_unit node want left store.old u }
{
    put(store, collected(want, left), u);
    if left <= 1 {
        return string_done(node, want, store);
    }
    taken_of(
        Answer::More,
        node,
        Token::String {
            want,
            left: left - 1,
        },
    )
}

// Whether a body's unit goes into the store.
#[tactic(auto, unfolding(crate::specs::Unit::keeps))]
fn is_kept(want: u32, stored: u16, appended: bool) -> bool
    ensures { result ≡ keeps want stored appended }
{
    appended && want as usize <= State::BODY_LIMIT && (stored as usize) < State::BODY_LIMIT
}

fn body_done(node: i32, want: u32, stored: u16) -> Taken
    ensures { result ≡ body_done node want stored }
{
    if want as usize <= State::BODY_LIMIT {
        return taken_of(Answer::Body(stored), node, Token::Between);
    }
    refuse(Refusal::BodyLong, node)
}

#[tactic(auto, unfolding(crate::specs::Unit::body_next))]
fn body_next(node: i32, want: u32, left: u32, stored: u16) -> Taken
    ensures { result ≡ body_next node want left stored }
{
    if left <= 1 {
        return body_done(node, want, stored);
    }
    taken_of(
        Answer::More,
        node,
        Token::Body {
            want,
            left: left - 1,
            stored,
        },
    )
}

#[tactic(auto, unfolding(crate::specs::Unit::body_unit))]
fn body_unit(
    node: i32,
    want: u32,
    left: u32,
    stored: u16,
    store: &mut [u8],
    u: u8,
    appended: bool,
) -> Taken
    ensures { unit_effect result store.new ≡ body_unit node want left stored store.old u appended }
{
    if is_kept(want, stored, appended) {
        put(store, stored as usize, u);
        return body_next(node, want, left, stored + 1);
    }
    body_next(node, want, left, stored)
}

// One unit. What a body's units append is in the store, as is every unit of a string.
#[tactic(auto, unfolding(crate::specs::Unit::unit_of))]
pub(crate) fn take_unit(node: i32, token: Token, store: &mut [u8], u: u8, appended: bool) -> Taken
    ensures { unit_effect result store.new ≡ unit_of node token store.old u appended }
{
    match token {
        Token::Between => begin(node, u),
        Token::Number { class, left, value } => number_unit(node, class, left, value, u),
        Token::String { want, left } => string_unit(node, want, left, store, u),
        Token::Body { want, left, stored } => body_unit(
            node, want, left, stored, store, u, appended,
        ),
    }
}
