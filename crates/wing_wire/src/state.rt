// The receiving state (libwing's _WingConsoleMain without its socket and timers), by value.
ghost use Rattle.std.specs.Prelude.{◌≡◌, ◌-◌, ◌^◌, ltb, drop};
ghost use Rattle.wing_wire.specs.State.{fresh_control, fresh_state, zeros, underway, stored_by};
ghost use Rattle.wing_wire.specs.State.{sound_pending, sound_escape, sound_number, sound_string, sound_body};
ghost use Rattle.wing_wire.specs.State.{sound_counts, sound_token, sound_state, state_of};

use crate::token;
use crate::token::Class;

// What the escapes keep between bytes; a pending byte waits to be the next unit.
#[derive(Debug, Clone, Copy, PartialEq, Eq)]
pub struct Escape {
    pub escaped: bool,
    pub channel: i8,
    pub pending: Option<u8>,
}

// The token in progress, by the units that it still wants. A string's bytes, and those that a body's units
// appended, stand at the front of the store. How many are stored of a body comes first: so a token has 12 bytes and not 16.
#[derive(Debug, Clone, Copy, PartialEq, Eq)]
pub enum Token {
    Between,
    Number { class: Class, left: u16, value: u32 },
    String { want: u16, left: u16 },
    Body { stored: u16, want: u32, left: u32 },
}

// The state without its store.
#[derive(Debug, Clone, Copy, PartialEq, Eq)]
pub struct Control {
    pub escape: Escape,
    pub node: i32,
    pub token: Token,
}

#[derive(Clone, Copy)]
pub struct State {
    pub control: Control,
    pub store: [u8; State::BODY_LIMIT],
}

impl Control {
    // 01: unescaped, channel −1, nothing pending, current node 0, between tokens.
    pub fn fresh() -> Self
        ensures { result ≡ fresh_control }
    {
        Self {
            escape: Escape {
                escaped: false,
                channel: -1,
                pending: None,
            },
            node: 0,
            token: Token::Between,
        }
    }
}

impl State {
    pub const BODY_LIMIT: usize = 4096;

    pub const PLACE_WIDTH: usize = 264;

    // The same with a store of zeros.
    pub fn fresh() -> Self
        ensures { result ≡ fresh_state }
    {
        State {
            control: Control::fresh(),
            store: [0u8; State::BODY_LIMIT],
        }
    }
}

// A pending byte only when unescaped with channel at least 0.
fn sound_pending(e: Escape) -> bool
    ensures { result ≡ sound_pending e.pending e }
{
    let pending = e.pending;
    match pending {
        None => true,
        Some(_) => {
            if e.escaped {
                return false;
            }
            0 <= e.channel
        }
    }
}

// Channel −1 to 13.
#[tactic(auto, unfolding(crate::specs::State::sound_escape))]
fn sound_escape(e: Escape) -> bool
    ensures { result ≡ sound_escape e }
{
    -1 <= e.channel && e.channel <= 13 && sound_pending(e)
}

// Fewer units collected than wanted.
#[tactic(auto, unfolding(crate::specs::State::underway))]
fn is_underway(left: u32, want: u32) -> bool
    ensures { result ≡ underway left want }
{
    1 <= left && left <= want
}

// A number of 32 bits is below 256 to any four units or more.
fn is_within(value: u32, units: u16) -> bool
    ensures { result ≡ ltb value (256 ^ units) }
{
    4 <= units || value < 256u32.pow(u32::from(units))
}

// A number has fewer units than its class, and no more bits than they gave.
#[tactic(auto, unfolding(crate::specs::State::sound_number))]
fn sound_number(class: Class, left: u16, value: u32) -> bool
    ensures { result ≡ sound_number class left value }
{
    let width = token::width_of(class);
    is_underway(left as u32, width as u32) && is_within(value, width - left)
}

// A string wants at most 256 units.
#[tactic(auto, unfolding(crate::specs::State::sound_string))]
fn sound_string(want: u16, left: u16) -> bool
    ensures { result ≡ sound_string want left }
{
    is_underway(left as u32, want as u32) && want <= 256
}

// No more bytes stored than units collected, and none where the count is over the limit.
#[tactic(auto, unfolding(crate::specs::State::sound_body))]
fn sound_body(want: u32, left: u32, stored: u16) -> bool
    ensures { result ≡ sound_body want left stored }
{
    is_underway(left, want)
        && if want as usize <= State::BODY_LIMIT {
            stored as u32 <= want - left
        } else {
            stored == 0
        }
}

#[tactic(auto, unfolding(crate::specs::State::sound_counts))]
fn sound_counts(token: Token) -> bool
    ensures { result ≡ sound_counts token }
{
    match token {
        Token::Between => true,
        Token::Number { class, left, value } => sound_number(class, left, value),
        Token::String { want, left } => sound_string(want, left),
        Token::Body { want, left, stored } => sound_body(want, left, stored),
    }
}

// The units collected: none where more are left than wanted, which no sound token has.
pub(crate) fn collected(want: u16, left: u16) -> usize
    ensures { result ≡ want - left }
{
    want.saturating_sub(left) as usize
}

// A string keeps every unit, so what it stores is what it collected.
#[tactic(auto, unfolding(crate::specs::State::stored_by))]
fn stored_by(token: Token) -> usize
    ensures { result ≡ stored_by token }
{
    match token {
        Token::String { want, left } => collected(want, left),
        Token::Body { stored, .. } => stored as usize,
        _ => 0,
    }
}

// The bytes from a place on are all 0. They are joined with no test on the way: so they compile to joins of sixteen
// bytes at a time, and a store is nearly always all 0.
pub fn zeros_from(store: &[u8], at: usize) -> bool
    ensures { result ≡ zeros (drop at store.now) }
{
    let mut bits = 0;
    for &b in &store[at.min(store.len())..] {
        bits |= b;
    }
    bits == 0
}

#[tactic(auto, unfolding(crate::specs::State::sound_token))]
fn sound_token(token: Token, store: &[u8]) -> bool
    ensures { result ≡ sound_token token store.now }
{
    sound_counts(token) && zeros_from(store, stored_by(token))
}

// The states that a caller may hand back, by control and lent store; any other is refused (refusal 8).
#[tactic(auto, unfolding(crate::specs::State::sound_state))]
pub fn is_sound_lent(control: Control, store: &[u8]) -> bool
    ensures { result ≡ sound_state (state_of control store.now) }
{
    sound_escape(control.escape) && sound_token(control.token, store)
}

// The same of a state by value.
pub fn is_sound(s: State) -> bool
    ensures { result ≡ sound_state s }
{
    is_sound_lent(s.control, &s.store)
}
