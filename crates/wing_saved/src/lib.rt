// A decoder state as plain bytes of one size, to be kept, saved or sent: fields for the control, then the store.
#![tactic(auto)]

ghost use Rattle.std.specs.Prelude.{◌≡◌, ◌+◌, ◌%◌, ◌≤◌, length};
ghost use Rattle.std.proofs.lemmas.List.Edits.{sets};
ghost use Rattle.wing_wire.specs.State.{body_limit, state_of};
ghost use Rattle.wing_wire.specs.Write.{write_effect, write_of};
ghost use Rattle.wing_saved.specs.Saved.{saved_size, pending_flag, pending_byte_of, fields_of, head_under, head_bytes, state_bytes};
ghost use Rattle.wing_saved.specs.Saved.{pending_in, token_in, fields_in, control_in, sound_only, head_from_under, head_from, state_from, save_of};

use wing_node::field::{number_at, put_number};
use wing_node::refusal::Refusal;
use wing_wire::state::{Control, Escape, State, Token, is_sound};
use wing_wire::token::Class;

pub mod earlier;

// The version of the form, its first byte. Version 1 had the same fields; a body's counts had 16 bits (earlier.rt).
pub const VERSION: u8 = 2;

// The bytes of the fields before the store.
pub const HEAD: usize = 27;

// The bytes of a saved state.
pub const SIZE: usize = HEAD + State::BODY_LIMIT;

// A token by numbers: 0 for what it has not.
#[derive(Clone, Copy, Default)]
struct TokenFields {
    kind: u8,
    class: u8,
    want: u32,
    left: u32,
    stored: u16,
    value: u32,
}

fn pending_flag(p: Option<u8>) -> u8
    ensures { result ≡ pending_flag p }
{
    match p {
        None => 0,
        Some(_) => 1,
    }
}

fn pending_byte(p: Option<u8>) -> u8
    ensures { result ≡ pending_byte_of p }
{
    match p {
        None => 0,
        Some(b) => b,
    }
}

#[tactic(auto, unfolding(crate::specs::Saved::fields_of))]
fn fields_of(token: Token) -> TokenFields
    ensures { result ≡ fields_of token }
{
    match token {
        Token::Between => TokenFields::default(),
        Token::Number { class, left, value } => TokenFields {
            kind: 1,
            class: u8::from(class),
            left: u32::from(left),
            value,
            ..TokenFields::default()
        },
        Token::String { want, left } => TokenFields {
            kind: 2,
            want: u32::from(want),
            left: u32::from(left),
            ..TokenFields::default()
        },
        Token::Body { want, left, stored } => TokenFields {
            kind: 3,
            want,
            left,
            stored,
            ..TokenFields::default()
        },
    }
}

// The fields before the store, in their order, under a version.
fn head_of(version: u8, c: Control) -> [u8; HEAD]
    ensures { result ≡ head_under version c }
{
    let escape = c.escape;
    let pending = escape.pending;
    let token = c.token;
    let k = fields_of(token);
    let mut head = [0u8; HEAD];
    head[0] = version;
    head[1] = u8::from(escape.escaped);
    head[2] = escape.channel.cast_unsigned();
    head[3] = pending_flag(pending);
    head[4] = pending_byte(pending);
    put_number(&mut head, 5, c.node);
    head[9] = k.kind;
    head[10] = k.class;
    put_number(&mut head, 11, k.want);
    put_number(&mut head, 15, k.left);
    put_number(&mut head, 19, k.stored as u32);
    put_number(&mut head, 23, k.value);
    head
}

// Bytes at a place.
#[tactic(auto, using(crate::proofs::Saving::Fronts::put_sets))]
fn lay(out: &mut [u8], at: usize, src: &[u8])
    requires { at + length src.now ≤ length out.old }
    ensures { out.new ≡ sets out.old at src.now }
{
    out[at..at + src.len()].copy_from_slice(src);
}

// The bytes of a control's fields to the front of the output: with the store after them, a state's bytes. 9.
pub fn lay_head(out: &mut [u8], c: Control) -> Result<usize, Refusal>
    ensures { write_effect result out.new ≡ write_of (head_bytes c) out.old }
{
    if out.len() < HEAD {
        return Err(Refusal::OutputShort);
    }
    let head = head_of(VERSION, c);
    lay(out, 0, &head);
    Ok(HEAD)
}

fn lay_state(out: &mut [u8], s: State) -> Result<usize, Refusal>
    ensures { write_effect result out.new ≡ write_of (state_bytes s) out.old }
{
    if out.len() < SIZE {
        return Err(Refusal::OutputShort);
    }
    let c = s.control;
    let head = head_of(VERSION, c);
    lay(out, 0, &head);
    lay(out, HEAD, &s.store);
    Ok(SIZE)
}

// The state's bytes to the front of the output. 8 for a state that is not sound, then 9.
pub fn save(out: &mut [u8], s: State) -> Result<usize, Refusal>
    ensures { write_effect result out.new ≡ save_of s out.old }
{
    if is_sound(s) {
        return lay_state(out, s);
    }
    Err(Refusal::StateUnsound)
}

fn pending_in(mark: u8, byte: u8) -> Option<u8>
    ensures { result ≡ pending_in mark byte }
{
    if mark == 1 {
        return Some(byte);
    }
    None
}

// The last 16 bits of n.
fn low_16(n: u32) -> u16
    ensures { result ≡ n % 0x10000 }
{
    (n % 0x10000) as u16
}

#[tactic(auto, using(crate::proofs::Saving::Heads::class_said), unfolding(crate::specs::Saved::token_in))]
fn token_in(k: TokenFields) -> Token
    ensures { result ≡ token_in k }
{
    let kind = k.kind;
    match kind {
        1 => {
            Token::Number {
                class: Class::try_from(k.class).unwrap_or(Class::NoEvent),
                left: low_16(k.left),
                value: k.value,
            }
        }
        2 => Token::String {
            want: low_16(k.want),
            left: low_16(k.left),
        },
        3 => Token::Body {
            want: k.want,
            left: k.left,
            stored: k.stored,
        },
        _ => Token::Between,
    }
}

// What is stored has 16 bits: the last two of its four bytes.
#[tactic(auto, unfolding(crate::specs::Saved::fields_in))]
fn fields_in(s: &[u8]) -> TokenFields
    requires { length s.now ≡ saved_size }
    ensures { result ≡ fields_in s.now }
{
    TokenFields {
        kind: s[9],
        class: s[10],
        want: number_at::<u32>(s, 11),
        left: number_at::<u32>(s, 15),
        stored: number_at::<u16>(s, 21),
        value: number_at::<u32>(s, 23),
    }
}

// What the fields say, whatever the bytes. head_under then lays the control's own fields and takes it only if they are these bytes, so that no
// other number, such as a flag of 2 or a byte where none is pending, needs a test of its own.
#[tactic(auto, unfolding(crate::specs::Saved::control_in))]
fn control_in(s: &[u8]) -> Control
    requires { length s.now ≡ saved_size }
    ensures { result ≡ control_in s.now }
{
    let pending = pending_in(s[3], s[4]);
    let token = token_in(fields_in(s));
    Control {
        escape: Escape {
            escaped: s[1] == 1,
            channel: s[2].cast_signed(),
            pending,
        },
        node: number_at::<i32>(s, 5),
        token,
    }
}

// The control of a state's bytes under a version, which are its fields and then the store; 8 if they are not as many, or begin with no control's
// fields. Whether the state is sound is not tested.
fn head_under(version: u8, bytes: &[u8]) -> Result<Control, Refusal>
    ensures { result ≡ head_from_under version bytes.now }
{
    if bytes.len() == SIZE {
        let c = control_in(bytes);
        let front = head_of(version, c);
        if bytes.starts_with(&front) {
            return Ok(c);
        }
    }
    Err(Refusal::StateUnsound)
}

// The same under today's version.
pub fn head(bytes: &[u8]) -> Result<Control, Refusal>
    ensures { result ≡ head_from bytes.now }
{
    head_under(VERSION, bytes)
}

fn load_sound(c: Control, bytes: &[u8]) -> Result<State, Refusal>
    requires { length bytes.now ≡ body_limit }
    ensures { result ≡ sound_only (state_of c bytes.now) }
{
    let mut store = [0u8; State::BODY_LIMIT];
    lay(&mut store, 0, bytes);
    let s = State { control: c, store };
    if is_sound(s) {
        return Ok(s);
    }
    Err(Refusal::StateUnsound)
}

// The state whose bytes these are; 8 if they are no sound state's.
pub fn load(bytes: &[u8]) -> Result<State, Refusal>
    ensures { result ≡ state_from bytes.now }
{
    let c = head(bytes)?;
    load_sound(c, &bytes[HEAD..])
}
