// Decoder states as text, and the states that a caller may hand over, sound and unsound, by number.
use crate::show::{Answered, Dashed, used};
use wing_wire::state::{Control, Escape, State, Token};
use wing_wire::token::Class;

fn class_word(class: Class) -> &'static str {
    match class {
        Class::NoEvent => "skipped",
        Class::Integer => "integer",
        Class::String => "string",
        Class::Length => "length",
        Class::Int16 => "int16",
        Class::Int32 => "int32",
        Class::Float => "float",
        Class::Node => "node",
        Class::End => "end",
        Class::Count => "count",
        Class::LongCount => "longcount",
    }
}

fn token(text: &mut String, t: Token) -> Answered {
    match t {
        Token::Between => write!(text, " token=between")?,
        Token::Number { class, left, value } => {
            let class = class_word(class);
            write!(text, " token=number {class} left={left} value={value:08x}")?
        }
        Token::String { want, left } => write!(text, " token=string left={left} of {want}")?,
        Token::Body { want, left, stored } => {
            write!(text, " token=body left={left} of {want} stored={stored}")?
        }
    }
    Ok(())
}

fn pending(text: &mut String, p: Option<u8>) -> Answered {
    match p {
        None => write!(text, " pending=none")?,
        Some(b) => write!(text, " pending={b:02x}")?,
    }
    Ok(())
}

// What LAST of a stream leaves out.
pub fn state(text: &mut String, s: &State) -> Answered {
    let c = s.control;
    let e = c.escape;
    let p = e.pending;
    let t = c.token;
    pending(text, p)?;
    token(text, t)?;
    let store = Dashed(s.store.get(..used(&s.store)));
    write!(text, " store={store}")?;
    Ok(())
}

fn with(escape: Escape, token: Token) -> State {
    let control = Control {
        escape,
        node: 0,
        token,
    };
    State {
        control,
        store: [0; State::BODY_LIMIT],
    }
}

fn escaped(escaped: bool, channel: i8, pending: Option<u8>) -> State {
    let escape = Escape {
        escaped,
        channel,
        pending,
    };
    with(escape, Token::Between)
}

fn inside(token: Token) -> State {
    let escape = Escape {
        escaped: false,
        channel: -1,
        pending: None,
    };
    with(escape, token)
}

fn number(class: Class, left: u16, value: u32) -> State {
    inside(Token::Number { class, left, value })
}

fn string(want: u16, left: u16) -> State {
    inside(Token::String { want, left })
}

fn body(want: u32, left: u32, stored: u16) -> State {
    inside(Token::Body { want, left, stored })
}

// One byte of the store.
fn storing(mut s: State, at: usize, byte: u8) -> State {
    if let Some(place) = s.store.get_mut(at) {
        *place = byte;
    }
    s
}

// Those in the escapes, then those in a number, in a string and in a body.
pub fn by_number(n: usize) -> State {
    match n {
        1..=7 => in_escapes(n),
        8 => number(Class::Int16, 0, 0),
        9 => number(Class::Int16, 3, 0),
        10 => number(Class::Int16, 2, 0),
        11 => number(Class::Int16, 1, 0xff),
        12 => number(Class::Int16, 1, 0x100),
        13 => number(Class::End, 1, 0),
        14 => string(1, 2),
        15 => string(257, 257),
        16 => string(256, 256),
        17 => string(1, 0),
        18 => storing(string(3, 1), 1, 0x41),
        19 => storing(string(3, 1), 2, 0x41),
        20 => body(4, 2, 3),
        21 => body(4097, 4096, 1),
        22 => storing(body(4, 2, 2), 1, 0x41),
        23 => body(4097, 4096, 0),
        24 => storing(body(4, 2, 1), 1, 0x41),
        25 => body(4, 0, 0),
        26 => storing(State::fresh(), 0, 1),
        27 => storing(State::fresh(), 4095, 1),
        28 => number(Class::LongCount, 4, 0),
        29 => number(Class::LongCount, 1, 0),
        30 => number(Class::LongCount, 5, 0),
        31 => body(65536, 1, 0),
        32 => body(65536, 65537, 0),
        33 => body(0xffff_ffff, 0xffff_ffff, 0),
        34 => body(0xffff_ffff, 2, 1),
        _ => State::fresh(),
    }
}

fn in_escapes(n: usize) -> State {
    match n {
        1 => escaped(false, 14, None),
        2 => escaped(false, -2, None),
        3 => escaped(true, 0, Some(5)),
        4 => escaped(false, -1, Some(5)),
        5 => escaped(false, 13, None),
        6 => escaped(false, 0, Some(5)),
        _ => escaped(true, -1, None),
    }
}
