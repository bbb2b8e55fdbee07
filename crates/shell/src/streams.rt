// A stream from a state: every event and refusal with the place that the reading has reached, then the state.
use crate::show::{Answered, Pairs, Unanswered, expect, same_again, tell_short};
use crate::words::Words;
use crate::{definitions, states};
use std::alloc::Global;
use wing_saved::earlier::load_earlier;
use wing_wire::lent::LentReply;
use wing_wire::unit::Answer;
use wing_wire::{escape, lent, reader, state};

#[derive(Drop)]
pub enum Order {
    // At most the bytes of one call.
    Stream(Vec<u8>),
    Pieces { size: usize, bytes: Vec<u8> },
    PieceList { sizes: Vec<usize>, bytes: Vec<u8> },
    Units(Vec<u8>),
    State { number: usize, bytes: Vec<u8> },
    Splits(Vec<u8>),
    Lent(Vec<u8>),
    Earlier { saved: Vec<u8>, bytes: Vec<u8> },
}

// The fields and the front of the store of a state of version 1.
fn earlier(alloc: Global, words: &mut Words) -> Result<Order, Unanswered> {
    let mut saved = words.bytes(alloc)?;
    let store = words.bytes(alloc)?;
    saved.extend_from_slice(&store)?;
    let bytes = words.bytes(alloc)?;
    Ok(Order::Earlier { saved, bytes })
}

pub fn parse(alloc: Global, name: &str, words: &mut Words) -> Result<Option<Order>, Unanswered> {
    let order = match name {
        "stream" => Order::Stream(words.bytes_or_held(alloc)?),
        "pieces" => Order::Pieces {
            size: words.number::<u16>()? as usize,
            bytes: words.bytes_or_held(alloc)?,
        },
        "piecelist" => Order::PieceList {
            sizes: words.sizes(alloc)?,
            bytes: words.bytes_or_held(alloc)?,
        },
        "units" => Order::Units(words.bytes(alloc)?),
        "state" => Order::State {
            number: words.up_to(34)?,
            bytes: words.repeated(alloc)?,
        },
        "splits" => Order::Splits(words.bytes(alloc)?),
        "lent" => Order::Lent(words.bytes(alloc)?),
        "earlier" => earlier(alloc, words)?,
        _ => return Ok(None),
    };
    Ok(Some(order))
}

// How a stream is cut.
#[derive(Clone, Copy)]
enum Cut<'a> {
    // At two places, and after these into pieces of a size.
    Places {
        first: usize,
        second: usize,
        size: usize,
    },
    // Each call gets a piece, by a list of sizes over and over.
    Sizes(&'a [usize]),
    // Each call gets a piece of a random size, through the lent next.
    Lent,
}

// How far a stream is read: the state, the bytes taken, the end of the piece, and how many calls were made.
#[derive(Drop)]
struct Progress {
    state: state::State,
    at: usize,
    end: usize,
    calls: u32,
}

// A stream of n bytes, at most 80,000, gives at most n + 1 answers and one 'more' for each piece.
const TURNS: u32 = 200000;

fn pieces<'a>(size: usize) -> Cut<'a> {
    Cut::Places {
        first: 0,
        second: 0,
        size,
    }
}

fn size_of(sizes: &[usize], call: u32) -> usize {
    if sizes.is_empty() {
        return 0;
    }
    sizes[call as usize % sizes.len()]
}

// The end of the piece for the call of a number, which begins at a place.
fn piece_end(cut: Cut, at: usize, len: usize, call: u32) -> usize {
    let size = match cut {
        Cut::Places { first, .. } if at < first => return first,
        Cut::Places { second, .. } if at < second => return second,
        Cut::Places { size, .. } => size,
        Cut::Sizes(sizes) => size_of(sizes, call),
        Cut::Lent => ((call % 0x10000 * 25173 + 13849) % 0x10000 / 256 % 9) as usize,
    };
    at.saturating_add(size).min(len)
}

// The body, then what the parser says of it, as libwing's reader gives both at once.
fn body(text: &mut String, bytes: &[u8], n: usize) -> Answered {
    let pairs = Pairs(bytes.get(..n));
    write!(text, "b{pairs}:")?;
    definitions::definition(text, bytes.get(..n).unwrap_or(b""))
}

// 01: the bytes beside an answer are zero-filled, and with any other answer all 0.
fn is_zero_filled(r: &LentReply) -> bool {
    let a = r.answer;
    let (string, body) = match a {
        Answer::String(n) => (n as usize, 0),
        Answer::Body(n) => (0, n as usize),
        _ => (0, 0),
    };
    state::zeros_from(&r.string, string) && state::zeros_from(&r.body, body)
}

// The text of an answer with the node, its value or bytes, or the refusal, and the place reached; more has none.
fn event_of(text: &mut String, r: &LentReply, node: i32, place: usize) -> Answered {
    expect(text, is_zero_filled(r))?;
    let a = r.answer;
    match a {
        Answer::More => return Ok(()),
        Answer::Integer(x) => write!(text, "i{node:08x}{x:08x}")?,
        Answer::Float(bits) => write!(text, "f{node:08x}{bits:08x}")?,
        Answer::String(n) => {
            let pairs = Pairs(r.string.get(..n as usize));
            write!(text, "s{node:08x}{pairs}")?
        }
        Answer::Body(n) => body(text, &r.body, n as usize)?,
        Answer::End => write!(text, "e")?,
        Answer::Refused(why) => tell_short(text, why)?,
    }
    write!(text, "@{place:08x}")?;
    Ok(())
}

// The lent next is called through next_over. The reply of next by value is parted from the state as the lent form has it.
fn next(cut: Cut, s: state::State, bytes: &[u8]) -> lent::Parted {
    if let Cut::Lent = cut {
        return lent::next_over(s, bytes);
    }
    let r = reader::next(s, bytes);
    let answer = r.answer;
    let string = r.string;
    let body = r.body;
    let state = r.state;
    let taken = r.taken;
    let reply = LentReply {
        answer,
        taken,
        string,
        body,
    };
    lent::Parted { state, reply }
}

// A refusal of the state or of the bytes' number takes nothing: the next call would answer the same.
fn is_last(a: Answer, at_end: bool) -> bool {
    match a {
        Answer::More => at_end,
        Answer::Refused(why) => why.number() >= 8,
        _ => false,
    }
}

fn is_more(a: Answer) -> bool {
    matches!(a, Answer::More)
}

impl Progress {
    // One call on what is left of the piece, and whether it is the last. After more, and by a list after every call, the next
    // piece begins.
    fn turn(&mut self, text: &mut String, cut: Cut, bytes: &[u8]) -> Result<bool, Unanswered> {
        self.calls = self.calls.saturating_add(1);
        let n = next(cut, self.state, bytes.get(self.at..self.end).unwrap_or(b""));
        let r = n.reply;
        let a = r.answer;
        self.state = n.state;
        self.at = self.at.saturating_add(r.taken).min(bytes.len());
        event_of(text, &r, self.state.control.node, self.at)?;
        if is_more(a) || matches!(cut, Cut::Sizes(_)) {
            self.end = piece_end(cut, self.at, bytes.len(), self.calls);
        }
        Ok(is_last(a, self.at == bytes.len()))
    }
}

// The whole stream from a state, and the text of its events; the answer is the state after it.
fn read_all(
    text: &mut String,
    bytes: &[u8],
    cut: Cut,
    state: state::State,
) -> Result<state::State, Unanswered> {
    let mut p = Progress {
        state,
        at: 0,
        end: piece_end(cut, 0, bytes.len(), 0),
        calls: 0,
    };
    for _ in 0..TURNS {
        if p.turn(text, cut, bytes)? {
            break;
        }
    }
    Ok(p.state)
}

// Escaped, channel and node after the last byte, and whether a token waits.
fn last(text: &mut String, c: &state::Control) -> Answered {
    let escaped = c.escape.escaped as u8;
    let channel = c.escape.channel as i32;
    let node = c.node;
    let t = c.token;
    let waits = !matches!(t, state::Token::Between) as u8;
    write!(text, ".{escaped}{channel:08x}{node:08x}{waits}")?;
    Ok(())
}

// A stream from a state in any cut; the answer is the state after it.
fn cut_from(
    text: &mut String,
    bytes: &[u8],
    cut: Cut,
    state: state::State,
) -> Result<state::State, Unanswered> {
    let after = read_all(text, bytes, cut, state)?;
    last(text, &after.control)?;
    Ok(after)
}

// From a fresh state.
fn cut_stream(text: &mut String, bytes: &[u8], cut: Cut) -> Answered {
    cut_from(text, bytes, cut, state::State::fresh())?;
    Ok(())
}

// In one call.
pub fn stream(text: &mut String, bytes: &[u8]) -> Answered {
    cut_stream(text, bytes, pieces(bytes.len()))
}

// A stream and the state after it, with all that LAST leaves out.
fn inside(text: &mut String, bytes: &[u8], cut: Cut, state: state::State) -> Answered {
    let after = cut_from(text, bytes, cut, state)?;
    states::state(text, &after)
}

fn from_state(text: &mut String, number: usize, bytes: &[u8]) -> Answered {
    let s = states::by_number(number);
    let sound = state::is_sound(s) as u8;
    write!(text, "sound={sound} ")?;
    inside(text, bytes, pieces(bytes.len()), s)
}

// The bytes of a state of version 1, filled up with 0 to those of a state, which is carried over; then a stream from it.
fn from_earlier(text: &mut String, mut saved: Vec<u8>, bytes: &[u8]) -> Answered {
    if saved.len() < wing_saved::SIZE {
        saved.resize(wing_saved::SIZE, 0)?;
    }
    let loaded = load_earlier(&saved);
    match loaded {
        Ok(state) => {
            write!(text, "carried ")?;
            inside(text, bytes, pieces(bytes.len()), state)
        }
        Err(why) => tell_short(text, why),
    }
}

// Through the lent next; the same by value is held against it.
fn lent(alloc: Global, text: &mut String, bytes: &[u8]) -> Answered {
    let mut again = String::new(alloc);
    inside(text, bytes, Cut::Lent, state::State::fresh())?;
    inside(
        &mut again,
        bytes,
        pieces(bytes.len()),
        state::State::fresh(),
    )?;
    same_again(text, again.as_str())
}

// The longest stream that is cut into three pieces, and the first that is too long to be cut.
const SHORT: usize = 24;

const LONG: usize = 4201;

fn cuts_of(len: usize) -> usize {
    if len <= SHORT {
        626
    } else {
        len.saturating_add(1)
    }
}

// The cuts of a stream by number: two pieces; for a short one two or three, with every place from 0 to 24, which is
// its end where that is less, and last byte by byte.
fn cut_of<'a>(k: usize, len: usize) -> Cut<'a> {
    if SHORT < len {
        return Cut::Places {
            first: k,
            second: 0,
            size: len,
        };
    }
    if k == 625 {
        return pieces(1);
    }
    Cut::Places {
        first: len.min(k % 25),
        second: len.min(k / 25),
        size: len,
    }
}

// The cuts that say what the whole stream says, up to the first that does not.
fn splits(alloc: Global, text: &mut String, bytes: &[u8]) -> Answered {
    let len = bytes.len();
    if LONG <= len {
        return Err(Unanswered::Form);
    }
    let mut whole = String::new(alloc);
    let mut again = String::new(alloc);
    inside(&mut whole, bytes, pieces(len), state::State::fresh())?;
    for k in 0..cuts_of(len) {
        again.clear();
        inside(&mut again, bytes, cut_of(k, len), state::State::fresh())?;
        if again.as_str() != whole.as_str() {
            write!(text, "differs at {k}")?;
            return Ok(());
        }
    }
    let count = cuts_of(len);
    write!(text, "{count} same")?;
    Ok(())
}

fn unit(text: &mut String, u: escape::Unit) -> Answered {
    match u {
        escape::Unit::Nothing => Ok(()),
        escape::Unit::Bare(b) => Ok(write!(text, " {b:02x}")?),
        escape::Unit::Appended(b) => Ok(write!(text, " {b:02x}+")?),
    }
}

// From fresh escapes: each unit as hex, with + if it is appended, then the channel and escaped. At each place the byte there,
// and then the byte that it made pending: at the end of the bytes a step takes no other.
fn units(text: &mut String, bytes: &[u8]) -> Answered {
    let fresh = state::Control::fresh();
    let mut e = fresh.escape;
    text.push_str("units")?;
    for at in 0..bytes.len() {
        for place in [at, bytes.len()] {
            let d = escape::decode_next(e, bytes, place);
            unit(text, d.unit)?;
            e = d.escape;
        }
    }
    let channel = e.channel;
    let escaped = e.escaped as u8;
    write!(text, "; channel={channel} escaped={escaped}")?;
    Ok(())
}

pub fn obey(alloc: Global, order: Order, text: &mut String) -> Answered {
    match order {
        Order::Stream(bytes) => {
            if 65536 < bytes.len() {
                return Err(Unanswered::Form);
            }
            stream(text, &bytes)
        }
        Order::Pieces { size, bytes } => cut_stream(text, &bytes, pieces(size)),
        Order::PieceList { sizes, bytes } => cut_stream(text, &bytes, Cut::Sizes(&sizes)),
        Order::Units(bytes) => units(text, &bytes),
        Order::State { number, bytes } => from_state(text, number, &bytes),
        Order::Splits(bytes) => splits(alloc, text, &bytes),
        Order::Lent(bytes) => lent(alloc, text, &bytes),
        Order::Earlier { saved, bytes } => from_earlier(text, saved, &bytes),
    }
}
