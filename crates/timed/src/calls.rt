// The libraries' calls as bench/ times them: slices and numbers alone, since no enum crosses the border to Rust.
use wing_node::refusal::Refusal;
use wing_node::writer::Fields;
use wing_node::{definition, utf8, writer};
use wing_wire::unit::Answer;
use wing_wire::{meter, reader, set, state, stream};

// A number of an answer, so that none of it can be left out as unused.
fn value(a: Answer) -> u32 {
    match a {
        Answer::More => 0,
        Answer::Integer(x) => x.cast_unsigned(),
        Answer::Float(bits) => bits,
        Answer::String(n) => n as u32,
        Answer::Body(n) => n as u32,
        Answer::End => 1,
        Answer::Refused(why) => why.number() as u32,
    }
}

fn plus(total: u64, n: u32) -> u64 {
    total % 0x1_0000_0000_0000 + n as u64
}

// The bytes that are not taken yet, and the sum of the answers so far.
#[derive(Clone, Copy)]
struct Sum<'a> {
    rest: &'a [u8],
    total: u64,
}

impl Sum<'_> {
    fn add(&mut self, a: Answer, taken: usize) {
        self.rest = self.rest.get(taken..).unwrap_or(b"");
        self.total = plus(self.total, value(a));
    }
}

// Every answer of the core, as feed takes them; the store is 4,096 bytes of 0.
#[unsafe(no_mangle)]
pub extern "C" fn port_decode(bytes: &[u8], store: &mut [u8]) -> u64 {
    let mut control = state::Control::fresh();
    let mut sum = Sum {
        rest: bytes,
        total: 0,
    };
    for _ in 0..u64::MAX {
        let r = stream::advance(control, store, sum.rest);
        let a = r.answer;
        control = r.control;
        stream::release(store, a);
        sum.add(a, r.taken);
        if stream::is_more(a) {
            break;
        }
    }
    sum.total
}

// The same by the next call, whose state, string and body go by value. At most 65,536 bytes.
#[unsafe(no_mangle)]
pub extern "C" fn port_next(bytes: &[u8]) -> u64 {
    let mut state = state::State::fresh();
    let mut sum = Sum {
        rest: bytes,
        total: 0,
    };
    for _ in 0..65538 {
        let r = reader::next(state, sum.rest);
        let a = r.answer;
        state = r.state;
        sum.add(a, r.taken);
        if stream::is_more(a) {
            break;
        }
    }
    sum.total
}

// The id of a definition, all of whose fields and items are read; 0 for one that is refused.
#[unsafe(no_mangle)]
pub extern "C" fn port_from_bytes(body: &[u8]) -> u32 {
    let parsed = definition::from_bytes(body);
    match parsed {
        Ok(d) => d.id.cast_unsigned(),
        Err(_) => 0,
    }
}

// The length of a definition's body that was written; 0 for one that is refused. Limits are 32 bits, of floats or of integers.
#[unsafe(no_mangle)]
pub extern "C" fn port_to_bytes(
    parent_id: i32,
    id: i32,
    index: u16,
    node_type: u8,
    unit: u8,
    read_only: bool,
    min: u32,
    max: u32,
    steps: i32,
    count: u16,
    max_len: u16,
    name: &[u8],
    long_name: &[u8],
    items: &[u8],
    out: &mut [u8],
) -> usize {
    let d = Fields {
        parent_id,
        id,
        index,
        node_type,
        unit,
        read_only,
        min_float: min,
        max_float: max,
        min_int: min.cast_signed(),
        max_int: max.cast_signed(),
        steps,
        count,
        max_len,
    };
    length(writer::to_bytes(d, name, long_name, items, out))
}

// The bytes written, 0 for a call that is refused.
fn length(w: Result<usize, Refusal>) -> usize {
    w.unwrap_or(0)
}

#[unsafe(no_mangle)]
pub extern "C" fn port_set_int(out: &mut [u8], id: i32, x: i32) -> usize {
    length(set::set_int(out, id, x))
}

#[unsafe(no_mangle)]
pub extern "C" fn port_set_float(out: &mut [u8], id: i32, bits: u32) -> usize {
    length(set::set_float(out, id, bits))
}

#[unsafe(no_mangle)]
pub extern "C" fn port_set_string(out: &mut [u8], id: i32, s: &[u8]) -> usize {
    length(set::set_string(out, id, s))
}

#[unsafe(no_mangle)]
pub extern "C" fn port_read_meters(packet: &[u8], out: &mut [i16]) -> usize {
    let r = meter::read_meters(packet, out);
    match r {
        Ok(r) => r.count,
        Err(_) => 0,
    }
}

// At most 65,536 bytes into a mirror with a fresh decoder; the number of records.
#[unsafe(no_mangle)]
pub extern "C" fn port_feed(table: &mut [u8], count: usize, bytes: &[u8]) -> usize {
    let s = state::State::fresh();
    let r = wing_mirror::feed::feed(s, table, count, bytes);
    r.count
}

#[unsafe(no_mangle)]
pub extern "C" fn port_mirror_set(
    table: &mut [u8],
    count: usize,
    out: &mut [u8],
    id: i32,
    x: i32,
) -> usize {
    let r = wing_mirror::set::set_int(table, count, out, id, x);
    let a = r.answer;
    length(a)
}

#[unsafe(no_mangle)]
pub extern "C" fn port_recall(table: &[u8], count: usize, out: &mut [u8]) -> usize {
    length(wing_mirror::recall::recall(table, count, out))
}

#[unsafe(no_mangle)]
pub extern "C" fn port_is_utf8(s: &[u8]) -> u32 {
    u32::from(utf8::is_utf8(s))
}

#[unsafe(no_mangle)]
pub extern "C" fn port_good(s: &[u8]) -> usize {
    utf8::good_len(s)
}
