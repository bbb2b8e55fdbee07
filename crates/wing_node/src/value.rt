// Node values and their getters (libwing's WingNodeData).
ghost use Rattle.std.specs.Prelude.{◌≡◌, ◌+◌, ◌≤◌, length, take, Some};
ghost use Rattle.wing_node.specs.Bytes.{placed};
ghost use Rattle.wing_node.specs.Field.{put_at};
ghost use Rattle.wing_node.specs.Decimal.{digits, last_digits};
ghost use Rattle.wing_node.specs.Decimal.{decimal as decimal_of};
ghost use Rattle.wing_node.specs.Value.{node_value, int_in, string_in, answer_of, some};

use crate::field::left;

// A node's value. A string's bytes stand beside it, in an array of 256; the number is its length.
#[derive(Clone, Copy)]
pub enum Value {
    Integer(i32),
    Float(u32),
    String(u16),
}

// A string that was read: its length, and its bytes, with zeros after them.
#[derive(Clone, Copy)]
pub struct StringRead {
    pub len: u16,
    pub bytes: [u8; 256],
}

// 01: the integer getter gives 0 for other kinds.
pub fn get_int(v: Value) -> i32
    ensures { result ≡ int_in v }
{
    match v {
        Value::Integer(x) => x,
        Value::Float(_) => 0,
        Value::String(_) => 0,
    }
}

// 01: the string getter gives the string, an integer's decimal, and none for a float.
pub fn get_string(v: Value, bytes: [u8; 256]) -> Option<StringRead>
    ensures { result ≡ answer_of (string_in (node_value v bytes)) }
{
    match v {
        Value::Integer(x) => Some(decimal(x)),
        Value::Float(_) => None,
        Value::String(n) => Some(first(n, bytes)),
    }
}

// The first n of the bytes, or all where n is over 256; what stood past them is not given.
fn first(n: u16, bytes: [u8; 256]) -> StringRead
    ensures { Some result ≡ answer_of (some (take n bytes)) }
{
    let len = n.min(256);
    let mut kept = bytes;
    kept[len as usize..].fill(0);
    StringRead { len, bytes: kept }
}

// The decimal of x, at most eleven bytes: a minus sign and ten digits.
fn decimal(x: i32) -> StringRead
    ensures { Some result ≡ answer_of (some (decimal_of x)) }
{
    let mut bytes = [0u8; 256];
    let k = put_decimal(&mut bytes, 0, x);
    StringRead {
        len: k as u16,
        bytes,
    }
}

// How many bytes the decimal of x has: they stand in out from a place on, and out is as it was where fewer are left there.
// By hand and not by Display: it goes into a lent buffer, since the libraries have fixed memory and no heap.
pub fn put_decimal(out: &mut [u8], at: usize, x: i32) -> usize
    ensures { (result ≡ length (decimal_of x)) × (out.new ≡ (put_at (decimal_of x) at out.old).bytes) }
{
    let n = x.unsigned_abs();
    let k = places(n);
    let room = left(out, at);
    if x < 0 {
        if k < room {
            out[at] = 0x2d;
            put_digits(n, at + 1, k, out);
            return k + 1;
        }
        return k + 1;
    }
    if k <= room {
        put_digits(n, at, k, out);
    }
    k
}

// How many digits n has.
fn places(n: u32) -> usize
    ensures { result ≡ length (digits n) }
{
    match n.checked_ilog10() {
        Some(k) => k as usize + 1,
        None => 1,
    }
}

// Puts the last k digits of n into out, the first of them at `from`.
fn put_digits(n: u32, from: usize, k: usize, out: &mut [u8])
    requires { from + k ≤ length out.old }
    ensures { out.new ≡ placed out.old from (last_digits k n) }
{
    let mut rest = n;
    for i in (0..k).rev() {
        out[from + i] = 0x30 + (rest % 10) as u8;
        rest /= 10;
    }
}
