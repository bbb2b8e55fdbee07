// Laying bytes into a lent buffer, plain or with every df followed by de. A byte past the buffer's end is counted and
// not stored, so that laying a keep-alive into a scratch buffer of one byte tells its length.
// Each says exactly what it leaves; where a second promise stands it bounds the place after, for the next one's `requires`.
ghost use Rattle.std.specs.Prelude.{◌≡◌, ℕ, List, ◌∷◌, [], ◌+◌, ◌*◌, ◌≤◌, length, take};
ghost use Rattle.std.specs.Fn.{FnOnceReturnsAtMut};
ghost use Rattle.wing_node.specs.Signed.{unsigned};
ghost use Rattle.wing_wire.specs.Write.{escaped, field, Laid, LaysAlways, write_effect, write_of};

use crate::reader::copy_front;
use wing_node::field::BigEndian;
use wing_node::refusal::Refusal;

// One byte as it is.
pub(crate) fn lay(out: &mut [u8], at: usize, b: u8) -> usize
    requires { at ≤ 0x1000000 }
    ensures { Laid (b ∷ []) at out.old out.new result }
{
    if at < out.len() {
        out[at] = b;
    }
    at + 1
}

// The one escaping writer: bytes, each df followed by de.
pub(crate) fn lay_escaped(out: &mut [u8], at: usize, bytes: &[u8]) -> usize
    requires { at + 2 * length bytes.now ≤ 0x1000000 }
    ensures laid { Laid (escaped bytes.now) at out.old out.new result }
    ensures upper_bound { result ≤ at + 2 * length bytes.now }
{
    let mut next = at;
    for &b in bytes {
        next = lay(out, next, b);
        if b == 0xdf {
            next = lay(out, next, 0xde);
        }
    }
    next
}

// A number's bytes, escaped: at most four of them.
pub(crate) fn lay_number<T: BigEndian>(out: &mut [u8], at: usize, n: T) -> usize
    requires narrow { T.WIDTH ≤ 4 }
    requires near { at ≤ 0x10000 }
    ensures laid { Laid (field T.WIDTH (T.bits n)) at out.old out.new result }
    ensures upper_bound { result ≤ at + 2 * T.WIDTH }
{
    let mut bytes = [0u8; 4];
    let number = &mut bytes[..T::WIDTH];
    n.lay_over(number);
    lay_escaped(out, at, number)
}

// A prefix and an id, with which most commands begin.
pub(crate) fn lay_id(out: &mut [u8], prefix: u8, id: i32) -> usize
    ensures laid { Laid (prefix ∷ field 4 (unsigned 31 id)) 0 out.old out.new result }
    ensures upper_bound { result ≤ 9 }
{
    let at = lay(out, 0, prefix);
    lay_number(out, at, id)
}

// The first n bytes laid, to the front of out. 01: output too short for the whole is 9, as it was.
pub(crate) fn hand_over(out: &mut [u8], laid: &[u8], n: usize) -> Result<usize, Refusal>
    requires { n ≤ length laid.now }
    ensures { write_effect result out.new ≡ write_of (take n laid.now) out.old }
{
    let room = out.len();
    if room < n {
        return Err(Refusal::OutputShort);
    }
    copy_front(out, laid, n);
    Ok(n)
}

// A command by the function that lays it, and which lays at most N bytes: an output of that size has room for any; for a shorter one
// the command is laid into a scratch buffer and handed over if it fits. Either way it is laid once.
pub(crate) fn write_by<const N: usize, F: FnOnce(&mut [u8]) -> usize>(
    out: &mut [u8],
    lay: F,
) -> Result<usize, Refusal>
    requires callable { F.IsAlwaysCallable lay }
    requires small { N ≤ 0x1000 }
    requires bounded { (bytes : List ℕ) × LaysAlways (FnOnceReturnsAtMut F.FnOnce lay) bytes × (length bytes ≤ N) }
    ensures { (bytes : List ℕ) → LaysAlways (FnOnceReturnsAtMut F.FnOnce lay) bytes → write_effect result out.new ≡ write_of bytes out.old }
{
    if N <= out.len() {
        return Ok(lay(out));
    }
    let mut scratch = [0u8; N];
    let n = lay(&mut scratch);
    hand_over(out, &scratch, n)
}
