// Set orders (libwing's set_int, set_float, set_string) and format_id.
// 01: output too short for the whole is refused, as it was. An output of the largest size has room for any command of its
// kind (proofs/Writing/Sizes.antt); for a shorter one the command is laid into a scratch buffer of that size and handed over if it
// fits. Either way it is laid once.
ghost use Rattle.std.specs.Prelude.{◌≡◌, ◌+◌, ◌≤◌, length};
ghost use Rattle.wing_node.specs.Value.{integer, float, string};
ghost use Rattle.wing_wire.specs.Write.{Laid, write_effect, write_of};
ghost use Rattle.wing_wire.specs.Command.{from◌to◌, integer_bytes, length_bytes, id_bytes, suffix_bytes, set_bytes, set_string};

use crate::laying::{lay, lay_escaped, lay_id, lay_number, write_by};
use wing_node::refusal::{Refusal, string_fault};

fn lay_format(out: &mut [u8], id: i32, prefix: u8, suffix: Option<u8>) -> usize
    ensures { Laid (id_bytes prefix id (suffix_bytes suffix)) 0 out.old out.new result }
{
    let at = lay_id(out, prefix, id);
    match suffix {
        None => at,
        Some(b) => lay(out, at, b),
    }
}

// A prefix, an id and a suffix, if there is one; only the id is escaped.
pub fn format_id(out: &mut [u8], id: i32, prefix: u8, suffix: Option<u8>) -> Result<usize, Refusal>
    ensures { write_effect result out.new ≡ write_of (id_bytes prefix id (suffix_bytes suffix)) out.old }
{
    write_by::<10, _>(out, |buffer| lay_format(buffer, id, prefix, suffix))
}

// Whether x is from low to high.
fn is_from(low: i32, high: i32, x: i32) -> bool
    ensures { result ≡ from◌to◌ low high x }
{
    low <= x && x <= high
}

// 01: integers 0 to 63 are one byte; −32768 to 32767 are d3 and two bytes; others d4 and four.
fn lay_integer(out: &mut [u8], at: usize, value: i32) -> usize
    requires { at ≤ 0x1000 }
    ensures { Laid (integer_bytes value) at out.old out.new result }
{
    if is_from(0, 63, value) {
        return lay(out, at, value as u8);
    }
    if is_from(-32768, 32767, value) {
        let next = lay(out, at, 0xd3);
        return lay_number(out, next, (value as i16).cast_unsigned());
    }
    let next = lay(out, at, 0xd4);
    lay_number(out, next, value)
}

fn lay_set_int(out: &mut [u8], id: i32, value: i32) -> usize
    ensures { Laid (set_bytes id (integer value)) 0 out.old out.new result }
{
    let at = lay_id(out, 0xd7, id);
    lay_integer(out, at, value)
}

// 01: set: d7, id, value: an integer. 9.
pub fn set_int(out: &mut [u8], id: i32, value: i32) -> Result<usize, Refusal>
    ensures { write_effect result out.new ≡ write_of (set_bytes id (integer value)) out.old }
{
    write_by::<18, _>(out, |buffer| lay_set_int(buffer, id, value))
}

fn lay_set_float(out: &mut [u8], id: i32, bits: u32) -> usize
    ensures { Laid (set_bytes id (float bits)) 0 out.old out.new result }
{
    let at = lay_id(out, 0xd7, id);
    let next = lay(out, at, 0xd5);
    lay_number(out, next, bits)
}

// The same for a float, by its 32 bits.
pub fn set_float(out: &mut [u8], id: i32, bits: u32) -> Result<usize, Refusal>
    ensures { write_effect result out.new ≡ write_of (set_bytes id (float bits)) out.old }
{
    write_by::<18, _>(out, |buffer| lay_set_float(buffer, id, bits))
}

// What stands before a string's bytes. 01: d0; 80 + length − 1 up to 64; d1 and length − 1 up to 256.
#[tactic(auto, unfolding(crate::specs::Command::length_bytes))]
fn lay_length(out: &mut [u8], at: usize, len: usize) -> usize
    requires { (at ≤ 0x1000) × (len ≤ 256) }
    ensures laid { Laid (length_bytes len) at out.old out.new result }
    ensures upper_bound { result ≤ at + 3 }
{
    if len == 0 {
        return lay(out, at, 0xd0);
    }
    if len <= 64 {
        return lay(out, at, (0x80 + (len - 1)) as u8);
    }
    let next = lay(out, at, 0xd1);
    lay_escaped(out, next, &[(len - 1) as u8])
}

fn lay_set_string(out: &mut [u8], id: i32, value: &[u8]) -> usize
    requires { length value.now ≤ 256 }
    ensures { Laid (set_bytes id (string value.now)) 0 out.old out.new result }
{
    let at = lay_id(out, 0xd7, id);
    let next = lay_length(out, at, value.len());
    lay_escaped(out, next, value)
}

// 01: a string over 256 bytes is 10, then one that is not UTF-8 is 1 (02: with its good), then 9.
pub fn set_string(out: &mut [u8], id: i32, value: &[u8]) -> Result<usize, Refusal>
    ensures { write_effect result out.new ≡ set_string id value.now out.old }
{
    if 256 < value.len() {
        return Err(Refusal::StringLong);
    }
    string_fault(value, 256)?;
    write_by::<395, _>(out, |buffer| lay_set_string(buffer, id, value))
}
