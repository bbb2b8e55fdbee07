// The calls on strings, values, definitions and their items, each with what is promised of it as its contract. There is nothing here but the call
// (and, in to_bytes, a field that is read for the proof alone).
ghost use Rattle.std.specs.Prelude.{not, ◌≡◌, take};
ghost use Rattle.wing_node.specs.Refusal.{refusal_number};
ghost use Rattle.wing_node.specs.Utf8.{Octets, Longest, Decides, good, utf8};
ghost use Rattle.wing_node.specs.Value.{node_value, int_in, string_in};
ghost use Rattle.wing_node.specs.Answers.{string_result};
ghost use Rattle.wing_node.specs.Writer.{lent};
ghost use Rattle.promises.specs.Refusals.{string_wrong};
ghost use Rattle.promises.specs.Lines.{◌gives◌};
ghost use Rattle.promises.specs.Node.{ParserCall, BeginCall, StepCall, ItemCall};
ghost use Rattle.promises.specs.Writer.{WriterCall, AnewCall};

use wing_node::definition::{Definition, Item};
use wing_node::items::{Step, Walk};
use wing_node::refusal::Refusal;
use wing_node::value::{StringRead, Value};
use wing_node::writer::Fields;

// How many leading bytes form whole characters (02): the largest such number by RFC 3629's grammar.
pub fn good_len(s: &[u8]) -> usize
    ensures { Longest result s.now }
{
    wing_node::utf8::good_len(s)
}

// RFC 3629's grammar, both ways.
pub fn is_utf8(s: &[u8]) -> bool
    ensures { Decides result (Octets s.now) }
{
    wing_node::utf8::is_utf8(s)
}

// A refusal's number: 1 and 5 where a good stands beside it.
pub fn number(why: Refusal) -> u8
    ensures { result ≡ refusal_number why }
{
    why.number()
}

// A string of the wire or to be set, the first n bytes of s or all where it has fewer: 1 with its good (02) if it isn't UTF-8, else no fault.
pub fn string_fault(s: &[u8], n: u16) -> Result<(), Refusal>
    ensures { result ≡ (not (utf8 (take n s.now)) gives string_wrong (good (take n s.now))) }
{
    wing_node::refusal::string_fault(s, n)
}

pub fn from_bytes(body: &[u8]) -> Result<Definition, Refusal>
    ensures { ParserCall body.now result }
{
    wing_node::definition::from_bytes(body)
}

pub fn items_begin(body: &[u8]) -> Result<Walk, Refusal>
    ensures { BeginCall body.now result }
{
    wing_node::items::items_begin(body)
}

pub fn item_step(body: &[u8], walk: Walk) -> Step
    ensures { StepCall body.now walk result }
{
    wing_node::items::item_step(body, walk)
}

pub fn item_by_number(body: &[u8], number: usize) -> Result<Option<Item>, Refusal>
    ensures { ItemCall body.now number result }
{
    wing_node::items::item_by_number(body, number)
}

// The writer: 15, 16, 5, 2, 9; what is written reads back as what was given.
pub fn to_bytes(
    d: Fields,
    name: &[u8],
    long_name: &[u8],
    items: &[u8],
    out: &mut [u8],
) -> Result<usize, Refusal>
    ensures { WriterCall d (lent name.now long_name.now items.now) out.old result out.new }
{
    // Where a field is read, the proof is told that all are within their types.
    let _steps = d.steps;
    wing_node::writer::to_bytes(d, name, long_name, items, out)
}

// A body read and written anew: the same bytes exactly when the type and unit bits of its flags are below 8 each, its unused flag bits are 0 and no bytes
// follow its last field.
pub fn write_anew(body: &[u8], out: &mut [u8]) -> Result<usize, Refusal>
    ensures { AnewCall body.now out.old result out.new }
{
    wing_node::anew::write_anew(body, out)
}

// The walker's begin and step, for callers that keep plain numbers.
pub fn begin_over(body: &[u8]) -> Result<Walk, Refusal>
    ensures { BeginCall body.now result }
{
    wing_node::walker::begin_over(body)
}

pub fn step_over(body: &[u8], w: Walk) -> Step
    ensures { StepCall body.now w result }
{
    wing_node::walker::step_over(body, w)
}

pub fn get_int(v: Value) -> i32
    ensures { result ≡ int_in v }
{
    wing_node::value::get_int(v)
}

pub fn get_string(v: Value, bytes: [u8; 256]) -> Option<StringRead>
    ensures { string_result result ≡ string_in (node_value v bytes) }
{
    wing_node::value::get_string(v, bytes)
}
