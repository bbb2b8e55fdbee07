// A body read and written anew (02): the parser's answer as the writer's fields, and what of the body is lent to the writer.
ghost use Rattle.std.specs.Prelude.{◌≡◌, ◌-◌, ◌≤◌, length, take, drop};
ghost use Rattle.wing_node.specs.Writer.{body_effect, body_of_fields};
ghost use Rattle.wing_node.specs.Anew.{fields_with, fields_of, items_read, item_bytes, lent_from, anew_of};

use crate::definition::{Definition, Details, from_bytes, past_items};
use crate::node_type::NodeType;
use crate::refusal::Refusal;
use crate::writer::{Fields, to_bytes};

// A part of a body, from a place to another.
#[derive(Clone, Copy)]
struct Part {
    start: usize,
    end: usize,
}

// So many bytes from a place on, as far as the body reaches.
fn part_of(body: &[u8], from: usize, len: usize) -> Part
    ensures { (result.start ≤ result.end) × (result.end ≤ length body.now) × (take (result.end - result.start) (drop result.start body.now) ≡ take len (drop from body.now)) }
{
    let start = from.min(body.len());
    Part {
        start,
        end: start + len.min(body.len() - start),
    }
}

fn distance(from: usize, to: usize) -> usize
    ensures { result ≡ to - from }
{
    if from < to { to - from } else { 0 }
}

// The bytes of the items, which the parser has read.
fn items_part(body: &[u8], kind: NodeType, details: Details) -> Part
    requires { items_read body.now kind details }
    ensures { (result.start ≤ result.end) × (result.end ≤ length body.now) × (take (result.end - result.start) (drop result.start body.now) ≡ item_bytes body.now kind details) }
{
    match details {
        Details::Items { count, first } => {
            let end = past_items(body, kind, count, first).unwrap_or(first);
            part_of(body, first, distance(first, end))
        }
        _ => part_of(body, 0, 0),
    }
}

fn fields_with(
    d: Definition,
    min_float: u32,
    max_float: u32,
    min_int: i32,
    max_int: i32,
    steps: i32,
    count: u16,
    max_len: u16,
) -> Fields
    ensures { result ≡ fields_with d min_float max_float min_int max_int steps count max_len }
{
    let node_type = d.node_type;
    let unit = d.unit;
    Fields {
        parent_id: d.parent_id,
        id: d.id,
        index: d.index,
        node_type: u8::from(node_type),
        unit: u8::from(unit),
        read_only: d.read_only,
        min_float,
        max_float,
        min_int,
        max_int,
        steps,
        count,
        max_len,
    }
}

// The writer's fields of a definition that was read; those that its type lacks are 0.
pub fn fields_of(d: Definition) -> Fields
    ensures { result ≡ fields_of d }
{
    let details = d.details;
    match details {
        Details::None => fields_with(d, 0, 0, 0, 0, 0, 0, 0),
        Details::Floats { min, max, steps } => fields_with(d, min, max, 0, 0, steps, 0, 0),
        Details::Integers { min, max } => fields_with(d, 0, 0, min, max, 0, 0, 0),
        Details::Items { count, first: _ } => fields_with(d, 0, 0, 0, 0, 0, count, 0),
        Details::String { max_len } => fields_with(d, 0, 0, 0, 0, 0, 0, max_len),
    }
}

// A definition that was read of a body, written.
fn write_read(body: &[u8], d: Definition, out: &mut [u8]) -> Result<usize, Refusal>
    requires { items_read body.now d.node_type d.details }
    ensures { body_effect result out.new ≡ body_of_fields (fields_of d) (lent_from body.now d) out.old }
{
    let name = part_of(body, d.name.start, d.name.len as usize);
    let long_name = part_of(body, d.long_name.start, d.long_name.len as usize);
    let kind = d.node_type;
    let details = d.details;
    let items = items_part(body, kind, details);
    let name_start = name.start;
    let name_end = name.end;
    let long_start = long_name.start;
    let long_end = long_name.end;
    let first = items.start;
    let end = items.end;
    to_bytes(
        fields_of(d),
        &body[name_start..name_end],
        &body[long_start..long_end],
        &body[first..end],
        out,
    )
}

// A body, read and written to the front of out: the parser's 4 or 5, or what the writer answers. Bytes after the last field are not
// written.
pub fn write_anew(body: &[u8], out: &mut [u8]) -> Result<usize, Refusal>
    ensures { body_effect result out.new ≡ anew_of body.now out.old }
{
    let d = from_bytes(body)?;
    write_read(body, d, out)
}
