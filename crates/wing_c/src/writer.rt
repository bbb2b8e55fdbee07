// Definitions written (02): from their fields, and anew from a body that was read.
ghost use Rattle.std.specs.Prelude.{◌≡◌};
ghost use Rattle.wing_node.specs.Writer.{lent, body_of_fields};
ghost use Rattle.wing_node.specs.Anew.{anew_of};
ghost use Rattle.wing_c.specs.Written.{command, body_from};
ghost use Rattle.wing_c.specs.Definitions.{fields_given};

use crate::answers;
use crate::answers::WingWritten;
use wing_node::writer::Fields;
use wing_node::{anew, writer};

// A definition to be written. What its type has not is ignored, but for the count (and the items), which are 16. Limits are 32 bits, of floats or of integers, as in
// WingDefinition.
#[repr(C)]
#[derive(Clone, Copy)]
pub struct WingFields {
    pub parent_id: i32,
    pub id: i32,
    pub index: u16,
    pub node_type: u8,
    pub unit: u8,
    pub read_only: bool,
    pub count: u16,
    pub max_len: u16,
    pub min: u32,
    pub max: u32,
    pub steps: i32,
}

// The writer takes of the two forms of a limit the one of its type.
fn fields_given(f: WingFields) -> Fields
    ensures { result ≡ fields_given f }
{
    Fields {
        parent_id: f.parent_id,
        id: f.id,
        index: f.index,
        node_type: f.node_type,
        unit: f.unit,
        read_only: f.read_only,
        min_float: f.min,
        max_float: f.max,
        min_int: f.min.cast_signed(),
        max_int: f.max.cast_signed(),
        steps: f.steps,
        count: f.count,
        max_len: f.max_len,
    }
}

// 02: a body from its fields, two names and the items in their byte form. 15, 16, 5, 2, 9.
#[unsafe(no_mangle)]
pub extern "C" fn wing_write_definition(
    fields: WingFields,
    name: &[u8],
    long_name: &[u8],
    items: &[u8],
    out: &mut [u8],
) -> WingWritten
    ensures { command result out.new ≡ body_from (body_of_fields (fields_given fields) (lent name.now long_name.now items.now) out.old) }
{
    answers::written(writer::to_bytes(fields_given(fields), name, long_name, items, out))
}

// 02: a body read and written anew. The parser's 4 or 5, then as above.
#[unsafe(no_mangle)]
pub extern "C" fn wing_write_anew(body: &[u8], out: &mut [u8]) -> WingWritten
    ensures { command result out.new ≡ body_from (anew_of body.now out.old) }
{
    answers::written(anew::write_anew(body, out))
}
