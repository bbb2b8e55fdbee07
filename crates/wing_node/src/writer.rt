// Definitions written (02): fields, two names and the items in their byte form go in, a body comes out. All is checked before a
// byte is written.
ghost use Rattle.std.specs.Prelude.{◌≡◌, [], ◌++◌, map, ◌+◌, ◌≤◌, eqb, length, drop};
ghost use Rattle.std.proofs.lemmas.List.Edits.{sets};
ghost use Rattle.wing_node.specs.Bool.{if};
ghost use Rattle.wing_node.specs.Bytes.{placed};
ghost use Rattle.wing_node.specs.Signed.{unsigned};
ghost use Rattle.wing_node.specs.Field.{bytes_of};
ghost use Rattle.wing_node.specs.Types.{type_of};
ghost use Rattle.wing_node.specs.Refusal.{first_fault, text_fault, because};
ghost use Rattle.wing_node.specs.Cursor.{string, size, held_fault};
ghost use Rattle.wing_node.specs.Laid.{laid};
ghost use Rattle.wing_node.specs.Standing.{extent};
ghost use Rattle.wing_node.specs.Definition.{form, header, added, item_of, items_of};
ghost use Rattle.wing_node.specs.Written.{laid_by};
ghost use Rattle.wing_node.specs.Writer.{lent, type_given, flags_of, holds, body_given, unfit, texts_fault, lent_fault, body_effect, body_of_fields};
ghost use Rattle.wing_node.specs.declared.refusal.Refusal.TheVariants.{FieldsUnfit};

use crate::field::{left, put_number};
use crate::node_type::{NodeType, has_items};
use crate::refusal::Refusal;
use crate::utf8::good_len;

// The fields that a definition of any type has, flat. Those that its type lacks are ignored, but for the count (and the
// items), which are 16. Floats are their 32 bits.
#[derive(Clone, Copy)]
pub struct Fields {
    pub parent_id: i32,
    pub id: i32,
    pub index: u16,
    pub node_type: u8,
    pub unit: u8,
    pub read_only: bool,
    pub min_float: u32,
    pub max_float: u32,
    pub min_int: i32,
    pub max_int: i32,
    pub steps: i32,
    pub count: u16,
    pub max_len: u16,
}

// What was passed: the place after it, and the first of its strings that is not UTF-8.
#[derive(Clone, Copy)]
struct Checked {
    at: usize,
    fault: Result<(), Refusal>,
}

// A definition's string: 5 with its good, unless all of it is.
fn text_fault(s: &[u8]) -> Result<(), Refusal>
    requires { length s.now ≤ 255 }
    ensures { result ≡ text_fault s.now }
{
    let good = good_len(s);
    if good == s.len() {
        return Ok(());
    }
    Err(Refusal::DefinitionNotUtf8 { good: good as u16 })
}

// A string at a place. Its bytes are looked at as far as they are there.
fn check_string(items: &[u8], at: usize) -> Checked
    requires { at ≤ length items.now + 256 }
    ensures { (result.at ≡ at + size string (drop at items.now)) × (result.fault ≡ held_fault string (drop at items.now)) }
{
    let there = left(items, at);
    if there < 1 {
        return Checked {
            at: at + 1,
            fault: Ok(()),
        };
    }
    let len = items[at] as usize;
    let first = at + 1;
    let end = first + len.min(there - 1);
    Checked {
        at: first + len,
        fault: text_fault(&items[first..end]),
    }
}

// An item at a place.
fn check_item(items: &[u8], kind: NodeType, at: usize) -> Checked
    requires { at ≤ length items.now }
    ensures { (result.at ≡ at + extent (item_of kind) (drop at items.now)) × (result.fault ≡ texts_fault (item_of kind) (drop at items.now)) }
{
    match kind {
        NodeType::StringEnum => {
            let item = check_string(items, at);
            let long_item = check_string(items, item.at);
            let fault = item.fault;
            let long_fault = long_item.fault;
            Checked {
                at: long_item.at,
                fault: fault.and(long_fault),
            }
        }
        NodeType::FloatEnum => check_string(items, at + 4),
        _ => Checked { at, fault: Ok(()) },
    }
}

// Why items are refused, after what was at fault before them: 16 where their lengths are not exactly so many, else the first 5. One pass.
fn items_fault(
    items: &[u8],
    kind: NodeType,
    count: u16,
    before: Result<(), Refusal>,
) -> Result<(), Refusal>
    ensures { result ≡ if (eqb (extent (items_of kind count) items.now) (length items.now)) (first_fault before (texts_fault (items_of kind count) items.now)) (because FieldsUnfit) }
{
    let mut passed = Checked {
        at: 0,
        fault: before,
    };
    for _ in 0..count {
        if items.len() < passed.at {
            return Err(Refusal::FieldsUnfit);
        }
        let item = check_item(items, kind, passed.at);
        let fault = passed.fault;
        let next = item.fault;
        passed = Checked {
            at: item.at,
            fault: fault.and(next),
        };
    }
    if passed.at != items.len() {
        return Err(Refusal::FieldsUnfit);
    }
    passed.fault
}

// Why a type, a unit or items are refused, after what was at fault in the names: 16, then 5.
fn fields_fault(
    node_type: u8,
    unit: u8,
    count: u16,
    items: &[u8],
    names: Result<(), Refusal>,
) -> Result<(), Refusal>
    ensures { result ≡ if (unfit node_type unit count items.now) (because FieldsUnfit) (first_fault names (texts_fault (items_of (type_of node_type) count) items.now)) }
{
    if node_type > 7 {
        return Err(Refusal::FieldsUnfit);
    }
    if unit > 7 {
        return Err(Refusal::FieldsUnfit);
    }
    let kind = NodeType::from(node_type as u16);
    if has_items(kind) {
        return items_fault(items, kind, count, names);
    }
    if count > 0 {
        return Err(Refusal::FieldsUnfit);
    }
    if items.len() > 0 {
        Err(Refusal::FieldsUnfit)
    } else {
        names
    }
}

// Why what is lent is refused: 15, 16, 5.
fn lent_fault(d: Fields, name: &[u8], long_name: &[u8], items: &[u8]) -> Result<(), Refusal>
    ensures { result ≡ lent_fault d (lent name.now long_name.now items.now) }
{
    if name.len() > 255 {
        return Err(Refusal::NameLong);
    }
    let long = long_name.len();
    if long > 255 {
        return Err(Refusal::NameLong);
    }
    let names = text_fault(name).and(text_fault(long_name));
    fields_fault(d.node_type, d.unit, d.count, items, names)
}

// 02: unused flag bits are written 0.
fn flags_of(node_type: u8, unit: u8, read_only: bool) -> u16
    ensures { result ≡ flags_of node_type unit read_only }
{
    let bits = node_type as u16 * 16 + unit as u16;
    if read_only { bits + 512 } else { bits }
}

// How many bytes the fields take that a type adds.
fn added_len(kind: NodeType) -> usize
    ensures { result ≡ extent (map form (added kind)) [] }
{
    match kind {
        NodeType::LinearFloat | NodeType::LogarithmicFloat => 12,
        NodeType::Integer => 8,
        NodeType::StringEnum | NodeType::FloatEnum | NodeType::String => 2,
        NodeType::Node | NodeType::FaderLevel => 0,
    }
}

// Bytes at a place, and the place after them.
fn lay(out: &mut [u8], at: usize, src: &[u8]) -> usize
    requires { at + length src.now ≤ length out.old }
    ensures { (result ≡ at + length src.now) × (out.new ≡ sets out.old at src.now) }
{
    // By a loop: a slice's own copy would make the archive for C need memmove.
    for i in 0..src.len() {
        out[at + i] = src[i];
    }
    at + src.len()
}

// A string: its length in one byte, then its bytes.
fn lay_string(out: &mut [u8], at: usize, s: &[u8]) -> usize
    requires { (at + (1 + length s.now) ≤ length out.old) × (length s.now ≤ 255) }
    ensures { (result ≡ at + length (laid string s.now)) × (out.new ≡ sets out.old at (laid string s.now)) }
{
    out[at] = s.len() as u8;
    lay(out, at + 1, s)
}

fn lay_ids(out: &mut [u8], parent_id: i32, id: i32, index: u16)
    requires { 10 ≤ length out.old }
    ensures { out.new ≡ sets out.old 0 (bytes_of 4 (unsigned 31 parent_id) ++ (bytes_of 4 (unsigned 31 id) ++ bytes_of 2 index)) }
{
    put_number(out, 0, parent_id);
    put_number(out, 4, id);
    put_number(out, 8, index);
}

// The fields of every definition, and the place after them.
fn lay_header(out: &mut [u8], d: Fields, name: &[u8], long_name: &[u8]) -> usize
    requires { (14 + length name.now + length long_name.now ≤ length out.old) × (length name.now ≤ 255) × (length long_name.now ≤ 255) }
    ensures { (result ≡ 14 + length name.now + length long_name.now) × (out.new ≡ sets out.old 0 (laid_by (holds d (lent name.now long_name.now [])) header)) }
{
    lay_ids(out, d.parent_id, d.id, d.index);
    let at = lay_string(out, 10, name);
    let end = lay_string(out, at, long_name);
    put_number(out, end, flags_of(d.node_type, d.unit, d.read_only));
    end + 2
}

fn lay_limits(out: &mut [u8], at: usize, min: u32, max: u32)
    requires { at + 8 ≤ length out.old }
    ensures { out.new ≡ sets out.old at (bytes_of 4 min ++ bytes_of 4 max) }
{
    put_number(out, at, min);
    put_number(out, at + 4, max);
}

// The fields that a type adds.
fn lay_added(out: &mut [u8], at: usize, d: Fields, kind: NodeType)
    requires { (kind ≡ type_given d) × (at + extent (map form (added kind)) [] ≤ length out.old) }
    ensures { out.new ≡ sets out.old at (laid_by (holds d (lent [] [] [])) (added kind)) }
{
    match kind {
        NodeType::LinearFloat | NodeType::LogarithmicFloat => {
            lay_limits(out, at, d.min_float, d.max_float);
            put_number(out, at + 8, d.steps);
        }
        NodeType::Integer => lay_limits(
            out,
            at,
            d.min_int.cast_unsigned(),
            d.max_int.cast_unsigned(),
        ),
        NodeType::StringEnum | NodeType::FloatEnum => {
            put_number(out, at, d.count);
        }
        NodeType::String => {
            put_number(out, at, d.max_len);
        }
        NodeType::Node | NodeType::FaderLevel => {}
    }
}

// The whole body, to the front of out.
fn lay_body(out: &mut [u8], d: Fields, kind: NodeType, name: &[u8], long_name: &[u8], items: &[u8])
    requires kind_value { (kind ≡ type_given d) × (length name.now ≤ 255) × (length long_name.now ≤ 255) }
    requires in_bounds { 14 + length name.now + length long_name.now + extent (map form (added kind)) [] + length items.now ≤ length out.old }
    ensures { out.new ≡ placed out.old 0 (body_given d (lent name.now long_name.now items.now)) }
{
    let at = lay_header(out, d, name, long_name);
    lay_added(out, at, d, kind);
    lay(out, at + added_len(kind), items);
}

// The body of a definition, to the front of out. 15, 16, 5, 2, 9.
pub fn to_bytes(
    d: Fields,
    name: &[u8],
    long_name: &[u8],
    items: &[u8],
    out: &mut [u8],
) -> Result<usize, Refusal>
    ensures { body_effect result out.new ≡ body_of_fields d (lent name.now long_name.now items.now) out.old }
{
    lent_fault(d, name, long_name, items)?;
    let kind = NodeType::from(d.node_type as u16);
    let len = 14 + name.len() + long_name.len() + added_len(kind) + items.len();
    if len > 4096 {
        return Err(Refusal::BodyLong);
    }
    if out.len() < len {
        return Err(Refusal::OutputShort);
    }
    lay_body(out, d, kind, name, long_name, items);
    Ok(len)
}
