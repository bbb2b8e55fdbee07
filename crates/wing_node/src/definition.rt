// A node's definition, read from the body that a console sends (libwing's WingNodeDef::from_bytes):
// field by field in the order of the wire, nothing copied out of the body.
ghost use Rattle.std.specs.Prelude.{◌≡◌};
ghost use Rattle.wing_node.specs.Refusal.{no_fault};
ghost use Rattle.wing_node.specs.Cursor.{cursor, after, place_of};
ghost use Rattle.wing_node.specs.Definition.{span_at, item_at, item_of_read, items_of, listed_at, details_at, details_of_read, definition_of};

use crate::cursor::{FieldRead, read_16, read_32, read_string};
use crate::node_type::{NodeType, NodeUnit};
use crate::refusal::Refusal;

// Where a string lies in the body.
#[derive(Clone, Copy)]
pub struct Span {
    pub start: usize,
    pub len: u32,
}

fn span_of(r: FieldRead) -> Span
    ensures { result ≡ span_at r.start r.value }
{
    Span {
        start: r.start,
        len: r.value,
    }
}

// An item of a string or float enum.
#[derive(Clone, Copy)]
pub enum Item {
    Strings { item: Span, long_item: Span },
    Float { item: u32, long_item: Span },
}

#[derive(Clone, Copy)]
pub struct ItemRead {
    pub item: Option<Item>,
    pub next: usize,
}

// What a type adds to a definition. Floats are their 32 bits.
#[derive(Clone, Copy)]
pub enum Details {
    None,
    Floats { min: u32, max: u32, steps: i32 },
    Integers { min: i32, max: i32 },
    Items { count: u16, first: usize },
    String { max_len: u16 },
}

#[derive(Clone, Copy)]
pub struct DetailsRead {
    pub details: Details,
    pub next: usize,
}

#[derive(Clone, Copy)]
pub struct Definition {
    pub parent_id: i32,
    pub id: i32,
    pub index: u16,
    pub name: Span,
    pub long_name: Span,
    pub node_type: NodeType,
    pub unit: NodeUnit,
    pub read_only: bool,
    pub details: Details,
}

fn string_item(body: &[u8], at: usize) -> Result<ItemRead, Refusal>
    ensures { result ≡ item_of_read (item_at NodeType.StringEnum body.now (cursor at no_fault)) }
{
    let item = read_string(body, at)?;
    let long_item = read_string(body, item.next)?;
    let next = long_item.next;
    Ok(ItemRead {
        item: Some(Item::Strings {
            item: span_of(item),
            long_item: span_of(long_item),
        }),
        next,
    })
}

fn float_item(body: &[u8], at: usize) -> Result<ItemRead, Refusal>
    ensures { result ≡ item_of_read (item_at NodeType.FloatEnum body.now (cursor at no_fault)) }
{
    let item = read_32(body, at)?;
    let long_item = read_string(body, item.next)?;
    let next = long_item.next;
    Ok(ItemRead {
        item: Some(Item::Float {
            item: item.value,
            long_item: span_of(long_item),
        }),
        next,
    })
}

pub(crate) fn read_item(body: &[u8], kind: NodeType, at: usize) -> Result<ItemRead, Refusal>
    ensures { result ≡ item_of_read (item_at kind body.now (cursor at no_fault)) }
{
    match kind {
        NodeType::StringEnum => string_item(body, at),
        NodeType::FloatEnum => float_item(body, at),
        _ => Ok(ItemRead {
            item: None,
            next: at,
        }),
    }
}

// The place past a number of items, unless one is refused.
pub(crate) fn past_items(
    body: &[u8],
    kind: NodeType,
    count: u16,
    first: usize,
) -> Result<usize, Refusal>
    ensures { result ≡ place_of (after (items_of kind count) body.now (cursor first no_fault)) }
{
    let mut at = first;
    for _ in 0..count {
        let read = read_item(body, kind, at)?;
        at = read.next;
    }
    Ok(at)
}

fn floats(body: &[u8], at: usize) -> Result<DetailsRead, Refusal>
    ensures { result ≡ details_of_read (details_at NodeType.LinearFloat body.now (cursor at no_fault)) }
{
    let min = read_32(body, at)?;
    let max = read_32(body, min.next)?;
    let steps = read_32(body, max.next)?;
    let next = steps.next;
    Ok(DetailsRead {
        details: Details::Floats {
            min: min.value,
            max: max.value,
            steps: steps.value.cast_signed(),
        },
        next,
    })
}

fn integers(body: &[u8], at: usize) -> Result<DetailsRead, Refusal>
    ensures { result ≡ details_of_read (details_at NodeType.Integer body.now (cursor at no_fault)) }
{
    let min = read_32(body, at)?;
    let max = read_32(body, min.next)?;
    let next = max.next;
    Ok(DetailsRead {
        details: Details::Integers {
            min: min.value.cast_signed(),
            max: max.value.cast_signed(),
        },
        next,
    })
}

fn listed(body: &[u8], kind: NodeType, at: usize) -> Result<DetailsRead, Refusal>
    ensures { result ≡ details_of_read (listed_at kind body.now (cursor at no_fault)) }
{
    let count = read_16(body, at)?;
    let next = past_items(body, kind, count.value, count.next)?;
    Ok(DetailsRead {
        details: Details::Items {
            count: count.value,
            first: count.next,
        },
        next,
    })
}

fn longest(body: &[u8], at: usize) -> Result<DetailsRead, Refusal>
    ensures { result ≡ details_of_read (details_at NodeType.String body.now (cursor at no_fault)) }
{
    let max = read_16(body, at)?;
    let next = max.next;
    Ok(DetailsRead {
        details: Details::String { max_len: max.value },
        next,
    })
}

fn read_details(body: &[u8], kind: NodeType, at: usize) -> Result<DetailsRead, Refusal>
    ensures { result ≡ details_of_read (details_at kind body.now (cursor at no_fault)) }
{
    match kind {
        NodeType::LinearFloat | NodeType::LogarithmicFloat => floats(body, at),
        NodeType::Integer => integers(body, at),
        // An arm each, so that the loop over the items is compiled for its one type.
        NodeType::StringEnum => listed(body, kind, at),
        NodeType::FloatEnum => listed(body, kind, at),
        NodeType::String => longest(body, at),
        NodeType::Node | NodeType::FaderLevel => Ok(DetailsRead {
            details: Details::None,
            next: at,
        }),
    }
}

// The definition in a body, or 4 or 5 by its first failing field. Later bytes are ignored.
pub fn from_bytes(body: &[u8]) -> Result<Definition, Refusal>
    ensures { result ≡ definition_of body.now }
{
    let parent_id = read_32(body, 0)?;
    let id = read_32(body, parent_id.next)?;
    let index = read_16(body, id.next)?;
    let name = read_string(body, index.next)?;
    let long_name = read_string(body, name.next)?;
    let flags = read_16(body, long_name.next)?;
    let bits = flags.value;
    let kind = NodeType::from(bits / 16 % 16);
    let found = read_details(body, kind, flags.next)?;
    let details = found.details;
    let d = Definition {
        parent_id: parent_id.value.cast_signed(),
        id: id.value.cast_signed(),
        index: index.value,
        name: span_of(name),
        long_name: span_of(long_name),
        node_type: kind,
        unit: NodeUnit::from(bits % 16),
        read_only: bits / 512 % 2 == 1,
        details,
    };
    Ok(d)
}
