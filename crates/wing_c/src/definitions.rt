// Definitions and their items. Strings are told by their place in the body.
ghost use Rattle.std.specs.Prelude.{◌≡◌};
ghost use Rattle.wing_node.specs.Definition.{definition_of};
ghost use Rattle.wing_node.specs.Types.{type_of};
ghost use Rattle.wing_node.specs.Items.{begin_of, step_at, item_numbered};
ghost use Rattle.wing_c.specs.Definitions.{limits_as, listed_as, detail_numbers, taken_numbers, refused_numbers, definition_numbers};
ghost use Rattle.wing_c.specs.Definitions.{walk_as, begun_numbers, no_item, item_numbers, step_numbers};

use crate::answers::{Outcome, no_refusal, sent_back};
use wing_node::definition::{Definition, Details, Item};
use wing_node::items::Walk;
use wing_node::node_type::NodeType;
use wing_node::refusal::Refusal;
use wing_node::{definition, items};

// A definition: 0, its fields and where its names are. What the type has not is 0. Limits are 32 bits, of floats or of integers.
#[repr(C)]
#[derive(Clone, Copy)]
pub struct WingDefinition {
    pub status: i32,
    pub good: u16,
    pub parent_id: i32,
    pub id: i32,
    pub index: u16,
    pub node_type: u8,
    pub unit: u8,
    pub read_only: bool,
    pub count: u16,
    pub max_len: u16,
    pub min: u32,
    pub max: u32,
    pub steps: i32,
    pub name_len: u32,
    pub long_name_len: u32,
    pub name_start: usize,
    pub long_name_start: usize,
    pub first_item: usize,
}

// A walk over items: 0, the place reached, the items left and the type.
#[repr(C)]
#[derive(Clone, Copy)]
pub struct WingWalk {
    pub status: i32,
    pub good: u16,
    pub left: u16,
    pub node_type: u8,
    pub at: usize,
}

// An item: 1 and its kind (0 two strings, 1 float bits and a string), or 0 for none.
#[repr(C)]
#[derive(Clone, Copy)]
pub struct WingItem {
    pub status: i32,
    pub good: u16,
    pub kind: u8,
    pub bits: u32,
    pub len: u32,
    pub long_len: u32,
    pub start: usize,
    pub long_start: usize,
}

// A step of a walk: the item, and the walk after it.
#[repr(C)]
#[derive(Clone, Copy)]
pub struct WingStep {
    pub item: WingItem,
    pub walk: WingWalk,
}

// What a type adds, by numbers.
#[derive(Clone, Copy)]
struct DetailFields {
    min: u32,
    max: u32,
    steps: i32,
    count: u16,
    first: usize,
    max_len: u16,
}

fn limits(min: u32, max: u32, steps: i32) -> DetailFields
    ensures { result ≡ limits_as min max steps }
{
    DetailFields {
        min,
        max,
        steps,
        count: 0,
        first: 0,
        max_len: 0,
    }
}

fn listed(count: u16, first: usize, max_len: u16) -> DetailFields
    ensures { result ≡ listed_as count first max_len }
{
    DetailFields {
        min: 0,
        max: 0,
        steps: 0,
        count,
        first,
        max_len,
    }
}

fn numbers_of(d: Details) -> DetailFields
    ensures { result ≡ detail_numbers d }
{
    match d {
        Details::None => limits(0, 0, 0),
        Details::Floats { min, max, steps } => limits(min, max, steps),
        Details::Integers { min, max } => limits(min.cast_unsigned(), max.cast_unsigned(), 0),
        Details::Items { count, first } => listed(count, first, 0),
        Details::String { max_len } => listed(0, 0, max_len),
    }
}

fn taken(d: Definition) -> WingDefinition
    ensures { result ≡ taken_numbers d }
{
    let node_type = d.node_type;
    let unit = d.unit;
    let details = d.details;
    let name = d.name;
    let long_name = d.long_name;
    let n = numbers_of(details);
    WingDefinition {
        status: 0,
        good: 0,
        parent_id: d.parent_id,
        id: d.id,
        index: d.index,
        node_type: u8::from(node_type),
        unit: u8::from(unit),
        read_only: d.read_only,
        count: n.count,
        max_len: n.max_len,
        min: n.min,
        max: n.max,
        steps: n.steps,
        name_len: name.len,
        long_name_len: long_name.len,
        name_start: name.start,
        long_name_start: long_name.start,
        first_item: n.first,
    }
}

fn refused(why: Refusal) -> WingDefinition
    ensures { result ≡ refused_numbers why }
{
    let o = sent_back(why);
    WingDefinition {
        status: o.status,
        good: o.good,
        parent_id: 0,
        id: 0,
        index: 0,
        node_type: 0,
        unit: 0,
        read_only: false,
        count: 0,
        max_len: 0,
        min: 0,
        max: 0,
        steps: 0,
        name_len: 0,
        long_name_len: 0,
        name_start: 0,
        long_name_start: 0,
        first_item: 0,
    }
}

// 01: the fields of a body. 4, 5.
#[unsafe(no_mangle)]
pub extern "C" fn wing_definition(body: &[u8]) -> WingDefinition
    ensures { result ≡ definition_numbers (definition_of body.now) }
{
    match definition::from_bytes(body) {
        Ok(d) => taken(d),
        Err(why) => refused(why),
    }
}

fn walk(o: Outcome, at: usize, left: u16, node_type: u8) -> WingWalk
    ensures { result ≡ walk_as o at left node_type }
{
    WingWalk {
        status: o.status,
        good: o.good,
        left,
        node_type,
        at,
    }
}

// 01: a walk begins at the first item. 4, 5.
#[unsafe(no_mangle)]
pub extern "C" fn wing_items_begin(body: &[u8]) -> WingWalk
    ensures { result ≡ begun_numbers (begin_of body.now) }
{
    match items::items_begin(body) {
        Ok(w) => walk(no_refusal(), w.at, w.left, u8::from(w.kind)),
        Err(why) => walk(sent_back(why), 0, 0, 0),
    }
}

fn without_item(o: Outcome) -> WingItem
    ensures { result ≡ no_item o }
{
    WingItem {
        status: o.status,
        good: o.good,
        kind: 0,
        bits: 0,
        len: 0,
        long_len: 0,
        start: 0,
        long_start: 0,
    }
}

fn item(i: Result<Option<Item>, Refusal>) -> WingItem
    ensures { result ≡ item_numbers i }
{
    match i {
        Ok(None) => without_item(no_refusal()),
        Ok(Some(Item::Strings { item, long_item })) => WingItem {
            status: 1,
            good: 0,
            kind: 0,
            bits: 0,
            len: item.len,
            long_len: long_item.len,
            start: item.start,
            long_start: long_item.start,
        },
        Ok(Some(Item::Float { item, long_item })) => WingItem {
            status: 1,
            good: 0,
            kind: 1,
            bits: item,
            len: 0,
            long_len: long_item.len,
            start: 0,
            long_start: long_item.start,
        },
        Err(why) => without_item(sent_back(why)),
    }
}

// 01: the item there and the walk after it; none when no items are left or the type has none. A type over 7 is type 0. 4, 5.
#[unsafe(no_mangle)]
pub extern "C" fn wing_item_step(body: &[u8], at: usize, left: u16, node_type: u8) -> WingStep
    ensures { result ≡ step_numbers (step_at body.now at left (type_of node_type)) }
{
    let there = Walk {
        at,
        left,
        kind: NodeType::from(node_type as u16),
    };
    let step = items::item_step(body, there);
    let next = step.next;
    WingStep {
        item: item(step.item),
        walk: walk(no_refusal(), next.at, next.left, u8::from(next.kind)),
    }
}

// 01: an item read by its number. 4, 5, 14.
#[unsafe(no_mangle)]
pub extern "C" fn wing_item(body: &[u8], number: usize) -> WingItem
    ensures { result ≡ item_numbers (item_numbered body.now number) }
{
    item(items::item_by_number(body, number))
}
