// A definition's body: what the parser says, with every item; its cuts; its items by number and through the walker.
use crate::show::{Answered, Pairs, Refused, Unanswered, same_again, tell_refused, tell_short};
use crate::words::Words;
use std::alloc::Global;
use wing_node::definition::{Details, Item, Span};
use wing_node::node_type::NodeType;
use wing_node::refusal::Refusal;
use wing_node::{definition, items, walker};

#[derive(Drop)]
pub enum Order {
    Definition(Vec<u8>),
    Cuts(Vec<u8>),
    Item { number: usize, body: Vec<u8> },
    Step { walk: items::Walk, body: Vec<u8> },
    Walk(Vec<u8>),
}

// A place that need not come from a walk.
fn walk_from(words: &mut Words) -> Result<items::Walk, Unanswered> {
    let at = words.number::<u16>()? as usize;
    let left = words.number()?;
    let kind = NodeType::from(words.number::<u16>()?);
    Ok(items::Walk { at, left, kind })
}

pub fn parse(alloc: Global, name: &str, words: &mut Words) -> Result<Option<Order>, Unanswered> {
    let order = match name {
        "definition" => Order::Definition(words.bytes_or_held(alloc)?),
        "cuts" => Order::Cuts(words.bytes(alloc)?),
        "item" => Order::Item {
            number: words.number::<u32>()? as usize,
            body: words.bytes(alloc)?,
        },
        "step" => Order::Step {
            walk: walk_from(words)?,
            body: words.bytes(alloc)?,
        },
        "walk" => Order::Walk(words.bytes(alloc)?),
        _ => return Ok(None),
    };
    Ok(Some(order))
}

// A string of the body.
fn string(body: &[u8], s: Span) -> Pairs<'_> {
    let end = s.start.saturating_add(s.len as usize);
    Pairs(body.get(s.start..end))
}

// How an item is told: none and a refusal in words, or short.
#[derive(Clone, Copy, PartialEq, Eq)]
enum Manner {
    Words,
    Short,
}

fn item(
    text: &mut String,
    body: &[u8],
    i: Result<Option<Item>, Refusal>,
    manner: Manner,
) -> Answered {
    match i {
        Ok(None) => none(text, manner)?,
        Ok(Some(Item::Strings { item, long_item })) => {
            let item = string(body, item);
            let long_item = string(body, long_item);
            write!(text, ",{item}/{long_item}")?
        }
        Ok(Some(Item::Float { item, long_item })) => {
            let long_item = string(body, long_item);
            write!(text, ",{item:08x}/{long_item}")?
        }
        Err(why) => refused_in(text, why, manner)?,
    }
    Ok(())
}

fn none(text: &mut String, manner: Manner) -> Answered {
    match manner {
        Manner::Words => text.push_str("none")?,
        Manner::Short => text.push('-')?,
    }
    Ok(())
}

fn refused_in(text: &mut String, why: Refusal, manner: Manner) -> Answered {
    match manner {
        Manner::Words => tell_refused(text, why),
        Manner::Short => tell_short(text, why),
    }
}

// The item of a step in words, and where the walk stands after it.
fn step_text(text: &mut String, body: &[u8], s: items::Step) -> Answered {
    let i = s.item;
    item(text, body, i, Manner::Words)?;
    let at = s.next.at;
    let left = s.next.left;
    write!(text, " at {at} left {left}")?;
    Ok(())
}

// Every item, and what stands after the last, by a step that tells an item and goes on.
fn walk<F: Fn(&mut String, items::Walk) -> Result<items::Walk, Unanswered>>(
    text: &mut String,
    first: items::Walk,
    step: F,
) -> Answered
    requires { F.IsAlwaysCallable step }
{
    let mut w = first;
    for _ in 0..=first.left {
        w = step(text, w)?;
    }
    Ok(())
}

fn step_short(text: &mut String, body: &[u8], w: items::Walk) -> Result<items::Walk, Unanswered> {
    let s = items::item_step(body, w);
    let i = s.item;
    item(text, body, i, Manner::Short)?;
    Ok(s.next)
}

// The walker is made anew by the library for each step.
fn step_lent(text: &mut String, body: &[u8], w: items::Walk) -> Result<items::Walk, Unanswered> {
    let s = walker::step_over(body, w);
    text.push_str("; ")?;
    step_text(text, body, s)?;
    Ok(s.next)
}

fn walked(text: &mut String, body: &[u8]) -> Answered {
    let begun = items::items_begin(body);
    match begun {
        Ok(first) => walk(text, first, |text, w| step_short(text, body, w)),
        Err(why) => tell_short(text, why),
    }
}

fn numbered(text: &mut String, body: &[u8], number: usize) -> Answered {
    let i = items::item_by_number(body, number);
    item(text, body, i, Manner::Short)
}

// The items in order, the last one by its number, and the number past it.
fn all_items(text: &mut String, body: &[u8], count: u16) -> Answered {
    walked(text, body)?;
    text.push('#')?;
    numbered(text, body, count.saturating_sub(1) as usize)?;
    numbered(text, body, count as usize)
}

// What the type adds.
fn details(text: &mut String, body: &[u8], d: Details) -> Answered {
    match d {
        Details::None => write!(text, "-")?,
        Details::Floats { min, max, steps } => write!(text, "f{min:08x}{max:08x}{steps:08x}")?,
        Details::Integers { min, max } => write!(text, "i{min:08x}{max:08x}")?,
        Details::String { max_len } => write!(text, "s{max_len:04x}")?,
        Details::Items { count, first: _ } => {
            write!(text, "c{count:04x}")?;
            all_items(text, body, count)?
        }
    }
    Ok(())
}

fn fields(text: &mut String, body: &[u8], d: definition::Definition) -> Answered {
    let parent = d.parent_id;
    let id = d.id;
    let index = d.index;
    let name = string(body, d.name);
    let long_name = string(body, d.long_name);
    write!(text, "{parent:08x}{id:08x}{index:04x}n{name}l{long_name}")?;
    let t = d.node_type;
    let u = d.unit;
    let kind = u8::from(t);
    let unit = u8::from(u);
    let read_only = d.read_only as u8;
    write!(text, "k{kind:02x}{unit:02x}{read_only}")?;
    let more = d.details;
    details(text, body, more)
}

pub fn definition(text: &mut String, body: &[u8]) -> Answered {
    let parsed = definition::from_bytes(body);
    match parsed {
        Ok(d) => fields(text, body, d),
        Err(why) => tell_short(text, why),
    }
}

// None for a body that the parser takes.
fn refusal(body: &[u8]) -> Option<Refusal> {
    definition::from_bytes(body).err()
}

// A run of fronts that have one answer.
fn run(text: &mut String, from: usize, to: usize, why: Option<Refusal>) -> Answered {
    if from > 0 {
        text.push_str(", ")?;
    }
    match why {
        None => write!(text, "{from}-{to} good")?,
        Some(why) => {
            let why = Refused(why);
            write!(text, "{from}-{to} {why}")?
        }
    }
    Ok(())
}

// What the parser says of every front of a body, in runs of equal answers.
fn cuts(text: &mut String, body: &[u8]) -> Answered {
    let mut why = refusal(b"");
    let mut from = 0;
    for len in 0..body.len() {
        let next = refusal(&body[..len + 1]);
        if next != why {
            run(text, from, len, why)?;
            from = len + 1;
            why = next;
        }
    }
    run(text, from, body.len(), why)
}

// One step; the walker's is held against it.
fn step(alloc: Global, text: &mut String, body: &[u8], w: items::Walk) -> Answered {
    let mut again = String::new(alloc);
    step_text(text, body, items::item_step(body, w))?;
    step_text(&mut again, body, walker::step_over(body, w))?;
    same_again(text, again.as_str())
}

fn walk_items(text: &mut String, body: &[u8]) -> Answered {
    let begun = walker::begin_over(body);
    match begun {
        Ok(first) => {
            let items::Walk { at, left, .. } = first;
            write!(text, "at {at} left {left}")?;
            walk(text, first, |text, w| step_lent(text, body, w))
        }
        Err(why) => tell_refused(text, why),
    }
}

pub fn obey(alloc: Global, order: Order, text: &mut String) -> Answered {
    match order {
        Order::Definition(body) => definition(text, &body),
        Order::Cuts(body) => cuts(text, &body),
        Order::Item { number, body } => {
            let i = items::item_by_number(&body, number);
            item(text, &body, i, Manner::Words)
        }
        Order::Step { walk, body } => step(alloc, text, &body, walk),
        Order::Walk(body) => walk_items(text, &body),
    }
}
