// The items of a definition, one after the other or by number, on a plain slice with numbers.
ghost use Rattle.std.specs.Prelude.{◌≡◌, Ok};
ghost use Rattle.wing_node.specs.Items.{walk_from, begin_of, stayed, step_at, numbered_from, item_numbered};

use crate::definition::{Details, Item, from_bytes, past_items, read_item};
use crate::node_type::{NodeType, has_items};
use crate::refusal::Refusal;

// Where a walk over the items stands: the place reached, the items left and the type.
#[derive(Clone, Copy)]
pub struct Walk {
    pub at: usize,
    pub left: u16,
    pub kind: NodeType,
}

// The item, none, or the refusal; and the walk after it.
#[derive(Clone, Copy)]
pub struct Step {
    pub item: Result<Option<Item>, Refusal>,
    pub next: Walk,
}

fn first_of(kind: NodeType, details: Details) -> Walk
    ensures { result ≡ walk_from kind details }
{
    match details {
        Details::Items { count, first } => Walk {
            at: first,
            left: count,
            kind,
        },
        _ => Walk {
            at: 0,
            left: 0,
            kind,
        },
    }
}

// 01: the walk begins at the first item; a body that the parser refuses gives its 4 or 5.
pub fn items_begin(body: &[u8]) -> Result<Walk, Refusal>
    ensures { result ≡ begin_of body.now }
{
    let d = from_bytes(body)?;
    Ok(first_of(d.node_type, d.details))
}

fn stay(item: Result<Option<Item>, Refusal>, walk: Walk) -> Step
    ensures { result ≡ stayed item walk.at walk.left walk.kind }
{
    Step { item, next: walk }
}

// The item at a walk's place, with where the walk then stands. A refused step leaves the walk as it was.
pub fn item_step(body: &[u8], walk: Walk) -> Step
    ensures { result ≡ step_at body.now walk.at walk.left walk.kind }
{
    if walk.left == 0 {
        return stay(Ok(None), walk);
    }
    if has_items(walk.kind) {
        return match read_item(body, walk.kind, walk.at) {
            Ok(read) => stay(
                Ok(read.item),
                Walk {
                    at: read.next,
                    left: walk.left - 1,
                    kind: walk.kind,
                },
            ),
            Err(why) => stay(Err(why), walk),
        };
    }
    stay(Ok(None), walk)
}

// Of a body that the parser takes, so the items before it are not refused.
fn numbered(body: &[u8], number: usize, first: Walk) -> Result<Option<Item>, Refusal>
    requires { begin_of body.now ≡ Ok first }
    ensures { result ≡ numbered_from body.now number first }
{
    if first.left as usize <= number {
        return Err(Refusal::NumberOver);
    }
    let before = number as u16;
    let at = past_items(body, first.kind, before, first.at)?;
    let there = Walk {
        at,
        left: first.left - before,
        kind: first.kind,
    };
    item_step(body, there).item
}

// The item of a number, from 0. A body that the parser refuses gives its 4 or 5 before 14.
pub fn item_by_number(body: &[u8], number: usize) -> Result<Option<Item>, Refusal>
    ensures { result ≡ item_numbered body.now number }
{
    let first = items_begin(body)?;
    numbered(body, number, first)
}
