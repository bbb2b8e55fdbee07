// The item walker (01: "The item walker carries the lent body and the place reached, with the type and the number of
// items left"). Thin over items.rt, which has the same walk on plain numbers for callers that hold no walker.
ghost use Rattle.std.specs.Prelude.{◌≡◌};
ghost use Rattle.wing_node.specs.Items.{begin_of, step_at};
ghost use Rattle.wing_node.specs.Walker.{opened_of, stepped_of};

use crate::definition::Item;
use crate::items::{Step, Walk, item_step, items_begin};
use crate::refusal::Refusal;

#[derive(Clone, Copy)]
pub struct Walker<'a> {
    pub body: &'a [u8],
    pub walk: Walk,
}

#[derive(Clone, Copy)]
pub struct Stepped<'a> {
    pub item: Result<Option<Item>, Refusal>,
    pub next: Walker<'a>,
}

// A walker at the first item, or the parser's 4 or 5.
pub fn begin<'a>(body: &'a [u8]) -> Result<Walker<'a>, Refusal>
    ensures { result ≡ opened_of body.entry }
{
    let walk = items_begin(body)?;
    Ok(Walker { body, walk })
}

// A step that gives none, 4 or 5 leaves the walker as it was.
pub fn step<'a>(w: Walker<'a>) -> Stepped<'a>
    ensures { result ≡ stepped_of w.entry }
{
    let p = item_step(w.body, w.walk);
    Stepped {
        item: p.item,
        next: Walker {
            body: w.body,
            walk: p.next,
        },
    }
}

// Test support: begin, with a walker of its own.
pub fn begin_over(body: &[u8]) -> Result<Walk, Refusal>
    ensures { result ≡ begin_of body.now }
{
    let w = begin(body)?;
    Ok(w.walk)
}

// Test support: step likewise.
pub fn step_over(body: &[u8], walk: Walk) -> Step
    ensures { result ≡ step_at body.now walk.at walk.left walk.kind }
{
    let s = step(Walker { body, walk });
    Step {
        item: s.item,
        next: s.next.walk,
    }
}
