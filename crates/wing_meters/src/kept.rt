// The figures of the readings that are held, by what a window keeps up of them, and as a row of numbers.
ghost use Rattle.std.specs.Prelude.{◌≡◌, ◌*◌, ◌/◌, ◌≤◌, Ok};
ghost use Rattle.wing_meters.specs.Kept.{InRange, figures_kept, told_kept};
ghost use Rattle.wing_meters.specs.Calls.{row_of};

use crate::figures::Figures;
use crate::level::{reading_at, sum_of};
use crate::window::Control;

// What is kept up of the levels of a sound window: its numbers are in range.
#[derive(Clone, Copy)]
pub(crate) struct Kept {
    pub control: Control,
    ghost in_range: { InRange control },
}

// The quotient of the levels' sum is that of the readings, rounded down, raised as they are.
fn quotient(sum: u32, n: u32) -> u32
    requires { (1 ≤ n) × (n ≤ 256) × (sum ≤ 65535 * n) }
    ensures { result ≡ sum / n }
{
    sum / n
}

// The figures of a window that holds any, by what it keeps up.
pub(crate) fn figures_in(kept: Kept) -> Figures
    requires { 1 ≤ kept.control.held }
    ensures { result ≡ figures_kept kept.control }
{
    let c = kept.control;
    let n = c.held as u32;
    Figures {
        held: c.held,
        sum: sum_of(c.sum, c.held),
        mean: reading_at(quotient(c.sum, n) as u16),
        rest: (c.sum % n) as u16,
        top: reading_at(c.top),
    }
}

// None where it holds none.
#[tactic(auto, unfolding(crate::specs::Kept::told_kept))]
pub(crate) fn tell(kept: Kept) -> Option<Figures>
    ensures { Ok result ≡ told_kept kept.control }
{
    if kept.control.held == 0 {
        return None;
    }
    Some(figures_in(kept))
}

// The five figures, in their order.
#[tactic(auto, unfolding(crate::specs::Calls::row_of))]
pub(crate) fn row_of(f: Figures) -> [i32; 5]
    ensures { result ≡ row_of f }
{
    [
        i32::from(f.held),
        f.sum,
        i32::from(f.mean),
        i32::from(f.rest),
        i32::from(f.top),
    ]
}
