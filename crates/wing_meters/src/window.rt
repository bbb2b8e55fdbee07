// A window over a strip's last readings (02, Job 6): the readings as levels, in a ring, and what is kept up of them.
ghost use Rattle.std.specs.Prelude.{◌≡◌};
ghost use Rattle.wing_meters.specs.Window.{fresh_window, sound_window};
ghost use Rattle.wing_meters.specs.Calls.{made_of, figures_answer};

use crate::figures::Figures;
use crate::kept::tell;
use crate::sound::{is_sound_lent, kept_up};
use wing_node::refusal::Refusal;

// The width, how many readings are held, the place of the next one, the largest level and the sum of the levels.
#[derive(Clone, Copy)]
pub struct Control {
    pub width: u16,
    pub held: u16,
    pub next: u16,
    pub top: u16,
    pub sum: u32,
}

// The level at the next place is the oldest once the window is full; places not used yet are 0.
#[derive(Clone, Copy)]
pub struct Window {
    pub control: Control,
    pub levels: [u16; 256],
}

fn fresh(width: u16) -> Window
    ensures { result ≡ fresh_window width }
{
    Window {
        control: Control {
            width,
            held: 0,
            next: 0,
            top: 0,
            sum: 0,
        },
        levels: [0u16; 256],
    }
}

// 02: a width outside 1 to 256 is 19.
#[tactic(auto, unfolding(crate::specs::Calls::made_of))]
pub fn make(width: u32) -> Result<Window, Refusal>
    ensures { result ≡ made_of width }
{
    if width < 1 || 256 < width {
        return Err(Refusal::WidthWrong);
    }
    Ok(fresh(width as u16))
}

// 02: whether some list of readings leaves this window.
pub fn is_sound(w: Window) -> bool
    ensures { result ≡ sound_window w }
{
    is_sound_lent(w.control, &w.levels)
}

// The figures of the readings that the window holds, none if it is empty. 8.
pub fn figures(w: Window) -> Result<Option<Figures>, Refusal>
    ensures { result ≡ figures_answer w }
{
    match kept_up(w.control, &w.levels) {
        Some(kept) => Ok(tell(kept)),
        None => Err(Refusal::StateUnsound),
    }
}
