// Whether some list of readings leaves a window: levels added up, the greatest of them, and what is kept up beside them.
ghost use Rattle.std.specs.Prelude.{◌≡◌, true, false, MatchOption};
ghost use Rattle.wing_meters.specs.Level.{added as added_of, greatest as greatest_of};
ghost use Rattle.wing_meters.specs.Window.{window as window_of, sound_control, sound_window};

use crate::kept::Kept;
use crate::window::Control;
use std::cmp::Ordering;

fn added(levels: &[u16; 256]) -> u32
    ensures { result ≡ added_of levels.now }
{
    levels.iter().map(|level| u32::from(*level)).sum()
}

// 0 for none.
pub(crate) fn greatest(levels: &[u16]) -> u16
    ensures { result ≡ greatest_of levels.now }
{
    levels.iter().fold(0, |top, level| top.max(*level))
}

#[tactic(auto, unfolding(crate::specs::Window::sound_control))]
fn sound_control(c: Control) -> bool
    ensures { result ≡ sound_control c }
{
    if c.width < 1 || 256 < c.width {
        return false;
    }
    match c.held.cmp(&c.width) {
        Ordering::Less => c.next == c.held,
        Ordering::Equal => c.next < c.width,
        Ordering::Greater => false,
    }
}

pub(crate) fn is_sound_lent(c: Control, levels: &[u16; 256]) -> bool
    ensures { result ≡ sound_window (window_of c levels.now) }
{
    sound_control(c)
        && added(levels) == c.sum
        && greatest(levels) == c.top
        && greatest(&levels[c.held as usize..]) == 0
}

// What is kept up of the levels, if they and it make a sound window.
pub(crate) fn kept_up(c: Control, levels: &[u16; 256]) -> Option<Kept>
    ensures { MatchOption result (sound_window (window_of c levels.now) ≡ false) (λ k. (sound_window (window_of c levels.now) ≡ true) × (k.control ≡ c)) }
{
    if is_sound_lent(c, levels) {
        Some(Kept { control: c })
    } else {
        None
    }
}
