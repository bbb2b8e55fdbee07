// Readings that go into a window, one by one: each takes the next place, where the oldest stands once the window is full.
ghost use Rattle.std.specs.Prelude.{◌≡◌, true, ◌+◌, ◌-◌, ◌*◌, ◌≤◌, ◌<◌, ◌++◌, length, drop};
ghost use Rattle.wing_meters.specs.Kept.{TopBefore};
ghost use Rattle.wing_meters.specs.Level.{greatest as greatest_of};
ghost use Rattle.wing_meters.specs.Window.{window as window_of, taking, grown as grown_of, onward as onward_of, sound_window};
ghost use Rattle.wing_meters.specs.Calls.{reading_of, after_all, answers, rows, followed as followed_of, rows_effect, readings_of};

use crate::figures::Figures;
use crate::kept::{Kept, figures_in, row_of, tell};
use crate::level::level_of;
use crate::sound::{greatest, kept_up};
use crate::window::{Control, Window};
use wing_node::refusal::Refusal;

// The answer, and the window with the reading in it; after a refusal the window as it was, so that it stands beside the Result.
#[derive(Clone, Copy)]
pub struct Taken {
    pub answer: Result<Option<Figures>, Refusal>,
    pub window: Window,
}

// How many rows of five figures, one for each reading, or the refusal, and the window with the readings in it; after a refusal the window as it was.
#[derive(Clone, Copy)]
pub struct Followed {
    pub answer: Result<usize, Refusal>,
    pub window: Window,
}

fn grown(held: u16, width: u16) -> u16
    ensures { result ≡ grown_of held width }
{
    if held < width { held + 1 } else { held }
}

fn onward(next: u16, width: u16) -> u16
    requires { next < width }
    ensures { result ≡ onward_of next width }
{
    let after = next + 1;
    if after < width { after } else { 0 }
}

// The largest level after one left and one came: only where the largest has left is it looked for.
fn top_after(top: u16, left: u16, came: u16, levels: &[u16]) -> u16
    requires { TopBefore top left came levels.now }
    ensures { result ≡ greatest_of levels.now }
{
    if top <= came {
        return came;
    }
    if left == top {
        return greatest(levels);
    }
    top
}

// The sum after one level left and one came: it is kept up and not added anew.
fn sum_after(sum: u32, left: u16, came: u16) -> u32
    requires { (left ≤ sum) × (sum ≤ 65535 * 256) }
    ensures { result ≡ sum - left + came }
{
    sum - left as u32 + came as u32
}

// One reading takes the next place; the sum and the largest are kept up.
fn step(kept: Kept, levels: &mut [u16; 256], x: i16) -> Kept
    requires { sound_window (window_of kept.control levels.old) ≡ true }
    ensures { window_of result.control levels.new ≡ taking (window_of kept.control levels.old) x }
{
    let c = kept.control;
    let at = c.next as usize;
    let came = level_of(x);
    let left = levels[at];
    levels[at] = came;
    let control = Control {
        width: c.width,
        held: grown(c.held, c.width),
        next: onward(c.next, c.width),
        top: top_after(c.top, left, came, levels),
        sum: sum_after(c.sum, left, came),
    };
    Kept { control }
}

// 02: at each reading the figures of the last ones. 8.
pub fn reading(w: Window, x: i16) -> Taken
    ensures { result ≡ reading_of w x }
{
    let mut levels = w.levels;
    match kept_up(w.control, &levels) {
        Some(kept) => {
            let after = step(kept, &mut levels, x);
            let control = after.control;
            Taken {
                answer: Ok(tell(after)),
                window: Window { control, levels },
            }
        }
        None => Taken {
            answer: Err(Refusal::StateUnsound),
            window: w,
        },
    }
}

fn follow(kept: Kept, levels: &mut [u16; 256], xs: &[i16], out: &mut [i32]) -> Kept
    requires { (sound_window (window_of kept.control levels.old) ≡ true) × (5 * length xs.now ≤ length out.old) }
    ensures levels_after { window_of result.control levels.new ≡ after_all (window_of kept.control levels.old) xs.now }
    ensures out_after { out.new ≡ rows (answers (window_of kept.control levels.old) xs.now) ++ drop (5 * length xs.now) out.old }
{
    let mut after = kept;
    for (i, x) in xs.iter().enumerate() {
        after = step(after, levels, *x);
        out[5 * i..5 * i + 5].copy_from_slice(&row_of(figures_in(after)));
    }
    after
}

fn refuse(why: Refusal, w: Window) -> Followed
    ensures { result ≡ followed_of (Err why) w }
{
    Followed {
        answer: Err(why),
        window: w,
    }
}

// A strip's readings at once, in their order: a row of the five figures for each, at the front of the output. 8, 9.
pub fn readings(w: Window, xs: &[i16], out: &mut [i32]) -> Followed
    ensures { rows_effect result out.new ≡ readings_of w xs.now out.old }
{
    let mut levels = w.levels;
    match kept_up(w.control, &levels) {
        Some(kept) => {
            if out.len() / 5 < xs.len() {
                return refuse(Refusal::OutputShort, w);
            }
            let control = follow(kept, &mut levels, xs, out).control;
            Followed {
                answer: Ok(xs.len()),
                window: Window { control, levels },
            }
        }
        None => refuse(Refusal::StateUnsound, w),
    }
}
