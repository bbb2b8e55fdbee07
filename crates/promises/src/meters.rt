// A window over a strip's last readings, each call with what is promised of it as its contract. There is nothing here but the call.
ghost use Rattle.std.specs.Prelude.{◌≡◌, true, ◌↔◌};
ghost use Rattle.wing_meters.specs.Moving.{Left};
ghost use Rattle.promises.specs.Meters.{MakeCall, ReadingCall, FiguresCall, ReadingsCall};

use wing_meters::figures::Figures;
use wing_meters::reading::{Followed, Taken};
use wing_meters::window::Window;
use wing_node::refusal::Refusal;

pub fn make(width: u32) -> Result<Window, Refusal>
    ensures { MakeCall width result }
{
    wing_meters::window::make(width)
}

// A window is sound exactly if some list of readings leaves it.
pub fn is_sound(w: Window) -> bool
    ensures { result ≡ true ↔ Left w }
{
    wing_meters::window::is_sound(w)
}

pub fn reading(w: Window, x: i16) -> Taken
    ensures { ReadingCall w x result.answer result.window }
{
    wing_meters::reading::reading(w, x)
}

pub fn figures(w: Window) -> Result<Option<Figures>, Refusal>
    ensures { FiguresCall w result }
{
    wing_meters::window::figures(w)
}

pub fn readings(w: Window, xs: &[i16], out: &mut [i32]) -> Followed
    ensures { ReadingsCall w xs.now out.old result.answer result.window out.new }
{
    wing_meters::reading::readings(w, xs, out)
}
