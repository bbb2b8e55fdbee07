// A window over a strip's last readings (02, Job 6). Its state is numbers that the caller keeps: it goes in and comes back by value.
ghost use Rattle.std.specs.Prelude.{◌≡◌};
ghost use Rattle.wing_meters.specs.Calls.{made_of, figures_answer, reading_of, readings_of};
ghost use Rattle.wing_c.specs.Windows.{window_numbers, window_given, no_figures, told_numbers, made_numbers, reading_numbers, followed_as, followed_numbers};
ghost use Rattle.wing_c.specs.Windows.{rows_left, rows_from};

use crate::answers::minus;
use wing_meters::figures::Figures;
use wing_meters::reading::{Followed, Taken};
use wing_meters::window::{Control, Window};
use wing_meters::{reading, window};
use wing_node::refusal::Refusal;

// A window's state: the width, how many readings are held, the place of the next one, the largest level, the sum of the levels, and the levels:
// a reading raised by 32,768 is one.
#[repr(C)]
#[derive(Clone, Copy)]
pub struct WingWindow {
    pub width: u16,
    pub held: u16,
    pub next: u16,
    pub top: u16,
    pub sum: u32,
    pub levels: [u16; 256],
}

// What a window tells: 1 and the figures, or 0 for none.
#[repr(C)]
#[derive(Clone, Copy)]
pub struct WingFigures {
    pub status: i32,
    pub held: u16,
    pub sum: i32,
    pub mean: i16,
    pub rest: u16,
    pub top: i16,
}

// A window made: 0 and the window; beside a refusal one that every call refuses.
#[repr(C)]
#[derive(Clone, Copy)]
pub struct WingMade {
    pub status: i32,
    pub window: WingWindow,
}

// A reading taken: the figures, and the window with it; after a refusal the window as it was.
#[repr(C)]
#[derive(Clone, Copy)]
pub struct WingTaken {
    pub figures: WingFigures,
    pub window: WingWindow,
}

// Readings taken: 0, how many rows of figures there are, and the window with them; after a refusal the window as it was.
#[repr(C)]
#[derive(Clone, Copy)]
pub struct WingFollowed {
    pub status: i32,
    pub rows: usize,
    pub window: WingWindow,
}

fn given(w: WingWindow) -> Window
    ensures { result ≡ window_given w }
{
    let levels = w.levels;
    Window {
        control: Control {
            width: w.width,
            held: w.held,
            next: w.next,
            top: w.top,
            sum: w.sum,
        },
        levels,
    }
}

fn kept(w: Window) -> WingWindow
    ensures { result ≡ window_numbers w }
{
    let c = w.control;
    let levels = w.levels;
    WingWindow {
        width: c.width,
        held: c.held,
        next: c.next,
        top: c.top,
        sum: c.sum,
        levels,
    }
}

// None, or a refusal.
fn without_figures(status: i32) -> WingFigures
    ensures { result ≡ no_figures status }
{
    WingFigures {
        status,
        held: 0,
        sum: 0,
        mean: 0,
        rest: 0,
        top: 0,
    }
}

fn told(a: Result<Option<Figures>, Refusal>) -> WingFigures
    ensures { result ≡ told_numbers a }
{
    match a {
        Ok(None) => without_figures(0),
        Ok(Some(f)) => WingFigures {
            status: 1,
            held: f.held,
            sum: f.sum,
            mean: f.mean,
            rest: f.rest,
            top: f.top,
        },
        Err(why) => without_figures(minus(why)),
    }
}

// Beside a refusal stands a window of width 0, which every call refuses.
fn made(m: Result<Window, Refusal>) -> WingMade
    ensures { result ≡ made_numbers m }
{
    match m {
        Ok(w) => WingMade {
            status: 0,
            window: kept(w),
        },
        Err(why) => WingMade {
            status: minus(why),
            window: WingWindow {
                width: 0,
                held: 0,
                next: 0,
                top: 0,
                sum: 0,
                levels: [0u16; 256],
            },
        },
    }
}

fn taken(t: Taken) -> WingTaken
    ensures { result ≡ reading_numbers t }
{
    WingTaken {
        figures: told(t.answer),
        window: kept(t.window),
    }
}

fn followed_as(status: i32, rows: usize, w: Window) -> WingFollowed
    ensures { result ≡ followed_as status rows w }
{
    WingFollowed {
        status,
        rows,
        window: kept(w),
    }
}

fn followed(f: Followed) -> WingFollowed
    ensures { result ≡ followed_numbers f }
{
    match f.answer {
        Ok(n) => followed_as(0, n, f.window),
        Err(why) => followed_as(minus(why), 0, f.window),
    }
}

// 02: a window of a width from 1 to 256 that holds none. 19.
#[unsafe(no_mangle)]
pub extern "C" fn wing_window_make(width: u32) -> WingMade
    ensures { result ≡ made_numbers (made_of width) }
{
    made(window::make(width))
}

// 02: the figures of what the window holds, or none. 8.
#[unsafe(no_mangle)]
pub extern "C" fn wing_window_figures(w: WingWindow) -> WingFigures
    ensures { result ≡ told_numbers (figures_answer (window_given w)) }
{
    told(window::figures(given(w)))
}

// 02: a reading goes in; once the window is full the oldest leaves. 8.
#[unsafe(no_mangle)]
pub extern "C" fn wing_window_reading(w: WingWindow, x: i16) -> WingTaken
    ensures { result ≡ reading_numbers (reading_of (window_given w) x) }
{
    taken(reading::reading(given(w), x))
}

// The same of readings one after the other, with a row of the five figures for each. 8, 9.
#[unsafe(no_mangle)]
pub extern "C" fn wing_window_readings(w: WingWindow, xs: &[i16], out: &mut [i32]) -> WingFollowed
    ensures { rows_left result out.new ≡ rows_from (readings_of (window_given w) xs.now out.old) }
{
    followed(reading::readings(given(w), xs, out))
}
