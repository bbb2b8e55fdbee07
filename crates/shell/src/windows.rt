// The window over a strip's last readings that the orders go to (02, Job 6).
use crate::show;
use crate::show::{Answered, Unanswered, tell_refused, used};
use crate::words::Words;
use std::alloc::Global;
use std::fmt::Display;
use wing_meters::figures::Figures;
use wing_meters::window;
use wing_meters::window::{Control, Window};
use wing_node::refusal::Refusal;

// What an output of figures is filled with before a call: over every sum, which is within 256 × 32,768.
const MARK: i32 = 0x6eee_eeee;

const ROOM: usize = 16384;

// A row has five values.
const ROW: usize = 5;

#[derive(Drop)]
pub enum Order {
    Window(u32),
    Reading(i16),
    Figures,
    Readings { xs: Vec<i16>, room: usize },
    Ring,
    Hold(Window),
}

// A state made up of its numbers and levels, of which a window has at most 256.
fn hold(alloc: Global, words: &mut Words) -> Result<Window, Unanswered> {
    let control = Control {
        width: words.number()?,
        held: words.number()?,
        next: words.number()?,
        top: words.number()?,
        sum: words.number()?,
    };
    let given = words.list::<u16>(alloc)?;
    let mut levels = [0u16; 256];
    if levels.len() < given.len() {
        return Err(Unanswered::Form);
    }
    for (level, x) in levels.iter_mut().zip(&given) {
        *level = *x;
    }
    Ok(Window { control, levels })
}

pub fn parse(alloc: Global, name: &str, words: &mut Words) -> Result<Option<Order>, Unanswered> {
    let order = match name {
        "window" => Order::Window(words.number()?),
        "reading" => Order::Reading(words.number()?),
        "figures" => Order::Figures,
        "readings" => Order::Readings {
            xs: words.list(alloc)?,
            room: words.up_to(ROOM)?,
        },
        "ring" => Order::Ring,
        "hold" => Order::Hold(hold(alloc, words)?),
        _ => return Ok(None),
    };
    Ok(Some(order))
}

// Before the first order: a window of width 0, which every call refuses.
pub fn start() -> Window {
    let control = Control {
        width: 0,
        held: 0,
        next: 0,
        top: 0,
        sum: 0,
    };
    Window {
        control,
        levels: [0; 256],
    }
}

// A refused one keeps the old window.
fn make(w: &mut Window, width: u32, text: &mut String) -> Answered {
    match window::make(width) {
        Ok(made) => {
            *w = made;
            write!(text, "window {width}")?;
            Ok(())
        }
        Err(why) => tell_refused(text, why),
    }
}

fn told(text: &mut String, t: Result<Option<Figures>, Refusal>) -> Answered {
    match t {
        Ok(None) => Ok(text.push_str("none")?),
        Ok(Some(f)) => figures(text, f),
        Err(why) => tell_refused(text, why),
    }
}

fn figures(text: &mut String, f: Figures) -> Answered {
    let Figures {
        held,
        sum,
        mean,
        rest,
        top,
    } = f;
    write!(
        text,
        "held {held} sum {sum} mean {mean} rest {rest} top {top}"
    )?;
    Ok(())
}

fn reading(w: &mut Window, x: i16, text: &mut String) -> Answered {
    let r = wing_meters::reading::reading(*w, x);
    *w = r.window;
    let t = r.answer;
    told(text, t)
}

// Numbers with commas between, `-` for none.
fn list<T: Display>(text: &mut String, numbers: &[T]) -> Answered {
    if numbers.is_empty() {
        text.push('-')?;
    }
    for (i, x) in numbers.iter().enumerate() {
        if i > 0 {
            text.push(',')?;
        }
        write!(text, "{x}")?;
    }
    Ok(())
}

// The rows or the refusal; the answer is how many values there are.
fn followed(
    text: &mut String,
    a: Result<usize, Refusal>,
    out: &[i32],
) -> Result<usize, Unanswered> {
    match a {
        Ok(n) => rows(text, n, out),
        Err(why) => {
            tell_refused(text, why)?;
            Ok(0)
        }
    }
}

fn rows(text: &mut String, n: usize, out: &[i32]) -> Result<usize, Unanswered> {
    let count = n.saturating_mul(ROW);
    write!(text, "rows {n} ")?;
    list(text, out.get(..count).unwrap_or(out))?;
    Ok(count)
}

// The readings in one call with so much room; then whether the output is as it was past the values.
fn readings(alloc: Global, w: &mut Window, xs: &[i16], room: usize, text: &mut String) -> Answered {
    let mut out = vec![in alloc; MARK; room]?;
    let r = wing_meters::reading::readings(*w, xs, &mut out);
    *w = r.window;
    let a = r.answer;
    let count = followed(text, a, &out)?;
    let past = out.get(count..).unwrap_or(&[]);
    let clean = show::clean(past.iter().all(|x| *x == MARK));
    write!(text, " {clean}")?;
    Ok(())
}

// The state as it is.
fn ring(w: &Window, text: &mut String) -> Answered {
    let Control {
        width,
        held,
        next,
        top,
        sum,
    } = w.control;
    write!(
        text,
        "width {width} held {held} next {next} top {top} sum {sum} levels "
    )?;
    list(text, w.levels.get(..used(&w.levels)).unwrap_or(&[]))
}

pub fn obey(alloc: Global, w: &mut Window, order: Order, text: &mut String) -> Answered {
    match order {
        Order::Window(width) => make(w, width, text),
        Order::Reading(x) => reading(w, x, text),
        Order::Figures => told(text, window::figures(*w)),
        Order::Readings { xs, room } => readings(alloc, w, &xs, room, text),
        Order::Ring => ring(w, text),
        Order::Hold(held) => {
            *w = held;
            text.push_str("held")?;
            Ok(())
        }
    }
}
