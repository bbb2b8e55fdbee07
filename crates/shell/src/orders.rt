// The orders by the parts that answer them (docs/ORDERS.md).
use crate::mirror::Mirror;
use crate::show::{Answered, Unanswered, sum};
use crate::words::Words;
use crate::{commands, definitions, listings, mirror, streams, values, windows};
use std::alloc::{AllocError, Global};
use wing_meters::window::Window;

// The most bytes held for a later order.
const HELD: usize = 80000;

#[derive(Drop)]
enum Order {
    Hold(Vec<u8>),
    Mirror(mirror::Order),
    Listing(listings::Order),
    Window(windows::Order),
    Body(commands::Body),
    Stream(streams::Order),
    Definition(definitions::Order),
    Value(values::Order),
    Command(commands::Order),
}

// An order by its name and its words.
fn parse(alloc: Global, words: &mut Words) -> Result<Order, Unanswered> {
    let name = words.word()?;
    if name == "more" {
        return Ok(Order::Hold(words.bytes(alloc)?));
    }
    if name == "mores" {
        return Ok(Order::Hold(words.repeated(alloc)?));
    }
    if let Some(order) = mirror::parse(alloc, name, words)? {
        return Ok(Order::Mirror(order));
    }
    if let Some(order) = listings::parse(alloc, name, words)? {
        return Ok(Order::Listing(order));
    }
    if let Some(order) = windows::parse(alloc, name, words)? {
        return Ok(Order::Window(order));
    }
    if let Some(order) = commands::parse_body(alloc, name, words)? {
        return Ok(Order::Body(order));
    }
    if let Some(order) = streams::parse(alloc, name, words)? {
        return Ok(Order::Stream(order));
    }
    if let Some(order) = definitions::parse(alloc, name, words)? {
        return Ok(Order::Definition(order));
    }
    if let Some(order) = values::parse(alloc, name, words)? {
        return Ok(Order::Value(order));
    }
    Ok(Order::Command(commands::parse(alloc, name, words)?))
}

// Whether the answer's sum may be asked for.
fn has_sum(order: &Order) -> bool {
    match order {
        Order::Hold(_) | Order::Mirror(_) | Order::Listing(_) | Order::Window(_) => false,
        Order::Body(_) => false,
        Order::Stream(_) | Order::Definition(_) | Order::Value(_) | Order::Command(_) => true,
    }
}

// What lasts from line to line: the mirror, the window beside it, and the bytes held for a later order.
#[derive(Drop)]
pub struct Lasting {
    mirror: Mirror,
    window: Window,
    held: Vec<u8>,
}

impl Lasting {
    pub fn start(alloc: Global) -> Result<Lasting, AllocError> {
        Ok(Lasting {
            mirror: Mirror::start(alloc)?,
            window: windows::start(),
            held: Vec::new(alloc),
        })
    }

    // The answer of a line, or its sum; bytes held that it took are held no more.
    pub fn answer(&mut self, alloc: Global, line: &str, text: &mut String) -> Answered {
        let asked = line.strip_prefix("sum ");
        let mut words = Words::new(asked.unwrap_or(line), &self.held);
        let order = parse(alloc, &mut words)?;
        words.end()?;
        let took_held = words.took_held();
        if asked.is_some() && !has_sum(&order) {
            return Err(Unanswered::Form);
        }
        self.obey(alloc, order, text)?;
        if asked.is_some() {
            let total = sum(text.as_str());
            text.clear();
            write!(text, "{total:08x}")?;
        }
        if took_held {
            self.held.clear();
        }
        Ok(())
    }

    fn obey(&mut self, alloc: Global, order: Order, text: &mut String) -> Answered {
        match order {
            Order::Hold(bytes) => self.hold(&bytes, text),
            Order::Mirror(o) => self.mirror.obey(alloc, o, text),
            Order::Listing(o) => listings::obey(alloc, o, &mut self.mirror, text),
            Order::Window(o) => windows::obey(alloc, &mut self.window, o, text),
            Order::Body(o) => commands::obey_body(alloc, o, text),
            Order::Stream(o) => streams::obey(alloc, o, text),
            Order::Definition(o) => definitions::obey(alloc, o, text),
            Order::Value(o) => values::obey(o, text),
            Order::Command(o) => commands::obey(alloc, o, text),
        }
    }

    // The bytes stand after those held so far.
    fn hold(&mut self, bytes: &[u8], text: &mut String) -> Answered {
        if HELD < self.held.len().saturating_add(bytes.len()) {
            return Err(Unanswered::Form);
        }
        self.held.extend_from_slice(bytes)?;
        let held = self.held.len();
        write!(text, "held {held}")?;
        Ok(())
    }
}
