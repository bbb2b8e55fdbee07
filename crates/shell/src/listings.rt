// Listings loaded into the mirror's table, and printed of it.
use crate::commands::of_written;
use crate::mirror::{Mirror, ROOM};
use crate::show;
use crate::show::{Answered, Unanswered, tell_refused};
use crate::words::Words;
use std::alloc::Global;

#[derive(Drop)]
pub enum Order {
    Load(Vec<u8>),
    // The line that decided is told too.
    Lines(Vec<u8>),
    Print { room: usize },
}

pub fn parse(alloc: Global, name: &str, words: &mut Words) -> Result<Option<Order>, Unanswered> {
    let order = match name {
        "load" => Order::Load(words.bytes(alloc)?),
        "loads" => Order::Load(words.repeated(alloc)?),
        "lines" => Order::Lines(words.bytes(alloc)?),
        "print" => Order::Print {
            room: words.up_to(ROOM)?,
        },
        _ => return Ok(None),
    };
    Ok(Some(order))
}

pub fn obey(alloc: Global, order: Order, m: &mut Mirror, text: &mut String) -> Answered {
    match order {
        Order::Load(listing) => {
            load(m, &listing, text)?;
            Ok(())
        }
        Order::Lines(listing) => {
            if let Some(line) = load(m, &listing, text)? {
                write!(text, " line {line}")?;
            }
            Ok(())
        }
        Order::Print { room } => print(alloc, m, room, text),
    }
}

// A loaded mirror goes on with the reply's count and decoder; a refused load leaves the mirror's own. The answer is the line of a
// refusal.
fn load(m: &mut Mirror, listing: &[u8], text: &mut String) -> Result<Option<usize>, Unanswered> {
    let r = wing_listing::load::load(listing, m.table_mut());
    let a = r.answer;
    match a {
        Ok(n) => {
            m.state = r.state;
            m.count = n;
            write!(text, "loaded {n}")?;
            Ok(None)
        }
        Err(bad) => {
            tell_refused(text, bad.why)?;
            Ok(Some(bad.line))
        }
    }
}

fn print(alloc: Global, m: &Mirror, room: usize, text: &mut String) -> Answered {
    let mut lent = vec![in alloc; show::MARK; room]?;
    let w = wing_listing::print::print(m.table(), m.count, &mut lent);
    of_written(text, w, "printed", &lent)
}
