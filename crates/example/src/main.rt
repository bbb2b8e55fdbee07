// A recall box in small, to copy from: what the console sent goes into a mirror, the engineer sets a strip, and between two
// shows everything is sent back; here it goes into a second mirror and, as from a console that repeats it, into the first, which
// are then equal.
#![tactic(auto)]

use std::io;
use std::io::Read;
use wing_mirror::feed::feed;
use wing_mirror::recall::recall;
use wing_mirror::{answer, origin, query, set};
use wing_node::refusal::Refusal;
use wing_wire::state::State;

// The most bytes of the input that are taken, those of one feed.
const INPUT: u64 = 65536;

// 16 places of 264 bytes.
const TABLE: usize = 4224;

// df d1, and at most 395 bytes for each of 16 records.
const RECALL: usize = 6322;

fn said(to: &impl Print, w: Result<usize, Refusal>) -> io::Result<usize> {
    match w {
        Ok(n) => {
            println!(to; "bytes to send: {n}")?;
            Ok(n)
        }
        Err(why) => {
            refused(to, why)?;
            Ok(0)
        }
    }
}

fn refused(to: &impl Print, why: Refusal) -> io::Result<()> {
    let number = why.number();
    println!(to; "refused: {number}")
}

// 02: who gave a record its value, 0 the console, 1 a set order.
fn given(to: &impl Print, r: Result<answer::RecordRead, Refusal>) -> io::Result<()> {
    match r {
        Ok(r) => {
            let number = u8::from(r.origin);
            println!(to; "its origin: {number}")
        }
        Err(why) => refused(to, why),
    }
}

fn found(
    to: &impl Print,
    table: &[u8],
    count: usize,
    l: Result<Option<usize>, Refusal>,
) -> io::Result<()> {
    match l {
        Ok(Some(number)) => {
            println!(to; "node 1 is record {number}")?;
            given(to, query::record(table, count, number))
        }
        Ok(None) => println!(to; "records of node 1: 0"),
        Err(why) => refused(to, why),
    }
}

fn compared(to: &impl Print, s: Result<bool, Refusal>) -> io::Result<()> {
    match s {
        Ok(true) => println!(to; "equal mirrors: 1"),
        Ok(false) => println!(to; "equal mirrors: 0"),
        Err(why) => refused(to, why),
    }
}

// A fresh mirror that is fed what recall wrote has its values from the console; so has the first one once it is fed the same.
fn rebuild(to: &impl Print, table: &mut [u8], count: usize, sent: &[u8]) -> io::Result<()> {
    let mut again = [0u8; TABLE];
    let fed = feed(State::fresh(), &mut again, 0, sent);
    compared(to, query::same(table, count, &again, fed.count))?;
    let repeated = feed(State::fresh(), table, count, sent);
    compared(to, query::same(table, repeated.count, &again, fed.count))
}

fn main(rt: HostRuntime) -> io::Result<()> {
    let mut bytes = Vec::new(rt.alloc());
    rt.stdin().take(INPUT).read_to_end(&mut bytes)?;
    let mut table = [0u8; TABLE];
    let fed = feed(State::fresh(), &mut table, 0, &bytes);
    let records = fed.count;
    println!(rt; "records: {records}")?;

    let mut order = [0u8; 18];
    let placed = set::set_int(&mut table, fed.count, &mut order, 1, -5);
    let answer = placed.answer;
    said(&rt, answer)?;
    let l = query::lookup(&table, placed.count, 1);
    found(&rt, &table, placed.count, l)?;

    let mut out = [0u8; RECALL];
    let k = said(&rt, recall(&table, placed.count, &mut out))?;
    if let Some(sent) = out.get(..k) {
        rebuild(&rt, &mut table, placed.count, sent)?;
    }
    Ok(())
}
