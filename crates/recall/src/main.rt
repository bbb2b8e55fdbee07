// Reads a listing, as `mirror` prints one, from standard input, and writes what a console is sent to hold it to standard
// output. Where it fails it says so on standard error and ends with status 0, or with 1 where
// it cannot say so.
#![tactic(auto)]

mod complaint;

use crate::complaint::Complaint;
use std::alloc::Global;
use std::io;
use std::io::Read;
use wing_listing::load::load;
use wing_mirror::recall::recall;

// One byte more than 02 lets a listing have, so that load says of a longer one what it is.
const TEXT: u64 = 65537;

// 1,024 places of 264 bytes.
const TABLE: usize = 270336;

// df d1, and at most 395 bytes for each of 1,024 records.
const RECALL: usize = 404482;

// All of the input, up to the bytes that tell a listing too long.
fn take_all(alloc: Global, input: impl Read + Drop) -> Result<Vec<u8>, Complaint> {
    let mut text = Vec::new(alloc);
    match input.take(TEXT).read_to_end(&mut text) {
        Ok(_) => Ok(text),
        Err(_) => Err(Complaint::Unread),
    }
}

// The first n bytes, which are there. mirror has the same; a library for it would be no plainer.
fn write_front(to: &impl Print, bytes: &[u8], n: usize) -> Result<(), Complaint> {
    let front = bytes.get(..n).ok_or(Complaint::Unwritten)?;
    to.write_all(front).map_err(|_| Complaint::Unwritten)
}

fn send(to: &impl Print, table: &[u8], count: usize) -> Result<(), Complaint> {
    let mut out = [0u8; RECALL];
    let w = recall(table, count, &mut out);
    match w {
        Ok(n) => write_front(to, &out, n),
        Err(_) => Err(Complaint::Unwritten),
    }
}

fn answer(to: &impl Print, text: &[u8]) -> Result<(), Complaint> {
    let mut table = [0u8; TABLE];
    let r = load(text, &mut table);
    let a = r.answer;
    match a {
        Ok(count) => send(to, &table, count),
        Err(bad) => Err(Complaint::Refused {
            why: bad.why,
            line: bad.line,
        }),
    }
}

// Half a listing may be a good one: nothing is sent of an input that was not read to its end.
fn run(alloc: Global, input: impl Read + Drop, to: &impl Print) -> Result<(), Complaint> {
    let text = take_all(alloc, input)?;
    answer(to, &text)
}

fn main(rt: HostRuntime) -> io::Result<()> {
    match run(rt.alloc(), rt.stdin(), &rt.stdout()) {
        Ok(()) => Ok(()),
        Err(complaint) => eprintln!(rt; "recall{complaint}"),
    }
}
