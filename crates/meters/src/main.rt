// Reads meter packets from standard input, each after its length in two bytes, and prints the figures of each strip's last
// readings. Where it fails it says so on standard error and ends with status 0, or with 1 where
// it cannot say so.
#![tactic(auto)]

mod complaint;
mod packets;
mod page;
mod strips;
mod width;

use crate::complaint::Complaint;
use std::alloc::Global;
use std::io;
use std::io::Read;
use wing_meters::window::{Window, make};

// The most bytes that an input may have.
const INPUT: usize = 1048576;

// One byte more, which tells a longer one.
const TEXT: u64 = 1048577;

fn take_all(alloc: Global, input: impl Read + Drop) -> Result<Vec<u8>, Complaint> {
    let mut text = Vec::new(alloc);
    match input.take(TEXT).read_to_end(&mut text) {
        Ok(_) => Ok(text),
        Err(_) => Err(Complaint::Unread),
    }
}

// Half a table must not look like a whole one: nothing is printed of an input with a packet that is wrong.
fn print(
    alloc: Global,
    input: impl Read + Drop,
    to: &impl Print,
    fresh: Window,
) -> Result<(), Complaint> {
    let text = take_all(alloc, input)?;
    if INPUT < text.len() {
        return Err(Complaint::TooLong);
    }
    let all = packets::by_id(alloc, text)?;
    strips::print(alloc, to, fresh, all)
}

fn run(rt: &HostRuntime) -> Result<(), Complaint> {
    if width::is_given(rt, 2) {
        return Err(Complaint::Arguments);
    }
    let fresh = make(width::asked(rt)).map_err(Complaint::Width)?;
    print(rt.alloc(), rt.stdin(), &rt.stdout(), fresh)
}

fn main(rt: HostRuntime) -> io::Result<()> {
    match run(&rt) {
        Ok(()) => Ok(()),
        Err(complaint) => eprintln!(rt; "meters: {complaint}"),
    }
}
