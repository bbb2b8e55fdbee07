// Reads orders from standard input, a line each, and answers each with one line: docs/ORDERS.md has them all.
#![tactic(auto)]

mod commands;
mod definitions;
mod listings;
mod mirror;
mod orders;
mod places;
mod show;
mod states;
mod streams;
mod values;
mod windows;
mod words;

use crate::orders::Lasting;
use crate::show::{Answered, Unanswered};
use std::alloc::{AllocError, Global};
use std::io;
use std::io::{BufRead, BufReader, ErrorKind, Read};

// The longest line.
const LINE: usize = 16384;

// One byte more, which tells a longer one.
const KEPT: u64 = 16385;

// How much of the input is read at once.
const BUFFER: usize = 65536;

// The answer of a line. Bytes that are not UTF-8 spell no order.
fn answer(alloc: Global, lasting: &mut Lasting, line: &[u8], text: &mut String) -> Answered {
    if LINE < line.len() {
        return Err(Unanswered::Form);
    }
    match str::from_utf8(line) {
        Ok(line) => lasting.answer(alloc, line, text),
        Err(_) => Err(Unanswered::Form),
    }
}

// A line out of form is printed back; a comment and an empty line too, so that the output reads by itself.
fn printed_back(alloc: Global, line: &[u8]) -> Result<Vec<u8>, AllocError> {
    let mut back = Vec::new(alloc);
    if LINE < line.len() {
        back.push(b'?')?;
    } else {
        if !line.is_empty() && !line.starts_with(b"#") {
            back.extend_from_slice(b"? ")?;
        }
        back.extend_from_slice(line)?;
    }
    back.push(b'\n')?;
    Ok(back)
}

fn print(
    alloc: Global,
    to: &impl Print,
    lasting: &mut Lasting,
    line: &[u8],
    text: &mut String,
) -> io::Result<()> {
    text.clear();
    match answer(alloc, lasting, line, text) {
        Ok(()) => {
            text.push('\n')?;
            to.write_all(text.as_bytes())
        }
        Err(Unanswered::Form) => to.write_all(&printed_back(alloc, line)?),
        Err(Unanswered::Memory) => Err(io::Error::from(ErrorKind::OutOfMemory)),
    }
}

// The next line and its newline, if it has one. Of a line that is too long only so much is kept as tells it, and it ends there.
fn read_line(input: &mut impl BufRead, line: &mut Vec<u8>) -> io::Result<()> {
    line.clear();
    input.by_ref().take(KEPT).read_until(b'\n', line)?;
    if LINE < line.len() && !line.ends_with(b"\n") {
        input.skip_until(b'\n')?;
        line.push(b'\n')?;
    }
    Ok(())
}

// Every line of the input. The last one needs no newline.
fn run(
    alloc: Global,
    input: impl Read + Drop,
    stdout: &impl Print,
    stderr: &impl Print,
) -> io::Result<()> {
    let mut input = BufReader::with_capacity(alloc, BUFFER, input)?;
    let mut lasting = Lasting::start(alloc)?;
    let mut line = Vec::new(alloc);
    let mut text = String::new(alloc);
    for _ in 0..u64::MAX {
        let read = read_line(&mut input, &mut line);
        if read.is_err() {
            println!(stderr; "shell: standard input was not read to its end")?;
        }
        let is_ended = line.ends_with(b"\n");
        if is_ended {
            line.pop();
        } else if line.is_empty() {
            break;
        }
        print(alloc, stdout, &mut lasting, &line, &mut text)?;
        if !is_ended {
            break;
        }
    }
    Ok(())
}

fn main(rt: HostRuntime) -> io::Result<()> {
    run(rt.alloc(), rt.stdin(), &rt.stdout(), &rt.stderr())
}
