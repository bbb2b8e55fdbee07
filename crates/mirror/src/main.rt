// Reads standard input to its end into a mirror of 128 places, and prints its records.
// Where it fails it says so on standard error and ends with status 0, or with 1 where it cannot say so.
#![tactic(auto)]

use std::io::Read;
use std::{fmt, io};
use wing_mirror::feed;
use wing_wire::state::State;

// 128 places of 264 bytes.
const TABLE: usize = 33792;

// The header of 14 bytes, and at most 527 for each of 128 records.
const LISTING: usize = 67470;

// The bytes of one read: at most those that a feed may have.
const READ: usize = 65536;

#[derive(Clone, Copy)]
enum Failure {
    Unread,
    Unwritten,
}

impl fmt::Display for Failure {
    fn fmt<W: fmt::Write>(&self, f: &mut fmt::Formatter<W>) -> fmt::Result {
        match self {
            Failure::Unread => write!(f, "standard input was not read to its end"),
            Failure::Unwritten => write!(f, "the listing was not written to its end"),
        }
    }
}

#[derive(Drop)]
struct Mirror {
    state: State,
    table: [u8; TABLE],
    count: usize,
}

impl Mirror {
    fn fresh() -> Mirror {
        Mirror {
            state: State::fresh(),
            table: [0; TABLE],
            count: 0,
        }
    }

    fn feed(&mut self, bytes: &[u8]) -> Result<(), Failure> {
        let r = feed::feed(self.state, &mut self.table, self.count, bytes);
        self.state = r.state;
        self.count = r.count;
        match r.answer {
            Ok(_) => Ok(()),
            Err(_) => Err(Failure::Unread),
        }
    }

    // All of the input, a read at a time.
    fn take_all(&mut self, input: &mut impl Read) -> Result<(), Failure> {
        let mut buffer = [0u8; READ];
        for _ in 0..u64::MAX {
            let Ok(n) = input.read(&mut buffer) else {
                return Err(Failure::Unread);
            };
            if n == 0 {
                return Ok(());
            }
            self.feed(&buffer[..n])?;
        }
        Err(Failure::Unread)
    }

    // The listing goes out in one write where the system takes it so.
    fn print(&self, to: &impl Print) -> Result<(), Failure> {
        let mut out = [0u8; LISTING];
        let w = wing_listing::print::print(&self.table, self.count, &mut out);
        match w {
            Ok(n) => write_front(to, &out, n),
            Err(_) => Err(Failure::Unwritten),
        }
    }
}

// The first n bytes, which are there. recall has the same; a library for it would be no plainer.
fn write_front(to: &impl Print, bytes: &[u8], n: usize) -> Result<(), Failure> {
    let front = bytes.get(..n).ok_or(Failure::Unwritten)?;
    to.write_all(front).map_err(|_| Failure::Unwritten)
}

// Half a table must not look like a whole one: nothing is listed of an input that was not read to its end.
fn run(input: &mut impl Read, to: &impl Print) -> Result<(), Failure> {
    let mut m = Mirror::fresh();
    m.take_all(input)?;
    m.print(to)
}

fn main(rt: HostRuntime) -> io::Result<()> {
    match run(&mut rt.stdin(), &rt.stdout()) {
        Ok(()) => Ok(()),
        Err(failure) => eprintln!(rt; "mirror: {failure}"),
    }
}
