// The calls that bench/ times beside libwing's, made once on standard input. bench/run makes a static library of calls.rt
// for its Rust program to link.
#![tactic(auto)]

mod calls;

use std::io;
use std::io::Read;

// 1,024 places of 264 bytes.
const TABLE: usize = 270336;

// The most bytes of the input that are taken.
const INPUT: u64 = 65536;

// The first bytes of standard input: the sum of the answers by the core and by next, which is one, and the records.
fn main(rt: HostRuntime) -> io::Result<()> {
    let mut bytes = Vec::new(rt.alloc());
    rt.stdin().take(INPUT).read_to_end(&mut bytes)?;
    let mut store = [0u8; 4096];
    let core = calls::port_decode(&bytes, &mut store);
    println!(rt; "core {core}")?;
    let next = calls::port_next(&bytes);
    println!(rt; "next {next}")?;
    let mut table = [0u8; TABLE];
    let count = calls::port_feed(&mut table, 0, &bytes);
    println!(rt; "records {count}")
}
