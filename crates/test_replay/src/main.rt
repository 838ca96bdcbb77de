// Replays a list of answers against the exported calls: standard input holds the records, and what agrees and what differs is counted.
#![tactic(auto)]

mod calls;
mod cells;
mod joins;
mod replays;

use program_input::read_full;
use std::io;
use test_records::report;

// Reads the list, replays it and reports.
fn main(rt: HostRuntime) -> io::Result<()> {
    let mut bytes = [0u8; 524288];
    let n = read_full(&mut rt.reader(), &mut bytes)?;
    let mut agree = [0u64; 32];
    let mut numbers = [0u64; 16];
    let walked = replays::walk(&bytes[..n], &mut agree, &mut numbers);
    report::operations(&rt, &agree)?;
    report::answers(&rt, &numbers)?;
    report::ending(&rt, walked)
}
