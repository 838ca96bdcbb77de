// Runs of the report on many inputs: standard input holds cases, each a length in four little-endian bytes and then as many bytes.
#![tactic(auto)]

ghost use Rattle.std.specs.Prelude.{◌+◌, ◌≤◌, length};

use image_words::word_at;
use program_input::read_full;
use report_program::print_report;
use std::io;

// Writes the number of a case, and the report of its bytes.
fn print_case(rt: &impl Print, k: u64, bytes: &[u8]) -> io::Result<()> {
    println!(rt; "case {k}")?;
    print_report(rt, bytes, false)
}

// The place behind the case at `at`; the end, where fewer bytes stand there than its length says.
fn behind(cases: &[u8], at: usize) -> usize
    requires { at + 4 ≤ length cases.now }
    ensures { (at + 4 ≤ result) × (result ≤ length cases.now) }
{
    let k = word_at(cases, at) as usize;
    if cases.len() - (at + 4) < k {
        return cases.len();
    }
    at + 4 + k
}

// Writes the report of each case.
// Stays: the next place is read from the cases, so no range has it.
fn print_cases(rt: &impl Print, cases: &[u8]) -> io::Result<()>
    requires { length cases.now ≤ 131072 }
{
    let mut k = 1;
    let mut at = 0;
    while at + 4 <= cases.len() {
        let from = at + 4;
        let end = behind(cases, at);
        print_case(rt, k, &cases[from..end])?;
        at = end;
        k += 1;
    }
    Ok(())
}

// Reads the cases, 131,072 bytes of them at most.
fn main(rt: HostRuntime) -> io::Result<()> {
    let mut cases = [0u8; 131072];
    let n = read_full(&mut rt.reader(), &mut cases)?;
    print_cases(&rt, &cases[..n])
}
