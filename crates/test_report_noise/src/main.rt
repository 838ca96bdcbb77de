// Runs of the report on noise that the program makes itself: 2,000 cases of each kind, counted by what came of them.
#![tactic(auto)]

ghost use Rattle.std.specs.Prelude.{◌<◌, ◌≤◌};

use noise::{below, next};
use std::io;
use tally::{Counts, Outcome, reported};

mod kinds;
mod lines;
mod noise;
mod parts;
mod tally;

// The cases of each kind.
const CASES: u32 = 2000;

// What came of a case, the sum behind it, and the number from which the next one goes on.
#[derive(Clone, Copy, Debug)]
struct Ran {
    outcome: Outcome,
    sum: u32,
    seed: u32,
}

// Makes a case of a kind over all of the bytes and reports it.
fn run_over(bytes: &mut [u8], kind: usize, n: usize, v: usize, seed: u32, sum: u32) -> Ran
    requires { (n ≤ 6) × (v < n) }
{
    let behind = kinds::make(bytes, kind, n, v, seed);
    let t = reported(bytes, sum);
    Ran {
        outcome: t.outcome,
        sum: t.sum,
        seed: behind,
    }
}

// Runs a case of a kind: of up to six darts, with fewer vertices.
fn run_case(kind: usize, seed: u32, sum: u32) -> Ran {
    let mut bytes = [0u8; 512];
    let first = next(seed);
    let n = 1 + below(first, 6);
    let second = next(first);
    let v = below(second, n);
    let third = next(second);
    let m = kinds::extent(kind, n, v, third);
    run_over(&mut bytes[..m], kind, n, v, third, sum)
}

// Runs the cases of a kind and writes its line. A kind's first number is its own, so that each can be run again by itself.
fn run_kind(rt: &impl Print, kind: u32) -> io::Result<()> {
    let mut counts = Counts::NONE;
    let mut sum = 0;
    let mut x = kind;
    for _ in 0..CASES {
        let ran = run_case(kind as usize, x, sum);
        counts.count(ran.outcome);
        sum = ran.sum;
        x = ran.seed;
    }
    lines::put_line(rt, kind as usize, &counts, sum)
}

// Runs every kind.
fn main(rt: HostRuntime) -> io::Result<()> {
    for kind in 0..kinds::KINDS {
        run_kind(&rt, kind)?;
    }
    Ok(())
}
