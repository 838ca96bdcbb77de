// The report of one image from standard input, run on an input that is too long.
#![tactic(auto)]

use std::io;

fn main(rt: HostRuntime) -> io::Result<()> {
    report_program::report_input(&rt)
}
