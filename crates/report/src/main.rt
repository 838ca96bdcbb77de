// The report program: reads one image from standard input and writes what it holds, or what refuses it, to standard output.
#![tactic(auto)]

use std::io;

fn main(rt: HostRuntime) -> io::Result<()> {
    report_program::report_input(&rt)
}
