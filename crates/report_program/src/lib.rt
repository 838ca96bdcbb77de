// The report as programs run it: of bytes, with scratch for 1,024 darts, and of standard input.
#![tactic(auto)]

ghost use Rattle.std.specs.Prelude.{◌≡◌, ◌≤◌, length};
ghost use Rattle.report_text.specs.Texts.{put, lay};
ghost use Rattle.report_lines.specs.Report.{report_of};

use program_input::read_full;
use report_whole::report::report_text;
use std::io;
use std::io::Write;

// Writes the report of an image with scratch of its own; `more` says that the input has more bytes than are lent.
pub fn report_bytes(bytes: &[u8], more: bool, text: &mut [u8]) -> usize
    requires { 24576 ≤ length text.old }
    ensures { (put result text.new ≡ lay text.old 0 (report_of more bytes.now)) × (result ≤ 24576) }
{
    let mut flags = [0u8; 1024];
    let mut vertices = [0u8; 1024];
    let mut coordinates = [0.0f64; 3072];
    let mut rows = [0u32; 4096];
    let mut marks = [0u8; 1024];
    let mut queue = [0u32; 1024];
    let mut output = [0u32; 1024];
    report_text(
        bytes,
        more,
        &mut flags,
        &mut vertices,
        &mut coordinates,
        &mut rows,
        &mut marks,
        &mut queue,
        &mut output,
        text,
    )
}

// Writes the report of an image to standard output.
pub fn print_report(rt: &impl Print, bytes: &[u8], more: bool) -> io::Result<()> {
    let mut text = [0u8; 24576];
    let end = report_bytes(bytes, more, &mut text);
    io::writer(rt).write_all(&text[..end])
}

// Reads one image of up to 46,080 bytes from standard input, and writes its report to standard output.
pub fn report_input(rt: &(impl Input + Print)) -> io::Result<()> {
    let mut image = [0u8; 46080];
    let mut next = [0u8; 1];
    let mut reader = rt.reader();
    let n = read_full(&mut reader, &mut image)?;
    let more = read_full(&mut reader, &mut next)?;
    print_report(rt, &image[..n], more != 0)
}
