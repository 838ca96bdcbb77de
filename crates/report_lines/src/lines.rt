// The lines of the report.
ghost use Rattle.std.specs.Prelude.{◌≡◌, ◌+◌, ◌-◌, ◌<◌, ◌≤◌, length};
ghost use Rattle.map_betas.specs.Betas.{darts};
ghost use Rattle.report_text.specs.Texts.{put, lay};
ghost use Rattle.report_lines.specs.Report.{value_of, told_line, used_up_to, head_line, class_line};
ghost use Rattle.cell_steps.specs.Calls.{wiped, headed};
ghost use Rattle.cell_names.specs.Cells.{list_of};

use cell_names::enumerators::cells_core;
use cell_steps::cells::Class;
use map_betas::error::Told;
use map_betas::rows::Rows;
use report_text::{put_byte, put_bytes, put_line, put_number};

// Writes a number after one space.
fn put_value(text: &mut [u8], at: usize, x: u64) -> usize
    requires { at + 21 ≤ length text.old }
    ensures { (put result text.new ≡ lay text.old at (value_of x)) × (result ≤ at + 21) }
{
    let p = put_byte(text, at, b' ');
    put_number(text, p, x)
}

// Writes the line of a refusal, from its number and its three values.
pub fn put_refusal(text: &mut [u8], at: usize, told: Told) -> usize
    requires { at + 92 ≤ length text.old }
    ensures { (put result text.new ≡ lay text.old at (told_line told)) × (result ≤ at + 92) }
{
    let p = put_bytes(text, at, b"refused");
    let q = put_value(text, p, u64::from(told.number));
    let first = put_value(text, q, told.first);
    let second = put_value(text, first, told.second);
    let third = put_value(text, second, told.third);
    put_byte(text, third, b'\n')
}

// How many of the darts 1 to n - 1 are not unused.
pub fn count_used(flags: &[u8], n: usize) -> usize
    requires { (1 ≤ n) × (n ≤ length flags.now) }
    ensures { (result ≡ used_up_to flags.now (n - 1)) × (result < n) }
{
    let mut used = 0;
    for d in 1..n {
        if flags[d] == 0 {
            used += 1;
        }
    }
    used
}

// Writes the line of the darts.
pub fn put_head(text: &mut [u8], at: usize, n: usize, used: usize) -> usize
    requires { at + 53 ≤ length text.old }
    ensures { (put result text.new ≡ lay text.old at (head_line n used)) × (result ≤ at + 53) }
{
    let p = put_bytes(text, at, b"darts");
    let q = put_value(text, p, n as u64);
    let u = put_bytes(text, q, b" used");
    let v = put_value(text, u, used as u64);
    put_byte(text, v, b'\n')
}

// Writes the line of a class of cells: the list, by wiped marks, and its text.
pub fn put_class(
    rows: Rows,
    flags: &[u8],
    marks: &mut [u8],
    queue: &mut [u32],
    output: &mut [u32],
    text: &mut [u8],
    at: usize,
    class: Class,
    name: &[u8],
) -> usize
    requires { (darts rows.list.now ≤ 1024) × (darts rows.list.now ≤ length marks.old) × (darts rows.list.now ≤ length queue.old)
        × (darts rows.list.now ≤ length output.old) × (darts rows.list.now ≤ length flags.now) × (at + length name.now + 5122 ≤ length text.old) }
    ensures text_after { (put result text.new ≡ lay text.old at (class_line name.now class rows.entry.list.now flags.now))
        × (result ≤ at + length name.now + 5122) }
    ensures marks_after { (marks.new ≡ wiped (darts rows.entry.list.now) marks.old)
        × (queue.new ≡ wiped (darts rows.entry.list.now) queue.old)
        × (output.new ≡ headed (list_of class rows.entry.list.now flags.now) output.old) }
{
    let n = rows.darts();
    marks[..n].fill(0);
    let count = cells_core(rows, &mut marks[..n], queue, output, flags, class);
    put_line(text, at, name, &output[..count])
}
