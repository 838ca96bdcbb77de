// The report's five lines of a map.
#![tactic(auto)]

ghost use Rattle.std.specs.Prelude.{◌≡◌, ◌≤◌, length};
ghost use Rattle.map_betas.specs.Betas.{darts};
ghost use Rattle.report_text.specs.Texts.{put, lay};
ghost use Rattle.report_lines.specs.Report.{map_text, lists_over};
ghost use Rattle.cell_steps.specs.Calls.{wiped};

use cell_steps::cells::Class;
use map_betas::rows::Rows;
use report_lines::lines::{count_used, put_class, put_head};

// Writes the five lines of a map.
pub fn put_map(
    rows: Rows,
    flags: &[u8],
    marks: &mut [u8],
    queue: &mut [u32],
    out: &mut [u32],
    text: &mut [u8],
) -> usize
    requires { (darts rows.list.now ≤ 1024) × (1024 ≤ length marks.old) × (1024 ≤ length queue.old) × (1024 ≤ length out.old)
        × (darts rows.list.now ≤ length flags.now) × (24576 ≤ length text.old) }
    ensures text_after { (put result text.new ≡ lay text.old 0 (map_text rows.entry.list.now flags.now)) × (result ≤ 24576) }
    ensures marks_after { (marks.new ≡ wiped (darts rows.entry.list.now) marks.old)
        × (queue.new ≡ wiped (darts rows.entry.list.now) queue.old)
        × (out.new ≡ lists_over rows.entry.list.now flags.now out.old) }
{
    let n = rows.darts();
    let vertex = Class::Vertex;
    let edge = Class::Edge;
    let face = Class::Face;
    let volume = Class::Volume;
    let used = count_used(flags, n);
    let h = put_head(text, 0, n, used);
    let v = put_class(rows, flags, marks, queue, out, text, h, vertex, b"vertices");
    let e = put_class(rows, flags, marks, queue, out, text, v, edge, b"edges");
    let f = put_class(rows, flags, marks, queue, out, text, e, face, b"faces");
    put_class(rows, flags, marks, queue, out, text, f, volume, b"volumes")
}
