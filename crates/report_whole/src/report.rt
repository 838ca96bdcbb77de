// The report: the whole text for any input.
ghost use Rattle.std.specs.Prelude.{◌≡◌, ◌≤◌, length};
ghost use Rattle.report_text.specs.Texts.{put, lay};
ghost use Rattle.report_lines.specs.Report.{report_of, leaves, report_leaves};

use image_reader::reader::read_within;
use map_betas::error::{Refusal, Told};
use map_betas::rows::Rows;
use report_lines::lines::put_refusal;
use report_map::put_map;

// The most darts of an image that the report takes.
pub const MOST: u32 = 1024;

// Writes the report of an image; `more` says that the input has more bytes than are lent.
pub fn report_text(
    bytes: &[u8],
    more: bool,
    flags: &mut [u8],
    vertices: &mut [u8],
    coordinates: &mut [f64],
    rows: &mut [u32],
    marks: &mut [u8],
    queue: &mut [u32],
    output: &mut [u32],
    text: &mut [u8],
) -> usize
    requires { (1024 ≤ length flags.old) × (1024 ≤ length vertices.old) × (3072 ≤ length coordinates.old) × (4096 ≤ length rows.old)
        × (1024 ≤ length marks.old) × (1024 ≤ length queue.old) × (1024 ≤ length output.old) × (24576 ≤ length text.old) }
    ensures text_after { (put result text.new ≡ lay text.old 0 (report_of more bytes.now)) × (result ≤ 24576) }
    ensures output_after { leaves flags.new vertices.new coordinates.new rows.new
        marks.new queue.new output.new
        ≡ report_leaves more bytes.now flags.old vertices.old coordinates.old rows.old
        marks.old queue.old output.old }
{
    if more {
        return put_refusal(text, 0, Told::from(Refusal::BadImage(2)));
    }
    match read_within(bytes, MOST, flags, vertices, coordinates, rows) {
        Ok(done) => {
            let n = done.count;
            let map = Rows {
                list: &rows[..4 * n],
            };
            put_map(map, &flags[..n], marks, queue, output, text)
        }
        Err(refusal) => put_refusal(text, 0, Told::from(refusal)),
    }
}
