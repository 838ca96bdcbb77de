// The core of the identifiers: by class, the least dart of the orbit and its size, or the face identifier as the Rust walks it.
ghost use Rattle.std.specs.Prelude.{◌≡◌, ◌<◌};
ghost use Rattle.map_betas.specs.Betas.{darts};
ghost use Rattle.cell_steps.specs.Loans.{Clean};
ghost use Rattle.cell_names.specs.Cells.{identified};

use cell_cores::cores::cell_core;
use cell_face_walks::face::face_core;
use cell_steps::cells::{Cell, Class};
use map_betas::rows::Rows;

// The identifier of d's cell of a class with the cell's size; the walk of a face counts nothing, and its size is 0. Marks and queue are 0 before and after.
pub fn identifier(rows: Rows, class: Class, marks: &mut [u8], queue: &mut [u32], d: u32) -> Cell
    requires { (d < darts rows.list.now) × Clean (darts rows.list.now) marks.old queue.old }
    ensures { (marks.new ≡ marks.old) × (queue.new ≡ queue.old) × (result ≡ identified class rows.entry.list.now d) }
{
    match class {
        Class::Face => Cell {
            least: face_core(rows, marks, queue, d),
            count: 0,
        },
        _ => cell_core(rows, class, marks, queue, d),
    }
}
