// The core of the cell lists, by class. The queue's first n places are 0 afterwards.
ghost use Rattle.std.specs.Prelude.{◌≡◌, ◌≤◌, length};
ghost use Rattle.map_betas.specs.Betas.{darts};
ghost use Rattle.cell_steps.specs.Loans.{Zero, Scratch, Listed};
ghost use Rattle.cell_steps.specs.Calls.{wiped};
ghost use Rattle.cell_names.specs.Cells.{list_of};

use cell_face_lists::list::faces_core;
use cell_lists::list_core;
use cell_steps::cells::Class;
use map_betas::rows::Rows;

// Lists the cells of a class.
pub fn cells_core(
    rows: Rows,
    marks: &mut [u8],
    queue: &mut [u32],
    output: &mut [u32],
    flags: &[u8],
    class: Class,
) -> usize
    requires { Scratch rows.list.now marks.old queue.old × (darts rows.list.now ≤ length output.old)
        × (darts rows.list.now ≤ length flags.now) × Zero marks.old }
    ensures { (marks.new ≡ marks.old) × (queue.new ≡ wiped (darts rows.entry.list.now) queue.old)
        × Listed (list_of class rows.entry.list.now flags.now) output.old output.new result }
{
    match class {
        Class::Face => faces_core(rows, marks, queue, output, flags),
        _ => list_core(rows, class, marks, queue, output, flags),
    }
}
