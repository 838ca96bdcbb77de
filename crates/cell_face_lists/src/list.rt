// The list of faces, dart by dart.
ghost use Rattle.std.specs.Prelude.{◌≡◌, ◌≤◌, length};
ghost use Rattle.map_betas.specs.Betas.{darts};
ghost use Rattle.cell_steps.specs.Loans.{Zero, Scratch, Listed};
ghost use Rattle.cell_steps.specs.Calls.{wiped};
ghost use Rattle.cell_lists.specs.CellLists.{cells_by};
ghost use Rattle.cell_faces.specs.Faces.{face_id};

use cell_face_tests::own::test_dart;
use cell_lists::put_own;
use map_betas::rows::Rows;

// Lists the faces: each dart that is not unused and is its own face identifier, in order. The queue's first n places are 0 afterwards.
pub fn faces_core(
    rows: Rows,
    marks: &mut [u8],
    queue: &mut [u32],
    output: &mut [u32],
    flags: &[u8],
) -> usize
    requires { Scratch rows.list.now marks.old queue.old × (darts rows.list.now ≤ length output.old)
        × (darts rows.list.now ≤ length flags.now) × Zero marks.old }
    ensures { (marks.new ≡ marks.old) × (queue.new ≡ wiped (darts rows.entry.list.now) queue.old)
        × Listed (cells_by (face_id rows.entry.list.now) (darts rows.entry.list.now) flags.now)
        output.old output.new result }
{
    let n = marks.len();
    let mut known = 0;
    let mut count = 0;
    for d in 1..n {
        let x = d as u32;
        let s = test_dart(rows, marks, queue, known, x);
        known = s.known;
        count = put_own(output, count, x, s.own, flags[d]);
    }
    marks.fill(0);
    queue[..n].fill(0);
    count
}
