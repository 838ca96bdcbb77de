// Whether a dart is its own face identifier. Where its face is regular one walk round its chain serves all of its darts; elsewhere it is walked from as
// `face_id` walks.
ghost use Rattle.std.specs.Prelude.{◌<◌, take};
ghost use Rattle.map_betas.specs.Betas.{darts};
ghost use Rattle.cell_steps.specs.Loans.{Queue, Scratch};
ghost use Rattle.cell_faces.specs.FaceLists.{Faced, Apart, WalkedId, DartTested};

use cell_face_walks::face::walk;
use cell_rounds::rounds::{go_round, is_regular};
use cell_scratch::scratch::clear;
use map_betas::rows::Rows;

// Whether d is its own face identifier, and how many darts the list has done with then.
#[derive(Clone, Copy)]
pub struct DartTest {
    pub own: bool,
    pub known: usize,
}

// The face identifier of d by the walk, with the darts that the list has done with marked: d reaches none of them.
fn walked_id(rows: Rows, marks: &mut [u8], queue: &mut [u32], known: usize, d: u32) -> u32
    requires { Scratch rows.list.now marks.old queue.old × (d < darts rows.list.now) × Queue marks.old queue.old known
        × Apart rows.list.now d (take known queue.old) }
    ensures { WalkedId rows.entry.list.now d queue.old known marks.new queue.new result }
{
    let w = walk(rows, marks, queue, known, d);
    clear(marks, &queue[known..w.k]);
    w.low
}

// Tests d: a dart that is done with is not its own identifier, a regular one that is not is, and its whole face is then done with.
pub fn test_dart(rows: Rows, marks: &mut [u8], queue: &mut [u32], known: usize, d: u32) -> DartTest
    requires { Scratch rows.list.now marks.old queue.old × (0 < d) × (d < darts rows.list.now) × Queue marks.old queue.old known
        × Faced rows.list.now d (take known queue.old) }
    ensures { DartTested rows.entry.list.now d queue.old marks.new queue.new result.own result.known }
{
    if marks[d as usize] != 0 {
        return DartTest { own: false, known };
    }
    if is_regular(rows, d) {
        let more = go_round(rows, marks, queue, known, d);
        return DartTest {
            own: true,
            known: more,
        };
    }
    let id = walked_id(rows, marks, queue, known, d);
    DartTest {
        own: id == d,
        known,
    }
}
