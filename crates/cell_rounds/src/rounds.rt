// The chain of a face by beta 1: whether it is regular, and its darts.
ghost use Rattle.std.specs.Prelude.{◌≡◌, ◌<◌, take};
ghost use Rattle.map_betas.specs.Betas.{darts};
ghost use Rattle.cell_steps.specs.Loans.{Queue, Grown, Scratch};
ghost use Rattle.cell_faces.specs.Faces.{regular};
ghost use Rattle.cell_faces.specs.FaceLists.{go_round};

use cell_scratch::steps::push;
use map_betas::rows::Rows;

// Whether the chain of d is closed and each of its beta 1 steps is a beta 0 step between the beta 3 images. The chain comes to null or back to d.
pub fn is_regular(rows: Rows, d: u32) -> bool
    requires { d < darts rows.list.now }
    ensures { result ≡ regular rows.entry.list.now d }
{
    let mut x = d;
    // Stays: the chain ends at null or at d, so no range has it.
    loop {
        let y = rows.beta(1, x);
        if y == 0 {
            return false;
        }
        let t = rows.beta(3, x);
        if rows.beta(3, y) != rows.beta(0, t) {
            return false;
        }
        if y == d {
            return true;
        }
        x = y;
    }
}

// Puts the darts of d's chain behind the queue, each with its beta 3 image, from d on until null or once round.
pub fn go_round(rows: Rows, marks: &mut [u8], queue: &mut [u32], known: usize, d: u32) -> usize
    requires { Scratch rows.list.now marks.old queue.old × (d < darts rows.list.now) × Queue marks.old queue.old known }
    ensures { Grown queue.old known (go_round rows.entry.list.now d (take known queue.old))
        marks.new queue.new result }
{
    let mut k = known;
    let mut x = d;
    // Stays: the chain ends at null or at d, so no range has it.
    loop {
        let a = push(marks, queue, k, x);
        k = push(marks, queue, a, rows.beta(3, x));
        x = rows.beta(1, x);
        if x == d {
            return k;
        }
        if x == 0 {
            return k;
        }
    }
}
