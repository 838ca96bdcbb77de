// The face identifier: the walk both ways along a face.
ghost use Rattle.std.specs.Prelude.{◌≡◌, ◌<◌, take};
ghost use Rattle.map_betas.specs.Betas.{darts};
ghost use Rattle.cell_steps.specs.Loans.{Queue, Zero, Scratch};
ghost use Rattle.cell_faces.specs.Faces.{Walked, face_walk, face_id};

use cell_faces::walk::{Walker, leg, lower};
use cell_scratch::scratch::clear;
use map_betas::rows::Rows;

// Both legs of d, with what stands in the queue's first `known` places marked before.
pub fn walk(rows: Rows, marks: &mut [u8], queue: &mut [u32], known: usize, d: u32) -> Walker
    requires { Scratch rows.list.now marks.old queue.old × (d < darts rows.list.now) × Queue marks.old queue.old known }
    ensures { Walked (face_walk rows.entry.list.now (take known queue.old) d) queue.old known
        marks.new queue.new result.k result.l result.r result.low }
{
    let b = rows.beta(3, d);
    let start = Walker {
        k: known,
        l: d,
        r: b,
        low: lower(d, b),
    };
    let one = leg(rows, marks, queue, 1, 0, start);
    if one.l != 0 && one.r != 0 {
        return one;
    }
    let again = Walker {
        l: rows.beta(0, d),
        r: rows.beta(1, b),
        ..one
    };
    leg(rows, marks, queue, 0, 1, again)
}

// The face identifier of d. Marks and queue are 0 before and after.
pub fn face_core(rows: Rows, marks: &mut [u8], queue: &mut [u32], d: u32) -> u32
    requires { Scratch rows.list.now marks.old queue.old × (d < darts rows.list.now) × Zero marks.old × Zero queue.old }
    ensures { (marks.new ≡ marks.old) × (queue.new ≡ queue.old) × (result ≡ face_id rows.entry.list.now d) }
{
    let w = walk(rows, marks, queue, 0, d);
    clear(marks, &queue[..w.k]);
    queue[..w.k].fill(0);
    w.low
}
