// The walk of `face_id`: from d and its beta 3 image forward, and backward where that ends on a null dart.
ghost use Rattle.std.specs.Prelude.{◌≡◌, ◌<◌, ◌≤◌, length, take};
ghost use Rattle.map_betas.specs.Betas.{darts};
ghost use Rattle.cell_steps.specs.Loans.{Queue, Grown, Scratch};
ghost use Rattle.cell_faces.specs.Faces.{Walked, insert as insertOf, lower as lowerOf, leg as legOf};

use cell_scratch::steps::push;
use map_betas::rows::Rows;

// Where a leg stands: how many darts are marked, its two darts, and the least so far.
#[derive(Clone, Copy)]
pub struct Walker {
    pub k: usize,
    pub l: u32,
    pub r: u32,
    pub low: u32,
}

// Marks l and puts it into the queue, or else r.
fn insert(marks: &mut [u8], queue: &mut [u32], k: usize, l: u32, r: u32) -> usize
    requires { Queue marks.old queue.old k × (l < length marks.old) × (r < length marks.old) × (length marks.old ≤ length queue.old) }
    ensures { Grown queue.old k (insertOf (take k queue.old) l r) marks.new queue.new result }
{
    let a = push(marks, queue, k, l);
    if k < a {
        return a;
    }
    push(marks, queue, k, r)
}

// The lesser of low and x, where x is not null.
pub fn lower(low: u32, x: u32) -> u32
    ensures { result ≡ lowerOf low x }
{
    if x == 0 {
        return low;
    }
    low.min(x)
}

// A leg of the walk: l by beta i and r by beta j, while one of them is new.
pub fn leg(rows: Rows, marks: &mut [u8], queue: &mut [u32], i: u32, j: u32, start: Walker) -> Walker
    requires { Scratch rows.list.now marks.old queue.old × (i < 4) × (j < 4) × (start.l < darts rows.list.now)
        × (start.r < darts rows.list.now) × Queue marks.old queue.old start.k }
    ensures { Walked (legOf rows.entry.list.now i j (darts rows.entry.list.now)
        (record { seen = take start.k queue.old; l = start.l; r = start.r; low = start.low }))
        queue.old start.k marks.new queue.new result.k result.l result.r result.low }
{
    let mut at = start;
    // Stays: the leg ends where both darts are known, so no range has it.
    loop {
        let more = insert(marks, queue, at.k, at.l, at.r);
        if more <= at.k {
            return at;
        }
        let l = rows.beta(i, at.l);
        let r = rows.beta(j, at.r);
        let low = lower(lower(at.low, l), r);
        at = Walker { k: more, l, r, low };
    }
}
