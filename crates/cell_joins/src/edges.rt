// An edge joins the queue arm by arm. None of its darts is there before, so that no mark has to be read.
ghost use Rattle.std.specs.Prelude.{◌≡◌, ◌++◌, ◌<◌, take};
ghost use Rattle.map_betas.specs.Betas.{darts};
ghost use Rattle.cell_steps.specs.Steps.{edge};
ghost use Rattle.cell_steps.specs.Search.{In, NoRep};
ghost use Rattle.cell_steps.specs.Loans.{Scratch, Queue, Grown};
ghost use Rattle.cell_edges.specs.Arms.{arm_of, end_of, others};

use cell_scratch::steps::put;
use map_betas::rows::Rows;

// How many darts the queue has, and what ended the arm: null, or the dart that it began with.
#[derive(Clone, Copy)]
struct Followed {
    count: usize,
    end: u32,
}

// Stays: `walk_arm` of cell_edges goes the same way, but keeps a least dart and a count; one loop for both would take a closure and a law of its calls.
// Follows beta 2 and beta 3 in turn from d, beta i first, up to null or d, and puts what it meets behind the queue.
fn follow_arm(rows: Rows, marks: &mut [u8], queue: &mut [u32], k: usize, d: u32, i: u32) -> Followed
    requires { Scratch rows.list.now marks.old queue.old × Queue marks.old queue.old k × (d < darts rows.list.now) × In i edge
        × NoRep (take k queue.old ++ arm_of rows.list.now i d) }
    ensures { Grown queue.old k (take k queue.old ++ arm_of rows.entry.list.now i d)
        marks.new queue.new result.count × (result.end ≡ end_of rows.entry.list.now i d) }
{
    let mut count = k;
    let mut x = d;
    let mut by = i;
    // Stays: the arm ends where null or d comes, so no range has it.
    loop {
        x = rows.beta(by, x);
        if x == 0 || x == d {
            return Followed { count, end: x };
        }
        put(marks, queue, count, x);
        count += 1;
        by = 5 - by;
    }
}

// Puts the other darts of the edge of d behind the queue, and returns how many there are now.
pub fn join_edge(rows: Rows, marks: &mut [u8], queue: &mut [u32], k: usize, d: u32) -> usize
    requires { Scratch rows.list.now marks.old queue.old × Queue marks.old queue.old k × (d < darts rows.list.now)
        × NoRep (take k queue.old ++ others rows.list.now d) }
    ensures { Grown queue.old k (take k queue.old ++ others rows.entry.list.now d) marks.new queue.new result }
{
    let first = follow_arm(rows, marks, queue, k, d, 2);
    if first.end != 0 {
        return first.count;
    }
    let second = follow_arm(rows, marks, queue, first.count, d, 3);
    second.count
}
