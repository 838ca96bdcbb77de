// A volume by beta 1 and beta 2 alone. Where no chain of beta 1 ends, beta 0 leads to no dart that these do not find.
ghost use Rattle.std.specs.Prelude.{◌≡◌, ◌-◌, ◌<◌, ◌≤◌, take};
ghost use Rattle.map_betas.specs.Betas.{darts};
ghost use Rattle.cell_steps.specs.Steps.{volume_linear};
ghost use Rattle.cell_steps.specs.Search.{In, search, visit};
ghost use Rattle.cell_steps.specs.Loans.{Scratch, Queue, Grown};
ghost use Rattle.cell_joins.specs.Joins.{ended};

use crate::meet::meet;
use map_betas::rows::Rows;

// How many darts the queue has, and whether one of those visited has no beta 1 image.
#[derive(Clone, Copy)]
pub struct Flooded {
    pub count: usize,
    pub ends: bool,
}

// Visits d by beta 1 and beta 2.
fn visit_forward(rows: Rows, marks: &mut [u8], queue: &mut [u32], count: usize, d: u32) -> usize
    requires { Scratch rows.list.now marks.old queue.old × Queue marks.old queue.old count × (d < darts rows.list.now) × In 0 (take count queue.old) }
    ensures { Grown queue.old count (visit rows.entry.list.now volume_linear d (take count queue.old)) marks.new
        queue.new result }
{
    let x = rows.beta(1, d);
    let y = rows.beta(2, d);
    let k = meet(marks, queue, count, x);
    meet(marks, queue, k, y)
}

// Visits the darts of the queue by beta 1 and beta 2 from the place `from` on, those that it finds too.
pub fn flood_forward(
    rows: Rows,
    marks: &mut [u8],
    queue: &mut [u32],
    from: usize,
    seeds: usize,
) -> Flooded
    requires { Scratch rows.list.now marks.old queue.old × Queue marks.old queue.old seeds × (from ≤ seeds) × In 0 (take seeds queue.old) }
    ensures { Grown queue.old seeds (search rows.entry.list.now volume_linear (darts rows.entry.list.now - from) from
        (take seeds queue.old)) marks.new queue.new result.count
        × (result.ends ≡ ended rows.entry.list.now (take result.count queue.new) from (result.count - from)) }
{
    let mut k = from;
    let mut count = seeds;
    let mut ends = false;
    // Stays: the loop's end moves as the queue grows, so no range has it.
    while k < count {
        let e = queue[k];
        if rows.beta(1, e) == 0 {
            ends = true;
        }
        count = visit_forward(rows, marks, queue, count, e);
        k += 1;
    }
    Flooded { count, ends }
}
