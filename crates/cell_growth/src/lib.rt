// The queue of a list, grown by the cell of one dart.
#![tactic(auto)]

ghost use Rattle.std.specs.Prelude.{◌<◌, take};
ghost use Rattle.map_betas.specs.Betas.{darts};
ghost use Rattle.cell_steps.specs.Search.{In};
ghost use Rattle.cell_steps.specs.Loans.{Scratch, Queue};
ghost use Rattle.cell_joins.specs.Joins.{Whole, Grew};

use cell_joins::edges::join_edge;
use cell_joins::meet::meet;
use cell_joins::volumes::flood_forward;
use cell_search::search::flood;
use cell_steps::policy::{OrbitPolicy, Steps};
use map_betas::rows::Rows;

// Puts d into the queue, unless it is there, with all that the steps reach from it. The order is of no matter to a list, so that an edge is walked and a
// volume searched by fewer steps.
pub fn grow(
    rows: Rows,
    steps: Steps<'_>,
    marks: &mut [u8],
    queue: &mut [u32],
    found: usize,
    d: u32,
) -> usize
    requires { Scratch rows.list.now marks.old queue.old × Queue marks.old queue.old found × (0 < d) × (d < darts rows.list.now)
        × Whole rows.list.now steps.codes.now (take found queue.old) × In 0 (take found queue.old) }
    ensures { Grew rows.entry.list.now steps.entry.codes.now d queue.old found marks.new queue.new result }
{
    let k = meet(marks, queue, found, d);
    if k == found {
        return found;
    }
    match steps.policy {
        OrbitPolicy::Edge => join_edge(rows, marks, queue, k, d),
        OrbitPolicy::Volume => {
            let t = flood_forward(rows, marks, queue, found, k);
            if t.ends {
                return flood(rows, steps, marks, queue, found, t.count);
            }
            t.count
        }
        _ => flood(rows, steps, marks, queue, found, k),
    }
}
