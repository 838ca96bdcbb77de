// The search, breadth first, over any list of steps. Ports the loop of dim3/orbits.rs.
ghost use Rattle.std.specs.Prelude.{◌-◌, ◌<◌, ◌≤◌, take};
ghost use Rattle.map_betas.specs.Betas.{darts};
ghost use Rattle.cell_steps.specs.Search.{search};
ghost use Rattle.cell_steps.specs.Loans.{Queue, Grown, Scratch};

use cell_steps::policy::Steps;
use cell_visits::visits::visit;
use map_betas::rows::Rows;

// Visits the darts of the queue from the place `from` on, those that it finds too, and returns how many the queue then has.
pub fn flood(
    rows: Rows,
    steps: Steps<'_>,
    marks: &mut [u8],
    out: &mut [u32],
    from: usize,
    seeds: usize,
) -> usize
    requires { Scratch rows.list.now marks.old out.old × Queue marks.old out.old seeds × (from ≤ seeds) }
    ensures { Grown out.old seeds (search rows.entry.list.now steps.entry.codes.now (darts rows.entry.list.now - from) from
        (take seeds out.old)) marks.new out.new result }
{
    let mut k = from;
    let mut count = seeds;
    // Stays: the loop's end moves as the queue grows, so no range has it.
    while k < count {
        let e = out[k];
        count = visit(rows, steps, marks, out, count, e);
        k += 1;
    }
    count
}
