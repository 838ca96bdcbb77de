// Cell lists of a class whose steps lead back: each orbit is visited once, so that a list takes time linear in the darts. Ports `iter_vertices`, `iter_edges`
// and `iter_volumes` of dim3/basic_ops.rs.
#![tactic(auto)]

ghost use Rattle.std.specs.Prelude.{◌≡◌, ◌&&◌, eqb, ◌<◌, ◌≤◌, length};
ghost use Rattle.map_betas.specs.Betas.{darts};
ghost use Rattle.cell_steps.specs.Steps.{cell_steps};
ghost use Rattle.cell_steps.specs.Search.{Symmetric};
ghost use Rattle.cell_steps.specs.Loans.{Scratch, Zero, Listed};
ghost use Rattle.cell_steps.specs.Calls.{wiped};
ghost use Rattle.cell_lists.specs.CellLists.{cell_list, Put};

use cell_growth::grow;
use cell_steps::cells::Class;
use cell_steps::policy::{OrbitPolicy, Steps, steps_of};
use map_betas::rows::Rows;

// Puts x behind the first count places, where it is a cell's own and not unused.
pub fn put_own(output: &mut [u32], count: usize, x: u32, own: bool, flag: u8) -> usize
    requires { count < length output.old }
    ensures { Put (own && eqb flag 0) x output.old count output.new result }
{
    if !own || flag != 0 {
        return count;
    }
    output[count] = x;
    count + 1
}

// Lists the orbits under steps that lead back: each dart that is not unused and is the least of its orbit, in order. The null dart begins the queue, which has
// n places of 0 in front afterwards.
fn list_by(
    rows: Rows,
    steps: Steps<'_>,
    marks: &mut [u8],
    queue: &mut [u32],
    output: &mut [u32],
    flags: &[u8],
) -> usize
    requires { Scratch rows.list.now marks.old queue.old × Symmetric rows.list.now steps.codes.now × Zero marks.old
        × (darts rows.list.now ≤ length output.old) × (darts rows.list.now ≤ length flags.now) }
    ensures { (marks.new ≡ marks.old) × (queue.new ≡ wiped (darts rows.entry.list.now) queue.old)
        × Listed (cell_list rows.entry.list.now steps.entry.codes.now flags.now) output.old output.new result }
{
    let n = marks.len();
    marks[0] = 1;
    queue[0] = 0;
    let mut found = 1;
    let mut count = 0;
    for d in 1..n {
        let x = d as u32;
        let more = grow(rows, steps, marks, queue, found, x);
        count = put_own(output, count, x, found < more, flags[d]);
        found = more;
    }
    marks.fill(0);
    queue[..n].fill(0);
    count
}

// Lists the cells of a class, by their least darts.
pub fn list_core(
    rows: Rows,
    class: Class,
    marks: &mut [u8],
    queue: &mut [u32],
    output: &mut [u32],
    flags: &[u8],
) -> usize
    requires { Scratch rows.list.now marks.old queue.old × (darts rows.list.now ≤ length output.old)
        × (darts rows.list.now ≤ length flags.now) × Zero marks.old }
    ensures { (marks.new ≡ marks.old) × (queue.new ≡ wiped (darts rows.entry.list.now) queue.old)
        × Listed (cell_list rows.entry.list.now (cell_steps class) flags.now) output.old output.new result }
{
    let steps = steps_of(OrbitPolicy::from(class));
    list_by(rows, steps, marks, queue, output, flags)
}
