// The cores: an orbit as a list, and a cell by its class: its least dart and its count. They are lent n marks that are 0, and leave scratch as it was. An edge
// needs none.
ghost use Rattle.std.specs.Prelude.{◌≡◌, ◌<◌, length};
ghost use Rattle.map_betas.specs.Betas.{darts};
ghost use Rattle.cell_steps.specs.Search.{orbit};
ghost use Rattle.cell_steps.specs.Idents.{least as leastOf, cell_of};
ghost use Rattle.cell_steps.specs.Loans.{Zero, Scratch, Clean, Listed};

use cell_edges::edges::edge_core;
use cell_scratch::scratch::clear;
use cell_search::search::flood;
use cell_steps::cells::{Cell, Class};
use cell_steps::policy::{OrbitPolicy, Steps, steps_of};
use map_betas::rows::Rows;

// Lists the orbit of d under the steps of the policy, and returns how many darts it has.
pub fn orbit_core(
    rows: Rows,
    steps: Steps<'_>,
    marks: &mut [u8],
    output: &mut [u32],
    d: u32,
) -> usize
    requires { Scratch rows.list.now marks.old output.old × (d < darts rows.list.now) × Zero marks.old }
    ensures { (marks.new ≡ marks.old)
        × Listed (orbit rows.entry.list.now steps.entry.codes.now d) output.old output.new result }
{
    marks[d as usize] = 1;
    output[0] = d;
    let count = flood(rows, steps, marks, output, 0, 1);
    clear(marks, &output[..count]);
    count
}

// The least dart of the list.
fn least(list: &[u32]) -> u32
    requires { 0 < length list.now }
    ensures { result ≡ leastOf list.now }
{
    list.iter().copied().min().unwrap()
}

// The cell of a real dart d of a class by the search: its least dart, and how many darts it has. Marks and queue are 0 before and after.
fn search_core(rows: Rows, class: Class, marks: &mut [u8], queue: &mut [u32], d: u32) -> Cell
    requires { (d < darts rows.list.now) × Clean (darts rows.list.now) marks.old queue.old × (0 < d) }
    ensures value { result ≡ cell_of class rows.entry.list.now d }
    ensures marks_unchanged { (marks.new ≡ marks.old) × (queue.new ≡ queue.old) }
{
    let steps = steps_of(OrbitPolicy::from(class));
    let size = orbit_core(rows, steps, marks, queue, d);
    let low = least(&queue[..size]);
    queue[..size].fill(0);
    Cell {
        least: low,
        count: size as u32,
    }
}

// The cell of d of a class: its least dart, and how many darts it has; 0 and 0 of the null dart. Marks and queue are 0 before and after; an edge is walked,
// and leaves them alone.
pub fn cell_core(rows: Rows, class: Class, marks: &mut [u8], queue: &mut [u32], d: u32) -> Cell
    requires { (d < darts rows.list.now) × Clean (darts rows.list.now) marks.old queue.old }
    ensures value { result ≡ cell_of class rows.entry.list.now d }
    ensures marks_unchanged { (marks.new ≡ marks.old) × (queue.new ≡ queue.old) }
{
    if d == 0 {
        return Cell { least: 0, count: 0 };
    }
    match class {
        Class::Edge => edge_core(rows, d),
        _ => search_core(rows, class, marks, queue, d),
    }
}
