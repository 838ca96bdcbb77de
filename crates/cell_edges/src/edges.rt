// An edge, walked by beta 2 and beta 3 in turn.
ghost use Rattle.std.specs.Prelude.{◌≡◌, ◌+◌, ◌<◌, ◌≤◌, length};
ghost use Rattle.map_betas.specs.Betas.{darts};
ghost use Rattle.cell_steps.specs.declared.cells.Class.TheVariants.{Edge};
ghost use Rattle.cell_steps.specs.Steps.{edge};
ghost use Rattle.cell_steps.specs.Search.{In};
ghost use Rattle.cell_steps.specs.Idents.{least_from, cell_of};
ghost use Rattle.cell_edges.specs.Arms.{arm_of, end_of};

use cell_steps::cells::Cell;
use map_betas::rows::Rows;

// How far a walk has come: the least dart and the number of those that it met, and the image that ended it.
#[derive(Clone, Copy)]
struct Walk {
    met: Cell,
    end: u32,
}

// Goes on from d by beta 2 and beta 3 in turn, beta i first, until null comes or d again. Least dart and count begin with what was met before.
fn walk_arm(rows: Rows, i: u32, d: u32, before: Cell) -> Walk
    requires { (d < darts rows.list.now) × In i edge × (before.count ≤ darts rows.list.now) }
    ensures { (result.met.least ≡ least_from before.least (arm_of rows.entry.list.now i d))
        × (result.met.count ≡ before.count + length (arm_of rows.entry.list.now i d)) × (result.end ≡ end_of rows.entry.list.now i d) }
{
    let mut met = before;
    let mut by = i;
    let mut x = d;
    // Stays: the arm ends where null or d comes, so no range has it.
    loop {
        x = rows.beta(by, x);
        if x == 0 || x == d {
            return Walk { met, end: x };
        }
        met = Cell {
            least: met.least.min(x),
            count: met.count + 1,
        };
        by = 5 - by;
    }
}

// The edge of d, which is real: its least dart and how many darts it has. Where the first arm came to null, the second meets the darts on the other side of d.
pub fn edge_core(rows: Rows, d: u32) -> Cell
    requires { (d < darts rows.list.now) × (0 < d) }
    ensures { result ≡ cell_of Edge rows.entry.list.now d }
{
    let first = walk_arm(rows, 2, d, Cell { least: d, count: 1 });
    if first.end != 0 {
        return first.met;
    }
    let second = walk_arm(rows, 3, d, first.met);
    second.met
}
