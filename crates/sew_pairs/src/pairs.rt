// The splits of one pair of darts: at most three.
ghost use Rattle.std.specs.Prelude.{◌≡◌, ◌<◌, true, ◌==◌};
ghost use Rattle.map_betas.specs.Betas.{beta, darts};
ghost use Rattle.cell_steps.specs.declared.cells.Class.TheVariants.{Vertex};
ghost use Rattle.sew_plan.specs.declared.Kind.TheVariants.{Split};
ghost use Rattle.cell_steps.specs.Idents.{cell_of};
ghost use Rattle.cell_steps.specs.Loans.{Clean};
ghost use Rattle.sew_ground.specs.Entries.{listed, all_of, entries_if};
ghost use Rattle.sew_pairs.specs.Pairs.{three_far, pair_entries};

use cell_cores::cores::cell_core;
use cell_steps::cells::Class;
use map_betas::rows::Rows;
use sew_ground::items::{Items, item_if};
use sew_plan::{Entry, Kind};

// The far end of d: by beta 1, or by beta 2 where the face is open.
fn far_of(rows: Rows, d: u32) -> u32
    requires { d < darts rows.list.now }
    ensures { (result ≡ three_far rows.entry.list.now d) × (result < darts rows.entry.list.now) }
{
    rows.beta(1, d).max(rows.beta(2, d))
}

// The split of the cells of two darts of a class, if they differ.
fn split_item(
    rows: Rows,
    class: Class,
    marks: &mut [u8],
    queue: &mut [u32],
    l: u32,
    r: u32,
) -> Option<Entry>
    requires { (l < darts rows.list.now) × (r < darts rows.list.now) × Clean (darts rows.list.now) marks.old queue.old }
    ensures result_value { listed result ≡ entries_if true class Split (cell_of class rows.entry.list.now l) (cell_of class rows.entry.list.now r) }
    ensures marks_unchanged { (marks.new ≡ marks.old) × (queue.new ≡ queue.old) }
{
    let left = cell_core(rows, class, marks, queue, l);
    let right = cell_core(rows, class, marks, queue, r);
    item_if(true, class, Kind::Split, left, right)
}

// The split at the near end of l, where nothing stands before it.
fn open_item(rows: Rows, marks: &mut [u8], queue: &mut [u32], l: u32, r: u32) -> Option<Entry>
    requires { (l < darts rows.list.now) × (r < darts rows.list.now) × Clean (darts rows.list.now) marks.old queue.old }
    ensures result_value { listed result ≡ entries_if (beta rows.entry.list.now 0 l == 0) Vertex Split (cell_of Vertex rows.entry.list.now l)
        (cell_of Vertex rows.entry.list.now (three_far rows.entry.list.now r)) }
    ensures marks_unchanged { (marks.new ≡ marks.old) × (queue.new ≡ queue.old) }
{
    if rows.beta(0, l) != 0 {
        return None;
    }
    let far = far_of(rows, r);
    split_item(rows, Class::Vertex, marks, queue, l, far)
}

// The splits of one pair of darts.
pub fn pair_items(rows: Rows, marks: &mut [u8], queue: &mut [u32], l: u32, r: u32) -> Items
    requires { (l < darts rows.list.now) × (r < darts rows.list.now) × Clean (darts rows.list.now) marks.old queue.old }
    ensures result_value { all_of result ≡ pair_entries rows.entry.list.now l r }
    ensures marks_unchanged { (marks.new ≡ marks.old) × (queue.new ≡ queue.old) }
{
    let first = split_item(rows, Class::Edge, marks, queue, l, r);
    let far = far_of(rows, l);
    let second = split_item(rows, Class::Vertex, marks, queue, far, r);
    let third = open_item(rows, marks, queue, l, r);
    [first, second, third]
}
