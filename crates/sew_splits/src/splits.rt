// The plan of a 3-unsew: the face split, then the splits of each pair in the order of the walk.
ghost use Rattle.std.specs.Prelude.{◌≡◌, ◌∷◌, eqb, ◌+◌, ◌*◌, ◌≤◌, ◌<◌, length};
ghost use Rattle.map_betas.specs.Betas.{darts};
ghost use Rattle.sew_plan.specs.Plan.{width};
ghost use Rattle.cell_steps.specs.Loans.{Clean};
ghost use Rattle.sew_ground.specs.Entries.{written_all};
ghost use Rattle.sew_pairs.specs.Pairs.{pair_entries, entries_of, leg_pairs, Over};
ghost use Rattle.sew_pairs.specs.Three.{first_pairs, first_end, back_pairs, pairs_of, splits_of};

use cell_steps::cells::{Cell, Class};
use map_betas::rows::Rows;
use sew_ground::items::put_items;
use sew_pairs::pairs::pair_items;
use sew_plan::{Kind, entry_of, write_entry};
use sew_tallies::tallies::leg_over;

// Writes the splits of one pair from number `at` of the plan on, and gives back the number behind them.
fn write_pair(
    rows: Rows,
    marks: &mut [u8],
    queue: &mut [u32],
    plan: &mut [u32],
    at: usize,
    l: u32,
    r: u32,
) -> usize
    requires { (l < darts rows.list.now) × (r < darts rows.list.now) × Clean (darts rows.list.now) marks.old queue.old
        × (width * (at + length (pair_entries rows.list.now l r)) ≤ length plan.old) }
    ensures value { (result ≡ at + length (pair_entries rows.entry.list.now l r))
        × (plan.new ≡ written_all plan.old at (pair_entries rows.entry.list.now l r)) }
    ensures marks_unchanged { (marks.new ≡ marks.old) × (queue.new ≡ queue.old) }
{
    put_items(plan, at, &pair_items(rows, marks, queue, l, r))
}

// Writes the splits of the pairs of a leg, from l0 and r0 on, and gives back the number behind them.
fn write_leg(
    rows: Rows,
    marks: &mut [u8],
    queue: &mut [u32],
    plan: &mut [u32],
    i: u32,
    j: u32,
    stop: u32,
    at0: usize,
    l0: u32,
    r0: u32,
) -> usize
    requires { (i < 3) × (j < 3) × (l0 < darts rows.list.now) × (r0 < darts rows.list.now)
        × Clean (darts rows.list.now) marks.old queue.old × (width * (at0 + length (entries_of rows.list.now (leg_pairs rows.list.now i j stop l0 r0))) ≤ length plan.old) × Over rows.list.now i stop l0 }
    ensures value { (result ≡ at0 + length (entries_of rows.entry.list.now (leg_pairs rows.entry.list.now i j stop l0 r0)))
        × (plan.new ≡ written_all plan.old at0
        (entries_of rows.entry.list.now (leg_pairs rows.entry.list.now i j stop l0 r0))) }
    ensures marks_unchanged { (marks.new ≡ marks.old) × (queue.new ≡ queue.old) }
{
    let mut l = l0;
    let mut r = r0;
    let mut at = at0;
    // Stays: a pair is read from the rows at the pair before it, which no range and no method of a slice goes by.
    while !leg_over(l, stop) {
        at = write_pair(rows, marks, queue, plan, at, l, r);
        l = rows.beta(i, l);
        r = rows.beta(j, r);
    }
    at
}

// Writes the splits of the second leg, where the face is open, and gives back the number behind them.
fn write_back(
    rows: Rows,
    marks: &mut [u8],
    queue: &mut [u32],
    plan: &mut [u32],
    opened: bool,
    at: usize,
    ld: u32,
    rd: u32,
) -> usize
    requires { (ld < darts rows.list.now) × (rd < darts rows.list.now) × Clean (darts rows.list.now) marks.old queue.old
        × (width * (at + length (entries_of rows.list.now (back_pairs rows.list.now ld rd))) ≤ length plan.old) × (opened ≡ eqb (first_end rows.list.now ld) 0) }
    ensures value { (result ≡ at + length (entries_of rows.entry.list.now (back_pairs rows.entry.list.now ld rd)))
        × (plan.new ≡ written_all plan.old at (entries_of rows.entry.list.now (back_pairs rows.entry.list.now ld rd))) }
    ensures marks_unchanged { (marks.new ≡ marks.old) × (queue.new ≡ queue.old) }
{
    if !opened {
        return at;
    }
    let l = rows.beta(0, ld);
    let r = rows.beta(1, rd);
    write_leg(rows, marks, queue, plan, 0, 1, 0, at, l, r)
}

// Writes the splits of ld and rd and of the first leg from number 1 of the plan on, and gives back the number behind them.
fn write_first(
    rows: Rows,
    marks: &mut [u8],
    queue: &mut [u32],
    plan: &mut [u32],
    ld: u32,
    rd: u32,
) -> usize
    requires { (ld < darts rows.list.now) × (rd < darts rows.list.now) × Clean (darts rows.list.now) marks.old queue.old
        × (width * (1 + length (entries_of rows.list.now ((ld, rd) ∷ first_pairs rows.list.now ld rd))) ≤ length plan.old) }
    ensures value { (result ≡ 1 + length (entries_of rows.entry.list.now ((ld, rd) ∷ first_pairs rows.entry.list.now ld rd)))
        × (plan.new ≡ written_all plan.old 1 (entries_of rows.entry.list.now ((ld, rd) ∷ first_pairs rows.entry.list.now ld rd))) }
    ensures marks_unchanged { (marks.new ≡ marks.old) × (queue.new ≡ queue.old) }
{
    let at = write_pair(rows, marks, queue, plan, 1, ld, rd);
    let l = rows.beta(1, ld);
    let r = rows.beta(0, rd);
    write_leg(rows, marks, queue, plan, 1, 0, ld, at, l, r)
}

// Writes the face split and the splits of every pair, and gives back how many there are.
pub fn write_splits(
    rows: Rows,
    marks: &mut [u8],
    queue: &mut [u32],
    plan: &mut [u32],
    opened: bool,
    left: Cell,
    right: Cell,
    ld: u32,
    rd: u32,
) -> usize
    requires { (ld < darts rows.list.now) × (rd < darts rows.list.now) × Clean (darts rows.list.now) marks.old queue.old
        × (width * length (splits_of rows.list.now left right (pairs_of rows.list.now ld rd)) ≤ length plan.old) × (opened ≡ eqb (first_end rows.list.now ld) 0) }
    ensures value { (result ≡ length (splits_of rows.entry.list.now left right (pairs_of rows.entry.list.now ld rd)))
        × (plan.new ≡ written_all plan.old 0 (splits_of rows.entry.list.now left right (pairs_of rows.entry.list.now ld rd))) }
    ensures marks_unchanged { (marks.new ≡ marks.old) × (queue.new ≡ queue.old) }
{
    write_entry(plan, 0, entry_of(Class::Face, Kind::Split, left, right));
    let at = write_first(rows, marks, queue, plan, ld, rd);
    write_back(rows, marks, queue, plan, opened, at, ld, rd)
}
