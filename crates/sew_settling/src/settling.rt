// The plan of a 3-unsew, with the room that there is: its splits are written, or refused.
ghost use Rattle.std.specs.Prelude.{◌≡◌, ◌≤◌, ◌<◌, length};
ghost use Rattle.map_betas.specs.Betas.{darts};
ghost use Rattle.cell_steps.specs.Loans.{Clean};
ghost use Rattle.sew_ground.specs.Sewn.{settles, settled};
ghost use Rattle.sew_pairs.specs.Three.{three_entries};

use cell_steps::cells::Cell;
use map_betas::error::{Answer, Done, Refusal};
use map_betas::rows::Rows;
use sew_splits::splits::write_splits;
use sew_tallies::tallies::{ByPairs, BySplits, tally_pairs};

// How many entries there has to be room for: `most`, which is never too few, where there is room for it, and else as many as there are.
fn wanted(
    rows: Rows,
    marks: &mut [u8],
    queue: &mut [u32],
    room: usize,
    most: usize,
    ld: u32,
    rd: u32,
) -> usize
    requires { (ld < darts rows.list.now) × (rd < darts rows.list.now) × Clean (darts rows.list.now) marks.old queue.old
        × (length (three_entries rows.list.now ld rd) ≤ most) × (most ≤ 100000000) }
    ensures lower_bound { (length (three_entries rows.entry.list.now ld rd) ≤ result) × (room < result → result ≡ length (three_entries rows.entry.list.now ld rd)) }
    ensures marks_unchanged { (marks.new ≡ marks.old) × (queue.new ≡ queue.old) }
{
    if most <= room {
        return most;
    }
    1 + tally_pairs::<BySplits>(rows, marks, queue, ld, rd).count
}

// Writes the plan of a 3-unsew from its start and answers rd with the count; or refuses, and leaves the plan as it was. A pair has at most three splits, and
// the face split says of each side how many pairs were walked.
pub fn settle_splits(
    rows: Rows,
    marks: &mut [u8],
    queue: &mut [u32],
    plan: &mut [u32],
    ld: u32,
    rd: u32,
) -> Answer
    requires { (ld < darts rows.list.now) × (rd < darts rows.list.now) × Clean (darts rows.list.now) marks.old queue.old }
    ensures plan_after { settles result plan.new ≡ settled plan.old rd (three_entries rows.entry.list.now ld rd) }
    ensures marks_unchanged { (marks.new ≡ marks.old) × (queue.new ≡ queue.old) }
{
    let t = tally_pairs::<ByPairs>(rows, marks, queue, ld, rd);
    let room = sew_plan::room(plan);
    let k = wanted(rows, marks, queue, room, 1 + 3 * t.count, ld, rd);
    if room < k {
        return Err(Refusal::PlanRoom(k));
    }
    let count = t.count as u32;
    let left = Cell {
        least: t.left,
        count,
    };
    let right = Cell {
        least: t.right,
        count,
    };
    let n = write_splits(rows, marks, queue, plan, t.l == 0, left, right, ld, rd);
    Ok(Done {
        value: rd,
        count: n,
    })
}
