// The walk of a 3-link and of a 3-unlink along two faces, and what sets it back after a refusal.
ghost use Rattle.std.specs.Prelude.{◌≡◌, suc, ◌<◌, length};
ghost use Rattle.map_betas.specs.Betas.{darts};
ghost use Rattle.map_betas.specs.Maps.{WellFormed};
ghost use Rattle.link_walk.specs.Walk.{step_of, leg_out, walk};
ghost use Rattle.link_walk.specs.Undo.{Inside, undone};

use crate::pair::Pair;
use crate::step::Step;
use map_betas::betas::set_beta;
use map_betas::error::{Answer, Done};

// Where a leg of the walk stands as it ends, and how many steps it took.
// Stays: a leg that was refused has steps to set back too, so they stand beside its answer and not in an Ok.
#[derive(Clone, Copy)]
pub struct Leg {
    pub answer: Answer,
    pub pair: Pair,
    pub steps: usize,
}

// From the first pair, a step at each pair, l going on by beta i and r by beta j, until l is null or at stop, or a step refuses.
#[tactic(auto, using(crate::proofs::WalkLaws::walk_null, crate::proofs::WalkLaws::walk_stop))]
pub fn walk_leg<S: Step>(
    rows: &mut [u32],
    i: u32,
    j: u32,
    stop: u32,
    call: Pair,
    first: Pair,
) -> Leg
    requires { WellFormed rows.old × (i < 3) × (j < 3) × (first.l < darts rows.old) × (first.r < darts rows.old) }
    ensures { leg_out result rows.new ≡ walk (step_of S.parting call.l call.r) (suc (length rows.old)) rows.old i j stop first.l first.r 0 }
{
    let mut pair = first;
    let mut steps: usize = 0;
    // Stays: a step changes the rows that say which pair is next, so no range and no iterator over them has the pairs.
    while pair.l != 0 && pair.l != stop {
        if let Err(refusal) = S::step(rows, call, pair) {
            return Leg {
                answer: Err(refusal),
                pair,
                steps,
            };
        }
        pair = pair.next(rows, i, j);
        steps += 1;
    }
    Leg {
        answer: Ok(Done::NOTHING),
        pair,
        steps,
    }
}

// Sets as many pairs as steps back to what they were before their step, from the first on.
#[tactic(auto, using(crate::proofs::UndoLaws::undone_none))]
pub fn undo_leg<S: Step>(rows: &mut [u32], i: u32, j: u32, first: Pair, steps: usize)
    requires { Inside (darts rows.old) rows.old × (i < 3) × (j < 3) × (first.l < darts rows.old) × (first.r < darts rows.old) }
    ensures { rows.new ≡ undone S.parting steps rows.old i j first.l first.r }
{
    let mut pair = first;
    for _ in 0..steps {
        let next = pair.next(rows, i, j);
        set_beta(rows, 3, pair.l, S::former(pair.r));
        set_beta(rows, 3, pair.r, S::former(pair.l));
        pair = next;
    }
}
