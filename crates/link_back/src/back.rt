// The second leg: back from the darts of the call along an open face, once the first leg is over.
ghost use Rattle.std.specs.Prelude.{◌≡◌, cond, ◌<◌};
ghost use Rattle.map_betas.specs.Betas.{darts};
ghost use Rattle.map_betas.specs.Maps.{WellFormed};
ghost use Rattle.map_betas.specs.Answers.{out};
ghost use Rattle.link_walk.specs.Undo.{undone};
ghost use Rattle.link_walk.specs.Three.{leg_back, last_leg};

use link_walk::pair::Pair;
use link_walk::step::Step;
use link_walk::walk::{undo_leg, walk_leg};
use map_betas::error::{Answer, Done};

// The second leg, back from the pair of the call. After a refusal the pairs of both legs are set back, of the first as many as steps.
pub fn back<S: Step>(rows: &mut [u32], call: Pair, steps: usize) -> Answer
    requires { WellFormed rows.old × (call.l < darts rows.old) × (call.r < darts rows.old) }
    ensures { out result rows.new ≡ last_leg (cond S.parting call.r 0) (undone S.parting steps rows.old 1 0 call.l call.r)
        (leg_back S.parting rows.old call.l call.r) }
{
    let first = call.next(rows, 0, 1);
    let leg = walk_leg::<S>(rows, 0, 1, 0, call, first);
    if let Err(refusal) = leg.answer {
        undo_leg::<S>(rows, 0, 1, first, leg.steps);
        undo_leg::<S>(rows, 1, 0, call, steps);
        return Err(refusal);
    }
    Ok(Done {
        value: S::former(call.r),
        count: 0,
    })
}
