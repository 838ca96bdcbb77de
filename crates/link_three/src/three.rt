// The 3-link and the 3-unlink: the darts of two faces, pair by pair. Ports dim3/links/three.rs.
ghost use Rattle.std.specs.Prelude.{◌≡◌, cond, ◌<◌};
ghost use Rattle.map_betas.specs.Betas.{darts};
ghost use Rattle.map_betas.specs.Maps.{WellFormed};
ghost use Rattle.map_betas.specs.Answers.{out};
ghost use Rattle.link_walk.specs.Walk.{step_of};
ghost use Rattle.link_walk.specs.Three.{after_core, three_link_on, three_unlink_on};

use link_back::back::back;
use link_walk::pair::Pair;
use link_walk::step::{Linking, Parting, Step};
use link_walk::walk::{undo_leg, walk_leg};
use map_betas::betas::beta_at;
use map_betas::error::{Answer, Done, Refusal};

// The 3-link of the darts of the call, or their 3-unlink where S parts. After a refusal the rows are as they were.
fn three_on<S: Step>(rows: &mut [u32], call: Pair) -> Answer
    requires { WellFormed rows.old × (0 < call.l) × (call.l < darts rows.old) × (call.r < darts rows.old) }
    ensures { out result rows.new ≡ after_core S.parting (cond S.parting call.r 0) rows.old call.l call.r
        (step_of S.parting call.l call.r rows.old call.l call.r) }
{
    S::step(rows, call, call)?;
    let first = call.next(rows, 1, 0);
    let leg = walk_leg::<S>(rows, 1, 0, call.l, call, first);
    let steps = leg.steps + 1;
    if let Err(refusal) = leg.answer {
        undo_leg::<S>(rows, 1, 0, call, steps);
        return Err(refusal);
    }
    if leg.pair.l != 0 {
        return Ok(Done {
            value: S::former(call.r),
            count: 0,
        });
    }
    if leg.pair.r != 0 {
        undo_leg::<S>(rows, 1, 0, call, steps);
        return Err(Refusal::AsymmetricalFaces(call.l, call.r));
    }
    back::<S>(rows, call, steps)
}

// The 3-link of two real darts of a map.
#[tactic(auto, using(link_walk::proofs::ThreeLaws::on_link))]
pub fn three_link_on(rows: &mut [u32], ld: u32, rd: u32) -> Answer
    requires { WellFormed rows.old × (0 < ld) × (ld < darts rows.old) × (0 < rd) × (rd < darts rows.old) }
    ensures { out result rows.new ≡ three_link_on rows.old ld rd }
{
    three_on::<Linking>(rows, Pair { l: ld, r: rd })
}

// The 3-unlink of a real dart of a map; its image is answered.
#[tactic(auto, using(link_walk::proofs::ThreeLaws::on_free, link_walk::proofs::ThreeLaws::on_unlink))]
pub fn three_unlink_on(rows: &mut [u32], ld: u32) -> Answer
    requires { WellFormed rows.old × (0 < ld) × (ld < darts rows.old) }
    ensures { out result rows.new ≡ three_unlink_on rows.old ld }
{
    let rd = beta_at(rows, 3, ld);
    if rd == 0 {
        return Err(Refusal::AlreadyFree(3, ld));
    }
    three_on::<Parting>(rows, Pair { l: ld, r: rd })
}
