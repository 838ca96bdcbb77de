// What a walk does at each pair: a 3-link links it, a 3-unlink parts it.
ghost use Rattle.std.specs.Prelude.{◌≡◌, ◌<◌, Bool, true, false, cond};
ghost use Rattle.map_betas.specs.Betas.{darts};
ghost use Rattle.map_betas.specs.Maps.{WellFormed};
ghost use Rattle.map_betas.specs.Answers.{out};
ghost use Rattle.link_walk.specs.Walk.{step_of};

use crate::pair::Pair;
use map_betas::betas::{beta_at, link_core, unlink_core};
use map_betas::error::{Answer, Refusal};

// The step of a walk. `parting` says that it parts its pair.
pub trait Step {
    ghost parting: { Bool };

    // A step at a pair of a walk that began at `call`, which a refusal names.
    fn step(rows: &mut [u32], call: Pair, pair: Pair) -> Answer
        requires { WellFormed rows.old × (pair.l < darts rows.old) × (pair.r < darts rows.old) }
        ensures { out result rows.new ≡ step_of parting call.l call.r rows.old pair.l pair.r };

    // The beta 3 image that a dart of a pair had before its step, where d is the pair's other dart.
    fn former(d: u32) -> u32
        ensures { result ≡ cond parting d 0 };
}

// The step of a 3-link.
pub struct Linking;

impl Step for Linking {
    ghost parting = { false };

    // Links a pair, which has to have a right dart.
    #[tactic(auto, using(crate::proofs::StepLaws::step_null, crate::proofs::StepLaws::step_link))]
    fn step(rows: &mut [u32], call: Pair, pair: Pair) -> Answer {
        if pair.r == 0 {
            return Err(Refusal::AsymmetricalFaces(call.l, call.r));
        }
        link_core(rows, 3, pair.l, pair.r)
    }

    // Its pair was free.
    fn former(_d: u32) -> u32 {
        0
    }
}

// The step of a 3-unlink.
pub struct Parting;

impl Step for Parting {
    ghost parting = { true };

    // Parts a pair, which has to be linked.
    #[tactic(auto, using(crate::proofs::StepLaws::step_stray, crate::proofs::StepLaws::step_unlink))]
    fn step(rows: &mut [u32], call: Pair, pair: Pair) -> Answer {
        if pair.l != beta_at(rows, 3, pair.r) {
            return Err(Refusal::AsymmetricalFaces(call.l, call.r));
        }
        unlink_core(rows, 3, pair.l)
    }

    // Its pair was linked.
    fn former(d: u32) -> u32 {
        d
    }
}
