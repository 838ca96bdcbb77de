// The calls: unsews for any rows, flags, loans and darts.
// Stays: three calls beside each other, since callers and C know each by its name; what they share is `operate_bare`.
ghost use Rattle.std.specs.Prelude.{◌≡◌};
ghost use Rattle.map_betas.specs.Answers.{outcome};
ghost use Rattle.sew_ground.specs.Calls.{one_unsew, two_unsew};
ghost use Rattle.sew_pairs.specs.Calls.{three_unsew};

use map_betas::error::Answer;
use sew_operations::operations::Operation;
use sew_tested::tested::operate_bare;

// The 1-unsew.
pub fn one_unsew(
    rows: &mut [u32],
    marks: &mut [u8],
    queue: &mut [u32],
    flags: &[u8],
    plan: &mut [u32],
    ld: u32,
) -> Answer
    ensures { outcome result (rows.new, marks.new, queue.new, plan.new)
        ≡ one_unsew rows.old marks.old queue.old flags.now plan.old ld }
{
    operate_bare(Operation::OneUnsew, rows, marks, queue, flags, plan, ld, ld)
}

// The 2-unsew.
pub fn two_unsew(
    rows: &mut [u32],
    marks: &mut [u8],
    queue: &mut [u32],
    flags: &[u8],
    plan: &mut [u32],
    ld: u32,
) -> Answer
    ensures { outcome result (rows.new, marks.new, queue.new, plan.new)
        ≡ two_unsew rows.old marks.old queue.old flags.now plan.old ld }
{
    operate_bare(Operation::TwoUnsew, rows, marks, queue, flags, plan, ld, ld)
}

// The 3-unsew.
pub fn three_unsew(
    rows: &mut [u32],
    marks: &mut [u8],
    queue: &mut [u32],
    flags: &[u8],
    plan: &mut [u32],
    ld: u32,
) -> Answer
    ensures { outcome result (rows.new, marks.new, queue.new, plan.new)
        ≡ three_unsew rows.old marks.old queue.old flags.now plan.old ld }
{
    operate_bare(
        Operation::ThreeUnsew,
        rows,
        marks,
        queue,
        flags,
        plan,
        ld,
        ld,
    )
}
