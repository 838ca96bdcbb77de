// The calls: sews for any rows, flags, loans and darts.
ghost use Rattle.std.specs.Prelude.{◌≡◌};
ghost use Rattle.map_betas.specs.Answers.{outcome};
ghost use Rattle.sew_ground.specs.Calls.{one_sew, two_sew};

use map_betas::error::Answer;
use sew_operations::operations::Operation;
use sew_tested::tested::{operate, operate_bare};

// The 1-sew.
pub fn one_sew(
    rows: &mut [u32],
    marks: &mut [u8],
    queue: &mut [u32],
    flags: &[u8],
    plan: &mut [u32],
    ld: u32,
    rd: u32,
) -> Answer
    ensures { outcome result (rows.new, marks.new, queue.new, plan.new)
        ≡ one_sew rows.old marks.old queue.old flags.now plan.old ld rd }
{
    operate_bare(Operation::OneSew, rows, marks, queue, flags, plan, ld, rd)
}

// The 2-sew.
pub fn two_sew(
    rows: &mut [u32],
    marks: &mut [u8],
    queue: &mut [u32],
    flags: &[u8],
    vertices: &[u8],
    coordinates: &[f64],
    plan: &mut [u32],
    ld: u32,
    rd: u32,
) -> Answer
    ensures { outcome result (rows.new, marks.new, queue.new, plan.new)
        ≡ two_sew rows.old marks.old queue.old flags.now vertices.now coordinates.now
        plan.old ld rd }
{
    operate(
        Operation::TwoSew,
        rows,
        marks,
        queue,
        flags,
        vertices,
        coordinates,
        plan,
        ld,
        rd,
    )
}
