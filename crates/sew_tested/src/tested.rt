// An operation behind its tests: one guard and one wiping of scratch for all of them.
ghost use Rattle.std.specs.Prelude.{◌≡◌, ◌/◌, ◌≤◌, length};
ghost use Rattle.map_betas.specs.Betas.{darts};
ghost use Rattle.map_betas.specs.Answers.{outcome};
ghost use Rattle.map_betas.specs.Maps.{WellFormed};
ghost use Rattle.map_betas.specs.Guards.{Dart};
ghost use Rattle.sew_ground.specs.Sewn.{sewn};
ghost use Rattle.sew_ground.specs.Calls.{sew_done};
ghost use Rattle.sew_operations.specs.Operations.{work_of, Slots, operation as operationOf, bare};

use map_betas::error::Answer;
use map_guard::guard::guard;
use sew_operations::operations::{Operation, loans_of, run};

// An operation behind its tests: scratch is wiped, and its first n places are lent on.
fn run_wiped(
    operation: Operation,
    rows: &mut [u32],
    marks: &mut [u8],
    queue: &mut [u32],
    vertices: &[u8],
    coordinates: &[f64],
    plan: &mut [u32],
    ld: u32,
    rd: u32,
) -> Answer
    requires { WellFormed rows.old × (darts rows.old ≤ length marks.old) × (darts rows.old ≤ length queue.old)
        × Dart (darts rows.old) 1 ld × Dart (darts rows.old) 1 rd
        × Slots operation (darts rows.old) (length vertices.now) (length coordinates.now) }
    ensures { outcome result (rows.new, marks.new, queue.new, plan.new)
        ≡ sew_done (darts rows.old) marks.old queue.old (sewn rows.old plan.old
        (work_of operation vertices.now coordinates.now rows.old ld rd)) }
{
    let n = rows.len() / 4;
    marks[..n].fill(0);
    queue[..n].fill(0);
    run(
        operation,
        rows,
        &mut marks[..n],
        &mut queue[..n],
        vertices,
        coordinates,
        plan,
        ld,
        rd,
    )
}

// An operation for any rows, flags, loans and darts.
pub fn operate(
    operation: Operation,
    rows: &mut [u32],
    marks: &mut [u8],
    queue: &mut [u32],
    flags: &[u8],
    vertices: &[u8],
    coordinates: &[f64],
    plan: &mut [u32],
    ld: u32,
    rd: u32,
) -> Answer
    ensures { outcome result (rows.new, marks.new, queue.new, plan.new)
        ≡ operationOf operation rows.old marks.old queue.old flags.now vertices.now
        coordinates.now plan.old ld rd }
{
    let loans = loans_of(
        operation,
        marks.len(),
        queue.len(),
        vertices.len(),
        coordinates.len(),
    );
    guard(rows, flags, loans, 1, ld, rd)?;
    run_wiped(
        operation,
        rows,
        marks,
        queue,
        vertices,
        coordinates,
        plan,
        ld,
        rd,
    )
}

// An operation that has no vertices: it is lent one slot, which no test and no core looks at.
pub fn operate_bare(
    operation: Operation,
    rows: &mut [u32],
    marks: &mut [u8],
    queue: &mut [u32],
    flags: &[u8],
    plan: &mut [u32],
    ld: u32,
    rd: u32,
) -> Answer
    ensures { outcome result (rows.new, marks.new, queue.new, plan.new)
        ≡ bare operation rows.old marks.old queue.old flags.now plan.old ld rd }
{
    let vertices = [0u8; 1];
    let coordinates = [0.0; 1];
    operate(
        operation,
        rows,
        marks,
        queue,
        flags,
        &vertices,
        &coordinates,
        plan,
        ld,
        rd,
    )
}
