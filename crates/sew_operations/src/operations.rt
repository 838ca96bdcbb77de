// The operations on a map that have a plan, and the one function that runs them.
ghost use Rattle.std.specs.Prelude.{◌≡◌, length};
ghost use Rattle.map_betas.specs.Betas.{darts};
ghost use Rattle.map_betas.specs.Maps.{WellFormed};
ghost use Rattle.map_betas.specs.Guards.{Dart};
ghost use Rattle.cell_steps.specs.Loans.{Clean};
ghost use Rattle.sew_ground.specs.Sewn.{leaves, sewn};
ghost use Rattle.sew_operations.specs.Operations.{work_of, loans_of, Slots};

use map_betas::error::Answer;
use map_betas::loans::{Loans, scratch, vertex_loans};
use sew_one::one::{one_sew_on, one_unsew_on};
use sew_three::three::three_unsew_on;
use sew_two::two::{two_sew_on, two_unsew_on};

// The sews and unsews. An unsew takes one dart, which is given twice.
#[derive(Clone, Copy, Debug, PartialEq, Eq)]
pub enum Operation {
    OneSew,
    OneUnsew,
    TwoSew,
    TwoUnsew,
    ThreeUnsew,
}

// The loans that an operation has.
pub fn loans_of(
    operation: Operation,
    marks: usize,
    queue: usize,
    vertices: usize,
    coordinates: usize,
) -> Loans
    ensures { result ≡ loans_of operation marks queue vertices coordinates }
{
    match operation {
        Operation::TwoSew => vertex_loans(marks, queue, vertices, coordinates),
        _ => scratch(marks, queue),
    }
}

// Runs an operation on real darts of a map. Marks and queue are 0 before and after, n places each.
pub fn run(
    operation: Operation,
    rows: &mut [u32],
    marks: &mut [u8],
    queue: &mut [u32],
    vertices: &[u8],
    coordinates: &[f64],
    plan: &mut [u32],
    ld: u32,
    rd: u32,
) -> Answer
    requires { WellFormed rows.old × Dart (darts rows.old) 1 ld × Dart (darts rows.old) 1 rd
        × Clean (darts rows.old) marks.old queue.old × Slots operation (darts rows.old) (length vertices.now) (length coordinates.now) }
    ensures plan_after { leaves result rows.new plan.new
        ≡ sewn rows.old plan.old (work_of operation vertices.now coordinates.now rows.old ld rd) }
    ensures marks_unchanged { (marks.new ≡ marks.old) × (queue.new ≡ queue.old) }
{
    match operation {
        Operation::OneSew => one_sew_on(rows, marks, queue, plan, ld, rd),
        Operation::OneUnsew => one_unsew_on(rows, marks, queue, plan, ld),
        Operation::TwoSew => two_sew_on(rows, marks, queue, vertices, coordinates, plan, ld, rd),
        Operation::TwoUnsew => two_unsew_on(rows, marks, queue, plan, ld),
        Operation::ThreeUnsew => three_unsew_on(rows, marks, queue, plan, ld),
    }
}
