// The 3-unsew. Ports three_unsew_tx of dim3/sews/three.rs.
ghost use Rattle.std.specs.Prelude.{◌≡◌};
ghost use Rattle.map_betas.specs.Betas.{darts};
ghost use Rattle.map_betas.specs.Maps.{WellFormed};
ghost use Rattle.map_betas.specs.Guards.{Dart};
ghost use Rattle.cell_steps.specs.Loans.{Clean};
ghost use Rattle.sew_ground.specs.Sewn.{leaves, sewn};
ghost use Rattle.sew_pairs.specs.Three.{three_unsew_on};

use link_three::three::{three_link_on, three_unlink_on};
use map_betas::error::Answer;
use map_betas::rows::Rows;
use sew_settling::settling::settle_splits;

// The 3-unsew of a real dart of a map.
pub fn three_unsew_on(
    rows: &mut [u32],
    marks: &mut [u8],
    queue: &mut [u32],
    plan: &mut [u32],
    ld: u32,
) -> Answer
    requires { WellFormed rows.old × Dart (darts rows.old) 1 ld × Clean (darts rows.old) marks.old queue.old }
    ensures plan_after { leaves result rows.new plan.new ≡ sewn rows.old plan.old (three_unsew_on rows.old ld) }
    ensures marks_unchanged { (marks.new ≡ marks.old) × (queue.new ≡ queue.old) }
{
    let rd = three_unlink_on(rows, ld)?.value;
    let settled = settle_splits(Rows { list: rows }, marks, queue, plan, ld, rd);
    if settled.is_err() {
        let _ = three_link_on(rows, ld, rd);
    }
    settled
}
