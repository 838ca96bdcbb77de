// The 2-sew and the 2-unsew. Ports dim3/sews/two.rs.
ghost use Rattle.std.specs.Prelude.{◌≡◌, ◌*◌, ◌≤◌, length};
ghost use Rattle.map_betas.specs.Betas.{darts};
ghost use Rattle.map_betas.specs.Maps.{WellFormed};
ghost use Rattle.map_betas.specs.Guards.{Dart};
ghost use Rattle.cell_steps.specs.Loans.{Clean};
ghost use Rattle.sew_ground.specs.Sewn.{leaves, sewn};
ghost use Rattle.sew_ground.specs.Two.{linked_sides, two_sew_on, two_unsew_on};

use map_betas::betas::{link_core, unlink_core};
use map_betas::error::{Answer, Refusal};
use map_betas::rows::Rows;
use sew_ground::settle::settle;
use sew_ground::sides::{Side, side_at, two_items};
use sew_plan::Kind;
use sew_points::bad_geometry;

// Links two darts whose sides are known, and settles their merges.
fn link_sides(rows: &mut [u32], plan: &mut [u32], ld: u32, rd: u32, l: Side, r: Side) -> Answer
    requires { WellFormed rows.old × Dart (darts rows.old) 1 ld × Dart (darts rows.old) 1 rd }
    ensures { leaves result rows.new plan.new
        ≡ sewn rows.old plan.old (linked_sides rows.old ld rd l r) }
{
    link_core(rows, 2, ld, rd)?;
    let settled = settle(plan, 0, &two_items(Kind::Merge, l, r));
    if settled.is_err() {
        let _ = unlink_core(rows, 2, ld);
    }
    settled
}

// The 2-sew of two real darts of a map with vertices.
pub fn two_sew_on(
    rows: &mut [u32],
    marks: &mut [u8],
    queue: &mut [u32],
    vertices: &[u8],
    coordinates: &[f64],
    plan: &mut [u32],
    ld: u32,
    rd: u32,
) -> Answer
    requires well_formed { WellFormed rows.old × Dart (darts rows.old) 1 ld × Dart (darts rows.old) 1 rd × Clean (darts rows.old) marks.old queue.old }
    requires rows_in_bounds { (darts rows.old ≤ length vertices.now) × (3 * darts rows.old ≤ length coordinates.now) }
    ensures plan_after { leaves result rows.new plan.new
        ≡ sewn rows.old plan.old (two_sew_on vertices.now coordinates.now rows.old ld rd) }
    ensures marks_unchanged { (marks.new ≡ marks.old) × (queue.new ≡ queue.old) }
{
    let lent = Rows { list: rows };
    let l = side_at(lent, marks, queue, ld);
    let r = side_at(lent, marks, queue, rd);
    if bad_geometry(
        vertices,
        coordinates,
        l.near.least,
        r.end.least,
        l.end.least,
        r.near.least,
    ) {
        return Err(Refusal::BadGeometry(2, ld, rd));
    }
    link_sides(rows, plan, ld, rd, l, r)
}

// The 2-unsew of a real dart of a map.
pub fn two_unsew_on(
    rows: &mut [u32],
    marks: &mut [u8],
    queue: &mut [u32],
    plan: &mut [u32],
    ld: u32,
) -> Answer
    requires { WellFormed rows.old × Dart (darts rows.old) 1 ld × Clean (darts rows.old) marks.old queue.old }
    ensures plan_after { leaves result rows.new plan.new ≡ sewn rows.old plan.old (two_unsew_on rows.old ld) }
    ensures marks_unchanged { (marks.new ≡ marks.old) × (queue.new ≡ queue.old) }
{
    let rd = unlink_core(rows, 2, ld)?.value;
    let lent = Rows { list: rows };
    let l = side_at(lent, marks, queue, ld);
    let r = side_at(lent, marks, queue, rd);
    let settled = settle(plan, rd, &two_items(Kind::Split, l, r));
    if settled.is_err() {
        let _ = link_core(rows, 2, ld, rd);
    }
    settled
}
