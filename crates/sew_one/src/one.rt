// The 1-sew and the 1-unsew. Ports dim3/sews/one.rs.
ghost use Rattle.std.specs.Prelude.{◌≡◌, ◌<◌};
ghost use Rattle.map_betas.specs.Betas.{darts};
ghost use Rattle.map_betas.specs.Maps.{WellFormed};
ghost use Rattle.map_betas.specs.Guards.{Dart};
ghost use Rattle.cell_steps.specs.Loans.{Clean};
ghost use Rattle.sew_ground.specs.Entries.{listed};
ghost use Rattle.sew_ground.specs.Sewn.{leaves, sewn};
ghost use Rattle.sew_ground.specs.One.{one_entries, one_sew_on, one_unsew_on};

use cell_cores::cores::cell_core;
use cell_steps::cells::Class;
use map_betas::error::Answer;
use map_betas::rows::Rows;
use sew_ground::items::item_if;
use sew_ground::settle::settle;
use sew_one_links::one_links::{link_again, one_links, one_unlinks, take_back};
use sew_plan::{Entry, Kind};

// The vertices that a 1-sew merges, or that a 1-unsew parts.
fn one_item(
    rows: Rows,
    marks: &mut [u8],
    queue: &mut [u32],
    kind: Kind,
    ld: u32,
    rd: u32,
) -> Option<Entry>
    requires { (ld < darts rows.list.now) × (rd < darts rows.list.now) × Clean (darts rows.list.now) marks.old queue.old }
    ensures result_value { listed result ≡ one_entries kind rows.entry.list.now ld rd }
    ensures marks_unchanged { (marks.new ≡ marks.old) × (queue.new ≡ queue.old) }
{
    let far = rows.beta(3, ld).max(rows.beta(2, ld));
    let vl = cell_core(rows, Class::Vertex, marks, queue, far);
    let vr = cell_core(rows, Class::Vertex, marks, queue, rd);
    item_if(far != 0, Class::Vertex, kind, vl, vr)
}

// The 1-sew of two real darts of a map.
pub fn one_sew_on(
    rows: &mut [u32],
    marks: &mut [u8],
    queue: &mut [u32],
    plan: &mut [u32],
    ld: u32,
    rd: u32,
) -> Answer
    requires { WellFormed rows.old × Dart (darts rows.old) 1 ld × Dart (darts rows.old) 1 rd × Clean (darts rows.old) marks.old queue.old }
    ensures plan_after { leaves result rows.new plan.new ≡ sewn rows.old plan.old (one_sew_on rows.old ld rd) }
    ensures marks_unchanged { (marks.new ≡ marks.old) × (queue.new ≡ queue.old) }
{
    let item = one_item(Rows { list: rows }, marks, queue, Kind::Merge, ld, rd);
    one_links(rows, ld, rd)?;
    let settled = settle(plan, 0, &[item]);
    if settled.is_err() {
        take_back(rows, ld, rd);
    }
    settled
}

// The 1-unsew of a real dart of a map.
pub fn one_unsew_on(
    rows: &mut [u32],
    marks: &mut [u8],
    queue: &mut [u32],
    plan: &mut [u32],
    ld: u32,
) -> Answer
    requires { WellFormed rows.old × Dart (darts rows.old) 1 ld × Clean (darts rows.old) marks.old queue.old }
    ensures plan_after { leaves result rows.new plan.new ≡ sewn rows.old plan.old (one_unsew_on rows.old ld) }
    ensures marks_unchanged { (marks.new ≡ marks.old) × (queue.new ≡ queue.old) }
{
    let rd = one_unlinks(rows, ld)?.value;
    let item = one_item(Rows { list: rows }, marks, queue, Kind::Split, ld, rd);
    let settled = settle(plan, rd, &[item]);
    if settled.is_err() {
        link_again(rows, ld, rd);
    }
    settled
}
