// The links and unlinks, and the one function that runs them.
ghost use Rattle.std.specs.Prelude.{◌≡◌, ◌≤◌, length};
ghost use Rattle.map_betas.specs.Betas.{darts};
ghost use Rattle.map_betas.specs.Maps.{WellFormed};
ghost use Rattle.map_betas.specs.Guards.{Dart};
ghost use Rattle.map_betas.specs.Answers.{out, outcome};
ghost use Rattle.link_run.specs.Links.{link_on, link_second, link_tested};

use link_three::three::{three_link_on, three_unlink_on};
use map_betas::betas::{link_core, unlink_core};
use map_betas::error::Answer;
use map_guard::guard::dart_test;

// The links and unlinks. An unlink takes one dart, which is given twice.
#[derive(Clone, Copy, Debug, PartialEq, Eq)]
pub enum Link {
    OneLink,
    TwoLink,
    ThreeLink,
    OneUnlink,
    TwoUnlink,
    ThreeUnlink,
}

// The second dart that is looked at: an unlink has none, and its first stands in.
fn link_second(link: Link, ld: u32, rd: u32) -> u32
    ensures { result ≡ link_second link ld rd }
{
    if matches!(link, Link::OneLink | Link::TwoLink | Link::ThreeLink) {
        rd
    } else {
        ld
    }
}

// Links or unlinks real darts of a map. After a refusal the rows are as they were.
fn run_link(link: Link, rows: &mut [u32], ld: u32, rd: u32) -> Answer
    requires { WellFormed rows.old × Dart (darts rows.old) 1 ld × Dart (darts rows.old) 1 rd }
    ensures { out result rows.new ≡ link_on link rows.old ld rd }
{
    // Stays: a list of commands says at run time which link it is, so a match chooses it, and no type.
    match link {
        Link::OneLink => link_core(rows, 1, ld, rd),
        Link::TwoLink => link_core(rows, 2, ld, rd),
        Link::ThreeLink => three_link_on(rows, ld, rd),
        Link::OneUnlink => unlink_core(rows, 1, ld),
        Link::TwoUnlink => unlink_core(rows, 2, ld),
        Link::ThreeUnlink => three_unlink_on(rows, ld),
    }
}

// A link or an unlink of any darts of a map: its darts are tested first. After a refusal the rows are as they were.
#[tactic(auto, using(link_walk::proofs::CallLaws::behind_tests, crate::proofs::LinkLaws::on_second), unfolding(crate::specs::Links::link_tested))]
pub fn join(link: Link, rows: &mut [u32], flags: &[u8], ld: u32, rd: u32) -> Answer
    requires { WellFormed rows.old × (darts rows.old ≤ length flags.now) }
    ensures { outcome result rows.new ≡ link_tested link rows.old flags.now ld rd }
{
    let second = link_second(link, ld, rd);
    let n = rows.len() / 4;
    dart_test(flags, n, 1, ld, second)?;
    run_link(link, rows, ld, second)
}
