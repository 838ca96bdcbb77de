// The link and the unlink of one pair, once over the beta: the 1-link and the 2-link of a 3-map are `link::<1>` and `link::<2>`.
ghost use Rattle.std.specs.Prelude.{◌≡◌, ◌≤◌, ◌<◌};
ghost use Rattle.map_betas.specs.Answers.{outcome};
ghost use Rattle.link_walk.specs.Calls.{bare_link, bare_unlink};
ghost use Rattle.link_flat.specs.Flat.{flat_test, flat_link, flat_unlink};

use map_betas::betas::{link_core, unlink_core};
use map_betas::error::{Answer, Refusal};
use map_betas::loans::NO_LOANS;
use map_guard::guard::guard;

// Links ld and rd by beta I behind the tests of every call.
#[tactic(auto, using(link_walk::proofs::CallLaws::behind_tests), unfolding(link_walk::specs::Calls::bare_link))]
fn bare_link<const I: u32>(rows: &mut [u32], flags: &[u8], ld: u32, rd: u32) -> Answer
    requires { (1 ≤ I) × (I < 3) }
    ensures { outcome result rows.new ≡ bare_link rows.old flags.now I ld rd }
{
    guard(rows, flags, NO_LOANS, 1, ld, rd)?;
    link_core(rows, I, ld, rd)
}

// Unlinks ld and its image by beta I behind the tests of every call.
#[tactic(auto, using(link_walk::proofs::CallLaws::behind_tests), unfolding(link_walk::specs::Calls::bare_unlink))]
fn bare_unlink<const I: u32>(rows: &mut [u32], flags: &[u8], ld: u32) -> Answer
    requires { (1 ≤ I) × (I < 3) }
    ensures { outcome result rows.new ≡ bare_unlink rows.old flags.now I ld }
{
    guard(rows, flags, NO_LOANS, 1, ld, ld)?;
    unlink_core(rows, I, ld)
}

// Refuses a beta by which a pair alone is not linked.
fn flat_test(i: u32) -> Result<(), Refusal>
    ensures { result ≡ flat_test i }
{
    if i < 1 || 2 < i {
        return Err(Refusal::BadBeta(i));
    }
    Ok(())
}

// Links ld and rd by beta I; one that is neither 1 nor 2 is refused before all else. After a refusal the rows are as they were.
#[tactic(auto, using(link_walk::proofs::CallLaws::behind_tests))]
pub fn link<const I: u32>(rows: &mut [u32], flags: &[u8], ld: u32, rd: u32) -> Answer
    ensures { outcome result rows.new ≡ flat_link rows.old flags.now I ld rd }
{
    flat_test(I)?;
    bare_link::<I>(rows, flags, ld, rd)
}

// Unlinks ld and its image by beta I, which is answered; a beta that is neither 1 nor 2 is refused before all else. After a refusal the rows are as they were.
#[tactic(auto, using(link_walk::proofs::CallLaws::behind_tests))]
pub fn unlink<const I: u32>(rows: &mut [u32], flags: &[u8], ld: u32) -> Answer
    ensures { outcome result rows.new ≡ flat_unlink rows.old flags.now I ld }
{
    flat_test(I)?;
    bare_unlink::<I>(rows, flags, ld)
}
