// The calls: the 3-link and the 3-unlink for any rows, flags and darts.
ghost use Rattle.std.specs.Prelude.{◌≡◌};
ghost use Rattle.map_betas.specs.Answers.{outcome};
ghost use Rattle.link_walk.specs.Calls.{three_link, three_unlink};

use link_three::three::{three_link_on, three_unlink_on};
use map_betas::error::Answer;
use map_betas::loans::NO_LOANS;
use map_guard::guard::guard;

// 3-links ld and rd, and the darts of their faces pair by pair. After a refusal the rows are as they were.
#[tactic(auto, using(link_walk::proofs::CallLaws::behind_tests), unfolding(link_walk::specs::Calls::three_link))]
pub fn three_link(rows: &mut [u32], flags: &[u8], ld: u32, rd: u32) -> Answer
    ensures { outcome result rows.new ≡ three_link rows.old flags.now ld rd }
{
    guard(rows, flags, NO_LOANS, 1, ld, rd)?;
    three_link_on(rows, ld, rd)
}

// 3-unlinks ld and its image, which is answered, and the darts of their faces pair by pair. After a refusal the rows are as they were.
#[tactic(auto, using(link_walk::proofs::CallLaws::behind_tests), unfolding(link_walk::specs::Calls::three_unlink))]
pub fn three_unlink(rows: &mut [u32], flags: &[u8], ld: u32) -> Answer
    ensures { outcome result rows.new ≡ three_unlink rows.old flags.now ld }
{
    guard(rows, flags, NO_LOANS, 1, ld, ld)?;
    three_unlink_on(rows, ld)
}
