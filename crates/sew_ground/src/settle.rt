// The end of a sew: its entries are written, or there is no room for them.
ghost use Rattle.std.specs.Prelude.{◌≡◌};
ghost use Rattle.sew_ground.specs.Entries.{all_of};
ghost use Rattle.sew_ground.specs.Sewn.{settles, settled};

use crate::items::{count, put_items};
use map_betas::error::{Answer, Done, Refusal};
use sew_plan::Entry;

// Writes the entries from the plan's start and answers d with their count; or refuses, and leaves the plan as it was.
pub fn settle(plan: &mut [u32], d: u32, items: &[Option<Entry>]) -> Answer
    ensures { settles result plan.new ≡ settled plan.old d (all_of items.now) }
{
    let k = count(items);
    if sew_plan::room(plan) < k {
        return Err(Refusal::PlanRoom(k));
    }
    let _ = put_items(plan, 0, items);
    Ok(Done { value: d, count: k })
}
