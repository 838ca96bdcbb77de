// The entries of one pair of darts: at most three, each there or not.
ghost use Rattle.std.specs.Prelude.{◌≡◌, ◌+◌, ◌*◌, ◌≤◌, length};
ghost use Rattle.sew_plan.specs.Plan.{width};
ghost use Rattle.sew_ground.specs.Entries.{listed, all_of, entries_if, written_all};

use cell_steps::cells::{Cell, Class};
use sew_plan::{Entry, Kind, entry_of, write_entry};

// The entries of one pair of darts, in the order in which they are written.
pub type Items = [Option<Entry>; 3];

// The entry for two cells, where it is asked for and they differ.
pub fn item_if(asked: bool, class: Class, kind: Kind, left: Cell, right: Cell) -> Option<Entry>
    ensures { listed result ≡ entries_if asked class kind left right }
{
    if !asked {
        return None;
    }
    if left.least == right.least {
        return None;
    }
    Some(entry_of(class, kind, left, right))
}

// How many entries there are.
pub fn count(items: &[Option<Entry>]) -> usize
    ensures { (result ≡ length (all_of items.now)) × (result ≤ length items.now) }
{
    items.iter().filter(|item| item.is_some()).count()
}

// Writes the entries from number `at` of the plan on, and gives back the number behind them.
pub fn put_items(plan: &mut [u32], at: usize, items: &[Option<Entry>]) -> usize
    requires { width * (at + length (all_of items.now)) ≤ length plan.old }
    ensures { (result ≡ at + length (all_of items.now)) × (plan.new ≡ written_all plan.old at (all_of items.now)) }
{
    let mut next = at;
    for item in items {
        if let Some(e) = *item {
            write_entry(plan, next, e);
            next += 1;
        }
    }
    next
}
