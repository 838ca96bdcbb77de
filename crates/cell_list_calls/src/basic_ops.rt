// The call of a list, for each class of cells.
ghost use Rattle.std.specs.Prelude.{◌≡◌, ◌≤◌, length};
ghost use Rattle.map_betas.specs.Betas.{darts};
ghost use Rattle.map_betas.specs.Answers.{outcome};
ghost use Rattle.cell_steps.specs.Loans.{Zero, Scratch, Listed};
ghost use Rattle.cell_steps.specs.Calls.{wiped};
ghost use Rattle.cell_names.specs.Calls.{list_call};
ghost use Rattle.cell_list_calls.specs.Listings.{listing_of, listing_done, listing_call};

use crate::listings::Listing;
use cell_lists::list_core;
use cell_names::enumerators::cells_core;
use cell_steps::cells::Class;
use map_betas::error::{Answer, Done};
use map_betas::loans::list_loans;
use map_betas::rows::Rows;
use map_guard::guard::guard;

// Lists what is asked for, and returns how many darts that is. The queue's first n places are 0 afterwards.
fn listing_core(
    rows: Rows,
    marks: &mut [u8],
    queue: &mut [u32],
    output: &mut [u32],
    flags: &[u8],
    listing: Listing,
) -> usize
    requires { Scratch rows.list.now marks.old queue.old × (darts rows.list.now ≤ length output.old)
        × (darts rows.list.now ≤ length flags.now) × Zero marks.old }
    ensures { (marks.new ≡ marks.old) × (queue.new ≡ wiped (darts rows.entry.list.now) queue.old)
        × Listed (listing_of listing rows.entry.list.now flags.now) output.old output.new result }
{
    match listing {
        Listing::Cells(class) => cells_core(rows, marks, queue, output, flags, class),
        Listing::Orbits(class) => list_core(rows, class, marks, queue, output, flags),
    }
}

// The list behind the tests: marks are wiped, and their first n places lent to the core.
fn list_done(
    rows: Rows,
    marks: &mut [u8],
    queue: &mut [u32],
    output: &mut [u32],
    flags: &[u8],
    listing: Listing,
) -> Answer
    requires { (darts rows.list.now ≤ length marks.old) × (darts rows.list.now ≤ length queue.old)
        × (darts rows.list.now ≤ length output.old) × (darts rows.list.now ≤ length flags.now) }
    ensures { outcome result (marks.new, queue.new, output.new)
        ≡ listing_done rows.entry.list.now marks.old queue.old output.old flags.now listing }
{
    let n = rows.darts();
    marks[..n].fill(0);
    let count = listing_core(rows, &mut marks[..n], queue, output, flags, listing);
    Ok(Done { value: 0, count })
}

// Lists what is asked for.
pub fn list_by(
    rows: &[u32],
    marks: &mut [u8],
    queue: &mut [u32],
    output: &mut [u32],
    flags: &[u8],
    listing: Listing,
) -> Answer
    ensures { outcome result (marks.new, queue.new, output.new)
        ≡ listing_call rows.now marks.old queue.old output.old flags.now listing }
{
    let loans = list_loans(marks.len(), queue.len(), output.len());
    guard(rows, flags, loans, 0, 0, 0)?;
    list_done(Rows { list: rows }, marks, queue, output, flags, listing)
}

// Lists the cells of a class: each dart that is its own identifier and not unused, ascending.
pub fn list_cells(
    rows: &[u32],
    marks: &mut [u8],
    queue: &mut [u32],
    output: &mut [u32],
    flags: &[u8],
    class: Class,
) -> Answer
    ensures { outcome result (marks.new, queue.new, output.new)
        ≡ list_call rows.now marks.old queue.old output.old flags.now class }
{
    list_by(rows, marks, queue, output, flags, Listing::Cells(class))
}
