// The call of an identifier, for each class of cells. An answer has the cell's name, and how many darts it has.
ghost use Rattle.std.specs.Prelude.{◌≡◌, ◌<◌, ◌≤◌, length};
ghost use Rattle.map_betas.specs.Betas.{darts};
ghost use Rattle.map_betas.specs.Answers.{outcome};
ghost use Rattle.cell_names.specs.Calls.{id_done, id_call};

use cell_names::identifiers::identifier;
use cell_steps::cells::Class;
use map_betas::error::{Answer, Done};
use map_betas::loans::scratch;
use map_betas::rows::Rows;
use map_guard::guard::guard;

// The identifier behind the tests: scratch is wiped, and its first n places lent to the core.
fn id_done(rows: Rows, marks: &mut [u8], queue: &mut [u32], class: Class, d: u32) -> Answer
    requires { (darts rows.list.now ≤ length marks.old) × (darts rows.list.now ≤ length queue.old) × (d < darts rows.list.now) }
    ensures { outcome result (marks.new, queue.new) ≡ id_done rows.entry.list.now marks.old queue.old class d }
{
    let n = rows.darts();
    marks[..n].fill(0);
    queue[..n].fill(0);
    let c = identifier(rows, class, &mut marks[..n], &mut queue[..n], d);
    Ok(Done {
        value: c.least,
        count: c.count as usize,
    })
}

// The identifier of d's cell of a class: the least dart of the cell and how many darts it has; of a face, the identifier as the Rust walks it, with no count.
pub fn cell_id(
    rows: &[u32],
    marks: &mut [u8],
    queue: &mut [u32],
    flags: &[u8],
    class: Class,
    d: u32,
) -> Answer
    ensures { outcome result (marks.new, queue.new)
        ≡ id_call rows.now marks.old queue.old flags.now class d }
{
    guard(rows, flags, scratch(marks.len(), queue.len()), 0, d, d)?;
    id_done(Rows { list: rows }, marks, queue, class, d)
}
