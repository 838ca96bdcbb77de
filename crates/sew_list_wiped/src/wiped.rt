// A list of commands on a map: scratch is cleared once for all of them.
ghost use Rattle.std.specs.Prelude.{◌≡◌, ◌*◌, ◌/◌, ◌≤◌, length};
ghost use Rattle.map_betas.specs.Betas.{darts};
ghost use Rattle.map_betas.specs.Answers.{outcome};
ghost use Rattle.map_betas.specs.Maps.{WellFormed};
ghost use Rattle.sew_answers.specs.Words.{answer_width};
ghost use Rattle.sew_commands.specs.Commands.{run};
ghost use Rattle.sew_commands.specs.Lists.{made, filled};
ghost use Rattle.sew_commands.specs.Calls.{list_done};

use map_betas::error::{Answer, Done};
use sew_lists::lists::make_all;

// A list on a map: scratch is wiped, and its first n places are lent on.
pub fn make_wiped(
    rows: &mut [u32],
    marks: &mut [u8],
    queue: &mut [u32],
    output: &mut [u32],
    flags: &[u8],
    vertices: &[u8],
    coordinates: &[f64],
    plan: &mut [u32],
    list: &[u32],
) -> Answer
    requires { WellFormed rows.old
        × (darts rows.old ≤ length marks.old) × (darts rows.old ≤ length queue.old)
        × (darts rows.old ≤ length vertices.now) × (3 * darts rows.old ≤ length coordinates.now)
        × (answer_width * (length list.now / 3) ≤ length output.old) × (darts rows.old ≤ length flags.now) }
    ensures { outcome result (rows.new, marks.new, queue.new, output.new, plan.new)
        ≡ list_done (darts rows.old) marks.old queue.old (filled output.old
        (made (run flags.now vertices.now coordinates.now) list.now rows.old plan.old)) }
{
    let n = rows.len() / 4;
    marks[..n].fill(0);
    queue[..n].fill(0);
    let entries = make_all(
        rows,
        &mut marks[..n],
        &mut queue[..n],
        output,
        flags,
        vertices,
        coordinates,
        plan,
        list,
    );
    Ok(Done {
        value: 0,
        count: entries,
    })
}
