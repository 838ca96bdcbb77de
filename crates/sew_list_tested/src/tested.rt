// A list of commands whose rows have a map's size and whose loans are long enough: refusals 13 and 3.
ghost use Rattle.std.specs.Prelude.{◌≡◌, ◌≤◌, length};
ghost use Rattle.map_betas.specs.Betas.{darts};
ghost use Rattle.map_betas.specs.Answers.{outcome};
ghost use Rattle.map_betas.specs.Maps.{Sized};
ghost use Rattle.map_betas.specs.Guards.{Lent};
ghost use Rattle.sew_commands.specs.Calls.{loans_for, list_tested};

use map_betas::error::{Answer, Refusal};
use map_test::structure::map_test;
use sew_list_wiped::wiped::make_wiped;

// A list once size and loans have passed: refused where it is no whole commands, then where rows and flags are no map, or made.
pub fn commands_lent(
    rows: &mut [u32],
    marks: &mut [u8],
    queue: &mut [u32],
    output: &mut [u32],
    flags: &[u8],
    vertices: &[u8],
    coordinates: &[f64],
    plan: &mut [u32],
    list: &[u32],
) -> Answer
    requires { Sized rows.old × (darts rows.old ≤ length flags.now)
        × Lent (darts rows.old) (loans_for marks.old queue.old output.old vertices.now coordinates.now list.now) }
    ensures { outcome result (rows.new, marks.new, queue.new, output.new, plan.new)
        ≡ list_tested rows.old marks.old queue.old output.old flags.now vertices.now
        coordinates.now plan.old list.now }
{
    if list.len() % 3 != 0 {
        let n = rows.len() / 4;
        marks[..n].fill(0);
        queue[..n].fill(0);
        return Err(Refusal::BadCommand(0));
    }
    map_test(rows, flags)?;
    make_wiped(
        rows,
        marks,
        queue,
        output,
        flags,
        vertices,
        coordinates,
        plan,
        list,
    )
}
