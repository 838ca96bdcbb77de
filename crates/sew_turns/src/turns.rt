// One command: the link, sew, unlink or unsew that its operation's number stands for.
ghost use Rattle.std.specs.Prelude.{◌≡◌, ◌*◌, ◌≤◌, length};
ghost use Rattle.map_betas.specs.Betas.{darts};
ghost use Rattle.map_betas.specs.Maps.{WellFormed};
ghost use Rattle.cell_steps.specs.Loans.{Clean};
ghost use Rattle.sew_ground.specs.Sewn.{leaves};
ghost use Rattle.sew_commands.specs.Commands.{sew_tested, run as run_of};

use link_run::links::join;
use map_betas::error::Answer;
use map_guard::guard::dart_test;
use sew_commands::commands::{Command, sew_second};
use sew_operations::operations::{Operation, run};

// A sew or an unsew of any darts of a map: its darts are tested first. Marks and queue are 0 before and after, n places each.
fn sew(
    operation: Operation,
    rows: &mut [u32],
    marks: &mut [u8],
    queue: &mut [u32],
    flags: &[u8],
    vertices: &[u8],
    coordinates: &[f64],
    plan: &mut [u32],
    ld: u32,
    rd: u32,
) -> Answer
    requires { WellFormed rows.old × Clean (darts rows.old) marks.old queue.old × (darts rows.old ≤ length vertices.now)
        × (3 * darts rows.old ≤ length coordinates.now) × (darts rows.old ≤ length flags.now) }
    ensures plan_after { leaves result rows.new plan.new
        ≡ sew_tested operation flags.now vertices.now coordinates.now ld rd rows.old plan.old }
    ensures marks_unchanged { (marks.new ≡ marks.old) × (queue.new ≡ queue.old) }
{
    let second = sew_second(operation, ld, rd);
    let n = rows.len() / 4;
    dart_test(flags, n, 1, ld, second)?;
    run(
        operation,
        rows,
        marks,
        queue,
        vertices,
        coordinates,
        plan,
        ld,
        second,
    )
}

// One command of a list on a map. A number that stands for no operation is refused before its darts are looked at; an unlink or unsew looks at the first
// alone.
pub fn run_command(
    operation: u32,
    rows: &mut [u32],
    marks: &mut [u8],
    queue: &mut [u32],
    flags: &[u8],
    vertices: &[u8],
    coordinates: &[f64],
    plan: &mut [u32],
    ld: u32,
    rd: u32,
) -> Answer
    requires { WellFormed rows.old × Clean (darts rows.old) marks.old queue.old × (darts rows.old ≤ length vertices.now)
        × (3 * darts rows.old ≤ length coordinates.now) × (darts rows.old ≤ length flags.now) }
    ensures plan_after { leaves result rows.new plan.new
        ≡ run_of flags.now vertices.now coordinates.now operation ld rd rows.old plan.old }
    ensures marks_unchanged { (marks.new ≡ marks.old) × (queue.new ≡ queue.old) }
{
    let command = Command::try_from(operation)?;
    match command {
        Command::Links(link) => join(link, rows, flags, ld, rd),
        Command::Sews(o) => sew(
            o,
            rows,
            marks,
            queue,
            flags,
            vertices,
            coordinates,
            plan,
            ld,
            rd,
        ),
    }
}
