// The call: a list of commands for any rows, flags, loans and list, under one map test and one clearing of scratch.
ghost use Rattle.std.specs.Prelude.{◌≡◌};
ghost use Rattle.map_betas.specs.Answers.{outcome};
ghost use Rattle.sew_commands.specs.Calls.{commands_lent, commands as commandsOf};

use map_betas::error::{Answer, Refusal};
use map_betas::loans::{Loans, command_loans};
use map_guard::guard::loan_test;
use map_test::structure::size_test;
use sew_answers::answers::WIDTH;
use sew_list_tested::tested::commands_lent;

// Refusals 1 and 2: rows of no map's size, and the first loan that is too short.
fn lent_test(rows: &[u32], flags: &[u8], loans: Loans) -> Result<(), Refusal>
    ensures { result ≡ commands_lent rows.now flags.now loans }
{
    size_test(rows)?;
    loan_test(rows.len() / 4, flags.len(), loans)
}

// A list of commands, three numbers each: operation, first dart, second dart. The map is tested once and scratch is wiped once; each command is then the
// call of its name on what is left of the plan, and answers with five numbers of the output. A refused command changes nothing, and the list goes on.
pub fn commands(
    rows: &mut [u32],
    marks: &mut [u8],
    queue: &mut [u32],
    output: &mut [u32],
    flags: &[u8],
    vertices: &[u8],
    coordinates: &[f64],
    plan: &mut [u32],
    list: &[u32],
) -> Answer
    ensures { outcome result (rows.new, marks.new, queue.new, output.new, plan.new)
        ≡ commandsOf rows.old marks.old queue.old output.old flags.now vertices.now
        coordinates.now plan.old list.now }
{
    let loans = command_loans(
        marks.len(),
        queue.len(),
        output.len() / WIDTH,
        list.len() / 3,
        vertices.len(),
        coordinates.len(),
    );
    lent_test(rows, flags, loans)?;
    commands_lent(
        rows,
        marks,
        queue,
        output,
        flags,
        vertices,
        coordinates,
        plan,
        list,
    )
}
