// The commands of a list, one after another: each is lent what is left of the plan, and answers behind the answers before it.
ghost use Rattle.std.specs.Prelude.{◌≡◌, ◌+◌, ◌*◌, ◌/◌, ◌≤◌, length};
ghost use Rattle.map_betas.specs.Betas.{darts};
ghost use Rattle.map_betas.specs.Maps.{WellFormed};
ghost use Rattle.cell_steps.specs.Loans.{Clean};
ghost use Rattle.sew_plan.specs.Plan.{width};
ghost use Rattle.sew_answers.specs.Words.{answer_width};
ghost use Rattle.sew_commands.specs.Commands.{run};
ghost use Rattle.sew_commands.specs.Lists.{made, turn, turn_of, filled};

use sew_answers::answers::{count_of, put_answer};
use sew_plan::WIDTH;
use sew_turns::turns::run_command;

// Makes command number k of a list, lent the plan behind the entries that are written, and gives back how many there are then.
fn make_one(
    rows: &mut [u32],
    marks: &mut [u8],
    queue: &mut [u32],
    output: &mut [u32],
    flags: &[u8],
    vertices: &[u8],
    coordinates: &[f64],
    plan: &mut [u32],
    list: &[u32],
    k: usize,
    written: usize,
) -> usize
    requires { WellFormed rows.old × Clean (darts rows.old) marks.old queue.old × (darts rows.old ≤ length vertices.now)
        × (3 * darts rows.old ≤ length coordinates.now) × (3 * k + 3 ≤ length list.now) × (answer_width * k + answer_width ≤ length output.old)
        × (width * written ≤ length plan.old) × (darts rows.old ≤ length flags.now) }
    ensures plan_after { turn result rows.new output.new plan.new
        ≡ turn_of (run flags.now vertices.now coordinates.now) list.now k written rows.old
        output.old plan.old }
    ensures marks_unchanged { (marks.new ≡ marks.old) × (queue.new ≡ queue.old) }
{
    let at = 3 * k;
    let operation = list[at];
    let ld = list[at + 1];
    let rd = list[at + 2];
    let from = WIDTH * written;
    let a = run_command(
        operation,
        rows,
        marks,
        queue,
        flags,
        vertices,
        coordinates,
        &mut plan[from..],
        ld,
        rd,
    );
    put_answer(output, k, a);
    written + count_of(a)
}

// Makes all whole commands of a list, and gives back how many entries they have written.
pub fn make_all(
    rows: &mut [u32],
    marks: &mut [u8],
    queue: &mut [u32],
    output: &mut [u32],
    flags: &[u8],
    vertices: &[u8],
    coordinates: &[f64],
    plan: &mut [u32],
    list: &[u32],
) -> usize
    requires { WellFormed rows.old × Clean (darts rows.old) marks.old queue.old × (darts rows.old ≤ length vertices.now)
        × (3 * darts rows.old ≤ length coordinates.now) × (answer_width * (length list.now / 3) ≤ length output.old)
        × (darts rows.old ≤ length flags.now) }
    ensures plan_after { turn result rows.new output.new plan.new
        ≡ filled output.old (made (run flags.now vertices.now coordinates.now) list.now
        rows.old plan.old) }
    ensures marks_unchanged { (marks.new ≡ marks.old) × (queue.new ≡ queue.old) }
{
    let count = list.len() / 3;
    let mut written: usize = 0;
    for k in 0..count {
        written = make_one(
            rows,
            marks,
            queue,
            output,
            flags,
            vertices,
            coordinates,
            plan,
            list,
            k,
            written,
        );
    }
    written
}
