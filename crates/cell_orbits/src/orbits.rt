// The calls: an orbit by its policy, and by a list of betas. Ports `orbit_tx` of dim3/orbits.rs.
ghost use Rattle.std.specs.Prelude.{◌≡◌, ◌<◌, ◌≤◌, length};
ghost use Rattle.map_betas.specs.Betas.{darts};
ghost use Rattle.map_betas.specs.Answers.{outcome};
ghost use Rattle.cell_steps.specs.Calls.{orbit_guard, orbit_done, orbit_call, custom_test, custom_call};

use cell_cores::cores::orbit_core;
use cell_steps::policy::{OrbitPolicy, Steps, custom_steps, steps_of};
use map_betas::error::{Answer, Done, Refusal};
use map_betas::loans::orbit_loans;
use map_betas::rows::Rows;
use map_guard::guard::guard;

// The tests of an orbit call: refusals 1 to 4.
fn orbit_guard(
    rows: &[u32],
    marks: &[u8],
    output: &[u32],
    flags: &[u8],
    d: u32,
) -> Result<(), Refusal>
    ensures { result ≡ orbit_guard rows.now marks.now output.now flags.now d }
{
    guard(rows, flags, orbit_loans(marks.len(), output.len()), 0, d, d)
}

// Lists the orbit of d under the steps of a search: marks may hold anything, and are longer than n or not.
fn list_orbit(rows: Rows, steps: Steps<'_>, marks: &mut [u8], output: &mut [u32], d: u32) -> Answer
    requires { (darts rows.list.now ≤ length marks.old) × (darts rows.list.now ≤ length output.old) × (d < darts rows.list.now) }
    ensures { outcome result (marks.new, output.new)
        ≡ orbit_done rows.entry.list.now marks.old output.old steps.entry.codes.now d }
{
    let n = rows.darts();
    marks[..n].fill(0);
    let count = orbit_core(rows, steps, &mut marks[..n], output, d);
    Ok(Done { value: 0, count })
}

// Lists the orbit of d by a policy.
pub fn orbit(
    rows: &[u32],
    marks: &mut [u8],
    output: &mut [u32],
    flags: &[u8],
    policy: OrbitPolicy,
    d: u32,
) -> Answer
    ensures { outcome result (marks.new, output.new) ≡ orbit_call rows.now marks.old output.old
        flags.now policy d }
{
    orbit_guard(rows, marks, output, flags, d)?;
    list_orbit(Rows { list: rows }, steps_of(policy), marks, output, d)
}

// Refuses the first value that is no beta.
fn custom_test(betas: &[u8]) -> Result<(), Refusal>
    ensures { result ≡ custom_test betas.now }
{
    for &b in betas {
        if 3 < b {
            return Err(Refusal::BadBeta(u32::from(b)));
        }
    }
    Ok(())
}

// Lists the orbit of d under the listed betas, in their order.
pub fn orbit_custom(
    rows: &[u32],
    marks: &mut [u8],
    output: &mut [u32],
    flags: &[u8],
    betas: &[u8],
    d: u32,
) -> Answer
    ensures { outcome result (marks.new, output.new)
        ≡ custom_call rows.now marks.old output.old flags.now betas.now d }
{
    orbit_guard(rows, marks, output, flags, d)?;
    custom_test(betas)?;
    list_orbit(Rows { list: rows }, custom_steps(betas), marks, output, d)
}
