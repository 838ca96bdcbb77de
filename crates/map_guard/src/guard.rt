// What refuses a call before it looks at what the darts are linked to: refusals 1 to 4, the loans by their numbers.
ghost use Rattle.std.specs.Prelude.{◌≡◌, ◌*◌, ◌/◌, ◌≤◌, ◌<◌, length};
ghost use Rattle.map_betas.specs.Guards.{loan_test, no_dart, dart_test, map_guard, check_map, guard_of};

use map_betas::error::{Answer, Done, Loan, Refusal};
use map_betas::loans::{Loans, NO_LOANS};
use map_test::structure::{map_test, size_test};

// Refuses the first loan that is too short for n darts; flags is the length of the flags.
pub fn loan_test(n: usize, flags: usize, loans: Loans) -> Result<(), Refusal>
    requires { n ≤ 1048576 }
    ensures { result ≡ loan_test n flags loans }
{
    if loans.marks < n {
        return Err(Refusal::ShortLoan(Loan::Marks));
    }
    if loans.queue < n {
        return Err(Refusal::ShortLoan(Loan::Queue));
    }
    if loans.output < n {
        return Err(Refusal::ShortLoan(Loan::Output));
    }
    if flags < n {
        return Err(Refusal::ShortLoan(Loan::Flags));
    }
    if loans.vertices < n {
        return Err(Refusal::ShortLoan(Loan::Vertices));
    }
    if loans.coordinates < 3 * n {
        return Err(Refusal::ShortLoan(Loan::Coordinates));
    }
    Ok(())
}

// Whether a call does not take d: it is below `least`, no dart of n, or unused where `least` is not 0.
fn no_dart(flags: &[u8], n: usize, least: u32, d: u32) -> bool
    requires { n ≤ length flags.now }
    ensures { result ≡ no_dart n flags.now least d }
{
    if d < least {
        return true;
    }
    if n <= d as usize {
        return true;
    }
    if least == 0 {
        return false;
    }
    flags[d as usize] != 0
}

// Refuses the first dart argument that a call does not take.
pub fn dart_test(flags: &[u8], n: usize, least: u32, a: u32, b: u32) -> Result<(), Refusal>
    requires { n ≤ length flags.now }
    ensures { result ≡ dart_test n flags.now least a b }
{
    if no_dart(flags, n, least, a) {
        return Err(Refusal::BadDart(1));
    }
    if no_dart(flags, n, least, b) {
        return Err(Refusal::BadDart(2));
    }
    Ok(())
}

// The tests of size, loans and map, in order.
fn map_guard(rows: &[u32], flags: &[u8], loans: Loans) -> Result<(), Refusal>
    ensures { result ≡ map_guard rows.now flags.now loans }
{
    size_test(rows)?;
    loan_test(rows.len() / 4, flags.len(), loans)?;
    map_test(rows, flags)
}

// Whether rows and flags are a 3-map: refusals 1, 2 and 3.
pub fn check_map(rows: &[u32], flags: &[u8]) -> Answer
    ensures { result ≡ check_map rows.now flags.now }
{
    map_guard(rows, flags, NO_LOANS)?;
    Ok(Done::NOTHING)
}

// The tests of every call on a map, in order. `least` is 1 where the null dart and unused darts are refused, else 0. A call of one dart gives it twice, a call
// of none the null dart.
pub fn guard(
    rows: &[u32],
    flags: &[u8],
    loans: Loans,
    least: u32,
    a: u32,
    b: u32,
) -> Result<(), Refusal>
    ensures { result ≡ guard_of rows.now flags.now loans least a b }
{
    map_guard(rows, flags, loans)?;
    dart_test(flags, rows.len() / 4, least, a, b)
}
