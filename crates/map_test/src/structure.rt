// The map test: the size of the rows, then the first dart that breaks a rule. (dim3/structure.rs has the map whose rules these are.)
ghost use Rattle.std.specs.Prelude.{◌≡◌, ◌≤◌, length};
ghost use Rattle.map_betas.specs.Betas.{darts};
ghost use Rattle.map_betas.specs.Maps.{Sized, size_test, breach_at, map_test};

use map_betas::betas::beta_at;
use map_betas::error::Refusal;
use map_breaches::breaches::breach_at;
use map_breaches::free::bound_at;

// The most places that the rows of a map have: 1,048,576 darts, four images each.
const MOST: usize = 4194304;

// Refuses rows that are no whole rows of 1 to 1,048,576 darts.
pub fn size_test(rows: &[u32]) -> Result<(), Refusal>
    ensures { result ≡ size_test rows.now }
{
    let k = rows.len();
    if k == 0 || k % 4 != 0 || MOST < k {
        return Err(Refusal::BadSize(k));
    }
    Ok(())
}

// The least beta whose image of the null dart is not null, or 4.
fn null_breach(rows: &[u32]) -> u32
    requires { Sized rows.now }
    ensures { result ≡ breach_at rows.now 0 }
{
    if beta_at(rows, 0, 0) != 0 {
        return 0;
    }
    if beta_at(rows, 1, 0) != 0 {
        return 1;
    }
    if beta_at(rows, 2, 0) != 0 {
        return 2;
    }
    if beta_at(rows, 3, 0) != 0 {
        return 3;
    }
    4
}

// Refuses the first dart that breaks a rule, by its images and then by its flag, in one pass. The flag of dart 0 is not looked at.
pub fn map_test(rows: &[u32], flags: &[u8]) -> Result<(), Refusal>
    requires { Sized rows.now × (darts rows.now ≤ length flags.now) }
    ensures { result ≡ map_test rows.now flags.now }
{
    let b = null_breach(rows);
    if b < 4 {
        return Err(Refusal::NotAMap(b, 0));
    }
    let n = (rows.len() / 4) as u32;
    for d in 1..n {
        let i = breach_at(rows, d);
        if i < 4 {
            return Err(Refusal::NotAMap(i, d));
        }
        if bound_at(rows, flags, d) {
            return Err(Refusal::NotAMap(4, d));
        }
    }
    Ok(())
}
