// The quick test of one dart: nearly every dart of a map passes it.
ghost use Rattle.std.specs.Prelude.{◌≡◌, true, false, ◌*◌, ◌<◌, length};
ghost use Rattle.map_betas.specs.Betas.{beta, darts};
ghost use Rattle.map_betas.specs.Maps.{breaks, breach_at};

use map_betas::betas::beta_at;

// True only where the images x and y of a real dart d by beta 2 and beta 3 break no rule: each leads back or is null. Where x is null, y is tested apart, since
// two ways that meet again are compiled to slower tests.
fn sides_lead_back(rows: &[u32], d: u32, x: u32, y: u32) -> bool
    requires { (length rows.now ≡ 4 * darts rows.now) × (0 < d) × (x ≡ beta rows.now 2 d) × (y ≡ beta rows.now 3 d) × (x < darts rows.now)
        × (y < darts rows.now) }
    ensures { result ≡ true → (breaks rows.now 2 d ≡ false) × (breaks rows.now 3 d ≡ false) }
{
    let back_x = beta_at(rows, 2, x);
    let back_y = beta_at(rows, 3, y);
    if back_x != d {
        if x != 0 {
            return false;
        }
        if back_y != d {
            return y == 0;
        }
        return y != d;
    }
    if x == d {
        return false;
    }
    if back_y != d {
        return y == 0;
    }
    y != d
}

// True only where four images are all darts of n. Their bits together are no less than any of them, and are nearly always below n: one test for four. Where
// they are not, the images are compared by pairs.
fn all_below(n: usize, x0: u32, x1: u32, x2: u32, x3: u32) -> bool
    ensures { result ≡ true → (x0 < n) × (x1 < n) × (x2 < n) × (x3 < n) }
{
    if ((x0 | x1 | x2 | x3) as usize) < n {
        return true;
    }
    (x0.max(x1) as usize) < n && (x2.max(x3) as usize) < n
}

// True only where no image of a real dart d breaks a rule: the four are read at once and their range is tested. Those by beta 0 and beta 1 have to lead back,
// as nearly all do; a null one is left to the test image by image.
pub fn leads_back(rows: &[u32], d: u32) -> bool
    requires { (length rows.now ≡ 4 * darts rows.now) × (0 < d) × (d < darts rows.now) }
    ensures { result ≡ true → 4 ≡ breach_at rows.now d }
{
    let n = rows.len() / 4;
    let x0 = beta_at(rows, 0, d);
    let x1 = beta_at(rows, 1, d);
    let x2 = beta_at(rows, 2, d);
    let x3 = beta_at(rows, 3, d);
    if !all_below(n, x0, x1, x2, x3) {
        return false;
    }
    if beta_at(rows, 1, x0) != d {
        return false;
    }
    if beta_at(rows, 0, x1) != d {
        return false;
    }
    sides_lead_back(rows, d, x2, x3)
}
