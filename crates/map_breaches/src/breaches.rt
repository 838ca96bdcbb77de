// The least beta whose image of a real dart breaks a rule.
ghost use Rattle.std.specs.Prelude.{◌≡◌, ◌*◌, ◌<◌, length};
ghost use Rattle.map_betas.specs.Betas.{darts};
ghost use Rattle.map_betas.specs.Maps.{NullRow, breaks, breach_at};

use map_betas::betas::{beta_at, opp_of};
use map_quick::quick::leads_back;

// Whether the image of a real dart d by beta i breaks a rule. The null dart leads back to no real one, so that an image which leads back is not null.
fn breaks_at(rows: &[u32], i: u32, d: u32) -> bool
    requires { (length rows.now ≡ 4 * darts rows.now) × NullRow rows.now × (i < 4) × (0 < d) × (d < darts rows.now) }
    ensures { result ≡ breaks rows.now i d }
{
    let n = rows.len() / 4;
    let x = beta_at(rows, i, d);
    if n <= x as usize {
        return true;
    }
    if beta_at(rows, opp_of(i), x) != d {
        return x != 0;
    }
    if 2 <= i {
        return x == d;
    }
    false
}

// The least beta whose image of a real dart d breaks a rule, or 4, found image by image.
fn least_breach(rows: &[u32], d: u32) -> u32
    requires { (length rows.now ≡ 4 * darts rows.now) × NullRow rows.now × (0 < d) × (d < darts rows.now) }
    ensures { result ≡ breach_at rows.now d }
{
    if breaks_at(rows, 0, d) {
        return 0;
    }
    if breaks_at(rows, 1, d) {
        return 1;
    }
    if breaks_at(rows, 2, d) {
        return 2;
    }
    if breaks_at(rows, 3, d) {
        return 3;
    }
    4
}

// The least beta whose image of a real dart d breaks a rule, or 4: nearly every dart of a map passes the quick test, and only the rest are searched.
pub fn breach_at(rows: &[u32], d: u32) -> u32
    requires { (length rows.now ≡ 4 * darts rows.now) × NullRow rows.now × (0 < d) × (d < darts rows.now) }
    ensures { result ≡ breach_at rows.now d }
{
    if leads_back(rows, d) {
        return 4;
    }
    least_breach(rows, d)
}
