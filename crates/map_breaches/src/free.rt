// Whether a dart has no image, and whether it is unused though it has one.
ghost use Rattle.std.specs.Prelude.{◌≡◌, ◌+◌, ◌*◌, ◌<◌, length};
ghost use Rattle.map_betas.specs.Maps.{free_at, bound};

use map_betas::betas::beta_at;

// Whether d has no image.
pub fn free_at(rows: &[u32], d: u32) -> bool
    requires { 4 * d + 3 < length rows.now }
    ensures { result ≡ free_at rows.now d }
{
    if beta_at(rows, 0, d) != 0 {
        return false;
    }
    if beta_at(rows, 1, d) != 0 {
        return false;
    }
    if beta_at(rows, 2, d) != 0 {
        return false;
    }
    beta_at(rows, 3, d) == 0
}

// Whether a real dart d is unused and has an image: its row, which the test of its images has just read, is read again only where the flag says unused.
pub fn bound_at(rows: &[u32], flags: &[u8], d: u32) -> bool
    requires { (4 * d + 3 < length rows.now) × (d < length flags.now) × (0 < d) }
    ensures { result ≡ bound rows.now flags.now d }
{
    if flags[d as usize] == 0 {
        return false;
    }
    !free_at(rows, d)
}
