// The pairs of darts that a walk goes through.
ghost use Rattle.std.specs.Prelude.{◌≡◌, ◌<◌};
ghost use Rattle.map_betas.specs.Betas.{beta, darts};

use map_betas::betas::beta_at;

// A dart on the left and the dart on the right that faces it, or is to.
#[derive(Clone, Copy, Debug, PartialEq, Eq)]
pub struct Pair {
    pub l: u32,
    pub r: u32,
}

impl Pair {
    // The pair that comes next: l goes on by beta i, and r by beta j.
    pub fn next(self, rows: &[u32], i: u32, j: u32) -> Pair
        requires { (i < 3) × (j < 3) × (self.l < darts rows.now) × (self.r < darts rows.now) }
        ensures l { result.l ≡ beta rows.now i self.l }
        ensures r { result.r ≡ beta rows.now j self.r }
    {
        Pair {
            l: beta_at(rows, i, self.l),
            r: beta_at(rows, j, self.r),
        }
    }
}
