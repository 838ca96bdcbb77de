// The rows of a map, lent for reading: that they keep the rules stands in the type.
ghost use Rattle.std.specs.Prelude.{◌≡◌, ◌<◌};
ghost use Rattle.map_betas.specs.Betas.{beta, darts};
ghost use Rattle.map_betas.specs.Maps.{WellFormed};

use crate::betas::beta_at;

// Rows that are well formed. Whoever makes them shows it, behind the map test or of rows that a core has left; whoever is lent them need not ask.
#[derive(Clone, Copy)]
pub struct Rows<'a> {
    pub list: &'a [u32],
    ghost formed: { WellFormed list.now },
}

impl<'a> Rows<'a> {
    // How many darts there are, the null dart among them.
    pub fn darts(self) -> usize
        ensures { result ≡ darts self.entry.list.now }
    {
        self.list.len() / 4
    }

    // The image of d by beta i.
    pub fn beta(self, i: u32, d: u32) -> u32
        requires { (i < 4) × (d < darts self.list.now) }
        ensures { result ≡ beta self.entry.list.now i d }
    {
        beta_at(self.list, i, d)
    }
}
