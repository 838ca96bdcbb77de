// An answer as it crosses to C.
ghost use Rattle.std.specs.Prelude.{◌≡◌};
ghost use Rattle.map_betas.specs.Flat.{flat, flat_of};

use map_betas::error::{Answer, Told};

// Writes the values of an answer, and gives back its number.
pub fn hand_on(a: Answer, values: &mut [u64; 3]) -> u32
    ensures { flat result values.new ≡ flat_of a }
{
    let t = Told::from(a);
    *values = [t.first, t.second, t.third];
    t.number
}
