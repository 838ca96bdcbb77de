// The map test, beta reads and free tests.
ghost use Rattle.std.specs.Prelude.{◌≡◌};
ghost use Rattle.map_betas.specs.Guards.{check_map};
ghost use Rattle.map_betas.specs.Reads.{beta_read, i_free, is_free};
ghost use Rattle.map_betas.specs.Flat.{flat, flat_of};

use inkcapper::hand_on;

// Whether rows and flags are a 3-map: refusals 1, 2 and 3.
pub fn inkcapper_check_map(rows: &[u32], flags: &[u8], values: &mut [u64; 3]) -> u32
    ensures { flat result values.new ≡ flat_of (check_map rows.now flags.now) }
{
    hand_on(inkcapper::check_map(rows, flags), values)
}

// The image of d by beta i.
pub fn inkcapper_beta(rows: &[u32], i: u32, d: u32, values: &mut [u64; 3]) -> u32
    ensures { flat result values.new ≡ flat_of (beta_read rows.now i d) }
{
    hand_on(inkcapper::beta(rows, i, d), values)
}

// Whether the image of d by beta i is null.
pub fn inkcapper_is_i_free(rows: &[u32], i: u32, d: u32, values: &mut [u64; 3]) -> u32
    ensures { flat result values.new ≡ flat_of (i_free rows.now i d) }
{
    hand_on(inkcapper::is_i_free(rows, i, d), values)
}

// Whether d has no image.
pub fn inkcapper_is_free(rows: &[u32], d: u32, values: &mut [u64; 3]) -> u32
    ensures { flat result values.new ≡ flat_of (is_free rows.now d) }
{
    hand_on(inkcapper::is_free(rows, d), values)
}
