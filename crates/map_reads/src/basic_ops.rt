// Reads and free tests. Ports the reads of dim3/basic_ops.rs. They make no map test, and take the null dart.
ghost use Rattle.std.specs.Prelude.{◌≡◌, ◌+◌, ◌*◌, ◌/◌, ◌<◌, length};
ghost use Rattle.map_betas.specs.Betas.{beta};
ghost use Rattle.map_betas.specs.Reads.{read_test, beta_read, i_free, is_free, yes};

use map_betas::betas::beta_at;
use map_betas::error::{Answer, Done, Refusal};
use map_breaches::free::free_at;
use map_test::structure::size_test;

// Refusals 1, 4 and 5, in that order.
fn read_test(rows: &[u32], i: u32, d: u32) -> Result<(), Refusal>
    ensures { result ≡ read_test rows.now i d }
{
    size_test(rows)?;
    if rows.len() / 4 <= d as usize {
        return Err(Refusal::BadDart(1));
    }
    if 3 < i {
        return Err(Refusal::BadBeta(i));
    }
    Ok(())
}

// The image of d by beta i.
pub fn beta(rows: &[u32], i: u32, d: u32) -> Answer
    ensures { result ≡ beta_read rows.now i d }
{
    read_test(rows, i, d)?;
    Ok(Done {
        value: beta_at(rows, i, d),
        count: 0,
    })
}

// Whether the image of d by beta i is null.
pub fn is_i_free(rows: &[u32], i: u32, d: u32) -> Answer
    ensures { result ≡ i_free rows.now i d }
{
    read_test(rows, i, d)?;
    Ok(Done {
        value: u32::from(beta_at(rows, i, d) == 0),
        count: 0,
    })
}

// Whether d has no image.
pub fn is_free(rows: &[u32], d: u32) -> Answer
    ensures { result ≡ is_free rows.now d }
{
    read_test(rows, 0, d)?;
    Ok(Done {
        value: u32::from(free_at(rows, d)),
        count: 0,
    })
}
