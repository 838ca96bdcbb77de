// The images of darts, one by one, and the cores of links and unlinks, once over the beta. Ports components/betas.rs.
ghost use Rattle.std.specs.Prelude.{◌≡◌, ◌+◌, ◌*◌, ◌≤◌, ◌<◌, length, set};
ghost use Rattle.map_betas.specs.Betas.{beta, place, opp};
ghost use Rattle.map_betas.specs.Answers.{out};
ghost use Rattle.map_betas.specs.Cores.{link_core, unlink_core};

use crate::error::{Answer, Done, Refusal};

// The image of d by beta i.
pub fn beta_at(rows: &[u32], i: u32, d: u32) -> u32
    requires { 4 * d + i < length rows.now }
    ensures { result ≡ beta rows.now i d }
{
    rows[4 * (d as usize) + (i as usize)]
}

// Stores x as the image of d by beta i.
pub fn set_beta(rows: &mut [u32], i: u32, d: u32, x: u32)
    requires { 4 * d + i < length rows.old }
    ensures { rows.new ≡ set rows.old (place i d) x }
{
    rows[4 * (d as usize) + (i as usize)] = x;
}

// The beta that leads back from an image by beta i.
pub fn opp_of(i: u32) -> u32
    ensures { result ≡ opp i }
{
    if i < 2 { 1 - i } else { i }
}

// Links l and r by beta i: the base and the image have to be free.
pub fn link_core(rows: &mut [u32], i: u32, l: u32, r: u32) -> Answer
    requires { (1 ≤ i) × (i < 4) × (4 * l + 3 < length rows.old) × (4 * r + 3 < length rows.old) }
    ensures { out result rows.new ≡ link_core rows.old i l r }
{
    let j = opp_of(i);
    if beta_at(rows, i, l) != 0 {
        return Err(Refusal::NonFreeBase(i, l, r));
    }
    if beta_at(rows, j, r) != 0 {
        return Err(Refusal::NonFreeImage(j, l, r));
    }
    if 1 < i && l == r {
        return Err(Refusal::NonFreeImage(i, l, r));
    }
    set_beta(rows, i, l, r);
    set_beta(rows, j, r, l);
    Ok(Done::NOTHING)
}

// Unlinks l and its image by beta i, which is answered.
pub fn unlink_core(rows: &mut [u32], i: u32, l: u32) -> Answer
    requires { (1 ≤ i) × (i < 4) × (4 * l + 3 < length rows.old) × (4 * beta rows.old i l + 3 < length rows.old) }
    ensures { out result rows.new ≡ unlink_core rows.old i l }
{
    let x = beta_at(rows, i, l);
    if x == 0 {
        return Err(Refusal::AlreadyFree(i, l));
    }
    set_beta(rows, i, l, 0);
    set_beta(rows, opp_of(i), x, 0);
    Ok(Done { value: x, count: 0 })
}
