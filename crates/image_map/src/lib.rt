// The map test over the rows and flags as they stand in an image: the rules are those of `map_test::structure`, and so are the laws.
#![tactic(auto)]

ghost use Rattle.std.specs.Prelude.{◌≡◌, ◌+◌, ◌*◌, ◌<◌, ◌≤◌, length};
ghost use Rattle.map_betas.specs.Maps.{breaks, breach_at, free_at, bound, map_test};
ghost use Rattle.image_words.specs.Words.{word32};
ghost use Rattle.image_form.specs.Form.{form1, flag_offset, vertex_offset, rows_of, flags_of};

use image_form::form::{Darts, flag_offset};
use image_words::word_at;
use map_betas::betas::opp_of;
use map_betas::error::Refusal;

// The image of d by beta i, where it is stored.
fn stored_beta(bytes: &[u8], i: u32, d: u32) -> u32
    requires { 28 + 16 * d + 4 * i + 4 ≤ length bytes.now }
    ensures { result ≡ word32 bytes.now (28 + 16 * d + 4 * i) }
{
    word_at(bytes, 28 + 16 * (d as usize) + 4 * (i as usize))
}

// Whether the image of d by beta i breaks a rule.
fn breaks_at(bytes: &[u8], n: u32, i: u32, d: u32) -> bool
    requires { (flag_offset form1 n ≤ length bytes.now) × (i < 4) × (d < n) }
    ensures { result ≡ breaks (rows_of bytes.now n) i d }
{
    let x = stored_beta(bytes, i, d);
    if n <= x {
        return true;
    }
    if x == 0 {
        return false;
    }
    if d == 0 {
        return true;
    }
    if 2 <= i && x == d {
        return true;
    }
    stored_beta(bytes, opp_of(i), x) != d
}

// The least beta whose image of d breaks a rule, or 4.
fn breach_at(bytes: &[u8], n: u32, d: u32) -> u32
    requires { (flag_offset form1 n ≤ length bytes.now) × (d < n) }
    ensures { result ≡ breach_at (rows_of bytes.now n) d }
{
    (0..4).find(|&i| breaks_at(bytes, n, i, d)).unwrap_or(4)
}

// Whether d has no image.
fn free_at(bytes: &[u8], n: u32, d: u32) -> bool
    requires { (flag_offset form1 n ≤ length bytes.now) × (d < n) }
    ensures { result ≡ free_at (rows_of bytes.now n) d }
{
    (0..4).all(|i| stored_beta(bytes, i, d) == 0)
}

// Whether d, whose images break no rule, is unused and has an image: they are read again only where the flag says unused. The null dart has none.
fn bound_at(bytes: &[u8], n: Darts, d: u32) -> bool
    requires { (vertex_offset form1 n.number ≤ length bytes.now) × (d < n.number) × (4 ≤ breach_at (rows_of bytes.now n.number) d) }
    ensures { result ≡ bound (rows_of bytes.now n.number) (flags_of bytes.now n.number) d }
{
    let at = (flag_offset(n) + d) as usize;
    if bytes[at] == 0 {
        return false;
    }
    !free_at(bytes, n.number, d)
}

// Refuses the first dart that breaks a rule, by its images and then by its flag, in one pass.
// Stays: a twin of `map_test::structure::map_test`. That one is cut for speed: it passes the null dart's row apart and four images at once. Over a trait for
// where images come from, this one would need the same cuts, and be no plainer.
pub fn map_test(bytes: &[u8], n: Darts) -> Result<(), Refusal>
    requires { vertex_offset form1 n.number ≤ length bytes.now }
    ensures { result ≡ map_test (rows_of bytes.now n.number) (flags_of bytes.now n.number) }
{
    for d in 0..n.number {
        let i = breach_at(bytes, n.number, d);
        if i < 4 {
            return Err(Refusal::NotAMap(i, d));
        }
        if bound_at(bytes, n, d) {
            return Err(Refusal::NotAMap(4, d));
        }
    }
    Ok(())
}
