// The links of a 1-sew and the unlinks of a 1-unsew: two where both darts have beta 3. After a refusal the rows are as they were.
ghost use Rattle.std.specs.Prelude.{◌≡◌, ◌+◌, ◌*◌, ◌<◌, length};
ghost use Rattle.map_betas.specs.Betas.{darts};
ghost use Rattle.map_betas.specs.Answers.{out};
ghost use Rattle.map_betas.specs.Cores.{link_core, unlink_core};
ghost use Rattle.map_betas.specs.Guards.{Dart};
ghost use Rattle.map_betas.specs.Maps.{WellFormed};
ghost use Rattle.sew_ground.specs.One.{faced, or_back, one_links, agrees, second_cut, second_put, one_unlinks, taken_back, relinked};

use map_betas::betas::{beta_at, link_core, unlink_core};
use map_betas::error::{Answer, Refusal};

// The second link, of r3 and l3; or what it refuses, with ld unlinked again.
fn second_link(rows: &mut [u32], ld: u32, r3: u32, l3: u32) -> Answer
    requires { WellFormed rows.old × (ld < darts rows.old) × (r3 < darts rows.old) × (l3 < darts rows.old) }
    ensures { out result rows.new ≡ or_back (unlink_core rows.old 1 ld).rows (link_core rows.old 1 r3 l3) }
{
    let linked = link_core(rows, 1, r3, l3);
    if linked.is_err() {
        let _ = unlink_core(rows, 1, ld);
    }
    linked
}

// The images of ld and rd by beta 3, where both have one.
fn faced(rows: &[u32], ld: u32, rd: u32) -> Option<(u32, u32)>
    requires { (4 * ld + 3 < length rows.now) × (4 * rd + 3 < length rows.now) }
    ensures { result ≡ faced rows.now ld rd }
{
    let l3 = beta_at(rows, 3, ld);
    let r3 = beta_at(rows, 3, rd);
    if l3 == 0 {
        return None;
    }
    if r3 == 0 {
        return None;
    }
    Some((l3, r3))
}

// Links ld and rd, and beta 3 of rd and beta 3 of ld where there are both.
pub fn one_links(rows: &mut [u32], ld: u32, rd: u32) -> Answer
    requires { WellFormed rows.old × Dart (darts rows.old) 1 ld × Dart (darts rows.old) 1 rd }
    ensures { out result rows.new ≡ one_links rows.old ld rd }
{
    let images = faced(rows, ld, rd);
    let linked = link_core(rows, 1, ld, rd)?;
    match images {
        Some((l3, r3)) => second_link(rows, ld, r3, l3),
        None => Ok(linked),
    }
}

// Unlinks beta 3 of rd and beta 3 of ld, where there are both.
fn cut_second(rows: &mut [u32], ld: u32, rd: u32)
    requires { WellFormed rows.old × (ld < darts rows.old) × (rd < darts rows.old) }
    ensures { rows.new ≡ second_cut rows.old ld rd }
{
    let Some((_, r3)) = faced(rows, ld, rd) else {
        return;
    };
    let _ = unlink_core(rows, 1, r3);
}

// Links beta 3 of rd and beta 3 of ld again, where there are both.
fn put_second(rows: &mut [u32], ld: u32, rd: u32)
    requires { WellFormed rows.old × (ld < darts rows.old) × (rd < darts rows.old) }
    ensures { rows.new ≡ second_put rows.old ld rd }
{
    let Some((l3, r3)) = faced(rows, ld, rd) else {
        return;
    };
    let _ = link_core(rows, 1, r3, l3);
}

// Undoes the links of a 1-sew, the later one first.
pub fn take_back(rows: &mut [u32], ld: u32, rd: u32)
    requires { WellFormed rows.old × (ld < darts rows.old) × (rd < darts rows.old) }
    ensures { rows.new ≡ taken_back rows.old ld rd }
{
    cut_second(rows, ld, rd);
    let _ = unlink_core(rows, 1, ld);
}

// Undoes the unlinks of a 1-unsew, the later one first.
pub fn link_again(rows: &mut [u32], ld: u32, rd: u32)
    requires { WellFormed rows.old × (ld < darts rows.old) × (rd < darts rows.old) }
    ensures { rows.new ≡ relinked rows.old ld rd }
{
    put_second(rows, ld, rd);
    let _ = link_core(rows, 1, ld, rd);
}

// Whether a second unlink is not asked for, or would part beta 3 of rd from beta 3 of ld.
fn agree(rows: &[u32], ld: u32, rd: u32) -> bool
    requires { WellFormed rows.now × (ld < darts rows.now) × (rd < darts rows.now) }
    ensures { result ≡ agrees rows.now ld rd }
{
    match faced(rows, ld, rd) {
        Some((l3, r3)) => beta_at(rows, 1, r3) == l3,
        None => true,
    }
}

// Unlinks ld and rd, and beta 3 of rd and beta 3 of ld where there are both, which have to be linked.
pub fn one_unlinks(rows: &mut [u32], ld: u32) -> Answer
    requires { WellFormed rows.old × Dart (darts rows.old) 1 ld }
    ensures { out result rows.new ≡ one_unlinks rows.old ld }
{
    let parted = unlink_core(rows, 1, ld)?;
    let rd = parted.value;
    if !agree(rows, ld, rd) {
        let _ = link_core(rows, 1, ld, rd);
        return Err(Refusal::AsymmetricalFaces(ld, rd));
    }
    cut_second(rows, ld, rd);
    Ok(parted)
}
