// What a 3-unsew has to know before it writes: the least darts of the two sides, and how many pairs there are, or how many splits they have.
ghost use Rattle.std.specs.Prelude.{◌≡◌, [], ◌∷◌, ◌+◌, ◌*◌, ◌≤◌, ◌<◌, Bool, true, false, length};
ghost use Rattle.map_betas.specs.Betas.{beta, darts};
ghost use Rattle.map_betas.specs.Maps.{WellFormed};
ghost use Rattle.cell_steps.specs.Loans.{Clean};
ghost use Rattle.sew_pairs.specs.Pairs.{leg_over, leg_pairs, leg_end, Over};
ghost use Rattle.sew_tallies.specs.Tallies.{pair_count, tallied, tally_of};

use map_betas::rows::Rows;
use sew_ground::items::count;
use sew_pairs::pairs::pair_items;

// The least darts so far on the left and on the right, how many pairs or how many splits, and the left dart at which the leg stands.
#[derive(Clone, Copy)]
pub struct Tally {
    pub left: u32,
    pub right: u32,
    pub count: usize,
    pub l: u32,
}

// Whether a leg is over at l.
pub fn leg_over(l: u32, stop: u32) -> bool
    ensures { result ≡ leg_over l stop }
{
    l == 0 || l == stop
}

// What a tally counts. `splits` says that it is splits, and not pairs.
pub trait Counting {
    ghost splits: { Bool };

    // What a pair counts for.
    fn pair_count(rows: Rows, marks: &mut [u8], queue: &mut [u32], l: u32, r: u32) -> usize
        requires { (l < darts rows.list.now) × (r < darts rows.list.now) × Clean (darts rows.list.now) marks.old queue.old }
        ensures value { (result ≡ pair_count splits rows.entry.list.now l r) × (result ≤ 3) }
        ensures marks_unchanged { (marks.new ≡ marks.old) × (queue.new ≡ queue.old) };
}

// Pairs are counted.
pub struct ByPairs;

impl Counting for ByPairs {
    ghost splits = { false };

    // One, without a look at its orbits.
    fn pair_count(_rows: Rows, _marks: &mut [u8], _queue: &mut [u32], _l: u32, _r: u32) -> usize {
        1
    }
}

// Splits are counted.
pub struct BySplits;

impl Counting for BySplits {
    ghost splits = { true };

    // The splits of the pair.
    fn pair_count(rows: Rows, marks: &mut [u8], queue: &mut [u32], l: u32, r: u32) -> usize {
        count(&pair_items(rows, marks, queue, l, r))
    }
}

// A tally with the pair of its dart and r, the left dart going on by beta i.
fn note<C: Counting>(
    rows: Rows,
    marks: &mut [u8],
    queue: &mut [u32],
    i: u32,
    t: Tally,
    r: u32,
) -> Tally
    requires { (i < 3) × (t.l < darts rows.list.now) × (r < darts rows.list.now) × Clean (darts rows.list.now) marks.old queue.old
        × (t.count ≤ 100000000) }
    ensures value { (result ≡ tallied C.splits rows.entry.list.now t ((t.l, r) ∷ []) (beta rows.entry.list.now i t.l)) × (result.count ≤ t.count + 3) }
    ensures marks_unchanged { (marks.new ≡ marks.old) × (queue.new ≡ queue.old) }
{
    let l = t.l;
    let k = C::pair_count(rows, marks, queue, l, r);
    Tally {
        left: t.left.min(l),
        right: t.right.min(r),
        count: t.count + k,
        l: rows.beta(i, l),
    }
}

// A tally with the pairs of a leg, from that of its dart and r0 on.
fn tally_leg<C: Counting>(
    rows: Rows,
    marks: &mut [u8],
    queue: &mut [u32],
    i: u32,
    j: u32,
    stop: u32,
    t0: Tally,
    r0: u32,
) -> Tally
    requires { (i < 3) × (j < 3) × (t0.l < darts rows.list.now) × (r0 < darts rows.list.now)
        × Clean (darts rows.list.now) marks.old queue.old × (t0.count ≤ 20000000) × Over rows.list.now i stop t0.l }
    ensures value { (result ≡ tallied C.splits rows.entry.list.now t0 (leg_pairs rows.entry.list.now i j stop t0.l r0)
        (leg_end rows.entry.list.now i stop t0.l)) × (result.count ≤ t0.count + 3 * length rows.entry.list.now) }
    ensures marks_unchanged { (marks.new ≡ marks.old) × (queue.new ≡ queue.old) }
{
    let mut t = t0;
    let mut r = r0;
    // Stays: a pair is read from the rows at the pair before it, which no range and no method of a slice goes by.
    while !leg_over(t.l, stop) {
        t = note::<C>(rows, marks, queue, i, t, r);
        r = rows.beta(j, r);
    }
    t
}

// The tally of all pairs. The second leg is walked where the first has come to null.
pub fn tally_pairs<C: Counting>(
    rows: Rows,
    marks: &mut [u8],
    queue: &mut [u32],
    ld: u32,
    rd: u32,
) -> Tally
    requires { (ld < darts rows.list.now) × (rd < darts rows.list.now) × Clean (darts rows.list.now) marks.old queue.old }
    ensures value { result ≡ tally_of C.splits rows.entry.list.now ld rd }
    ensures marks_unchanged { (marks.new ≡ marks.old) × (queue.new ≡ queue.old) }
{
    let start = Tally {
        left: ld,
        right: rd,
        count: 0,
        l: ld,
    };
    let one = note::<C>(rows, marks, queue, 1, start, rd);
    let first = tally_leg::<C>(rows, marks, queue, 1, 0, ld, one, rows.beta(0, rd));
    if first.l != 0 {
        return first;
    }
    let back = Tally {
        l: rows.beta(0, ld),
        ..first
    };
    tally_leg::<C>(rows, marks, queue, 0, 1, 0, back, rows.beta(1, rd))
}
