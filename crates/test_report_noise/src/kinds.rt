// The kinds of cases: noise, of which each kind puts more right than the one before.
//
// 0 is plain noise; 1 to 7 have as many right words of the header; 8 has right flags too, and 9 right darts of the vertices; 10 has any images below n for
// rows,
// and from 11 on the rows are a map, so that only the coordinates are noise; in 12 some of these are infinite, and in 13 bytes are overwritten anywhere.
ghost use Rattle.std.specs.Prelude.{◌<◌, ◌≤◌};

use crate::noise::below;
use crate::parts;

// The kinds there are.
// Stays: a kind is a number, since it says how many words of the header are right, and each kind begins its noise at its own.
pub const KINDS: u32 = 14;

// The length of a case: that of an image of n darts and v vertices, or any for the kinds that have no right n.
pub(crate) fn extent(kind: usize, n: usize, v: usize, x: u32) -> usize
    requires { (n ≤ 6) × (v < n) }
    ensures { result ≤ 512 }
{
    if kind < 3 {
        return below(x, 300);
    }
    28 + 17 * n + 28 * v
}

// Makes a case over all of the bytes, and gives the number from which the next one goes on.
pub(crate) fn make(bytes: &mut [u8], kind: usize, n: usize, v: usize, seed: u32) -> u32
    requires { (n ≤ 6) × (v < n) }
{
    let filled = parts::fill(bytes, seed);
    parts::put_header(bytes, n, v, kind);
    if kind < 8 {
        return filled;
    }
    let flagged = parts::put_flags(bytes, n, filled);
    if kind < 9 {
        return flagged;
    }
    let named = parts::put_darts(bytes, n, v, flagged);
    if kind < 10 {
        return named;
    }
    if kind == 10 {
        return parts::put_rows(bytes, n, named);
    }
    let mapped = parts::put_map(bytes, n, named);
    if kind == 12 {
        return parts::spoil_coordinates(bytes, n, v, mapped);
    }
    if kind == 13 {
        return parts::overwrite(bytes, mapped);
    }
    mapped
}
