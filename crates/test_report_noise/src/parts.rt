// The parts of an image, each put right over noise, for at most six darts. What would lie behind the end of the bytes is left out.
// A function that takes a seed gives the number from which the next one goes on.
ghost use Rattle.std.specs.Prelude.{◌<◌, ◌≤◌, length};

use crate::noise::{below, byte, next};

// Sets a byte.
fn put_byte(bytes: &mut [u8], at: usize, x: u8) {
    if let Some(byte) = bytes.get_mut(at) {
        *byte = x;
    }
}

// Sets a word, little-endian.
fn put_word(bytes: &mut [u8], at: usize, x: usize)
    requires { at ≤ 65536 }
{
    let [a, b, c, d] = ((x % 4294967296) as u32).to_le_bytes();
    put_byte(bytes, at, a);
    put_byte(bytes, at + 1, b);
    put_byte(bytes, at + 2, c);
    put_byte(bytes, at + 3, d);
}

// Fills all bytes with noise.
pub(crate) fn fill(bytes: &mut [u8], seed: u32) -> u32 {
    let mut x = seed;
    for place in bytes {
        x = next(x);
        *place = byte(x);
    }
    x
}

// Sets a word where that is asked for.
fn put_word_if(bytes: &mut [u8], wanted: bool, at: usize, x: usize)
    requires { at ≤ 65536 }
{
    if wanted {
        put_word(bytes, at, x);
    }
}

// Sets the first `count` of some words from a place on.
fn put_words(bytes: &mut [u8], at: usize, words: &[usize], count: usize)
    requires { (at ≤ 1024) × (length words.now ≤ 8) }
{
    for (i, &word) in words.iter().enumerate() {
        put_word_if(bytes, i < count, at + 4 * i, word);
    }
}

// Puts the first `count` words of the header right, all seven at most.
pub(crate) fn put_header(bytes: &mut [u8], n: usize, v: usize, count: usize)
    requires { n ≤ 6 }
{
    let words = [1, bytes.len(), n, 28, 28 + 16 * n, v, 28 + 17 * n];
    put_words(bytes, 0, &words, count);
}

// Puts the flags right: 0 for dart 0, 0 or 1 for the others.
pub(crate) fn put_flags(bytes: &mut [u8], n: usize, seed: u32) -> u32
    requires { n ≤ 6 }
{
    let mut x = seed;
    put_byte(bytes, 28 + 16 * n, 0);
    for d in 1..n {
        x = next(x);
        put_byte(bytes, 28 + 16 * n + d, byte(x) / 128);
    }
    x
}

// Puts the darts of the vertices right: one after the other, from any that leaves room for all.
pub(crate) fn put_darts(bytes: &mut [u8], n: usize, v: usize, seed: u32) -> u32
    requires { (n ≤ 6) × (v < n) }
{
    let x = next(seed);
    let first = 1 + below(x, n - v);
    for j in 0..v {
        put_word(bytes, 28 + 17 * n + 28 * j, first + j);
    }
    x
}

// Sets all bits of a coordinate's exponent, once in eight times: an infinity or a NaN, of either sign.
fn spoil_coordinate(bytes: &mut [u8], at: usize, x: u32)
    requires { at ≤ 65536 }
{
    let any = byte(next(x));
    if below(x, 8) == 0 {
        put_byte(bytes, at + 6, 240 + any / 16);
        put_byte(bytes, at + 7, 127 + any / 128 * 128);
    }
}

// Spoils one coordinate in eight or so.
pub(crate) fn spoil_coordinates(bytes: &mut [u8], n: usize, v: usize, seed: u32) -> u32
    requires { (n ≤ 6) × (v < n) }
{
    let mut x = seed;
    for i in 0..3 * v {
        let at = 28 + 17 * n + 28 * (i / 3) + 4 + 8 * (i % 3);
        x = next(x);
        spoil_coordinate(bytes, at, x);
    }
    x
}

// A number as an image at a place of the rows: null in row 0, and where it is no dart.
fn any_image(i: usize, n: usize, to: usize) -> usize {
    if i < 4 || n <= to {
        return 0;
    }
    to
}

// Puts any images below n into the rows, half of them null, and none into row 0.
pub(crate) fn put_rows(bytes: &mut [u8], n: usize, seed: u32) -> u32
    requires { (1 ≤ n) × (n ≤ 6) }
{
    let mut x = seed;
    for i in 0..4 * n {
        x = next(x);
        put_word(bytes, 28 + 4 * i, any_image(i, n, below(x, 2 * n)));
    }
    x
}

// The dart before another in the ring of all real darts.
fn before(n: usize, d: usize) -> usize
    requires { d < n }
{
    if d == 0 {
        return 0;
    }
    if d == 1 {
        return n - 1;
    }
    d - 1
}

// The dart behind another in the ring of all real darts.
fn behind(n: usize, d: usize) -> usize
    requires { d < n }
{
    if d == 0 {
        return 0;
    }
    if d == n - 1 {
        return 1;
    }
    d + 1
}

// Puts the row of a dart of the ring, glued to none.
fn put_row(bytes: &mut [u8], n: usize, d: usize)
    requires { (d < n) × (n ≤ 6) }
{
    let row = [before(n, d), behind(n, d), 0, 0];
    put_words(bytes, 28 + 16 * d, &row, 4);
}

// Puts the rows of the ring.
fn put_ring(bytes: &mut [u8], n: usize)
    requires { n ≤ 6 }
{
    for d in 0..n {
        put_row(bytes, n, d);
    }
}

// Puts a map into the rows: a ring, with darts 1 and 2 glued by beta 2 or by beta 3 or not.
pub(crate) fn put_map(bytes: &mut [u8], n: usize, seed: u32) -> u32
    requires { n ≤ 6 }
{
    let x = next(seed);
    let i = below(x, 4);
    let glued = 2 < n && 1 < i;
    put_ring(bytes, n);
    put_word_if(bytes, glued, 44 + 4 * i, 2);
    put_word_if(bytes, glued, 60 + 4 * i, 1);
    x
}

// A byte as a small number, or as it is.
fn small_or_any(x: u8) -> u8 {
    if x < 128 {
        return x / 32;
    }
    x
}

// Overwrites one to three bytes anywhere, with small numbers or with any.
pub(crate) fn overwrite(bytes: &mut [u8], seed: u32) -> u32 {
    let total = bytes.len();
    let mut x = next(seed);
    if total == 0 {
        return x;
    }
    for _ in 0..1 + below(x, 3) {
        let place = next(x);
        x = next(place);
        put_byte(bytes, below(place, total), small_or_any(byte(x)));
    }
    x
}
