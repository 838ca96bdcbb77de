// The points of the slots from 1 up: whether they are finite, how many there are, and their records.
ghost use Rattle.std.specs.Prelude.{◌≡◌, true, ℕ, ◌+◌, ◌-◌, ◌*◌, ◌<◌, ◌≤◌, length, get_or};
ghost use Rattle.std.proofs.lemmas.List.Edits.{sets};
ghost use Rattle.std.specs.Float.{nan};
ghost use Rattle.std.specs.Float.Ieee.Scale.{finite};
ghost use Rattle.image_store.specs.Stores.{stored_each};
ghost use Rattle.image_blocks.specs.Image.{points, point_finite, finite_from, record_bytes, point_bytes};

use image_blocks::blocks::bit_of;
use image_form::form::Darts;
use image_store::{put_coordinate, put_word};

// Whether slot d holds no point, or a finite one.
fn point_finite(vertices: &[u8], coordinates: &[f64], d: usize) -> bool
    requires { (d < length vertices.now) × (3 * d + 2 < length coordinates.now) × (d < 1048576) }
    ensures { result ≡ point_finite vertices.now coordinates.now d }
{
    if vertices[d] == 0 {
        return true;
    }
    coordinates[3 * d..3 * d + 3].iter().all(|x| x.is_finite())
}

// Whether the points of the slots from 1 to n - 1 are finite.
pub fn points_finite(vertices: &[u8], coordinates: &[f64], n: Darts) -> bool
    requires { (1 ≤ n.number) × (n.number ≤ length vertices.now) × (3 * n.number ≤ length coordinates.now) }
    ensures { result ≡ finite_from vertices.now coordinates.now 1 (n.number - 1) }
{
    (1..n.number as usize).all(|d| point_finite(vertices, coordinates, d))
}

// How many of the slots from 1 to n - 1 hold points.
pub fn count_points(vertices: &[u8], n: Darts) -> u32
    requires { (1 ≤ n.number) × (n.number ≤ length vertices.now) }
    ensures { (result ≡ length (points vertices.now (n.number - 1))) × (result < n.number) }
{
    let mut v = 0;
    for d in 1..n.number as usize {
        v += u32::from(bit_of(vertices[d]));
    }
    v
}

// Lays the record of dart d at `at`.
fn put_record(bytes: &mut [u8], at: usize, coordinates: &[f64], d: usize)
    requires { (at + 28 ≤ length bytes.old) × (3 * d + 2 < length coordinates.now) × (d < 1048576)
        × ((j : ℕ) → j < 3 → finite (get_or coordinates.now (3 * d + j) nan) ≡ true) }
    ensures { bytes.new ≡ sets bytes.old at (record_bytes coordinates.now d) }
{
    put_word(bytes, at, d as u32);
    put_coordinate(bytes, at + 4, coordinates[3 * d]);
    put_coordinate(bytes, at + 12, coordinates[3 * d + 1]);
    put_coordinate(bytes, at + 20, coordinates[3 * d + 2]);
}

// Lays the record of slot d at `at`, if it holds a point, and gives the place behind it.
fn put_point(bytes: &mut [u8], at: usize, vertices: &[u8], coordinates: &[f64], d: usize) -> usize
    requires { (at + length (point_bytes vertices.now coordinates.now d) ≤ length bytes.old) × (d < length vertices.now)
        × (3 * d + 2 < length coordinates.now) × (d < 1048576) × (point_finite vertices.now coordinates.now d ≡ true) }
    ensures { (bytes.new ≡ sets bytes.old at (point_bytes vertices.now coordinates.now d))
        × (result ≡ at + length (point_bytes vertices.now coordinates.now d)) }
{
    if vertices[d] != 0 {
        put_record(bytes, at, coordinates, d);
        return at + 28;
    }
    at
}

// Lays the records of the slots from 1 to n - 1 from `from` on.
pub fn put_points(bytes: &mut [u8], from: usize, vertices: &[u8], coordinates: &[f64], n: Darts)
    requires { (1 ≤ n.number) × (n.number ≤ length vertices.now) × (3 * n.number ≤ length coordinates.now)
        × (from + 28 * length (points vertices.now (n.number - 1)) ≤ length bytes.old)
        × (finite_from vertices.now coordinates.now 1 (n.number - 1) ≡ true) }
    ensures { bytes.new
        ≡ sets bytes.old from (stored_each (record_bytes coordinates.now) (points vertices.now (n.number - 1))) }
{
    let mut at = from;
    for d in 1..n.number as usize {
        at = put_point(bytes, at, vertices, coordinates, d);
    }
}
