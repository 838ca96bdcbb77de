// Writes what an image says into the loans: each loan from its start, as far as n darts reach.
#![tactic(auto)]

ghost use Rattle.std.specs.Prelude.{◌≡◌, ℕ, ◌+◌, ◌*◌, ◌<◌, ◌≤◌, length};
ghost use Rattle.image_words.specs.Words.{words_at, bytes_at};
ghost use Rattle.image_form.specs.Form.{Sound};
ghost use Rattle.image_fill.specs.Content.{slots, put_record, put_records};

use image_form::form::Darts;
use image_words::{coordinate_at, word_at};

// Copies the words from `from` on, as many as `rows` has places.
pub fn copy_words(bytes: &[u8], from: usize, rows: &mut [u32])
    requires { from + 4 * length rows.old ≤ length bytes.now }
    ensures { rows.new ≡ words_at bytes.now from (length rows.old) }
{
    let mut at = from;
    for row in rows {
        *row = word_at(bytes, at);
        at += 4;
    }
}

// Copies the bytes from `from` on, as many as `flags` has places.
pub fn copy_bytes(bytes: &[u8], from: usize, flags: &mut [u8])
    requires { from + length flags.old ≤ length bytes.now }
    ensures { flags.new ≡ bytes_at bytes.now from (length flags.old) }
{
    let mut at = from;
    // Stays: by std's `copy_from_slice` the archive for C would need `memmove` from outside.
    for flag in flags {
        *flag = bytes[at];
        at += 1;
    }
}

// Puts the record at `at` into its slot.
fn put_record(bytes: &[u8], n: Darts, at: usize, marks: &mut [u8], coordinates: &mut [f64])
    requires { (at + 28 ≤ length bytes.now) × Sound bytes.now n.number at × (n.number ≤ length marks.old) × (3 * n.number ≤ length coordinates.old) }
    ensures { slots marks.new coordinates.new
        ≡ put_record bytes.now at (slots marks.old coordinates.old) }
{
    let d = word_at(bytes, at) as usize;
    marks[d] = 1;
    coordinates[3 * d] = coordinate_at(bytes, at + 4);
    coordinates[3 * d + 1] = coordinate_at(bytes, at + 12);
    coordinates[3 * d + 2] = coordinate_at(bytes, at + 20);
}

// Puts the v records from `from` on into their slots.
pub fn put_records(
    bytes: &[u8],
    n: Darts,
    from: usize,
    v: usize,
    marks: &mut [u8],
    coordinates: &mut [f64],
)
    requires { (from + 28 * v ≤ length bytes.now) × ((k : ℕ) → k < v → Sound bytes.now n.number (from + 28 * k))
        × (n.number ≤ length marks.old) × (3 * n.number ≤ length coordinates.old) }
    ensures { slots marks.new coordinates.new
        ≡ put_records v bytes.now from (slots marks.old coordinates.old) }
{
    for k in 0..v {
        put_record(bytes, n, from + 28 * k, marks, coordinates);
    }
}
