// The header, the rows and the flags.
ghost use Rattle.std.specs.Prelude.{◌≡◌, ◌+◌, ◌*◌, ◌<◌, ◌≤◌, length, take};
ghost use Rattle.std.proofs.lemmas.List.Edits.{sets};
ghost use Rattle.image_form.specs.Form.{form1, header_words};
ghost use Rattle.image_store.specs.Stores.{stored_each, words};
ghost use Rattle.image_blocks.specs.Image.{bit_of, bit};

use image_form::form::{
    DARTS_AT, Darts, FLAGS_AT, FORM, RECORDS_AT, ROW_OFFSET, ROWS_AT, TOTAL_AT, VERTICES_AT,
    flag_offset, total_bytes, vertex_offset,
};
use image_store::put_word;

// Lays the seven words of an image of n darts and v records.
pub fn put_header(bytes: &mut [u8], n: Darts, v: u32)
    requires { (28 ≤ length bytes.old) × (v < n.number) }
    ensures { bytes.new ≡ sets bytes.old 0 (words (header_words form1 n.number v)) }
{
    put_word(bytes, 0, FORM);
    put_word(bytes, TOTAL_AT, total_bytes(n, v));
    put_word(bytes, DARTS_AT, n.number);
    put_word(bytes, ROWS_AT, ROW_OFFSET);
    put_word(bytes, FLAGS_AT, flag_offset(n));
    put_word(bytes, VERTICES_AT, v);
    put_word(bytes, RECORDS_AT, vertex_offset(n));
}

// Lays words from `from` on.
pub fn put_words(bytes: &mut [u8], from: usize, rows: &[u32])
    requires { from + 4 * length rows.now ≤ length bytes.old }
    ensures { bytes.new ≡ sets bytes.old from (words rows.now) }
{
    let mut at = from;
    for &row in rows {
        put_word(bytes, at, row);
        at += 4;
    }
}

// 0 or 1: a flag as it is stored, a mark as it is counted.
pub fn bit_of(x: u8) -> u8
    ensures { (result ≡ bit_of x) × (result ≤ 1) }
{
    u8::from(x != 0)
}

// Lays the flags of n darts from `from` on.
pub fn put_flags(bytes: &mut [u8], from: usize, flags: &[u8], n: usize)
    requires { (from + n ≤ length bytes.old) × (n ≤ length flags.now) }
    ensures { bytes.new ≡ sets bytes.old from (stored_each bit (take n flags.now)) }
{
    let mut at = from;
    for &flag in &flags[..n] {
        bytes[at] = bit_of(flag);
        at += 1;
    }
}
