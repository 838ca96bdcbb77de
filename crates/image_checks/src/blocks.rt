// The tests of the flags and of the vertex records.
ghost use Rattle.std.specs.Prelude.{◌≡◌, ◌+◌, ◌-◌, ◌*◌, ◌≤◌, length};
ghost use Rattle.image_form.specs.Form.{form1, vertex_offset, total_bytes};
ghost use Rattle.image_form.specs.Tests.{bits_only, flags_test, record_good, records_good, vertices_test};

use image_form::form::{Darts, flag_offset, vertex_offset};
use image_words::{finite_at, word_at};
use map_betas::error::Refusal;

// Whether the bytes from `from` up to `to` are 0 or 1.
fn bits_only(bytes: &[u8], from: usize, to: usize) -> bool
    requires { (from ≤ to) × (to ≤ length bytes.now) }
    ensures { result ≡ bits_only (to - from) bytes.now from }
{
    bytes[from..to].iter().all(|&bit| bit <= 1)
}

// Refuses flags that are not 0 or 1, or not 0 at the null dart.
pub fn flags_test(bytes: &[u8], n: Darts) -> Result<(), Refusal>
    requires { (1 ≤ n.number) × (vertex_offset form1 n.number ≤ length bytes.now) }
    ensures { result ≡ flags_test bytes.now n.number }
{
    let from = flag_offset(n) as usize;
    let to = vertex_offset(n) as usize;
    if bytes[from] != 0 {
        return Err(Refusal::BadImage(7));
    }
    if !bits_only(bytes, from, to) {
        return Err(Refusal::BadImage(7));
    }
    Ok(())
}

// Whether the record at `at` has a dart behind `last` and below n, and finite coordinates.
fn record_good(bytes: &[u8], n: u32, at: usize, last: u32) -> bool
    requires { at + 28 ≤ length bytes.now }
    ensures { result ≡ record_good bytes.now n at last }
{
    let d = word_at(bytes, at);
    if d <= last || n <= d {
        return false;
    }
    finite_at(bytes, at + 4) && finite_at(bytes, at + 12) && finite_at(bytes, at + 20)
}

// Whether the v records from `from` on are good, each behind the one before it, the first behind dart 0.
fn records_good(bytes: &[u8], n: u32, from: usize, v: u32) -> bool
    requires { from + 28 * v ≤ length bytes.now }
    ensures { result ≡ records_good v bytes.now n from 0 }
{
    let mut last = 0;
    for k in 0..v as usize {
        let at = from + 28 * k;
        if !record_good(bytes, n, at, last) {
            return false;
        }
        last = word_at(bytes, at);
    }
    true
}

// Refuses vertex records that break a rule.
pub fn vertices_test(bytes: &[u8], n: Darts, v: u32) -> Result<(), Refusal>
    requires { total_bytes form1 n.number v ≤ length bytes.now }
    ensures { result ≡ vertices_test bytes.now n.number v }
{
    if !records_good(bytes, n.number, vertex_offset(n) as usize, v) {
        return Err(Refusal::BadImage(8));
    }
    Ok(())
}
