// The header test: the first wrong word is named.
ghost use Rattle.std.specs.Prelude.{◌≡◌, ◌≤◌, length};
ghost use Rattle.image_form.specs.Tests.{start_test, layout_test, header_test};

use image_form::form::{
    DARTS_AT, Darts, FLAGS_AT, FORM, RECORDS_AT, ROW_OFFSET, ROWS_AT, TOTAL_AT, VERTICES_AT,
    flag_offset, total_bytes, vertex_offset,
};
use image_words::word_at;
use map_betas::error::Refusal;

// Refuses a wrong word 0 or 1: the form, and the total, which is the number of bytes lent.
fn start_test(bytes: &[u8]) -> Result<(), Refusal>
    ensures { result ≡ start_test bytes.now }
{
    let k = bytes.len();
    if k < 4 {
        return Err(Refusal::BadImage(1));
    }
    if word_at(bytes, 0) != FORM {
        return Err(Refusal::BadImage(0));
    }
    if k < 28 {
        return Err(Refusal::BadImage(1));
    }
    if word_at(bytes, TOTAL_AT) as usize != k {
        return Err(Refusal::BadImage(1));
    }
    Ok(())
}

// Refuses a wrong word from 2 to 6: the sizes, and the offsets that follow from them.
fn layout_test(bytes: &[u8], most: Darts) -> Result<(), Refusal>
    requires { 28 ≤ length bytes.now }
    ensures { result ≡ layout_test most.number bytes.now }
{
    let n = word_at(bytes, DARTS_AT);
    if n < 1 {
        return Err(Refusal::BadImage(2));
    }
    if most.number < n {
        return Err(Refusal::BadImage(2));
    }
    let darts = Darts { number: n };
    if word_at(bytes, ROWS_AT) != ROW_OFFSET {
        return Err(Refusal::BadImage(3));
    }
    if word_at(bytes, FLAGS_AT) != flag_offset(darts) {
        return Err(Refusal::BadImage(4));
    }
    let v = word_at(bytes, VERTICES_AT);
    if n <= v {
        return Err(Refusal::BadImage(5));
    }
    if bytes.len() != total_bytes(darts, v) as usize {
        return Err(Refusal::BadImage(5));
    }
    if word_at(bytes, RECORDS_AT) != vertex_offset(darts) {
        return Err(Refusal::BadImage(6));
    }
    Ok(())
}

// Refuses the first wrong header word of an image of at most `most` darts.
pub fn header_test(bytes: &[u8], most: Darts) -> Result<(), Refusal>
    ensures { result ≡ header_test most.number bytes.now }
{
    start_test(bytes)?;
    layout_test(bytes, most)
}
