// The reader: all tests first, so that a refusal writes nothing; then the four loans.
ghost use Rattle.std.specs.Prelude.{◌≡◌, ℕ, ◌*◌, ◌<◌, ◌≤◌, length, drop};
ghost use Rattle.image_form.specs.Form.{form1, darts_of, total_bytes, record_at, Sound};
ghost use Rattle.image_reader.specs.Tests.{loans_test, blocks_test, image_test};
ghost use Rattle.image_fill.specs.Content.{slots, over, slots_of};
ghost use Rattle.image_reader.specs.Reads.{read_out, read_within, read_image};

use image_checks::blocks::{flags_test, vertices_test};
use image_fill::{copy_bytes, copy_words, put_records};
use image_form::form::{DARTS_AT, Darts, ROW_OFFSET, VERTICES_AT, flag_offset, vertex_offset};
use image_header::header::header_test;
use image_map::map_test;
use image_words::word_at;
use map_betas::error::{Answer, Done, Loan, Refusal};
use map_betas::loans::{Loans, reader_loans};
use map_guard::guard::loan_test;

// Refuses the first loan that is too short for n darts; the rows, the reader's own, come last.
fn loans_test(n: Darts, flags: usize, loans: Loans, rows: usize) -> Result<(), Refusal>
    ensures { result ≡ loans_test n.number flags loans rows }
{
    let count = n.number as usize;
    loan_test(count, flags, loans)?;
    if rows < 4 * count {
        return Err(Refusal::ShortLoan(Loan::Rows));
    }
    Ok(())
}

// Refuses flags, then vertex records, then darts that break a rule.
fn blocks_test(bytes: &[u8], n: Darts, v: u32) -> Result<(), Refusal>
    requires { (1 ≤ n.number) × (total_bytes form1 n.number v ≤ length bytes.now) }
    ensures { result ≡ blocks_test bytes.now n.number v }
{
    flags_test(bytes, n)?;
    vertices_test(bytes, n, v)?;
    map_test(bytes, n)
}

// How many darts an image says it has, behind the test of its header.
fn darts_of(bytes: &[u8]) -> Darts
    requires { (12 ≤ length bytes.now) × (darts_of bytes.now ≤ 1048576) }
    ensures { result.number ≡ darts_of bytes.now }
{
    Darts {
        number: word_at(bytes, DARTS_AT),
    }
}

// All tests of an image of at most `most` darts and of the loans, in order.
fn image_test(
    bytes: &[u8],
    most: Darts,
    flags: usize,
    loans: Loans,
    rows: usize,
) -> Result<(), Refusal>
    ensures { result ≡ image_test most.number bytes.now flags loans rows }
{
    header_test(bytes, most)?;
    let n = darts_of(bytes);
    loans_test(n, flags, loans, rows)?;
    blocks_test(bytes, n, word_at(bytes, VERTICES_AT))
}

// Writes the vertex slots of n darts from v records.
fn fill_slots(bytes: &[u8], n: Darts, v: u32, vertices: &mut [u8], coordinates: &mut [f64])
    requires { (total_bytes form1 n.number v ≤ length bytes.now) × ((k : ℕ) → k < v → Sound bytes.now n.number (record_at n.number k))
        × (n.number ≤ length vertices.old) × (3 * n.number ≤ length coordinates.old) }
    ensures { slots vertices.new coordinates.new
        ≡ over (slots_of bytes.now n.number v) (drop n.number vertices.old) (drop (3 * n.number) coordinates.old) }
{
    vertices[..n.number as usize].fill(0);
    coordinates[..3 * (n.number as usize)].fill(0.0);
    put_records(
        bytes,
        n,
        vertex_offset(n) as usize,
        v as usize,
        vertices,
        coordinates,
    );
}

// Reads an image of at most `most` darts.
pub fn read_within(
    bytes: &[u8],
    most: u32,
    flags: &mut [u8],
    vertices: &mut [u8],
    coordinates: &mut [f64],
    rows: &mut [u32],
) -> Answer
    requires { most ≤ 1048576 }
    ensures { read_out result flags.new vertices.new coordinates.new rows.new
        ≡ read_within most bytes.now flags.old vertices.old coordinates.old rows.old }
{
    let loans = reader_loans(vertices.len(), coordinates.len());
    let limit = Darts { number: most };
    image_test(bytes, limit, flags.len(), loans, rows.len())?;
    let n = darts_of(bytes);
    let count = n.number as usize;
    copy_bytes(bytes, flag_offset(n) as usize, &mut flags[..count]);
    fill_slots(bytes, n, word_at(bytes, VERTICES_AT), vertices, coordinates);
    copy_words(bytes, ROW_OFFSET as usize, &mut rows[..4 * count]);
    Ok(Done { value: 0, count })
}

// Reads an image.
pub fn read_image(
    bytes: &[u8],
    flags: &mut [u8],
    vertices: &mut [u8],
    coordinates: &mut [f64],
    rows: &mut [u32],
) -> Answer
    ensures { read_out result flags.new vertices.new coordinates.new rows.new
        ≡ read_image bytes.now flags.old vertices.old coordinates.old rows.old }
{
    read_within(bytes, 1048576, flags, vertices, coordinates, rows)
}
