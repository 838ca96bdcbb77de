// The writer: all tests first, so that a refusal writes nothing; then the four blocks.
ghost use Rattle.std.specs.Prelude.{◌≡◌, ◌-◌, ◌≤◌, length};
ghost use Rattle.std.proofs.lemmas.List.Edits.{sets};
ghost use Rattle.map_betas.specs.Betas.{darts};
ghost use Rattle.map_betas.specs.Answers.{outcome};
ghost use Rattle.image_blocks.specs.Image.{points, image_of};
ghost use Rattle.image_writer.specs.Writes.{write_test, written, write_image, Writable};

use image_blocks::blocks::{put_flags, put_header, put_words};
use image_form::form::{Darts, ROW_OFFSET, flag_offset, total_bytes, vertex_offset};
use image_points::points::{count_points, points_finite, put_points};
use map_betas::error::{Answer, Done, Refusal};
use map_betas::loans::reader_loans;
use map_guard::guard::guard;

// Refuses rows and flags that are no map, loans that are too short, a null dart that is unused, a point that is not finite.
fn write_test(
    rows: &[u32],
    flags: &[u8],
    vertices: &[u8],
    coordinates: &[f64],
) -> Result<(), Refusal>
    ensures { result ≡ write_test rows.now flags.now vertices.now coordinates.now }
{
    let loans = reader_loans(vertices.len(), coordinates.len());
    guard(rows, flags, loans, 0, 0, 0)?;
    if flags[0] != 0 {
        return Err(Refusal::BadImage(7));
    }
    let n = Darts {
        number: (rows.len() / 4) as u32,
    };
    if !points_finite(vertices, coordinates, n) {
        return Err(Refusal::BadImage(8));
    }
    Ok(())
}

// Lays the image, of v records, from the start of the bytes.
fn put_image(
    rows: &[u32],
    flags: &[u8],
    vertices: &[u8],
    coordinates: &[f64],
    bytes: &mut [u8],
    v: u32,
)
    requires { Writable rows.now flags.now vertices.now coordinates.now × (v ≡ length (points vertices.now (darts rows.now - 1)))
        × (length (image_of rows.now flags.now vertices.now coordinates.now) ≤ length bytes.old) }
    ensures { bytes.new
        ≡ sets bytes.old 0 (image_of rows.now flags.now vertices.now coordinates.now) }
{
    let n = Darts {
        number: (rows.len() / 4) as u32,
    };
    put_header(bytes, n, v);
    put_words(bytes, ROW_OFFSET as usize, rows);
    put_flags(bytes, flag_offset(n) as usize, flags, n.number as usize);
    put_points(bytes, vertex_offset(n) as usize, vertices, coordinates, n);
}

// Writes the image of a map that only room can keep from being written.
fn write_tested(
    rows: &[u32],
    flags: &[u8],
    vertices: &[u8],
    coordinates: &[f64],
    bytes: &mut [u8],
) -> Answer
    requires { Writable rows.now flags.now vertices.now coordinates.now }
    ensures { outcome result bytes.new
        ≡ written (image_of rows.now flags.now vertices.now coordinates.now) bytes.old }
{
    let n = Darts {
        number: (rows.len() / 4) as u32,
    };
    let v = count_points(vertices, n);
    let total = total_bytes(n, v) as usize;
    if bytes.len() < total {
        return Err(Refusal::ImageRoom(total));
    }
    put_image(rows, flags, vertices, coordinates, bytes, v);
    Ok(Done {
        value: 0,
        count: total,
    })
}

// Writes an image of form 1.
pub fn write_image(
    rows: &[u32],
    flags: &[u8],
    vertices: &[u8],
    coordinates: &[f64],
    bytes: &mut [u8],
) -> Answer
    ensures { outcome result bytes.new
        ≡ write_image rows.now flags.now vertices.now coordinates.now bytes.old }
{
    write_test(rows, flags, vertices, coordinates)?;
    write_tested(rows, flags, vertices, coordinates, bytes)
}
