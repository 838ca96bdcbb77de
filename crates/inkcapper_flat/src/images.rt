// The reader and the writer of stored images.
ghost use Rattle.std.specs.Prelude.{◌≡◌};
ghost use Rattle.image_reader.specs.Reads.{loaded, read_image};
ghost use Rattle.image_writer.specs.Writes.{write_image};
ghost use Rattle.map_betas.specs.Flat.{crossing, crossed};

use inkcapper::hand_on;

// Reads an image of form 1 into flags, vertex marks, coordinates and rows.
pub fn inkcapper_read_image(
    bytes: &[u8],
    flags: &mut [u8],
    vertices: &mut [u8],
    coordinates: &mut [f64],
    rows: &mut [u32],
    values: &mut [u64; 3],
) -> u32
    ensures { crossing result values.new (loaded flags.new vertices.new coordinates.new rows.new)
        ≡ crossed (read_image bytes.now flags.old vertices.old coordinates.old rows.old) }
{
    hand_on(
        inkcapper::read_image(bytes, flags, vertices, coordinates, rows),
        values,
    )
}

// Writes an image of form 1 from rows, flags, vertex marks and coordinates.
pub fn inkcapper_write_image(
    rows: &[u32],
    flags: &[u8],
    vertices: &[u8],
    coordinates: &[f64],
    bytes: &mut [u8],
    values: &mut [u64; 3],
) -> u32
    ensures { crossing result values.new bytes.new
        ≡ crossed (write_image rows.now flags.now vertices.now coordinates.now bytes.old) }
{
    hand_on(
        inkcapper::write_image(rows, flags, vertices, coordinates, bytes),
        values,
    )
}
