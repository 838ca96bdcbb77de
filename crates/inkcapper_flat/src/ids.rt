// Identifiers of cells.
ghost use Rattle.std.specs.Prelude.{◌≡◌};
ghost use Rattle.cell_names.specs.Calls.{id_call};
ghost use Rattle.cell_steps.specs.declared.cells.Class.TheVariants.{Vertex, Edge, Face, Volume};
ghost use Rattle.map_betas.specs.Flat.{crossing, crossed};

use inkcapper::{Class, hand_on};

// The least dart of d's vertex.
pub fn inkcapper_vertex_id(
    rows: &[u32],
    marks: &mut [u8],
    queue: &mut [u32],
    flags: &[u8],
    d: u32,
    values: &mut [u64; 3],
) -> u32
    ensures { crossing result values.new (marks.new, queue.new)
        ≡ crossed (id_call rows.now marks.old queue.old flags.now Vertex d) }
{
    hand_on(
        inkcapper::cell_id(rows, marks, queue, flags, Class::Vertex, d),
        values,
    )
}

// The least dart of d's edge.
pub fn inkcapper_edge_id(
    rows: &[u32],
    marks: &mut [u8],
    queue: &mut [u32],
    flags: &[u8],
    d: u32,
    values: &mut [u64; 3],
) -> u32
    ensures { crossing result values.new (marks.new, queue.new)
        ≡ crossed (id_call rows.now marks.old queue.old flags.now Edge d) }
{
    hand_on(
        inkcapper::cell_id(rows, marks, queue, flags, Class::Edge, d),
        values,
    )
}

// The face identifier of d, as the Rust walks it.
pub fn inkcapper_face_id(
    rows: &[u32],
    marks: &mut [u8],
    queue: &mut [u32],
    flags: &[u8],
    d: u32,
    values: &mut [u64; 3],
) -> u32
    ensures { crossing result values.new (marks.new, queue.new)
        ≡ crossed (id_call rows.now marks.old queue.old flags.now Face d) }
{
    hand_on(
        inkcapper::cell_id(rows, marks, queue, flags, Class::Face, d),
        values,
    )
}

// The least dart of d's volume.
pub fn inkcapper_volume_id(
    rows: &[u32],
    marks: &mut [u8],
    queue: &mut [u32],
    flags: &[u8],
    d: u32,
    values: &mut [u64; 3],
) -> u32
    ensures { crossing result values.new (marks.new, queue.new)
        ≡ crossed (id_call rows.now marks.old queue.old flags.now Volume d) }
{
    hand_on(
        inkcapper::cell_id(rows, marks, queue, flags, Class::Volume, d),
        values,
    )
}
