// Lists of cells.
ghost use Rattle.std.specs.Prelude.{◌≡◌};
ghost use Rattle.cell_names.specs.Calls.{list_call};
ghost use Rattle.cell_steps.specs.declared.cells.Class.TheVariants.{Vertex, Edge, Face, Volume};
ghost use Rattle.map_betas.specs.Flat.{crossing, crossed};

use inkcapper::{Class, hand_on};

// Lists the vertices of darts that are not unused, ascending.
pub fn inkcapper_list_vertices(
    rows: &[u32],
    marks: &mut [u8],
    queue: &mut [u32],
    output: &mut [u32],
    flags: &[u8],
    values: &mut [u64; 3],
) -> u32
    ensures { crossing result values.new (marks.new, queue.new, output.new)
        ≡ crossed (list_call rows.now marks.old queue.old output.old flags.now Vertex) }
{
    hand_on(
        inkcapper::list_cells(rows, marks, queue, output, flags, Class::Vertex),
        values,
    )
}

// Lists the edges of darts that are not unused, ascending.
pub fn inkcapper_list_edges(
    rows: &[u32],
    marks: &mut [u8],
    queue: &mut [u32],
    output: &mut [u32],
    flags: &[u8],
    values: &mut [u64; 3],
) -> u32
    ensures { crossing result values.new (marks.new, queue.new, output.new)
        ≡ crossed (list_call rows.now marks.old queue.old output.old flags.now Edge) }
{
    hand_on(
        inkcapper::list_cells(rows, marks, queue, output, flags, Class::Edge),
        values,
    )
}

// Lists the faces of darts that are not unused, ascending.
pub fn inkcapper_list_faces(
    rows: &[u32],
    marks: &mut [u8],
    queue: &mut [u32],
    output: &mut [u32],
    flags: &[u8],
    values: &mut [u64; 3],
) -> u32
    ensures { crossing result values.new (marks.new, queue.new, output.new)
        ≡ crossed (list_call rows.now marks.old queue.old output.old flags.now Face) }
{
    hand_on(
        inkcapper::list_cells(rows, marks, queue, output, flags, Class::Face),
        values,
    )
}

// Lists the volumes of darts that are not unused, ascending.
pub fn inkcapper_list_volumes(
    rows: &[u32],
    marks: &mut [u8],
    queue: &mut [u32],
    output: &mut [u32],
    flags: &[u8],
    values: &mut [u64; 3],
) -> u32
    ensures { crossing result values.new (marks.new, queue.new, output.new)
        ≡ crossed (list_call rows.now marks.old queue.old output.old flags.now Volume) }
{
    hand_on(
        inkcapper::list_cells(rows, marks, queue, output, flags, Class::Volume),
        values,
    )
}
