// Orbits, one function for each class.
ghost use Rattle.std.specs.Prelude.{◌≡◌};
ghost use Rattle.cell_steps.specs.Calls.{orbit_call, custom_call};
ghost use Rattle.cell_steps.specs.declared.policy.OrbitPolicy.TheVariants.{Vertex, VertexLinear, Edge, Face, FaceLinear, Volume, VolumeLinear};
ghost use Rattle.map_betas.specs.Flat.{crossing, crossed};

use inkcapper::{OrbitPolicy, hand_on};

// Lists the Vertex orbit of d, first found first.
pub fn inkcapper_orbit_vertex(
    rows: &[u32],
    marks: &mut [u8],
    output: &mut [u32],
    flags: &[u8],
    d: u32,
    values: &mut [u64; 3],
) -> u32
    ensures { crossing result values.new (marks.new, output.new)
        ≡ crossed (orbit_call rows.now marks.old output.old flags.now Vertex d) }
{
    hand_on(
        inkcapper::orbit(rows, marks, output, flags, OrbitPolicy::Vertex, d),
        values,
    )
}

// Lists the VertexLinear orbit of d, first found first.
pub fn inkcapper_orbit_vertex_linear(
    rows: &[u32],
    marks: &mut [u8],
    output: &mut [u32],
    flags: &[u8],
    d: u32,
    values: &mut [u64; 3],
) -> u32
    ensures { crossing result values.new (marks.new, output.new)
        ≡ crossed (orbit_call rows.now marks.old output.old flags.now VertexLinear d) }
{
    hand_on(
        inkcapper::orbit(rows, marks, output, flags, OrbitPolicy::VertexLinear, d),
        values,
    )
}

// Lists the Edge orbit of d, first found first.
pub fn inkcapper_orbit_edge(
    rows: &[u32],
    marks: &mut [u8],
    output: &mut [u32],
    flags: &[u8],
    d: u32,
    values: &mut [u64; 3],
) -> u32
    ensures { crossing result values.new (marks.new, output.new)
        ≡ crossed (orbit_call rows.now marks.old output.old flags.now Edge d) }
{
    hand_on(
        inkcapper::orbit(rows, marks, output, flags, OrbitPolicy::Edge, d),
        values,
    )
}

// Lists the Face orbit of d, first found first.
pub fn inkcapper_orbit_face(
    rows: &[u32],
    marks: &mut [u8],
    output: &mut [u32],
    flags: &[u8],
    d: u32,
    values: &mut [u64; 3],
) -> u32
    ensures { crossing result values.new (marks.new, output.new)
        ≡ crossed (orbit_call rows.now marks.old output.old flags.now Face d) }
{
    hand_on(
        inkcapper::orbit(rows, marks, output, flags, OrbitPolicy::Face, d),
        values,
    )
}

// Lists the FaceLinear orbit of d, first found first.
pub fn inkcapper_orbit_face_linear(
    rows: &[u32],
    marks: &mut [u8],
    output: &mut [u32],
    flags: &[u8],
    d: u32,
    values: &mut [u64; 3],
) -> u32
    ensures { crossing result values.new (marks.new, output.new)
        ≡ crossed (orbit_call rows.now marks.old output.old flags.now FaceLinear d) }
{
    hand_on(
        inkcapper::orbit(rows, marks, output, flags, OrbitPolicy::FaceLinear, d),
        values,
    )
}

// Lists the Volume orbit of d, first found first.
pub fn inkcapper_orbit_volume(
    rows: &[u32],
    marks: &mut [u8],
    output: &mut [u32],
    flags: &[u8],
    d: u32,
    values: &mut [u64; 3],
) -> u32
    ensures { crossing result values.new (marks.new, output.new)
        ≡ crossed (orbit_call rows.now marks.old output.old flags.now Volume d) }
{
    hand_on(
        inkcapper::orbit(rows, marks, output, flags, OrbitPolicy::Volume, d),
        values,
    )
}

// Lists the VolumeLinear orbit of d, first found first.
pub fn inkcapper_orbit_volume_linear(
    rows: &[u32],
    marks: &mut [u8],
    output: &mut [u32],
    flags: &[u8],
    d: u32,
    values: &mut [u64; 3],
) -> u32
    ensures { crossing result values.new (marks.new, output.new)
        ≡ crossed (orbit_call rows.now marks.old output.old flags.now VolumeLinear d) }
{
    hand_on(
        inkcapper::orbit(rows, marks, output, flags, OrbitPolicy::VolumeLinear, d),
        values,
    )
}

// Lists the orbit of d under the listed betas, in their order.
pub fn inkcapper_orbit_custom(
    rows: &[u32],
    marks: &mut [u8],
    output: &mut [u32],
    flags: &[u8],
    betas: &[u8],
    d: u32,
    values: &mut [u64; 3],
) -> u32
    ensures { crossing result values.new (marks.new, output.new)
        ≡ crossed (custom_call rows.now marks.old output.old flags.now betas.now d) }
{
    hand_on(
        inkcapper::orbit_custom(rows, marks, output, flags, betas, d),
        values,
    )
}
