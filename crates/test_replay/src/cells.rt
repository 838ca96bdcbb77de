// Identifiers, orbits and lists of cells, which leave the rows as they are.
use inkcapper_flat::{ids, lists, orbits};
use test_records::records::{size, word};

// Makes the call on cells that a record names.
pub fn cells(
    record: &[u8],
    rows: &[u32],
    output: &mut [u32],
    flags: &[u8],
    values: &mut [u64; 3],
) -> Option<u32> {
    let operation = word(record, 0);
    let d = word(record, 2);
    if operation < 19 {
        return identifier(operation, rows, flags, d, values);
    }
    if operation < 26 {
        return orbit(operation, rows, output, flags, d, values);
    }
    if operation == 26 {
        return custom(record, rows, output, flags, d, values);
    }
    list(operation, rows, output, flags, values)
}

// Identifiers of cells.
fn identifier(
    operation: u32,
    rows: &[u32],
    flags: &[u8],
    d: u32,
    values: &mut [u64; 3],
) -> Option<u32> {
    let mut m = [165u8; 8];
    let mut q = [7u32; 8];
    match operation {
        15 => Some(ids::inkcapper_vertex_id(rows, &mut m, &mut q, flags, d, values)),
        16 => Some(ids::inkcapper_edge_id(rows, &mut m, &mut q, flags, d, values)),
        17 => Some(ids::inkcapper_face_id(rows, &mut m, &mut q, flags, d, values)),
        18 => Some(ids::inkcapper_volume_id(rows, &mut m, &mut q, flags, d, values)),
        _ => None,
    }
}

// Orbits by policy.
fn orbit(
    operation: u32,
    rows: &[u32],
    output: &mut [u32],
    flags: &[u8],
    d: u32,
    values: &mut [u64; 3],
) -> Option<u32> {
    let mut m = [165u8; 8];
    match operation {
        19 => Some(orbits::inkcapper_orbit_vertex(rows, &mut m, output, flags, d, values)),
        20 => Some(orbits::inkcapper_orbit_vertex_linear(rows, &mut m, output, flags, d, values)),
        21 => Some(orbits::inkcapper_orbit_edge(rows, &mut m, output, flags, d, values)),
        22 => Some(orbits::inkcapper_orbit_face(rows, &mut m, output, flags, d, values)),
        23 => Some(orbits::inkcapper_orbit_face_linear(rows, &mut m, output, flags, d, values)),
        24 => Some(orbits::inkcapper_orbit_volume(rows, &mut m, output, flags, d, values)),
        25 => Some(orbits::inkcapper_orbit_volume_linear(rows, &mut m, output, flags, d, values)),
        _ => None,
    }
}

// The orbit under the betas of a record.
fn custom(
    record: &[u8],
    rows: &[u32],
    output: &mut [u32],
    flags: &[u8],
    d: u32,
    values: &mut [u64; 3],
) -> Option<u32> {
    let mut m = [165u8; 8];
    let end = 12 + size(record, 10);
    let betas = record.get(12..end)?;
    Some(orbits::inkcapper_orbit_custom(rows, &mut m, output, flags, betas, d, values))
}

// Lists of cells.
fn list(
    operation: u32,
    rows: &[u32],
    output: &mut [u32],
    flags: &[u8],
    values: &mut [u64; 3],
) -> Option<u32> {
    let mut m = [165u8; 8];
    let mut q = [7u32; 8];
    match operation {
        27 => Some(lists::inkcapper_list_vertices(rows, &mut m, &mut q, output, flags, values)),
        28 => Some(lists::inkcapper_list_edges(rows, &mut m, &mut q, output, flags, values)),
        29 => Some(lists::inkcapper_list_faces(rows, &mut m, &mut q, output, flags, values)),
        30 => Some(lists::inkcapper_list_volumes(rows, &mut m, &mut q, output, flags, values)),
        _ => None,
    }
}
