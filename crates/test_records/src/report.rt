// What is printed at the end.
use crate::records::Walked;
use std::io;

// The names of the operations, in their order.
const NAMES: [&str; 31] = [
    "beta",
    "is_i_free",
    "is_free",
    "one_link",
    "two_link",
    "three_link",
    "one_unlink",
    "two_unlink",
    "three_unlink",
    "one_sew",
    "one_unsew",
    "two_sew",
    "two_unsew",
    "three_unsew",
    "vertex_id",
    "edge_id",
    "face_id",
    "volume_id",
    "orbit_vertex",
    "orbit_vertex_linear",
    "orbit_edge",
    "orbit_face",
    "orbit_face_linear",
    "orbit_volume",
    "orbit_volume_linear",
    "orbit_custom",
    "list_vertices",
    "list_edges",
    "list_faces",
    "list_volumes",
    "commands",
];

// A line for each operation.
pub fn operations(rt: &impl Print, agree: &[u64; 32]) -> io::Result<()> {
    for (name, times) in NAMES.iter().zip(&agree[1..]) {
        println!(rt; "{name} {times} agree")?;
    }
    Ok(())
}

// A line for each number that was answered.
pub fn answers(rt: &impl Print, numbers: &[u64; 16]) -> io::Result<()> {
    for (number, &times) in numbers.iter().enumerate() {
        if times != 0 {
            println!(rt; "number {number}: {times} agree")?;
        }
    }
    Ok(())
}

// The first difference and the bytes that are no record, if any; then the last line.
pub fn ending(rt: &impl Print, walked: Walked) -> io::Result<()> {
    if let Some(first) = walked.first {
        println!(rt; "first difference in record {first}")?;
    }
    if walked.rest != 0 {
        println!(rt; "bytes that are no record {}", walked.rest)?;
    }
    println!(rt;
        "replayed {}, differences {}",
        walked.records, walked.differences
    )
}
