// What is printed: a line for each kind.
use crate::tally::Counts;
use std::io;

// What is right in the cases of each kind, and what was done to them.
const NAMES: [&str; 14] = [
    "noise",
    "form",
    "form, total",
    "form to n",
    "form to row offset",
    "form to flag offset",
    "form to vertex count",
    "header",
    "header, flags",
    "header, flags, darts of vertices",
    "header, flags, darts of vertices, small rows",
    "all but coordinates",
    "all but coordinates, some infinite",
    "all but coordinates, bytes overwritten",
];

// Writes the line of a kind.
pub(crate) fn put_line(rt: &impl Print, kind: usize, counts: &Counts, sum: u32) -> io::Result<()> {
    print!(rt;
        "kind {kind} ({}): accepted {}; BadImage 0 to 8:",
        NAMES.get(kind).copied().unwrap_or(""),
        counts.accepted
    )?;
    for count in &counts.bad_image {
        print!(rt; " {count}")?;
    }
    println!(rt;
        "; NotAMap {}; other {}; sum {sum}",
        counts.not_a_map, counts.other
    )
}
