// A visit puts behind the queue what the steps lead to from a dart. For the four cells the steps are written out, so that no list of steps is read anew at
// every dart.
ghost use Rattle.std.specs.Prelude.{◌≡◌, ◌<◌, [], ◌∷◌, take};
ghost use Rattle.map_betas.specs.Betas.{darts};
ghost use Rattle.cell_steps.specs.Steps.{step as stepBy, image as image_of, vertex, edge};
ghost use Rattle.cell_steps.specs.Search.{visit as visitOf};
ghost use Rattle.cell_steps.specs.Loans.{AreSteps, Queue, Grown, Scratch};

use cell_scratch::steps::{push, step};
use cell_steps::policy::{OrbitPolicy, Steps};
use map_betas::rows::Rows;

// Where the six steps of a vertex lead.
#[derive(Clone, Copy)]
struct VertexImages {
    b12: u32,
    b20: u32,
    b13: u32,
    b30: u32,
    b23: u32,
    b32: u32,
}

// Where the steps of a vertex lead from d. Each beta of d is read once, and all are read before one is put into the queue.
fn vertex_images(rows: Rows, d: u32) -> VertexImages
    requires { d < darts rows.list.now }
    ensures { (result.b12 ≡ image_of rows.entry.list.now (stepBy 1 2) d) × (result.b20 ≡ image_of rows.entry.list.now (stepBy 2 0) d)
        × (result.b13 ≡ image_of rows.entry.list.now (stepBy 1 3) d) × (result.b30 ≡ image_of rows.entry.list.now (stepBy 3 0) d)
        × (result.b23 ≡ image_of rows.entry.list.now (stepBy 2 3) d) × (result.b32 ≡ image_of rows.entry.list.now (stepBy 3 2) d) }
{
    let b0 = rows.beta(0, d);
    let b2 = rows.beta(2, d);
    let b3 = rows.beta(3, d);
    let b12 = rows.beta(1, b2);
    let b20 = rows.beta(2, b0);
    let b13 = rows.beta(1, b3);
    let b30 = rows.beta(3, b0);
    let b23 = rows.beta(2, b3);
    let b32 = rows.beta(3, b2);
    VertexImages {
        b12,
        b20,
        b13,
        b30,
        b23,
        b32,
    }
}

// Visits d by the steps of a vertex.
fn visit_vertex(rows: Rows, marks: &mut [u8], out: &mut [u32], count: usize, d: u32) -> usize
    requires { Scratch rows.list.now marks.old out.old × Queue marks.old out.old count × (d < darts rows.list.now) }
    ensures { Grown out.old count (visitOf rows.entry.list.now vertex d (take count out.old)) marks.new
        out.new result }
{
    let a = vertex_images(rows, d);
    let k1 = push(marks, out, count, a.b12);
    let k2 = push(marks, out, k1, a.b20);
    let k3 = push(marks, out, k2, a.b13);
    let k4 = push(marks, out, k3, a.b30);
    let k5 = push(marks, out, k4, a.b23);
    push(marks, out, k5, a.b32)
}

// Visits d by the steps of an edge.
fn visit_edge(rows: Rows, marks: &mut [u8], out: &mut [u32], count: usize, d: u32) -> usize
    requires { Scratch rows.list.now marks.old out.old × Queue marks.old out.old count × (d < darts rows.list.now) }
    ensures { Grown out.old count (visitOf rows.entry.list.now edge d (take count out.old)) marks.new
        out.new result }
{
    let k1 = step(rows, 2, marks, out, count, d);
    step(rows, 3, marks, out, k1, d)
}

// Visits d by beta 1, its inverse and one beta more: beta 3 for a face, beta 2 for a volume.
fn visit_chain(
    rows: Rows,
    last: u8,
    marks: &mut [u8],
    out: &mut [u32],
    count: usize,
    d: u32,
) -> usize
    requires { Scratch rows.list.now marks.old out.old × Queue marks.old out.old count × (d < darts rows.list.now) × (last < 4) }
    ensures { Grown out.old count (visitOf rows.entry.list.now (1 ∷ 0 ∷ last ∷ []) d (take count out.old)) marks.new
        out.new result }
{
    let k1 = step(rows, 1, marks, out, count, d);
    let k2 = step(rows, 0, marks, out, k1, d);
    step(rows, last, marks, out, k2, d)
}

// Visits d by a list of steps.
fn visit_list(
    rows: Rows,
    steps: &[u8],
    marks: &mut [u8],
    out: &mut [u32],
    count: usize,
    d: u32,
) -> usize
    requires { Scratch rows.list.now marks.old out.old × Queue marks.old out.old count × (d < darts rows.list.now) × AreSteps steps.now }
    ensures { Grown out.old count (visitOf rows.entry.list.now steps.now d (take count out.old))
        marks.new out.new result }
{
    let mut k = count;
    for &c in steps {
        k = step(rows, c, marks, out, k, d);
    }
    k
}

// Visits d by the steps of a search: those of the four cells are written out.
pub fn visit(
    rows: Rows,
    steps: Steps<'_>,
    marks: &mut [u8],
    out: &mut [u32],
    count: usize,
    d: u32,
) -> usize
    requires { Scratch rows.list.now marks.old out.old × Queue marks.old out.old count × (d < darts rows.list.now) }
    ensures { Grown out.old count (visitOf rows.entry.list.now steps.entry.codes.now d (take count out.old))
        marks.new out.new result }
{
    // Stays: a trait with an impl for each policy would say this match in more words.
    match steps.policy {
        OrbitPolicy::Vertex => visit_vertex(rows, marks, out, count, d),
        OrbitPolicy::Edge => visit_edge(rows, marks, out, count, d),
        OrbitPolicy::Face => visit_chain(rows, 3, marks, out, count, d),
        OrbitPolicy::Volume => visit_chain(rows, 2, marks, out, count, d),
        _ => visit_list(rows, steps.codes, marks, out, count, d),
    }
}
