// Points, vertex slots and the geometry test of the 2-sew: what the 2-sew asks of honeycomb's geometry/dim3/vertex.rs.
#![tactic(auto)]

ghost use Rattle.std.specs.Prelude.{◌≡◌};
ghost use Rattle.sew_points.specs.Geometry.{minus_of, dot_of, same_way, Lent, slot_at, slots_refuse, bad_geometry};

// A point: three coordinates kept together.
#[derive(Clone, Copy)]
pub struct Point {
    pub x: f64,
    pub y: f64,
    pub z: f64,
}

// The difference of two points.
// Stays: a type of its own beside `Point`, so that neither is taken for the other.
#[derive(Clone, Copy)]
pub struct Vector {
    pub x: f64,
    pub y: f64,
    pub z: f64,
}

// The vector that leads from b to a, coordinate by coordinate.
pub fn minus(a: Point, b: Point) -> Vector
    ensures { result ≡ minus_of a b }
{
    Vector {
        x: a.x - b.x,
        y: a.y - b.y,
        z: a.z - b.z,
    }
}

// The dot of two vectors; the order of its sums is part of the contract, since each operation rounds.
pub fn dot(a: Vector, b: Vector) -> f64
    ensures { result ≡ dot_of a b }
{
    a.x * b.x + a.y * b.y + a.z * b.z
}

// Whether the edges from l to m1 and from r to m2 do not point against each other; a NaN dot says no.
pub fn same_way(l: Point, m2: Point, m1: Point, r: Point) -> bool
    ensures { result ≡ same_way l m2 m1 r }
{
    dot(minus(m1, l), minus(m2, r)) >= 0.0
}

// The point in the vertex slot of d, where it holds one.
pub fn slot_at(marks: &[u8], coords: &[f64], d: u32) -> Option<Point>
    requires { Lent marks.now coords.now d }
    ensures { result ≡ slot_at marks.now coords.now d }
{
    let at = d as usize;
    if marks[at] == 0 {
        return None;
    }
    let x = coords[3 * at];
    let y = coords[3 * at + 1];
    let z = coords[3 * at + 2];
    Some(Point { x, y, z })
}

// The test over four slots: only where all four are points can it refuse.
pub fn slots_refuse(
    l: Option<Point>,
    m2: Option<Point>,
    m1: Option<Point>,
    r: Option<Point>,
) -> bool
    ensures { result ≡ slots_refuse l m2 m1 r }
{
    match (l, m2, m1, r) {
        (Some(l), Some(m2), Some(m1), Some(r)) => same_way(l, m2, m1, r),
        _ => false,
    }
}

// The 2-sew's geometry test over the slots at the vertex identifiers of ld, m2, m1 and rd: whether they refuse the sew.
pub fn bad_geometry(marks: &[u8], coords: &[f64], l: u32, m2: u32, m1: u32, r: u32) -> bool
    requires lent { Lent marks.now coords.now l × Lent marks.now coords.now m2 }
    requires lent_2 { Lent marks.now coords.now m1 × Lent marks.now coords.now r }
    ensures { result ≡ bad_geometry marks.now coords.now l m2 m1 r }
{
    let at_l = slot_at(marks, coords, l);
    let at_m2 = slot_at(marks, coords, m2);
    let at_m1 = slot_at(marks, coords, m1);
    let at_r = slot_at(marks, coords, r);
    slots_refuse(at_l, at_m2, at_m1, at_r)
}
