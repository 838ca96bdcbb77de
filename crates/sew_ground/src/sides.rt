// What a sew asks of a dart: the cells at its two ends.
ghost use Rattle.std.specs.Prelude.{◌≡◌, ◌<◌};
ghost use Rattle.map_betas.specs.Betas.{darts};
ghost use Rattle.cell_steps.specs.Loans.{Clean};
ghost use Rattle.sew_ground.specs.Entries.{all_of};
ghost use Rattle.sew_ground.specs.Two.{side_of, two_entries};

use crate::items::{Items, item_if};
use cell_cores::cores::cell_core;
use cell_steps::cells::{Cell, Class};
use map_betas::rows::Rows;
use sew_plan::Kind;

// A dart's far end, its edge, its vertex and the vertex of its far end.
#[derive(Clone, Copy)]
pub struct Side {
    pub far: u32,
    pub edge: Cell,
    pub near: Cell,
    pub end: Cell,
}

// The side of d in a 2-sew: its far end is by beta 1, or by beta 3 where the face is open.
pub fn side_at(rows: Rows, marks: &mut [u8], queue: &mut [u32], d: u32) -> Side
    requires { (d < darts rows.list.now) × Clean (darts rows.list.now) marks.old queue.old }
    ensures value { result ≡ side_of rows.entry.list.now d }
    ensures marks_unchanged { (marks.new ≡ marks.old) × (queue.new ≡ queue.old) }
{
    let far = rows.beta(1, d).max(rows.beta(3, d));
    let edge = cell_core(rows, Class::Edge, marks, queue, d);
    let near = cell_core(rows, Class::Vertex, marks, queue, d);
    let end = cell_core(rows, Class::Vertex, marks, queue, far);
    Side {
        far,
        edge,
        near,
        end,
    }
}

// The edge and the vertices that two sides merge, or that part into them.
pub fn two_items(kind: Kind, l: Side, r: Side) -> Items
    ensures { all_of result ≡ two_entries kind l r }
{
    let first = item_if(true, Class::Edge, kind, l.edge, r.edge);
    let second = item_if(r.far != 0, Class::Vertex, kind, l.near, r.end);
    let third = item_if(l.far != 0, Class::Vertex, kind, l.end, r.near);
    [first, second, third]
}
