// The classes of cells, and what is said of a cell.

// The cells of a 3-map: 0-cells, 1-cells, 2-cells and 3-cells.
#[derive(Clone, Copy, Debug, PartialEq, Eq)]
pub enum Class {
    Vertex,
    Edge,
    Face,
    Volume,
}

// A cell: its least dart, which is its name, and how many darts it has. The null dart's is 0 and 0.
#[derive(Clone, Copy, Debug, PartialEq, Eq)]
pub struct Cell {
    pub least: u32,
    pub count: u32,
}
