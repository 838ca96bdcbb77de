// What a list goes by.
use cell_steps::cells::Class;

// A list has of each cell of a class its identifier, or of each orbit of a class its least dart. They differ for faces alone.
#[derive(Clone, Copy, Debug, PartialEq, Eq)]
pub enum Listing {
    Cells(Class),
    Orbits(Class),
}
