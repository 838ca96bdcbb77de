// The plan of a sew: entries that say which cells merge or split, written as whole groups of u32 numbers.
#![tactic(auto)]

ghost use Rattle.std.specs.Prelude.{◌≡◌, ◌+◌, ◌*◌, ◌≤◌, length};
ghost use Rattle.sew_plan.specs.Plan.{width, code_of, entry_of, entry_words, written, room_of};

use cell_steps::cells::{Cell, Class};

// The numbers that one entry takes: its code, three identifiers and two sizes.
pub const WIDTH: usize = 6;

// What becomes of them.
#[derive(Clone, Copy, Debug, PartialEq, Eq)]
pub enum Kind {
    Merge,
    Split,
}

// An entry: the class of the cells that it is about, and what becomes of them. A merge has a: out, b: left in, c: right in; a split has a: left out, b: right
// out, c: in. Left and right say how many darts the left and the right cell have: those that come in, or those that go out.
#[derive(Clone, Copy)]
pub struct Entry {
    pub class: Class,
    pub kind: Kind,
    pub a: u32,
    pub b: u32,
    pub c: u32,
    pub left: u32,
    pub right: u32,
}

// The merge of two cells into the one that keeps the lesser identifier, or the split of that one into the two.
pub fn entry_of(class: Class, kind: Kind, left: Cell, right: Cell) -> Entry
    ensures { result ≡ entry_of class kind left right }
{
    let lesser = left.least.min(right.least);
    let (a, b, c) = match kind {
        Kind::Merge => (lesser, left.least, right.least),
        Kind::Split => (left.least, right.least, lesser),
    };
    Entry {
        class,
        kind,
        a,
        b,
        c,
        left: left.count,
        right: right.count,
    }
}

// The one number that stands for an entry's class and kind.
pub fn code(e: Entry) -> u32
    ensures { result ≡ code_of e.class e.kind }
{
    match (e.class, e.kind) {
        (Class::Vertex, Kind::Merge) => 1,
        (Class::Edge, Kind::Merge) => 2,
        (Class::Face, Kind::Merge) => 3,
        (Class::Volume, Kind::Merge) => 4,
        (Class::Vertex, Kind::Split) => 11,
        (Class::Edge, Kind::Split) => 12,
        (Class::Face, Kind::Split) => 13,
        (Class::Volume, Kind::Split) => 14,
    }
}

// The numbers of an entry, as they stand in the plan.
impl From<Entry> for [u32; WIDTH] {
    ghost from_gives = { λ e words. words ≡ entry_words e };

    fn from(e: Entry) -> [u32; WIDTH] {
        [code(e), e.a, e.b, e.c, e.left, e.right]
    }
}

// How many whole entries a plan has room for.
pub fn room(plan: &[u32]) -> usize
    ensures { result ≡ room_of plan.now }
{
    plan.len() / WIDTH
}

// Writes an entry as the plan's entry number `at`, and nothing else.
pub fn write_entry(plan: &mut [u32], at: usize, e: Entry)
    requires { width * at + width ≤ length plan.old }
    ensures { plan.new ≡ written plan.old at e }
{
    let p = WIDTH * at;
    let words = <[u32; WIDTH]>::from(e);
    plan[p..p + WIDTH].copy_from_slice(&words);
}
