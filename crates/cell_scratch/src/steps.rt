// A step from a dart, and a dart put behind the queue. The lent list is its own queue, marks stand for the hash set of the Rust.
ghost use Rattle.std.specs.Prelude.{◌≡◌, ◌+◌, ◌<◌, ◌≤◌, [], ◌∷◌, ◌++◌, length, take};
ghost use Rattle.map_betas.specs.Betas.{darts};
ghost use Rattle.cell_steps.specs.Steps.{image as image_of, IsStep};
ghost use Rattle.cell_steps.specs.Search.{In, add};
ghost use Rattle.cell_steps.specs.Loans.{Queue, Grown, Scratch};

use map_betas::rows::Rows;

// Where the step c leads from d.
pub fn image(rows: Rows, c: u8, d: u32) -> u32
    requires { IsStep c × (d < darts rows.list.now) }
    ensures { result ≡ image_of rows.entry.list.now c d }
{
    let s = u32::from(c);
    if s < 16 {
        return rows.beta(s, d);
    }
    let m = rows.beta(s % 16, d);
    rows.beta(s / 16, m)
}

// Puts x, which is not there, behind the k darts of the queue.
pub fn put(marks: &mut [u8], out: &mut [u32], k: usize, x: u32)
    requires { Queue marks.old out.old k × (x < length marks.old) × (length marks.old ≤ length out.old) × (In x (take k out.old) → ⊥) }
    ensures { Grown out.old k (take k out.old ++ (x ∷ [])) marks.new out.new (k + 1) }
{
    marks[x as usize] = 1;
    out[k] = x;
}

// Puts x behind the k darts of the queue, where x is neither null nor there, and returns how many there are now.
pub fn push(marks: &mut [u8], out: &mut [u32], k: usize, x: u32) -> usize
    requires { Queue marks.old out.old k × (x < length marks.old) × (length marks.old ≤ length out.old) }
    ensures { Grown out.old k (add (take k out.old) x) marks.new out.new result }
{
    if x == 0 {
        return k;
    }
    if marks[x as usize] != 0 {
        return k;
    }
    put(marks, out, k, x);
    k + 1
}

// Puts where the step c leads from d behind the queue.
pub fn step(rows: Rows, c: u8, marks: &mut [u8], out: &mut [u32], k: usize, d: u32) -> usize
    requires { Scratch rows.list.now marks.old out.old × Queue marks.old out.old k × IsStep c × (d < darts rows.list.now) }
    ensures { Grown out.old k (add (take k out.old) (image_of rows.entry.list.now c d)) marks.new out.new result }
{
    let x = image(rows, c, d);
    push(marks, out, k, x)
}
