// A push into the queue of a list. The null dart stands in it from the start, so that no image has to be tested for null.
ghost use Rattle.std.specs.Prelude.{◌<◌, ◌≤◌, length, take};
ghost use Rattle.cell_steps.specs.Search.{In, add};
ghost use Rattle.cell_steps.specs.Loans.{Queue, Grown};

use cell_scratch::steps::put;

// Puts x behind the k darts of the queue, where it is not there, and returns how many there are now.
pub fn meet(marks: &mut [u8], queue: &mut [u32], k: usize, x: u32) -> usize
    requires { Queue marks.old queue.old k × (x < length marks.old) × (length marks.old ≤ length queue.old) × In 0 (take k queue.old) }
    ensures { Grown queue.old k (add (take k queue.old) x) marks.new queue.new result }
{
    if marks[x as usize] != 0 {
        return k;
    }
    put(marks, queue, k, x);
    k + 1
}
