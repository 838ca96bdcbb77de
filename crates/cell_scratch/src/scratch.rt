// Scratch: setting marks back to 0.
ghost use Rattle.std.specs.Prelude.{ℕ, ◌<◌, length};
ghost use Rattle.cell_steps.specs.Search.{In};
ghost use Rattle.cell_steps.specs.Loans.{Cleared};

// Sets the marks of the listed darts to 0.
pub fn clear(marks: &mut [u8], list: &[u32])
    requires { (x : ℕ) → In x list.now → x < length marks.old }
    ensures { Cleared list.now marks.old marks.new }
{
    for &x in list {
        marks[x as usize] = 0;
    }
}
