// Stores numbers in little-endian bytes: words of four bytes, and coordinates of eight.
#![tactic(auto)]

ghost use Rattle.std.specs.Prelude.{◌≡◌, true, ◌+◌, ◌≤◌, length};
ghost use Rattle.std.proofs.lemmas.List.Edits.{sets};
ghost use Rattle.std.specs.Float.Ieee.Scale.{finite};
ghost use Rattle.image_store.specs.Stores.{stored, coordinate};

// Stores a word in the four bytes from `at` on.
pub fn put_word(bytes: &mut [u8], at: usize, w: u32)
    requires { at + 4 ≤ length bytes.old }
    ensures { bytes.new ≡ sets bytes.old at (stored 4 w) }
{
    bytes[at..at + 4].copy_from_slice(&w.to_le_bytes());
}

// Stores a coordinate, which has to be finite, in the eight bytes from `at` on.
pub fn put_coordinate(bytes: &mut [u8], at: usize, x: f64)
    requires { (at + 8 ≤ length bytes.old) × (finite x ≡ true) }
    ensures { bytes.new ≡ sets bytes.old at (coordinate x) }
{
    bytes[at..at + 8].copy_from_slice(&x.to_le_bytes());
}
