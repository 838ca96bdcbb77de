// Numbers that stand in little-endian bytes: words of four bytes, and coordinates of eight.
#![tactic(auto)]

ghost use Rattle.std.specs.Prelude.{◌≡◌, true, ◌+◌, ◌≤◌, length, take, drop};
ghost use Rattle.std.specs.Float.Ieee.Scale.{finite};
ghost use Rattle.image_words.specs.Words.{word32, word64, coordinate_at};

// The N bytes from `at` on.
fn array_at<const N: usize>(bytes: &[u8], at: usize) -> [u8; N]
    requires { at + N ≤ length bytes.now }
    ensures { result ≡ take N (drop at bytes.now) }
{
    let mut array = [0; N];
    array.copy_from_slice(&bytes[at..at + N]);
    array
}

// The word of the four bytes from `at` on.
pub fn word_at(bytes: &[u8], at: usize) -> u32
    requires { at + 4 ≤ length bytes.now }
    ensures { result ≡ word32 bytes.now at }
{
    u32::from_le_bytes(array_at(bytes, at))
}

// The double word of the eight bytes from `at` on.
fn long_at(bytes: &[u8], at: usize) -> u64
    requires { at + 8 ≤ length bytes.now }
    ensures { result ≡ word64 bytes.now at }
{
    u64::from_le_bytes(array_at(bytes, at))
}

// Whether the coordinate of the eight bytes from `at` on is neither a NaN nor an infinity: its exponent is not all ones.
// Stays: std's `is_finite` takes a double, and `from_bits` takes no pattern of a NaN, which is what is asked here.
pub fn finite_at(bytes: &[u8], at: usize) -> bool
    requires { at + 8 ≤ length bytes.now }
    ensures { result ≡ finite (coordinate_at bytes.now at) }
{
    long_at(bytes, at) % 0x8000_0000_0000_0000 < 0x7ff0_0000_0000_0000
}

// The coordinate of the eight bytes from `at` on, which has to be finite.
pub fn coordinate_at(bytes: &[u8], at: usize) -> f64
    requires { (at + 8 ≤ length bytes.now) × (finite (coordinate_at bytes.now at) ≡ true) }
    ensures { result ≡ coordinate_at bytes.now at }
{
    f64::from_bits(long_at(bytes, at))
}
