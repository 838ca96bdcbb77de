// Noise: a linear congruential generator. Its upper bits are used, since its lower ones repeat soon.
ghost use Rattle.std.specs.Prelude.{◌<◌, ◌≤◌};

// The number that follows.
pub(crate) fn next(x: u32) -> u32 {
    x.wrapping_mul(1664525).wrapping_add(1013904223)
}

// A number below `end`, from the upper half of `x`.
pub(crate) fn below(x: u32, end: usize) -> usize
    requires { 1 ≤ end }
    ensures { result < end }
{
    (x / 65536) as usize % end
}

// A byte, from the uppermost bits of `x`.
pub(crate) fn byte(x: u32) -> u8 {
    (x / 16777216) as u8
}
