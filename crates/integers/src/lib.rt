// An integer pattern's sign and magnitude.
#![tactic(auto)]

ghost use Rattle.std.specs.Prelude.{◌≡◌};
ghost use Rattle.patterns.specs.Kind.{integer};
ghost use Rattle.integers.specs.Magnitude.{IntegerPattern, magnitude_of};

// A whole number by its magnitude, and whether it lies below zero.
#[derive(Clone, Copy)]
pub struct Integer {
    pub negative: bool,
    pub magnitude: u64,
}

// The sign and the magnitude of the pattern b of an integer kind of so many bits.
pub fn int_magnitude(b: u64, signed: bool, bits: u32) -> Integer
    requires { IntegerPattern b bits }
    ensures { result ≡ magnitude_of (integer signed bits) b }
{
    let half = 1u64 << (bits - 1);
    let negative = if signed { half <= b } else { false };
    let opposite = std::num::wrapping_sub_u64(half, std::num::wrapping_sub_u64(b, half));
    Integer {
        negative,
        magnitude: select::choose(negative, opposite, b),
    }
}
