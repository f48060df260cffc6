// A finite float rounded to a whole number.
#![tactic(auto)]

ghost use Rattle.std.specs.Prelude.{◌≡◌, ◌*◌, ◌^◌};
ghost use Rattle.scaled.specs.Scaled.{Canonical};
ghost use Rattle.whole_numbers.specs.Whole.{whole_of};

use grid::{RoundingMode, Ternary};
use scaled::Scaled;

// A whole number's magnitude modulo 2^64, whether the magnitude exceeds 64 bits, and where the number lies beside the one that was rounded.
#[derive(Clone, Copy)]
pub struct Whole {
    pub magnitude: u64,
    pub exceeds: bool,
    pub ternary: Ternary,
}

// A finite magnitude of the given sign rounded to a whole number.
pub fn round_to_whole(x: Scaled, mode: RoundingMode, negative: bool) -> Whole
    requires { Canonical x }
    ensures { result ≡ whole_of negative mode (x.significand * 2 ^ x.exponent) }
{
    let exponent = x.exponent;
    if exponent < 1074 {
        let rounded = rounding::round_shift(
            x.significand,
            rounding::at_most_63(1074 - exponent),
            mode,
            negative,
        );
        return Whole {
            magnitude: rounded.bits,
            exceeds: false,
            ternary: rounded.ternary,
        };
    }
    if exponent < 1138 {
        return Whole {
            magnitude: x.significand << (exponent - 1074),
            exceeds: 1085 < exponent,
            ternary: Ternary::Exact,
        };
    }
    Whole {
        magnitude: 0,
        exceeds: true,
        ternary: Ternary::Exact,
    }
}
