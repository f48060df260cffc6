// A float rounded to a whole number in its own format.
#![tactic(auto)]

ghost use Rattle.std.specs.Prelude.{◌≡◌, ◌*◌, ◌^◌, ◌<◌, ◌≤◌};
ghost use Rattle.grid.specs.Grid.{OnMag, float};
ghost use Rattle.patterns.specs.Kind.{binary};
ghost use Rattle.patterns.specs.Pattern.{mag_bits};
ghost use Rattle.scaled.specs.Scaled.{Canonical};
ghost use Rattle.integral.specs.Integral.{rounded_of};
ghost use Rattle.integral.specs.Whole.{exactly, integral_of};

use float_fields::FloatBits;
use floats::{Class, ReadFloat};
use grid::{Rounded, RoundingMode, Ternary};
use scaled::Scaled;

// A finite magnitude that is a whole number, and where it lies beside the one that was rounded.
#[derive(Clone, Copy)]
struct WholeMagnitude {
    magnitude: Scaled,
    ternary: Ternary,
}

// A finite magnitude rounded to a whole number; from the exponent 1074 on, where the unit is 1, it is whole already.
#[tactic(auto, using(crate::proofs::WholeFloats::whole_stays))]
fn integral(x: Scaled, mode: RoundingMode, negative: bool) -> WholeMagnitude
    requires { Canonical x }
    ensures { result ≡ integral_of negative mode (x.significand * 2 ^ x.exponent) }
{
    if 1074 <= x.exponent {
        return WholeMagnitude {
            magnitude: x,
            ternary: Ternary::Exact,
        };
    }
    let whole = whole_numbers::round_to_whole(x, mode, negative);
    WholeMagnitude {
        magnitude: scaled::normalize(whole.magnitude, 1074),
        ternary: whole.ternary,
    }
}

// A magnitude that the format has, as the bits below a sign: writing it rounds nothing.
fn write_own<B: FloatBits>(x: Scaled, mode: RoundingMode, negative: bool) -> Rounded
    requires { Canonical x × OnMag (float B.PRECISION B.SPACING) (x.significand * 2 ^ x.exponent) }
    ensures { result ≡ exactly (mag_bits B.PRECISION B.SPACING (x.significand * 2 ^ x.exponent)) }
{
    if B::PRECISION == 53 {
        return Rounded {
            bits: scaled::finite_bits(x),
            ternary: Ternary::Exact,
        };
    }
    narrowing::narrow_magnitude(x, B::PRECISION, B::SPACING, mode, negative)
}

// A float rounded to a whole number of its format, with its sign, and where that lies; an infinity and a NaN stay.
pub fn round_with_mode<B: ReadFloat>(b: B, mode: RoundingMode) -> Rounded
    ensures { result ≡ rounded_of (binary B.PRECISION B.EXPONENT_BITS B.SPACING) mode (B.pattern b) }
{
    let x = b.read();
    let negative = x.negative;
    let bits = b.to_u64();
    let Class::Finite(magnitude) = x.class else {
        return Rounded {
            bits,
            ternary: Ternary::Exact,
        };
    };
    let rounded = integral(magnitude, mode, negative);
    let sign = float_fields::sign_bit(negative, B::EXPONENT_BITS + B::PRECISION - 1);
    let written = write_own::<B>(rounded.magnitude, mode, negative);
    Rounded {
        bits: sign + written.bits,
        ternary: rounded.ternary,
    }
}
