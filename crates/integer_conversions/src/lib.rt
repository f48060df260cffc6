// An integer element to an integer kind and to a float kind, from its sign and magnitude to the pattern of the kind's format.
#![tactic(auto)]

ghost use Rattle.std.specs.Prelude.{◌≡◌};
ghost use Rattle.grid.specs.declared.RoundingMode.{RoundingMode};
ghost use Rattle.kinds.specs.Row.{integer_of, float_of, IntegerRow, FloatRow};
ghost use Rattle.integer_conversions.specs.Fit.{fit_integer};

use answers::{Fit, Stored};
use codes::OutOfRangeMode;
use grid::{RoundingMode, Ternary};
use integers::Integer;
use kinds::{FloatFormat, IntegerFormat};

// An integer to an integer kind; nothing is rounded.
pub fn convert_int_to_int(x: Integer, to: IntegerFormat, range: OutOfRangeMode) -> Fit
    requires { IntegerRow to }
    ensures { (mode : RoundingMode) → result ≡ fit_integer (integer_of to) mode range x }
{
    integer_range::apply_range(x.negative, x.magnitude, false, Ternary::Exact, to, range)
}

// An integer to a float kind: rounded once, from its own bits, to the target's precision, as the f64 that is the pick.
pub fn convert_int_to_float(
    x: Integer,
    to: FloatFormat,
    mode: RoundingMode,
    range: OutOfRangeMode,
) -> Fit
    requires { FloatRow to }
    ensures { result ≡ fit_integer (float_of to) mode range x }
{
    let negative = x.negative;
    let precision = to.precision;
    let rounded = integer_to_f64::int_to_f64_magnitude(x.magnitude, negative, precision, mode);
    match precision {
        53 => Ok(Stored {
            pattern: float_fields::sign_bit(negative, 63) + rounded.bits,
            fared: counts::by_pick(rounded.ternary),
        }),
        _ => rebiasing::fit_rebiased(
            rounded.bits,
            rounded.ternary,
            negative,
            precision,
            to.exponent_bits,
            to.spacing,
            range,
        ),
    }
}
