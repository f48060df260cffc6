// A float element to an integer kind and to a float kind, from its sign and class to the pattern of the kind's format.
#![tactic(auto)]

ghost use Rattle.std.specs.Prelude.{◌≡◌, ◌*◌, ◌^◌};
ghost use Rattle.grid.specs.Round.{signed};
ghost use Rattle.kinds.specs.Row.{integer_of, float_of, IntegerRow, FloatRow};
ghost use Rattle.cast_spec.specs.Fit.{fit_number};
ghost use Rattle.scaled.specs.Scaled.{Canonical};
ghost use Rattle.floats.specs.Form.{CanonicalClass};
ghost use Rattle.narrowing.specs.Fit.{fit_float};

use answers::{ConversionError, Fit};
use codes::OutOfRangeMode;
use floats::{Class, Float};
use grid::RoundingMode;
use kinds::{FloatFormat, IntegerFormat};
use scaled::Scaled;

// A float to an integer kind: rounded to a whole number, which then meets the range.
pub fn convert_float_to_int(
    x: Float,
    to: IntegerFormat,
    mode: RoundingMode,
    range: OutOfRangeMode,
) -> Fit
    requires { CanonicalClass x.class × IntegerRow to }
    ensures { result ≡ fit_float (integer_of to) mode range x }
{
    let negative = x.negative;
    let Class::Finite(magnitude) = x.class else {
        return Err(ConversionError::NotFinite);
    };
    let whole = whole_numbers::round_to_whole(magnitude, mode, negative);
    integer_range::apply_range(
        negative,
        whole.magnitude,
        whole.exceeds,
        whole.ternary,
        to,
        range,
    )
}

// A finite float of the given sign to a float kind; to f64 it is exact.
fn finite_to_float(
    x: Scaled,
    negative: bool,
    to: FloatFormat,
    mode: RoundingMode,
    range: OutOfRangeMode,
) -> Fit
    requires { Canonical x × FloatRow to }
    ensures { result ≡ fit_number (float_of to) mode range negative (signed negative (x.significand * 2 ^ x.exponent)) }
{
    let p = to.precision;
    let w = to.exponent_bits;
    match p {
        53 => answers::exact(float_fields::sign_bit(negative, 63) + scaled::finite_bits(x)),
        _ => narrowing::narrow(x, negative, p, w, to.spacing, mode, range),
    }
}

// A float to a float kind: a number is rounded, and an infinity or a NaN is carried. A number is told first, so that the compiler need not tell it twice.
pub fn convert_float_to_float(
    x: Float,
    to: FloatFormat,
    mode: RoundingMode,
    range: OutOfRangeMode,
) -> Fit
    requires { CanonicalClass x.class × FloatRow to }
    ensures { result ≡ fit_float (float_of to) mode range x }
{
    if let Class::Finite(magnitude) = x.class {
        return finite_to_float(magnitude, x.negative, to, mode, range);
    }
    let precision = to.precision;
    match precision {
        53 => answers::exact(floats::write_f64(x)),
        _ => answers::exact(narrowing::narrow_special(x, precision, to.exponent_bits)),
    }
}
