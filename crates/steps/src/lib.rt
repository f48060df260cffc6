// The steps of an element: the target that the map found for it, or its conversion.
#![tactic(auto)]

ghost use Rattle.std.specs.Prelude.{◌≡◌};
ghost use Rattle.grid.specs.declared.RoundingMode.{RoundingMode};
ghost use Rattle.kinds.specs.Row.{integer_of, float_of, IntegerRow, FloatRow};
ghost use Rattle.floats.specs.Form.{CanonicalClass};
ghost use Rattle.narrowing.specs.Fit.{fit_float};
ghost use Rattle.integer_conversions.specs.Fit.{fit_integer};
ghost use Rattle.steps.specs.Steps.{found_fit};

use answers::Fit;
use codes::OutOfRangeMode;
use floats::Float;
use grid::RoundingMode;
use integers::Integer;
use kinds::{FloatFormat, IntegerFormat};

// From an integer kind to an integer kind.
pub fn step_int_to_int(
    x: Integer,
    found: Option<u64>,
    to: IntegerFormat,
    range: OutOfRangeMode,
) -> Fit
    requires { IntegerRow to }
    ensures { (mode : RoundingMode) → result ≡ found_fit found (fit_integer (integer_of to) mode range x) }
{
    if let Some(pattern) = found {
        return answers::mapped(pattern);
    }
    integer_conversions::convert_int_to_int(x, to, range)
}

// From an integer kind to a float kind.
pub fn step_int_to_float(
    x: Integer,
    found: Option<u64>,
    to: FloatFormat,
    mode: RoundingMode,
    range: OutOfRangeMode,
) -> Fit
    requires { FloatRow to }
    ensures { result ≡ found_fit found (fit_integer (float_of to) mode range x) }
{
    if let Some(pattern) = found {
        return answers::mapped(pattern);
    }
    integer_conversions::convert_int_to_float(x, to, mode, range)
}

// From a float kind to an integer kind.
pub fn step_float_to_int(
    x: Float,
    found: Option<u64>,
    to: IntegerFormat,
    mode: RoundingMode,
    range: OutOfRangeMode,
) -> Fit
    requires { CanonicalClass x.class × IntegerRow to }
    ensures { result ≡ found_fit found (fit_float (integer_of to) mode range x) }
{
    if let Some(pattern) = found {
        return answers::mapped(pattern);
    }
    float_conversions::convert_float_to_int(x, to, mode, range)
}

// From a float kind to a float kind.
pub fn step_float_to_float(
    x: Float,
    found: Option<u64>,
    to: FloatFormat,
    mode: RoundingMode,
    range: OutOfRangeMode,
) -> Fit
    requires { CanonicalClass x.class × FloatRow to }
    ensures { result ≡ found_fit found (fit_float (float_of to) mode range x) }
{
    if let Some(pattern) = found {
        return answers::mapped(pattern);
    }
    float_conversions::convert_float_to_float(x, to, mode, range)
}
