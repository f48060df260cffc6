// A float rounded once to a narrower format: a finite magnitude, an infinity and a NaN, for any format narrower than f64.
#![tactic(auto)]

ghost use Rattle.std.specs.Prelude.{◌≡◌, ℕ, ◌*◌, ◌^◌, ◌<◌};
ghost use Rattle.grid.specs.Round.{signed};
ghost use Rattle.grid.specs.declared.RoundingMode.{RoundingMode};
ghost use Rattle.patterns.specs.Kind.{binary};
ghost use Rattle.patterns.specs.Pattern.{quiet};
ghost use Rattle.codes.specs.declared.OutOfRangeMode.{OutOfRangeMode};
ghost use Rattle.answers.specs.Outcome.{fit_as};
ghost use Rattle.cast_spec.specs.Fit.{fit_number};
ghost use Rattle.scaled.specs.Scaled.{Canonical};
ghost use Rattle.float_range.specs.Range.{FormatBits};
ghost use Rattle.narrowing.specs.Format.{Narrower, narrowed};
ghost use Rattle.narrowing.specs.Fit.{Special, fit_float};

use answers::Fit;
use codes::OutOfRangeMode;
use counts::Fared;
use floats::{Class, Float};
use grid::{Rounded, RoundingMode};
use scaled::Scaled;

// The bits below the sign of a finite magnitude, rounded to p significant bits and the smallest spacing 2^s; those of an infinity or more where the
// format is overrun.
pub fn narrow_magnitude(x: Scaled, p: u32, s: u64, mode: RoundingMode, negative: bool) -> Rounded
    requires { Canonical x × Narrower p s }
    ensures { result ≡ narrowed p s negative mode (x.significand * 2 ^ x.exponent) }
{
    let exponent = x.exponent;
    let drop = 53 - p;
    let base = s - (drop as u64);
    if base <= exponent {
        let bits = ((exponent - base) << 52) + x.significand;
        return rounding::round_shift(bits, drop, mode, negative);
    }
    let bits = rounding::at_most_63(s - exponent);
    rounding::round_shift(x.significand, bits, mode, negative)
}

// A finite magnitude of the given sign rounded to the format of p significant bits, w bits of exponent field and the smallest spacing 2^s.
pub fn narrow(
    x: Scaled,
    negative: bool,
    p: u32,
    w: u32,
    s: u64,
    mode: RoundingMode,
    range: OutOfRangeMode,
) -> Fit
    requires { Canonical x × Narrower p s × FormatBits p w }
    ensures { result ≡ fit_number (binary p w s) mode range negative (signed negative (x.significand * 2 ^ x.exponent)) }
{
    let rounded = narrow_magnitude(x, p, s, mode, negative);
    float_range::fit_bits(rounded.bits, rounded.ternary, negative, p, w, range)
}

// The top of an f64 NaN's fraction as one of p - 1 bits, with the highest bit set.
fn quiet_fraction(fraction: u64, p: u32) -> u64
    requires { (1 < p) × (p < 53) × (fraction < 2 ^ 52) }
    ensures { result ≡ quiet 53 p fraction }
{
    let highest = 1u64 << (p - 2);
    highest + ((fraction >> (53 - p)) & (highest - 1))
}

// An infinity or a NaN in the format of p significant bits and w bits of exponent field: its sign stays, and of a NaN the top of its fraction. It is
// exact, whatever the spacing, the rule and the range choice.
pub fn narrow_special(x: Float, p: u32, w: u32) -> u64
    requires { Special x.class × FormatBits p w }
    ensures { (s : ℕ) (mode : RoundingMode) (range : OutOfRangeMode) → fit_as result Fared.Exact ≡ fit_float (binary p w s) mode range x }
{
    let infinity = float_range::infinity(x.negative, p, w);
    if let Class::NotANumber { fraction } = x.class {
        return infinity + quiet_fraction(fraction, p);
    }
    infinity
}
