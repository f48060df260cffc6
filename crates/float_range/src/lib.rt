// The range of a float kind narrower than f64: the bits of a pick are stored, and those that reach an infinity's are clamped to it or refused, by the range choice.
#![tactic(auto)]

ghost use Rattle.std.specs.Prelude.{◌≡◌};
ghost use Rattle.patterns.specs.Float.{inf_bits};
ghost use Rattle.patterns.specs.Pattern as pattern;
ghost use Rattle.float_range.specs.Range.{FormatBits, overrun_fit, fit_bits};

use answers::{ConversionError, Fit, Stored};
use codes::OutOfRangeMode;
use counts::Fared;
use grid::Ternary;

// The bits below the sign of an infinity of p significant bits and w bits of exponent field.
fn infinity_bits(p: u32, w: u32) -> u64
    requires { FormatBits p w }
    ensures { result ≡ inf_bits p w }
{
    ((1u64 << w) - 1) << (p - 1)
}

// The pattern of an infinity of p significant bits and w bits of exponent field.
pub fn infinity(negative: bool, p: u32, w: u32) -> u64
    requires { FormatBits p w }
    ensures { result ≡ pattern.infinity p w negative }
{
    float_fields::sign_bit(negative, w + p - 1) + infinity_bits(p, w)
}

// What overruns the format, by the range choice. Wrap, with which no call comes here, does as none.
pub fn overrun(negative: bool, p: u32, w: u32, range: OutOfRangeMode) -> Fit
    requires { FormatBits p w }
    ensures { result ≡ overrun_fit p w negative range }
{
    if let OutOfRangeMode::Clamp = range {
        return Ok(Stored {
            pattern: infinity(negative, p, w),
            fared: Fared::Clamped,
        });
    }
    Err(ConversionError::OutOfRange)
}

// The bits below a sign as a pattern of the format of p significant bits and w bits of exponent field, or what an overrun comes to where they reach an
// infinity's.
pub fn fit_bits(
    bits: u64,
    ternary: Ternary,
    negative: bool,
    p: u32,
    w: u32,
    range: OutOfRangeMode,
) -> Fit
    requires { FormatBits p w }
    ensures { result ≡ fit_bits p w negative range bits ternary }
{
    if bits < infinity_bits(p, w) {
        return Ok(Stored {
            pattern: float_fields::sign_bit(negative, w + p - 1) + bits,
            fared: counts::by_pick(ternary),
        });
    }
    overrun(negative, p, w, range)
}
