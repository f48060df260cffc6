// A number that f64 has in the bits of a narrower format: the exponent field counts from another start, and nothing is rounded.
#![tactic(auto)]

ghost use Rattle.std.specs.Prelude.{◌≡◌};
ghost use Rattle.float_range.specs.Range.{FormatBits, fit_bits};
ghost use Rattle.narrowing.specs.Format.{Narrower};
ghost use Rattle.rebiasing.specs.Rebiased.{Rebiasable, rebiased, past_bits};

use answers::{Fit, Stored};
use codes::OutOfRangeMode;
use grid::Ternary;

// The bits below the sign of a number that f64 has as `bits`, in a format of p significant bits and the smallest spacing 2^s where the number is 0
// or normal: the exponent field counts from another start, and the low bits are dropped; of a number with p significant bits they are 0.
fn rebias(bits: u64, p: u32, s: u64) -> u64
    requires { Narrower p s × Rebiasable p s bits }
    ensures { result ≡ rebiased p s bits }
{
    if bits == 0 {
        return 0;
    }
    let drop = 53 - p;
    let base = s - (drop as u64);
    (bits - (base << 52)) >> drop
}

// The f64 bits below the sign of the first power of two past the format of p significant bits, w bits of exponent field and the smallest spacing 2^s.
fn first_past(p: u32, w: u32, s: u64) -> u64
    requires { Narrower p s × FormatBits p w }
    ensures { result ≡ past_bits p w s }
{
    let base = s - ((53 - p) as u64);
    (base + ((1u64 << w) - 1)) << 52
}

// A number that has the bits below its sign in f64, and lies where `ternary` says, in the format of p significant bits, w bits of exponent field and the
// smallest spacing 2^s. Its range is told by its bits in f64: that takes fewer instructions than by those that it has in the format.
pub fn fit_rebiased(
    bits: u64,
    ternary: Ternary,
    negative: bool,
    p: u32,
    w: u32,
    s: u64,
    range: OutOfRangeMode,
) -> Fit
    requires { Narrower p s × FormatBits p w × Rebiasable p s bits }
    ensures { result ≡ fit_bits p w negative range (rebiased p s bits) ternary }
{
    if bits < first_past(p, w, s) {
        return Ok(Stored {
            pattern: float_fields::sign_bit(negative, w + p - 1) + rebias(bits, p, s),
            fared: counts::by_pick(ternary),
        });
    }
    float_range::overrun(negative, p, w, range)
}
