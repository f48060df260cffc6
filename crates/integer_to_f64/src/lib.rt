// An integer by its sign and magnitude, rounded once to a float's precision, as the bits of an f64; and its nearest f64.
#![tactic(auto)]

ghost use Rattle.std.specs.Prelude.{◌≡◌, ◌*◌, ◌^◌};
ghost use Rattle.grid.specs.Grid.{float};
ghost use Rattle.grid.specs.Round.{pick, signed};
ghost use Rattle.patterns.specs.Kind.{f64};
ghost use Rattle.grid.specs.declared.RoundingMode.TheVariants.{NearestEven};
ghost use Rattle.patterns.specs.Pattern.{pattern_of};
ghost use Rattle.integer_rounding.specs.Precision.{Precision};
ghost use Rattle.integer_to_f64.specs.RoundedBits.{rounded_bits};

use grid::{Rounded, RoundingMode, Ternary};

// The f64 bits below the sign of the integer rounded once to `precision` significant bits. Zero is told first: a machine that is set to round downwards
// would convert it to -0.
#[tactic(auto, using(crate::proofs::Scale::zero_rounded))]
pub fn int_to_f64_magnitude(
    magnitude: u64,
    negative: bool,
    precision: u32,
    mode: RoundingMode,
) -> Rounded
    requires { Precision precision }
    ensures { result ≡ rounded_bits precision negative mode magnitude }
{
    if magnitude == 0 {
        return Rounded {
            bits: 0,
            ternary: Ternary::Exact,
        };
    }
    let rounded = integer_rounding::round_int_to_precision(magnitude, negative, precision, mode);
    Rounded {
        bits: f64::to_bits(rounded.magnitude),
        ternary: rounded.ternary,
    }
}

// The nearest f64 of an integer, halfway the even one. A zero keeps the sign that is given.
pub fn nearest_f64(magnitude: u64, negative: bool) -> u64
    ensures { result ≡ pattern_of f64 negative (pick (float 53 0) NearestEven (signed negative (magnitude * 2 ^ 1074))) }
{
    let rounded = int_to_f64_magnitude(magnitude, negative, 53, RoundingMode::NearestEven);
    rounded.bits + ((negative as u64) << 63)
}
