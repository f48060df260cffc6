// An integer rounded once to a float's precision, by its sign and magnitude.
#![tactic(auto)]

ghost use Rattle.std.specs.Prelude.{◌≡◌, ◌<◌};
ghost use Rattle.std.specs.Float.Ieee.{size};
ghost use Rattle.grid.specs.Grid.{float};
ghost use Rattle.grid.specs.Round.{pick_mag, rule_for};
ghost use Rattle.grid.specs.Ternary.{ternary_for};
ghost use Rattle.integer_rounding.specs.Precision.{Precision, Exactly, steps_up};

use grid::{RoundingMode, Ternary};

// How many significant bits a magnitude has.
fn significant_bits(magnitude: u64) -> u32
    ensures { result ≡ size magnitude }
{
    64 - u64::leading_zeros(magnitude)
}

// Whether the magnitude of q units and a rest, of a number of this sign, goes up to q + 1 units.
fn rounds_up(mode: RoundingMode, negative: bool, q: u64, rest: u64, unit: u64) -> bool
    requires { rest < unit }
    ensures { result ≡ steps_up (rule_for negative mode) q rest unit }
{
    let left = unit - rest;
    match mode {
        RoundingMode::NearestEven => left < rest + q % 2,
        RoundingMode::TowardsZero => false,
        RoundingMode::TowardsPositive => if negative { false } else { 0 < rest },
        RoundingMode::TowardsNegative => if negative { 0 < rest } else { false },
        RoundingMode::NearestAway => left <= rest,
    }
}

// A magnitude rounded to some precision, as the f64 that is the pick, and where the pick lies.
#[derive(Clone, Copy)]
pub struct RoundedInteger {
    pub magnitude: f64,
    pub ternary: Ternary,
}

// The magnitude rounded to `precision` significant bits: its kept part, and one unit more where the rule says so, added with no rounding.
pub fn round_int_to_precision(
    magnitude: u64,
    negative: bool,
    precision: u32,
    mode: RoundingMode,
) -> RoundedInteger
    requires { Precision precision }
    ensures { Exactly (pick_mag (float precision 0) (rule_for negative mode) magnitude) result.magnitude × (result.ternary ≡ ternary_for (float precision 0) negative mode magnitude) }
{
    let significant = significant_bits(magnitude);
    if significant <= precision {
        return RoundedInteger {
            magnitude: std::num::nearest_u64_to_f64(magnitude),
            ternary: Ternary::Exact,
        };
    }
    let shift = significant - precision;
    let q = magnitude >> shift;
    let kept = q << shift;
    let rest = magnitude - kept;
    let up = rounds_up(mode, negative, q, rest, 1u64 << shift);
    let more = (up as u64) << shift;
    RoundedInteger {
        magnitude: std::num::nearest_u64_to_f64(kept) + std::num::nearest_u64_to_f64(more),
        ternary: grid::ternary_of(rest == 0, up, negative),
    }
}
