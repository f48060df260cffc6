// Rounding by a rule: low bits dropped from a magnitude.
#![tactic(auto)]

ghost use Rattle.std.specs.Prelude.{◌≡◌, ◌^◌, ◌<◌, min};
ghost use Rattle.grid.specs.Round.{rule_for};
ghost use Rattle.rounding.specs.Rounding.{increment_of, Droppable, shifted};

use grid::{Rounded, RoundingMode};

// What is added to a magnitude before its low bits are dropped: q is the kept part, and ones is all ones in the dropped bits.
fn increment(q: u64, ones: u64, mode: RoundingMode, negative: bool) -> u64
    requires { ones < 2 ^ 63 }
    ensures { result ≡ increment_of (rule_for negative mode) q ones }
{
    match mode {
        RoundingMode::NearestEven => ones / 2 + q % 2,
        RoundingMode::TowardsZero => 0,
        RoundingMode::TowardsPositive => { if negative { 0 } else { ones } }
        RoundingMode::TowardsNegative => { if negative { ones } else { 0 } }
        RoundingMode::NearestAway => ones - ones / 2,
    }
}

// The magnitude m of a number of the given sign, with its low bits dropped by the rule.
pub fn round_shift(m: u64, bits: u32, mode: RoundingMode, negative: bool) -> Rounded
    requires { Droppable m bits }
    ensures { result ≡ shifted negative mode m bits }
{
    let ones = (1u64 << bits) - 1;
    let q = m >> bits;
    let kept = (m + increment(q, ones, mode, negative)) >> bits;
    Rounded {
        bits: kept,
        ternary: grid::ternary_of(m & ones == 0, q < kept, negative),
    }
}

// How many bits to drop of a number of at most 53, where so many are to go: dropping 63 leaves what dropping more would.
pub fn at_most_63(bits: u64) -> u32
    ensures { result ≡ min bits 63 }
{
    if bits < 63 { bits as u32 } else { 63 }
}
