// The range of an integer kind: a whole number is stored, clamped, wrapped or refused, by the range choice.
#![tactic(auto)]

ghost use Rattle.std.specs.Prelude.{◌≡◌, cond};
ghost use Rattle.counts.specs.Counts.{by_pick};
ghost use Rattle.kinds.specs.Row.{integer_of, IntegerRow};
ghost use Rattle.integer_range.specs.Range.{refusing, clamping, end_mag, RangeApplied};

use answers::{ConversionError, Fit, Stored};
use codes::OutOfRangeMode;
use counts::Fared;
use grid::Ternary;
use kinds::IntegerFormat;

// The magnitude of an integer kind's lowest or highest number.
fn end_magnitude(to: IntegerFormat, negative: bool) -> u64
    requires { IntegerRow to }
    ensures { result ≡ end_mag (integer_of to) negative }
{
    let lowest = if to.signed { to.highest + 1 } else { 0 };
    select::choose(negative, lowest, to.highest)
}

// Whether a range choice refuses a pick past the range.
fn refuses(range: OutOfRangeMode) -> bool
    ensures { result ≡ refusing range }
{
    matches!(range, OutOfRangeMode::None)
}

// Whether it clamps one.
fn clamps(range: OutOfRangeMode) -> bool
    ensures { result ≡ clamping range }
{
    matches!(range, OutOfRangeMode::Clamp)
}

// How a pick fared that is stored, by whether it lies past the range, and then is clamped or wrapped, and by where it lies beside its element.
fn fared(past: bool, clamp: bool, ternary: Ternary) -> Fared
    ensures { result ≡ cond past (cond clamp Fared.Clamped Fared.Wrapped) (by_pick ternary) }
{
    match (past, clamp) {
        (false, _) => counts::by_pick(ternary),
        (true, true) => Fared::Clamped,
        (true, false) => Fared::Wrapped,
    }
}

// A whole number to an integer kind, by the range choice: its sign, its magnitude modulo 2^64, whether the magnitude exceeds 64 bits, and where the
// number lies beside the element that it is the pick of.
pub fn apply_range(
    negative: bool,
    magnitude: u64,
    exceeds: bool,
    ternary: Ternary,
    to: IntegerFormat,
    range: OutOfRangeMode,
) -> Fit
    requires { IntegerRow to }
    ensures { RangeApplied negative magnitude exceeds ternary (integer_of to) range result }
{
    let end = end_magnitude(to, negative);
    let past = exceeds | (end < magnitude);
    if past & refuses(range) {
        return Err(ConversionError::OutOfRange);
    }
    let clamp = clamps(range);
    let kept = select::choose(past & clamp, end, magnitude);
    Ok(Stored {
        pattern: wrapping::wrap_magnitude(negative, kept, to.bits),
        fared: fared(past, clamp, ternary),
    })
}
