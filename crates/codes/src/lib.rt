// The codes of a call: which are listed, which are barred together, and the rounding and the range choice that they name.
#![tactic(auto)]

ghost use Rattle.std.specs.Prelude.{◌≡◌, ◌&&◌, ltb};
ghost use Rattle.codes.specs.Codes.{rounding_of, range_of, wrap_barred};

use grid::RoundingMode;

// What to do with a pick past the target's finite range, in the order of the codes 0 to 2.
#[derive(Clone, Copy)]
pub enum OutOfRangeMode {
    None,
    Clamp,
    Wrap,
}

// How many kind codes, rounding codes and range codes are listed: those from 0 on.
const LISTED_KINDS: u8 = 11;

const LISTED_ROUNDINGS: u8 = 5;

const LISTED_RANGES: u8 = 3;

// The range code of wrap, and the first kind code of a float: those from there on are floats.
const WRAP: u8 = 2;

const FIRST_FLOAT: u8 = 8;

// Whether a rounding code and a range code are listed.
pub fn rules_listed(rounding: u8, range: u8) -> bool
    ensures { result ≡ ltb rounding 5 && ltb range 3 }
{
    rounding < LISTED_ROUNDINGS && range < LISTED_RANGES
}

// Whether every code of a call is listed.
pub fn codes_listed(from: u8, to: u8, rounding: u8, range: u8) -> bool
    ensures { result ≡ ltb from 11 && ltb to 11 && ltb rounding 5 && ltb range 3 }
{
    from < LISTED_KINDS && to < LISTED_KINDS && rules_listed(rounding, range)
}

// Whether the codes ask for wrap with a float target.
pub fn wrap_barred(to: u8, range: u8) -> bool
    ensures { result ≡ wrap_barred to range }
{
    range == WRAP && FIRST_FLOAT <= to
}

// The rounding rule of a code; the codes 0 to 4 are listed.
pub fn rounding_of(code: u8) -> RoundingMode
    ensures { result ≡ rounding_of code }
{
    match code {
        0 => RoundingMode::NearestEven,
        1 => RoundingMode::TowardsZero,
        2 => RoundingMode::TowardsPositive,
        3 => RoundingMode::TowardsNegative,
        _ => RoundingMode::NearestAway,
    }
}

// The range choice of a code; the codes 0 to 2 are listed.
pub fn range_of(code: u8) -> OutOfRangeMode
    ensures { result ≡ range_of code }
{
    match code {
        0 => OutOfRangeMode::None,
        1 => OutOfRangeMode::Clamp,
        _ => OutOfRangeMode::Wrap,
    }
}
