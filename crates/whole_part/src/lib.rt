// The lowest bits of an f64's whole part.
#![tactic(auto)]

ghost use Rattle.std.specs.Prelude.{◌≡◌, ◌<◌, ◌≤◌};
ghost use Rattle.whole_part.specs.WholePart.{wrapped_of};

use floats::{Class, ReadFloat};
use grid::RoundingMode;

// The lowest bits of an f64's whole part, two's complement; 0 for an infinity and a NaN, which have none.
pub fn wrap_integral_f64(b: u64, bits: u32) -> u64
    requires { (0 < bits) × (bits ≤ 64) }
    ensures { result ≡ wrapped_of bits b }
{
    let x = b.read();
    let negative = x.negative;
    let Class::Finite(magnitude) = x.class else {
        return 0;
    };
    let whole = whole_numbers::round_to_whole(magnitude, RoundingMode::TowardsZero, negative);
    wrapping::wrap_magnitude(negative, whole.magnitude, bits)
}
