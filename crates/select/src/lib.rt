// One of two numbers by a condition, with no jump on it.
#![tactic(auto)]

ghost use Rattle.std.specs.Prelude.{◌≡◌, cond};

// The one number where the condition holds, and else the other.
pub fn choose(condition: bool, then: u64, otherwise: u64) -> u64
    ensures { result ≡ cond condition then otherwise }
{
    let mask = std::num::wrapping_sub_u64(0, condition as u64);
    let more = std::num::wrapping_sub_u64(then, otherwise);
    std::num::wrapping_add_u64(otherwise, more & mask)
}
