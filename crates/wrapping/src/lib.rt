// Whole numbers reduced to the bits of an integer kind, two's complement.
#![tactic(auto)]

ghost use Rattle.std.specs.Prelude.{◌≡◌, ◌<◌, ◌≤◌};
ghost use Rattle.grid.specs.Round.{signed};
ghost use Rattle.patterns.specs.Pattern.{low_bits};

// The lowest bits of a whole number; those of a negative one are its residue, formed by wrapping subtraction.
pub fn wrap_magnitude(negative: bool, magnitude: u64, bits: u32) -> u64
    requires { (0 < bits) × (bits ≤ 64) }
    ensures { result ≡ low_bits bits (signed negative magnitude) }
{
    let mask = 0xffff_ffff_ffff_ffff >> (64 - bits);
    let residue = std::num::wrapping_sub_u64(0, magnitude);
    select::choose(negative, residue, magnitude) & mask
}
