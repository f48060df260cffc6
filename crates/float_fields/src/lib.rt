// The fields of a float's bits: its sign, exponent field and fraction, and those of a narrower float as an f32's.
#![tactic(auto)]

ghost use Rattle.std.specs.Prelude.{◌≡◌, cond, ◌^◌, ◌<◌};

mod bits;

pub use bits::{FloatBits, NarrowerBits};

// Sign, exponent field and fraction of a float's bits.
#[derive(Clone, Copy)]
pub struct Parts {
    pub negative: bool,
    pub exponent: u64,
    pub fraction: u64,
}

// The fields of a float narrower than f64, as those of an f32: the exponent field counts from f32's start, and the fraction stands at the top. At the
// exponent field 0 the fraction counts units of 2^spacing.
#[derive(Clone, Copy)]
pub struct Widened {
    pub negative: bool,
    pub exponent: u64,
    pub fraction: u64,
    pub spacing: u64,
}

// The sign's bit at a place.
pub fn sign_bit(negative: bool, place: u32) -> u64
    requires { place < 64 }
    ensures { result ≡ cond negative (2 ^ place) 0 }
{
    u64::from(negative) << place
}
