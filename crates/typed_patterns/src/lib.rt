// The numbers that patterns are read as: each takes the lowest bits that its kind has.
#![tactic(auto)]

ghost use Rattle.std.specs.Prelude.{◌≡◌, ℕ};
ghost use Rattle.typed_patterns.specs.Values.{u8_of, i32_of, f32_of, f64_of};

use typed_values::Number;

// A number that can be read from a pattern's lowest bits.
pub trait FromPattern: Number {
    ghost from_pattern: { ℕ → Self };

    // The number of a pattern's lowest bits.
    fn from_pattern(b: u64) -> Self
        ensures { result ≡ from_pattern b };
}

impl FromPattern for u8 {
    ghost from_pattern = { u8_of };

    fn from_pattern(b: u64) -> u8 {
        (b % 256) as u8
    }
}

impl FromPattern for i32 {
    ghost from_pattern = { i32_of };

    fn from_pattern(b: u64) -> i32 {
        u32::cast_signed((b % 0x1_0000_0000) as u32)
    }
}

impl FromPattern for f32 {
    ghost from_pattern = { f32_of };

    // Of a NaN's pattern it is a NaN, whose bits the language leaves free.
    fn from_pattern(b: u64) -> f32 {
        let low = b % 0x1_0000_0000;
        if 0x7f80_0000 < low % 0x8000_0000 {
            return f32::NAN;
        }
        f32::from_bits(low as u32)
    }
}

impl FromPattern for f64 {
    ghost from_pattern = { f64_of };

    // A NaN, likewise.
    fn from_pattern(b: u64) -> f64 {
        if 0x7ff0_0000_0000_0000 < b % 0x8000_0000_0000_0000 {
            return f64::NAN;
        }
        f64::from_bits(b)
    }
}
