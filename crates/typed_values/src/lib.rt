// The numbers of the typed calls: the kind that each is of, and the pattern of a value.
#![tactic(auto)]

ghost use Rattle.std.specs.Prelude.{◌≡◌, ℕ};
ghost use Rattle.typed_values.specs.Bits.{f64_bits, f32_bits, i64_bits, i32_bits, u8_bits};

// A number of a typed call: the code of its kind, and the pattern of a value in as many lowest bits as the kind has.
pub trait Number: Copy {
    ghost CODE: { ℕ };

    ghost pattern: { Self → ℕ };

    const CODE: u8;

    // The pattern of a value.
    fn pattern(self) -> u64
        ensures { result ≡ pattern self };
}

impl Number for f64 {
    ghost CODE = { 9 };

    ghost pattern = { f64_bits };

    const CODE: u8 = 9;

    // The language gives a NaN no bits: each stands as the quiet NaN.
    fn pattern(self) -> u64 {
        if self.is_nan() {
            return 0x7ff8_0000_0000_0000;
        }
        f64::to_bits(self)
    }
}

impl Number for f32 {
    ghost CODE = { 8 };

    ghost pattern = { f32_bits };

    const CODE: u8 = 8;

    // A NaN, likewise.
    fn pattern(self) -> u64 {
        if self.is_nan() {
            return 0x7fc0_0000;
        }
        u64::from(f32::to_bits(self))
    }
}

impl Number for i64 {
    ghost CODE = { 3 };

    ghost pattern = { i64_bits };

    const CODE: u8 = 3;

    fn pattern(self) -> u64 {
        i64::cast_unsigned(self)
    }
}

impl Number for i32 {
    ghost CODE = { 2 };

    ghost pattern = { i32_bits };

    const CODE: u8 = 2;

    fn pattern(self) -> u64 {
        u64::from(i32::cast_unsigned(self))
    }
}

impl Number for u8 {
    ghost CODE = { 4 };

    ghost pattern = { u8_bits };

    const CODE: u8 = 4;

    fn pattern(self) -> u64 {
        u64::from(self)
    }
}
