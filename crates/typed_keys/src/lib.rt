// Whether the key of a typed call's map entry matches an element, or a pattern.
#![tactic(auto)]

ghost use Rattle.std.specs.Prelude.{◌≡◌, ◌%◌, ◌^◌};
ghost use Rattle.patterns.specs.Kind.{bits};
ghost use Rattle.patterns.specs.Value.{value_of};
ghost use Rattle.kinds.specs.Table.{kind_of};
ghost use Rattle.cast_spec.specs.Element.{matches};

use typed_patterns::FromPattern;
use typed_values::Number;

// A number of a source, which a map entry can have as its key.
pub trait Key: Number {
    // Whether a key matches this number.
    fn matches(self, key: Self) -> bool
        ensures { result ≡ matches (value_of (kind_of Self.CODE) (Self.pattern self)) (value_of (kind_of Self.CODE) (Self.pattern key)) };
}

// A key that is compared with a pattern, so with a NaN of any bits.
pub trait PatternKey: Number {
    // Whether this key matches the number of the lowest bits of x, as many as its kind has.
    fn matches_pattern(self, x: u64) -> bool
        ensures { result ≡ matches (value_of (kind_of Self.CODE) (x % 2 ^ bits (kind_of Self.CODE))) (value_of (kind_of Self.CODE) (Self.pattern self)) };
}

impl PatternKey for f64 {
    // Equal as floats, or both NaN.
    fn matches_pattern(self, x: u64) -> bool {
        let double = f64::from_pattern(x);
        double == self || double.is_nan() && self.is_nan()
    }
}

impl PatternKey for f32 {
    // Likewise.
    fn matches_pattern(self, x: u64) -> bool {
        let single = f32::from_pattern(x);
        single == self || single.is_nan() && self.is_nan()
    }
}

impl PatternKey for i64 {
    fn matches_pattern(self, x: u64) -> bool {
        x == self.pattern()
    }
}

// ---- an element matches by its own pattern

impl Key for f64 {
    fn matches(self, key: f64) -> bool {
        key.matches_pattern(self.pattern())
    }
}

impl Key for f32 {
    fn matches(self, key: f32) -> bool {
        key.matches_pattern(self.pattern())
    }
}

impl Key for i64 {
    fn matches(self, key: i64) -> bool {
        key.matches_pattern(self.pattern())
    }
}
