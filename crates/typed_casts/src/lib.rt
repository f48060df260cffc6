// One element of a typed call: its conversion to the target, and what it comes to.
#![tactic(auto, using(crate::proofs::Formats::formats))]

ghost use Rattle.std.specs.Prelude.{◌≡◌, ◌^◌, ◌<◌};
ghost use Rattle.patterns.specs.Kind.{bits};
ghost use Rattle.patterns.specs.Pattern.{as_f64};
ghost use Rattle.kinds.specs.Table.{kind_of};
ghost use Rattle.cast_spec.specs.Fit.{filled};
ghost use Rattle.typed_patterns.specs.Pairs.{PairLaws};
ghost use Rattle.typed_patterns.proofs.Pairs.{f64_to_u8, f64_to_i32, f32_to_u8, f64_to_f32, i64_to_f32};

use answers::{Fit, Outcome};
use codes::OutOfRangeMode;
use floats::ReadFloat;
use grid::RoundingMode;
use typed_keys::{Key, PatternKey};
use typed_patterns::FromPattern;
use typed_values::Number;

// What a call's codes say.
#[derive(Clone, Copy)]
pub struct Modes {
    pub rounding: RoundingMode,
    pub range: OutOfRangeMode,
}

// A number of a source that typed calls convert to the target `T`.
pub trait CastTo<T: FromPattern>: Key {
    ghost use Rattle.steps.specs.Steps.{stepped};

    // What the conversion leaves of an element for which the map gives `found`.
    fn cast(self, found: Option<u64>, modes: Modes) -> Fit
        ensures { result ≡ stepped found (kind_of Self.CODE) (kind_of T.CODE) modes.rounding modes.range (Self.pattern self) };

    ghost laws: { PairLaws Self.CODE T.CODE Self.pattern T.pattern T.from_pattern };
}

// A source whose conversion to `T` takes any pattern of its kind, so a NaN of any bits.
pub trait CastPattern<T: FromPattern>: PatternKey {
    ghost use Rattle.std.specs.Prelude.{◌^◌, ◌<◌};
    ghost use Rattle.patterns.specs.Kind.{bits};
    ghost use Rattle.steps.specs.Steps.{stepped};

    // What the conversion leaves of the element of the pattern b, for which the map gives `found`.
    fn cast_pattern(b: u64, found: Option<u64>, modes: Modes) -> Fit
        requires { b < 2 ^ bits (kind_of Self.CODE) }
        ensures { result ≡ stepped found (kind_of Self.CODE) (kind_of T.CODE) modes.rounding modes.range b };

    ghost laws: { PairLaws Self.CODE T.CODE Self.pattern T.pattern T.from_pattern };
}

// What an element comes to, with the fields of a refusal, where its conversion to `T` leaves this fit.
pub fn outcome<S: CastTo<T>, T: FromPattern>(x: S, fit: Fit) -> Outcome
    ensures { result ≡ filled (kind_of T.CODE) (as_f64 (kind_of S.CODE) (S.pattern x)) fit }
{
    let source = kinds::row_of(S::CODE);
    let target = kinds::row_of(T::CODE);
    element::outcome(x.pattern(), fit, source.format, target.format)
}

// What the element of the pattern b comes to, likewise.
pub fn outcome_of_pattern<S: CastPattern<T>, T: FromPattern>(b: u64, fit: Fit) -> Outcome
    requires { b < 2 ^ bits (kind_of S.CODE) }
    ensures { result ≡ filled (kind_of T.CODE) (as_f64 (kind_of S.CODE) b) fit }
{
    let source = kinds::row_of(S::CODE);
    let target = kinds::row_of(T::CODE);
    element::outcome(b, fit, source.format, target.format)
}

// ---- conversions of any pattern

impl CastPattern<u8> for f64 {
    fn cast_pattern(b: u64, found: Option<u64>, modes: Modes) -> Fit {
        let x = b.read();
        steps::step_float_to_int(x, found, kinds::U8, modes.rounding, modes.range)
    }

    ghost laws = { f64_to_u8 };
}

impl CastPattern<i32> for f64 {
    fn cast_pattern(b: u64, found: Option<u64>, modes: Modes) -> Fit {
        let x = b.read();
        steps::step_float_to_int(x, found, kinds::I32, modes.rounding, modes.range)
    }

    ghost laws = { f64_to_i32 };
}

impl CastPattern<u8> for f32 {
    fn cast_pattern(b: u64, found: Option<u64>, modes: Modes) -> Fit {
        let x = (b as u32).read();
        steps::step_float_to_int(x, found, kinds::U8, modes.rounding, modes.range)
    }

    ghost laws = { f32_to_u8 };
}

impl CastPattern<f32> for f64 {
    fn cast_pattern(b: u64, found: Option<u64>, modes: Modes) -> Fit {
        let x = b.read();
        steps::step_float_to_float(x, found, kinds::F32, modes.rounding, modes.range)
    }

    ghost laws = { f64_to_f32 };
}

impl CastPattern<f32> for i64 {
    fn cast_pattern(b: u64, found: Option<u64>, modes: Modes) -> Fit {
        let x = integers::int_magnitude(b, true, 64);
        steps::step_int_to_float(x, found, kinds::F32, modes.rounding, modes.range)
    }

    ghost laws = { i64_to_f32 };
}

// ---- conversions of an element, by its own pattern

impl CastTo<u8> for f64 {
    fn cast(self, found: Option<u64>, modes: Modes) -> Fit {
        <f64 as CastPattern<u8>>::cast_pattern(self.pattern(), found, modes)
    }

    ghost laws = { f64_to_u8 };
}

impl CastTo<i32> for f64 {
    fn cast(self, found: Option<u64>, modes: Modes) -> Fit {
        <f64 as CastPattern<i32>>::cast_pattern(self.pattern(), found, modes)
    }

    ghost laws = { f64_to_i32 };
}

impl CastTo<u8> for f32 {
    fn cast(self, found: Option<u64>, modes: Modes) -> Fit {
        <f32 as CastPattern<u8>>::cast_pattern(self.pattern(), found, modes)
    }

    ghost laws = { f32_to_u8 };
}

impl CastTo<f32> for f64 {
    fn cast(self, found: Option<u64>, modes: Modes) -> Fit {
        <f64 as CastPattern<f32>>::cast_pattern(self.pattern(), found, modes)
    }

    ghost laws = { f64_to_f32 };
}

impl CastTo<f32> for i64 {
    fn cast(self, found: Option<u64>, modes: Modes) -> Fit {
        <i64 as CastPattern<f32>>::cast_pattern(self.pattern(), found, modes)
    }

    ghost laws = { i64_to_f32 };
}
