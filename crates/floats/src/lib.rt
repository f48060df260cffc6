// A float's bit pattern read by its fields: the number, the infinity or the NaN that it stands for. A float of any format is read as the f64 that has its
// value, so that whatever follows knows one form.
#![tactic(auto)]

ghost use Rattle.std.specs.Prelude.{◌≡◌, ℕ};
ghost use Rattle.patterns.specs.Kind.{binary};
ghost use Rattle.float_fields.specs.Widened.{Widens, WidenedFields, widened_of};
ghost use Rattle.floats.specs.Form.{finite_float, infinite_or_nan, float_of, CanonicalClass, f64_of};

use float_fields::{FloatBits, NarrowerBits, Widened};
use scaled::Scaled;

// What a float is but for its sign. A NaN has its fraction as an f64 has it.
#[derive(Clone, Copy)]
pub enum Class {
    Finite(Scaled),
    Infinite,
    NotANumber { fraction: u64 },
}

// A float element: its sign and its class.
#[derive(Clone, Copy)]
pub struct Float {
    pub negative: bool,
    pub class: Class,
}

// A finite float.
fn finite(negative: bool, significand: u64, exponent: u64) -> Float
    ensures { result ≡ finite_float negative significand exponent }
{
    Float {
        negative,
        class: Class::Finite(Scaled {
            significand,
            exponent,
        }),
    }
}

// The float of an exponent field of ones: an infinity, or a NaN whose fraction in an f64 is `nan`.
fn infinite_or_nan(negative: bool, fraction: u64, nan: u64) -> Float
    ensures { result ≡ infinite_or_nan negative fraction nan }
{
    if fraction == 0 {
        return Float {
            negative,
            class: Class::Infinite,
        };
    }
    Float {
        negative,
        class: Class::NotANumber { fraction: nan },
    }
}

// The element of a float narrower than f64, by its widened fields; a NaN's highest fraction bit is set.
pub fn read_widened(f: Widened) -> Float
    requires { WidenedFields f }
    ensures { (p w s b : ℕ) → Widens p w s → f ≡ widened_of p w s b → result ≡ float_of (binary p w s) b }
{
    let exponent = f.exponent;
    let fraction = f.fraction;
    match exponent {
        0 => {
            let x = scaled::normalize(fraction, f.spacing);
            finite(f.negative, x.significand, x.exponent)
        }
        1..=254 => finite(f.negative, (0x80_0000 + fraction) << 29, exponent + 895),
        255.. => {
            let top = (fraction & 0x3f_ffff) << 29;
            infinite_or_nan(f.negative, fraction, 0x8_0000_0000_0000 + top)
        }
    }
}

// The bits of a float, read as an element.
pub trait ReadFloat: FloatBits {
    fn read(self) -> Float
        ensures { result ≡ float_of (binary Self.PRECISION Self.EXPONENT_BITS Self.SPACING) (Self.pattern self) };
}

impl ReadFloat for u64 {
    #[tactic(auto, using(crate::proofs::Arms::f64_zero_field, crate::proofs::Arms::f64_middle_field, crate::proofs::Arms::f64_top_field))]
    fn read(self) -> Float {
        let parts = self.parts();
        let exponent = parts.exponent;
        let fraction = parts.fraction;
        match exponent {
            0 => finite(parts.negative, fraction, 0),
            1..=2046 => finite(parts.negative, 0x10_0000_0000_0000 + fraction, exponent - 1),
            2047.. => infinite_or_nan(parts.negative, fraction, fraction),
        }
    }
}

impl ReadFloat for u32 {
    fn read(self) -> Float {
        read_widened(self.widen())
    }
}

impl ReadFloat for u16 {
    fn read(self) -> Float {
        read_widened(self.widen())
    }
}

// The f64 of an element.
pub fn write_f64(x: Float) -> u64
    requires { CanonicalClass x.class }
    ensures { result ≡ f64_of x }
{
    let sign = float_fields::sign_bit(x.negative, 63);
    match x.class {
        Class::Finite(magnitude) => sign + scaled::finite_bits(magnitude),
        Class::Infinite => sign + 0x7ff0_0000_0000_0000,
        Class::NotANumber { fraction } => sign + 0x7ff0_0000_0000_0000 + fraction,
    }
}
