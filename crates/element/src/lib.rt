// An element of any kind: read from its pattern, and what it came to with the fields of a refusal.
#![tactic(auto)]

ghost use Rattle.std.specs.Prelude.{◌≡◌, Err};
ghost use Rattle.patterns.specs.Pattern.{as_f64};
ghost use Rattle.kinds.specs.Row.{float_of, kind_in, FormatRow};
ghost use Rattle.cast_spec.specs.Fit.{filled};
ghost use Rattle.float_fields.specs.Widened.{widened_of};
ghost use Rattle.floats.specs.Form as form;
ghost use Rattle.element.specs.Element.{FloatPattern, FormatPattern, element_of, element_f64, CanonicalElement};

use answers::{ConversionError, ElementRefusal, Fit, Outcome};
use float_fields::{NarrowerBits, Widened};
use floats::{Float, ReadFloat};
use integers::Integer;
use kinds::{FloatFormat, Format};

// An element of any kind: an integer by sign and magnitude, or a float by sign and class.
#[derive(Clone, Copy)]
pub enum Element {
    Integer(Integer),
    Float(Float),
}

// ---- readers, and the value of a refusal

// The pattern of a float that is narrower than f64, by its fields as an f32's.
fn widen(b: u64, format: FloatFormat) -> Widened
    requires { FloatPattern b format × (format.precision ≡ 53 → ⊥) }
    ensures { result ≡ widened_of format.precision format.exponent_bits format.spacing b }
{
    match format.precision {
        11 => (b as u16).widen(),
        _ => (b as u32).widen(),
    }
}

// A float's pattern as an element. What follows the fields stands once for both narrower formats: so it is small enough that the compiler inlines it.
pub fn read_float(b: u64, format: FloatFormat) -> Float
    requires { FloatPattern b format }
    ensures { result ≡ form.float_of (float_of format) b }
{
    match format.precision {
        53 => b.read(),
        _ => floats::read_widened(widen(b, format)),
    }
}

// A pattern as an element.
fn read(b: u64, format: Format) -> Element
    requires { FormatPattern b format }
    ensures { result ≡ element_of format b }
{
    match format {
        Format::Integer(f) => Element::Integer(integers::int_magnitude(b, f.signed, f.bits)),
        Format::Float(f) => Element::Float(read_float(b, f)),
    }
}

// The f64 of an element; an integer's is the nearest, halfway the even one.
fn as_f64(x: Element) -> u64
    requires { CanonicalElement x }
    ensures { result ≡ element_f64 x }
{
    match x {
        Element::Integer(n) => integer_to_f64::nearest_f64(n.magnitude, n.negative),
        Element::Float(f) => floats::write_f64(f),
    }
}

// The refusal of an element whose f64 is `value`, with its fields.
fn refusal(error: ConversionError, value: u64, target: Format) -> ElementRefusal
    requires { FormatRow target }
    ensures { Err result ≡ filled (kind_in target) value (Err error) }
{
    match error {
        ConversionError::NotFinite => ElementRefusal::NanOrInf { value },
        ConversionError::OutOfRange => match target {
            Format::Integer(t) => ElementRefusal::OutOfRange {
                value,
                lo: t.lowest,
                hi: t.highest,
            },
            Format::Float(t) => ElementRefusal::FloatOutOfRange {
                value,
                lo: t.lowest,
                hi: t.highest,
            },
        },
    }
}

// What an element of the pattern b comes to, with the fields of a refusal, where its steps leave this fit.
pub fn outcome(b: u64, fit: Fit, source: Format, target: Format) -> Outcome
    requires { FormatPattern b source × FormatRow target }
    ensures { result ≡ filled (kind_in target) (as_f64 (kind_in source) b) fit }
{
    match fit {
        Ok(stored) => Ok(stored),
        Err(error) => Err(refusal(error, as_f64(read(b, source)), target)),
    }
}
