// What an exported call leaves for C and for Rust: the answer's number, and its values and the counts as fields of 64 bits.
#![tactic(auto)]

ghost use Rattle.std.specs.Prelude.{◌≡◌};
ghost use Rattle.answers.specs.Answer.{number_of};
ghost use Rattle.answer_fields.specs.Returned.{value_fields, fields_of};

use answers::{Answer, Refusal, Reply};
use counts::Counts;

// The values of an answer: both counts of elements; position, value, lowest and highest of a refused one; 0 where the answer has no such value.
pub type Values = [u64; 6];

// What an exported call leaves beside its number: those values, and then the counts mapped, exact, rounded, clamped and wrapped. In C and in Rust it is
// a struct of these fields.
pub type Fields = [u64; 11];

// The values of an answer.
fn values(a: Answer) -> Values
    ensures { result ≡ value_fields a }
{
    match a {
        Err(Refusal::LengthMismatch { src_len, dst_len }) => {
            [src_len as u64, dst_len as u64, 0, 0, 0, 0]
        }
        Err(Refusal::NanOrInf { position, value }) => [0, 0, position as u64, value, 0, 0],
        Err(
            Refusal::OutOfRange {
                position,
                value,
                lo,
                hi,
            },
        ) => [0, 0, position as u64, value, lo.cast_unsigned(), hi],
        Err(
            Refusal::FloatOutOfRange {
                position,
                value,
                lo,
                hi,
            },
        ) => [0, 0, position as u64, value, lo, hi],
        _ => [0; 6],
    }
}

// The fields of an answer and of the counts beside it.
pub fn fields(a: Answer, c: Counts) -> Fields
    ensures { result ≡ fields_of a c }
{
    let v = values(a);
    [
        v[0],
        v[1],
        v[2],
        v[3],
        v[4],
        v[5],
        c.mapped as u64,
        c.exact as u64,
        c.rounded as u64,
        c.clamped as u64,
        c.wrapped as u64,
    ]
}

// Leaves the fields of what a call returns in `answer`, and returns the answer's number.
pub fn answered(r: Reply, answer: &mut Fields) -> u8
    ensures { (result ≡ number_of r.answer) × (answer.new ≡ fields_of r.answer r.counts) }
{
    let a = r.answer;
    let c = r.counts;
    *answer = fields(a, c);
    answer_numbers::number(a)
}
