// The papers' number of an answer, and the position of the element that it names.
#![tactic(auto)]

ghost use Rattle.std.specs.Prelude.{◌≡◌};
ghost use Rattle.answers.specs.Answer.{number_of, named_position, names_position};

use answers::{Answer, Refusal};

// The refusals that name the position of an element, from the first to the last.
const FIRST_AT_ELEMENT: usize = 5;

const LAST_AT_ELEMENT: usize = 7;

// The number of an answer, 0 to 8.
pub fn number(a: Answer) -> u8
    ensures { result ≡ number_of a }
{
    match a {
        Ok(()) => 0,
        Err(Refusal::UnknownCode) => 1,
        Err(Refusal::BrokenMap) => 2,
        Err(Refusal::BrokenElement) => 3,
        Err(Refusal::LengthMismatch { .. }) => 4,
        Err(Refusal::NanOrInf { .. }) => 5,
        Err(Refusal::OutOfRange { .. }) => 6,
        Err(Refusal::FloatOutOfRange { .. }) => 7,
        Err(Refusal::BarredWrap) => 8,
    }
}

// Whether an answer of this number names the position of an element; a refusal that names none leaves all the destination as it was.
pub fn names_position(number: usize) -> bool
    ensures { result ≡ names_position number }
{
    FIRST_AT_ELEMENT <= number && number <= LAST_AT_ELEMENT
}

// The position of the element that an answer refuses, where it names one.
pub fn position(a: Answer) -> Option<usize>
    ensures { result ≡ named_position a }
{
    match a {
        Err(Refusal::NanOrInf { position, .. }) => Some(position),
        Err(Refusal::OutOfRange { position, .. }) => Some(position),
        Err(Refusal::FloatOutOfRange { position, .. }) => Some(position),
        _ => None,
    }
}
