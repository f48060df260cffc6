// The answer to the refusal of an element, with its position.
#![tactic(auto)]

ghost use Rattle.refusals.specs.Refusal.{RefusalOf};

use answers::{Answer, ElementRefusal, Outcome, Refusal};

// The answer that a refusal of the element at a position is; `Ok` where the element was stored.
pub fn refusal(position: usize, o: Outcome) -> Answer
    ensures { RefusalOf position o result }
{
    match o {
        Ok(_) => Ok(()),
        Err(ElementRefusal::NanOrInf { value }) => Err(Refusal::NanOrInf { position, value }),
        Err(ElementRefusal::OutOfRange { value, lo, hi }) => Err(Refusal::OutOfRange {
            position,
            value,
            lo,
            hi,
        }),
        Err(ElementRefusal::FloatOutOfRange { value, lo, hi }) => Err(Refusal::FloatOutOfRange {
            position,
            value,
            lo,
            hi,
        }),
    }
}
