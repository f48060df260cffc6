// What a call or one element of it can answer.
#![tactic(auto)]

ghost use Rattle.std.specs.Prelude.{◌≡◌};
ghost use Rattle.answers.specs.Outcome.{fit_as};

use counts::{Counts, Fared};

// What is stored for an element: its target pattern, and how it fared.
#[derive(Clone, Copy)]
pub struct Stored {
    pub pattern: u64,
    pub fared: Fared,
}

// Why an element is refused. A value and a float's ends are f64 patterns.
#[derive(Clone, Copy)]
pub enum ElementRefusal {
    NanOrInf { value: u64 },
    OutOfRange { value: u64, lo: i64, hi: u64 },
    FloatOutOfRange { value: u64, lo: u64, hi: u64 },
}

// What one element comes to.
pub type Outcome = Result<Stored, ElementRefusal>;

// Why a conversion leaves nothing to store; the fields of a refusal come later.
#[derive(Clone, Copy)]
pub enum ConversionError {
    NotFinite,
    OutOfRange,
}

// What a conversion leaves of an element.
pub type Fit = Result<Stored, ConversionError>;

// Why a chunk call is refused, in the order of the numbers 1 to 8.
#[derive(Clone, Copy)]
pub enum Refusal {
    UnknownCode,
    BrokenMap,
    BrokenElement,
    LengthMismatch {
        src_len: usize,
        dst_len: usize,
    },
    NanOrInf {
        position: usize,
        value: u64,
    },
    OutOfRange {
        position: usize,
        value: u64,
        lo: i64,
        hi: u64,
    },
    FloatOutOfRange {
        position: usize,
        value: u64,
        lo: u64,
        hi: u64,
    },
    BarredWrap,
}

// What a chunk call answers: that all is converted, or the refusal.
pub type Answer = Result<(), Refusal>;

// What a call returns: its answer, and how the elements fared that it converted.
#[derive(Clone, Copy)]
pub struct Reply {
    pub answer: Answer,
    pub counts: Counts,
}

// What a preview returns: the reply of the call, and how many bytes of its destination the call would change.
#[derive(Clone, Copy)]
pub struct Preview {
    pub reply: Reply,
    pub changed: usize,
}

// What the map leaves of an element: the target of an entry.
pub fn mapped(target: u64) -> Fit
    ensures { result ≡ fit_as target Fared.Mapped }
{
    Ok(Stored {
        pattern: target,
        fared: Fared::Mapped,
    })
}

// What a conversion leaves of an element that it does not round.
pub fn exact(pattern: u64) -> Fit
    ensures { result ≡ fit_as pattern Fared.Exact }
{
    Ok(Stored {
        pattern,
        fared: Fared::Exact,
    })
}
