// How a converted element fared, and how many fared so.
#![tactic(auto)]

ghost use Rattle.std.specs.Prelude.{◌≡◌};
ghost use Rattle.counts.specs.Counts.{by_pick, no_counts};

use grid::Ternary;

// How a converted element fared: by the map, at its pick, rounded to it, or with a pick past the range, clamped or wrapped.
#[derive(Clone, Copy)]
pub enum Fared {
    Mapped,
    Exact,
    Rounded,
    Clamped,
    Wrapped,
}

// How many elements fared in each way.
#[derive(Clone, Copy)]
pub struct Counts {
    pub mapped: usize,
    pub exact: usize,
    pub rounded: usize,
    pub clamped: usize,
    pub wrapped: usize,
}

// How an element that no entry matches and whose pick is in range fared, by where its pick lies.
pub fn by_pick(ternary: Ternary) -> Fared
    ensures { result ≡ by_pick ternary }
{
    match ternary {
        Ternary::Exact => Fared::Exact,
        Ternary::Below | Ternary::Above => Fared::Rounded,
    }
}

// Counts of no element.
pub fn no_counts() -> Counts
    ensures { result ≡ no_counts }
{
    Counts {
        mapped: 0,
        exact: 0,
        rounded: 0,
        clamped: 0,
        wrapped: 0,
    }
}
