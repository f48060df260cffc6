// Numbers, grids and picks: the theory that every conversion stands on. specs/ says what a pick is, proofs/ shows its laws.
#![tactic(auto)]

ghost use Rattle.std.specs.Prelude.{◌≡◌, ℕ, eqb, ltb};
ghost use Rattle.grid.specs.Round.{signed};
ghost use Rattle.grid.specs.Ternary.{ternary_of};

// The five rounding rules, in the order of their codes 0 to 4.
#[derive(Clone, Copy)]
pub enum RoundingMode {
    NearestEven,
    TowardsZero,
    TowardsPositive,
    TowardsNegative,
    NearestAway,
}

// Where a pick lies beside its element, as numbers.
#[derive(Clone, Copy)]
pub enum Ternary {
    Exact,
    Below,
    Above,
}

// What a rounding gives: the bits of the pick, and where it lies.
#[derive(Clone, Copy)]
pub struct Rounded {
    pub bits: u64,
    pub ternary: Ternary,
}

// Where a pick lies by magnitudes: whether the pick's is the element's own, and whether it is the larger.
pub fn ternary_of(exact: bool, larger: bool, negative: bool) -> Ternary
    ensures { (m n : ℕ) → exact ≡ eqb m n → larger ≡ ltb m n → result ≡ ternary_of (signed negative m) (signed negative n) }
{
    if exact {
        return Ternary::Exact;
    }
    if larger == negative {
        return Ternary::Below;
    }
    Ternary::Above
}
