// The counts of a call while it runs: a row with a place for each way to fare.
#![tactic(auto)]

ghost use Rattle.std.specs.Prelude.{◌≡◌};
ghost use Rattle.counts.specs.Counts.{place_of};
ghost use Rattle.tallies.specs.Tally.{no_tally, one_more_at, CountableAt, Countable, Tallied};

use counts::Fared;

// The five counts while a call runs, in the order of `Fared`, and a last place that counts no element.
pub type Tally = [usize; 6];

// A tally of no element.
pub fn no_tally() -> Tally
    ensures { result ≡ no_tally }
{
    [0, 0, 0, 0, 0, 0]
}

// The place in a tally that counts no element.
pub const NO_ELEMENT: usize = 5;

// The place of a way to fare in a tally.
pub fn place(fared: Fared) -> usize
    ensures { result ≡ place_of fared }
{
    match fared {
        Fared::Mapped => 0,
        Fared::Exact => 1,
        Fared::Rounded => 2,
        Fared::Clamped => 3,
        Fared::Wrapped => 4,
    }
}

// Counts one more at a place.
pub fn count_at(tally: &mut Tally, place: usize)
    requires { CountableAt place tally.old }
    ensures { tally.new ≡ one_more_at place tally.old }
{
    tally[place] += 1;
}

// Counts one element more, which fared so.
pub fn count(tally: &mut Tally, fared: Fared)
    requires { Countable tally.old }
    ensures { Tallied fared tally.old tally.new }
{
    count_at(tally, place(fared));
}
