// What a call returns: of its answer and of the tally that it kept, or of a refusal before its elements.
#![tactic(auto)]

ghost use Rattle.std.specs.Prelude.{◌≡◌};
ghost use Rattle.answers.specs.Answer.{unconverted};
ghost use Rattle.tallies.specs.Tally.{counts_in};
ghost use Rattle.replies.specs.Reply.{reply_of};

use answers::{Answer, Reply};
use counts::Counts;
use tallies::Tally;

// The counts of a tally.
fn counts_of(tally: Tally) -> Counts
    ensures { result ≡ counts_in tally }
{
    Counts {
        mapped: tally[0],
        exact: tally[1],
        rounded: tally[2],
        clamped: tally[3],
        wrapped: tally[4],
    }
}

// The reply of an answer and of a tally.
pub fn reply(answer: Answer, tally: Tally) -> Reply
    ensures { result ≡ reply_of answer (counts_in tally) }
{
    Reply {
        answer,
        counts: counts_of(tally),
    }
}

// A call that is refused before its elements.
pub fn refused(refusal: Answer) -> Reply
    ensures { result ≡ unconverted refusal }
{
    Reply {
        answer: refusal,
        counts: counts::no_counts(),
    }
}
