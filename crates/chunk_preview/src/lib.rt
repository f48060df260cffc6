// The elements of a chunk as a run takes them, with nothing stored: what the run would reply, and how many bytes it would change.
#![tactic(auto)]

ghost use Rattle.chunk_element.specs.Settings.{settings_for};
ghost use Rattle.chunk_run.specs.Run.{RunReady};
ghost use Rattle.chunk_preview.specs.Foreseen.{Foreseen};

use answers::Preview;
use chunk_element::Settings;

// The first n elements, by position, up to the first refusal. An element is counted when the next turn begins, as in a run.
pub fn preview(
    src: &[u8],
    dst: &[u8],
    keys: &[u8],
    targets: &[u8],
    s: Settings,
    n: usize,
) -> Preview
    requires { RunReady s keys.now targets.now src.now dst.now n }
    ensures { Foreseen (settings_for s keys.now targets.now) s.sw s.dw src.now dst.now n result }
{
    let mut changed = 0;
    let mut tally = tallies::no_tally();
    let mut last = tallies::NO_ELEMENT;
    for i in 0..n {
        let input = i * s.sw;
        let output = i * s.dw;
        tallies::count_at(&mut tally, last);
        let fit = chunk_element::fit_at(src, keys, targets, s, input);
        let Ok(stored) = fit else {
            return Preview {
                reply: replies::reply(chunk_element::refused_at(src, s, input, i, fit), tally),
                changed,
            };
        };
        changed += hamming::distance_le(dst, output, s.dw, stored.pattern);
        last = tallies::place(stored.fared);
    }
    tallies::count_at(&mut tally, last);
    Preview {
        reply: replies::reply(Ok(()), tally),
        changed,
    }
}
