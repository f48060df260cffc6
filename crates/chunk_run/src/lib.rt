// The elements of a chunk in the order of their positions, up to the first refusal, and the counts of those that are converted.
#![tactic(auto)]

ghost use Rattle.std.specs.Prelude.{◌≡◌};
ghost use Rattle.chunk_element.specs.Settings.{settings_for};
ghost use Rattle.chunk_run.specs.Run.{RunReady, Ran};

use answers::Reply;
use chunk_element::Settings;

// The first n elements, by position, up to the first refusal. An element is counted when the next turn begins: at once, its place in the tally would be
// known so late that the machine's loads behind it wait.
pub fn run(src: &[u8], dst: &mut [u8], keys: &[u8], targets: &[u8], s: Settings, n: usize) -> Reply
    requires { RunReady s keys.now targets.now src.now dst.old n }
    ensures { Ran (settings_for s keys.now targets.now) s.sw s.dw src.now dst.old n result dst.new }
{
    let sw = s.sw;
    let dw = s.dw;
    let mut input = 0;
    let mut output = 0;
    let mut tally = tallies::no_tally();
    let mut last = tallies::NO_ELEMENT;
    for i in 0..n {
        tallies::count_at(&mut tally, last);
        let fit = chunk_element::fit_at(src, keys, targets, s, input);
        let Ok(stored) = fit else {
            return replies::reply(chunk_element::refused_at(src, s, input, i, fit), tally);
        };
        store_le::write_le(dst, output, dw, stored.pattern);
        last = tallies::place(stored.fared);
        input += sw;
        output += dw;
    }
    tallies::count_at(&mut tally, last);
    replies::reply(Ok(()), tally)
}
