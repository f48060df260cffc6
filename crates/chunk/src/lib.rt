// The chunk call: source bytes of one kind converted to destination bytes of another, element by element; and its preview.
#![tactic(auto)]

ghost use Rattle.cast_spec.specs.Chunk.{inputs};
ghost use Rattle.cast_spec.specs.Contract.{Contract};
ghost use Rattle.cast_spec.specs.Preview.{Previewed};

use answers::{Preview, Reply};

// Converts a chunk. A refusal 1 to 4 or 8 leaves the destination as it was; 5 to 7 leave it so from the refused element on.
pub fn convert(
    src: &[u8],
    dst: &mut [u8],
    keys: &[u8],
    targets: &[u8],
    from: u8,
    to: u8,
    rounding: u8,
    range: u8,
) -> Reply
    ensures { Contract (inputs src.now dst.old keys.now targets.now from to rounding range) result dst.new }
{
    match chunk_checks::check(src, dst, keys, targets, from, to, rounding, range) {
        Ok(call) => chunk_run::run(src, dst, keys, targets, call.settings, call.count),
        Err(refusal) => replies::refused(Err(refusal)),
    }
}

// What `convert` would reply, and how many bytes of the destination it would change. Nothing is written.
pub fn preview(
    src: &[u8],
    dst: &[u8],
    keys: &[u8],
    targets: &[u8],
    from: u8,
    to: u8,
    rounding: u8,
    range: u8,
) -> Preview
    ensures { Previewed (inputs src.now dst.now keys.now targets.now from to rounding range) result }
{
    match chunk_checks::check(src, dst, keys, targets, from, to, rounding, range) {
        Ok(call) => chunk_preview::preview(src, dst, keys, targets, call.settings, call.count),
        Err(refusal) => Preview {
            reply: replies::refused(Err(refusal)),
            changed: 0,
        },
    }
}
