// The preview of the chunk call, for C and for Rust. In one library with the call the compiler would inline an element's steps in neither loop.
#![tactic(auto)]

ghost use Rattle.cast_spec.specs.Chunk.{inputs};
ghost use Rattle.answer_fields.specs.Returned.{ReturnedPreview};

use answer_fields::Fields;

// What `polskrea_convert` would return and leave in `answer`, and in `changed` how many bytes of the destination it would change. Nothing of
// the destination is written.
#[unsafe(no_mangle)]
pub extern "C" fn polskrea_preview(
    src: &[u8],
    dst: &[u8],
    keys: &[u8],
    targets: &[u8],
    from: u8,
    to: u8,
    rounding: u8,
    range: u8,
    answer: &mut Fields,
    changed: &mut u64,
) -> u8
    ensures { ReturnedPreview (inputs src.now dst.now keys.now targets.now from to rounding range) result answer.new changed.new }
{
    let p = chunk::preview(src, dst, keys, targets, from, to, rounding, range);
    *changed = p.changed as u64;
    answer_fields::answered(p.reply, answer)
}
