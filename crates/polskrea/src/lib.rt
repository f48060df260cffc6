// The library's calls for C and for Rust: the chunk call over bytes, and the version.
#![tactic(auto)]

ghost use Rattle.std.specs.Prelude.{◌≡◌};
ghost use Rattle.cast_spec.specs.Chunk.{inputs};
ghost use Rattle.answer_fields.specs.Returned.{Returned};
ghost use Rattle.polskrea.specs.Version.{version};

use answer_fields::Fields;

// Converts a chunk, returns the answer's number, 0 to 8, and leaves its fields in `answer`.
pub fn polskrea_convert(
    src: &[u8],
    dst: &mut [u8],
    keys: &[u8],
    targets: &[u8],
    from: u8,
    to: u8,
    rounding: u8,
    range: u8,
    answer: &mut Fields,
) -> u8
    ensures { Returned (inputs src.now dst.old keys.now targets.now from to rounding range) result answer.new dst.new }
{
    let r = chunk::convert(src, dst, keys, targets, from, to, rounding, range);
    answer_fields::answered(r, answer)
}

// The version of the calls above.
pub fn polskrea_version() -> u32
    ensures { result ≡ version }
{
    2
}
