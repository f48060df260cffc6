// The exports of the library polskrea: its calls by C's names, with their clauses.
#![tactic(auto)]

ghost use Rattle.std.specs.Prelude.{◌≡◌};
ghost use Rattle.cast_spec.specs.Chunk.{inputs};
ghost use Rattle.answer_fields.specs.Returned.{Returned};
ghost use Rattle.polskrea.specs.Version.{version};

use answer_fields::Fields;

// Converts a chunk, returns the answer's number, 0 to 8, and leaves its fields in `answer`.
#[unsafe(no_mangle)]
pub extern "C" fn polskrea_convert(
    src: &[u8],
    dst: &mut [u8],
    keys: &[u8],
    targets: &[u8],
    from: u8,
    to: u8,
    rounding: u8,
    range: u8,
    answer: &mut Fields,
) -> u8
    ensures { Returned (inputs src.now dst.old keys.now targets.now from to rounding range) result answer.new dst.new }
{
    polskrea::polskrea_convert(src, dst, keys, targets, from, to, rounding, range, answer)
}

// The version of the calls above.
#[unsafe(no_mangle)]
pub extern "C" fn polskrea_version() -> u32
    ensures { result ≡ version }
{
    polskrea::polskrea_version()
}
