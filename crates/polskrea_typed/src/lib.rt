// The library's typed calls for C and for Rust. They stand in a library of their own, so that the chunk call is compiled without them.
#![tactic(auto)]

ghost use Rattle.std.specs.Prelude.{map};
ghost use Rattle.typed_values.specs.Bits.{f64_bits, f32_bits, i64_bits, u8_bits, i32_bits};
ghost use Rattle.typed_entries.specs.Entries.{f64_u8, f64_i32, f32_u8, f64_f32, i64_f32, entry_of};
ghost use Rattle.polskrea_typed.specs.Exported.{Exported};

use answer_fields::Fields;
use typed_casts::CastPattern;
use typed_entries::{Entry, EntryF32U8, EntryF64I32, EntryF64U8, EntryI64F32, MapEntry};
use typed_patterns::FromPattern;

// A typed call of any pair: its answer's number, and the fields.
fn returned<S: CastPattern<T>, T: FromPattern, E: MapEntry<S, T>>(
    src: &[S],
    dst: &mut [T],
    entries: &[E],
    rounding: u8,
    range: u8,
    answer: &mut Fields,
) -> u8
    ensures { Exported S.CODE T.CODE (map S.pattern src.now) (map T.pattern dst.old) (map (entry_of S.pattern T.pattern E.key E.target) entries.now) rounding range result answer.new (map T.pattern dst.new) }
{
    let reply = typed::convert_by_pattern(src, dst, entries, rounding, range);
    answer_fields::answered(reply, answer)
}

// Converts f64 elements to u8 with a slice of entries, returns the answer's number, 0 to 8, and leaves its fields in `answer`.
#[unsafe(no_mangle)]
pub extern "C" fn polskrea_convert_f64_to_u8(
    src: &[f64],
    dst: &mut [u8],
    entries: &[EntryF64U8],
    rounding: u8,
    range: u8,
    answer: &mut Fields,
) -> u8
    ensures { Exported 9 4 (map f64_bits src.now) (map u8_bits dst.old) (map f64_u8 entries.now) rounding range result answer.new (map u8_bits dst.new) }
{
    returned(src, dst, entries, rounding, range, answer)
}

// Converts f64 elements to i32 with a slice of entries, likewise.
#[unsafe(no_mangle)]
pub extern "C" fn polskrea_convert_f64_to_i32(
    src: &[f64],
    dst: &mut [i32],
    entries: &[EntryF64I32],
    rounding: u8,
    range: u8,
    answer: &mut Fields,
) -> u8
    ensures { Exported 9 2 (map f64_bits src.now) (map i32_bits dst.old) (map f64_i32 entries.now) rounding range result answer.new (map i32_bits dst.new) }
{
    returned(src, dst, entries, rounding, range, answer)
}

// Converts f32 elements to u8 with a slice of entries, likewise.
#[unsafe(no_mangle)]
pub extern "C" fn polskrea_convert_f32_to_u8(
    src: &[f32],
    dst: &mut [u8],
    entries: &[EntryF32U8],
    rounding: u8,
    range: u8,
    answer: &mut Fields,
) -> u8
    ensures { Exported 8 4 (map f32_bits src.now) (map u8_bits dst.old) (map f32_u8 entries.now) rounding range result answer.new (map u8_bits dst.new) }
{
    returned(src, dst, entries, rounding, range, answer)
}

// Converts f64 elements to f32 with a slice of entries, likewise.
#[unsafe(no_mangle)]
pub extern "C" fn polskrea_convert_f64_to_f32(
    src: &[f64],
    dst: &mut [f32],
    entries: &[Entry],
    rounding: u8,
    range: u8,
    answer: &mut Fields,
) -> u8
    ensures { Exported 9 8 (map f64_bits src.now) (map f32_bits dst.old) (map f64_f32 entries.now) rounding range result answer.new (map f32_bits dst.new) }
{
    returned(src, dst, entries, rounding, range, answer)
}

// Converts i64 elements to f32 with a slice of entries, likewise.
#[unsafe(no_mangle)]
pub extern "C" fn polskrea_convert_i64_to_f32(
    src: &[i64],
    dst: &mut [f32],
    entries: &[EntryI64F32],
    rounding: u8,
    range: u8,
    answer: &mut Fields,
) -> u8
    ensures { Exported 3 8 (map i64_bits src.now) (map f32_bits dst.old) (map i64_f32 entries.now) rounding range result answer.new (map f32_bits dst.new) }
{
    returned(src, dst, entries, rounding, range, answer)
}
