// The typed calls: slices of numbers converted element by element, with a slice of map entries, by the same steps as the chunk call. Those here take each
// element's pattern once and go by it; those of `elements` are for a source that is known by its elements alone.
#![tactic(auto)]

ghost use Rattle.std.specs.Prelude.{◌≡◌, map};
ghost use Rattle.typed_entries.specs.Entries.{entry_of};
ghost use Rattle.typed.specs.Checks.{check_of};
ghost use Rattle.typed.specs.Typed.{TypedContract};

mod elements;

use answers::{Refusal, Reply};
pub use elements::{convert, convert_with3};
use typed_casts::{CastPattern, Modes};
use typed_entries::{Entry, EntryF32U8, EntryF64I32, EntryF64U8, EntryI64F32, MapEntry};
use typed_patterns::FromPattern;

// Three map entries by value.
pub type ThreeEntryF64U8 = [EntryF64U8; 3];

pub type ThreeEntryF64I32 = [EntryF64I32; 3];

pub type ThreeEntryF32U8 = [EntryF32U8; 3];

pub type ThreeEntry = [Entry; 3];

pub type ThreeEntryI64F32 = [EntryI64F32; 3];

// The checks before the elements, of a target of the kind `to`: the codes, wrap with a float, then the counts of elements.
pub fn check(
    src_len: usize,
    dst_len: usize,
    to: u8,
    rounding: u8,
    range: u8,
) -> Result<Modes, Refusal>
    ensures { result ≡ check_of src_len dst_len to rounding range }
{
    if !codes::rules_listed(rounding, range) {
        return Err(Refusal::UnknownCode);
    }
    if codes::wrap_barred(to, range) {
        return Err(Refusal::BarredWrap);
    }
    if src_len != dst_len {
        return Err(Refusal::LengthMismatch { src_len, dst_len });
    }
    Ok(Modes {
        rounding: codes::rounding_of(rounding),
        range: codes::range_of(range),
    })
}

// Converts the elements of a source. A refusal before the elements leaves the destination as it was, and one of an element leaves it so from that element on.
pub fn convert_by_pattern<S: CastPattern<T>, T: FromPattern, E: MapEntry<S, T>>(
    src: &[S],
    dst: &mut [T],
    entries: &[E],
    rounding: u8,
    range: u8,
) -> Reply
    ensures { TypedContract S.CODE T.CODE (map S.pattern src.now) (map T.pattern dst.old) (map (entry_of S.pattern T.pattern E.key E.target) entries.now) rounding range result (map T.pattern dst.new) }
{
    let modes = match check(src.len(), dst.len(), T::CODE, rounding, range) {
        Ok(modes) => modes,
        Err(refusal) => return replies::refused(Err(refusal)),
    };
    let mut tally = tallies::no_tally();
    for (i, x) in src.iter().enumerate() {
        let b = x.pattern();
        let found = typed_entries::lookup_pattern::<S, T, E>(entries, b);
        let fit = S::cast_pattern(b, found, modes);
        let Ok(stored) = fit else {
            let outcome = typed_casts::outcome_of_pattern::<S, T>(b, fit);
            return replies::reply(refusals::refusal(i, outcome), tally);
        };
        tallies::count(&mut tally, stored.fared);
        dst[i] = T::from_pattern(stored.pattern);
    }
    replies::reply(Ok(()), tally)
}

// The same with three entries by value, for callers that have no slice of them.
pub fn convert_by_pattern_with3<S: CastPattern<T>, T: FromPattern, E: MapEntry<S, T>>(
    src: &[S],
    dst: &mut [T],
    entries: [E; 3],
    rounding: u8,
    range: u8,
) -> Reply
    ensures { TypedContract S.CODE T.CODE (map S.pattern src.now) (map T.pattern dst.old) (map (entry_of S.pattern T.pattern E.key E.target) entries) rounding range result (map T.pattern dst.new) }
{
    convert_by_pattern(src, dst, &entries, rounding, range)
}
