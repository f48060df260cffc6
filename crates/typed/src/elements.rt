// The typed calls of a source that is known by its elements alone: each is looked up, converted and refused as it stands.

ghost use Rattle.std.specs.Prelude.{map};
ghost use Rattle.typed_entries.specs.Entries.{entry_of};
ghost use Rattle.typed.specs.Typed.{TypedContract};

use answers::Reply;
use typed_casts::CastTo;
use typed_entries::MapEntry;
use typed_patterns::FromPattern;

// Converts the elements of a source. A refusal before the elements leaves the destination as it was, and one of an element leaves it so from that element on.
pub fn convert<S: CastTo<T>, T: FromPattern, E: MapEntry<S, T>>(
    src: &[S],
    dst: &mut [T],
    entries: &[E],
    rounding: u8,
    range: u8,
) -> Reply
    ensures { TypedContract S.CODE T.CODE (map S.pattern src.now) (map T.pattern dst.old) (map (entry_of S.pattern T.pattern E.key E.target) entries.now) rounding range result (map T.pattern dst.new) }
{
    let modes = match crate::check(src.len(), dst.len(), T::CODE, rounding, range) {
        Ok(modes) => modes,
        Err(refusal) => return replies::refused(Err(refusal)),
    };
    let mut tally = tallies::no_tally();
    for (i, x) in src.iter().enumerate() {
        let fit = x.cast(typed_entries::lookup(entries, *x), modes);
        let Ok(stored) = fit else {
            let outcome = typed_casts::outcome::<S, T>(*x, fit);
            return replies::reply(refusals::refusal(i, outcome), tally);
        };
        tallies::count(&mut tally, stored.fared);
        dst[i] = T::from_pattern(stored.pattern);
    }
    replies::reply(Ok(()), tally)
}

// The same with three entries by value, for callers that have no slice of them.
pub fn convert_with3<S: CastTo<T>, T: FromPattern, E: MapEntry<S, T>>(
    src: &[S],
    dst: &mut [T],
    entries: [E; 3],
    rounding: u8,
    range: u8,
) -> Reply
    ensures { TypedContract S.CODE T.CODE (map S.pattern src.now) (map T.pattern dst.old) (map (entry_of S.pattern T.pattern E.key E.target) entries) rounding range result (map T.pattern dst.new) }
{
    convert(src, dst, &entries, rounding, range)
}
