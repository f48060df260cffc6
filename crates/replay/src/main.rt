// Replays the list of answers that are due, the original's and with f16 those of exact integers: converts each case of the file data/list and says in how many the answer or the destination
// differs. tools/compare --list writes the file; tools/driver/src/list.rs says how a case stands in it.
#![tactic(auto)]

ghost use Rattle.std.specs.Prelude.{◌≡◌, ◌+◌, ◌<◌, ◌≤◌, length};

use std::fs::File;
use std::io::{self, Read};

// What stands before a case's bytes: its section, the call's codes, the lengths of its four parts and the answer that is due.
#[derive(Drop)]
struct Case {
    section: u8,
    from: u8,
    to: u8,
    rounding: u8,
    range: u8,
    source: usize,
    destination: usize,
    keys: usize,
    targets: usize,
    answer: u8,
    values: [u64; 4],
    ghost short: { (source ≤ 256) × (destination ≤ 256) × (keys ≤ 256) × (targets ≤ 256) },
}

// The calls of a section, and those in which the answer or the destination differs.
#[derive(Clone, Copy)]
struct Section {
    calls: u64,
    differences: u64,
}

// The number of some bytes, lowest first.
fn number(s: &[u8]) -> u64 {
    s.iter()
        .rev()
        .fold(0, |x, byte| (x << 8) | u64::from(*byte))
}

fn is_nan(kind: u8, pattern: u64) -> bool {
    match kind {
        8 => 0x7f80_0000 < pattern & 0x7fff_ffff,
        9 => 0x7ff0_0000_0000_0000 < pattern & 0x7fff_ffff_ffff_ffff,
        _ => false,
    }
}

// Whether two patterns of a kind are the same, a NaN as a NaN.
fn same(kind: u8, a: u64, b: u64) -> bool {
    a == b || is_nan(kind, a) && is_nan(kind, b)
}

// Whether two runs of elements of w bytes are the same; bytes that are no whole elements are compared one by one.
fn same_elements(kind: u8, w: usize, a: &[u8], b: &[u8]) -> bool {
    let step = if w != 0 && a.len() % w == 0 { w } else { 1 };
    a.len() == b.len()
        && a.chunks(step)
            .zip(b.chunks(step))
            .all(|(x, y)| same(kind, number(x), number(y)))
}

// The bytes of an element of a kind; 1 for a code that is not listed.
fn width(kind: u8) -> usize {
    if kind < 11 {
        kinds::row_of(kind).bytes
    } else {
        1
    }
}

// Whether the values of an answer are those of the case, which has either both counts of elements or a refused element's four. The original counts nothing else.
fn same_values(case: &Case, number: u8, fields: &[u64; 11]) -> bool {
    let kind = if answer_numbers::names_position(usize::from(number)) {
        9
    } else {
        0
    };
    let (first, second) = if number == 4 {
        (fields[0], fields[1])
    } else {
        (fields[2], fields[3])
    };
    first == case.values[0]
        && same(kind, second, case.values[1])
        && fields[4] == case.values[2]
        && fields[5] == case.values[3]
}

// Whether two destinations are the same: by elements where the call reached them, else byte by byte.
fn same_destination(to: u8, number: u8, a: &[u8], b: &[u8]) -> bool {
    if number == 0 || answer_numbers::names_position(usize::from(number)) {
        same_elements(to, width(to), a, b)
    } else {
        same_elements(0, 1, a, b)
    }
}

// Whether the answer and the destination of a case are those of the list.
fn holds(case: &Case, body: &[u8], dst: &mut [u8]) -> bool
    requires { case.now.source + case.now.keys + case.now.targets ≤ length body.now }
{
    let mut fields = [0u64; 11];
    let keys = case.source + case.keys;
    let targets = keys + case.targets;
    let number = polskrea::polskrea_convert(
        &body[..case.source],
        dst,
        &body[case.source..keys],
        &body[keys..targets],
        case.from,
        case.to,
        case.rounding,
        case.range,
        &mut fields,
    );
    number == case.answer
        && same_values(case, number, &fields)
        && same_destination(case.to, number, &body[targets..], dst)
}

// Adds a case to its section.
fn count(sections: &mut [Section; 6], section: u8, good: bool) {
    let i = usize::from(section);
    if i < sections.len() {
        sections[i].calls = sections[i].calls.wrapping_add(1);
        sections[i].differences = sections[i].differences.wrapping_add(u64::from(!good));
    }
}

// 256 bytes, the longest destination of a case, as each is before the call.
fn marks() -> [u8; 256]
    ensures { 256 ≡ length result }
{
    [0xee; 256]
}

// 1,024 bytes, the longest body of a case.
fn space() -> [u8; 1024]
    ensures { 1024 ≡ length result }
{
    [0; 1024]
}

// A case by its first bytes, if its parts are not too long.
fn parse(head: &[u8; 46]) -> Option<Case> {
    let source = number(&head[5..7]) as usize;
    let destination = number(&head[7..9]) as usize;
    let keys = number(&head[9..11]) as usize;
    let targets = number(&head[11..13]) as usize;
    if 256 < source || 256 < destination || 256 < keys || 256 < targets {
        return None;
    }
    Some(Case {
        section: head[0],
        from: head[1],
        to: head[2],
        rounding: head[3],
        range: head[4],
        source,
        destination,
        keys,
        targets,
        answer: head[13],
        values: [
            number(&head[14..22]),
            number(&head[22..30]),
            number(&head[30..38]),
            number(&head[38..46]),
        ],
    })
}

// Reads the next case; none at the end of the list, or where a case is cut short or too long.
fn read_case<R: Read>(source: &mut R) -> io::Result<Option<Case>> {
    let mut head = [0u8; 46];
    if reading::read_full(source, &mut head)? != 46 {
        return Ok(None);
    }
    Ok(parse(&head))
}

// Reads the bytes of a case and replays it; false where they are cut short.
fn replay_case<R: Read>(
    source: &mut R,
    case: &Case,
    sections: &mut [Section; 6],
) -> io::Result<bool> {
    let length = case.source + case.keys + case.targets + case.destination;
    let mut space = space();
    let body = &mut space[..length];
    if reading::read_full(source, body)? != length {
        return Ok(false);
    }
    let good = holds(case, body, &mut marks()[..case.destination]);
    count(sections, case.section, good);
    Ok(true)
}

// Replays the list to its end. Nothing says that a file ends, so the turns are counted.
fn replay<R: Read>(source: &mut R, sections: &mut [Section; 6]) -> io::Result<()> {
    for _ in 0..u64::MAX {
        let Some(case) = read_case(source)? else {
            break;
        };
        if !replay_case(source, &case, sections)? {
            break;
        }
    }
    Ok(())
}

// Writes a section's line.
fn say(rt: &impl Print, name: &str, section: Section) -> io::Result<()> {
    println!(rt;
        "{name}: {} calls, {} differences",
        section.calls, section.differences
    )
}

// Replays the list and writes a line for each of its five sections.
fn main(rt: HostRuntime) -> io::Result<()> {
    let mut sections = [Section {
        calls: 0,
        differences: 0,
    }; 6];
    replay(&mut File::open(&rt, "list")?, &mut sections)?;
    say(
        &rt,
        "accepted elements, every setting without wrap to a float",
        sections[1],
    )?;
    say(
        &rt,
        "refused elements, first, between and last",
        sections[2],
    )?;
    say(&rt, "maps", sections[3])?;
    say(&rt, "broken lengths and bad codes", sections[4])?;
    say(&rt, "wrap with a float target", sections[5])
}
