// The typed calls for a caller that has elements and no patterns: whether keys match, what the map gives, what conversions leave, and calls from a source of the
// caller's own. Each line has a name, and behind it what each element gave.
#![tactic(auto)]

ghost use Rattle.typed_values.specs.Bits.{f64_bits};
ghost use Rattle.typed_elements.specs.Pairs.{level_to_u8};

use answers::{ElementRefusal, Fit, Outcome, Reply};
use codes::OutOfRangeMode;
use grid::RoundingMode;
use std::io;
use typed_casts::{CastTo, Modes};
use typed_entries::{Entry, EntryF32U8, EntryF64I32, EntryF64U8, EntryI64F32, MapEntry};
use typed_keys::Key;
use typed_patterns::FromPattern;
use typed_values::Number;

// ---- a caller's own source, which is converted to u8 as its f64 is

#[derive(Clone, Copy)]
struct Level(f64);

impl Number for Level {
    ghost CODE = { 9 };

    ghost pattern = { λ x. f64_bits x.0 };

    const CODE: u8 = 9;

    fn pattern(self) -> u64 {
        self.0.pattern()
    }
}

impl Key for Level {
    fn matches(self, key: Level) -> bool {
        self.0.matches(key.0)
    }
}

impl CastTo<u8> for Level {
    fn cast(self, found: Option<u64>, modes: Modes) -> Fit {
        CastTo::<u8>::cast(self.0, found, modes)
    }

    ghost laws = { level_to_u8 };
}

#[derive(Clone, Copy)]
struct LevelEntry {
    key: Level,
    target: u8,
}

impl MapEntry<Level, u8> for LevelEntry {
    ghost key = { λ e. e.key };

    ghost target = { λ e. e.target };

    fn key(self) -> Level {
        self.key
    }

    fn target(self) -> u8 {
        self.target
    }
}

// ---- keys, and the map

// Whether x matches each of three keys.
fn print_matches<K: Key>(rt: &impl Print, kind: &str, x: K, keys: [K; 3]) -> io::Result<()> {
    print!(rt; "{kind} matches")?;
    for key in keys {
        print!(rt; " {}", x.matches(key))?;
    }
    println!(rt)
}

// The pattern of the target for each of three elements.
fn print_targets<K: Key, T: Number, E: MapEntry<K, T>>(
    rt: &impl Print,
    pair: &str,
    entries: &[E],
    xs: [K; 3],
) -> io::Result<()> {
    print!(rt; "{pair} map")?;
    for x in xs {
        match typed_entries::lookup(entries, x) {
            Some(target) => print!(rt; " {target:x}")?,
            None => print!(rt; " none")?,
        }
    }
    println!(rt)
}

fn keys(rt: &impl Print) -> io::Result<()> {
    print_matches(rt, "f64", f64::NAN, [f64::NAN, 1.0, 0.0])?;
    print_matches(rt, "f64", 0.0, [f64::NAN, -0.0, 1.0])?;
    print_matches(rt, "f64", -1.5, [1.5, -1.5, f64::NAN])?;
    print_matches(rt, "f32", f32::NAN, [f32::NAN, 1.0, 0.0])?;
    print_matches(rt, "f32", -0.0f32, [f32::NAN, 0.0, 1.0])?;
    print_matches(rt, "f32", -1.5f32, [1.5, -1.5, f32::NAN])?;
    print_matches(rt, "i64", -7i64, [7, -7, -8])?;
    print_matches(rt, "i64", 0i64, [-1, 1, 0])
}

fn maps_to_integers(rt: &impl Print) -> io::Result<()> {
    let u8s = [
        EntryF64U8 {
            key: f64::NAN,
            target: 9,
        },
        EntryF64U8 {
            key: 0.0,
            target: 7,
        },
        EntryF64U8 {
            key: 0.0,
            target: 8,
        },
    ];
    print_targets(rt, "f64 u8", &u8s, [-0.0, f64::NAN, 1.0])?;
    let i32s = [EntryF64I32 {
        key: 2.5,
        target: -9,
    }];
    print_targets(rt, "f64 i32", &i32s, [2.5, -2.5, f64::NAN])?;
    let singles = [EntryF32U8 {
        key: -2.5,
        target: 255,
    }];
    print_targets(rt, "f32 u8", &singles, [2.5, -2.5, f32::NAN])
}

fn maps_to_f32(rt: &impl Print) -> io::Result<()> {
    let doubles = [Entry {
        key: 16777217.0,
        target: f32::NAN,
    }];
    print_targets(rt, "f64 f32", &doubles, [16777216.0, 16777217.0, 0.0])?;
    let longs = [EntryI64F32 {
        key: -7,
        target: 9.5,
    }];
    print_targets(rt, "i64 f32", &longs, [7, -7, 0])
}

// ---- conversions

fn print_outcome(rt: &impl Print, outcome: Outcome) -> io::Result<()> {
    match outcome {
        Ok(stored) => print!(rt; " {:x}", stored.pattern),
        Err(ElementRefusal::NanOrInf { value }) => print!(rt; " 5 of {value:x}"),
        Err(ElementRefusal::OutOfRange { value, lo, hi }) => {
            print!(rt; " 6 of {value:x} {lo} {hi}")
        }
        Err(ElementRefusal::FloatOutOfRange { value, lo, hi }) => {
            print!(rt; " 7 of {value:x} {lo:x} {hi:x}")
        }
    }
}

// What each of three elements comes to, to the nearest and in range, and what the first comes to where the map gives 9.
fn print_casts<S: CastTo<T>, T: FromPattern>(
    rt: &impl Print,
    pair: &str,
    xs: [S; 3],
) -> io::Result<()> {
    let modes = Modes {
        rounding: RoundingMode::NearestEven,
        range: OutOfRangeMode::None,
    };
    print!(rt; "{pair}")?;
    for x in xs {
        let fit = x.cast(None, modes);
        print_outcome(rt, typed_casts::outcome::<S, T>(x, fit))?;
    }
    let mapped = xs[0].cast(Some(9), modes);
    print_outcome(rt, typed_casts::outcome::<S, T>(xs[0], mapped))?;
    println!(rt)
}

fn casts(rt: &impl Print) -> io::Result<()> {
    print_casts::<f64, u8>(rt, "f64 u8", [2.5, 300.0, f64::NAN])?;
    print_casts::<f64, i32>(rt, "f64 i32", [-2147483648.5, 2147483647.5, -1.0 / 0.0])?;
    print_casts::<f32, u8>(rt, "f32 u8", [254.5, -0.75, f32::NAN])?;
    print_casts::<f64, f32>(rt, "f64 f32", [16777217.0, 1e39, f64::NAN])?;
    print_casts::<i64, f32>(rt, "i64 f32", [16777219, -7, i64::MAX])?;
    print_casts::<Level, u8>(rt, "level u8", [Level(2.5), Level(300.0), Level(f64::NAN)])
}

// ---- calls

fn print_call(rt: &impl Print, name: &str, r: Reply, dst: [u8; 4]) -> io::Result<()> {
    let number = answer_numbers::number(r.answer);
    let c = r.counts;
    print!(rt;
        "{name} call {number}, {} {} {} {} {}:",
        c.mapped, c.exact, c.rounded, c.clamped, c.wrapped
    )?;
    for b in dst {
        print!(rt; " {b:02x}")?;
    }
    println!(rt)
}

// The same elements as levels and as numbers, with the same map: a slice of one entry, and three by value.
fn calls(rt: &impl Print, xs: [f64; 4], range: u8) -> io::Result<()> {
    let levels = [Level(xs[0]), Level(xs[1]), Level(xs[2]), Level(xs[3])];
    let entry = LevelEntry {
        key: Level(f64::NAN),
        target: 9,
    };
    let mut dst = [0xaa; 4];
    let r = typed::convert(&levels, &mut dst, &[entry], 0, range);
    print_call(rt, "level u8", r, dst)?;
    let entry = EntryF64U8 {
        key: f64::NAN,
        target: 9,
    };
    let mut dst = [0xaa; 4];
    let r = typed::convert_with3(&xs, &mut dst, [entry; 3], 0, range);
    print_call(rt, "f64 u8", r, dst)
}

fn main(rt: HostRuntime) -> io::Result<()> {
    keys(&rt)?;
    maps_to_integers(&rt)?;
    maps_to_f32(&rt)?;
    casts(&rt)?;
    calls(&rt, [2.5, -0.0, f64::NAN, 254.5], 0)?;
    calls(&rt, [2.5, 300.0, f64::NAN, 1.0], 0)?;
    calls(&rt, [2.5, 300.0, -300.25, 1.0], 1)?;
    calls(&rt, [1.0, -1.0 / 0.0, f64::NAN, 1.0], 2)
}
