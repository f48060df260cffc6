// Typed samples through each typed call. Each line is the pair, the rounding and range codes, the answer's number, the position of a refusal, the five counts, and
// the patterns of the destination's elements.
#![tactic(auto)]

use answers::Reply;
use std::io;
use typed::{ThreeEntry, ThreeEntryF32U8, ThreeEntryF64I32, ThreeEntryF64U8, ThreeEntryI64F32};
use typed_entries::{Entry, EntryF32U8, EntryF64I32, EntryF64U8, EntryI64F32};
use typed_values::Number;

// ---- output

// The counts are mapped, exact, rounded, clamped, wrapped.
fn print_reply(rt: &impl Print, rounding: u8, range: u8, r: Reply) -> io::Result<()> {
    let number = answer_numbers::number(r.answer);
    print!(rt; " {rounding} {range} {number}")?;
    if let Some(position) = answer_numbers::position(r.answer) {
        print!(rt; " at {position}")?;
    }
    let c = r.counts;
    print!(rt;
        ", {} {} {} {} {}:",
        c.mapped, c.exact, c.rounded, c.clamped, c.wrapped
    )
}

// The line of a pair, whose patterns have so many hexadecimal digits.
fn print_pair<T: Number>(
    rt: &impl Print,
    pair: &str,
    rounding: u8,
    range: u8,
    r: Reply,
    dst: &[T],
    digits: usize,
) -> io::Result<()> {
    print!(rt; "{pair}")?;
    print_reply(rt, rounding, range, r)?;
    for x in dst {
        let b = x.pattern();
        print!(rt; " {b:0digits$x}")?;
    }
    println!(rt)
}

// ---- the five pairs: the map takes a NaN (-7 for an integer) and zero, the first of two entries for it

fn f64_u8(rt: &impl Print, src: [f64; 4], rounding: u8, range: u8) -> io::Result<()> {
    let map: ThreeEntryF64U8 = [
        EntryF64U8 {
            key: f64::NAN,
            target: 9,
        },
        EntryF64U8 {
            key: 0.0,
            target: 7,
        },
        EntryF64U8 {
            key: 0.0,
            target: 8,
        },
    ];
    let mut dst = [0xaau8; 4];
    let r = typed::convert_by_pattern_with3(&src, &mut dst, map, rounding, range);
    print_pair(rt, "f64 u8", rounding, range, r, &dst, 2)
}

fn f64_i32(rt: &impl Print, src: [f64; 4], rounding: u8, range: u8) -> io::Result<()> {
    let map: ThreeEntryF64I32 = [
        EntryF64I32 {
            key: f64::NAN,
            target: -9,
        },
        EntryF64I32 {
            key: 0.0,
            target: -7,
        },
        EntryF64I32 {
            key: 0.0,
            target: 8,
        },
    ];
    let mut dst = [-1i32; 4];
    let r = typed::convert_by_pattern_with3(&src, &mut dst, map, rounding, range);
    print_pair(rt, "f64 i32", rounding, range, r, &dst, 8)
}

fn f32_u8(rt: &impl Print, src: [f32; 4], rounding: u8, range: u8) -> io::Result<()> {
    let map: ThreeEntryF32U8 = [
        EntryF32U8 {
            key: f32::NAN,
            target: 9,
        },
        EntryF32U8 {
            key: 0.0,
            target: 7,
        },
        EntryF32U8 {
            key: 0.0,
            target: 8,
        },
    ];
    let mut dst = [0xaau8; 4];
    let r = typed::convert_by_pattern_with3(&src, &mut dst, map, rounding, range);
    print_pair(rt, "f32 u8", rounding, range, r, &dst, 2)
}

fn f64_f32(rt: &impl Print, src: [f64; 4], rounding: u8, range: u8) -> io::Result<()> {
    let map: ThreeEntry = [
        Entry {
            key: f64::NAN,
            target: 9.5,
        },
        Entry {
            key: 0.0,
            target: f32::NAN,
        },
        Entry {
            key: 0.0,
            target: 8.0,
        },
    ];
    let mut dst = [-1.5f32; 4];
    let r = typed::convert_by_pattern_with3(&src, &mut dst, map, rounding, range);
    print_pair(rt, "f64 f32", rounding, range, r, &dst, 8)
}

fn i64_f32(rt: &impl Print, src: [i64; 4], rounding: u8, range: u8) -> io::Result<()> {
    let map: ThreeEntryI64F32 = [
        EntryI64F32 {
            key: -7,
            target: 9.5,
        },
        EntryI64F32 {
            key: 0,
            target: f32::NAN,
        },
        EntryI64F32 {
            key: 0,
            target: 8.0,
        },
    ];
    let mut dst = [-1.5f32; 4];
    let r = typed::convert_by_pattern_with3(&src, &mut dst, map, rounding, range);
    print_pair(rt, "i64 f32", rounding, range, r, &dst, 8)
}

fn from_f64(rt: &impl Print) -> io::Result<()> {
    f64_u8(rt, [2.5, -0.0, 0.0 / 0.0, 254.5], 0, 0)?;
    f64_u8(rt, [2.5, 300.0, 1.0, 1.0], 4, 0)?;
    f64_u8(rt, [-0.5, 300.0, -300.25, 2.5], 3, 1)?;
    f64_u8(rt, [-0.5, 300.0, -300.25, 2.5], 3, 2)?;
    f64_u8(rt, [1.0, 2.0, 1.0 / 0.0, 4.0], 0, 1)?;
    f64_u8(rt, [1.0, 2.0, 3.0, 4.0], 5, 0)?;
    f64_i32(
        rt,
        [0.49999999999999994, -2147483648.5, 0.0 / 0.0, -0.0],
        4,
        1,
    )?;
    f64_i32(rt, [0.5, -0.5, 2147483647.5, 1.0], 2, 0)?;
    f64_i32(
        rt,
        [4294967297.5, -4294967297.5, -2147483649.0, 1e300],
        1,
        2,
    )?;
    f64_i32(rt, [1.0, -1.0 / 0.0, 3.0, 4.0], 0, 2)?;
    f64_i32(rt, [1.0, 2.0, 3.0, 4.0], 0, 3)?;
    f64_f32(rt, [16777217.0, -16777217.0, 1e-46, 0.1], 0, 0)?;
    f64_f32(rt, [16777217.0, -16777217.0, 1e-46, 0.1], 4, 0)?;
    f64_f32(rt, [16777217.0, -16777217.0, 1e-46, 0.1], 2, 0)?;
    f64_f32(rt, [0.0 / 0.0, -0.0, 1.0 / 0.0, -1e-300], 2, 0)?;
    f64_f32(rt, [1.0, 1e39, 2.0, 3.0], 0, 0)?;
    f64_f32(rt, [1.0, 1e39, -1e39, 3.0], 1, 1)?;
    f64_f32(rt, [1.0, 2.0, -1e300, 3.0], 1, 0)?;
    f64_f32(rt, [1.0, 2.0, -1e300, 3.0], 1, 2)
}

fn from_others(rt: &impl Print) -> io::Result<()> {
    f32_u8(rt, [2.5, -0.0, 0.0 / 0.0, 254.5], 0, 0)?;
    f32_u8(rt, [-0.5, 300.0, -300.25, 2.5], 3, 2)?;
    f32_u8(rt, [255.5, 1.0, 1.0, 1.0], 0, 0)?;
    f32_u8(rt, [1.0, 2.0, 3.0, -1.0 / 0.0], 0, 1)?;
    i64_f32(rt, [16777217, -16777217, 0, -7], 0, 0)?;
    i64_f32(rt, [16777217, -16777217, 9223372036854775807, 1], 4, 0)?;
    i64_f32(rt, [16777217, -16777217, 9223372036854775807, 1], 2, 0)?;
    i64_f32(rt, [16777217, -16777217, 9223372036854775807, 1], 2, 2)?;
    i64_f32(rt, [-9223372036854775807, 33554435, -33554435, 8], 1, 1)
}

fn main(rt: HostRuntime) -> io::Result<()> {
    from_f64(&rt)?;
    from_others(&rt)
}
