// The fourteen samples, wrap with a float target, half precision, a chunk of two elements and one of four under clamp and wrap, as bytes through the chunk call: each line is the answer's number,
// the position of a refusal, the destination's bytes, which began as aa, and the counts mapped, exact, rounded, clamped and wrapped.
#![tactic(auto)]

ghost use Rattle.std.specs.Prelude.{◌≡◌, ◌≤◌, ◌+◌, length};

use answers::Reply;
use counts::Counts;
use std::io;

// The bytes of a destination, in their order.
fn print_bytes(rt: &impl Print, d: &[u8]) -> io::Result<()> {
    for byte in d {
        print!(rt; "{byte:02x}")?;
    }
    Ok(())
}

fn print_counts(rt: &impl Print, c: Counts) -> io::Result<()> {
    println!(rt;
        " {} {} {} {} {}",
        c.mapped, c.exact, c.rounded, c.clamped, c.wrapped
    )
}

fn print_reply(rt: &impl Print, r: Reply, d: &[u8]) -> io::Result<()> {
    let a = r.answer;
    let c = r.counts;
    let number = answer_numbers::number(a);
    print!(rt; "{number}")?;
    if let Some(position) = answer_numbers::position(a) {
        print!(rt; " at {position}")?;
    }
    print!(rt; ": ")?;
    print_bytes(rt, d)?;
    print_counts(rt, c)
}

// The first sw bytes of s to the first dw bytes of d, with no map.
fn call(
    rt: &impl Print,
    s: &[u8],
    d: &mut [u8],
    sw: usize,
    dw: usize,
    from: u8,
    to: u8,
    rounding: u8,
    range: u8,
) -> io::Result<()>
    requires { (sw ≤ length s.now) × (dw ≤ length d.old) }
{
    let none = &s[0..0];
    let r = chunk::convert(
        &s[0..sw],
        &mut d[0..dw],
        none,
        none,
        from,
        to,
        rounding,
        range,
    );
    print_reply(rt, r, &d[0..dw])
}

// One element of sw bytes, whose pattern is x, to one of dw bytes.
fn sample(
    rt: &impl Print,
    x: u64,
    sw: usize,
    dw: usize,
    from: u8,
    to: u8,
    rounding: u8,
    range: u8,
) -> io::Result<()>
    requires { (sw ≤ 8) × (dw ≤ 8) }
{
    let mut s = [0u8; 8];
    put(&mut s, 0, x);
    let mut d = [0xaau8; 8];
    call(rt, &s, &mut d, sw, dw, from, to, rounding, range)
}

fn to_integers(rt: &impl Print) -> io::Result<()> {
    // 1. 2.5 f64 to u8: nearest-even 2, nearest-away 3
    sample(rt, 0x4004000000000000, 8, 1, 9, 4, 0, 0)?;
    sample(rt, 0x4004000000000000, 8, 1, 9, 4, 4, 0)?;
    // 2. -0.5 to u8: nearest-even 0; towards-negative: 6, clamp 0, wrap 255
    sample(rt, 0xbfe0000000000000, 8, 1, 9, 4, 0, 0)?;
    sample(rt, 0xbfe0000000000000, 8, 1, 9, 4, 3, 0)?;
    sample(rt, 0xbfe0000000000000, 8, 1, 9, 4, 3, 1)?;
    sample(rt, 0xbfe0000000000000, 8, 1, 9, 4, 3, 2)?;
    // 3. 0.49999999999999994, nearest-away, to i32: 0
    sample(rt, 0x3fdfffffffffffff, 8, 4, 9, 2, 4, 0)?;
    // 4. 2^63 f64 to i64: 6; clamp 2^63 - 1; wrap -2^63
    sample(rt, 0x43e0000000000000, 8, 8, 9, 3, 0, 0)?;
    sample(rt, 0x43e0000000000000, 8, 8, 9, 3, 0, 1)?;
    sample(rt, 0x43e0000000000000, 8, 8, 9, 3, 0, 2)?;
    // 5. NaN to i32 under clamp: 5
    sample(rt, 0x7ff8000000000000, 8, 4, 9, 2, 0, 1)?;
    // 6. 300 f64 to i8, wrap: 44
    sample(rt, 0x4072c00000000000, 8, 1, 9, 0, 0, 2)?;
    // 7. 255 u8 to i8: clamp 127, wrap -1
    sample(rt, 0xff, 1, 1, 4, 0, 0, 1)?;
    sample(rt, 0xff, 1, 1, 4, 0, 0, 2)
}

fn to_floats(rt: &impl Print) -> io::Result<()> {
    // 8. 16777217 i64 to f32: nearest-even 16777216, nearest-away 16777218; its negative, towards-positive, -16777216
    sample(rt, 0x0000000001000001, 8, 4, 3, 8, 0, 0)?;
    sample(rt, 0x0000000001000001, 8, 4, 3, 8, 4, 0)?;
    sample(rt, 0xfffffffffeffffff, 8, 4, 3, 8, 2, 0)?;
    // 9. 2^64 - 1 u64 to f64: nearest-even 2^64; towards-zero 18446744073709549568
    sample(rt, 0xffffffffffffffff, 8, 8, 7, 9, 0, 0)?;
    sample(rt, 0xffffffffffffffff, 8, 8, 7, 9, 1, 0)?;
    // 10. 2^128 - 2^103 f64 to f32: towards-zero bits 7f7fffff; nearest-even 7
    sample(rt, 0x47effffff0000000, 8, 4, 9, 8, 1, 0)?;
    sample(rt, 0x47effffff0000000, 8, 4, 9, 8, 0, 0)?;
    // 11. 2^128, towards-zero: 7; clamp +infinity
    sample(rt, 0x47f0000000000000, 8, 4, 9, 8, 1, 0)?;
    sample(rt, 0x47f0000000000000, 8, 4, 9, 8, 1, 1)?;
    // 12. 2^-150 to f32: nearest-even +0, nearest-away 2^-149
    sample(rt, 0x3690000000000000, 8, 4, 9, 8, 0, 0)?;
    sample(rt, 0x3690000000000000, 8, 4, 9, 8, 4, 0)?;
    // 13. -2^-200 to f32, towards-positive: -0
    sample(rt, 0xb370000000000000, 8, 4, 9, 8, 2, 0)?;
    // wrap with a float target: 8, for 1 as well, and before a broken destination is looked at
    sample(rt, 0x3ff0000000000000, 8, 4, 9, 8, 0, 2)?;
    sample(rt, 0x3ff0000000000000, 8, 1, 9, 8, 0, 2)?;
    sample(rt, 0x00000000000000ff, 1, 8, 4, 9, 0, 2)
}

fn to_halves(rt: &impl Print) -> io::Result<()> {
    // 65519 u16 to f16: 65504; 65520: 7, clamp +infinity
    sample(rt, 0xffef, 2, 2, 5, 10, 0, 0)?;
    sample(rt, 0xfff0, 2, 2, 5, 10, 0, 0)?;
    sample(rt, 0xfff0, 2, 2, 5, 10, 0, 1)?;
    // towards-zero: 65535 u16 is MAX, and 65536 u32 is past it
    sample(rt, 0xffff, 2, 2, 5, 10, 1, 0)?;
    sample(rt, 0x10000, 4, 2, 6, 10, 1, 0)?;
    // f64 1 + 2^-11 + 2^-40, and 65520 - 2^-20: one rounding
    sample(rt, 0x3ff0020000001000, 8, 2, 9, 10, 0, 0)?;
    sample(rt, 0x40effdfffffe0000, 8, 2, 9, 10, 0, 0)?;
    // 2^-25: nearest-even +0, nearest-away 2^-24
    sample(rt, 0x3e60000000000000, 8, 2, 9, 10, 0, 0)?;
    sample(rt, 0x3e60000000000000, 8, 2, 9, 10, 4, 0)?;
    // halfway below and above the largest subnormal
    sample(rt, 0x3f0ff40000000000, 8, 2, 9, 10, 0, 0)?;
    sample(rt, 0x3f0ffc0000000000, 8, 2, 9, 10, 0, 0)?;
    // wrap to f16: 8
    sample(rt, 0x3ff0000000000000, 8, 2, 9, 10, 0, 2)
}

fn halves(rt: &impl Print) -> io::Result<()> {
    // NaNs: from f64 and f32, to f64 and f32, to f16, and refused
    sample(rt, 0xfff0040000000001, 8, 2, 9, 10, 0, 0)?;
    sample(rt, 0xff802001, 4, 2, 8, 10, 0, 0)?;
    sample(rt, 0xfc01, 2, 8, 10, 9, 0, 0)?;
    sample(rt, 0xfc01, 2, 4, 10, 8, 0, 0)?;
    sample(rt, 0xfc01, 2, 2, 10, 10, 0, 0)?;
    sample(rt, 0xfc01, 2, 1, 10, 4, 0, 0)?;
    // the largest subnormal to f64, and MAX to u16
    sample(rt, 0x03ff, 2, 8, 10, 9, 0, 0)?;
    sample(rt, 0x7bff, 2, 2, 10, 5, 0, 0)
}

// Map +0 to 7, -0 to 8: f16 -0 gives 7.
fn half_keys(rt: &impl Print) -> io::Result<()> {
    let keys = [0, 0, 0, 128];
    let targets = [7, 8];
    let s = [0, 128];
    let mut d = [0xaau8; 1];
    let r = chunk::convert(&s, &mut d, &keys, &targets, 10, 4, 0, 0);
    print_reply(rt, r, &d)
}

// The eight bytes of x, at a place of d.
fn put(d: &mut [u8], at: usize, x: u64)
    requires { at + 8 ≤ length d.old }
    ensures { length d.new ≡ length d.old }
{
    store_le::write_le(d, at, 8, x);
}

// 14. Map NaN to 9, 0 to 7, 0 to 8: -0 gives 7.
fn mapped(rt: &impl Print) -> io::Result<()> {
    let mut keys = [0u8; 24];
    put(&mut keys, 0, 0x7ff8000000000000);
    let targets = [9, 7, 8];
    let mut s = [0u8; 8];
    put(&mut s, 0, 0x8000000000000000);
    let mut d = [0xaau8; 1];
    let r = chunk::convert(&s, &mut d, &keys, &targets, 9, 4, 0, 0);
    print_reply(rt, r, &d)
}

// 2.5 and 300 f64 to u8: the first is converted, and the second refused, so one is counted.
fn two(rt: &impl Print) -> io::Result<()> {
    let mut s = [0u8; 16];
    put(&mut s, 0, 0x4004000000000000);
    put(&mut s, 8, 0x4072c00000000000);
    let mut d = [0xaau8; 2];
    call(rt, &s, &mut d, 16, 2, 9, 4, 0, 0)
}

// -0, 1, 2.5 and 300 f64 to u8 with 0 mapped to 7: one of each class, and 300 clamped or wrapped by the range code.
fn classes(rt: &impl Print, range: u8) -> io::Result<()> {
    let keys = [0u8; 8];
    let targets = [7];
    let mut s = [0u8; 32];
    put(&mut s, 0, 0x8000000000000000);
    put(&mut s, 8, 0x3ff0000000000000);
    put(&mut s, 16, 0x4004000000000000);
    put(&mut s, 24, 0x4072c00000000000);
    let mut d = [0xaau8; 4];
    let r = chunk::convert(&s, &mut d, &keys, &targets, 9, 4, 0, range);
    print_reply(rt, r, &d)
}

fn main(rt: HostRuntime) -> io::Result<()> {
    to_integers(&rt)?;
    to_floats(&rt)?;
    to_halves(&rt)?;
    halves(&rt)?;
    mapped(&rt)?;
    half_keys(&rt)?;
    two(&rt)?;
    classes(&rt, 1)?;
    classes(&rt, 2)
}
