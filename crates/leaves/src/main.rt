// The functions below the chunk call on the samples and on the ends of each kind: a line names the function and has what it was given and what it
// answered, in hexadecimal.
#![tactic(auto)]

ghost use Rattle.std.specs.Prelude.{◌≡◌, ◌<◌, ◌≤◌, ◌+◌, ◌*◌, length};
ghost use Rattle.bytes_le.specs.Bytes.{Width};
ghost use Rattle.kinds.specs.Row.{FloatRow};
ghost use Rattle.integers.specs.Magnitude.{IntegerPattern};
ghost use Rattle.integer_rounding.specs.Precision.{Precision};

use answers::{ConversionError, Fit, Stored};
use codes::OutOfRangeMode;
use counts::Fared;
use float_fields::FloatBits;
use floats::{Class, Float, ReadFloat};
use grid::{Rounded, RoundingMode, Ternary};
use kinds::FloatFormat;
use std::io;

const MODES: [RoundingMode; 5] = [
    RoundingMode::NearestEven,
    RoundingMode::TowardsZero,
    RoundingMode::TowardsPositive,
    RoundingMode::TowardsNegative,
    RoundingMode::NearestAway,
];

fn sign(negative: bool) -> char {
    if negative { '-' } else { '+' }
}

// Where a pick lies: at the element, below it or above it.
fn side(t: Ternary) -> char {
    match t {
        Ternary::Exact => '=',
        Ternary::Below => '<',
        Ternary::Above => '>',
    }
}

// How an element fared, by the first letter.
fn initial(f: Fared) -> char {
    match f {
        Fared::Mapped => 'm',
        Fared::Exact => 'e',
        Fared::Rounded => 'r',
        Fared::Clamped => 'c',
        Fared::Wrapped => 'w',
    }
}

// ---- bytes

// The first n elements of `width` bytes.
fn elements(rt: &impl Print, s: &[u8], n: usize, width: usize) -> io::Result<()>
    requires { Width width × (n * width ≤ length s.now) }
{
    let digits = 2 * width;
    for i in 0..n {
        print!(rt; " {:0digits$x}", bytes_le::fetch(s, i, width))?;
    }
    Ok(())
}

// The eight bytes of x, at a place of d.
fn put(d: &mut [u8], at: usize, x: u64)
    requires { at + 8 ≤ length d.old }
    ensures { length d.new ≡ length d.old }
{
    store_le::write_le(d, at, 8, x);
}

// The eight bytes of x, as elements of one, two, four and eight bytes.
fn bytes(rt: &impl Print, s: &mut [u8], x: u64) -> io::Result<()>
    requires { length s.old ≡ 8 }
    ensures { length s.new ≡ 8 }
{
    print!(rt; "bytes")?;
    put(s, 0, x);
    elements(rt, s, 8, 1)?;
    elements(rt, s, 4, 2)?;
    elements(rt, s, 2, 4)?;
    elements(rt, s, 1, 8)?;
    println!(rt; "")
}

// ---- the fields of a float, what it is read as, and its neighbours

// The bits of a format, which name it.
fn width<B: FloatBits>() -> usize {
    (B::EXPONENT_BITS + B::PRECISION) as usize
}

// A float's pattern, of all its digits.
fn put_pattern<B: FloatBits>(rt: &impl Print, b: B) -> io::Result<()> {
    let digits = width::<B>() / 4;
    print!(rt; " {:0digits$x}", b.to_u64())
}

fn put_parts<B: FloatBits>(rt: &impl Print, b: B) -> io::Result<()> {
    let parts = b.parts();
    let exponent_digits = B::EXPONENT_BITS.div_ceil(4) as usize;
    let fraction_digits = (B::PRECISION - 1).div_ceil(4) as usize;
    print!(rt; "parts_f{}", width::<B>())?;
    put_pattern(rt, b)?;
    print!(rt;
        " {} {:0exponent_digits$x}",
        sign(parts.negative),
        parts.exponent
    )?;
    println!(rt; " {:0fraction_digits$x}", parts.fraction)
}

fn all_parts<B: FloatBits>(rt: &impl Print, samples: &[B]) -> io::Result<()> {
    for b in samples {
        put_parts(rt, *b)?;
    }
    Ok(())
}

fn float_parts(rt: &impl Print) -> io::Result<()> {
    // 2.5, -0.5, the smallest subnormal, the largest number, an infinity, a NaN
    all_parts(
        rt,
        &[
            0x4004000000000000u64,
            0xbfe0000000000000,
            0x0000000000000001,
            0x7fefffffffffffff,
            0xfff0000000000000,
            0x7ff8000000000000,
        ],
    )?;
    all_parts(
        rt,
        &[
            0x40200000u32,
            0x00000001,
            0xff7fffff,
            0x7f800000,
            0x7fc00001,
        ],
    )?;
    all_parts(rt, &[0x4100u16, 0x0001, 0xfbff, 0x7c00, 0x7e01])
}

// The sign of a float, and a finite number's significand and exponent, or what else it is.
fn put_float(rt: &impl Print, x: Float) -> io::Result<()> {
    let sign = sign(x.negative);
    match x.class {
        Class::Finite(magnitude) => println!(rt;
            " {sign} {:014x} {:03x}",
            magnitude.significand, magnitude.exponent
        ),
        Class::Infinite => println!(rt; " {sign} infinite"),
        Class::NotANumber { fraction } => println!(rt; " {sign} nan {fraction:013x}"),
    }
}

fn all_read<B: ReadFloat>(rt: &impl Print, samples: &[B]) -> io::Result<()> {
    for b in samples {
        print!(rt; "read_f{}", width::<B>())?;
        put_pattern(rt, *b)?;
        put_float(rt, b.read())?;
    }
    Ok(())
}

// The ends of the three ranges of an exponent field.
fn float_readers(rt: &impl Print) -> io::Result<()> {
    all_read(
        rt,
        &[
            0x000fffffffffffffu64,
            0x8010000000000000,
            0x7fefffffffffffff,
            0xfff0000000000000,
            0x7ff0000000000001,
        ],
    )?;
    all_read(
        rt,
        &[
            0x007fffffu32,
            0x80800000,
            0x7f7fffff,
            0xff800000,
            0x7f800001,
        ],
    )?;
    all_read(rt, &[0x03ffu16, 0x8400, 0x7bff, 0xfc00, 0x7c01])
}

fn all_neighbours<B: FloatBits>(rt: &impl Print, samples: &[B]) -> io::Result<()> {
    let width = width::<B>();
    for b in samples {
        print!(rt; "next_down_f{width}, next_up_f{width}")?;
        put_pattern(rt, *b)?;
        put_pattern(rt, neighbours::next_down(*b))?;
        put_pattern(rt, neighbours::next_up(*b))?;
        println!(rt; "")?;
    }
    Ok(())
}

fn float_neighbours(rt: &impl Print) -> io::Result<()> {
    // the zeros, -2^-149, the largest numbers of both signs, the infinities, a NaN
    all_neighbours(
        rt,
        &[
            0x00000000u32,
            0x80000000,
            0x80000001,
            0x7f7fffff,
            0xff7fffff,
            0x7f800000,
            0xff800000,
            0x7fc00001,
        ],
    )?;
    // -2^-1074, the largest number, -infinity, 1
    all_neighbours(
        rt,
        &[
            0x8000000000000001u64,
            0x7fefffffffffffff,
            0xfff0000000000000,
            0x3ff0000000000000,
        ],
    )?;
    // the zeros, -2^-24, the largest numbers of both signs, the infinities, a NaN
    all_neighbours(
        rt,
        &[
            0x0000u16, 0x8000, 0x8001, 0x7bff, 0xfbff, 0x7c00, 0xfc00, 0x7e01,
        ],
    )
}

fn put_widened<B: ReadFloat>(rt: &impl Print, b: B) -> io::Result<()> {
    let width = width::<B>();
    let digits = width / 4;
    let bits = b.to_u64();
    let widened = floats::write_f64(b.read());
    println!(rt; "read_f{width}, write_f64 {bits:0digits$x} {widened:016x}")
}

fn all_widened<B: ReadFloat>(rt: &impl Print, samples: &[B]) -> io::Result<()> {
    for b in samples {
        put_widened(rt, *b)?;
    }
    Ok(())
}

fn float_widths(rt: &impl Print) -> io::Result<()> {
    // a zero, the smallest subnormal, 2.5, the largest number, an infinity, a signalling NaN
    all_widened(
        rt,
        &[
            0x80000000u32,
            0x00000001,
            0x40200000,
            0x7f7fffff,
            0xff800000,
            0x7f800001,
        ],
    )?;
    all_widened(rt, &[0x8000u16, 0x0001, 0x4100, 0x7bff, 0xfc00, 0x7c01])
}

// ---- rounding to a whole number

// The bits of a pick, of so many digits, and where it lies.
fn put_rounded(rt: &impl Print, r: Rounded, digits: usize) -> io::Result<()> {
    print!(rt; " {:0digits$x} {}", r.bits, side(r.ternary))
}

fn put_whole<B: ReadFloat>(rt: &impl Print, b: B) -> io::Result<()> {
    let width = width::<B>();
    print!(rt; "round_with_mode_f{width}")?;
    put_pattern(rt, b)?;
    for mode in MODES {
        put_rounded(rt, integral::round_with_mode(b, mode), width / 4)?;
    }
    println!(rt; "")
}

fn all_whole<B: ReadFloat>(rt: &impl Print, samples: &[B]) -> io::Result<()> {
    for b in samples {
        put_whole(rt, *b)?;
    }
    Ok(())
}

fn whole_numbers(rt: &impl Print) -> io::Result<()> {
    // 2.5, -0.5, 0.49999999999999994, -2^-1074, 2^52 - 0.5, 2^52 + 1, the largest number
    all_whole(
        rt,
        &[
            0x4004000000000000u64,
            0xbfe0000000000000,
            0x3fdfffffffffffff,
            0x8000000000000001,
            0x432fffffffffffff,
            0x4330000000000001,
            0x7fefffffffffffff,
        ],
    )?;
    // 2.5, 0.49999997, 2^23 - 0.5, 2^23 + 1
    all_whole(rt, &[0x40200000u32, 0x3effffff, 0x4affffff, 0x4b000001])?;
    // 2.5, 0.49976, 2^10 - 0.5, 2^11 - 1, the largest number
    all_whole(rt, &[0x4100u16, 0x37ff, 0x63ff, 0x67ff, 0x7bff])
}

// ---- one rounding to f32 and to f16

fn put_fit(rt: &impl Print, f: Fit) -> io::Result<()> {
    match f {
        Ok(Stored { pattern, fared }) => print!(rt; " {pattern:08x} {}", initial(fared)),
        Err(ConversionError::NotFinite) => print!(rt; " not-finite"),
        Err(ConversionError::OutOfRange) => print!(rt; " out-of-range"),
    }
}

fn narrow(rt: &impl Print, b: u64, to: FloatFormat, mode: RoundingMode) -> io::Result<()>
    requires { FloatRow to }
{
    let x = b.read();
    put_fit(
        rt,
        float_conversions::convert_float_to_float(x, to, mode, OutOfRangeMode::None),
    )
}

fn narrowed(rt: &impl Print, b: u64, to: FloatFormat) -> io::Result<()>
    requires { FloatRow to }
{
    print!(rt;
        "read_f64, narrow to f{} {b:016x}",
        to.exponent_bits + to.precision
    )?;
    for mode in MODES {
        narrow(rt, b, to, mode)?;
    }
    println!(rt; "")
}

fn all_narrowed(rt: &impl Print, samples: &[u64], to: FloatFormat) -> io::Result<()>
    requires { FloatRow to }
{
    for b in samples {
        narrowed(rt, *b, to)?;
    }
    Ok(())
}

fn rounded_integer(
    rt: &impl Print,
    magnitude: u64,
    negative: bool,
    precision: u32,
) -> io::Result<()>
    requires { Precision precision }
{
    print!(rt; "int_to_f64_magnitude {} {magnitude:016x}", sign(negative))?;
    for mode in MODES {
        put_rounded(
            rt,
            integer_to_f64::int_to_f64_magnitude(magnitude, negative, precision, mode),
            16,
        )?;
    }
    println!(rt; "")
}

fn rounded_once(rt: &impl Print) -> io::Result<()> {
    // 2^128 - 2^103, -2^128, 2^-150, -2^-200, two NaNs
    all_narrowed(
        rt,
        &[
            0x47effffff0000000,
            0xc7f0000000000000,
            0x3690000000000000,
            0xb370000000000000,
            0x7ff0000000000001,
            0xfff8000020000000,
        ],
        kinds::F32,
    )?;
    // to f16: 65520 - 2^-20, 65520, 65536, 1 + 2^-11 + 2^-40, 2^-25, halfway above the largest subnormal, a NaN
    all_narrowed(
        rt,
        &[
            0x40effdfffffe0000,
            0x40effe0000000000,
            0xc0f0000000000000,
            0x3ff0020000001000,
            0x3e60000000000000,
            0x3f0ffc0000000000,
            0xfff0040000000001,
        ],
        kinds::F16,
    )
}

// 0, 16777217, its negative and 2^64 - 1 to 24 bits; 2^64 - 1 and -2^63 to 53; 65519 and 65520 to 11
fn rounded_integers(rt: &impl Print) -> io::Result<()> {
    rounded_integer(rt, 0x0000000000000000, false, 24)?;
    rounded_integer(rt, 0x0000000001000001, false, 24)?;
    rounded_integer(rt, 0x0000000001000001, true, 24)?;
    rounded_integer(rt, 0xffffffffffffffff, false, 24)?;
    rounded_integer(rt, 0xffffffffffffffff, false, 53)?;
    rounded_integer(rt, 0x8000000000000000, true, 53)?;
    rounded_integer(rt, 0x000000000000ffef, false, 11)?;
    rounded_integer(rt, 0x000000000000fff0, false, 11)
}

// ---- integers by sign and magnitude

fn magnitude(rt: &impl Print, b: u64, signed: bool, bits: u32) -> io::Result<()>
    requires { IntegerPattern b bits }
{
    let m = integers::int_magnitude(b, signed, bits);
    println!(rt;
        "int_magnitude {b:016x} {} {:016x}",
        sign(m.negative),
        m.magnitude
    )
}

fn integer_ends(rt: &impl Print) -> io::Result<()> {
    // i8, i16, i32, i64, each by its lowest, -1 and its highest
    magnitude(rt, 0x80, true, 8)?;
    magnitude(rt, 0xff, true, 8)?;
    magnitude(rt, 0x7f, true, 8)?;
    magnitude(rt, 0x8000, true, 16)?;
    magnitude(rt, 0xffff, true, 16)?;
    magnitude(rt, 0x7fff, true, 16)?;
    magnitude(rt, 0x80000000, true, 32)?;
    magnitude(rt, 0xffffffff, true, 32)?;
    magnitude(rt, 0x7fffffff, true, 32)?;
    magnitude(rt, 0x8000000000000000, true, 64)?;
    magnitude(rt, 0xffffffffffffffff, true, 64)?;
    magnitude(rt, 0x7fffffffffffffff, true, 64)?;
    // u8, u16, u32, u64, each by its highest
    magnitude(rt, 0xff, false, 8)?;
    magnitude(rt, 0xffff, false, 16)?;
    magnitude(rt, 0xffffffff, false, 32)?;
    magnitude(rt, 0xffffffffffffffff, false, 64)
}

// ---- wrap

fn wrapped(rt: &impl Print, b: u64) -> io::Result<()> {
    print!(rt; "wrap_integral_f64 {b:016x}")?;
    for bits in [8u32, 16, 32, 64] {
        let digits = bits as usize / 4;
        print!(rt; " {:0digits$x}", whole_part::wrap_integral_f64(b, bits))?;
    }
    println!(rt; "")
}

fn residues(rt: &impl Print) -> io::Result<()> {
    // 300, -1, -128, 2^63, -2^63, 2^64, 2^64 - 2^11, -(2^53 - 1), the largest number
    for b in [
        0x4072c00000000000,
        0xbff0000000000000,
        0xc060000000000000,
        0x43e0000000000000,
        0xc3e0000000000000,
        0x43f0000000000000,
        0x43efffffffffffff,
        0xc33fffffffffffff,
        0x7fefffffffffffff,
    ] {
        wrapped(rt, b)?;
    }
    Ok(())
}

// ---- map

fn looked_up(rt: &impl Print, l: Option<u64>) -> io::Result<()> {
    match l {
        Some(target) => println!(rt; " {target:02x}"),
        None => println!(rt; " none"),
    }
}

// NaN to 9, 0 to 7, 0 to 8
fn float_map(rt: &impl Print, b: u64) -> io::Result<()> {
    let mut keys = [0u8; 24];
    put(&mut keys, 0, 0x7ff8000000000000);
    let targets = [9, 7, 8];
    print!(rt; "apply_scalar_map_float {b:016x}")?;
    looked_up(
        rt,
        mapping::apply_scalar_map_float(b, &keys, &targets, 3, kinds::F64, 8, 1),
    )
}

// 255 to 1, 0 to 2, 255 to 3
fn integer_map(rt: &impl Print, b: u64) -> io::Result<()>
    requires { b < 256 }
{
    let keys = [255, 0, 255];
    let targets = [1, 2, 3];
    print!(rt; "apply_scalar_map_int {b:02x}")?;
    looked_up(
        rt,
        mapping::apply_scalar_map_int(b, &keys, &targets, 3, 1, 1),
    )
}

fn maps(rt: &impl Print) -> io::Result<()> {
    float_map(rt, 0x8000000000000000)?;
    float_map(rt, 0x0000000000000000)?;
    float_map(rt, 0xfff0000000000001)?;
    float_map(rt, 0x3ff0000000000000)?;
    float_map(rt, 0x7ff0000000000000)?;
    integer_map(rt, 0xff)?;
    integer_map(rt, 0x00)?;
    integer_map(rt, 0x01)
}

fn main(rt: HostRuntime) -> io::Result<()> {
    let mut s = [0u8; 8];
    bytes(&rt, &mut s, 0x0123456789abcdef)?;
    bytes(&rt, &mut s, 0xffffffffffffff80)?;
    float_parts(&rt)?;
    float_readers(&rt)?;
    float_neighbours(&rt)?;
    float_widths(&rt)?;
    whole_numbers(&rt)?;
    rounded_once(&rt)?;
    rounded_integers(&rt)?;
    integer_ends(&rt)?;
    residues(&rt)?;
    maps(&rt)
}
