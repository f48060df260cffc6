// Listings of whole inputs, each under a line that names the case.
#![tactic(auto)]

use std::io;

// Writes a case's name and its listing.
fn show(rt: &impl Print, name: &[u8], input: &[u8]) -> io::Result<()> {
    let mut work = [0u8; 65488];
    let mut out = [0u8; 139180];
    let r = listing::list(input, &mut work, &mut out);
    rt.write_all(name)?;
    rt.write_all(&out[..r])
}

// Fewer than six bytes, and codes that are not listed: these come before the map and the elements.
fn short(rt: &impl Print) -> io::Result<()> {
    show(rt, b"no input\n", b"")?;
    show(rt, b"five bytes\n", b"\x09\x04\x00\x00\x00")?;
    show(rt, b"source kind 11\n", b"\x0b\x04\x00\x00\x00\x00")?;
    show(rt, b"target kind 11\n", b"\x09\x0b\x00\x00\x00\x00")?;
    show(rt, b"rounding 5\n", b"\x09\x04\x05\x00\x00\x00")?;
    show(rt, b"range 3\n", b"\x09\x04\x00\x03\x00\x00")?;
    show(rt, b"range 3, missing map\n", b"\x09\x04\x00\x03\x01\x00")?;
    show(
        rt,
        b"range 3, broken element\n",
        b"\x09\x04\x00\x03\x00\x00\x00",
    )
}

// Wrap with a float target: after the codes, and before the map and the elements.
fn barred(rt: &impl Print) -> io::Result<()> {
    show(
        rt,
        b"wrap to f32, empty chunk\n",
        b"\x09\x08\x00\x02\x00\x00",
    )?;
    show(
        rt,
        b"wrap to f64, missing map\n",
        b"\x09\x09\x00\x02\x01\x00",
    )?;
    show(
        rt,
        b"wrap to f32, broken element\n",
        b"\x09\x08\x00\x02\x00\x00\x00",
    )?;
    show(
        rt,
        b"wrap to f16, empty chunk\n",
        b"\x09\x0a\x00\x02\x00\x00",
    )?;
    show(
        rt,
        b"wrap to f32, rounding 5\n",
        b"\x09\x08\x05\x02\x00\x00",
    )?;
    show(
        rt,
        b"clamp to f32, empty chunk\n",
        b"\x09\x08\x00\x01\x00\x00",
    )
}

// Missing map bytes, a broken last element, and empty chunks.
fn broken(rt: &impl Print) -> io::Result<()> {
    show(
        rt,
        b"missing keys\n",
        b"\x09\x04\x00\x00\x01\x00\x00\x00\x00\x00\x00\x00\x00",
    )?;
    show(
        rt,
        b"missing targets\n",
        b"\x09\x04\x00\x00\x01\x00\x00\x00\x00\x00\x00\x00\x00\x00",
    )?;
    let mut counted = [0u8; 517];
    counted[0] = 4;
    counted[1] = 4;
    counted[5] = 1;
    show(rt, b"entry count 256\n", &counted)?;
    show(
        rt,
        b"broken last element\n",
        b"\x09\x04\x00\x00\x00\x00\x00\x00\x00\x00\x00\x00\x04\x40\x00",
    )?;
    show(
        rt,
        b"only a broken element\n",
        b"\x05\x04\x00\x00\x00\x00\x00",
    )?;
    show(rt, b"empty chunk\n", b"\x09\x04\x00\x00\x00\x00")?;
    show(
        rt,
        b"empty chunk after a map\n",
        b"\x09\x04\x00\x00\x01\x00\x00\x00\x00\x00\x00\x00\xf8\x7f\x09",
    )
}

// Refusals of an element, with the lines of those before it.
fn refused(rt: &impl Print) -> io::Result<()> {
    show(
        rt,
        b"5 at 1, under clamp\n",
        b"\x09\x02\x00\x01\x00\x00\x00\x00\x00\x00\x00\x00\xf0\x3f\x00\x00\x00\x00\x00\x00\xf8\x7f\x00\x00\x00\x00\x00\x00\xf0\x3f",
    )?;
    show(
        rt,
        b"6 at 1\n",
        b"\x09\x04\x00\x00\x00\x00\x00\x00\x00\x00\x00\x00\x04\x40\x00\x00\x00\x00\x00\xc0\x72\x40",
    )?;
    show(
        rt,
        b"6 at 0\n",
        b"\x09\x04\x00\x00\x00\x00\x00\x00\x00\x00\x00\xc0\x72\x40\x00\x00\x00\x00\x00\x00\x04\x40",
    )?;
    show(
        rt,
        b"6 at 10\n",
        b"\x04\x00\x00\x00\x00\x00\x00\x01\x02\x03\x04\x05\x06\x07\x08\x09\xc8\x00",
    )?;
    show(
        rt,
        b"7 at 1\n",
        b"\x09\x08\x00\x00\x00\x00\x00\x00\x00\x00\x00\x00\xf0\x3f\x00\x00\x00\x00\x00\x00\xf0\x47",
    )
}

// Chunks to integer kinds.
fn converted(rt: &impl Print) -> io::Result<()> {
    show(
        rt,
        b"2.5 and 300 clamped\n",
        b"\x09\x04\x00\x01\x00\x00\x00\x00\x00\x00\x00\x00\x04\x40\x00\x00\x00\x00\x00\xc0\x72\x40",
    )?;
    show(
        rt,
        b"300 wrapped to i8\n",
        b"\x09\x00\x00\x02\x00\x00\x00\x00\x00\x00\x00\xc0\x72\x40",
    )?;
    show(rt, b"255 wrapped to i8\n", b"\x04\x00\x00\x02\x00\x00\xff")?;
    show(
        rt,
        b"a map: NaN to 9, 0 to 7, 0 to 8\n",
        b"\x09\x04\x00\x01\x03\x00\x00\x00\x00\x00\x00\x00\xf8\x7f\x00\x00\x00\x00\x00\x00\x00\x00\x00\x00\x00\x00\x00\x00\x00\x00\x09\x07\x08\x00\x00\x00\x00\x00\x00\x00\x80\x01\x00\x00\x00\x00\x00\xf0\xff\x00\x00\x00\x00\x00\xc0\x72\x40",
    )?;
    show(rt, b"u8 to u64\n", b"\x04\x07\x00\x00\x00\x00\xab")?;
    show(
        rt,
        b"u16 to u16\n",
        b"\x05\x05\x00\x00\x00\x00\x34\x12\xff\x00",
    )
}

// Chunks to float kinds.
fn to_floats(rt: &impl Print) -> io::Result<()> {
    show(
        rt,
        b"f64 to f32, 2^-150, nearest-even\n",
        b"\x09\x08\x00\x00\x00\x00\x00\x00\x00\x00\x00\x00\x90\x36",
    )?;
    show(
        rt,
        b"f64 to f32, 2^-150, nearest-away\n",
        b"\x09\x08\x04\x00\x00\x00\x00\x00\x00\x00\x00\x00\x90\x36",
    )?;
    show(
        rt,
        b"f64 to f32, -2^-200, towards-positive\n",
        b"\x09\x08\x02\x00\x00\x00\x00\x00\x00\x00\x00\x00\x70\xb3",
    )?;
    show(
        rt,
        b"i64 to f32, 16777217, nearest-even\n",
        b"\x03\x08\x00\x00\x00\x00\x01\x00\x00\x01\x00\x00\x00\x00",
    )?;
    show(
        rt,
        b"i64 to f32, 16777217, nearest-away\n",
        b"\x03\x08\x04\x00\x00\x00\x01\x00\x00\x01\x00\x00\x00\x00",
    )?;
    show(
        rt,
        b"i64 to f32, -16777217, towards-positive\n",
        b"\x03\x08\x02\x00\x00\x00\xff\xff\xff\xfe\xff\xff\xff\xff",
    )?;
    show(
        rt,
        b"u64 to f64, 2^64 - 1, nearest-even\n",
        b"\x07\x09\x00\x00\x00\x00\xff\xff\xff\xff\xff\xff\xff\xff",
    )
}

// Chunks to f16 and from it, four digits each.
fn halves(rt: &impl Print) -> io::Result<()> {
    show(
        rt,
        b"u16 to f16, 65519 and 65520\n",
        b"\x05\x0a\x00\x00\x00\x00\xef\xff\xf0\xff",
    )?;
    show(
        rt,
        b"u16 to f16, 65520 clamped\n",
        b"\x05\x0a\x00\x01\x00\x00\xf0\xff",
    )?;
    show(
        rt,
        b"f64 to f16, 1 + 2^-11 + 2^-40 and a NaN\n",
        b"\x09\x0a\x00\x00\x00\x00\x00\x10\x00\x00\x00\x02\xf0\x3f\x01\x00\x00\x00\x00\x04\xf0\xff",
    )?;
    show(
        rt,
        b"f16 to f32, the largest subnormal and a NaN\n",
        b"\x0a\x08\x00\x00\x00\x00\xff\x03\x01\xfc",
    )?;
    show(
        rt,
        b"f16 to f16, a map: 0 to 3c00, -0 to 4000\n",
        b"\x0a\x0a\x00\x00\x02\x00\x00\x00\x00\x80\x00\x3c\x00\x40\x00\x80\x01\x00",
    )
}

// Inputs of 8,192 bytes and of one more. With 4,093 entries of two bytes the map ends at byte 8,192; with 2,729 of three it ends
// one byte later, and all of it is there.
fn long(rt: &impl Print) -> io::Result<()> {
    let mut whole = [0u8; 8193];
    whole[0] = 4;
    whole[1] = 4;
    show(rt, b"longer input\n", &whole)?;
    whole[4] = 0xfd;
    whole[5] = 0x0f;
    show(rt, b"a map to byte 8,192\n", &whole[..8192])?;
    show(rt, b"a map to byte 8,192, longer input\n", &whole)?;
    whole[1] = 5;
    whole[4] = 0xa9;
    whole[5] = 0x0a;
    show(rt, b"a map past byte 8,192\n", &whole)?;
    whole[1] = 11;
    show(rt, b"a map past byte 8,192, target kind 11\n", &whole)?;
    whole[1] = 8;
    whole[3] = 2;
    show(rt, b"wrap to f32, longer input\n", &whole)
}

fn main(rt: HostRuntime) -> io::Result<()> {
    short(&rt)?;
    barred(&rt)?;
    broken(&rt)?;
    refused(&rt)?;
    converted(&rt)?;
    to_floats(&rt)?;
    halves(&rt)?;
    long(&rt)
}
