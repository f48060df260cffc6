// Numbers as bytes, lowest first, read straight from a chunk's own bytes. `get_le` is of any width to 8; with the width a
// constant, the compiler makes one load of the loop.
#![tactic(auto)]

ghost use Rattle.std.specs.Prelude.{◌+◌, ◌*◌, ◌≤◌, length};
ghost use Rattle.bytes_le.specs.Bytes.{Place};
ghost use Rattle.bytes_le.specs.Fetch.{Fetched};

// The number of the W bytes of s from `at` on: each byte times 256 to its place among them.
fn get_le<const W: usize>(s: &[u8], at: usize) -> u64
    requires { (W ≤ 8) × (at + W ≤ length s.now) }
    ensures { Fetched s.now at W result }
{
    let mut v = 0;
    for k in 0..W {
        v += (s[at + k] as u64) << (8 * k);
    }
    v
}

// The number of the width bytes of s from `at` on, of a kind's width.
pub fn read_le(s: &[u8], at: usize, width: usize) -> u64
    requires { Place s.now at width }
    ensures { Fetched s.now at width result }
{
    match width {
        1 => get_le::<1>(s, at),
        2 => get_le::<2>(s, at),
        4 => get_le::<4>(s, at),
        _ => get_le::<8>(s, at),
    }
}

// The bit pattern of the element at the position i of a chunk s of elements of `width` bytes.
pub fn fetch(s: &[u8], i: usize, width: usize) -> u64
    requires { Place s.now (i * width) width }
    ensures { Fetched s.now (i * width) width result }
{
    read_le(s, i * width, width)
}
