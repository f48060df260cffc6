// A number put as bytes, lowest first, straight into a chunk's own bytes. `put_le` is of any width to 8; with the
// width a constant, the compiler makes one store of the loop.
#![tactic(auto)]

ghost use Rattle.std.specs.Prelude.{◌≡◌, ◌+◌, ◌≤◌, length};
ghost use Rattle.bytes_le.specs.Bytes.{Place, put};

// Puts the W lowest bytes of v from `at` on, and keeps every other byte of d.
fn put_le<const W: usize>(d: &mut [u8], at: usize, v: u64)
    requires { (W ≤ 8) × (at + W ≤ length d.old) }
    ensures { d.new ≡ put d.old at W v }
{
    for k in 0..W {
        d[at + k] = ((v >> (8 * k)) % 256) as u8;
    }
}

// Puts the width lowest bytes of v from `at` on, of a kind's width, and keeps every other byte of d.
pub fn write_le(d: &mut [u8], at: usize, width: usize, v: u64)
    requires { Place d.old at width }
    ensures { d.new ≡ put d.old at width v }
{
    match width {
        1 => put_le::<1>(d, at, v),
        2 => put_le::<2>(d, at, v),
        4 => put_le::<4>(d, at, v),
        _ => put_le::<8>(d, at, v),
    }
}
