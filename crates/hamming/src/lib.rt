// The Hamming distance of bytes: at how many places two rows of them differ.
#![tactic(auto)]

ghost use Rattle.std.specs.Prelude.{◌≡◌, ◌+◌, ◌≤◌, length, take, drop};
ghost use Rattle.bytes_le.specs.Bytes.{to_le};
ghost use Rattle.hamming.specs.Distance.{distance};

// How many of the `width` bytes of s from `at` on differ from those of v.
pub fn distance_le(s: &[u8], at: usize, width: usize, v: u64) -> usize
    requires { at + width ≤ length s.now }
    ensures { result ≡ distance (take width (drop at s.now)) (to_le width v) }
{
    let mut rest = v;
    let mut differing = 0;
    for k in 0..width {
        if s[at + k] as u64 != rest % 256 {
            differing += 1;
        }
        rest /= 256;
    }
    differing
}
