// The scalar map: a lookup over lent key and target bytes.
#![tactic(auto)]

ghost use Rattle.std.specs.Prelude.{◌≡◌, Bool, ℕ, ◌*◌};
ghost use Rattle.patterns.specs.Kind.{integer, binary, bits};
ghost use Rattle.patterns.specs.Value.{value_of};
ghost use Rattle.kinds.specs.Row.{float_of, FloatRow};
ghost use Rattle.cast_spec.specs.Element.{matches, lookup_of};
ghost use Rattle.cast_spec.specs.Chunk.{entries_from};
ghost use Rattle.mapping.specs.Map.{FloatPatterns, MapBytes};

use kinds::FloatFormat;

// Whether a float matches a key: equal patterns, two NaNs, or two zeros. The format has p significant bits and w bits of exponent field.
pub fn matches_float(a: u64, key: u64, p: u32, w: u32) -> bool
    requires { FloatPatterns a key p w }
    ensures { (s : ℕ) → result ≡ matches (value_of (binary p w s) a) (value_of (binary p w s) key) }
{
    if a == key {
        return true;
    }
    let mask = (1u64 << (w + p - 1)) - 1;
    let infinity = ((1u64 << w) - 1) << (p - 1);
    let x = a & mask;
    let k = key & mask;
    if infinity < k {
        return infinity < x;
    }
    (x | k) == 0
}

// The target of the first of n entries whose key matches the float b; sw and dw are the bytes of a key and of a target.
pub fn apply_scalar_map_float(
    b: u64,
    keys: &[u8],
    targets: &[u8],
    n: usize,
    format: FloatFormat,
    sw: usize,
    dw: usize,
) -> Option<u64>
    requires { FloatRow format × MapBytes (bits (float_of format)) b keys.now targets.now n sw dw }
    ensures { result ≡ lookup_of (float_of format) (value_of (float_of format) b) (entries_from sw dw keys.now targets.now 0 n) }
{
    for j in 0..n {
        let key = bytes_le::fetch(keys, j, sw);
        if matches_float(b, key, format.precision, format.exponent_bits) {
            return Some(bytes_le::fetch(targets, j, dw));
        }
    }
    None
}

// The target of the first of n entries whose key is the integer b, whatever its sign; sw and dw are the bytes of a key and of a target.
pub fn apply_scalar_map_int(
    b: u64,
    keys: &[u8],
    targets: &[u8],
    n: usize,
    sw: usize,
    dw: usize,
) -> Option<u64>
    requires { MapBytes (8 * sw) b keys.now targets.now n sw dw }
    ensures { (signed : Bool) → result ≡ lookup_of (integer signed (8 * sw)) (value_of (integer signed (8 * sw)) b) (entries_from sw dw keys.now targets.now 0 n) }
{
    for i in 0..n {
        let key = bytes_le::fetch(keys, i, sw);
        if b == key {
            return Some(bytes_le::fetch(targets, i, dw));
        }
    }
    None
}
