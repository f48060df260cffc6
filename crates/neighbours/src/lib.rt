// The next number of a float up and down.
#![tactic(auto)]

ghost use Rattle.std.specs.Prelude.{◌≡◌, ◌+◌, ◌-◌, ◌^◌, ◌<◌};
ghost use Rattle.std.specs.Int.Bits.{bit_and};
ghost use Rattle.patterns.specs.Float.{inf_bits};
ghost use Rattle.neighbours.specs.Next.{SignBit, up_by, next_up, next_down};

use float_fields::FloatBits;

// The bit of the sign alone.
fn sign<B: FloatBits>() -> u64
    ensures { (result ≡ 2 ^ (B.EXPONENT_BITS + B.PRECISION - 1)) × (result + result ≡ 2 ^ (B.EXPONENT_BITS + B.PRECISION)) }
{
    1 << (B::EXPONENT_BITS + B::PRECISION - 1)
}

// The pattern of +infinity.
fn infinity<B: FloatBits>() -> u64
    ensures { result ≡ inf_bits B.PRECISION B.EXPONENT_BITS }
{
    ((1u64 << B::EXPONENT_BITS) - 1) << (B::PRECISION - 1)
}

// The next pattern above b's number, where the format's infinity has the pattern `infinity` and its sign is the bit `sign`; a NaN and
// +infinity stay as they are.
fn pattern_above(b: u64, infinity: u64, sign: u64) -> u64
    requires { SignBit b sign }
    ensures { (result ≡ up_by infinity sign b (bit_and b (sign - 1))) × (result < sign + sign) }
{
    let magnitude = b & (sign - 1);
    if infinity < magnitude || b == infinity {
        return b;
    }
    if magnitude == 0 {
        return 1;
    }
    if sign <= b { b - 1 } else { b + 1 }
}

// The next float above b's number.
pub fn next_up<B: FloatBits>(b: B) -> B
    ensures { B.pattern result ≡ next_up B.PRECISION B.EXPONENT_BITS (B.pattern b) }
{
    B::from_u64(pattern_above(b.to_u64(), infinity::<B>(), sign::<B>()))
}

// The next float below b's number: the next above of the other sign, with the sign turned back.
#[tactic(auto, using(std::proofs::lemmas::Nat::xor_lt))]
pub fn next_down<B: FloatBits>(b: B) -> B
    ensures { B.pattern result ≡ next_down B.PRECISION B.EXPONENT_BITS (B.pattern b) }
{
    let sign = sign::<B>();
    let up = next_up(B::from_u64(b.to_u64() ^ sign));
    B::from_u64(up.to_u64() ^ sign)
}
