// A finite float's magnitude by significand and exponent: a number normalized to it, and its bits as an f64.
#![tactic(auto)]

ghost use Rattle.std.specs.Prelude.{◌≡◌, ◌*◌, ◌^◌, ◌<◌, ◌≤◌};
ghost use Rattle.scaled.specs.Scaled.{scaled_of, Canonical, finite_bits};

// The magnitude significand × 2^exponent, counted from 2^-1074: 53 significant bits, or fewer at the exponent 0.
#[derive(Clone, Copy)]
pub struct Scaled {
    pub significand: u64,
    pub exponent: u64,
}

// The magnitude n × 2^exponent with the highest bit of n moved to the 53rd place.
pub fn normalize(n: u64, exponent: u64) -> Scaled
    requires { (n < 2 ^ 53) × (53 ≤ exponent) }
    ensures { result ≡ scaled_of (n * 2 ^ exponent) }
{
    if n == 0 {
        return Scaled {
            significand: 0,
            exponent: 0,
        };
    }
    let zeros = u64::leading_zeros(n);
    Scaled {
        significand: (n << zeros) >> 11,
        exponent: exponent - ((zeros as u64) - 11),
    }
}

// The bits below the sign of a finite magnitude as an f64.
pub fn finite_bits(x: Scaled) -> u64
    requires { Canonical x }
    ensures { result ≡ finite_bits x }
{
    (x.exponent << 52) + x.significand
}
