// The float formats that the cast's patterns are of.
#![tactic(auto)]

ghost use Rattle.std.specs.Prelude.{◌≡◌, ℕ, ◌+◌, ◌-◌, ◌^◌, ◌<◌, ◌≤◌};
ghost use Rattle.float_fields.specs.Format.{Format};
ghost use Rattle.float_fields.specs.Parts.{parts_of};
ghost use Rattle.float_fields.specs.Widened.{Widens, widened_field, widened_of};
ghost use Rattle.float_fields.specs.Formats.{f16_format, f32_format, f64_format, f16_widens, f32_widens};

use crate::{Parts, Widened};

// The lowest bits, so many of them, all ones.
#[inline(always)]
fn mask(bits: u32) -> u64
    requires { bits < 64 }
    ensures { result ≡ 2 ^ bits - 1 }
{
    (1u64 << bits) - 1
}

// The bits of a float: those of an f16 in a u16, of an f32 in a u32 and of an f64 in a u64.
pub trait FloatBits: Copy {
    // The significant bits.
    const PRECISION: u32;

    const EXPONENT_BITS: u32;

    // The smallest spacing is 2^SPACING, counted from 2^-1074.
    const SPACING: u64;

    ghost PRECISION: { ℕ };

    ghost EXPONENT_BITS: { ℕ };

    ghost SPACING: { ℕ };

    // The pattern as a number.
    ghost pattern: { Self → ℕ };

    fn to_u64(self) -> u64
        ensures { (result ≡ pattern self) × (result < 2 ^ (EXPONENT_BITS + PRECISION)) };

    fn from_u64(bits: u64) -> Self
        requires { bits < 2 ^ (EXPONENT_BITS + PRECISION) }
        ensures { pattern result ≡ bits };

    ghost format: { Format PRECISION EXPONENT_BITS SPACING };

    // The three fields.
    #[inline(always)]
    final fn parts(self) -> Parts
        ensures { result ≡ parts_of PRECISION EXPONENT_BITS (pattern self) }
    {
        let bits = self.to_u64();
        let width = Self::EXPONENT_BITS;
        let place = Self::PRECISION - 1;
        Parts {
            negative: bits >> (width + place) == 1,
            exponent: (bits >> place) & mask(width),
            fraction: bits & mask(place),
        }
    }
}

impl FloatBits for u16 {
    const PRECISION: u32 = 11;

    const EXPONENT_BITS: u32 = 5;

    const SPACING: u64 = 1050;

    ghost PRECISION = { 11 };

    ghost EXPONENT_BITS = { 5 };

    ghost SPACING = { 1050 };

    ghost pattern = { λ b. b };

    #[inline(always)]
    fn to_u64(self) -> u64 {
        u64::from(self)
    }

    fn from_u64(bits: u64) -> u16 {
        bits as u16
    }

    ghost format = { f16_format };
}

impl FloatBits for u32 {
    const PRECISION: u32 = 24;

    const EXPONENT_BITS: u32 = 8;

    const SPACING: u64 = 925;

    ghost PRECISION = { 24 };

    ghost EXPONENT_BITS = { 8 };

    ghost SPACING = { 925 };

    ghost pattern = { λ b. b };

    #[inline(always)]
    fn to_u64(self) -> u64 {
        self as u64
    }

    fn from_u64(bits: u64) -> u32 {
        bits as u32
    }

    ghost format = { f32_format };
}

impl FloatBits for u64 {
    const PRECISION: u32 = 53;

    const EXPONENT_BITS: u32 = 11;

    const SPACING: u64 = 0;

    ghost PRECISION = { 53 };

    ghost EXPONENT_BITS = { 11 };

    ghost SPACING = { 0 };

    ghost pattern = { λ b. b };

    #[inline(always)]
    fn to_u64(self) -> u64 {
        self
    }

    fn from_u64(bits: u64) -> u64 {
        bits
    }

    ghost format = { f64_format };
}

// A format narrower than f64, whose exponent field reads as one of an f32.
pub trait NarrowerBits: FloatBits {
    fn widen_exponent(exponent: u64) -> u64
        requires { exponent ≤ 2 ^ Self.EXPONENT_BITS - 1 }
        ensures { result ≡ widened_field Self.EXPONENT_BITS (Self.SPACING - 925 - (24 - Self.PRECISION)) exponent };

    ghost widens: { Widens Self.PRECISION Self.EXPONENT_BITS Self.SPACING };

    // The fields as those of an f32.
    #[inline(always)]
    final fn widen(self) -> Widened
        ensures { result ≡ widened_of Self.PRECISION Self.EXPONENT_BITS Self.SPACING (Self.pattern self) }
    {
        let parts = self.parts();
        let places = 24 - Self::PRECISION;
        Widened {
            negative: parts.negative,
            exponent: Self::widen_exponent(parts.exponent),
            fraction: parts.fraction << places,
            spacing: Self::SPACING - u64::from(places),
        }
    }
}

impl NarrowerBits for u32 {
    // An f32's own.
    #[tactic(auto, using(crate::proofs::Widenings::field_own))]
    fn widen_exponent(exponent: u64) -> u64 {
        exponent
    }

    ghost widens = { f32_widens };
}

impl NarrowerBits for u16 {
    fn widen_exponent(exponent: u64) -> u64 {
        match exponent {
            0 => 0,
            1..=30 => exponent + 112,
            31.. => 255,
        }
    }

    ghost widens = { f16_widens };
}
