// The eleven number kinds, in one table.
#![tactic(auto)]

ghost use Rattle.std.specs.Prelude.{◌≡◌, ◌<◌};
ghost use Rattle.kinds.specs.Table.{kind_of};
ghost use Rattle.kinds.specs.Row.{row_of};

// An integer kind: its bits, whether it is two's complement, and its ends.
#[derive(Clone, Copy)]
pub struct IntegerFormat {
    pub bits: u32,
    pub signed: bool,
    pub lowest: i64,
    pub highest: u64,
}

// A float kind: its significant bits, the bits of its exponent field, its smallest spacing 2^spacing counted from 2^-1074, and -MAX and MAX as f64 patterns.
#[derive(Clone, Copy)]
pub struct FloatFormat {
    pub precision: u32,
    pub exponent_bits: u32,
    pub spacing: u64,
    pub lowest: u64,
    pub highest: u64,
}

// What a kind is.
#[derive(Clone, Copy)]
pub enum Format {
    Integer(IntegerFormat),
    Float(FloatFormat),
}

// The bytes of a kind's elements, and what the kind is.
#[derive(Clone, Copy)]
pub struct KindRow {
    pub bytes: usize,
    pub format: Format,
}

// ---- the formats of the eleven kinds

const I8: IntegerFormat = IntegerFormat {
    bits: 8,
    signed: true,
    lowest: -128,
    highest: 127,
};

const I16: IntegerFormat = IntegerFormat {
    bits: 16,
    signed: true,
    lowest: -32768,
    highest: 32767,
};

pub const I32: IntegerFormat = IntegerFormat {
    bits: 32,
    signed: true,
    lowest: -2147483648,
    highest: 2147483647,
};

pub const I64: IntegerFormat = IntegerFormat {
    bits: 64,
    signed: true,
    lowest: -9223372036854775808,
    highest: 9223372036854775807,
};

pub const U8: IntegerFormat = IntegerFormat {
    bits: 8,
    signed: false,
    lowest: 0,
    highest: 255,
};

const U16: IntegerFormat = IntegerFormat {
    bits: 16,
    signed: false,
    lowest: 0,
    highest: 65535,
};

const U32: IntegerFormat = IntegerFormat {
    bits: 32,
    signed: false,
    lowest: 0,
    highest: 4294967295,
};

const U64: IntegerFormat = IntegerFormat {
    bits: 64,
    signed: false,
    lowest: 0,
    highest: 18446744073709551615,
};

pub const F16: FloatFormat = FloatFormat {
    precision: 11,
    exponent_bits: 5,
    spacing: 1050,
    lowest: 0xc0ef_fc00_0000_0000,
    highest: 0x40ef_fc00_0000_0000,
};

pub const F32: FloatFormat = FloatFormat {
    precision: 24,
    exponent_bits: 8,
    spacing: 925,
    lowest: 0xc7ef_ffff_e000_0000,
    highest: 0x47ef_ffff_e000_0000,
};

pub const F64: FloatFormat = FloatFormat {
    precision: 53,
    exponent_bits: 11,
    spacing: 0,
    lowest: 0xffef_ffff_ffff_ffff,
    highest: 0x7fef_ffff_ffff_ffff,
};

// The eleven kinds, in the order of their codes.
static KINDS: [KindRow; 11] = [
    KindRow {
        bytes: 1,
        format: Format::Integer(I8),
    },
    KindRow {
        bytes: 2,
        format: Format::Integer(I16),
    },
    KindRow {
        bytes: 4,
        format: Format::Integer(I32),
    },
    KindRow {
        bytes: 8,
        format: Format::Integer(I64),
    },
    KindRow {
        bytes: 1,
        format: Format::Integer(U8),
    },
    KindRow {
        bytes: 2,
        format: Format::Integer(U16),
    },
    KindRow {
        bytes: 4,
        format: Format::Integer(U32),
    },
    KindRow {
        bytes: 8,
        format: Format::Integer(U64),
    },
    KindRow {
        bytes: 4,
        format: Format::Float(F32),
    },
    KindRow {
        bytes: 8,
        format: Format::Float(F64),
    },
    KindRow {
        bytes: 2,
        format: Format::Float(F16),
    },
];

// The row of a listed kind code.
pub fn row_of(code: u8) -> KindRow
    requires { code < 11 }
    ensures { result ≡ row_of (kind_of code) }
{
    KINDS[code as usize]
}
