//! The interchange formats of IEEE 754 that columns hold.
ghost use Rattle.std.specs.Prelude.{◌≡◌};
ghost use Rattle.float_bits.specs.CommonSizes.{unit_doublings};
ghost use Rattle.float_bits.specs.Format.{exponent_unit, greatest_steps, infinity, precision, quiet_nan, sign_bit};

/// Names a binary format: from the highest bit a sign, the exponent's field, the fraction's field.
#[derive(Clone, Copy, Debug, PartialEq, Eq)]
pub enum FloatFormat {
    /// Has 16 bits: 5 of the exponent, 10 of the fraction.
    F16,
    /// Has 32 bits: 8 of the exponent, 23 of the fraction.
    F32,
    /// Has 64 bits: 11 of the exponent, 52 of the fraction.
    F64,
}

impl FloatFormat {
    /// Returns the value of the sign bit in a pattern, which is also the number of patterns with each sign.
    pub fn sign_bit(self) -> u64
        ensures { result ≡ sign_bit self }
    {
        match self {
            FloatFormat::F16 => 1 << 15,
            FloatFormat::F32 => 1 << 31,
            FloatFormat::F64 => 1 << 63,
        }
    }

    /// Returns the bits of the positive infinity.
    pub fn infinity(self) -> u64
        ensures { result ≡ infinity self }
    {
        match self {
            FloatFormat::F16 => 0x7c00,
            FloatFormat::F32 => 0x7f80_0000,
            FloatFormat::F64 => 0x7ff0_0000_0000_0000,
        }
    }

    /// Returns the bits of the quiet NaN with a plus and no payload.
    pub fn quiet_nan(self) -> u64
        ensures { result ≡ quiet_nan self }
    {
        match self {
            FloatFormat::F16 => 0x7e00,
            FloatFormat::F32 => 0x7fc0_0000,
            FloatFormat::F64 => 0x7ff8_0000_0000_0000,
        }
    }

    /// Returns the value of 1 in the exponent's field, which is also the number of fractions.
    pub(crate) fn exponent_unit(self) -> u64
        ensures { result ≡ exponent_unit self }
    {
        match self {
            FloatFormat::F16 => 1 << 10,
            FloatFormat::F32 => 1 << 23,
            FloatFormat::F64 => 1 << 52,
        }
    }

    /// Returns how many digits a number has, with the leading one.
    pub(crate) fn precision(self) -> u64
        ensures { result ≡ precision self }
    {
        match self {
            FloatFormat::F16 => 11,
            FloatFormat::F32 => 24,
            FloatFormat::F64 => 53,
        }
    }

    /// Returns how much the exponent's field of a finite number is past 1 at most.
    pub(crate) fn greatest_steps(self) -> u64
        ensures { result ≡ greatest_steps self }
    {
        match self {
            FloatFormat::F16 => 29,
            FloatFormat::F32 => 253,
            FloatFormat::F64 => 2045,
        }
    }

    /// Returns how often 2^-1074 is doubled until it is the smallest positive number of the format.
    pub(crate) fn unit_doublings(self) -> u64
        ensures { result ≡ unit_doublings self }
    {
        match self {
            FloatFormat::F16 => 1050,
            FloatFormat::F32 => 925,
            FloatFormat::F64 => 0,
        }
    }
}
