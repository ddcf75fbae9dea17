//! Floats of one width: their bits in an unsigned type, and their keys in the signed type of that width.
ghost use Rattle.std.specs.Prelude.{◌≡◌, ◌<ℤ◌, ◌≤ℤ◌, neg_ℤ, pos, unsigned_abs};
ghost use Rattle.float_bits.specs.declared.formats.FloatFormat.{FloatFormat};
ghost use Rattle.float_bits.specs.declared.formats.FloatFormat.TheVariants.{F16, F32, F64};
ghost use Rattle.float_bits.specs.Format.{IsPattern, sign_bit};
ghost use Rattle.column_floats.specs.FloatRows.{bits_of_key};
ghost use Rattle.column_floats.specs.Patterns.{stored_key};

use crate::patterns::FloatPatterns;
use column_core::NativePType;
use float_bits::{FloatFormat, canonical, from_total_key, total_key};

/// Pairs the bits of the floats of one format with their keys.
pub(crate) trait FloatBits<K: NativePType>: NativePType {
    // The format.
    ghost format: { FloatFormat };

    /// Returns the key that is stored for these bits.
    fn key(self, patterns: FloatPatterns) -> K
        ensures { K.number result ≡ stored_key patterns format (unsigned_abs (Self.number self)) };

    /// Returns the bits that have this key.
    fn of_key(key: K) -> Self
        ensures { Self.number result ≡ pos (bits_of_key format (K.number key)) };
}

impl FloatBits<i16> for u16 {
    ghost format = { F16 };

    fn key(self, patterns: FloatPatterns) -> i16 {
        key_in(FloatFormat::F16, u64::from(self), patterns) as i16
    }

    fn of_key(key: i16) -> u16 {
        from_total_key(FloatFormat::F16, i64::from(key)) as u16
    }
}

impl FloatBits<i32> for u32 {
    ghost format = { F32 };

    fn key(self, patterns: FloatPatterns) -> i32 {
        key_in(FloatFormat::F32, u64::from(self), patterns) as i32
    }

    fn of_key(key: i32) -> u32 {
        from_total_key(FloatFormat::F32, i64::from(key)) as u32
    }
}

impl FloatBits<i64> for u64 {
    ghost format = { F64 };

    fn key(self, patterns: FloatPatterns) -> i64 {
        key_in(FloatFormat::F64, self, patterns)
    }

    fn of_key(key: i64) -> u64 {
        from_total_key(FloatFormat::F64, key)
    }
}

// Returns the key that is stored for these bits of a format.
fn key_in(format: FloatFormat, bits: u64, patterns: FloatPatterns) -> i64
    requires { IsPattern format bits }
    ensures key { result ≡ stored_key patterns format bits }
    ensures low { neg_ℤ (pos (sign_bit format)) ≤ℤ result }
    ensures high { result <ℤ pos (sign_bit format) }
{
    match patterns {
        FloatPatterns::Exact => total_key(format, bits),
        FloatPatterns::Canonical => total_key(format, canonical(format, bits)),
    }
}
