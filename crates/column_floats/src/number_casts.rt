//! What numbers become: keys of floats in another format, integers as floats, and floats as integers.
ghost use Rattle.std.specs.Prelude.{◌≡◌, ◌↔◌, ℤ, IsTrue, MatchOption};
ghost use Rattle.column_base.specs.Types.{HasNumber};
ghost use Rattle.column_base.specs.declared.dtype.PType.{PType};
ghost use Rattle.column_floats.specs.Casts.{Becomes, BecomesNone, IsIntegerOfKey, IsKeyNearInteger, IsKeyOfInteger, IsRoundedKey, IsSameKey};
ghost use Rattle.column_floats.specs.Formats.{keys_of_format};

use crate::formats::key_type;
use column_core::PType;
use float_bits::{
    FloatFormat, cast_float, cast_integer, from_total_key, integer_of, round_float, round_integer,
    total_key,
};

/// Casts numbers of one native type to those of another.
pub trait NumberCast {
    // The type of the numbers, the one that they are cast to, and what a number becomes.
    ghost source: { Self → PType };

    ghost target: { Self → PType };

    ghost casts: { Self → ℤ → ℤ → Type 0 };

    /// Returns the type that numbers are cast to.
    fn ptype(&self) -> PType
        ensures { result ≡ target self.now };

    /// Returns what a number becomes, or `None` where it does not become one of the type.
    fn cast(&self, number: i128) -> Option<i128>
        requires { HasNumber (source self.now) number }
        ensures { MatchOption result (BecomesNone (Becomes (target self.now) (casts self.now)) number)
            (Becomes (target self.now) (casts self.now) number) };
}

/// Casts keys of floats to the keys of the same floats in another format.
#[derive(Drop)]
pub struct SameFloats {
    pub from: FloatFormat,
    pub to: FloatFormat,
}

impl NumberCast for SameFloats {
    ghost source = { λ own. keys_of_format own.from };

    ghost target = { λ own. keys_of_format own.to };

    ghost casts = { λ own. IsSameKey own.from own.to };

    fn ptype(&self) -> PType {
        key_type(self.to)
    }

    fn cast(&self, number: i128) -> Option<i128> {
        let bits = from_total_key(self.from, number as i64);
        match cast_float(self.from, self.to, bits) {
            Some(bits) => Some(i128::from(total_key(self.to, bits))),
            None => None,
        }
    }
}

/// Casts keys of floats to the keys of the nearest floats in another format.
#[derive(Drop)]
pub struct RoundedFloats {
    pub from: FloatFormat,
    pub to: FloatFormat,
}

impl NumberCast for RoundedFloats {
    ghost source = { λ own. keys_of_format own.from };

    ghost target = { λ own. keys_of_format own.to };

    ghost casts = { λ own. IsRoundedKey own.from own.to };

    fn ptype(&self) -> PType {
        key_type(self.to)
    }

    fn cast(&self, number: i128) -> Option<i128> {
        let bits = from_total_key(self.from, number as i64);
        let bits = round_float(self.from, self.to, bits);
        Some(i128::from(total_key(self.to, bits)))
    }
}

/// Casts integers to the keys of the same floats.
#[derive(Drop)]
pub struct FloatsOfIntegers {
    pub from: PType,
    pub to: FloatFormat,
}

impl NumberCast for FloatsOfIntegers {
    ghost source = { λ own. own.from };

    ghost target = { λ own. keys_of_format own.to };

    ghost casts = { λ own. IsKeyOfInteger own.to };

    fn ptype(&self) -> PType {
        key_type(self.to)
    }

    fn cast(&self, number: i128) -> Option<i128> {
        match cast_integer(self.to, number) {
            Some(bits) => Some(i128::from(total_key(self.to, bits))),
            None => None,
        }
    }
}

/// Casts integers to the keys of the nearest floats.
#[derive(Drop)]
pub struct RoundedIntegers {
    pub from: PType,
    pub to: FloatFormat,
}

impl NumberCast for RoundedIntegers {
    ghost source = { λ own. own.from };

    ghost target = { λ own. keys_of_format own.to };

    ghost casts = { λ own. IsKeyNearInteger own.to };

    fn ptype(&self) -> PType {
        key_type(self.to)
    }

    fn cast(&self, number: i128) -> Option<i128> {
        let bits = round_integer(self.to, number);
        Some(i128::from(total_key(self.to, bits)))
    }
}

/// Casts keys of floats to the same integers.
#[derive(Drop)]
pub struct IntegersOfFloats {
    pub from: FloatFormat,
    pub to: PType,
}

impl NumberCast for IntegersOfFloats {
    ghost source = { λ own. keys_of_format own.from };

    ghost target = { λ own. own.to };

    ghost casts = { λ own. IsIntegerOfKey own.from };

    fn ptype(&self) -> PType {
        self.to
    }

    fn cast(&self, number: i128) -> Option<i128> {
        let bits = from_total_key(self.from, number as i64);
        match integer_of(self.from, bits) {
            Some(integer) if has_integer(self.to, integer) => Some(integer),
            _ => None,
        }
    }
}

// Returns whether the native type has the integer.
fn has_integer(ptype: PType, integer: i128) -> bool
    ensures { IsTrue result ↔ HasNumber ptype integer }
{
    match ptype {
        PType::U8 => 0 <= integer && integer < 1 << 8,
        PType::U16 => 0 <= integer && integer < 1 << 16,
        PType::U32 => 0 <= integer && integer < 1 << 32,
        PType::U64 => 0 <= integer && integer < 1 << 64,
        PType::I8 => -(1 << 7) <= integer && integer < 1 << 7,
        PType::I16 => -(1 << 15) <= integer && integer < 1 << 15,
        PType::I32 => -(1 << 31) <= integer && integer < 1 << 31,
        PType::I64 => -(1 << 63) <= integer && integer < 1 << 63,
    }
}
