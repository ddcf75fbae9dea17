//! Which types of columns hold floats.
ghost use Rattle.std.specs.Prelude.{◌≡◌, Some, None, IfOk, if◌then◌else◌};
ghost use Rattle.float_bits.specs.Format.{IsPattern};
ghost use Rattle.column_floats.specs.Formats.{IsFormatOf, IsRefusedOnlyBy, bits_of_format, constant_fault, floats_fault, format_of, is_bits, is_floats, keys_of_format};

use column_core::{DType, PType, VortexError, VortexResult};
use float_bits::FloatFormat;

/// Returns the format of the floats that a column of this type holds by their keys, or `None` for a type that holds no
/// keys: `i16`, `i32` and `i64` hold those of 16, 32 and 64 bits.
pub fn float_format(dtype: DType) -> Option<FloatFormat>
    ensures { result ≡ (if is_floats dtype then Some (format_of dtype) else None) }
{
    match dtype {
        DType::Primitive(PType::I16, _) => Some(FloatFormat::F16),
        DType::Primitive(PType::I32, _) => Some(FloatFormat::F32),
        DType::Primitive(PType::I64, _) => Some(FloatFormat::F64),
        _ => None,
    }
}

/// Returns the type of integers in which keys of this format are stored.
pub fn key_type(format: FloatFormat) -> PType
    ensures { result ≡ keys_of_format format }
{
    match format {
        FloatFormat::F16 => PType::I16,
        FloatFormat::F32 => PType::I32,
        FloatFormat::F64 => PType::I64,
    }
}

/// Returns the type of integers in which bits of this format are stored.
pub fn bits_type(format: FloatFormat) -> PType
    ensures { result ≡ bits_of_format format }
{
    match format {
        FloatFormat::F16 => PType::U16,
        FloatFormat::F32 => PType::U32,
        FloatFormat::F64 => PType::U64,
    }
}

/// Returns whether a column of this type holds bits of floats.
pub fn holds_bits(dtype: DType) -> bool
    ensures { result ≡ is_bits dtype }
{
    match dtype {
        DType::Primitive(PType::U16 | PType::U32 | PType::U64, _) => true,
        _ => false,
    }
}

/// Returns the format of a column of floats. Refused as `TypeMismatch` exactly for a type that holds no keys.
pub fn format_of_column(dtype: DType) -> VortexResult<FloatFormat>
    ensures refused { IsRefusedOnlyBy (floats_fault dtype) result }
    ensures format { IfOk result (λ format. IsFormatOf dtype format) }
{
    match float_format(dtype) {
        Some(format) => Ok(format),
        None => Err(VortexError::TypeMismatch),
    }
}

/// Returns the format of a column of floats that is to be compared with the float with these bits. Refused as
/// `TypeMismatch` for a type that holds no keys, then as `CastOutOfRange` where the format has fewer bits.
pub fn format_of_constant(dtype: DType, bits: u64) -> VortexResult<FloatFormat>
    ensures refused { IsRefusedOnlyBy (constant_fault dtype bits) result }
    ensures format { IfOk result (λ format. IsFormatOf dtype format × IsPattern format bits) }
{
    let format = format_of_column(dtype)?;
    if bits / 2 < format.sign_bit() {
        Ok(format)
    } else {
        Err(VortexError::CastOutOfRange)
    }
}
