//! Calls on columns of floats of 16, 32 and 64 bits, stored by their keys in columns of `i16`, `i32` and `i64`.
ghost use Rattle.std.specs.Prelude.{◌≡◌, ◌≢◌, [], IsSomeAnd, MatchOption, pos};
ghost use Rattle.column_floats.specs.Formats.{bits_fault, constant_fault, floats_fault};
ghost use Rattle.c_columns.specs.Ending.{WhereAll, WhereBoth};
ghost use Rattle.c_columns.specs.Flags.{flag_of};
ghost use Rattle.c_columns.specs.Handle.{array_in, format_in};
ghost use Rattle.c_columns.specs.Kinds.{operator_by};
ghost use Rattle.c_kernels.specs.FloatPairs.{float_operator_numbered, AreFloatsCombined, EndsOnFloatPairs};
ghost use Rattle.c_kernels.specs.Floats.{AreBitsOf, AreComparedBy, AreFloatsOf, EndsOnFloats};

use c_columns::error_fields::ErrorFields;
use c_columns::handle::Handle;
use c_kernels::{combine_float_handles, compare_handle, decode_handle, encode_handle};
use std::alloc::Global;

/// Makes the floats with the bits that the rows are, as the run column of their keys; where `is_canonical` is not 0, by
/// one pattern for each value. Refused as `TypeMismatch` exactly unless the type is `u16`, `u32` or `u64`.
#[unsafe(no_mangle)]
pub extern "C" fn hv_float_encode(
    alloc: Global,
    bits: &mut Handle,
    is_canonical: u8,
    out: &mut Handle,
    error: &mut ErrorFields,
) -> i32
    ensures same { bits.new.column ≡ bits.old.column }
    ensures made { result ≡ pos 0 →
        WhereBoth (AreFloatsOf (flag_of is_canonical)) (array_in bits.old.column) (array_in out.new.column) }
    ensures untyped { result ≡ pos 0 → format_in out.new.column ≡ [] }
    ensures kept { result ≢ pos 0 → out.new.column ≡ out.old.column }
    ensures ended { EndsOnFloats bits_fault (array_in bits.old.column) result error.new }
{
    encode_handle(alloc, bits, is_canonical, out, error)
}

/// Makes the flat column of the bits of the floats. Refused as `TypeMismatch` exactly unless the type is `i16`, `i32`
/// or `i64`.
#[unsafe(no_mangle)]
pub extern "C" fn hv_float_decode(
    alloc: Global,
    floats: &mut Handle,
    out: &mut Handle,
    error: &mut ErrorFields,
) -> i32
    ensures same { floats.new.column ≡ floats.old.column }
    ensures made { result ≡ pos 0 → WhereBoth AreBitsOf (array_in floats.old.column) (array_in out.new.column) }
    ensures untyped { result ≡ pos 0 → format_in out.new.column ≡ [] }
    ensures kept { result ≢ pos 0 → out.new.column ≡ out.old.column }
    ensures ended { EndsOnFloats floats_fault (array_in floats.old.column) result error.new }
{
    decode_handle(alloc, floats, out, error)
}

/// Makes a mask: whether each float compares so with the one with these bits, by IEEE 754, or in its total order where
/// `is_ieee` is 0. Returns 23 for a number of no operator; refused as `TypeMismatch`, then as `CastOutOfRange` where
/// the format has fewer bits.
#[unsafe(no_mangle)]
pub extern "C" fn hv_float_compare(
    alloc: Global,
    floats: &mut Handle,
    operator: u8,
    bits: u64,
    is_ieee: u8,
    out: &mut Handle,
    error: &mut ErrorFields,
) -> i32
    ensures same { floats.new.column ≡ floats.old.column }
    ensures made { result ≡ pos 0 → IsSomeAnd (operator_by operator)
        (λ op. WhereBoth (AreComparedBy (flag_of is_ieee) op bits) (array_in floats.old.column)
        (array_in out.new.column)) }
    ensures untyped { result ≡ pos 0 → format_in out.new.column ≡ [] }
    ensures kept { result ≢ pos 0 → out.new.column ≡ out.old.column }
    ensures ended { MatchOption (operator_by operator) (result ≡ pos 23)
        (λ op. EndsOnFloats (λ dtype. constant_fault dtype bits) (array_in floats.old.column) result error.new) }
{
    compare_handle(alloc, floats, operator, bits, is_ieee, out, error)
}

/// Makes what the operator of this number gives of the two floats at each place, in runs, as few as possible, or in a
/// constant. Returns 23 for a number of no operator; refused as `TypeMismatch` unless both are of floats of one format,
/// then as `Unsupported` for floats of 16 bits, then as `ColumnLength`.
#[unsafe(no_mangle)]
pub extern "C" fn hv_float_combine(
    alloc: Global,
    left: &mut Handle,
    operator: u8,
    right: &mut Handle,
    out: &mut Handle,
    error: &mut ErrorFields,
) -> i32
    ensures same { left.new.column ≡ left.old.column }
    ensures same_right { right.new.column ≡ right.old.column }
    ensures made { result ≡ pos 0 → IsSomeAnd (float_operator_numbered operator)
        (λ operator. WhereAll (AreFloatsCombined operator) (array_in left.old.column) (array_in right.old.column)
        (array_in out.new.column)) }
    ensures untyped { result ≡ pos 0 → format_in out.new.column ≡ [] }
    ensures kept { result ≢ pos 0 → out.new.column ≡ out.old.column }
    ensures ended { MatchOption (float_operator_numbered operator) (result ≡ pos 23)
        (λ operator. EndsOnFloatPairs (array_in left.old.column) (array_in right.old.column) result error.new) }
{
    combine_float_handles(alloc, left, operator, right, out, error)
}
