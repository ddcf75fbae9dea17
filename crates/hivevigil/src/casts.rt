//! Calls that cast floats to another format, and from and to integers.
ghost use Rattle.std.specs.Prelude.{◌≡◌, ◌≢◌, [], IsSomeAnd, MatchOption, pos};
ghost use Rattle.column_floats.specs.Formats.{floats_fault};
ghost use Rattle.runend_floats.specs.CastRuns.{integers_fault};
ghost use Rattle.c_columns.specs.Ending.{WhereBoth};
ghost use Rattle.c_columns.specs.Flags.{flag_of};
ghost use Rattle.c_columns.specs.Handle.{array_in, format_in};
ghost use Rattle.c_columns.specs.Kinds.{ptype_by};
ghost use Rattle.c_kernels.specs.FloatCasts.{AreFloatsCast, AreIntegersCast, AreKeysCast, EndsOnCast, FailsAsFloats, FailsAsIntegers, FailsAsKeys, format_by};

use c_columns::error_fields::ErrorFields;
use c_columns::handle::Handle;
use c_kernels::{cast_floats_handle, cast_integers_handle, cast_keys_handle};
use std::alloc::Global;

/// Makes the floats in the format whose keys have the type of this number: the same floats, or the nearest where
/// `is_rounded` is not 0. Returns 23 for another type; refused as `TypeMismatch` exactly unless the column is of `i16`,
/// `i32` or `i64`, then, only where nothing is rounded, as `CastOutOfRange`.
#[unsafe(no_mangle)]
pub extern "C" fn hv_float_cast(
    alloc: Global,
    floats: &mut Handle,
    to: u8,
    is_rounded: u8,
    out: &mut Handle,
    error: &mut ErrorFields,
) -> i32
    ensures same { floats.new.column ≡ floats.old.column }
    ensures made { result ≡ pos 0 → IsSomeAnd (format_by to)
        (λ format. WhereBoth (AreFloatsCast (flag_of is_rounded) format) (array_in floats.old.column)
        (array_in out.new.column)) }
    ensures untyped { result ≡ pos 0 → format_in out.new.column ≡ [] }
    ensures kept { result ≢ pos 0 → out.new.column ≡ out.old.column }
    ensures ended { MatchOption (format_by to) (result ≡ pos 23) (λ format. EndsOnCast floats_fault
        (FailsAsFloats (flag_of is_rounded) format) (array_in floats.old.column) result error.new) }
{
    cast_floats_handle(alloc, floats, to, is_rounded, out, error)
}

/// Makes the floats that integers are, in the format whose keys have the type of this number, or the nearest where
/// `is_rounded` is not 0. Returns 23 for another type; refused as `TypeMismatch` exactly unless the rows are integers,
/// then, only where nothing is rounded, as `CastOutOfRange`.
#[unsafe(no_mangle)]
pub extern "C" fn hv_float_of_integers(
    alloc: Global,
    integers: &mut Handle,
    to: u8,
    is_rounded: u8,
    out: &mut Handle,
    error: &mut ErrorFields,
) -> i32
    ensures same { integers.new.column ≡ integers.old.column }
    ensures made { result ≡ pos 0 → IsSomeAnd (format_by to)
        (λ format. WhereBoth (AreIntegersCast (flag_of is_rounded) format) (array_in integers.old.column)
        (array_in out.new.column)) }
    ensures untyped { result ≡ pos 0 → format_in out.new.column ≡ [] }
    ensures kept { result ≢ pos 0 → out.new.column ≡ out.old.column }
    ensures ended { MatchOption (format_by to) (result ≡ pos 23) (λ format. EndsOnCast integers_fault
        (FailsAsIntegers (flag_of is_rounded) format) (array_in integers.old.column) result error.new) }
{
    cast_integers_handle(alloc, integers, to, is_rounded, out, error)
}

/// Makes the integers of the type of this number that the floats are. Returns 23 for a number of no type of integers;
/// refused as `TypeMismatch` exactly unless the column is of `i16`, `i32` or `i64`, then as `CastOutOfRange`.
#[unsafe(no_mangle)]
pub extern "C" fn hv_float_to_integers(
    alloc: Global,
    floats: &mut Handle,
    to: u8,
    out: &mut Handle,
    error: &mut ErrorFields,
) -> i32
    ensures same { floats.new.column ≡ floats.old.column }
    ensures made { result ≡ pos 0 → IsSomeAnd (ptype_by to)
        (λ ptype. WhereBoth (AreKeysCast ptype) (array_in floats.old.column) (array_in out.new.column)) }
    ensures untyped { result ≡ pos 0 → format_in out.new.column ≡ [] }
    ensures kept { result ≢ pos 0 → out.new.column ≡ out.old.column }
    ensures ended { MatchOption (ptype_by to) (result ≡ pos 23) (λ ptype. EndsOnCast floats_fault
        (FailsAsKeys ptype) (array_in floats.old.column) result error.new) }
{
    cast_keys_handle(alloc, floats, to, out, error)
}
