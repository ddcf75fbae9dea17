//! The casts of floats, and from and to integers, on the columns of handles.
ghost use Rattle.std.specs.Prelude.{◌≡◌, ◌≢◌, [], IsSomeAnd, MatchOption, pos};
ghost use Rattle.column_floats.specs.Formats.{floats_fault};
ghost use Rattle.runend_floats.specs.CastRuns.{integers_fault};
ghost use Rattle.c_columns.specs.Ending.{WhereBoth};
ghost use Rattle.c_columns.specs.Flags.{flag_of};
ghost use Rattle.c_columns.specs.Handle.{array_in, format_in};
ghost use Rattle.c_columns.specs.Kinds.{ptype_by as ptype_by_number};
ghost use Rattle.c_kernels.specs.FloatCasts.{AreFloatsCast, AreIntegersCast, AreKeysCast, EndsOnCast, FailsAsFloats, FailsAsIntegers, FailsAsKeys, format_by};

use crate::float_casts::{floats_cast, format_numbered, integers_cast, keys_cast};
use c_columns::commands::answer;
use c_columns::error_fields::{BAD_NUMBER, ErrorFields, NO_COLUMN};
use c_columns::handle::Handle;
use c_columns::kinds::{is_set, ptype_by};
use column_core::PType;
use runend_floats::FloatFormat;
use std::alloc::Global;

/// Puts floats in the format whose keys have the type of this number into a handle, rounded to the nearest where
/// `is_rounded` is not 0, and returns 0. Else returns the number of an error, and leaves the handle: 23 for a number
/// that names no such type, then 22 for an empty handle, then as `floats_cast` is refused.
pub fn cast_floats_handle(
    alloc: Global,
    floats: &mut Handle,
    to: u8,
    is_rounded: u8,
    out: &mut Handle,
    error: &mut ErrorFields,
) -> i32
    ensures same { floats.new.column ≡ floats.old.column }
    ensures made { result ≡ pos 0 → IsSomeAnd (format_by to)
        (λ format. WhereBoth (AreFloatsCast (flag_of is_rounded) format) (array_in floats.old.column)
        (array_in out.new.column)) }
    ensures untyped { result ≡ pos 0 → format_in out.new.column ≡ [] }
    ensures kept { result ≢ pos 0 → out.new.column ≡ out.old.column }
    ensures ended { MatchOption (format_by to) (result ≡ pos 23) (λ format. EndsOnCast floats_fault
        (FailsAsFloats (flag_of is_rounded) format) (array_in floats.old.column) result error.new) }
{
    match format_numbered(to) {
        Some(format) => cast_floats_held(alloc, floats, format, is_rounded, out, error),
        None => BAD_NUMBER,
    }
}

/// Puts integers as floats of the format whose keys have the type of this number into a handle, rounded to the nearest
/// where `is_rounded` is not 0, and returns 0. Else returns the number of an error, and leaves the handle: 23 for a
/// number that names no such type, then 22 for an empty handle, then as `integers_cast` is refused.
pub fn cast_integers_handle(
    alloc: Global,
    integers: &mut Handle,
    to: u8,
    is_rounded: u8,
    out: &mut Handle,
    error: &mut ErrorFields,
) -> i32
    ensures same { integers.new.column ≡ integers.old.column }
    ensures made { result ≡ pos 0 → IsSomeAnd (format_by to)
        (λ format. WhereBoth (AreIntegersCast (flag_of is_rounded) format) (array_in integers.old.column)
        (array_in out.new.column)) }
    ensures untyped { result ≡ pos 0 → format_in out.new.column ≡ [] }
    ensures kept { result ≢ pos 0 → out.new.column ≡ out.old.column }
    ensures ended { MatchOption (format_by to) (result ≡ pos 23) (λ format. EndsOnCast integers_fault
        (FailsAsIntegers (flag_of is_rounded) format) (array_in integers.old.column) result error.new) }
{
    match format_numbered(to) {
        Some(format) => cast_integers_held(alloc, integers, format, is_rounded, out, error),
        None => BAD_NUMBER,
    }
}

/// Puts floats as integers of the type of this number into a handle, and returns 0. Else returns the number of an
/// error, and leaves the handle: 23 for a number that names no type of integers, then 22 for an empty handle, then as
/// `keys_cast` is refused.
pub fn cast_keys_handle(
    alloc: Global,
    floats: &mut Handle,
    to: u8,
    out: &mut Handle,
    error: &mut ErrorFields,
) -> i32
    ensures same { floats.new.column ≡ floats.old.column }
    ensures made { result ≡ pos 0 → IsSomeAnd (ptype_by_number to)
        (λ ptype. WhereBoth (AreKeysCast ptype) (array_in floats.old.column) (array_in out.new.column)) }
    ensures untyped { result ≡ pos 0 → format_in out.new.column ≡ [] }
    ensures kept { result ≢ pos 0 → out.new.column ≡ out.old.column }
    ensures ended { MatchOption (ptype_by_number to) (result ≡ pos 23) (λ ptype. EndsOnCast floats_fault
        (FailsAsKeys ptype) (array_in floats.old.column) result error.new) }
{
    match ptype_by(to) {
        Some(ptype) => cast_keys_held(alloc, floats, ptype, out, error),
        None => BAD_NUMBER,
    }
}

// The same cast of floats, to a format.
#[tactic(auto, using(crate::proofs::CastEndings::cast_empty, crate::proofs::CastEndings::floats_end, crate::proofs::FloatEndings::column_made))]
fn cast_floats_held(
    alloc: Global,
    floats: &mut Handle,
    format: FloatFormat,
    is_rounded: u8,
    out: &mut Handle,
    error: &mut ErrorFields,
) -> i32
    ensures same { floats.new.column ≡ floats.old.column }
    ensures made { result ≡ pos 0 →
        WhereBoth (AreFloatsCast (flag_of is_rounded) format) (array_in floats.old.column) (array_in out.new.column) }
    ensures untyped { result ≡ pos 0 → format_in out.new.column ≡ [] }
    ensures kept { result ≢ pos 0 → out.new.column ≡ out.old.column }
    ensures ended { EndsOnCast floats_fault (FailsAsFloats (flag_of is_rounded) format) (array_in floats.old.column)
        result error.new }
{
    let Some(held) = floats.take(alloc) else {
        return NO_COLUMN;
    };
    let outcome = floats_cast(alloc, &held.array, format, is_set(is_rounded));
    floats.put(held);
    answer(outcome, out, error)
}

// The same cast of integers, to a format.
#[tactic(auto, using(crate::proofs::CastEndings::cast_empty, crate::proofs::CastEndings::integers_end, crate::proofs::FloatEndings::column_made))]
fn cast_integers_held(
    alloc: Global,
    integers: &mut Handle,
    format: FloatFormat,
    is_rounded: u8,
    out: &mut Handle,
    error: &mut ErrorFields,
) -> i32
    ensures same { integers.new.column ≡ integers.old.column }
    ensures made { result ≡ pos 0 →
        WhereBoth (AreIntegersCast (flag_of is_rounded) format) (array_in integers.old.column)
        (array_in out.new.column) }
    ensures untyped { result ≡ pos 0 → format_in out.new.column ≡ [] }
    ensures kept { result ≢ pos 0 → out.new.column ≡ out.old.column }
    ensures ended { EndsOnCast integers_fault (FailsAsIntegers (flag_of is_rounded) format)
        (array_in integers.old.column)
        result error.new }
{
    let Some(held) = integers.take(alloc) else {
        return NO_COLUMN;
    };
    let outcome = integers_cast(alloc, &held.array, format, is_set(is_rounded));
    integers.put(held);
    answer(outcome, out, error)
}

// The same cast of floats, to a type of integers.
#[tactic(auto, using(crate::proofs::CastEndings::cast_empty, crate::proofs::CastEndings::keys_end, crate::proofs::FloatEndings::column_made))]
fn cast_keys_held(
    alloc: Global,
    floats: &mut Handle,
    ptype: PType,
    out: &mut Handle,
    error: &mut ErrorFields,
) -> i32
    ensures same { floats.new.column ≡ floats.old.column }
    ensures made { result ≡ pos 0 →
        WhereBoth (AreKeysCast ptype) (array_in floats.old.column) (array_in out.new.column) }
    ensures untyped { result ≡ pos 0 → format_in out.new.column ≡ [] }
    ensures kept { result ≢ pos 0 → out.new.column ≡ out.old.column }
    ensures ended { EndsOnCast floats_fault (FailsAsKeys ptype) (array_in floats.old.column) result error.new }
{
    let Some(held) = floats.take(alloc) else {
        return NO_COLUMN;
    };
    let outcome = keys_cast(alloc, &held.array, ptype);
    floats.put(held);
    answer(outcome, out, error)
}
