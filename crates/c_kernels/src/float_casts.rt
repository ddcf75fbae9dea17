//! Columns cast by their runs, on the heap: floats to another format, integers to floats, floats to integers.
ghost use Rattle.std.specs.Prelude.{◌≡◌, [], IfErr, IfOk, IsErrOf, None, Some};
ghost use Rattle.column_floats.specs.Formats.{floats_fault};
ghost use Rattle.runend_array.specs.Array.{dtype_of};
ghost use Rattle.runend_floats.specs.CastRuns.{integers_fault};
ghost use Rattle.typed_columns.specs.Typed.{format_of};
ghost use Rattle.c_kernels.specs.FloatCasts.{AreFloatsCast, AreIntegersCast, AreKeysCast, FailsAsFloats, FailsAsIntegers, FailsAsKeys, format_by};

use crate::float_columns::boxed_runs;
use c_columns::flat::Boxed;
use c_columns::sessions::plain_context;
use column_core::{PType, VortexError, VortexResult};
use runend_array::ArrayRef;
use runend_floats::{
    FloatFormat, cast_floats, floats_of_integers, integers_of_floats, round_floats, round_integers,
};
use std::alloc::Global;

/// Returns the floats in another format, as the run column of their keys: the same floats, or, where they are to be
/// rounded, the nearest. Refused as `TypeMismatch` exactly unless the type is `i16`, `i32` or `i64`, before any memory
/// is taken, then, only where nothing is rounded, as `CastOutOfRange` where the format does not have a float, else only
/// as `OutOfMemory`.
#[tactic(auto, using(crate::proofs::FloatEndings::no_floats, crate::proofs::CastEndings::rounded_floats_fail, crate::proofs::CastEndings::exact_floats_fail, crate::proofs::CastEndings::floats_box_fails))]
pub fn floats_cast(
    alloc: Global,
    floats: &ArrayRef<Global>,
    to: FloatFormat,
    is_rounded: bool,
) -> VortexResult<Boxed>
    ensures made { IfOk result (λ made. AreFloatsCast is_rounded to floats.now made.value.array) }
    ensures untyped { IfOk result (λ made. format_of made.value ≡ []) }
    ensures refused { floats_fault (dtype_of floats.now) ≡ None →
        IfErr result (FailsAsFloats is_rounded to floats.now) }
    ensures first { (error : VortexError) → floats_fault (dtype_of floats.now) ≡ Some error → IsErrOf result error }
{
    let mut ctx = plain_context(alloc);
    if is_rounded {
        boxed_runs(alloc, round_floats(floats, to, &mut ctx)?)
    } else {
        boxed_runs(alloc, cast_floats(floats, to, &mut ctx)?)
    }
}

/// Returns the floats that integers are, as the run column of their keys, or the nearest where they are to be rounded.
/// Refused as `TypeMismatch` exactly unless the rows are integers, before any memory is taken, then, only where nothing
/// is rounded, as `CastOutOfRange` where the format does not have an integer, else only as `OutOfMemory`.
#[tactic(auto, using(crate::proofs::CastEndings::no_integers, crate::proofs::CastEndings::rounded_integers_fail, crate::proofs::CastEndings::exact_integers_fail, crate::proofs::CastEndings::integers_box_fails))]
pub fn integers_cast(
    alloc: Global,
    integers: &ArrayRef<Global>,
    to: FloatFormat,
    is_rounded: bool,
) -> VortexResult<Boxed>
    ensures made { IfOk result (λ made. AreIntegersCast is_rounded to integers.now made.value.array) }
    ensures untyped { IfOk result (λ made. format_of made.value ≡ []) }
    ensures refused { integers_fault (dtype_of integers.now) ≡ None →
        IfErr result (FailsAsIntegers is_rounded to integers.now) }
    ensures first { (error : VortexError) → integers_fault (dtype_of integers.now) ≡ Some error →
        IsErrOf result error }
{
    let mut ctx = plain_context(alloc);
    if is_rounded {
        boxed_runs(alloc, round_integers(integers, to, &mut ctx)?)
    } else {
        boxed_runs(alloc, floats_of_integers(integers, to, &mut ctx)?)
    }
}

/// Returns the integers of a type that floats are, as a run column. Refused as `TypeMismatch` exactly unless the type
/// of the column is `i16`, `i32` or `i64`, before any memory is taken, then as `CastOutOfRange` where a float is not an
/// integer of the type wanted, else only as `OutOfMemory`.
#[tactic(auto, using(crate::proofs::FloatEndings::no_floats, crate::proofs::CastEndings::keys_boxed, crate::proofs::CastEndings::keys_fail, crate::proofs::CastEndings::keys_box_fails))]
pub fn keys_cast(alloc: Global, floats: &ArrayRef<Global>, to: PType) -> VortexResult<Boxed>
    ensures made { IfOk result (λ made. AreKeysCast to floats.now made.value.array) }
    ensures untyped { IfOk result (λ made. format_of made.value ≡ []) }
    ensures refused { floats_fault (dtype_of floats.now) ≡ None → IfErr result (FailsAsKeys to floats.now) }
    ensures first { (error : VortexError) → floats_fault (dtype_of floats.now) ≡ Some error → IsErrOf result error }
{
    boxed_runs(
        alloc,
        integers_of_floats(floats, to, &mut plain_context(alloc))?,
    )
}

/// Returns the format of floats whose keys are of the type of this number.
pub fn format_numbered(number: u8) -> Option<FloatFormat>
    ensures { result ≡ format_by number }
{
    match number {
        5 => Some(FloatFormat::F16),
        6 => Some(FloatFormat::F32),
        7 => Some(FloatFormat::F64),
        _ => None,
    }
}
