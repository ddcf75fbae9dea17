//! Floats and integers cast by runs: floats to another format, integers to floats, and floats to integers.
ghost use Rattle.std.specs.Prelude.{◌≡◌, ◌<◌, ℕ, IfErr, IfOk, IsErrOf, Some, false, length, map, true};
ghost use Rattle.column_base.specs.declared.dtype.DType.TheVariants as types;
ghost use Rattle.column_base.specs.Types.{nullability_of};
ghost use Rattle.column_base.specs.ValidityForm.{nullability_in};
ghost use Rattle.column_core.specs.FlatColumn.{leaf_of};
ghost use Rattle.column_core.specs.Leaf.{OfNumbers, single_rows};
ghost use Rattle.column_core.specs.PrimitiveForm.{optional_numbers, primitive_dtype};
ghost use Rattle.column_sums.specs.SumAnswer.{number_in};
ghost use Rattle.runend_array.specs.Array.{dtype_of, rows};
ghost use Rattle.runend_windows.specs.Ends.{IsEndsType, ends_of};
ghost use Rattle.runend_windows.specs.Visible.{HasRow};
ghost use Rattle.runend_windows.specs.Window.{IsWindow, run_rows};
ghost use Rattle.column_core.specs.Refusal.{IsRefusedBy};
ghost use Rattle.column_floats.specs.Casts.{Becomes, IsCastRefusal, IsIntegerOfKey, IsKeyNearInteger, IsKeyOfInteger, IsRoundedKey, IsSameKey};
ghost use Rattle.column_floats.specs.Formats.{floats_fault, format_of, is_floats, keys_of_format};
ghost use Rattle.runend_floats.specs.CastRuns.{AreCastParts, AreCastRuns, is_integers, integers_fault, number_type};

use column_core::{DType, FlatColumn, PType, PrimitiveArray, VortexError, VortexResult};
use column_floats::{
    FloatFormat, FloatsOfIntegers, IntegersOfFloats, NumberCast, RoundedFloats, RoundedIntegers,
    SameFloats, cast_numbers, format_of_column,
};
use runend_array::{ArrayRef, ExecutionCtx, RunEnd, RunEndArray, array_of};
use runend_builder::row_runs;
use runend_encode::encode_runs;
use std::alloc::Allocator;

/// Returns the same floats in another format: the run column of their keys that is the only tight exact cover, null
/// where the row is. Casts each run once. Refused as `TypeMismatch` where the column is not of `i16`, `i32` or `i64`,
/// before any memory is taken, then as `CastOutOfRange` where the format does not have a float, else only as
/// `OutOfMemory`.
pub fn cast_floats<A: Allocator + Copy>(
    column: &ArrayRef<A>,
    to: FloatFormat,
    ctx: &mut ExecutionCtx<A>,
) -> VortexResult<RunEndArray<A>>
    ensures mismatch { is_floats (dtype_of column.now) ≡ false → IsErrOf result VortexError.TypeMismatch }
    ensures refused { is_floats (dtype_of column.now) ≡ true → IfErr result (IsCastRefusal
        (Becomes (keys_of_format to) (IsSameKey (format_of (dtype_of column.now)) to))
        (map number_in (rows column.now))) }
    ensures cast { IfOk result (AreCastRuns
        (Becomes (keys_of_format to) (IsSameKey (format_of (dtype_of column.now)) to)) (rows column.now)
        (types.Primitive (keys_of_format to) (nullability_of (dtype_of column.now)))) }
    ensures session { ctx.new ≡ ctx.old }
{
    let from = format_of_column(column.dtype())?;
    cast_column(column, &SameFloats { from, to }, ctx)
}

/// Returns the nearest floats in another format, at a tie the even one: the run column of their keys that is the only
/// tight exact cover, null where the row is. By IEEE 754 a number past the finite floats by half a step or more is an
/// infinity; a NaN keeps its payload where the other format has it, and is else the quiet NaN without payload. Casts
/// each run once. Refused as `TypeMismatch` exactly where the column is not of `i16`, `i32` or `i64`, before any memory
/// is taken, else only as `OutOfMemory`.
pub fn round_floats<A: Allocator + Copy>(
    column: &ArrayRef<A>,
    to: FloatFormat,
    ctx: &mut ExecutionCtx<A>,
) -> VortexResult<RunEndArray<A>>
    ensures refused { IsRefusedBy (floats_fault (dtype_of column.now)) result }
    ensures first { is_floats (dtype_of column.now) ≡ false → IsErrOf result VortexError.TypeMismatch }
    ensures cast { IfOk result (AreCastRuns
        (Becomes (keys_of_format to) (IsRoundedKey (format_of (dtype_of column.now)) to)) (rows column.now)
        (types.Primitive (keys_of_format to) (nullability_of (dtype_of column.now)))) }
    ensures session { ctx.new ≡ ctx.old }
{
    let from = format_of_column(column.dtype())?;
    cast_column(column, &RoundedFloats { from, to }, ctx)
}

/// Returns the floats that the integers of a column are: the run column of their keys that is the only tight exact
/// cover, null where the row is. 0 is 0.0. Casts each run once. Refused as `TypeMismatch` where the column is not of
/// integers, before any memory is taken, then as `CastOutOfRange` where the format does not have an integer, else only
/// as `OutOfMemory`.
pub fn floats_of_integers<A: Allocator + Copy>(
    column: &ArrayRef<A>,
    to: FloatFormat,
    ctx: &mut ExecutionCtx<A>,
) -> VortexResult<RunEndArray<A>>
    ensures mismatch { is_integers (dtype_of column.now) ≡ false → IsErrOf result VortexError.TypeMismatch }
    ensures refused { is_integers (dtype_of column.now) ≡ true → IfErr result (IsCastRefusal
        (Becomes (keys_of_format to) (IsKeyOfInteger to)) (map number_in (rows column.now))) }
    ensures cast { IfOk result (AreCastRuns (Becomes (keys_of_format to) (IsKeyOfInteger to)) (rows column.now)
        (types.Primitive (keys_of_format to) (nullability_of (dtype_of column.now)))) }
    ensures session { ctx.new ≡ ctx.old }
{
    match column.dtype() {
        DType::Primitive(from, _) => cast_column(column, &FloatsOfIntegers { from, to }, ctx),
        _ => Err(VortexError::TypeMismatch),
    }
}

/// Returns the floats that are nearest to the integers of a column, at a tie the even one: the run column of their keys
/// that is the only tight exact cover, null where the row is. 0 is 0.0. Casts each run once. Refused as `TypeMismatch`
/// exactly where the column is not of integers, before any memory is taken, else only as `OutOfMemory`.
pub fn round_integers<A: Allocator + Copy>(
    column: &ArrayRef<A>,
    to: FloatFormat,
    ctx: &mut ExecutionCtx<A>,
) -> VortexResult<RunEndArray<A>>
    ensures refused { IsRefusedBy (integers_fault (dtype_of column.now)) result }
    ensures first { is_integers (dtype_of column.now) ≡ false → IsErrOf result VortexError.TypeMismatch }
    ensures cast { IfOk result (AreCastRuns (Becomes (keys_of_format to) (IsKeyNearInteger to)) (rows column.now)
        (types.Primitive (keys_of_format to) (nullability_of (dtype_of column.now)))) }
    ensures session { ctx.new ≡ ctx.old }
{
    match column.dtype() {
        DType::Primitive(from, _) => cast_column(column, &RoundedIntegers { from, to }, ctx),
        _ => Err(VortexError::TypeMismatch),
    }
}

/// Returns the integers that the floats of a column are, of this type: the run column that is the only tight exact
/// cover, null where the row is. -0.0 is 0. Casts each run once. Refused as `TypeMismatch` where the column is not of
/// `i16`, `i32` or `i64`, before any memory is taken, then as `CastOutOfRange` where the type does not have a float,
/// which may have a fraction, be infinite or a NaN, else only as `OutOfMemory`.
pub fn integers_of_floats<A: Allocator + Copy>(
    column: &ArrayRef<A>,
    to: PType,
    ctx: &mut ExecutionCtx<A>,
) -> VortexResult<RunEndArray<A>>
    ensures mismatch { is_floats (dtype_of column.now) ≡ false → IsErrOf result VortexError.TypeMismatch }
    ensures refused { is_floats (dtype_of column.now) ≡ true → IfErr result (IsCastRefusal
        (Becomes to (IsIntegerOfKey (format_of (dtype_of column.now)))) (map number_in (rows column.now))) }
    ensures cast { IfOk result (AreCastRuns (Becomes to (IsIntegerOfKey (format_of (dtype_of column.now))))
        (rows column.now) (types.Primitive to (nullability_of (dtype_of column.now)))) }
    ensures session { ctx.new ≡ ctx.old }
{
    let from = format_of_column(column.dtype())?;
    cast_column(column, &IntegersOfFloats { from, to }, ctx)
}

// Returns what the numbers of the column become, as the encoding of their rows.
fn cast_column<C: NumberCast, A: Allocator + Copy>(
    column: &ArrayRef<A>,
    cast: &C,
    ctx: &mut ExecutionCtx<A>,
) -> VortexResult<RunEndArray<A>>
    requires { number_type (dtype_of column.now) ≡ Some (C.source cast.now) }
    ensures refused { IfErr result (IsCastRefusal (Becomes (C.target cast.now) (C.casts cast.now))
        (map number_in (rows column.now))) }
    ensures cast { IfOk result (AreCastRuns (Becomes (C.target cast.now) (C.casts cast.now)) (rows column.now)
        (types.Primitive (C.target cast.now) (nullability_of (dtype_of column.now)))) }
    ensures session { ctx.new ≡ ctx.old }
{
    let (ends, values) = cast_runs(*ctx.allocator(), column, cast)?;
    Ok(RunEnd::new_unchecked(ArrayRef::Primitive(ends), array_of(values), 0, column.len()))
}

// Returns the ends and the values of that encoding.
fn cast_runs<C: NumberCast, A: Allocator + Copy>(
    alloc: A,
    column: &ArrayRef<A>,
    cast: &C,
) -> VortexResult<(PrimitiveArray<A>, FlatColumn<A>)>
    requires { number_type (dtype_of column.now) ≡ Some (C.source cast.now) }
    ensures refused { IfErr result (IsCastRefusal (Becomes (C.target cast.now) (C.casts cast.now))
        (map number_in (rows column.now))) }
    ensures cast { IfOk result (λ parts. AreCastParts (Becomes (C.target cast.now) (C.casts cast.now))
        (rows column.now) (types.Primitive (C.target cast.now) (nullability_of (dtype_of column.now)))
        parts.0 (leaf_of parts.1)) }
{
    let (ends, values) = row_runs(alloc, column)?;
    match values {
        FlatColumn::Primitive(array) => {
            let parts = cast_shown(alloc, &ends, &array, cast, column.len());
            drop(array);
            drop(ends);
            parts
        }
        _ => unreachable!(),
    }
}

// Returns the ends and the values of the encoding of what the rows become that these runs show, each run at least one.
fn cast_shown<C: NumberCast, A: Allocator + Copy>(
    alloc: A,
    ends: &PrimitiveArray<A>,
    array: &PrimitiveArray<A>,
    cast: &C,
    count: usize,
) -> VortexResult<(PrimitiveArray<A>, FlatColumn<A>)>
    requires source { array.now.ptype ≡ C.source cast.now }
    requires plain { IsEndsType (primitive_dtype ends.now) }
    requires window { IsWindow (ends_of ends.now) 0 count }
    requires paired { length (single_rows (OfNumbers array.now)) ≡ length (ends_of ends.now) }
    requires shown { (run : ℕ) → run < length (ends_of ends.now) → HasRow (ends_of ends.now) 0 count run }
    ensures refused { IfErr result (IsCastRefusal (Becomes (C.target cast.now) (C.casts cast.now))
        (optional_numbers array.now)) }
    ensures cast { IfOk result (λ parts. AreCastParts (Becomes (C.target cast.now) (C.casts cast.now))
        (run_rows (ends_of ends.now) (single_rows (OfNumbers array.now)) 0 count)
        (types.Primitive (C.target cast.now) (nullability_in array.now.validity)) parts.0 (leaf_of parts.1)) }
{
    let made = cast_numbers(alloc, array, cast)?;
    let made = FlatColumn::Primitive(made);
    let parts = encode_runs(alloc, ends, &made, 0, count);
    drop(made);
    parts
}
