//! Floats compared with a constant, by runs.
ghost use Rattle.std.specs.Prelude.{◌≡◌, ◌<◌, ℕ, IfOk, IsErrOf, IsOkUnless, Some, length, map, true};
ghost use Rattle.column_base.specs.declared.dtype.DType.TheVariants as types;
ghost use Rattle.column_base.specs.Types.{nullability_of};
ghost use Rattle.column_base.specs.ValidityForm.{nullability_in};
ghost use Rattle.column_core.specs.FlatColumn.{leaf_of};
ghost use Rattle.column_core.specs.PrimitiveForm.{optional_numbers, primitive_dtype};
ghost use Rattle.column_core.specs.Refusal.{IsRefusedBy};
ghost use Rattle.column_floats.specs.Comparisons.{HoldsInTotalOrder, HoldsOfNumbers, tested_row};
ghost use Rattle.column_floats.specs.Formats.{constant_fault, format_of, holds_keys, is_floats};
ghost use Rattle.column_sums.specs.SumAnswer.{number_in};
ghost use Rattle.runend_array.specs.Array.{dtype_of, rows};
ghost use Rattle.runend_builder.specs.Encoded.{IsEncodedRows};
ghost use Rattle.runend_encode.specs.Encoding.{IsRowEncoding};
ghost use Rattle.runend_floats.specs.TruthRuns.{AreTruthRuns};
ghost use Rattle.runend_windows.specs.Ends.{IsEndsType, ends_of};
ghost use Rattle.runend_windows.specs.Visible.{HasRow};
ghost use Rattle.runend_windows.specs.Window.{IsWindow, run_rows};

use column_core::{FlatColumn, PrimitiveArray, VortexError, VortexResult};
use column_floats::{KeyComparison, KeyRange, KeyTest, format_of_constant, tested_keys};
use column_ops::CompareOperator;
use runend_array::{ArrayRef, ExecutionCtx, RunEnd, RunEndArray, array_of};
use runend_builder::row_runs;
use runend_encode::encode_runs;
use std::alloc::Allocator;

/// Compares each float with the one with these bits as numbers, by IEEE 754: a NaN is only unequal to all, also to
/// itself, and 0.0 equals -0.0. Returns booleans, null where the row is null: the run column that is their only tight
/// exact cover. Compares each run once. Refused as `TypeMismatch` where the column is not of `i16`, `i32` or `i64`,
/// then as `CastOutOfRange` where the format has fewer bits, both before any memory is taken, else only as
/// `OutOfMemory`.
pub fn compare_numbers<A: Allocator + Copy>(
    column: &ArrayRef<A>,
    operator: CompareOperator,
    bits: u64,
    ctx: &mut ExecutionCtx<A>,
) -> VortexResult<RunEndArray<A>>
    ensures refused { IsRefusedBy (constant_fault (dtype_of column.now) bits) result }
    ensures first { (error : VortexError) → constant_fault (dtype_of column.now) bits ≡ Some error →
        IsErrOf result error }
    ensures compared { IfOk result (AreTruthRuns (format_of (dtype_of column.now)) (λ other.
        HoldsOfNumbers operator (format_of (dtype_of column.now)) other bits) (rows column.now)
        (nullability_of (dtype_of column.now))) }
    ensures session { ctx.new ≡ ctx.old }
{
    let format = format_of_constant(column.dtype(), bits)?;
    let test = KeyRange::with(operator, format, bits);
    tested_column(column, &test, ctx)
}

/// Compares each float with the one with these bits in the total order of IEEE 754: by sign, exponent and fraction, so
/// that only equal bits are equal, -0.0 is below 0.0, and NaNs are below and above all numbers, by their signs.
/// Returns, costs and refuses the same as `compare_numbers`.
pub fn compare_total<A: Allocator + Copy>(
    column: &ArrayRef<A>,
    operator: CompareOperator,
    bits: u64,
    ctx: &mut ExecutionCtx<A>,
) -> VortexResult<RunEndArray<A>>
    ensures refused { IsRefusedBy (constant_fault (dtype_of column.now) bits) result }
    ensures first { (error : VortexError) → constant_fault (dtype_of column.now) bits ≡ Some error →
        IsErrOf result error }
    ensures compared { IfOk result (AreTruthRuns (format_of (dtype_of column.now)) (λ other.
        HoldsInTotalOrder operator (format_of (dtype_of column.now)) other bits) (rows column.now)
        (nullability_of (dtype_of column.now))) }
    ensures session { ctx.new ≡ ctx.old }
{
    let format = format_of_constant(column.dtype(), bits)?;
    let test = KeyComparison::with(operator, format, bits);
    tested_column(column, &test, ctx)
}

// Returns whether the key of each row passes the test, null for null, as the encoding of these booleans. Refused only
// as `OutOfMemory`.
fn tested_column<T: KeyTest, A: Allocator + Copy>(
    column: &ArrayRef<A>,
    test: &T,
    ctx: &mut ExecutionCtx<A>,
) -> VortexResult<RunEndArray<A>>
    requires { is_floats (dtype_of column.now) ≡ true }
    ensures only { IsOkUnless result VortexError.OutOfMemory }
    ensures tested { IfOk result (IsEncodedRows
        (map (tested_row (T.passes test.now)) (map number_in (rows column.now)))
        (types.Bool (nullability_of (dtype_of column.now)))) }
    ensures session { ctx.new ≡ ctx.old }
{
    let (ends, truths) = tested_runs(*ctx.allocator(), column, test)?;
    Ok(RunEnd::new_unchecked(ArrayRef::Primitive(ends), array_of(truths), 0, column.len()))
}

// Returns the ends and the values of that encoding. Tests each run once.
fn tested_runs<T: KeyTest, A: Allocator + Copy>(
    alloc: A,
    column: &ArrayRef<A>,
    test: &T,
) -> VortexResult<(PrimitiveArray<A>, FlatColumn<A>)>
    requires { is_floats (dtype_of column.now) ≡ true }
    ensures only { IsOkUnless result VortexError.OutOfMemory }
    ensures tested { IfOk result (λ parts. IsRowEncoding
        (map (tested_row (T.passes test.now)) (map number_in (rows column.now)))
        (types.Bool (nullability_of (dtype_of column.now))) parts.0 (leaf_of parts.1)) }
{
    let (ends, values) = row_runs(alloc, column)?;
    match values {
        FlatColumn::Primitive(keys) => {
            let parts = tested_shown(alloc, &ends, &keys, test, column.len());
            drop(keys);
            drop(ends);
            parts
        }
        _ => unreachable!(),
    }
}

// Returns the same for the rows that these runs of keys show, each run at least one.
fn tested_shown<T: KeyTest, A: Allocator + Copy>(
    alloc: A,
    ends: &PrimitiveArray<A>,
    keys: &PrimitiveArray<A>,
    test: &T,
    count: usize,
) -> VortexResult<(PrimitiveArray<A>, FlatColumn<A>)>
    requires native { holds_keys keys.now.ptype ≡ true }
    requires plain { IsEndsType (primitive_dtype ends.now) }
    requires window { IsWindow (ends_of ends.now) 0 count }
    requires paired { length (optional_numbers keys.now) ≡ length (ends_of ends.now) }
    requires shown { (run : ℕ) → run < length (ends_of ends.now) → HasRow (ends_of ends.now) 0 count run }
    ensures only { IsOkUnless result VortexError.OutOfMemory }
    ensures tested { IfOk result (λ parts. IsRowEncoding
        (run_rows (ends_of ends.now) (map (tested_row (T.passes test.now)) (optional_numbers keys.now)) 0 count)
        (types.Bool (nullability_in keys.now.validity)) parts.0 (leaf_of parts.1)) }
{
    let truths = tested_keys(alloc, keys, test)?;
    let truths = FlatColumn::Bool(truths);
    let parts = encode_runs(alloc, ends, &truths, 0, count);
    drop(truths);
    parts
}
