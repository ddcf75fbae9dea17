//! The rows of an array of any form as few runs as there can be.
ghost use Rattle.std.specs.Prelude.{◌≡◌, ◌∷◌, ◌<◌, [], None, Some, IfOk, IsErrOf, IsOkUnless};
ghost use Rattle.column_base.specs.declared.error.VortexError.{VortexError};
ghost use Rattle.column_base.specs.Types.{nullability_of};
ghost use Rattle.column_base.specs.declared.dtype.PType.TheVariants.{U64};
ghost use Rattle.column_core.specs.FlatColumn.{leaf_of};
ghost use Rattle.column_core.specs.Refusal.{IsRefusedBy};
ghost use Rattle.column_core.specs.Value.{MayBeNull};
ghost use Rattle.runend_array.specs.Array.{column_of, dtype_of, rows};
ghost use Rattle.runend_array.specs.Column.{OfConstant, column_dtype, column_of_runs, runs_with};
ghost use Rattle.runend_encode.specs.Encoding.{IsRowEncoding};
ghost use Rattle.runend_commands.specs.Meaning.{IsTightColumn};
ghost use Rattle.runend_commands.specs.Refusal.{numbers_fault};

use column_core::{
    DType, FlatColumn, PrimitiveArray, PrimitiveValues, Validity, VortexError, VortexResult,
};
use runend_array::{ArrayRef, ExecutionCtx, RunEnd, RunEndArray, array_of, null_constant};
use runend_builder::row_runs;
use runend_windows::has_nulls_alone;
use std::alloc::Allocator;

/// Writes the rows as the least number of runs, whose ends have the narrowest type that holds the last end. A run
/// column is written anew, since its neighbouring runs may be equal. Looks only at the visible runs of run columns and
/// constants, and not at their rows. Refused as `OnlyPrimitive` unless the rows are integers, before any memory is
/// taken.
pub fn encode<A: Allocator + Copy>(
    column: &ArrayRef<A>,
    ctx: &mut ExecutionCtx<A>,
) -> VortexResult<ArrayRef<A>>
    ensures refused { IsRefusedBy (numbers_fault (dtype_of column.now)) result }
    ensures first { (error : VortexError) → numbers_fault (dtype_of column.now) ≡ Some error → IsErrOf result error }
    ensures rows { IfOk result (λ encoded. rows encoded ≡ rows column.now) }
    ensures dtype { IfOk result (λ encoded. dtype_of encoded ≡ dtype_of column.now) }
    ensures form { IfOk result (λ encoded. IsTightColumn (rows column.now) (column_of encoded)) }
    ensures session { ctx.new ≡ ctx.old }
{
    let DType::Primitive(_, _) = column.dtype() else {
        return Err(VortexError::OnlyPrimitive);
    };
    match column {
        ArrayRef::Primitive(_) => encode_flat(column, ctx),
        _ => encode_visible(column, ctx),
    }
}

// A flat column, row by row.
fn encode_flat<A: Allocator + Copy>(
    column: &ArrayRef<A>,
    ctx: &mut ExecutionCtx<A>,
) -> VortexResult<ArrayRef<A>>
    ensures refused { IsRefusedBy (numbers_fault (dtype_of column.now)) result }
    ensures rows { IfOk result (λ encoded. rows encoded ≡ rows column.now) }
    ensures dtype { IfOk result (λ encoded. dtype_of encoded ≡ dtype_of column.now) }
    ensures form { IfOk result (λ encoded. IsTightColumn (rows column.now) (column_of encoded)) }
    ensures session { ctx.new ≡ ctx.old }
{
    let flat = column.canonicalize(ctx)?;
    let runs = RunEnd::encode(flat, ctx)?;
    let encoded = ArrayRef::of_runs(*ctx.allocator(), runs)?;
    Ok(encoded)
}

// Runs or a constant, by the visible runs.
fn encode_visible<A: Allocator + Copy>(
    column: &ArrayRef<A>,
    ctx: &ExecutionCtx<A>,
) -> VortexResult<ArrayRef<A>>
    requires { numbers_fault (dtype_of column.now) ≡ None }
    ensures only { IsOkUnless result VortexError.OutOfMemory }
    ensures rows { IfOk result (λ encoded. rows encoded ≡ rows column.now) }
    ensures dtype { IfOk result (λ encoded. dtype_of encoded ≡ dtype_of column.now) }
    ensures form { IfOk result (λ encoded. IsTightColumn (rows column.now) (column_of encoded)) }
{
    let alloc = *ctx.allocator();
    let (ends, values) = row_runs(alloc, column)?;
    let runs = runs_of_parts(alloc, column, ends, values)?;
    let encoded = ArrayRef::of_runs(alloc, runs)?;
    Ok(encoded)
}

// The run column of the encoding of a column. Rows that are all null are one run of one constant null.
fn runs_of_parts<A: Allocator + Copy>(
    alloc: A,
    column: &ArrayRef<A>,
    ends: PrimitiveArray<A>,
    values: FlatColumn<A>,
) -> VortexResult<RunEndArray<A>>
    requires { IsRowEncoding (rows column.now) (dtype_of column.now) ends (leaf_of values) }
    ensures only { IsOkUnless result VortexError.OutOfMemory }
    ensures dtype { IfOk result (λ runs. column_dtype (column_of_runs runs) ≡ dtype_of column.now) }
    ensures form { IfOk result (λ runs. IsTightColumn (rows column.now) (column_of_runs runs)) }
{
    let count = column.len();
    if has_nulls_alone(&values) {
        drop(values);
        drop(ends);
        return run_of_nulls(alloc, column.dtype(), count);
    }
    Ok(RunEnd::new_unchecked(ArrayRef::Primitive(ends), array_of(values), 0, count))
}

// The rows, all null, as one run: its end in u64, and one constant null.
fn run_of_nulls<A: Allocator + Copy>(
    alloc: A,
    dtype: DType,
    count: usize,
) -> VortexResult<RunEndArray<A>>
    requires null { MayBeNull (nullability_of dtype) }
    requires some { 0 < count }
    ensures only { IsOkUnless result VortexError.OutOfMemory }
    ensures made { IfOk result (λ runs. runs ≡ runs_with U64 (count ∷ [])
        (OfConstant (record { dtype = dtype; value = None; count = 1 })) 0 count) }
{
    let ends = Vec::from_slice(alloc, &[count as u64])?;
    let ends = PrimitiveArray::new_unchecked(
        PrimitiveValues::from_vec(ends),
        Validity::NonNullable,
    );
    let nulls = null_constant(dtype, 1);
    Ok(RunEnd::new_unchecked(
        ArrayRef::Primitive(ends),
        ArrayRef::Constant(nulls),
        0,
        count,
    ))
}
