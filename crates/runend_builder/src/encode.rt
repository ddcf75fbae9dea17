//! The encoder of arrays of any form.
ghost use Rattle.std.specs.Prelude.{◌≡◌, Some, IfOk, IsErrOf, IsOkUnless};
ghost use Rattle.column_core.specs.FlatColumn.{leaf_of};
ghost use Rattle.column_core.specs.Kinds.{list_fault};
ghost use Rattle.column_core.specs.Leaf.{leaf_dtype, single_rows};
ghost use Rattle.column_core.specs.Refusal.{IsRefusedBy};
ghost use Rattle.column_core.specs.Value.{IsLists};
ghost use Rattle.runend_array.specs.Array.{column_of, dtype_of, rows};
ghost use Rattle.runend_array.specs.Column.{AreRuns, column_dtype, column_of_runs, column_rows};
ghost use Rattle.runend_encode.specs.Encoding.{IsRowEncoding};
ghost use Rattle.runend_column.specs.VisibleForm.{visible_values as values_of_visible};
ghost use Rattle.runend_builder.specs.Encoded.{IsConstantForm, IsEncodedRows};

use column_core::{
    FlatColumn, NativePType, PrimitiveArray, Validity, VortexError, VortexResult, fault_of_lists,
};
use runend_array::{ArrayRef, Canonical, ExecutionCtx, RunEnd, RunEndArray, array_of};
use runend_column::{ends_of_visible, visible_offset, visible_values};
use runend_encode::{encode_flat, encode_runs};
use std::alloc::Allocator;

/// Returns the run column of the encoding of the rows of an array, of any form and any kind but lists: a tight exact
/// cover of them, with ends of the least unsigned type that holds the last end, and with flat values of the array's
/// type. Looks at the visible runs of a run column or a constant, and not at their rows. Refused as `Unsupported`
/// exactly for lists, before any memory is taken, else only as `OutOfMemory`.
pub fn encode_rows<A: Allocator + Copy>(
    array: &ArrayRef<A>,
    ctx: &mut ExecutionCtx<A>,
) -> VortexResult<RunEndArray<A>>
    ensures refused { IsRefusedBy (list_fault (dtype_of array.now)) result }
    ensures first { (error : VortexError) → list_fault (dtype_of array.now) ≡ Some error → IsErrOf result error }
    ensures encoded { IfOk result (λ runs. IsEncodedRows (rows array.now) (dtype_of array.now) runs) }
    ensures session { ctx.new ≡ ctx.old }
{
    let count = array.len();
    let (ends, values) = row_runs(*ctx.allocator(), array)?;
    Ok(RunEnd::new_unchecked(ArrayRef::Primitive(ends), array_of(values), 0, count))
}

/// Returns the ends and the values of that encoding. Refused as `encode_rows` refuses.
pub fn row_runs<A: Allocator + Copy>(
    alloc: A,
    array: &ArrayRef<A>,
) -> VortexResult<(PrimitiveArray<A>, FlatColumn<A>)>
    ensures refused { IsRefusedBy (list_fault (dtype_of array.now)) result }
    ensures first { (error : VortexError) → list_fault (dtype_of array.now) ≡ Some error → IsErrOf result error }
    ensures encoding { IfOk result (λ parts.
        IsRowEncoding (rows array.now) (dtype_of array.now) parts.0 (leaf_of parts.1)) }
{
    if let Some(error) = fault_of_lists(array.dtype()) {
        return Err(error);
    }
    runs_in(alloc, array)
}

// The ends and the values of the encoding of rows that are not lists, by form.
fn runs_in<A: Allocator + Copy>(
    alloc: A,
    array: &ArrayRef<A>,
) -> VortexResult<(PrimitiveArray<A>, FlatColumn<A>)>
    requires { ¬ IsLists (dtype_of array.now) }
    ensures only { IsOkUnless result VortexError.OutOfMemory }
    ensures encoding { IfOk result (λ parts.
        IsRowEncoding (rows array.now) (dtype_of array.now) parts.0 (leaf_of parts.1)) }
{
    match array {
        ArrayRef::ListView(_) => unreachable!(),
        ArrayRef::Constant(_) => runs_of_constant(alloc, array),
        ArrayRef::RunEnd(runs) => runs_of_runs(alloc, runs),
        _ => match array.flat_view() {
            Some(flat) => encode_flat(alloc, flat),
            None => unreachable!(),
        },
    }
}

// The visible runs of a run column, joined where neighbours have equal values.
fn runs_of_runs<A: Allocator + Copy>(
    alloc: A,
    runs: &RunEndArray<A>,
) -> VortexResult<(PrimitiveArray<A>, FlatColumn<A>)>
    requires { ¬ IsLists (column_dtype runs.now.values) }
    ensures only { IsOkUnless result VortexError.OutOfMemory }
    ensures encoding { IfOk result (λ parts.
        IsRowEncoding (column_rows (column_of_runs runs.now)) (column_dtype runs.now.values)
        parts.0 (leaf_of parts.1)) }
{
    let values = visible_values(alloc, runs)?;
    let made = runs_over(alloc, runs, &values);
    drop(values);
    made
}

// The visible runs of a run column, given their values, joined where neighbours have equal values.
fn runs_over<A: Allocator + Copy>(
    alloc: A,
    runs: &RunEndArray<A>,
    values: &FlatColumn<A>,
) -> VortexResult<(PrimitiveArray<A>, FlatColumn<A>)>
    requires valid { AreRuns runs.now }
    requires shown { single_rows (leaf_of values.now) ≡ values_of_visible runs.now }
    requires typed { leaf_dtype (leaf_of values.now) ≡ column_dtype runs.now.values }
    ensures only { IsOkUnless result VortexError.OutOfMemory }
    ensures encoding { IfOk result (λ parts.
        IsRowEncoding (column_rows (column_of_runs runs.now)) (column_dtype runs.now.values)
        parts.0 (leaf_of parts.1)) }
{
    let ends = ends_of_visible(alloc, runs)?;
    encode_runs(alloc, &ends, values, visible_offset(runs), runs.len())
}

// The one run of a constant, or none where it has no row.
fn runs_of_constant<A: Allocator + Copy>(
    alloc: A,
    array: &ArrayRef<A>,
) -> VortexResult<(PrimitiveArray<A>, FlatColumn<A>)>
    requires single { ¬ IsLists (dtype_of array.now) }
    requires constant { IsConstantForm (column_of array.now) }
    ensures only { IsOkUnless result VortexError.OutOfMemory }
    ensures encoding { IfOk result (λ parts.
        IsRowEncoding (rows array.now) (dtype_of array.now) parts.0 (leaf_of parts.1)) }
{
    let count = array.len();
    let runs = count.min(1);
    let ends = vec![in alloc; count as u64; runs]?;
    let ends = PrimitiveArray::new_unchecked(u64::wrap(ends), Validity::NonNullable);
    let flat = match array.rows_between(alloc, 0, runs) {
        Ok(flat) => flat,
        Err(error) => {
            drop(ends);
            return Err(error);
        }
    };
    match flat {
        Canonical::Flat(values) => {
            let made = encode_runs(alloc, &ends, &values, 0, count);
            drop(values);
            drop(ends);
            made
        }
        Canonical::List(_) => unreachable!(),
    }
}
