//! Filters of run columns.
ghost use Rattle.std.specs.Prelude.{[], ◌≡◌, ◌↔◌, IfOk, IsErrOf, IsOkUnless, IsTrue, Some, count_by, length};
ghost use Rattle.column_base.specs.declared.error.VortexError.{VortexError};
ghost use Rattle.column_base.specs.Mask.{mask_bits};
ghost use Rattle.column_core.specs.Kinds.{is_numbers};
ghost use Rattle.column_core.specs.Refusal.{IsRefusedBy};
ghost use Rattle.column_ops.specs.Filter.{filter_fault, filter_rows};
ghost use Rattle.runend_array.specs.Array.{column_of, dtype_of, rows};
ghost use Rattle.runend_array.specs.Canonical.{canonical_column};
ghost use Rattle.runend_array.specs.Column.{column_dtype, column_of_runs, column_rows};
ghost use Rattle.runend_array.specs.Encoding.{IsComputedFlat};
ghost use Rattle.runend_column.specs.Computed.{IsComputedAs};
ghost use Rattle.runend_select.specs.FilterForm.{HasNoRuns, IsFilterForm, IsSelectedForm, IsWholeForm, TakesDirectly};

use crate::filtered_runs::{minimal_column, selected_runs};
use crate::rank::BitRanks;
use crate::taken_runs::taken_rows;
use column_core::{BitBuffer, Mask, Validity, VortexError, VortexResult, is_number_type};
use runend_array::{
    ArrayRef, Canonical, ExecutionCtx, RunEnd, RunEndArray, RunEndArrayExt, RunEndArraySlotsExt,
    Thresholds,
};
use runend_column::set_bit_indices;
use std::alloc::Allocator;

/// Returns the rows at which the mask is true, in order. Integers are returned as runs in minimal form: as few as can
/// be, none hidden and no neighbours equal (null is equal to null), at offset 0, with the number of rows as the last
/// end, ends of the same type, and flat values. A column of another type is unchanged under `AllTrue`, has no runs and
/// offset 0 under `AllFalse`, and else keeps the runs with a selected row, at offset 0 and with flat values. If the
/// session's thresholds say that few rows are selected, a mask of bits takes them one by one into a flat column.
///
/// Refused as `MaskLength`, with the mask's length and the number of rows, exactly where they differ,
/// however little memory there is; else only as `OutOfMemory`.
pub fn filter<A: Allocator + Copy>(
    array: &RunEndArray<A>,
    mask: &Mask<A>,
    ctx: &mut ExecutionCtx<A>,
) -> VortexResult<ArrayRef<A>>
    ensures refused { IsRefusedBy (filter_fault (length (mask_bits mask.now))
        (length (column_rows (column_of_runs array.now)))) result }
    ensures first { (error : VortexError) → filter_fault (length (mask_bits mask.now))
        (length (column_rows (column_of_runs array.now))) ≡ Some error → IsErrOf result error }
    ensures rows { IfOk result (λ kept. rows kept ≡
        filter_rows (mask_bits mask.now) (column_rows (column_of_runs array.now))) }
    ensures dtype { IfOk result (λ kept. dtype_of kept ≡ column_dtype array.now.values) }
    ensures form { IfOk result (λ kept. IsFilterForm ctx.old.thresholds array.now mask.now (column_of kept)) }
    ensures session { ctx.new ≡ ctx.old }
{
    if mask.len() != array.len() {
        return Err(VortexError::MaskLength {
            mask: mask.len(),
            length: array.len(),
        });
    }
    match mask {
        Mask::AllTrue(_) => all_rows(array, ctx),
        Mask::AllFalse(_) => without_rows(array, ctx),
        Mask::Values(bits) => filter_bits(array, bits, ctx),
    }
}

/// Returns whether the selected rows are so few, compared with the runs, that they are taken one by one.
pub(crate) fn takes_directly(selected: usize, runs: usize, thresholds: Thresholds) -> bool
    ensures { IsTrue result ↔ TakesDirectly selected runs thresholds }
{
    if selected < thresholds.min_run_filter_rows {
        return true;
    }
    // A product that saturates is no less than any number of runs.
    selected.saturating_mul(thresholds.filter_factor) < runs
}

// The selected rows, taken one by one.
fn taken_directly<A: Allocator + Copy>(
    array: &RunEndArray<A>,
    bits: &BitBuffer<A>,
    ctx: &mut ExecutionCtx<A>,
) -> VortexResult<Canonical<A>>
    requires masked { length bits.now ≡ array.now.count }
    ensures only { IsOkUnless result VortexError.OutOfMemory }
    ensures made { IfOk result (λ taken. IsComputedAs (filter_rows bits.now (column_rows (column_of_runs array.now)))
        (column_dtype array.now.values) (canonical_column taken)) }
    ensures session { ctx.new ≡ ctx.old }
{
    let places = set_bit_indices(*ctx.allocator(), bits)?;
    let taken = taken_rows(array, places.as_slice(), &Validity::NonNullable, false, ctx);
    drop(places);
    taken
}

// The rows at which the bits are true.
fn filter_bits<A: Allocator + Copy>(
    array: &RunEndArray<A>,
    bits: &BitBuffer<A>,
    ctx: &mut ExecutionCtx<A>,
) -> VortexResult<ArrayRef<A>>
    requires masked { length bits.now ≡ array.now.count }
    ensures only { IsOkUnless result VortexError.OutOfMemory }
    ensures rows { IfOk result (λ kept. rows kept ≡ filter_rows bits.now (column_rows (column_of_runs array.now))) }
    ensures dtype { IfOk result (λ kept. dtype_of kept ≡ column_dtype array.now.values) }
    ensures form { IfOk result (λ kept. IsSelectedForm (TakesDirectly (count_by (λ bit. bit) bits.now)
        (length array.now.ends) ctx.old.thresholds) array.now bits.now (column_of kept)) }
    ensures session { ctx.new ≡ ctx.old }
{
    let alloc = *ctx.allocator();
    let thresholds = ctx.session().thresholds();
    let runs = array.values().len();
    if takes_directly(bits.true_count(), runs, thresholds) {
        let taken = taken_directly(array, bits, ctx)?;
        return taken.into_array(alloc);
    }
    let mut selected = BitRanks::of(alloc, bits)?;
    let kept = selected_runs(alloc, array, &mut selected, bits.true_count());
    drop(selected);
    ArrayRef::of_runs(alloc, kept?)
}

// A copy of the column in its form, whose buffers are shared.
fn unchanged<A: Allocator + Copy>(
    array: &RunEndArray<A>,
    ctx: &mut ExecutionCtx<A>,
) -> VortexResult<ArrayRef<A>>
    ensures only { IsOkUnless result VortexError.OutOfMemory }
    ensures form { IfOk result (λ copy. column_of copy ≡ column_of_runs array.now) }
    ensures session { ctx.new ≡ ctx.old }
{
    let copy = array.try_clone(ctx)?;
    ArrayRef::of_runs(*ctx.allocator(), copy)
}

/// Returns all rows: integers in minimal form, other types unchanged. Refused only as `OutOfMemory`.
pub(crate) fn all_rows<A: Allocator + Copy>(
    array: &RunEndArray<A>,
    ctx: &mut ExecutionCtx<A>,
) -> VortexResult<ArrayRef<A>>
    ensures only { IsOkUnless result VortexError.OutOfMemory }
    ensures rows { IfOk result (λ all. rows all ≡ column_rows (column_of_runs array.now)) }
    ensures dtype { IfOk result (λ all. dtype_of all ≡ column_dtype array.now.values) }
    ensures form { IfOk result (λ all. IsWholeForm (is_numbers (column_dtype array.now.values)) array.now
        (column_of all)) }
    ensures session { ctx.new ≡ ctx.old }
{
    if is_number_type(array.dtype()) {
        return minimal_column(*ctx.allocator(), array);
    }
    unchanged(array, ctx)
}

// No rows of a column, flat.
fn no_values<A: Allocator + Copy>(alloc: A, values: &ArrayRef<A>) -> VortexResult<ArrayRef<A>>
    ensures only { IsOkUnless result VortexError.OutOfMemory }
    ensures rows { IfOk result (λ none. column_rows (column_of none) ≡ []) }
    ensures dtype { IfOk result (λ none. column_dtype (column_of none) ≡ dtype_of values.now) }
    ensures flat { IfOk result (λ none. IsComputedFlat (column_of none)) }
{
    let none = values.rows_between(alloc, 0, 0)?;
    none.into_array(alloc)
}

/// Returns no rows of the column. Refused only as `OutOfMemory`.
pub(crate) fn without_rows<A: Allocator + Copy>(
    array: &RunEndArray<A>,
    ctx: &mut ExecutionCtx<A>,
) -> VortexResult<ArrayRef<A>>
    ensures only { IsOkUnless result VortexError.OutOfMemory }
    ensures dtype { IfOk result (λ none. dtype_of none ≡ column_dtype array.now.values) }
    ensures form { IfOk result (λ none. HasNoRuns array.now (column_of none)) }
    ensures session { ctx.new ≡ ctx.old }
{
    let alloc = *ctx.allocator();
    let ends = array.ends_between(alloc, 0, 0)?;
    let values = match no_values(alloc, array.values()) {
        Ok(values) => values,
        Err(error) => {
            drop(ends);
            return Err(error);
        }
    };
    let ends = ArrayRef::Primitive(ends);
    let none = RunEnd::new_unchecked(ends, values, 0, 0);
    ArrayRef::of_runs(alloc, none)
}
