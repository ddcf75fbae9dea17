//! Filters of run columns by a mask in runs, at the cost of the runs of both.
ghost use Rattle.std.specs.Prelude.{◌≡◌, ◌<◌, Some, IfOk, IsErrOf, IsOkUnless, count_by, length};
ghost use Rattle.std.specs.Option.{option_or};
ghost use Rattle.column_base.specs.declared.error.VortexError.{VortexError};
ghost use Rattle.column_core.specs.Refusal.{IsRefusedBy};
ghost use Rattle.column_ops.specs.Filter.{filter_fault, filter_rows};
ghost use Rattle.runend_array.specs.Array.{column_of, dtype_of, rows};
ghost use Rattle.runend_array.specs.Canonical.{canonical_column};
ghost use Rattle.runend_array.specs.Column.{column_dtype, column_of_runs, column_rows};
ghost use Rattle.runend_column.specs.Computed.{IsComputedAs};
ghost use Rattle.runend_select.specs.FilterForm.{IsSelectedForm, TakesDirectly};
ghost use Rattle.runend_select.specs.Told.{IsRefusedExactlyBy};
ghost use Rattle.runend_select.specs.MaskRuns.{AreMaskRuns, IsFilterFormBy, mask_fault, truths_of};

use crate::filtered_runs::selected_runs;
use crate::filters::{all_rows, takes_directly, without_rows};
use crate::mask_ranks::MaskRanks;
use crate::taken_runs::taken_rows;
use column_core::{DType, Validity, VortexError, VortexResult};
use runend_array::{
    ArrayRef, Canonical, ExecutionCtx, RunEndArray, RunEndArrayExt, RunEndArraySlotsExt,
};
use std::alloc::Allocator;

/// Returns the rows at which a mask in runs is true, in order; null selects nothing. The answer is the same as the
/// answer of `filter` to the bits of the mask, in the same form, but no bit is made: it takes one step for each run of
/// either column, and one for each row that it takes one by one.
///
/// Refused as `TypeMismatch` unless the mask is of booleans, and then as `MaskLength`, with the mask's length and the
/// number of rows, where they differ, however little memory there is; else only as `OutOfMemory`.
pub fn filter_by_runs<A: Allocator + Copy>(
    array: &RunEndArray<A>,
    mask: &RunEndArray<A>,
    ctx: &mut ExecutionCtx<A>,
) -> VortexResult<ArrayRef<A>>
    ensures refused { IsRefusedBy (option_or (mask_fault (column_dtype mask.now.values))
        (filter_fault (length (truths_of mask.now)) (length (column_rows (column_of_runs array.now))))) result }
    ensures first { (error : VortexError) → option_or (mask_fault (column_dtype mask.now.values))
        (filter_fault (length (truths_of mask.now)) (length (column_rows (column_of_runs array.now)))) ≡ Some error →
        IsErrOf result error }
    ensures rows { IfOk result (λ kept. rows kept ≡
        filter_rows (truths_of mask.now) (column_rows (column_of_runs array.now))) }
    ensures dtype { IfOk result (λ kept. dtype_of kept ≡ column_dtype array.now.values) }
    ensures form { IfOk result (λ kept. IsFilterFormBy ctx.old.thresholds array.now (truths_of mask.now)
        (column_of kept)) }
    ensures session { ctx.new ≡ ctx.old }
{
    check_mask_type(mask.dtype())?;
    if mask.len() != array.len() {
        return Err(VortexError::MaskLength {
            mask: mask.len(),
            length: array.len(),
        });
    }
    let mut selected = MaskRanks::of(*ctx.allocator(), mask)?;
    let kept = filter_selected(array, &mut selected, ctx);
    drop(selected);
    kept
}

// Refused as `TypeMismatch` unless it is the type of a mask.
fn check_mask_type(dtype: DType) -> VortexResult<()>
    ensures { IsRefusedExactlyBy (mask_fault dtype) result }
{
    match dtype {
        DType::Bool(_) => Ok(()),
        _ => Err(VortexError::TypeMismatch),
    }
}

// The rows at which a mask is true.
fn filter_selected<A: Allocator + Copy>(
    array: &RunEndArray<A>,
    selected: &mut MaskRanks<'_, A>,
    ctx: &mut ExecutionCtx<A>,
) -> VortexResult<ArrayRef<A>>
    requires masked { length (truths_of selected.old.mask.now) ≡ array.now.count }
    requires runs { AreMaskRuns (truths_of selected.old.mask.now) selected.old.runs.stops.items
        selected.old.runs.ranks.items }
    requires first { selected.old.at ≡ 0 }
    ensures only { IsOkUnless result VortexError.OutOfMemory }
    ensures rows { IfOk result (λ kept. rows kept ≡
        filter_rows (truths_of selected.old.mask.now) (column_rows (column_of_runs array.now))) }
    ensures dtype { IfOk result (λ kept. dtype_of kept ≡ column_dtype array.now.values) }
    ensures form { IfOk result (λ kept. IsFilterFormBy ctx.old.thresholds array.now
        (truths_of selected.old.mask.now) (column_of kept)) }
    ensures session { ctx.new ≡ ctx.old }
{
    let count = selected.runs.true_count();
    if count == array.len() {
        return all_rows(array, ctx);
    }
    if count == 0 {
        return without_rows(array, ctx);
    }
    filter_some(array, selected, count, ctx)
}

// The rows at which a mask is true, where some are and some are not: taken one by one, or in runs.
fn filter_some<A: Allocator + Copy>(
    array: &RunEndArray<A>,
    selected: &mut MaskRanks<'_, A>,
    count: usize,
    ctx: &mut ExecutionCtx<A>,
) -> VortexResult<ArrayRef<A>>
    requires masked { length (truths_of selected.old.mask.now) ≡ array.now.count }
    requires runs { AreMaskRuns (truths_of selected.old.mask.now) selected.old.runs.stops.items
        selected.old.runs.ranks.items }
    requires first { selected.old.at ≡ 0 }
    requires some { 0 < array.now.count }
    requires counted { count ≡ count_by (λ bit. bit) (truths_of selected.old.mask.now) }
    ensures only { IsOkUnless result VortexError.OutOfMemory }
    ensures rows { IfOk result (λ kept. rows kept ≡
        filter_rows (truths_of selected.old.mask.now) (column_rows (column_of_runs array.now))) }
    ensures dtype { IfOk result (λ kept. dtype_of kept ≡ column_dtype array.now.values) }
    ensures form { IfOk result (λ kept. IsSelectedForm (TakesDirectly (count_by (λ bit. bit)
        (truths_of selected.old.mask.now)) (length array.now.ends) ctx.old.thresholds) array.now
        (truths_of selected.old.mask.now) (column_of kept)) }
    ensures session { ctx.new ≡ ctx.old }
{
    let alloc = *ctx.allocator();
    let thresholds = ctx.session().thresholds();
    let runs = array.values().len();
    if takes_directly(count, runs, thresholds) {
        let taken = taken_by_runs(array, selected, ctx)?;
        return taken.into_array(alloc);
    }
    let kept = selected_runs(alloc, array, selected, count)?;
    ArrayRef::of_runs(alloc, kept)
}

// The rows at which a mask is true, taken one by one.
fn taken_by_runs<A: Allocator + Copy>(
    array: &RunEndArray<A>,
    selected: &MaskRanks<'_, A>,
    ctx: &mut ExecutionCtx<A>,
) -> VortexResult<Canonical<A>>
    requires masked { length (truths_of selected.now.mask.now) ≡ array.now.count }
    requires runs { AreMaskRuns (truths_of selected.now.mask.now) selected.now.runs.stops.items
        selected.now.runs.ranks.items }
    ensures only { IsOkUnless result VortexError.OutOfMemory }
    ensures made { IfOk result (λ taken. IsComputedAs
        (filter_rows (truths_of selected.now.mask.now) (column_rows (column_of_runs array.now)))
        (column_dtype array.now.values) (canonical_column taken)) }
    ensures session { ctx.new ≡ ctx.old }
{
    let places = selected.places(*ctx.allocator())?;
    let taken = taken_rows(array, places.as_slice(), &Validity::NonNullable, false, ctx);
    drop(places);
    taken
}
