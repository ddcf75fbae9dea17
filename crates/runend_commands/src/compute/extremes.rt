//! The least and the greatest row of an array of any form.
ghost use Rattle.std.specs.Prelude.{◌≡◌, ◌≢◌, Err, IfOk, IfSome, IsOk, IsOkUnless, option_map};
ghost use Rattle.column_core.specs.FlatView.{leaf_in};
ghost use Rattle.column_core.specs.Leaf.{leaf_dtype};
ghost use Rattle.column_core.specs.Refusal.{IsRefusedBy};
ghost use Rattle.column_core.specs.Scalar.{IsScalarOf, flat_of};
ghost use Rattle.column_core.specs.ScalarView.{IsViewOf, sees};
ghost use Rattle.column_core.specs.Value.{IsLists, PlainColumn, Single};
ghost use Rattle.column_core.specs.Kinds.{list_fault};
ghost use Rattle.runend_array.specs.Array.{column_of, dtype_of};
ghost use Rattle.runend_array.specs.Column.{OfConstant, OfLeaf, column_dtype, column_of_runs, plain_of};
ghost use Rattle.runend_array.specs.declared.session.Kernel.TheVariants.{MinMax as min_max_kernel};
ghost use Rattle.runend_commands.specs.Extremes.{AreCopiesOf, AreExtremesIfAny, HasBytes, IsCopyIfAny, IsCopyOf, IsExtremeIfAny};
ghost use Rattle.runend_commands.specs.KernelForms.{IsReadInPlace};
ghost use Rattle.runend_commands.specs.Meaning.{plain};

use crate::compute::kernel_runs::{constant_for, runs_for};
use column_core::{DType, FlatView, Scalar, ScalarValue, ScalarView, VortexError, VortexResult};
use runend_aggregate::min_max_of_constant;
use runend_array::{ArrayRef, ConstantArray, ExecutionCtx, Kernel, RunEndArray, RunEndArrayExt};
use runend_column::flat_rows;
use std::alloc::Allocator;
use std::cmp::Ordering;

/// Returns the least and the greatest row that are not null, in memory of their own, or `None` where all are null.
/// Except for texts and bytes it takes no memory where the array is flat, or is runs or a constant and the kernel is
/// registered. Refused as `Unsupported` for lists.
pub fn min_max<A: Allocator + Copy>(
    column: &ArrayRef<A>,
    ctx: &mut ExecutionCtx<A>,
) -> VortexResult<Option<(Scalar<A>, Scalar<A>)>>
    ensures refused { IsRefusedBy (list_fault (dtype_of column.now)) result }
    ensures extremes { IfOk result (AreExtremesIfAny (plain column.now)) }
    ensures in_place { ¬ HasBytes (dtype_of column.now) → IsReadInPlace ctx.old min_max_kernel (column_of column.now) →
        result ≢ Err VortexError.OutOfMemory }
    ensures session { ctx.new ≡ ctx.old }
{
    if let Some(runs) = runs_for(column, Kernel::MinMax, ctx) {
        return extremes_of_runs(runs, ctx);
    }
    if let Some(constant) = constant_for(column, Kernel::MinMax, ctx) {
        return extremes_of_constant(constant, ctx);
    }
    if let Some(flat) = column.flat_view() {
        return extremes_of_flat(flat, ctx);
    }
    extremes_row_by_row(column, ctx)
}

/// Returns the row that is not null and furthest to that side, in memory of its own: the least where the side is
/// `Less`, and the greatest where it is `Greater`. `None` where all are null. Takes memory and is refused as `min_max`;
/// where the array is flat, or is runs and the kernel is registered, rows are compared only for that side.
pub fn extreme<A: Allocator + Copy>(
    column: &ArrayRef<A>,
    side: Ordering,
    ctx: &mut ExecutionCtx<A>,
) -> VortexResult<Option<Scalar<A>>>
    requires side { side ≢ Ordering.Equal }
    ensures refused { IsRefusedBy (list_fault (dtype_of column.now)) result }
    ensures extreme { IfOk result (IsExtremeIfAny side (plain column.now)) }
    ensures in_place { ¬ HasBytes (dtype_of column.now) → IsReadInPlace ctx.old min_max_kernel (column_of column.now) →
        result ≢ Err VortexError.OutOfMemory }
    ensures session { ctx.new ≡ ctx.old }
{
    if let Some(runs) = runs_for(column, Kernel::MinMax, ctx) {
        return extreme_of_runs(runs, side, ctx);
    }
    if let Some(flat) = column.flat_view() {
        return extreme_of_flat(flat, side, ctx);
    }
    let found = min_max(column, ctx)?;
    Ok(one_of(found, side))
}

// The row of a run column that is furthest to a side, found by the kernel.
#[tactic(auto, using(crate::proofs::Extremes::single_if_ordered))]
fn extreme_of_runs<A: Allocator + Copy>(
    runs: &RunEndArray<A>,
    side: Ordering,
    ctx: &mut ExecutionCtx<A>,
) -> VortexResult<Option<Scalar<A>>>
    requires side { side ≢ Ordering.Equal }
    ensures refused { IsRefusedBy (list_fault (column_dtype runs.now.values)) result }
    ensures extreme { IfOk result (IsExtremeIfAny side (plain_of (column_of_runs runs.now))) }
    ensures no_memory { ¬ HasBytes (column_dtype runs.now.values) → result ≢ Err VortexError.OutOfMemory }
    ensures session { ctx.new ≡ ctx.old }
{
    let found = runend_aggregate::extreme(runs, side, ctx)?;
    scalar_if_any(*ctx.allocator(), runs.dtype(), found)
}

// The row of a flat column that is furthest to a side.
#[tactic(auto, using(crate::proofs::Extremes::ordered_leaf, crate::proofs::Extremes::single_leaf))]
fn extreme_of_flat<A: Allocator + Copy>(
    flat: FlatView<'_, A>,
    side: Ordering,
    ctx: &ExecutionCtx<A>,
) -> VortexResult<Option<Scalar<A>>>
    requires side { side ≢ Ordering.Equal }
    ensures refused { IsRefusedBy (list_fault (leaf_dtype (leaf_in flat.entry))) result }
    ensures extreme { IfOk result (IsExtremeIfAny side (plain_of (OfLeaf (leaf_in flat.entry)))) }
    ensures no_memory { ¬ HasBytes (leaf_dtype (leaf_in flat.entry)) → result ≢ Err VortexError.OutOfMemory }
{
    let found = column_ops::extreme(flat, 0..flat.len(), side);
    scalar_if_any(*ctx.allocator(), flat.dtype(), found)
}

// The one of two rows that is furthest to a side.
#[tactic(auto, using(crate::proofs::Extremes::least_of_both, crate::proofs::Extremes::greatest_of_both))]
fn one_of<A: Allocator>(found: Option<(Scalar<A>, Scalar<A>)>, side: Ordering) -> Option<Scalar<A>>
    requires side { side ≢ Ordering.Equal }
    ensures { (before : PlainColumn) → AreExtremesIfAny before found → IsExtremeIfAny side before result }
{
    let (least, greatest) = found?;
    match side {
        Ordering::Less => {
            drop(greatest);
            Some(least)
        }
        _ => {
            drop(least);
            Some(greatest)
        }
    }
}

// The two rows of a run column, found by the kernel.
#[tactic(auto, using(crate::proofs::Extremes::single_if_ordered))]
fn extremes_of_runs<A: Allocator + Copy>(
    runs: &RunEndArray<A>,
    ctx: &mut ExecutionCtx<A>,
) -> VortexResult<Option<(Scalar<A>, Scalar<A>)>>
    ensures refused { IsRefusedBy (list_fault (column_dtype runs.now.values)) result }
    ensures extremes { IfOk result (AreExtremesIfAny (plain_of (column_of_runs runs.now))) }
    ensures no_memory { ¬ HasBytes (column_dtype runs.now.values) → result ≢ Err VortexError.OutOfMemory }
    ensures session { ctx.new ≡ ctx.old }
{
    let found = runend_aggregate::min_max(runs, ctx)?;
    scalar_pair(*ctx.allocator(), runs.dtype(), found)
}

// The two rows of a constant, which is one run.
#[tactic(auto, using(crate::proofs::Extremes::single_if_ordered))]
fn extremes_of_constant<A: Allocator + Copy>(
    constant: &ConstantArray<A>,
    ctx: &ExecutionCtx<A>,
) -> VortexResult<Option<(Scalar<A>, Scalar<A>)>>
    ensures refused { IsRefusedBy (list_fault constant.now.dtype) result }
    ensures extremes { IfOk result (AreExtremesIfAny (plain_of (OfConstant constant.now))) }
    ensures no_memory { ¬ HasBytes constant.now.dtype → result ≢ Err VortexError.OutOfMemory }
{
    let found = min_max_of_constant(constant)?;
    scalar_pair(*ctx.allocator(), constant.dtype(), found)
}

// The two rows of a flat column.
#[tactic(auto, using(crate::proofs::Extremes::ordered_leaf, crate::proofs::Extremes::single_leaf))]
fn extremes_of_flat<A: Allocator + Copy>(
    flat: FlatView<'_, A>,
    ctx: &ExecutionCtx<A>,
) -> VortexResult<Option<(Scalar<A>, Scalar<A>)>>
    ensures refused { IsRefusedBy (list_fault (leaf_dtype (leaf_in flat.entry))) result }
    ensures extremes { IfOk result (AreExtremesIfAny (plain_of (OfLeaf (leaf_in flat.entry)))) }
    ensures no_memory { ¬ HasBytes (leaf_dtype (leaf_in flat.entry)) → result ≢ Err VortexError.OutOfMemory }
{
    let found = column_ops::min_max(flat, 0..flat.len());
    scalar_pair(*ctx.allocator(), flat.dtype(), found)
}

// The two rows of any column, written out.
fn extremes_row_by_row<A: Allocator + Copy>(
    column: &ArrayRef<A>,
    ctx: &mut ExecutionCtx<A>,
) -> VortexResult<Option<(Scalar<A>, Scalar<A>)>>
    ensures refused { IsRefusedBy (list_fault (dtype_of column.now)) result }
    ensures extremes { IfOk result (AreExtremesIfAny (plain column.now)) }
    ensures session { ctx.new ≡ ctx.old }
{
    let flat = flat_rows(column, ctx)?;
    let copies = extremes_of_flat(flat.view(), ctx);
    drop(flat);
    copies
}

// What two rows of this type show, as scalars of it.
fn scalar_pair<A: Allocator + Copy>(
    alloc: A,
    dtype: DType,
    found: Option<(ScalarView<'_, A>, ScalarView<'_, A>)>,
) -> VortexResult<Option<(Scalar<A>, Scalar<A>)>>
    requires single { ¬ IsLists dtype }
    requires least_of_type { IfSome found (λ ends. IsViewOf dtype ends.0) }
    requires greatest_of_type { IfSome found (λ ends. IsViewOf dtype ends.1) }
    ensures only { IsOkUnless result VortexError.OutOfMemory }
    ensures copies { IfOk result (AreCopiesOf dtype found.entry) }
    ensures no_memory { ¬ HasBytes dtype → IsOk result }
{
    let Some((least, greatest)) = found else {
        return Ok(None);
    };
    let least = scalar_copy(alloc, dtype, least)?;
    match scalar_copy(alloc, dtype, greatest) {
        Ok(greatest) => Ok(Some((least, greatest))),
        Err(error) => {
            drop(least);
            Err(error)
        }
    }
}

// What a row of this type shows, as a scalar of it, if there is a row.
fn scalar_if_any<A: Allocator + Copy>(
    alloc: A,
    dtype: DType,
    found: Option<ScalarView<'_, A>>,
) -> VortexResult<Option<Scalar<A>>>
    requires single { ¬ IsLists dtype }
    requires of_type { IfSome found (λ row. IsViewOf dtype row) }
    ensures only { IsOkUnless result VortexError.OutOfMemory }
    ensures copy { IfOk result (IsCopyIfAny dtype found.entry) }
    ensures no_memory { ¬ HasBytes dtype → IsOk result }
{
    let Some(row) = found else {
        return Ok(None);
    };
    let scalar = scalar_copy(alloc, dtype, row)?;
    Ok(Some(scalar))
}

// What a row of this type shows, as a scalar of it. Only a copy of a text or of bytes takes memory.
fn scalar_copy<A: Allocator + Copy>(
    alloc: A,
    dtype: DType,
    row: ScalarView<'_, A>,
) -> VortexResult<Scalar<A>>
    requires single { ¬ IsLists dtype }
    requires of_type { IsViewOf dtype row }
    ensures only { IsOkUnless result VortexError.OutOfMemory }
    ensures copy { IfOk result (IsCopyOf dtype row.entry) }
    ensures no_memory { ¬ HasBytes dtype → IsOk result }
{
    match dtype {
        DType::Utf8(_) | DType::Binary(_) => Scalar::of_view(alloc, dtype, row),
        _ => Scalar::try_new(dtype, value_of(dtype, row)),
    }
}

// The value of a row of this type, which is not a type of texts, bytes or lists, or `None` for null.
fn value_of<A: Allocator>(dtype: DType, row: ScalarView<'_, A>) -> Option<ScalarValue<A>>
    requires plain { ¬ HasBytes dtype }
    requires single { ¬ IsLists dtype }
    requires of_type { IsViewOf dtype row }
    ensures of_type { IsScalarOf dtype result }
    ensures value { option_map Single (option_map flat_of result) ≡ sees row.entry }
{
    let _ = dtype;
    match row {
        ScalarView::Null => None,
        ScalarView::Bool(truth) => Some(ScalarValue::Bool(truth)),
        ScalarView::Unsigned(number) => Some(ScalarValue::Unsigned(number)),
        ScalarView::Signed(number) => Some(ScalarValue::Signed(number)),
        ScalarView::Decimal(number) => Some(ScalarValue::Decimal(number)),
        ScalarView::Utf8(_) | ScalarView::Binary(_) | ScalarView::List { .. } => unreachable!(),
    }
}
