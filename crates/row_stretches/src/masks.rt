//! The stretches of the rows at which a mask of any form is true.
ghost use Rattle.std.specs.Prelude.{◌≡◌, List, Option, Some, IfOk, IsErrOf, IsOkUnless, length, map, unsigned_abs};
ghost use Rattle.column_base.specs.Numbers.{numbers, ptype_of};
ghost use Rattle.column_base.specs.Types.{IsUnsigned};
ghost use Rattle.column_base.specs.declared.error.VortexError.{VortexError};
ghost use Rattle.column_core.specs.FlatColumn.{leaf_of};
ghost use Rattle.column_core.specs.Leaf.{single_rows};
ghost use Rattle.column_core.specs.Refusal.{IsRefusedBy};
ghost use Rattle.column_core.specs.ScalarView.{sees};
ghost use Rattle.column_core.specs.Value.{Value};
ghost use Rattle.column_ops.specs.Filter.{filter_rows};
ghost use Rattle.runend_array.specs.Array.{dtype_of, rows};
ghost use Rattle.runend_builder.specs.Builder.{shown_rows};
ghost use Rattle.runend_windows.specs.Cover.{IsTightCover};
ghost use Rattle.row_stretches.specs.Masks.{AreTrueStretches, is_true, mask_fault, truths_of};
ghost use Rattle.row_stretches.specs.Stretches.{stretch_rows};

use crate::stretches::Stretch;
use column_base::match_each_unsigned;
use column_core::{
    DType, FlatColumn, PrimitiveValues, ScalarView, UnsignedPType, VortexError, VortexResult,
};
use runend_array::{ArrayRef, ExecutionCtx};
use runend_builder::row_runs;
use std::alloc::Allocator;

/// Returns the stretches of the rows at which a mask of any form is true, in ascending order: none is without rows, and
/// no two touch. Null is not true. Takes a step for each run of a mask in runs, and one for a constant.
///
/// Refused as `TypeMismatch` unless the mask is of booleans, however little memory there is; else only as
/// `OutOfMemory`.
pub fn true_stretches<A: Allocator + Copy>(
    mask: &ArrayRef<A>,
    ctx: &mut ExecutionCtx<A>,
) -> VortexResult<Vec<Stretch, A>>
    ensures refused { IsRefusedBy (mask_fault (dtype_of mask.now)) result }
    ensures first { (error : VortexError) → mask_fault (dtype_of mask.now) ≡ Some error → IsErrOf result error }
    ensures stretches { IfOk result (λ order. AreTrueStretches (truths_of (rows mask.now)) order.items) }
    // The rows of these stretches are those that the mask selects.
    ensures selects { IfOk result (λ order. (all : List (Option Value)) → length all ≡ length (rows mask.now) →
        stretch_rows all order.items ≡ filter_rows (truths_of (rows mask.now)) all) }
    ensures session { ctx.new ≡ ctx.old }
{
    if let Some(error) = fault_of_mask(mask.dtype()) {
        return Err(error);
    }
    let alloc = *ctx.allocator();
    let (ends, values) = row_runs(alloc, mask)?;
    let order = stretches_among(alloc, ends.values(), &values);
    drop(ends);
    drop(values);
    order
}

// Why rows of a type do not make a mask, if they do not.
fn fault_of_mask(dtype: DType) -> Option<VortexError>
    ensures { result ≡ mask_fault dtype }
{
    match dtype {
        DType::Bool(_) => None,
        _ => Some(VortexError::TypeMismatch),
    }
}

// The stretches of the runs that are true, of runs with these ends and values.
#[tactic(auto, using(runend_windows::proofs::Ends::ends_stored))]
fn stretches_among<A: Allocator + Copy>(
    alloc: A,
    ends: &PrimitiveValues<A>,
    values: &FlatColumn<A>,
) -> VortexResult<Vec<Stretch, A>>
    requires unsigned { IsUnsigned (ptype_of ends.now) }
    requires cover { IsTightCover (shown_rows (map unsigned_abs (numbers ends.now)) (single_rows (leaf_of values.now)))
        (map unsigned_abs (numbers ends.now)) (single_rows (leaf_of values.now)) }
    ensures only { IsOkUnless result VortexError.OutOfMemory }
    ensures stretches { IfOk result (λ order. AreTrueStretches (truths_of
        (shown_rows (map unsigned_abs (numbers ends.now)) (single_rows (leaf_of values.now)))) order.items) }
{
    match_each_unsigned!(ends, items => stretches_in(alloc, items.as_slice(), values))
}

// The same, of ends of one type.
fn stretches_in<E: UnsignedPType, A: Allocator + Copy>(
    alloc: A,
    ends: &[E],
    values: &FlatColumn<A>,
) -> VortexResult<Vec<Stretch, A>>
    requires cover { IsTightCover (shown_rows (map E.natural ends.now) (single_rows (leaf_of values.now)))
        (map E.natural ends.now) (single_rows (leaf_of values.now)) }
    ensures only { IsOkUnless result VortexError.OutOfMemory }
    ensures stretches { IfOk result (λ order. AreTrueStretches (truths_of
        (shown_rows (map E.natural ends.now) (single_rows (leaf_of values.now)))) order.items) }
{
    let mut order = Vec::new(alloc);
    let mut start = 0;
    for run in 0..ends.len() {
        let stop = ends[run].to_u64() as usize;
        if is_true_view(&values.get(run)) {
            order.push(Stretch { start, stop })?;
        }
        start = stop;
    }
    Ok(order)
}

// Returns whether a value is true: null is not.
fn is_true_view<A: Allocator>(value: &ScalarView<'_, A>) -> bool
    ensures { result ≡ is_true (sees value.now) }
{
    match value {
        ScalarView::Bool(truth) => *truth,
        _ => false,
    }
}
