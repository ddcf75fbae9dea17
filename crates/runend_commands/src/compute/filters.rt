//! The rows of an array of any form that a mask selects.
ghost use Rattle.std.specs.Prelude.{◌≡◌, length, map, IfOk, IfSome};
ghost use Rattle.std.specs.Option.{option_or};
ghost use Rattle.column_base.specs.Mask.{mask_bits};
ghost use Rattle.column_core.specs.Refusal.{IsRefusedBy};
ghost use Rattle.column_ops.specs.Filter.{filter_fault, filter_rows as selected_rows};
ghost use Rattle.runend_array.specs.Array.{column_of, dtype_of, rows};
ghost use Rattle.runend_array.specs.Column.{IsFlat, OfConstant, column_rows};
ghost use Rattle.runend_array.specs.declared.session.Kernel.TheVariants.{Filter as filter_kernel};
ghost use Rattle.runend_select.specs.FilterForm.{IsFilterForm};
ghost use Rattle.runend_select.specs.MaskRuns.{IsFilterFormBy, is_true, mask_fault};
ghost use Rattle.runend_builder.specs.Encoded.{IsConstantForm};
ghost use Rattle.runend_commands.specs.KernelForms.{HasKernel, OnRuns};

use crate::compute::kernel_runs::runs_for;
use column_core::{Mask, VortexError, VortexResult};
use runend_array::{ArrayRef, ConstantArray, ExecutionCtx, Kernel, RunEndArrayExt};
use runend_select::filter_rows;
use std::alloc::Allocator;

/// Returns the rows at which the mask is true, in order. A constant stays one. The kernel serves a run column where it
/// is registered, and leaves runs or flat rows by the session's thresholds; else the rows are flat. Refused as
/// `MaskLength` where the mask is of another number of rows.
#[tactic(auto, using(crate::proofs::FlatForms::flat_if_computed))]
pub fn filter<A: Allocator + Copy>(
    column: &ArrayRef<A>,
    mask: &Mask<A>,
    ctx: &mut ExecutionCtx<A>,
) -> VortexResult<ArrayRef<A>>
    ensures refused { IsRefusedBy (filter_fault (length (mask_bits mask.now)) (length (rows column.now))) result }
    ensures rows { IfOk result (λ kept. rows kept ≡ selected_rows (mask_bits mask.now) (rows column.now)) }
    ensures dtype { IfOk result (λ kept. dtype_of kept ≡ dtype_of column.now) }
    ensures kernel { HasKernel ctx.old filter_kernel (column_of column.now) → OnRuns (column_of column.now)
        (λ runs. IfOk result (λ kept. IsFilterForm ctx.old.thresholds runs mask.now (column_of kept))) }
    ensures constant { IsConstantForm (column_of column.now) → IfOk result (λ kept. IsConstantForm (column_of kept)) }
    ensures otherwise { ¬ HasKernel ctx.old filter_kernel (column_of column.now) →
        ¬ IsConstantForm (column_of column.now) → IfOk result (λ kept. IsFlat (column_of kept)) }
    ensures session { ctx.new ≡ ctx.old }
{
    if let ArrayRef::Constant(constant) = column {
        return filter_constant(*ctx.allocator(), constant, mask);
    }
    match runs_for(column, Kernel::Filter, ctx) {
        Some(runs) => runend_select::filter(runs, mask, ctx),
        None => filter_rows(column, mask, ctx),
    }
}

/// Returns the rows at which a mask in runs is true, in order: null selects nothing. The kernel serves a run column
/// where it is registered, and takes a step for each run of either. `None` where no kernel serves the column, and where
/// the mask is not in runs or has more runs than its bits have words of 64 bits: then `filter` by bits takes no longer.
/// The answer is the one of `filter` by the bits of the mask, in the same form. Refused as `TypeMismatch` unless the
/// mask is of booleans, and then as `MaskLength` where it is of another number of rows.
pub fn filter_by_runs<A: Allocator + Copy>(
    column: &ArrayRef<A>,
    mask: &ArrayRef<A>,
    ctx: &mut ExecutionCtx<A>,
) -> Option<VortexResult<ArrayRef<A>>>
    ensures refused { IfSome result (λ answer. IsRefusedBy (option_or (mask_fault (dtype_of mask.now))
        (filter_fault (length (map is_true (rows mask.now))) (length (rows column.now)))) answer) }
    ensures rows { IfSome result (λ answer. IfOk answer (λ kept. rows kept ≡
        selected_rows (map is_true (rows mask.now)) (rows column.now))) }
    ensures dtype { IfSome result (λ answer. IfOk answer (λ kept. dtype_of kept ≡ dtype_of column.now)) }
    ensures kernel { IfSome result (λ answer. HasKernel ctx.old filter_kernel (column_of column.now)) }
    ensures form { IfSome result (λ answer. IfOk answer (λ kept. OnRuns (column_of column.now)
        (λ runs. IsFilterFormBy ctx.old.thresholds runs (map is_true (rows mask.now)) (column_of kept)))) }
    ensures session { ctx.new ≡ ctx.old }
{
    let ArrayRef::RunEnd(mask) = mask else {
        return None;
    };
    if mask.visible_runs().len() > mask.len() / 64 {
        return None;
    }
    let runs = runs_for(column, Kernel::Filter, ctx)?;
    Some(runend_select::filter_by_runs(runs, mask, ctx))
}

// A constant with a row for each true bit of the mask.
fn filter_constant<A: Allocator + Copy>(
    alloc: A,
    constant: &ConstantArray<A>,
    mask: &Mask<A>,
) -> VortexResult<ArrayRef<A>>
    ensures refused { IsRefusedBy (filter_fault (length (mask_bits mask.now))
        (length (column_rows (OfConstant constant.now)))) result }
    ensures rows { IfOk result (λ kept. rows kept ≡
        selected_rows (mask_bits mask.now) (column_rows (OfConstant constant.now))) }
    ensures dtype { IfOk result (λ kept. dtype_of kept ≡ constant.now.dtype) }
    ensures form { IfOk result (λ kept. IsConstantForm (column_of kept)) }
{
    if mask.len() != constant.len() {
        return Err(VortexError::MaskLength {
            mask: mask.len(),
            length: constant.len(),
        });
    }
    let kept = constant.repeated(alloc, mask.true_count())?;
    Ok(ArrayRef::Constant(kept))
}
