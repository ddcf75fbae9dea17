//! Two run columns compared along their runs: each stretch of rows in which both are constant at once.
ghost use Rattle.std.specs.Prelude.{◌≡◌, ◌≢◌, ◌++◌, ◌+◌, ◌<◌, All, None, true, false, is_some, length, option_map, replicate, unwrap_or, IfOk, IsOkUnless, OnOk};
ghost use Rattle.column_base.specs.declared.dtype.DType.TheVariants as column;
ghost use Rattle.column_base.specs.declared.dtype.Nullability.TheVariants.{NonNullable};
ghost use Rattle.column_base.specs.Types.{nullability_of};
ghost use Rattle.column_core.specs.BoolForm.{bool_dtype, optional_truths};
ghost use Rattle.column_core.specs.Computed.{IsComputedLeaf};
ghost use Rattle.column_core.specs.FlatColumn.{leaf_of};
ghost use Rattle.column_core.specs.Leaf.{OfTruths, leaf_dtype, single_rows};
ghost use Rattle.column_core.specs.Optionals.{optionals, AreBlankAtNulls};
ghost use Rattle.column_core.specs.ScalarView.{sees};
ghost use Rattle.column_core.specs.Value.{Single, Truth};
ghost use Rattle.column_ops.specs.CompareFault.{compare_column_fault};
ghost use Rattle.column_ops.specs.Comparing.{compare_dtype, compare_rows, compared, either_nullability, IsStoredComparison};
ghost use Rattle.runend_array.specs.Array.{column_of, dtype_of, rows};
ghost use Rattle.runend_array.specs.Column.{column_dtype, column_of_runs, column_rows};
ghost use Rattle.runend_array.specs.Encoding.{IsComputedFlat};
ghost use Rattle.runend_map.specs.ShownRuns.{AreShownRuns, rows_shown};

use crate::shown_runs::ShownRuns;
use column_core::{
    BitBufferMut, BoolArray, DType, Nullability, ScalarView, Validity, VortexError, VortexResult,
};
use column_ops::{CompareOperator, compare_views};
use runend_array::{ArrayRef, ExecutionCtx, RunEndArray, RunEndArrayExt};
use std::alloc::Allocator;

/// Returns whether the operator holds of each row and the row of `right` at the same place, null where either row is
/// null. The answer is flat. A pair of values is compared once for all rows in which both columns stay in one run, and
/// the answers of these rows are written at once. Refused only as `OutOfMemory`.
pub(crate) fn compare_runs<A: Allocator + Copy>(
    left: &RunEndArray<A>,
    operator: CompareOperator,
    right: &RunEndArray<A>,
    ctx: &mut ExecutionCtx<A>,
) -> VortexResult<ArrayRef<A>>
    requires kind { compare_column_fault (column_dtype left.now.values) (column_dtype right.now.values) left.now.count
        right.now.count ≡ None }
    ensures only { IsOkUnless result VortexError.OutOfMemory }
    ensures rows { IfOk result (λ truths. rows truths ≡
        compare_rows operator (column_rows (column_of_runs left.now)) (column_rows (column_of_runs right.now))) }
    ensures dtype { IfOk result (λ truths. dtype_of truths ≡
        compare_dtype (column_dtype left.now.values) (column_dtype right.now.values)) }
    ensures form { IfOk result (λ truths. IsComputedFlat (column_of truths)) }
    ensures session { ctx.new ≡ ctx.old }
{
    let alloc = *ctx.allocator();
    let count = left.len();
    let left = ShownRuns::of(alloc, left)?;
    let right = match ShownRuns::of(alloc, right) {
        Ok(right) => right,
        Err(error) => {
            drop(left);
            return Err(error);
        }
    };
    let truths = truths_of_pairs(alloc, &left, operator, &right, count);
    drop(right);
    drop(left);
    let truths = truths?;
    Ok(ArrayRef::Bool(truths))
}

// The answers of `count` rows.
fn truths_of_pairs<A: Allocator + Copy>(
    alloc: A,
    left: &ShownRuns<A>,
    operator: CompareOperator,
    right: &ShownRuns<A>,
    count: usize,
) -> VortexResult<BoolArray<A>>
    requires left { AreShownRuns left.now.ends left.now.offset (leaf_of left.now.values) count }
    requires right { AreShownRuns right.now.ends right.now.offset (leaf_of right.now.values) count }
    ensures only { IsOkUnless result VortexError.OutOfMemory }
    ensures rows { IfOk result (λ truths. single_rows (OfTruths truths) ≡ compare_rows operator
        (rows_shown left.now.ends left.now.offset (leaf_of left.now.values) count)
        (rows_shown right.now.ends right.now.offset (leaf_of right.now.values) count)) }
    ensures dtype { IfOk result (λ truths. bool_dtype truths ≡
        compare_dtype (leaf_dtype (leaf_of left.now.values)) (leaf_dtype (leaf_of right.now.values))) }
    ensures computed { IfOk result (λ truths. IsComputedLeaf (OfTruths truths)) }
{
    let mut bits = BitBufferMut::with_capacity(alloc, count)?;
    let mut flags = BitBufferMut::with_capacity(alloc, count)?;
    let mut left_run = 0;
    let mut right_run = 0;
    let mut row = 0;
    while row < count {
        let left_stop = left.stop(left_run);
        let right_stop = right.stop(right_run);
        let stop = left_stop.min(right_stop).min(count);
        let truth = truth_of(
            operator,
            &left.values.get(left_run),
            &right.values.get(right_run),
        );
        append_truths(&mut bits, &mut flags, truth, stop - row)?;
        left_run = run_after(left_run, left_stop, stop);
        right_run = run_after(right_run, right_stop, stop);
        row = stop;
    }
    let nullability = joined_nullability(left.values.dtype(), right.values.dtype());
    Ok(column_of_truths(bits, flags, nullability))
}

// Does the operator hold of the two rows? `None` where one is null.
fn truth_of<A: Allocator>(
    operator: CompareOperator,
    left: &ScalarView<'_, A>,
    right: &ScalarView<'_, A>,
) -> Option<bool>
    ensures { option_map (λ truth. Single (Truth truth)) result ≡ compared operator (sees left.now) (sees right.now) }
{
    match (left, right) {
        (ScalarView::Null, _) => None,
        (_, ScalarView::Null) => None,
        (left, right) => Some(operator.holds(compare_views(left, right))),
    }
}

// Writes `count` times an optional boolean: its bit, false for null, and whether it is not null. Refused only as
// `OutOfMemory`, and then bits may be written without their flags.
fn append_truths<A: Allocator + Copy>(
    bits: &mut BitBufferMut<A>,
    flags: &mut BitBufferMut<A>,
    truth: Option<bool>,
    count: usize,
) -> VortexResult<()>
    ensures bits { OnOk result (bits.new ≡ bits.old ++ replicate count (unwrap_or truth false)) }
    ensures flags { OnOk result (flags.new ≡ flags.old ++ replicate count (is_some truth)) }
    ensures only { IsOkUnless result VortexError.OutOfMemory }
{
    bits.append_n(truth.unwrap_or(false), count)?;
    flags.append_n(truth.is_some(), count)
}

// The run of the row `end`, where this run is that of the rows before it and stops at row `stop`: the next one where
// this one stops there too.
fn run_after(run: usize, stop: usize, end: usize) -> usize
    requires { run < usize.MAX }
    ensures ended { stop ≡ end → result ≡ run + 1 }
    ensures going { stop ≢ end → result ≡ run }
{
    run + usize::from(stop == end)
}

// Whether a comparison has null: where either type has.
fn joined_nullability(left: DType, right: DType) -> Nullability
    ensures { result ≡ either_nullability (nullability_of left) (nullability_of right) }
{
    match left.nullability() {
        Nullability::NonNullable => right.nullability(),
        Nullability::Nullable => Nullability::Nullable,
    }
}

// The column of these bits, null where the flag is false. Takes no memory.
fn column_of_truths<A: Allocator + Copy>(
    bits: BitBufferMut<A>,
    flags: BitBufferMut<A>,
    nullability: Nullability,
) -> BoolArray<A>
    requires paired { length flags ≡ length bits }
    requires blank { AreBlankAtNulls false bits flags }
    requires typed { nullability ≡ NonNullable → All (λ flag. flag ≡ true) flags }
    ensures truths { optional_truths result ≡ optionals bits flags }
    ensures dtype { bool_dtype result ≡ column.Bool nullability }
    ensures stored { IsStoredComparison result }
{
    match nullability {
        Nullability::NonNullable => BoolArray::new_unchecked(bits.freeze(), Validity::NonNullable),
        Nullability::Nullable => {
            let validity = Validity::from_bits(flags.freeze());
            BoolArray::new_unchecked(bits.freeze(), validity)
        }
    }
}
