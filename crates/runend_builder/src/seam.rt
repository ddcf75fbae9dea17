//! Runs joined at the seam of two parts.
ghost use Rattle.std.specs.Prelude.{◌≡◌, ◌↔◌, ◌+◌, ◌^◌, ◌<◌, ◌≤◌, ◌++◌, ◌∷◌, [], All, IfOk, IsOkUnless, IsTrue, List, OnErr, OnOk, Option, Some, cond, drop, length, map, slice_get, vec_capacity, vec_len};
ghost use Rattle.runend_builder.specs.Encodings.{behind, without_last};
ghost use Rattle.column_core.specs.Computed.{IsComputedLeaf};
ghost use Rattle.column_core.specs.FlatView.{leaf_in};
ghost use Rattle.column_core.specs.Leaf.{leaf_dtype, leaf_rows, single_rows};
ghost use Rattle.column_core.specs.PrimitiveForm.{primitive_dtype};
ghost use Rattle.column_core.specs.Value.{Value};
ghost use Rattle.runend_windows.specs.Ends.{IsEndsType, ends_of};
ghost use Rattle.runend_windows.specs.Window.{last_end};
ghost use Rattle.runend_builder.specs.Builder.{IsLastOf, IsSeam, scalar_row};

use crate::column_builder::FlatBuilder;
use crate::ends::push_ends;
use column_core::{FlatView, PrimitiveArray, Scalar, VortexError, VortexResult};
use std::alloc::Allocator;

/// Returns whether the first row of a column is equal to the last value, null being equal to null, so that their runs
/// are one. Refused only as `OutOfMemory`.
pub(crate) fn goes_on<A: Allocator + Copy>(
    alloc: A,
    last: &Option<Scalar<A>>,
    values: FlatView<'_, A>,
) -> VortexResult<bool>
    requires { 0 < length (leaf_rows (leaf_in values)) }
    ensures only { IsOkUnless result VortexError.OutOfMemory }
    ensures seam { IfOk result (λ one. (own : List (Option Value)) →
        IsLastOf (leaf_dtype (leaf_in values.entry)) own last.now →
        IsSeam own (single_rows (leaf_in values.entry)) one) }
{
    let first = row_scalar(alloc, values, 0)?;
    let one = is_same_value(last, &first);
    drop(first);
    Ok(one)
}

/// Returns a row of a flat column, in memory of its own. Refused only as `OutOfMemory`.
pub(crate) fn row_scalar<A: Allocator + Copy>(
    alloc: A,
    values: FlatView<'_, A>,
    row: usize,
) -> VortexResult<Scalar<A>>
    requires { row < length (leaf_rows (leaf_in values)) }
    ensures only { IsOkUnless result VortexError.OutOfMemory }
    ensures dtype { IfOk result (λ scalar. scalar.dtype ≡ leaf_dtype (leaf_in values.entry)) }
    ensures row { IfOk result (λ scalar.
        slice_get (single_rows (leaf_in values.entry)) row ≡ Some (scalar_row scalar)) }
{
    Scalar::of_view(alloc, values.dtype(), values.get(row))
}

/// Appends the runs of a part, which has a run: its ends, moved by the rows before it, and its values. Where the run at
/// the seam goes on, its first end is dropped and its first value is kept. Refused only as `OutOfMemory`, and then
/// nothing is changed.
pub(crate) fn push_runs<A: Allocator + Copy>(
    ends: &mut Vec<u64, A>,
    values: &mut FlatBuilder<A>,
    part_ends: &PrimitiveArray<A>,
    part_values: FlatView<'_, A>,
    goes_on: bool,
) -> VortexResult<()>
    requires plain { IsEndsType (primitive_dtype part_ends.now) }
    requires small { All (λ end. last_end ends.old.items + end < 2 ^ 64) (ends_of part_ends.now) }
    requires typed { leaf_dtype (leaf_in part_values) ≡ values.old.dtype }
    requires computed { IsComputedLeaf (leaf_in part_values) }
    requires some { 0 < length (leaf_rows (leaf_in part_values)) }
    ensures only { IsOkUnless result VortexError.OutOfMemory }
    ensures ends { OnOk result (ends.new.items ≡ cond goes_on (without_last ends.old.items) ends.old.items ++
        behind (last_end ends.old.items) (ends_of part_ends.now)) }
    ensures values { OnOk result (values.new.rows ≡
        values.old.rows ++ drop (cond goes_on 1 0) (single_rows (leaf_in part_values.entry))) }
    ensures kept_ends { OnErr result (ends.new.items ≡ ends.old.items) }
    ensures kept_values { OnErr result (values.new.rows ≡ values.old.rows) }
    ensures dtype { values.new.dtype ≡ values.old.dtype }
{
    ends.reserve(part_ends.len())?;
    values.append(part_values, skipped(goes_on))?;
    let count = last_of(ends);
    drop_last_if(ends, goes_on);
    push_ends(ends, part_ends, count);
    Ok(())
}

/// Appends a run of one value to the runs. Refused only as `OutOfMemory`, and then nothing is changed.
pub(crate) fn push_run<A: Allocator + Copy>(
    ends: &mut Vec<u64, A>,
    values: &mut FlatBuilder<A>,
    value: &Scalar<A>,
    count: u64,
) -> VortexResult<()>
    requires small { last_end ends.old.items + count < 2 ^ 64 }
    requires typed { value.now.dtype ≡ values.old.dtype }
    ensures only { IsOkUnless result VortexError.OutOfMemory }
    ensures ends { OnOk result (ends.new.items ≡ ends.old.items ++ behind (last_end ends.old.items) (count ∷ [])) }
    ensures values { OnOk result (values.new.rows ≡ values.old.rows ++ scalar_row value.now ∷ []) }
    ensures kept_ends { OnErr result (ends.new.items ≡ ends.old.items) }
    ensures kept_values { OnErr result (values.new.rows ≡ values.old.rows) }
    ensures dtype { values.new.dtype ≡ values.old.dtype }
{
    ends.reserve(1)?;
    values.push(value.view())?;
    ends.push_reserved(last_of(ends) + count);
    Ok(())
}

/// Moves the end of the last run, which has to be there, by `count` rows.
pub(crate) fn extend_last<A: Allocator>(ends: &mut Vec<u64, A>, count: u64)
    requires some { 0 < length ends.old.items }
    requires small { last_end ends.old.items + count < 2 ^ 64 }
    ensures { ends.new.items ≡ without_last ends.old.items ++ behind (last_end ends.old.items) (count ∷ []) }
{
    let run = ends.len() - 1;
    ends[run] += count;
}

/// Returns the last end, which is the number of rows, or 0 where there is none.
pub(crate) fn last_of(ends: &[u64]) -> u64
    ensures { result ≡ last_end ends.now }
{
    match ends.last() {
        None => 0,
        Some(end) => *end,
    }
}

/// Returns whether there is a last value, and it is equal to the other one.
pub(crate) fn is_same_value<A: Allocator>(last: &Option<Scalar<A>>, other: &Scalar<A>) -> bool
    ensures { IsTrue result ↔ (last.now ≡ Some other.now) }
{
    match last {
        None => false,
        Some(value) => *value == *other,
    }
}

// How many rows of a part are left out: the first, where its run goes on.
fn skipped(goes_on: bool) -> usize
    ensures { result ≡ cond goes_on 1 0 }
{
    if goes_on { 1 } else { 0 }
}

// Drops the last end where it is of a run that goes on.
fn drop_last_if<A: Allocator>(ends: &mut Vec<u64, A>, goes_on: bool)
    ensures items { ends.new.items ≡ cond goes_on (without_last ends.old.items) ends.old.items }
    ensures len { vec_len ends.new ≤ vec_len ends.old }
    ensures capacity { vec_capacity ends.new ≡ vec_capacity ends.old }
{
    if goes_on {
        ends.truncate(ends.len().saturating_sub(1));
    }
}
