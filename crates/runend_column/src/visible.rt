//! Which runs of a run column are visible, and their ends and values.
ghost use Rattle.std.specs.Prelude.{◌≡◌, length, IfOk, IfSome, IsOkUnless};
ghost use Rattle.column_core.specs.FlatColumn.{leaf_of};
ghost use Rattle.column_core.specs.Leaf.{OfNumbers, leaf_dtype, single_rows};
ghost use Rattle.column_core.specs.PrimitiveForm.{primitive_dtype};
ghost use Rattle.column_core.specs.Value.{IsLists};
ghost use Rattle.runend_windows.specs.Ends.{IsEndsType, ends_of};
ghost use Rattle.runend_windows.specs.Window.{IsWindow};
ghost use Rattle.runend_array.specs.Column.{AreRuns, column_dtype};
ghost use Rattle.runend_encode.specs.Joined.{AllHaveRows};
ghost use Rattle.runend_column.specs.VisibleForm.{visible_ends, visible_values as values_of_visible, window_start};

use column_core::{FlatColumn, PrimitiveArray, VortexError, VortexResult};
use runend_array::{ArrayRef, Canonical, RunEndArray, RunEndArrayExt, RunEndArraySlotsExt};
use std::alloc::Allocator;

/// Returns where the window over the visible runs begins, in rows: at the column's offset, and at 0 without rows.
pub fn visible_offset<A: Allocator + Copy>(array: &RunEndArray<A>) -> usize
    ensures { result ≡ window_start array.now.count array.now.offset }
{
    if array.is_empty() { 0 } else { array.offset() }
}

/// Returns the ends of the visible runs, of the same type; shares them if they are shared. Each of these runs shows a
/// row. Refused only as `OutOfMemory`.
pub fn ends_of_visible<A: Allocator + Copy>(
    alloc: A,
    array: &RunEndArray<A>,
) -> VortexResult<PrimitiveArray<A>>
    ensures only { IsOkUnless result VortexError.OutOfMemory }
    ensures plain { IfOk result (λ ends. IsEndsType (primitive_dtype ends)) }
    ensures ends { IfOk result (λ ends. ends_of ends ≡ visible_ends array.now) }
    ensures typed { IfOk result (λ ends. ends.ptype ≡ array.now.ends_type) }
    ensures window { IsWindow (visible_ends array.now) (window_start array.now.count array.now.offset) array.now.count }
    ensures paired { length (values_of_visible array.now) ≡ length (visible_ends array.now) }
    ensures shown { AllHaveRows (visible_ends array.now)
        (window_start array.now.count array.now.offset) array.now.count }
    ensures counted { IfOk result (λ ends. length ends.numbers ≡ length (visible_ends array.now)) }
{
    let runs = array.visible_runs();
    array.ends_between(alloc, runs.start, runs.end)
}

/// Returns the values of the visible runs, one for each, as a flat column; shares flat values if they are shared.
/// Refused only as `OutOfMemory`.
pub fn visible_values<A: Allocator + Copy>(
    alloc: A,
    array: &RunEndArray<A>,
) -> VortexResult<FlatColumn<A>>
    requires single { ¬ IsLists (column_dtype array.now.values) }
    ensures only { IsOkUnless result VortexError.OutOfMemory }
    ensures rows { IfOk result (λ values. single_rows (leaf_of values) ≡ values_of_visible array.now) }
    ensures dtype { IfOk result (λ values. leaf_dtype (leaf_of values) ≡ column_dtype array.now.values) }
    ensures valid { AreRuns array.now }
{
    let runs = array.visible_runs();
    match array.values().rows_between(alloc, runs.start, runs.end)? {
        Canonical::Flat(values) => Ok(values),
        Canonical::List(_) => unreachable!(),
    }
}

/// Returns the values, borrowed, where each run is visible and they are flat integers. Takes no memory.
pub fn borrowed_values<A: Allocator + Copy>(array: &RunEndArray<A>) -> Option<&PrimitiveArray<A>>
    ensures rows { IfSome result (λ numbers. single_rows (OfNumbers numbers.now) ≡ values_of_visible array.now) }
    ensures dtype { IfSome result (λ numbers. primitive_dtype numbers.now ≡ column_dtype array.now.values) }
    ensures valid { AreRuns array.now }
{
    let runs = array.visible_runs();
    match array.values() {
        ArrayRef::Primitive(numbers) if runs.start == 0 && runs.end == numbers.len() => Some(
            numbers,
        ),
        _ => None,
    }
}
