//! Rows of a column, and the first and the last value, as scalars of a type that has null.
ghost use Rattle.std.specs.Prelude.{◌≡◌, ◌<◌, IfOk, IsOkUnless, None, Some, is_none, length, option_map, slice_get};
ghost use Rattle.column_base.specs.declared.dtype.Nullability.TheVariants.{Nullable};
ghost use Rattle.column_base.specs.Types.{with_nullability};
ghost use Rattle.column_core.specs.ScalarView.{IsViewOf, sees};
ghost use Rattle.column_core.specs.Value.{IsLists, Single};
ghost use Rattle.runend_array.specs.Array.{dtype_of, rows};
ghost use Rattle.typed_groups.specs.Questions.{IsFirst, IsLast};

use column_core::{DType, Nullability, Scalar, ScalarView, VortexError, VortexResult};
use runend_array::ArrayRef;
use std::alloc::Allocator;

/// Returns the first value of a column of any type but lists, in memory of its own. Takes a step for each row up to it.
/// Refused only as `OutOfMemory`.
pub(crate) fn first_value<A: Allocator + Copy>(
    alloc: A,
    array: &ArrayRef<A>,
) -> VortexResult<Scalar<A>>
    requires { ¬ IsLists (dtype_of array.now) }
    ensures only { IsOkUnless result VortexError.OutOfMemory }
    ensures first { IfOk result (λ scalar. IsFirst (rows array.now) (option_map Single scalar.value)) }
    ensures dtype { IfOk result (λ scalar. scalar.dtype ≡ with_nullability (dtype_of array.now) Nullable) }
{
    let count = array.len();
    for row in 0..count {
        let view = view_at(array, row);
        if !is_null(view) {
            return scalar_of(alloc, array.dtype(), view);
        }
    }
    Ok(null_of(array.dtype()))
}

/// Returns the last value of a column of any type but lists, in memory of its own. Takes a step for each row from it
/// on. Refused only as `OutOfMemory`.
pub(crate) fn last_value<A: Allocator + Copy>(
    alloc: A,
    array: &ArrayRef<A>,
) -> VortexResult<Scalar<A>>
    requires { ¬ IsLists (dtype_of array.now) }
    ensures only { IsOkUnless result VortexError.OutOfMemory }
    ensures last { IfOk result (λ scalar. IsLast (rows array.now) (option_map Single scalar.value)) }
    ensures dtype { IfOk result (λ scalar. scalar.dtype ≡ with_nullability (dtype_of array.now) Nullable) }
{
    let count = array.len();
    for back in 0..count {
        let view = view_at(array, count - 1 - back);
        if !is_null(view) {
            return scalar_of(alloc, array.dtype(), view);
        }
    }
    Ok(null_of(array.dtype()))
}

/// Returns a copy of a value of a type, or null, under the type that has null. Refused only as `OutOfMemory`.
pub(crate) fn scalar_of<A: Allocator + Copy>(
    alloc: A,
    dtype: DType,
    view: ScalarView<'_, A>,
) -> VortexResult<Scalar<A>>
    requires single { ¬ IsLists dtype }
    requires of_type { IsViewOf (with_nullability dtype Nullable) view }
    ensures only { IsOkUnless result VortexError.OutOfMemory }
    ensures dtype { IfOk result (λ scalar. scalar.dtype ≡ with_nullability dtype Nullable) }
    ensures value { IfOk result (λ scalar. option_map Single scalar.value ≡ sees view.entry) }
{
    Scalar::of_view(alloc, dtype.with_nullability(Nullability::Nullable), view)
}

/// Returns null under the type that has it.
pub(crate) fn null_of<A: Allocator>(dtype: DType) -> Scalar<A>
    ensures dtype { result.dtype ≡ with_nullability dtype Nullable }
    ensures value { result.value ≡ None }
{
    Scalar::try_new(dtype.with_nullability(Nullability::Nullable), None).unwrap()
}

// Whether a row is null.
fn is_null<A: Allocator>(view: ScalarView<'_, A>) -> bool
    ensures { result ≡ is_none (sees view.entry) }
{
    match view {
        ScalarView::Null => true,
        _ => false,
    }
}

// The row at a place, under the type that has null.
fn view_at<A: Allocator + Copy>(array: &ArrayRef<A>, row: usize) -> ScalarView<'_, A>
    requires { row < length (rows array.now) }
    ensures row { slice_get (rows array.now) row ≡ Some (sees result) }
    ensures of_type { IsViewOf (with_nullability (dtype_of array.now) Nullable) result }
{
    array.scalar_at(row).unwrap()
}
