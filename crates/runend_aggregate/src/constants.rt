//! Order aggregates of constant columns: all rows are one run. None of them takes memory.
ghost use Rattle.std.specs.Prelude.{◌≡◌, ◌≢◌, ◌↔◌, All, Err, IfNone, IfOk, IfSome, IsTrue, None};
ghost use Rattle.column_core.specs.Refusal.{IsRefusedBy};
ghost use Rattle.column_core.specs.ScalarView.{sees, IsViewOf};
ghost use Rattle.column_ops.specs.OrderFacts.{IsConstant, IsFurthest, IsGreatest, IsLeast, IsSorted};
ghost use Rattle.runend_array.specs.Column.{OfConstant, column_rows};
ghost use Rattle.column_core.specs.Kinds.{list_fault};

use column_core::{ScalarView, VortexError, VortexResult, fault_of_lists};
use runend_array::ConstantArray;
use std::alloc::Allocator;

/// Returns the least and the greatest of the rows that are not null, borrowed from the column, as `min_max` does for
/// runs: the value twice, or `None` without rows or where all are null. Refused as `Unsupported` exactly for lists.
pub fn min_max_of_constant<A: Allocator + Copy>(
    array: &ConstantArray<A>,
) -> VortexResult<Option<(ScalarView<'_, A>, ScalarView<'_, A>)>>
    ensures refused { IsRefusedBy (list_fault array.now.dtype) result }
    ensures no_memory { result ≢ Err VortexError.OutOfMemory }
    ensures none { IfOk result (λ found. IfNone found (All (λ row. row ≡ None) (column_rows (OfConstant array.now)))) }
    ensures least { IfOk result (λ found. IfSome found (λ ends.
        IsLeast (column_rows (OfConstant array.now)) (sees ends.0))) }
    ensures greatest { IfOk result (λ found. IfSome found (λ ends. IsGreatest (column_rows (OfConstant array.now))
        (sees ends.1))) }
    ensures least_of_type { IfOk result (λ found. IfSome found (λ ends. IsViewOf array.now.dtype ends.0)) }
    ensures greatest_of_type { IfOk result (λ found. IfSome found (λ ends. IsViewOf array.now.dtype ends.1)) }
{
    if let Some(error) = fault_of_lists(array.dtype()) {
        return Err(error);
    }
    match shown_in(array) {
        Some(row) => Ok(Some((row, row))),
        None => Ok(None),
    }
}

/// Returns whether all rows of a constant column are equal, which they are. Refused as `Unsupported` exactly for lists,
/// as `is_constant` is for runs.
pub fn is_constant_of_constant<A: Allocator>(array: &ConstantArray<A>) -> VortexResult<bool>
    ensures refused { IsRefusedBy (list_fault array.now.dtype) result }
    ensures no_memory { result ≢ Err VortexError.OutOfMemory }
    ensures answer { IfOk result (λ constant. IsTrue constant ↔ IsConstant (column_rows (OfConstant array.now))) }
{
    match fault_of_lists(array.dtype()) {
        Some(error) => Err(error),
        None => Ok(true),
    }
}

/// Returns whether no row of a constant column is above the next, or, for `strict`, whether each is below the next.
/// Equal rows are sorted, and strictly only where there are fewer than two. Refused as `Unsupported` exactly for lists,
/// as `is_sorted` is for runs.
pub fn is_sorted_of_constant<A: Allocator>(
    array: &ConstantArray<A>,
    strict: bool,
) -> VortexResult<bool>
    ensures refused { IsRefusedBy (list_fault array.now.dtype) result }
    ensures no_memory { result ≢ Err VortexError.OutOfMemory }
    ensures answer { IfOk result (λ sorted. IsTrue sorted ↔ IsSorted strict (column_rows (OfConstant array.now))) }
{
    match fault_of_lists(array.dtype()) {
        Some(error) => Err(error),
        None => Ok(!strict || array.len() < 2),
    }
}

// What the rows show, or `None` without rows or where all are null.
fn shown_in<A: Allocator>(array: &ConstantArray<A>) -> Option<ScalarView<'_, A>>
    ensures none { IfNone result (All (λ row. row ≡ None) (column_rows (OfConstant array.now))) }
    ensures least { IfSome result (λ row. IsLeast (column_rows (OfConstant array.now)) (sees row)) }
    ensures greatest { IfSome result (λ row. IsGreatest (column_rows (OfConstant array.now)) (sees row)) }
    ensures of_type { IfSome result (λ row. IsViewOf array.now.dtype row) }
{
    if array.is_empty() {
        return None;
    }
    match array.scalar().view() {
        ScalarView::Null => None,
        row => Some(row),
    }
}
