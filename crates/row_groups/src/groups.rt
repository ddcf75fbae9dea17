//! Groups of equal neighbouring rows of several columns: where each ends, and where it begins.
ghost use Rattle.std.specs.Prelude.{◌≡◌, ◌+◌, ◌^◌, ◌<◌, All, List, [], ◌∷◌, ◌++◌, Option, IfOk, IsOkUnless, length, map};
ghost use Rattle.column_core.specs.Value.{IsLists, Value};
ghost use Rattle.runend_array.specs.Array.{dtype_of, rows};
ghost use Rattle.runend_windows.specs.Starts.{starts_from};
ghost use Rattle.row_groups.specs.Groups.{AreEndsOf, AreGroupEnds, row_alone};

use crate::common_ends::common_ends;
use column_core::{VortexError, VortexResult};
use row_stretches::Stretch;
use runend_array::ArrayRef;
use runend_builder::row_runs;
use std::alloc::Allocator;

/// Returns where the group ends that all of `count` rows are: nowhere without a row. Refused only as
/// `OutOfMemory`.
pub fn one_group<A: Allocator + Copy>(alloc: A, count: usize) -> VortexResult<Vec<u64, A>>
    ensures only { IsOkUnless result VortexError.OutOfMemory }
    ensures ends { IfOk result (λ ends. AreEndsOf count ends.items) }
    ensures groups { IfOk result (λ ends. AreGroupEnds [] count ends.items) }
{
    let mut ends = Vec::new(alloc);
    if count > 0 {
        ends.push(count as u64)?;
    }
    Ok(ends)
}

/// Returns where groups end that are equal in one more column too, null equal to null: where the groups before do, and
/// where the column's runs of equal rows do. Takes a step for each of both. Refused only as `OutOfMemory`.
pub fn cut_groups<A: Allocator + Copy>(
    alloc: A,
    ends: &[u64],
    key: &ArrayRef<A>,
) -> VortexResult<Vec<u64, A>>
    requires single { ¬ IsLists (dtype_of key.now) }
    requires ends { AreEndsOf (length (rows key.now)) ends.now }
    ensures only { IsOkUnless result VortexError.OutOfMemory }
    ensures ends { IfOk result (λ made. AreEndsOf (length (rows key.now)) made.items) }
    ensures groups { (columns : List (List (Option Value))) → AreGroupEnds columns (length (rows key.now)) ends.now →
        IfOk result (λ made. AreGroupEnds (columns ++ rows key.now ∷ []) (length (rows key.now)) made.items) }
{
    let (key_ends, values) = row_runs(alloc, key)?;
    drop(values);
    let made = common_ends(alloc, ends, key_ends.values(), key.len());
    drop(key_ends);
    made
}

/// Returns the row at which each group begins: the first at row 0, each other where the one before it ends. Refused
/// only as `OutOfMemory`.
pub fn starts_of<A: Allocator>(alloc: A, ends: &[u64]) -> VortexResult<Vec<u64, A>>
    ensures only { IsOkUnless result VortexError.OutOfMemory }
    ensures starts { IfOk result (λ starts. starts.items ≡ starts_from 0 ends.now) }
{
    let mut starts = Vec::with_capacity(alloc, ends.len())?;
    let mut start = 0;
    for end in ends {
        starts.push_reserved(start);
        start = *end;
    }
    Ok(starts)
}

/// Returns a stretch of one row for each of these rows. Refused only as `OutOfMemory`.
pub fn rows_alone<A: Allocator>(alloc: A, rows: &[u64]) -> VortexResult<Vec<Stretch, A>>
    requires { All (λ row. row + 1 < 2 ^ 64) rows.now }
    ensures only { IsOkUnless result VortexError.OutOfMemory }
    ensures stretches { IfOk result (λ order. order.items ≡ map row_alone rows.now) }
{
    let mut order = Vec::with_capacity(alloc, rows.len())?;
    for row in rows {
        let start = *row as usize;
        let stop = start + 1;
        order.push_reserved(Stretch { start, stop });
    }
    Ok(order)
}
