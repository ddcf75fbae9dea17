//! Which rows of a flat column differ from the row before.
ghost use Rattle.std.specs.Prelude.{◌≡◌, ◌↔◌, ◌+◌, ◌/◌, ◌<◌, ℕ, IfOk, IsOkUnless, length};
ghost use Rattle.column_base.specs.Words.{digit_at};
ghost use Rattle.column_core.specs.Leaf.{leaf_rows, single_rows};
ghost use Rattle.runend_windows.specs.Starts.{AreChanges, GoesOn};

use crate::row_changes::RowChanges;
use column_core::{BitBuffer, BitBufferMut, VortexError, VortexResult};
use std::alloc::Allocator;

/// Returns a bit for each row: whether it differs from the row before, null being equal to null. The bit of the first
/// row is false. Refused only as `OutOfMemory`.
pub(crate) fn changes_of<R: RowChanges<A>, A: Allocator + Copy>(
    alloc: A,
    column: &R,
) -> VortexResult<BitBuffer<A>>
    ensures only { IsOkUnless result VortexError.OutOfMemory }
    ensures changes { IfOk result (λ bits. AreChanges (single_rows (R.leaf column.now)) bits) }
{
    let words = change_words(alloc, column)?;
    Ok(BitBufferMut::from_words(words, column.row_count()).freeze())
}

// These bits in words of 64; the last word may have more.
fn change_words<R: RowChanges<A>, A: Allocator + Copy>(
    alloc: A,
    column: &R,
) -> VortexResult<Vec<u64, A>>
    ensures only { IsOkUnless result VortexError.OutOfMemory }
    ensures len { IfOk result (λ words. length words.items ≡ (length (leaf_rows (R.leaf column.now)) + 63) / 64) }
    ensures digits { IfOk result (λ words. (row : ℕ) → row < length (leaf_rows (R.leaf column.now)) →
        ((digit_at words.items row ≡ 0) ↔ GoesOn (single_rows (R.leaf column.now)) row)) }
{
    let count = column.row_count();
    let mut words = Vec::with_capacity(alloc, count.div_ceil(64))?;
    for index in 0..count.div_ceil(64) {
        words.push_reserved(column.change_word(index));
    }
    Ok(words)
}
