//! A table of the run of each row, and indices looked up in it.
ghost use Rattle.std.specs.Prelude.{◌≡◌, ◌+◌, ◌-◌, ◌<◌, ◌≤◌, All, IfOk, IsOkUnless, OnErr, length as item_count, map, true, vec_capacity, []};
ghost use Rattle.column_base.specs.Mask.{mask_bits};
ghost use Rattle.runend_windows.specs.Window.{IsWindow};
ghost use Rattle.runend_select.specs.Indices.{AreInBounds, item_of, runs_of_rows, masked_indices};

use crate::rows::{named_row, selects_all};
use column_core::{CountedEnds, Mask, NativePType, UnsignedPType, VortexError, VortexResult};
use runend_windows::RunWriter;
use std::alloc::Allocator;

/// Returns the run of each of `length` rows, from position `offset` on. It tests at most one end for each row and one
/// for each run but the last. Refused only as `OutOfMemory`, before any test.
pub fn run_index_table<E: UnsignedPType, A: Allocator + Copy>(
    alloc: A,
    ends: &mut CountedEnds<'_, E>,
    offset: usize,
    length: usize,
) -> VortexResult<Vec<u64, A>>
    requires { IsWindow ends.old.ends offset length }
    ensures only { IsOkUnless result VortexError.OutOfMemory }
    ensures runs { IfOk result (λ table. table.items ≡ runs_of_rows ends.old.ends offset length) }
    ensures same { ends.new.ends ≡ ends.old.ends }
    ensures cost { ends.new.tests ≤ ends.old.tests + (item_count ends.old.ends - 1 + length) }
    ensures untested { OnErr result (ends.new.tests ≡ ends.old.tests) }
{
    let mut table = RunWriter::with_room(alloc, length)?;
    let mut reach = 0;
    for run in 0..ends.len() {
        if reach == length {
            break;
        }
        reach += ends.rows_to_end(run, offset + reach, length - reach);
        table.repeat_to(run as u64, reach);
    }
    Ok(table.finish())
}

/// Returns the table's item at each valid index, and its first item at a null one. No end is tested,
/// since none is lent. Refused only as `OutOfMemory`.
pub fn physical_indices_table<T: NativePType, A: Allocator + Copy>(
    alloc: A,
    table: &[u64],
    indices: &[T],
    mask: &Mask<A>,
) -> VortexResult<Vec<u64, A>>
    requires some { 0 < item_count table.now }
    requires masked { item_count (mask_bits mask.now) ≡ item_count indices.now }
    requires in_bounds { AreInBounds (masked_indices T.number indices.now mask.now)
        (item_count table.now) }
    ensures only { IsOkUnless result VortexError.OutOfMemory }
    ensures items { IfOk result (λ runs. runs.items ≡
        map (item_of table.now) (masked_indices T.number indices.now mask.now)) }
{
    let runs = Vec::with_capacity(alloc, indices.len())?;
    if selects_all(mask) {
        Ok(looked_up::<true, T, A>(table, runs, indices, mask))
    } else {
        Ok(looked_up::<false, T, A>(table, runs, indices, mask))
    }
}

// The table's item at each valid index, put into room that is there. `ALL` says that no index is null.
fn looked_up<const ALL: bool, T: NativePType, A: Allocator>(
    table: &[u64],
    mut runs: Vec<u64, A>,
    indices: &[T],
    mask: &Mask<A>,
) -> Vec<u64, A>
    requires empty { runs.items ≡ [] }
    requires room { item_count indices.now ≤ vec_capacity runs }
    requires some { 0 < item_count table.now }
    requires masked { item_count (mask_bits mask.now) ≡ item_count indices.now }
    requires all { ALL ≡ true → All (λ bit. bit ≡ true) (mask_bits mask.now) }
    requires in_bounds { AreInBounds (masked_indices T.number indices.now mask.now)
        (item_count table.now) }
    ensures { result.items ≡ map (item_of table.now) (masked_indices T.number indices.now mask.now) }
{
    for place in 0..indices.len() {
        let row = named_row::<ALL, T, A>(indices, mask, place).unwrap_or(0);
        runs.push_reserved(table[row]);
    }
    runs
}
