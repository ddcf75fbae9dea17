//! The run that each index of a take is in, by each strategy, with the memory of a context.
ghost use Rattle.std.specs.Prelude.{◌≡◌, ◌+◌, ◌-◌, ◌*◌, ◌<◌, ◌≤◌, IfOk, IsOkUnless, OnErr, length as item_count, map};
ghost use Rattle.column_base.specs.Mask.{mask_bits};
ghost use Rattle.column_core.specs.Digits.{digits};
ghost use Rattle.runend_windows.specs.Window.{IsWindow};
ghost use Rattle.runend_select.specs.Indices.{AreInBounds, AreInWindow, AreSorted, item_of, optional_indices, runs_of, runs_of_rows, valid_count, masked_indices};

use runend_array::{
    CountedEnds, ExecutionCtx, Mask, NativePType, UnsignedPType, VortexError, VortexResult,
};
use std::alloc::Allocator;

/// Returns the run of each valid index, and 0 for a null one, where `offset` is the position of row 0. For each valid
/// index it tests at most as many ends as the number of ends has binary digits. Refused only as `OutOfMemory`, before
/// any test.
pub fn physical_indices_binary<E: UnsignedPType, T: NativePType, A: Allocator + Copy>(
    ends: &mut CountedEnds<'_, E>,
    offset: usize,
    indices: &[T],
    mask: &Mask<A>,
    ctx: &mut ExecutionCtx<A>,
) -> VortexResult<Vec<u64, A>>
    requires masked { item_count (mask_bits mask.now) ≡ item_count indices.now }
    requires in_window { AreInWindow ends.old.ends offset (masked_indices T.number indices.now mask.now) }
    ensures only { IsOkUnless result VortexError.OutOfMemory }
    ensures runs { IfOk result (λ runs. runs.items ≡
        runs_of ends.old.ends offset 0 (masked_indices T.number indices.now mask.now)) }
    ensures same { ends.new.ends ≡ ends.old.ends }
    ensures cost { ends.new.tests ≤ ends.old.tests + valid_count (optional_indices T.number indices.now
        (mask_bits mask.now)) * digits (item_count ends.old.ends) }
    ensures untested { OnErr result (ends.new.tests ≡ ends.old.tests) }
    ensures session { ctx.new ≡ ctx.old }
{
    runend_select::physical_indices_binary(*ctx.allocator(), ends, offset, indices, mask)
}

/// Returns the run of each valid index, and 0 for a null one, where `offset` is the position of row 0. No valid index
/// may be below a valid one before it. It tests at most one end for each valid index and one for each run but the last.
/// Refused only as `OutOfMemory`, before any test.
pub fn physical_indices_linear_sorted<E: UnsignedPType, T: NativePType, A: Allocator + Copy>(
    ends: &mut CountedEnds<'_, E>,
    offset: usize,
    indices: &[T],
    mask: &Mask<A>,
    ctx: &mut ExecutionCtx<A>,
) -> VortexResult<Vec<u64, A>>
    requires masked { item_count (mask_bits mask.now) ≡ item_count indices.now }
    requires in_window { AreInWindow ends.old.ends offset (masked_indices T.number indices.now mask.now) }
    requires sorted { AreSorted (masked_indices T.number indices.now mask.now) }
    ensures only { IsOkUnless result VortexError.OutOfMemory }
    ensures runs { IfOk result (λ runs. runs.items ≡
        runs_of ends.old.ends offset 0 (masked_indices T.number indices.now mask.now)) }
    ensures same { ends.new.ends ≡ ends.old.ends }
    ensures cost { ends.new.tests ≤ ends.old.tests + (item_count ends.old.ends - 1 + valid_count
        (masked_indices T.number indices.now mask.now)) }
    ensures untested { OnErr result (ends.new.tests ≡ ends.old.tests) }
    ensures session { ctx.new ≡ ctx.old }
{
    runend_select::physical_indices_linear_sorted(*ctx.allocator(), ends, offset, indices, mask)
}

/// Returns the run of each valid index, and 0 for a null one, where `offset` is the position of row 0. It sorts the
/// indices first, so it tests at most one end for each valid index and one for each run but the last. Refused only as
/// `OutOfMemory`, before any test.
pub fn physical_indices_linear_unsorted<E: UnsignedPType, T: NativePType, A: Allocator + Copy>(
    ends: &mut CountedEnds<'_, E>,
    offset: usize,
    indices: &[T],
    mask: &Mask<A>,
    ctx: &mut ExecutionCtx<A>,
) -> VortexResult<Vec<u64, A>>
    requires masked { item_count (mask_bits mask.now) ≡ item_count indices.now }
    requires in_window { AreInWindow ends.old.ends offset (masked_indices T.number indices.now mask.now) }
    ensures only { IsOkUnless result VortexError.OutOfMemory }
    ensures runs { IfOk result (λ runs. runs.items ≡
        runs_of ends.old.ends offset 0 (masked_indices T.number indices.now mask.now)) }
    ensures same { ends.new.ends ≡ ends.old.ends }
    ensures cost { ends.new.tests ≤ ends.old.tests + (item_count ends.old.ends - 1 + valid_count
        (masked_indices T.number indices.now mask.now)) }
    ensures untested { OnErr result (ends.new.tests ≡ ends.old.tests) }
    ensures session { ctx.new ≡ ctx.old }
{
    runend_select::physical_indices_linear_unsorted(*ctx.allocator(), ends, offset, indices, mask)
}

/// Returns the run of each of `length` rows, from position `offset` on. It tests at most one end for each row and one
/// for each run but the last. Refused only as `OutOfMemory`, before any test.
pub fn run_index_table<E: UnsignedPType, A: Allocator + Copy>(
    ends: &mut CountedEnds<'_, E>,
    offset: usize,
    length: usize,
    ctx: &mut ExecutionCtx<A>,
) -> VortexResult<Vec<u64, A>>
    requires { IsWindow ends.old.ends offset length }
    ensures only { IsOkUnless result VortexError.OutOfMemory }
    ensures runs { IfOk result (λ table. table.items ≡ runs_of_rows ends.old.ends offset length) }
    ensures same { ends.new.ends ≡ ends.old.ends }
    ensures cost { ends.new.tests ≤ ends.old.tests + (item_count ends.old.ends - 1 + length) }
    ensures untested { OnErr result (ends.new.tests ≡ ends.old.tests) }
    ensures session { ctx.new ≡ ctx.old }
{
    runend_select::run_index_table(*ctx.allocator(), ends, offset, length)
}

/// Returns the table's item at each valid index, and its first item at a null one. No end is tested, since none is
/// lent. Refused only as `OutOfMemory`.
pub fn physical_indices_table<T: NativePType, A: Allocator + Copy>(
    table: &[u64],
    indices: &[T],
    mask: &Mask<A>,
    ctx: &mut ExecutionCtx<A>,
) -> VortexResult<Vec<u64, A>>
    requires some { 0 < item_count table.now }
    requires masked { item_count (mask_bits mask.now) ≡ item_count indices.now }
    requires in_bounds { AreInBounds (masked_indices T.number indices.now mask.now)
        (item_count table.now) }
    ensures only { IsOkUnless result VortexError.OutOfMemory }
    ensures items { IfOk result (λ runs. runs.items ≡
        map (item_of table.now) (masked_indices T.number indices.now mask.now)) }
    ensures session { ctx.new ≡ ctx.old }
{
    runend_select::physical_indices_table(*ctx.allocator(), table, indices, mask)
}
