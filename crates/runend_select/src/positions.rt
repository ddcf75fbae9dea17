//! The runs of indices, by the strategy that a session picks.
ghost use Rattle.std.specs.Prelude.{◌≡◌, ◌+◌, ◌<◌, ◌≤◌, IfOk, IsOkUnless, OnErr, length as item_count};
ghost use Rattle.column_base.specs.Mask.{mask_bits};
ghost use Rattle.runend_windows.specs.Window.{IsWindow};
ghost use Rattle.runend_select.specs.declared.strategy.Strategy.{Strategy};
ghost use Rattle.runend_select.specs.Indices.{AreInBounds, valid_count, masked_indices};
ghost use Rattle.runend_select.specs.Pick.{IsPicked, answer_of, most_tests};
ghost use Rattle.runend_select.specs.SessionPicks.{picks_of};

use crate::strategy::TakeThresholds;
use column_core::{CountedEnds, Mask, NativePType, UnsignedPType, VortexError, VortexResult};
use runend_array::{ExecutionCtx, Thresholds};
use std::alloc::Allocator;

/// Returns the run of each valid index among `length` rows, where `offset` is the position of row 0, by the strategy
/// that the thresholds of the session pick. A null index gets the run of row 0 from `Strategy::Table`, and 0 from the
/// others. It tests no more ends than the picked strategy. Refused only as `OutOfMemory`, before any test.
pub fn physical_indices<E: UnsignedPType, T: NativePType, A: Allocator + Copy>(
    ends: &mut CountedEnds<'_, E>,
    offset: usize,
    length: usize,
    indices: &[T],
    mask: &Mask<A>,
    ctx: &mut ExecutionCtx<A>,
) -> VortexResult<Vec<u64, A>>
    requires window { IsWindow ends.old.ends offset length }
    requires some { 0 < length }
    requires masked { item_count (mask_bits mask.now) ≡ item_count indices.now }
    requires in_bounds { AreInBounds (masked_indices T.number indices.now mask.now) length }
    ensures only { IsOkUnless result VortexError.OutOfMemory }
    ensures picked { let places = masked_indices T.number indices.now mask.now in (strategy : Strategy)
        × IsPicked places (item_count ends.old.ends) length (picks_of ctx.old.thresholds) strategy
        × IfOk result (λ runs. runs.items ≡ answer_of strategy ends.old.ends offset places)
        × (ends.new.tests ≤ ends.old.tests + most_tests strategy (valid_count places)
        (item_count ends.old.ends) length) }
    ensures same { ends.new.ends ≡ ends.old.ends }
    ensures untested { OnErr result (ends.new.tests ≡ ends.old.tests) }
    ensures session { ctx.new ≡ ctx.old }
{
    let alloc = *ctx.allocator();
    let picks = take_thresholds(ctx.session().thresholds());
    crate::picked::physical_indices(alloc, ends, offset, length, indices, mask, picks)
}

// The thresholds by which a strategy is picked.
fn take_thresholds(thresholds: Thresholds) -> TakeThresholds
    ensures { result ≡ picks_of thresholds }
{
    TakeThresholds {
        sorted_runs_per_index: thresholds.sorted_runs_per_index,
        table_len_per_index: thresholds.table_len_per_index,
        unsorted_min_runs: thresholds.unsorted_min_runs,
        unsorted_runs_per_index: thresholds.unsorted_runs_per_index,
    }
}
