//! Ends of runs of two kinds, merged.
ghost use Rattle.std.specs.Prelude.{◌≡◌, ◌≢◌, ◌+◌, ◌<◌, IfOk, IsOkUnless, map, unsigned_abs};
ghost use Rattle.column_base.specs.Numbers.{numbers, ptype_of};
ghost use Rattle.column_base.specs.Types.{IsUnsigned};
ghost use Rattle.row_groups.specs.Groups.{AreCommonEnds, AreEndsOf};

use column_base::match_each_unsigned;
use column_core::{PrimitiveValues, UnsignedPType, VortexError, VortexResult};
use std::alloc::Allocator;

/// Returns the ends that are one of either, each once, in ascending order. Both are ends of runs of `count` rows.
/// Refused only as `OutOfMemory`.
#[tactic(auto, using(runend_windows::proofs::Ends::ends_stored))]
pub(crate) fn common_ends<A: Allocator + Copy>(
    alloc: A,
    ends: &[u64],
    others: &PrimitiveValues<A>,
    count: usize,
) -> VortexResult<Vec<u64, A>>
    requires unsigned { IsUnsigned (ptype_of others.now) }
    requires ends { AreEndsOf count ends.now }
    requires others { AreEndsOf count (map unsigned_abs (numbers others.now)) }
    ensures only { IsOkUnless result VortexError.OutOfMemory }
    ensures common { IfOk result (λ made. AreCommonEnds ends.now (map unsigned_abs (numbers others.now)) count
        made.items) }
{
    match_each_unsigned!(others, items => merged_ends(alloc, ends, items.as_slice(), count))
}

// The same, of ends of one type.
fn merged_ends<E: UnsignedPType, A: Allocator>(
    alloc: A,
    ends: &[u64],
    others: &[E],
    count: usize,
) -> VortexResult<Vec<u64, A>>
    requires ends { AreEndsOf count ends.now }
    requires others { AreEndsOf count (map E.natural others.now) }
    ensures only { IsOkUnless result VortexError.OutOfMemory }
    ensures common { IfOk result (λ made. AreCommonEnds ends.now (map E.natural others.now) count made.items) }
{
    let last = count as u64;
    let mut made = Vec::new(alloc);
    let mut left = 0;
    let mut right = 0;
    let mut row = 0;
    while row < last {
        let left_stop = ends[left];
        let right_stop = others[right].to_u64();
        let stop = left_stop.min(right_stop);
        made.push(stop)?;
        left = run_after(left, left_stop, stop);
        right = run_after(right, right_stop, stop);
        row = stop;
    }
    Ok(made)
}

// The run of the row `row`, where `run` is that of the row before it, and ends before row `end`: the next one where it
// ends there, by a sum in place of a branch.
#[inline(always)]
fn run_after(run: usize, end: u64, row: u64) -> usize
    requires { run < usize.MAX }
    ensures ended { end ≡ row → result ≡ run + 1 }
    ensures going { end ≢ row → result ≡ run }
{
    run + usize::from(end == row)
}
