//! Where runs end in a window, of runs that are named by their number.
ghost use Rattle.std.specs.Prelude.{◌≡◌, ◌≤◌, All, IfOk, IsOkUnless, length, map};
ghost use Rattle.column_core.specs.PrimitiveForm.{primitive_dtype};
ghost use Rattle.runend_windows.specs.Ends.{IsEndsType, ends_of};
ghost use Rattle.runend_encode.specs.Windows.{start_in};

use column_base::match_each_unsigned;
use column_core::{PrimitiveArray, PrimitiveValues, UnsignedPType, VortexError, VortexResult};
use std::alloc::Allocator;

/// Returns for each of these runs the row at which it starts, in the window of `count` rows from position `offset` on,
/// and after them the row before which the last run ends. Refused only as `OutOfMemory`.
pub(crate) fn row_ends<A: Allocator + Copy>(
    alloc: A,
    ends: &PrimitiveArray<A>,
    runs: &[u64],
    offset: usize,
    count: usize,
) -> VortexResult<Vec<u64, A>>
    requires plain { IsEndsType (primitive_dtype ends.now) }
    requires within { All (λ run. run ≤ length (ends_of ends.now)) runs.now }
    ensures only { IsOkUnless result VortexError.OutOfMemory }
    ensures rows { IfOk result (λ rows. rows.items ≡ map (start_in (ends_of ends.now) offset count) runs.now) }
{
    match_each_unsigned!(ends.values(), items => rows_of(alloc, items.as_slice(), runs, offset, count))
}

// The rows before which runs start, and before which the last ends, over ends as they are stored.
fn rows_of<E: UnsignedPType, A: Allocator>(
    alloc: A,
    ends: &[E],
    runs: &[u64],
    offset: usize,
    count: usize,
) -> VortexResult<Vec<u64, A>>
    requires { All (λ run. run ≤ length ends.now) runs.now }
    ensures only { IsOkUnless result VortexError.OutOfMemory }
    ensures rows { IfOk result (λ rows. rows.items ≡ map (start_in (map E.natural ends.now) offset count) runs.now) }
{
    let mut rows = Vec::with_capacity(alloc, runs.len())?;
    for run in runs {
        rows.push_reserved(start_of(ends, *run, offset, count));
    }
    Ok(rows)
}

// The row of the window at which a run starts.
fn start_of<E: UnsignedPType>(ends: &[E], run: u64, offset: usize, count: usize) -> u64
    requires { run ≤ length ends.now }
    ensures { result ≡ start_in (map E.natural ends.now) offset count run }
{
    if run == 0 {
        return 0;
    }
    let end = ends[run as usize - 1].to_u64();
    end.saturating_sub(offset as u64).min(count as u64)
}
