//! Rows taken one by one: at the positions of stretches, and at any positions.
ghost use Rattle.std.specs.Prelude.{◌≡◌, ◌-◌, ◌^◌, ◌<◌, ◌++◌, All, IfOk, IsOkUnless, OnOk, length};
ghost use Rattle.std.specs.List.{range_with_len};
ghost use Rattle.runend_array.specs.Array.{dtype_of, rows};
ghost use Rattle.runend_array.specs.Canonical.{canonical_column};
ghost use Rattle.runend_array.specs.Column.{column_dtype, column_rows};
ghost use Rattle.runend_encode.specs.Starts.{rows_at};
ghost use Rattle.row_stretches.specs.Stretches.{stretch_places};

use crate::stretches::{Stretch, row_count};
use column_core::{Validity, VortexError, VortexResult};
use runend_array::{ArrayRef, Canonical};
use runend_column::take_values;
use std::alloc::Allocator;

/// Returns the rows of a column of any form at these positions, flat. Refused only as `OutOfMemory`.
pub(crate) fn rows_at_positions<A: Allocator + Copy>(
    alloc: A,
    column: &ArrayRef<A>,
    positions: &[u64],
) -> VortexResult<Canonical<A>>
    requires within { All (λ position. position < length (rows column.now)) positions.now }
    ensures only { IsOkUnless result VortexError.OutOfMemory }
    ensures rows { IfOk result (λ taken. column_rows (canonical_column taken) ≡ rows_at (rows column.now)
        positions.now) }
    ensures dtype { IfOk result (λ taken. column_dtype (canonical_column taken) ≡ dtype_of column.now) }
{
    take_values(alloc, column, positions, &Validity::NonNullable)
}

/// Returns the positions of the rows of these stretches, one stretch after another, of which there are fewer than 2^64.
/// Refused only as `OutOfMemory`.
pub(crate) fn positions_of<A: Allocator>(alloc: A, order: &[Stretch]) -> VortexResult<Vec<u64, A>>
    requires small { length (stretch_places order.now) < 2 ^ 64 }
    ensures only { IsOkUnless result VortexError.OutOfMemory }
    ensures places { IfOk result (λ positions. positions.items ≡ stretch_places order.now) }
{
    let mut positions = Vec::with_capacity(alloc, row_count(order))?;
    for stretch in order {
        push_rows(&mut positions, *stretch)?;
    }
    Ok(positions)
}

// Puts the positions of the rows of a stretch after the others.
fn push_rows<A: Allocator>(positions: &mut Vec<u64, A>, stretch: Stretch) -> VortexResult<()>
    ensures only { IsOkUnless result VortexError.OutOfMemory }
    ensures pushed { OnOk result (positions.new.items ≡ positions.old.items ++
        range_with_len stretch.start (stretch.stop - stretch.start)) }
{
    for row in stretch.start..stretch.stop {
        positions.push(row as u64)?;
    }
    Ok(())
}
