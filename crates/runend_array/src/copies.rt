//! Copies of flat columns, as the clones and the compact copies of arrays hold them.
ghost use Rattle.std.specs.Prelude.{◌≡◌, IfOk, IsOkUnless};
ghost use Rattle.column_core.specs.FlatColumn.{leaf_of};
ghost use Rattle.column_core.specs.FlatView.{leaf_in};

use column_core::{BitBuffer, FlatColumn, FlatView, VortexError, VortexResult};
use std::alloc::Allocator;

/// Says how a copy holds its buffers.
#[derive(Clone, Copy)]
pub(crate) enum Buffers {
    /// Shares them with the array where those of the array are shared.
    Shared,
    /// Shares none of them.
    Compact,
}

/// Returns a copy of the column in its form. Refused only as `OutOfMemory`.
pub(crate) fn copy_flat<A: Allocator + Copy>(
    alloc: A,
    column: FlatView<'_, A>,
    buffers: Buffers,
) -> VortexResult<FlatColumn<A>>
    ensures only { IsOkUnless result VortexError.OutOfMemory }
    ensures form { IfOk result (λ copy. leaf_of copy ≡ leaf_in column.entry) }
{
    match buffers {
        Buffers::Shared => column.try_clone(alloc),
        Buffers::Compact => compact_flat(alloc, column),
    }
}

fn compact_flat<A: Allocator + Copy>(
    alloc: A,
    column: FlatView<'_, A>,
) -> VortexResult<FlatColumn<A>>
    ensures only { IsOkUnless result VortexError.OutOfMemory }
    ensures form { IfOk result (λ copy. leaf_of copy ≡ leaf_in column.entry) }
{
    match column {
        FlatView::Primitive(array) => Ok(FlatColumn::Primitive(array.compact(alloc)?)),
        FlatView::Bool(array) => Ok(FlatColumn::Bool(array.compact(alloc)?)),
        FlatView::Decimal(array) => Ok(FlatColumn::Decimal(array.compact(alloc)?)),
        FlatView::VarBinView(array) => Ok(FlatColumn::VarBinView(array.compact(alloc)?)),
    }
}

/// Returns a copy of the bits. Refused only as `OutOfMemory`.
pub(crate) fn copy_bits<A: Allocator + Copy>(
    alloc: A,
    bits: &BitBuffer<A>,
    buffers: Buffers,
) -> VortexResult<BitBuffer<A>>
    ensures only { IsOkUnless result VortexError.OutOfMemory }
    ensures bits { IfOk result (λ copy. copy ≡ bits.now) }
{
    match buffers {
        Buffers::Shared => bits.try_clone(alloc),
        Buffers::Compact => bits.compact(alloc),
    }
}
