//! The encoders of flat columns of any kind, and of runs over them.
ghost use Rattle.std.specs.Prelude.{◌≡◌, ◌<◌, ℕ, IfOk, IsOkUnless, length};
ghost use Rattle.column_core.specs.FlatColumn.{leaf_of};
ghost use Rattle.column_core.specs.FlatView.{leaf_in};
ghost use Rattle.column_core.specs.Leaf.{leaf_dtype, leaf_rows, single_rows};
ghost use Rattle.column_core.specs.PrimitiveForm.{primitive_dtype};
ghost use Rattle.runend_windows.specs.Ends.{IsEndsType, ends_of};
ghost use Rattle.runend_windows.specs.Visible.{HasRow};
ghost use Rattle.runend_windows.specs.Window.{IsWindow, run_rows};
ghost use Rattle.runend_encode.specs.Encoding.{AreRunValues, IsRowEncoding};

use crate::least::least_ends;
use crate::row_changes::RowChanges;
use crate::row_ends::row_ends;
use crate::run_ends::{RunBounds, run_ends};
use column_core::{FlatColumn, FlatView, PrimitiveArray, Validity, VortexError, VortexResult};
use runend_windows::encode_plain;
use std::alloc::Allocator;

/// Returns the ends and the values of the runs of a flat column, both flat: a run for each longest stretch of equal
/// rows, null being equal to null. Ends are of the least unsigned type that holds the last of them. Values are of the
/// column's type, with 0, false or the view of nothing stored under null; texts and bytes share the column's buffers.
/// Refused only as `OutOfMemory`.
pub fn encode_flat<A: Allocator + Copy>(
    alloc: A,
    column: FlatView<'_, A>,
) -> VortexResult<(PrimitiveArray<A>, FlatColumn<A>)>
    ensures only { IsOkUnless result VortexError.OutOfMemory }
    ensures encoding { IfOk result (λ parts. IsRowEncoding (single_rows (leaf_in column.entry))
        (leaf_dtype (leaf_in column.entry)) parts.0 (leaf_of parts.1)) }
{
    match column {
        FlatView::Primitive(array) => {
            let (ends, values) = encode_plain(alloc, array)?;
            Ok((ends, FlatColumn::Primitive(values)))
        }
        FlatView::Bool(array) => {
            let (ends, values) = encode_rows(alloc, array)?;
            Ok((ends, FlatColumn::Bool(values)))
        }
        FlatView::Decimal(array) => {
            let (ends, values) = encode_rows(alloc, array)?;
            Ok((ends, FlatColumn::Decimal(values)))
        }
        FlatView::VarBinView(array) => {
            let (ends, values) = encode_rows(alloc, array)?;
            Ok((ends, FlatColumn::VarBinView(values)))
        }
    }
}

/// Returns the ends and the values of the runs of the rows that runs with these ends and values show, `count` of them
/// from position `offset` on, as `encode_flat` makes them. Looks at runs and holds runs, and not rows. Each run has to
/// show a row, so hidden runs are dropped before. Refused only as `OutOfMemory`.
pub fn encode_runs<A: Allocator + Copy>(
    alloc: A,
    ends: &PrimitiveArray<A>,
    values: &FlatColumn<A>,
    offset: usize,
    count: usize,
) -> VortexResult<(PrimitiveArray<A>, FlatColumn<A>)>
    requires plain { IsEndsType (primitive_dtype ends.now) }
    requires window { IsWindow (ends_of ends.now) offset count }
    requires paired { length (leaf_rows (leaf_of values.now)) ≡ length (ends_of ends.now) }
    requires shown { (run : ℕ) → run < length (ends_of ends.now) → HasRow (ends_of ends.now) offset count run }
    ensures only { IsOkUnless result VortexError.OutOfMemory }
    ensures encoding { IfOk result (λ parts. IsRowEncoding (run_rows (ends_of ends.now)
        (single_rows (leaf_of values.now)) offset count)
        (leaf_dtype (leaf_of values.now)) parts.0 (leaf_of parts.1)) }
{
    match values {
        FlatColumn::Primitive(array) => {
            let (ends, values) = encode_shown(alloc, ends, array, offset, count)?;
            Ok((ends, FlatColumn::Primitive(values)))
        }
        FlatColumn::Bool(array) => {
            let (ends, values) = encode_shown(alloc, ends, array, offset, count)?;
            Ok((ends, FlatColumn::Bool(values)))
        }
        FlatColumn::Decimal(array) => {
            let (ends, values) = encode_shown(alloc, ends, array, offset, count)?;
            Ok((ends, FlatColumn::Decimal(values)))
        }
        FlatColumn::VarBinView(array) => {
            let (ends, values) = encode_shown(alloc, ends, array, offset, count)?;
            Ok((ends, FlatColumn::VarBinView(values)))
        }
    }
}

// Where the runs of a column end, whose rows are looked up one by one, and their values.
fn runs_of<R: RowChanges<A>, A: Allocator + Copy>(
    alloc: A,
    column: &R,
) -> VortexResult<(RunBounds<A>, R)>
    ensures only { IsOkUnless result VortexError.OutOfMemory }
    ensures runs { IfOk result (λ parts. AreRunValues (single_rows (R.leaf column.now))
        (leaf_dtype (R.leaf column.now)) parts.0 (R.leaf parts.1)) }
{
    let bounds = run_ends(alloc, column)?;
    let values = column.take_at(alloc, bounds.starts(), &Validity::NonNullable)?;
    Ok((bounds, values))
}

// The encoding of such a column.
fn encode_rows<R: RowChanges<A>, A: Allocator + Copy>(
    alloc: A,
    column: &R,
) -> VortexResult<(PrimitiveArray<A>, R)>
    ensures only { IsOkUnless result VortexError.OutOfMemory }
    ensures encoding { IfOk result (λ parts. IsRowEncoding (single_rows (R.leaf column.now))
        (leaf_dtype (R.leaf column.now)) parts.0 (R.leaf parts.1)) }
{
    let (bounds, values) = runs_of(alloc, column)?;
    let ends = least_ends(alloc, bounds.ends())?;
    Ok((ends, values))
}

// The encoding of the rows that runs over such a column show. Where neighbours have equal values, the runs of the
// values say which runs are joined.
fn encode_shown<R: RowChanges<A>, A: Allocator + Copy>(
    alloc: A,
    ends: &PrimitiveArray<A>,
    values: &R,
    offset: usize,
    count: usize,
) -> VortexResult<(PrimitiveArray<A>, R)>
    requires plain { IsEndsType (primitive_dtype ends.now) }
    requires window { IsWindow (ends_of ends.now) offset count }
    requires paired { length (leaf_rows (R.leaf values.now)) ≡ length (ends_of ends.now) }
    requires shown { (run : ℕ) → run < length (ends_of ends.now) → HasRow (ends_of ends.now) offset count run }
    ensures only { IsOkUnless result VortexError.OutOfMemory }
    ensures encoding { IfOk result (λ parts. IsRowEncoding (run_rows (ends_of ends.now)
        (single_rows (R.leaf values.now)) offset count)
        (leaf_dtype (R.leaf values.now)) parts.0 (R.leaf parts.1)) }
{
    let (joined, values) = runs_of(alloc, values)?;
    let joined_ends = row_ends(alloc, ends, joined.ends(), offset, count)?;
    let joined_ends = least_ends(alloc, joined_ends.as_slice())?;
    Ok((joined_ends, values))
}
