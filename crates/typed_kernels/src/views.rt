//! One row of a column, by what its rows are worked as.
ghost use Rattle.std.specs.Prelude.{IfOk, IsSomeAnd, length, slice_get};
ghost use Rattle.column_core.specs.Refusal.{row_fault};
ghost use Rattle.column_core.specs.ScalarView.{sees};
ghost use Rattle.column_floats.specs.Formats.{IsRefusedOnlyBy};
ghost use Rattle.runend_array.specs.Array.{dtype_of, rows};
ghost use Rattle.typed_columns.specs.Typed.{typed_of};
ghost use Rattle.typed_kernels.specs.Served.{served};
ghost use Rattle.typed_kernels.specs.Views.{IsFloatShown, IsKeyView, IsShownAs};

use crate::meanings::Served;
use column_core::{ScalarView, VortexResult};
use float_bits::{FloatFormat, from_total_key};
use std::alloc::Allocator;
use typed_columns::TypedColumn;

/// Shows one row of a column, borrowed from it.
#[derive(Clone, Copy)]
pub enum TypedView<'a, A: Allocator> {
    /// Shows a row as it is stored, a number of times among these, and null of any column.
    Stored(ScalarView<'a, A>),
    /// Shows a float of this format by its bits.
    Float(FloatFormat, u64),
}

/// Returns the row at `index`. Refused as `OutOfBounds`, with the index and the number of rows, exactly from that
/// number on. Takes no memory.
#[tactic(auto, using(crate::proofs::TypedViews::key_view, crate::proofs::TypedViews::float_row, crate::proofs::TypedViews::stored_row))]
pub fn typed_at<A: Allocator + Copy>(
    column: &TypedColumn<A>,
    index: usize,
) -> VortexResult<TypedView<'_, A>>
    ensures refused { IsRefusedOnlyBy (row_fault index (length (rows column.now.array))) result }
    ensures row { IfOk result (λ view. IsSomeAnd (slice_get (rows column.now.array) index)
        (λ row. IsShownAs (served (typed_of column.now)) (dtype_of column.now.array) row view)) }
{
    let view = column.array.scalar_at(index)?;
    match Served::of(column) {
        Served::Floats(format) => Ok(float_view(format, view)),
        _ => Ok(TypedView::Stored(view)),
    }
}

// Shows the float that has the key that a view shows, and null as it is.
#[tactic(auto, using(column_floats::proofs::KeyBounds::bits_of_total_key))]
fn float_view<'a, A: Allocator>(format: FloatFormat, key: ScalarView<'a, A>) -> TypedView<'a, A>
    requires { IsKeyView format key }
    ensures { IsFloatShown format (sees key.entry) result }
{
    match key {
        ScalarView::Signed(number) => TypedView::Float(format, from_total_key(format, number)),
        _ => TypedView::Stored(key),
    }
}
