//! Arrays in a flat form.
ghost use Rattle.std.specs.Prelude.{◌≡◌, length, IfOk, IsOkUnless};
ghost use Rattle.column_core.specs.FlatColumn.{leaf_of};
ghost use Rattle.runend_array.specs.Array.{column_of};
ghost use Rattle.column_core.specs.PrimitiveForm.{primitive_dtype};
ghost use Rattle.runend_windows.specs.Window.{IsWindow};
ghost use Rattle.runend_windows.specs.Ends.{IsEndsType, ends_of};
ghost use Rattle.runend_array.specs.Column.{OfLeaf, column_dtype, column_rows};
ghost use Rattle.runend_windows.specs.Window.{run_rows};
ghost use Rattle.runend_array.specs.Encoding.{IsComputedFlat};
ghost use Rattle.runend_array.specs.Canonical.{canonical_column};

use crate::array_ref::{ArrayRef, of_lists};
use crate::lists::ListViewArray;
use column_core::{FlatColumn, PrimitiveArray, VortexError, VortexResult};
use runend_windows::decode_flat;
use std::alloc::Allocator;

/// Holds an array in a flat form: rows that are stored one by one, or lists.
#[derive(Drop)]
pub enum Canonical<A: Allocator> {
    Flat(FlatColumn<A>),
    List(ListViewArray<A>),
}

/// Returns a flat column as an array. Takes no memory.
pub fn array_of<A: Allocator + Copy>(flat: FlatColumn<A>) -> ArrayRef<A>
    ensures { column_of result ≡ OfLeaf (leaf_of flat) }
{
    match flat {
        FlatColumn::Primitive(array) => ArrayRef::Primitive(array),
        FlatColumn::Bool(array) => ArrayRef::Bool(array),
        FlatColumn::Decimal(array) => ArrayRef::Decimal(array),
        FlatColumn::VarBinView(array) => ArrayRef::VarBinView(array),
    }
}

impl<A: Allocator + Copy> Canonical<A> {
    /// Returns the column as an array, in its form. Refused only as `OutOfMemory`.
    pub fn into_array(self, alloc: A) -> VortexResult<ArrayRef<A>>
        ensures only { IsOkUnless result VortexError.OutOfMemory }
        ensures form { IfOk result (λ array. column_of array ≡ canonical_column self) }
    {
        match self {
            Canonical::Flat(array) => Ok(array_of(array)),
            Canonical::List(lists) => of_lists(alloc, lists),
        }
    }

    /// Returns the `count` rows, from row `offset` on, that runs of these values show, in a flat form, with 0, false or
    /// the view of nothing under null. From `prefill_runs` runs on, all rows of booleans are first filled with what
    /// most runs show; the answer is the same. Refused only as `OutOfMemory`.
    pub fn decode_with(
        self,
        alloc: A,
        ends: &PrimitiveArray<A>,
        offset: usize,
        count: usize,
        prefill_runs: usize,
    ) -> VortexResult<Canonical<A>>
        requires plain { IsEndsType (primitive_dtype ends.now) }
        requires window { IsWindow (ends_of ends.now) offset count }
        requires paired { length (column_rows (canonical_column self)) ≡ length ends.now.numbers }
        ensures only { IsOkUnless result VortexError.OutOfMemory }
        ensures rows { IfOk result (λ flat. column_rows (canonical_column flat) ≡
            run_rows (ends_of ends.now) (column_rows (canonical_column self)) offset count) }
        ensures dtype { IfOk result (λ flat. column_dtype (canonical_column flat) ≡
            column_dtype (canonical_column self)) }
        ensures form { IfOk result (λ flat. IsComputedFlat (canonical_column flat)) }
    {
        match self {
            Canonical::Flat(values) => {
                let array = decode_flat(alloc, ends, values.view(), offset, count, prefill_runs);
                drop(values);
                Ok(Canonical::Flat(array?))
            }
            Canonical::List(lists) => {
                let made = lists.decode_with(alloc, ends, offset, count);
                drop(lists);
                let shown = made?;
                Ok(Canonical::List(shown))
            }
        }
    }
}
