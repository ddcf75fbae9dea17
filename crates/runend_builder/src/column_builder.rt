//! A flat column that grows at its end.
ghost use Rattle.std.specs.Prelude.{◌≡◌, ◌≤◌, ◌++◌, ◌∷◌, [], IfOk, IsOkUnless, OnErr, OnOk, drop, length};
ghost use Rattle.column_core.specs.Computed.{IsComputedLeaf};
ghost use Rattle.column_core.specs.FlatColumn.{leaf_of};
ghost use Rattle.column_core.specs.FlatView.{leaf_in};
ghost use Rattle.column_core.specs.Leaf.{leaf_dtype, leaf_rows, single_rows};
ghost use Rattle.column_core.specs.ScalarView.{IsViewOf, sees};
ghost use Rattle.column_core.specs.Value.{IsLists};

use crate::bits::append_flags;
use crate::columns::column_of;
use crate::items::{Items, append_items, no_items};
use crate::row_items::{is_valid, push_item};
use crate::taken::taken_column;
use column_core::{
    DType, FlatColumn, FlatView, Nullability, ScalarView, VortexError, VortexResult,
};
use std::alloc::Allocator;
use std::marker::Model;
use std::mem::replace;

/// Holds the rows of a flat column of any type but lists, which grows at its end. Items are held as a column stores
/// them, texts and bytes one after the other in one buffer, and a flag of a byte for each row.
#[derive(Drop)]
pub struct FlatBuilder<A: Allocator> {
    nullability: Nullability,
    items: Items<A>,
    /// Says which rows are not null.
    flags: Vec<bool, A>,
}

impl<A: Allocator> Model for FlatBuilder<A> {
    ghost use Rattle.column_core.specs.Value.{PlainColumn};
    ghost use Rattle.runend_builder.specs.Items.{IsGrown, grown_column, stored_in};

    ghost Value = { PlainColumn };

    ghost view = { λ b. grown_column (stored_in b.items) b.flags.items b.nullability };

    ghost invariant = { λ b. IsGrown (stored_in b.items) b.flags.items b.nullability };
}

impl<A: Allocator + Copy> FlatBuilder<A> {
    /// Returns a column of this type, which is not a type of lists, without rows. Takes no memory.
    pub fn new(alloc: A, dtype: DType) -> Self
        requires { ¬ IsLists dtype }
        ensures dtype { result.dtype ≡ dtype }
        ensures rows { result.rows ≡ [] }
    {
        FlatBuilder {
            nullability: dtype.nullability(),
            items: no_items(alloc, dtype),
            flags: Vec::new(alloc),
        }
    }

    /// Appends the rows of a column of the same type from row `start` on, in memory of their own. Refused only as
    /// `OutOfMemory`, and then the rows stay as they are.
    ///
    /// The column has to have the form that calls compute (`IsComputedLeaf`): it stores 0, false or the view of nothing
    /// under null, has bits of validity only for rows of both kinds, and is `AllInvalid` only where it has a row.
    /// `to_column` and `take_column` here return such columns, and so do `take`, `filter`, `fill_null` and `cast` of
    /// `column_ops`; the values of an encoding are one. Any other flat column becomes one by a `cast` to its own type.
    pub fn append(&mut self, column: FlatView<'_, A>, start: usize) -> VortexResult<()>
        requires typed { leaf_dtype (leaf_in column) ≡ self.old.dtype }
        requires computed { IsComputedLeaf (leaf_in column) }
        requires within { start ≤ length (leaf_rows (leaf_in column)) }
        ensures only { IsOkUnless result VortexError.OutOfMemory }
        ensures rows { OnOk result (self.new.rows ≡
            self.old.rows ++ drop start (single_rows (leaf_in column.entry))) }
        ensures kept { OnErr result (self.new.rows ≡ self.old.rows) }
        ensures dtype { self.new.dtype ≡ self.old.dtype }
    {
        let count = self.flags.len();
        append_flags(&mut self.flags, column.validity(), start, column.len())?;
        let appended = append_items(&mut self.items, column, start);
        if appended.is_err() {
            self.flags.truncate(count);
        }
        appended
    }

    /// Appends one row of the same type, a value or null. Refused only as `OutOfMemory`, and then the rows stay as they
    /// are.
    pub fn push(&mut self, row: ScalarView<'_, A>) -> VortexResult<()>
        requires { IsViewOf self.old.dtype row }
        ensures only { IsOkUnless result VortexError.OutOfMemory }
        ensures rows { OnOk result (self.new.rows ≡ self.old.rows ++ sees row.entry ∷ []) }
        ensures kept { OnErr result (self.new.rows ≡ self.old.rows) }
        ensures dtype { self.new.dtype ≡ self.old.dtype }
    {
        self.flags.reserve(1)?;
        push_item(&mut self.items, row)?;
        self.flags.push_reserved(is_valid(row));
        Ok(())
    }

    /// Returns the rows as a flat column with memory of its own, as a call computes it: 0, false or the view of nothing
    /// is stored under null, and texts and bytes are in one buffer. Refused only as `OutOfMemory`.
    pub fn to_column(&self, alloc: A) -> VortexResult<FlatColumn<A>>
        ensures only { IsOkUnless result VortexError.OutOfMemory }
        ensures rows { IfOk result (λ column. single_rows (leaf_of column) ≡ self.now.rows) }
        ensures dtype { IfOk result (λ column. leaf_dtype (leaf_of column) ≡ self.now.dtype) }
        ensures computed { IfOk result (λ column. IsComputedLeaf (leaf_of column)) }
    {
        column_of(alloc, &self.items, &self.flags, self.nullability)
    }

    /// Returns the same column in the builder's own memory: numbers, views and bytes of texts are moved to it, with the
    /// room that they had in reserve, and bits and flags are packed. Then the builder has no rows, holds no memory and
    /// takes rows of its type again. Refused only as `OutOfMemory`, and then the rows stay as they are.
    pub fn take_column(&mut self, alloc: A) -> VortexResult<FlatColumn<A>>
        ensures only { IsOkUnless result VortexError.OutOfMemory }
        ensures rows { IfOk result (λ column. single_rows (leaf_of column) ≡ self.old.rows) }
        ensures dtype { IfOk result (λ column. leaf_dtype (leaf_of column) ≡ self.old.dtype) }
        ensures computed { IfOk result (λ column. IsComputedLeaf (leaf_of column)) }
        ensures empty { OnOk result (self.new.rows ≡ []) }
        ensures kept { OnErr result (self.new.rows ≡ self.old.rows) }
        ensures same_type { self.new.dtype ≡ self.old.dtype }
    {
        let column = taken_column(alloc, &mut self.items, &self.flags, self.nullability)?;
        drop(replace(&mut self.flags, Vec::new(alloc)));
        Ok(column)
    }
}
