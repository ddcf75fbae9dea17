//! A column put into a table: in the place of another one, or after the last.
ghost use Rattle.std.specs.Prelude.{◌≡◌, ◌<◌, ◌↔◌, IfErr, IsOkUnless, IsTrue, OnErr, OnOk, length, slice_set, vec_len};
ghost use Rattle.std.specs.Vec.{vec_capacity};
ghost use Rattle.std.specs.String.{string_bytes};
ghost use Rattle.runend_array.specs.Array.{rows};
ghost use Rattle.tables.specs.Put.{IsAdded, Takes};
ghost use Rattle.tables.specs.Tables.{IsUnknown};
ghost use Rattle.typed_columns.specs.Typed.{typed_of};
ghost use Rattle.tables.specs.declared.fault.TableError.TheVariants.{Refused};

use crate::fault::TableError;
use crate::table::Table;
use column_core::{VortexError, VortexResult};
use std::alloc::Allocator;
use std::mem;
use typed_columns::TypedColumn;

impl<A: Allocator + Copy> Table<A> {
    /// Returns whether a column of this number of rows may be put: any to a table that has neither columns nor rows.
    pub(crate) fn takes(&self, rows: usize) -> bool
        ensures { IsTrue result ↔ Takes self.now rows }
    {
        rows == self.rows || (self.columns.is_empty() && self.rows == 0)
    }

    /// Puts a column in the place of another one.
    pub(crate) fn replace(&mut self, place: usize, column: TypedColumn<A>)
        requires there { place < length self.old.columns }
        requires takes { Takes self.old (length (rows column.array)) }
        ensures names { self.new.names ≡ self.old.names }
        ensures columns { self.new.columns ≡ slice_set self.old.columns place (typed_of column) }
        ensures count { self.new.count ≡ length (rows column.array) }
    {
        self.rows = column.array.len();
        let old = mem::replace(&mut self.columns[place], column);
        drop(old);
    }

    /// Puts a column after the last, under a name that no other one has.
    pub(crate) fn push(&mut self, name: String<A>, column: TypedColumn<A>) -> Result<(), TableError>
        requires unknown { IsUnknown self.old.names (string_bytes name) }
        requires takes { Takes self.old (length (rows column.array)) }
        ensures only { IfErr result (λ error. error ≡ Refused VortexError.OutOfMemory) }
        ensures added { OnOk result (IsAdded self.old (string_bytes name) (typed_of column) self.new) }
        ensures count { OnOk result (self.new.count ≡ length (rows column.array)) }
        ensures kept { OnErr result (self.new ≡ self.old) }
    {
        if let Err(error) = reserve_one(&mut self.names, &mut self.columns) {
            drop(column);
            drop(name);
            return Err(TableError::Refused(error));
        }
        self.rows = column.array.len();
        self.names.push_reserved(name);
        self.columns.push_reserved(column);
        Ok(())
    }
}

// Reserves the place of one name and one column more. Refused only as `OutOfMemory`.
fn reserve_one<A: Allocator + Copy>(
    names: &mut Vec<String<A>, A>,
    columns: &mut Vec<TypedColumn<A>, A>,
) -> VortexResult<()>
    ensures only { IsOkUnless result VortexError.OutOfMemory }
    ensures names { names.new.items ≡ names.old.items }
    ensures columns { columns.new.items ≡ columns.old.items }
    ensures room_for_name { OnOk result (vec_len names.new < vec_capacity names.new) }
    ensures room_for_column { OnOk result (vec_len columns.new < vec_capacity columns.new) }
{
    names.reserve(1)?;
    columns.reserve(1)?;
    Ok(())
}
