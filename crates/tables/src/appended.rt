//! The rows of one table put after those of another.
ghost use Rattle.std.specs.Prelude.{◌≡◌, IfOk, IsOkUnless, MatchOption};
ghost use Rattle.tables.specs.Appended.{IsAppendError, IsAppendable, IsAppended};

use crate::fault::TableError;
use crate::joined::{fault_of_joining, first_other_type, join_each};
use crate::names::copies_of;
use crate::table::Table;
use column_core::{VortexError, VortexResult};
use runend_array::ExecutionCtx;
use std::alloc::Allocator;

impl<A: Allocator + Copy> Table<A> {
    /// Returns why the rows of the other table are not put after those of the table, if they are not.
    pub(crate) fn fault_of_append(&self, other: &Table<A>) -> Option<TableError>
        ensures { MatchOption result (IsAppendable self.now other.now) (IsAppendError self.now other.now) }
    {
        if self.names != other.names {
            return Some(TableError::OtherNames);
        }
        if let Some(column) = first_other_type(&self.columns, &other.columns) {
            return Some(TableError::OtherType { column });
        }
        let error = fault_of_joining(&self.columns, self.rows, other.rows)?;
        Some(TableError::Refused(error))
    }

    /// Returns the rows of the other table after those of the table.
    pub(crate) fn joined(
        &self,
        other: &Table<A>,
        ctx: &mut ExecutionCtx<A>,
    ) -> VortexResult<Table<A>>
        requires appendable { IsAppendable self.now other.now }
        ensures only { IsOkUnless result VortexError.OutOfMemory }
        ensures appended { IfOk result (IsAppended self.now other.now) }
        ensures session { ctx.new ≡ ctx.old }
    {
        let names = copies_of(*ctx.allocator(), &self.names)?;
        let columns = match join_each(&self.columns, &other.columns, self.rows, other.rows, ctx) {
            Ok(columns) => columns,
            Err(error) => {
                drop(names);
                return Err(error);
            }
        };
        let rows = self.rows + other.rows;
        Ok(Table {
            names,
            columns,
            rows,
        })
    }
}
