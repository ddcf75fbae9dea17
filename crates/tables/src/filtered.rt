//! The rows of a table that a mask selects, or a comparison.
ghost use Rattle.std.specs.Prelude.{◌≡◌, IfErr, IfOk, IsOkUnless, None, count_by, length, map, option_map};
ghost use Rattle.std.specs.Option.{option_or};
ghost use Rattle.column_base.specs.Mask.{mask_bits};
ghost use Rattle.column_core.specs.Value.{Single};
ghost use Rattle.column_ops.specs.Filter.{filter_fault, filter_rows};
ghost use Rattle.runend_array.specs.Array.{dtype_of, rows};
ghost use Rattle.row_stretches.specs.Masks.{mask_fault, truths_of};
ghost use Rattle.tables.specs.Selected.{IsFilterByError, IsFilteredBy};
ghost use Rattle.tables.specs.TableFaults.{IsRefusedFirstBy};
ghost use Rattle.tables.specs.Tables.{IsKept, rows_of};

use crate::columns::selected_of_each;
use crate::comparisons::compare_value;
use crate::fault::TableError;
use crate::masks::mask_by_bits;
use crate::names::copies_of;
use crate::refusals::fault_of_mask;
use crate::table::Table;
use column_core::{Mask, Scalar, VortexError, VortexResult};
use column_ops::CompareOperator;
use row_stretches::true_stretches;
use runend_array::{ArrayRef, ExecutionCtx};
use std::alloc::Allocator;

impl<A: Allocator + Copy> Table<A> {
    /// Returns the rows at which a mask of any form is true, in order, of each column, under the same names and
    /// formats. Null selects nothing. The mask is read once, for all columns: as stretches of rows, or by bits where it
    /// is flat, or has more runs than a run for 64 rows.
    ///
    /// Refused as `TypeMismatch` unless the mask is of booleans, then as `MaskLength`, with the mask's length and the
    /// number of rows, where they differ, both however little memory there is; else only as `OutOfMemory`.
    pub fn filter(&self, mask: &ArrayRef<A>, ctx: &mut ExecutionCtx<A>) -> VortexResult<Table<A>>
        ensures refused { IsRefusedFirstBy (option_or (mask_fault (dtype_of mask.now))
            (filter_fault (length (rows mask.now)) self.now.count)) result }
        ensures rows { IfOk result (λ table. rows_of table ≡
            map (filter_rows (truths_of (rows mask.now))) (rows_of self.now)) }
        ensures count { IfOk result (λ table. table.count ≡ count_by (λ bit. bit) (truths_of (rows mask.now))) }
        ensures kept { IfOk result (IsKept self.now) }
        ensures session { ctx.new ≡ ctx.old }
    {
        if let Some(error) = fault_of_mask(mask.dtype(), mask.len(), self.rows) {
            return Err(error);
        }
        match mask_by_bits(mask, ctx)? {
            Some(bits) => {
                let kept = self.rows_selected(&bits, ctx);
                drop(bits);
                kept
            }
            None => {
                let order = true_stretches(mask, ctx)?;
                let kept = self.rows_in(&order, ctx);
                drop(order);
                kept
            }
        }
    }

    /// Returns the rows at which the operator holds of the row of the column of this name and the value, in order, of
    /// each column, under the same names and formats. It does not hold where either is null. Takes a step for each run.
    ///
    /// Refused as `UnknownName` where no column has the name, then as `Refused(Unsupported)` where that column has
    /// lists, and as `Refused(TypeMismatch)` for a value of another kind, however little memory there is; else only as
    /// `Refused(OutOfMemory)`.
    pub fn filter_by(
        &self,
        name: &str,
        operator: CompareOperator,
        value: &Scalar<A>,
        ctx: &mut ExecutionCtx<A>,
    ) -> Result<Table<A>, TableError>
        ensures filtered { IfOk result (IsFilteredBy self.now name.now operator value.now.dtype
            (option_map Single value.now.value)) }
        ensures refused { IfErr result (IsFilterByError self.now name.now value.now.dtype) }
        ensures kept { IfOk result (IsKept self.now) }
        ensures session { ctx.new ≡ ctx.old }
    {
        let Some(column) = self.column(name) else {
            return Err(TableError::UnknownName { name: 0 });
        };
        let mask = compare_value(&column.array, operator, value, ctx)?;
        let kept = self.filter(&mask, ctx);
        drop(mask);
        Ok(kept?)
    }
}

impl<A: Allocator + Copy> Table<A> {
    // The rows of each column at which a bit is true, one for each row.
    fn rows_selected(&self, mask: &Mask<A>, ctx: &mut ExecutionCtx<A>) -> VortexResult<Table<A>>
        requires fits { length (mask_bits mask.now) ≡ self.now.count }
        ensures only { IsOkUnless result VortexError.OutOfMemory }
        ensures rows { IfOk result (λ table. rows_of table ≡
            map (filter_rows (mask_bits mask.now)) (rows_of self.now)) }
        ensures count { IfOk result (λ table. table.count ≡ count_by (λ bit. bit) (mask_bits mask.now)) }
        ensures kept { IfOk result (IsKept self.now) }
        ensures session { ctx.new ≡ ctx.old }
    {
        let names = copies_of(*ctx.allocator(), &self.names)?;
        let columns = match selected_of_each(&self.columns, self.rows, mask, ctx) {
            Ok(columns) => columns,
            Err(error) => {
                drop(names);
                return Err(error);
            }
        };
        let rows = mask.true_count();
        Ok(Table {
            names,
            columns,
            rows,
        })
    }
}
