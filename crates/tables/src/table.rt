//! Tables as values: each call lends one and returns another.
ghost use Rattle.std.specs.Prelude.{◌≡◌, ◌-◌, ◌^◌, ◌<◌, ◌≤◌, [], All, IfErr, IfNone, IfOk, IfSome, IsOkUnless, None, OnErr, OnOk, length, map, slice_range};
ghost use Rattle.std.specs.List.{AllZip};
ghost use Rattle.std.specs.String.{string_bytes};
ghost use Rattle.column_core.specs.PrimitiveForm.{optional_numbers, primitive_dtype};
ghost use Rattle.column_core.specs.Refusal.{range_fault};
ghost use Rattle.column_ops.specs.Take.{take_fault};
ghost use Rattle.runend_array.specs.Array.{rows};
ghost use Rattle.row_stretches.specs.Stretches.{IsWithin, stretch_places, stretch_rows};
ghost use Rattle.tables.specs.Appended.{IsAppendError, IsAppendable, IsAppended};
ghost use Rattle.tables.specs.Put.{IsPut, IsPutError};
ghost use Rattle.tables.specs.Selected.{IsTaken};
ghost use Rattle.tables.specs.TableFaults.{IsNamingError, IsRefusedFirstBy, IsRenameError, IsSelectError, IsTableError};
ghost use Rattle.tables.specs.Tables.{IsKept, IsKnown, IsNamed, IsPlaceOf, IsRenaming, IsSelection, IsTable, IsUnknown, rows_of, table_with};
ghost use Rattle.typed_columns.specs.Typed.{typed_of};

use crate::columns::{copies_of_each, part_of_each, stretches_of_each};
use crate::fault::TableError;
use crate::names::{Named, copies_of, first_repeated, place_for, place_of, renamed};
use crate::refusals::{fault_of_indices, fault_of_names, fault_of_parts, fault_of_range};
use crate::taken::taken_of_each;
use column_core::{PrimitiveArray, VortexError, VortexResult};
use row_stretches::{Stretch, row_count};
use runend_array::{ArrayRef, ExecutionCtx};
use std::alloc::Allocator;
use std::marker::Model;
use std::ops::Range;
use typed_columns::TypedColumn;

/// Holds named columns of one number of rows, which is there also without columns. No name is there twice.
#[derive(Drop)]
pub struct Table<A: Allocator> {
    pub(crate) names: Vec<String<A>, A>,
    // The column of each name.
    pub(crate) columns: Vec<TypedColumn<A>, A>,
    pub(crate) rows: usize,
}

impl<A: Allocator> Model for Table<A> {
    ghost use Rattle.std.specs.Prelude.{map};
    ghost use Rattle.std.specs.String.{string_bytes};
    ghost use Rattle.tables.specs.Tables.{IsTable, TableForm, table_code, table_with};
    ghost use Rattle.typed_columns.specs.Typed.{typed_of};

    ghost Value = { TableForm };

    ghost coded = { table_code };

    ghost view = { λ t. table_with (map string_bytes t.names.items) (map typed_of t.columns.items) t.rows };

    ghost invariant = { λ t. IsTable (table_with (map string_bytes t.names.items) (map typed_of t.columns.items)
        t.rows) };
}

impl<A: Allocator + Copy> Table<A> {
    /// Returns the table without columns that has `rows` rows. Takes no memory.
    pub fn new(alloc: A, rows: usize) -> Self
        ensures { result ≡ table_with [] [] rows }
    {
        Table {
            names: Vec::new(alloc),
            columns: Vec::new(alloc),
            rows,
        }
    }

    /// Returns the columns under these names, each at the place of its name. Takes no memory. Refused, in this order,
    /// as `NameCount` where there is not one name for each column; as `RowCount` at the first column that has not
    /// `rows` rows; and as `RepeatedName` at the first name that an earlier one is equal to.
    pub fn try_new(
        names: Vec<String<A>, A>,
        columns: Vec<TypedColumn<A>, A>,
        rows: usize,
    ) -> Result<Self, TableError>
        ensures table { IfOk result (λ table. table ≡
            table_with (map string_bytes names.items) (map typed_of columns.items) rows) }
        ensures accepted { IfOk result IsTable }
        ensures refused { IfErr result (IsTableError (map string_bytes names.items) (map typed_of columns.items) rows) }
    {
        match fault_of_parts(&names, &columns, rows) {
            Some(error) => Err(error),
            None => Ok(Table {
                names,
                columns,
                rows,
            }),
        }
    }

    /// Returns how many rows each column has.
    pub fn len(&self) -> usize
        ensures { result ≡ self.now.count }
    {
        self.rows
    }

    /// Returns the names, in the order of the columns.
    pub fn names(&self) -> &[String<A>]
        ensures names { map string_bytes result.now ≡ self.now.names }
        ensures table { IsTable self.now }
    {
        &self.names
    }

    /// Returns the columns, in the order of the names.
    pub fn columns(&self) -> &[TypedColumn<A>]
        ensures { map typed_of result.now ≡ self.now.columns }
    {
        &self.columns
    }

    /// Returns the column of this name, or `None` where no column has it.
    pub fn column(&self, name: &str) -> Option<&TypedColumn<A>>
        ensures found { IfSome result (λ column. IsNamed self.now name.now (typed_of column.now)) }
        ensures even { IfSome result (λ column. length (rows column.now.array) ≡ self.now.count) }
        ensures unknown { IfNone result (IsUnknown self.now.names name.now) }
    {
        let place = place_of(&self.names, name)?;
        Some(&self.columns[place])
    }

    /// Returns the columns of these names, in their order, each in the same form and under the same format. Refused, in
    /// this order and however little memory there is, as `RepeatedName` at the first of the names that an earlier one
    /// is equal to, and as `UnknownName` at the first that no column has; else only as `Refused(OutOfMemory)`.
    pub fn select(
        &self,
        names: &[String<A>],
        ctx: &mut ExecutionCtx<A>,
    ) -> Result<Table<A>, TableError>
        ensures selected { IfOk result (IsSelection self.now (map string_bytes names.now)) }
        ensures refused { IfErr result (IsSelectError self.now.names (map string_bytes names.now)) }
        ensures session { ctx.new ≡ ctx.old }
    {
        if let Some(error) = fault_of_names(&self.names, names) {
            return Err(error);
        }
        let copies = copies_of(*ctx.allocator(), names)?;
        let columns = match self.columns_named(names, ctx) {
            Ok(columns) => columns,
            Err(error) => {
                drop(copies);
                return Err(TableError::Refused(error));
            }
        };
        Ok(Table {
            names: copies,
            columns,
            rows: self.rows,
        })
    }

    /// Returns the same columns, those of `names` each under the new name at its place in `new_names`. Refused, in this
    /// order and however little memory there is, as `NewNameCount` where there is not one new name for each name, as
    /// `RepeatedName` at the first of `names` that an earlier one is equal to, and as `UnknownName` at the first that
    /// no column has; else as `RepeatedNewName` at the first column whose name an earlier one then has, or as
    /// `Refused(OutOfMemory)`.
    pub fn rename(
        &self,
        names: &[String<A>],
        new_names: &[String<A>],
        ctx: &mut ExecutionCtx<A>,
    ) -> Result<Table<A>, TableError>
        ensures renamed { IfOk result (IsRenaming self.now (map string_bytes names.now)
            (map string_bytes new_names.now)) }
        ensures refused { IfErr result (IsRenameError self.now.names (map string_bytes names.now)
            (map string_bytes new_names.now)) }
        ensures session { ctx.new ≡ ctx.old }
    {
        if names.len() != new_names.len() {
            return Err(TableError::NewNameCount {
                names: names.len(),
                new_names: new_names.len(),
            });
        }
        if let Some(error) = fault_of_names(&self.names, names) {
            return Err(error);
        }
        let made = renamed(*ctx.allocator(), &self.names, names, new_names)?;
        self.under_names(made, ctx)
    }

    /// Returns the rows from `range.start` to `range.end` - 1 of each column, under the same names and formats. Refused
    /// as `BadRange`, with both bounds and the number of rows, where the start is past the end, or the end past the
    /// rows, however little memory there is; else only as `OutOfMemory`.
    pub fn slice(&self, range: Range<usize>, ctx: &mut ExecutionCtx<A>) -> VortexResult<Table<A>>
        ensures refused { IsRefusedFirstBy (range_fault range.start range.end self.now.count) result }
        ensures rows { IfOk result (λ table. rows_of table ≡
            map (λ all. slice_range all range.start range.end) (rows_of self.now)) }
        ensures count { IfOk result (λ table. table.count ≡ range.end - range.start) }
        ensures kept { IfOk result (IsKept self.now) }
        ensures session { ctx.new ≡ ctx.old }
    {
        if let Some(error) = fault_of_range(range.start, range.end, self.rows) {
            return Err(error);
        }
        self.part(range.start, range.end, ctx)
    }

    /// Returns the row of each column at each index, null at a null index, under the same names and formats. The types
    /// have null where the indices have. The indices are tested once, for all columns.
    ///
    /// Refused as `OutOfBounds`, with the index and the number of rows, at the first valid index that is negative or of
    /// no row, however little memory there is; else only as `OutOfMemory`.
    pub fn take(
        &self,
        indices: &PrimitiveArray<A>,
        ctx: &mut ExecutionCtx<A>,
    ) -> VortexResult<Table<A>>
        ensures refused { IsRefusedFirstBy (take_fault (optional_numbers indices.now) self.now.count) result }
        ensures taken { IfOk result (IsTaken self.now (optional_numbers indices.now) (primitive_dtype indices.now)) }
        ensures session { ctx.new ≡ ctx.old }
    {
        if let Some(error) = fault_of_indices(indices, self.rows) {
            return Err(error);
        }
        self.rows_at(indices, ctx)
    }

    /// Returns the rows of each column and then those of the other table's column of the same place, under the same
    /// names and formats. Each column is the encoding of all its rows, whatever its form was: runs are read and not
    /// rows, except of flat columns.
    ///
    /// Refused, in this order, as `OtherNames` where the names are not the same in the same order; as `OtherType` at
    /// the first column whose type or format is another one (whether null is allowed belongs to a type); as
    /// `Refused(Unsupported)` where a column has lists; and as `Refused(WindowOverflow)` where there were 2^64 rows or
    /// more: all of these before any memory is taken, then only as `Refused(OutOfMemory)`.
    pub fn append(
        &self,
        other: &Table<A>,
        ctx: &mut ExecutionCtx<A>,
    ) -> Result<Table<A>, TableError>
        ensures appended { IfOk result (IsAppended self.now other.now) }
        ensures allowed { IfOk result (λ table. IsAppendable self.now other.now) }
        ensures refused { IfErr result (IsAppendError self.now other.now) }
        ensures session { ctx.new ≡ ctx.old }
    {
        if let Some(error) = self.fault_of_append(other) {
            return Err(error);
        }
        Ok(self.joined(other, ctx)?)
    }

    /// Puts a column under a name: in the place of the column of this name, or after the last where none has it. A
    /// table that has neither columns nor rows takes a column of any number of rows, and has that number then.
    ///
    /// Refused, and the table is as it was, as `RowCount` where the column has another number of rows than the table,
    /// however little memory there is; else only as `Refused(OutOfMemory)`.
    pub fn put(&mut self, name: String<A>, column: TypedColumn<A>) -> Result<(), TableError>
        ensures put { OnOk result (IsPut self.old (string_bytes name) (typed_of column) self.new) }
        ensures refused { IfErr result (IsPutError self.old (string_bytes name) (typed_of column)) }
        ensures kept { OnErr result (self.new ≡ self.old) }
    {
        let place = place_for(&self.names, name.as_str());
        let rows = column.array.len();
        if !self.takes(rows) {
            drop(column);
            drop(name);
            return Err(TableError::RowCount {
                column: place,
                rows,
                wanted: self.rows,
            });
        }
        if place < self.columns.len() {
            drop(name);
            self.replace(place, column);
            return Ok(());
        }
        self.push(name, column)
    }
}

impl<A: Allocator + Copy> Table<A> {
    // Copies of the columns of these names, which all are there.
    pub(crate) fn columns_named<N: Named>(
        &self,
        names: &[N],
        ctx: &mut ExecutionCtx<A>,
    ) -> VortexResult<Vec<TypedColumn<A>, A>>
        requires known { All (IsKnown self.now.names) (map N.named names.now) }
        ensures only { IsOkUnless result VortexError.OutOfMemory }
        ensures columns { IfOk result (λ made. AllZip (IsNamed self.now) (map N.named names.now)
            (map typed_of made.items)) }
        ensures session { ctx.new ≡ ctx.old }
    {
        let mut kept = Vec::with_capacity(*ctx.allocator(), names.len())?;
        for name in names {
            let copy = self.columns[self.place_of(name.name())].try_clone(ctx)?;
            kept.push_reserved(copy);
        }
        Ok(kept)
    }

    // The place of the column of a name, which is there.
    pub(crate) fn place_of(&self, name: &str) -> usize
        requires known { IsKnown self.now.names name.now }
        ensures place { IsPlaceOf self.now.names name.now result }
    {
        place_for(&self.names, name)
    }

    // The same columns under these names, refused where one is repeated.
    fn under_names(
        &self,
        names: Vec<String<A>, A>,
        ctx: &mut ExecutionCtx<A>,
    ) -> Result<Table<A>, TableError>
        requires paired { length names.items ≡ length self.now.names }
        ensures named { IfOk result (λ table. table ≡
            table_with (map string_bytes names.items) self.now.columns self.now.count) }
        ensures refused { IfErr result (IsNamingError (map string_bytes names.items)) }
        ensures session { ctx.new ≡ ctx.old }
    {
        if let Some(found) = first_repeated(&names) {
            drop(names);
            return Err(TableError::RepeatedNewName {
                earlier: found.0,
                column: found.1,
            });
        }
        let columns = match copies_of_each(&self.columns, ctx) {
            Ok(columns) => columns,
            Err(error) => {
                drop(names);
                return Err(TableError::Refused(error));
            }
        };
        Ok(Table {
            names,
            columns,
            rows: self.rows,
        })
    }

    // The rows of these stretches of each column.
    pub(crate) fn rows_in(
        &self,
        order: &[Stretch],
        ctx: &mut ExecutionCtx<A>,
    ) -> VortexResult<Table<A>>
        requires within { All (IsWithin self.now.count) order.now }
        requires small { length (stretch_places order.now) < 2 ^ 64 }
        ensures only { IsOkUnless result VortexError.OutOfMemory }
        ensures rows { IfOk result (λ table. rows_of table ≡
            map (λ all. stretch_rows all order.now) (rows_of self.now)) }
        ensures count { IfOk result (λ table. table.count ≡ length (stretch_places order.now)) }
        ensures kept { IfOk result (IsKept self.now) }
        ensures session { ctx.new ≡ ctx.old }
    {
        let names = copies_of(*ctx.allocator(), &self.names)?;
        let columns = match stretches_of_each(&self.columns, self.rows, order, ctx) {
            Ok(columns) => columns,
            Err(error) => {
                drop(names);
                return Err(error);
            }
        };
        let rows = row_count(order);
        Ok(Table {
            names,
            columns,
            rows,
        })
    }

    // The rows from `start` to `stop` - 1 of each column.
    fn part(&self, start: usize, stop: usize, ctx: &mut ExecutionCtx<A>) -> VortexResult<Table<A>>
        requires ordered { start ≤ stop }
        requires inside { stop ≤ self.now.count }
        ensures only { IsOkUnless result VortexError.OutOfMemory }
        ensures rows { IfOk result (λ table. rows_of table ≡
            map (λ all. slice_range all start stop) (rows_of self.now)) }
        ensures count { IfOk result (λ table. table.count ≡ stop - start) }
        ensures kept { IfOk result (IsKept self.now) }
        ensures session { ctx.new ≡ ctx.old }
    {
        let names = copies_of(*ctx.allocator(), &self.names)?;
        let part = Stretch { start, stop };
        let columns = match part_of_each(&self.columns, self.rows, part, ctx) {
            Ok(columns) => columns,
            Err(error) => {
                drop(names);
                return Err(error);
            }
        };
        let rows = stop - start;
        Ok(Table {
            names,
            columns,
            rows,
        })
    }
    // The row of each column at each of these indices, null at a null one.
    fn rows_at(
        &self,
        indices: &PrimitiveArray<A>,
        ctx: &mut ExecutionCtx<A>,
    ) -> VortexResult<Table<A>>
        requires within { take_fault (optional_numbers indices.now) self.now.count ≡ None }
        ensures only { IsOkUnless result VortexError.OutOfMemory }
        ensures taken { IfOk result (IsTaken self.now (optional_numbers indices.now) (primitive_dtype indices.now)) }
        ensures session { ctx.new ≡ ctx.old }
    {
        let names = copies_of(*ctx.allocator(), &self.names)?;
        let columns = match taken_of_each(&self.columns, self.rows, indices, ctx) {
            Ok(columns) => columns,
            Err(error) => {
                drop(names);
                return Err(error);
            }
        };
        let rows = indices.len();
        Ok(Table {
            names,
            columns,
            rows,
        })
    }
}
