//! The rows of a table at which a column compares true with a number.
ghost use Rattle.std.specs.Prelude.{◌≡◌, IfErr, IfOk};
ghost use Rattle.exact_comparisons.specs.Filtered.{IsFilteredByNumber, IsNumberFilterError};
ghost use Rattle.tables.specs.Tables.{IsKept};

use crate::comparisons::compare_number;
use column_ops::CompareOperator;
use exact_numbers::ExactNumber;
use runend_array::ExecutionCtx;
use std::alloc::Allocator;
use tables::{Table, TableError};

/// Returns the rows at which the operator holds of the row of the column of this name and a number, both as the exact
/// numbers that they are, in order, of each column, under the same names and formats. It does not hold where the row is
/// null. Takes a step for each run.
///
/// Refused as `UnknownName` where no column has the name, then as `Refused(Unsupported)` where that column has lists,
/// and as `Refused(TypeMismatch)` where its rows are not numbers, however little memory there is; else only as
/// `Refused(OutOfMemory)`.
pub fn filter_by_number<A: Allocator + Copy>(
    table: &Table<A>,
    name: &str,
    operator: CompareOperator,
    number: ExactNumber,
    ctx: &mut ExecutionCtx<A>,
) -> Result<Table<A>, TableError>
    ensures filtered { IfOk result (IsFilteredByNumber table.now name.now operator number) }
    ensures refused { IfErr result (IsNumberFilterError table.now name.now) }
    ensures kept { IfOk result (IsKept table.now) }
    ensures session { ctx.new ≡ ctx.old }
{
    let Some(column) = table.column(name) else {
        return Err(TableError::UnknownName { name: 0 });
    };
    let mask = compare_number(column, operator, number, ctx)?;
    let kept = table.filter(&mask, ctx);
    drop(mask);
    Ok(kept?)
}
