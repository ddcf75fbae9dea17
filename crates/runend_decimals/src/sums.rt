//! The sum of a column of decimals.
ghost use Rattle.std.specs.Prelude.{◌≡◌, Err, IfErr, IfOk, Some, length, map};
ghost use Rattle.column_core.specs.DecimalForm.{optional_decimals};
ghost use Rattle.runend_array.specs.Array.{dtype_of, rows};
ghost use Rattle.runend_floats.specs.Runs.{AreWholeRuns};
ghost use Rattle.runend_windows.specs.Ends.{ends_of};
ghost use Rattle.runend_windows.specs.Window.{last_end, run_rows};
ghost use Rattle.runend_decimals.specs.Rows.{decimal_in, decimals_fault};
ghost use Rattle.runend_decimals.specs.Totals.{sum_of, IsRunRefusal, IsSumRefusal, StaysWithin};
ghost use Rattle.runend_decimals.specs.declared.fault.DecimalError.TheVariants.{Refused};

use crate::ends::end_of;
use crate::fault::{DecimalError, is_decimal_type};
use crate::runs::{decimal_at, decimal_runs};
use crate::totals::with_rows;
use column_core::{DecimalArray, PrimitiveArray, VortexError};
use runend_array::{ArrayRef, ExecutionCtx};
use std::alloc::Allocator;

/// Holds the sum of rows that are not null, as the integer that it is at the scale of its column, and says whether no
/// row is valid: the sum is 0 there.
#[derive(Debug, Clone, Copy, PartialEq, Eq, Drop)]
pub struct DecimalSum {
    pub sum: i128,
    pub is_empty: bool,
}

/// Returns the exact sum of the rows that are not null, of 38 digits at most, at the scale of the column, whatever its
/// precision. Takes a step for each visible run; a constant is one run. Refused as `Unsupported` where the column is
/// not of decimals, before any memory is taken; then as `Overflow` with the first row such that the rows up to it add
/// up to more than 38 digits, also where later rows would bring the sum back; and else only as `OutOfMemory`.
pub fn sum_decimals<A: Allocator + Copy>(
    column: &ArrayRef<A>,
    ctx: &mut ExecutionCtx<A>,
) -> Result<DecimalSum, DecimalError>
    ensures sum { IfOk result (λ sum. sum ≡ sum_of (map decimal_in (rows column.now))) }
    ensures within { IfOk result (λ sum. StaysWithin (map decimal_in (rows column.now))) }
    ensures refused { IfErr result (IsSumRefusal (decimals_fault (dtype_of column.now))
        (map decimal_in (rows column.now))) }
    ensures first { (error : VortexError) → decimals_fault (dtype_of column.now) ≡ Some error →
        result ≡ Err (Refused error) }
    ensures session { ctx.new ≡ ctx.old }
{
    if !is_decimal_type(column.dtype()) {
        return Err(DecimalError::Refused(VortexError::Unsupported));
    }
    let (ends, values) = decimal_runs(*ctx.allocator(), column)?;
    let sum = sum_runs(&ends, &values);
    drop(values);
    drop(ends);
    sum
}

// Returns the sum of the rows that these runs show, by one step a run. Refused only as `Overflow`.
fn sum_runs<A: Allocator>(
    ends: &PrimitiveArray<A>,
    values: &DecimalArray<A>,
) -> Result<DecimalSum, DecimalError>
    requires runs { AreWholeRuns ends.now }
    requires paired { length (optional_decimals values.now) ≡ length (ends_of ends.now) }
    ensures sum { IfOk result (λ sum. sum ≡
        sum_of (run_rows (ends_of ends.now) (optional_decimals values.now) 0 (last_end (ends_of ends.now)))) }
    ensures within { IfOk result (λ sum.
        StaysWithin (run_rows (ends_of ends.now) (optional_decimals values.now) 0 (last_end (ends_of ends.now)))) }
    ensures refused { IfErr result (IsRunRefusal
        (run_rows (ends_of ends.now) (optional_decimals values.now) 0 (last_end (ends_of ends.now)))) }
{
    let mut total = DecimalSum {
        sum: 0,
        is_empty: true,
    };
    let mut row = 0;
    for run in 0..values.len() {
        let end = end_of(ends, run);
        match with_rows(total, decimal_at(values, run), end - row) {
            Ok(next) => total = next,
            Err(held) => return Err(DecimalError::Overflow { row: row + held }),
        }
        row = end;
    }
    Ok(total)
}
