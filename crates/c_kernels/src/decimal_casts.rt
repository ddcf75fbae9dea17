//! Columns cast to decimals, and decimals to integers, by their runs, on the heap.
ghost use Rattle.std.specs.Prelude.{◌≡◌, [], IfErr, IfOk, IsErrOf, None, Some, map};
ghost use Rattle.column_base.specs.Types.{nullability_of};
ghost use Rattle.column_base.specs.declared.dtype.DType.TheVariants as types;
ghost use Rattle.runend_array.specs.Array.{dtype_of, rows};
ghost use Rattle.runend_builder.specs.Encoded.{IsEncodedRows};
ghost use Rattle.runend_decimals.specs.Rows.{decimals_fault};
ghost use Rattle.runend_decimals.specs.declared.fault.RescaleError.TheVariants.{Refused};
ghost use Rattle.typed_columns.specs.Typed.{format_of};
ghost use Rattle.c_kernels.specs.DecimalCasts.{decimal_at, exact_fault, exacts_in, AllAreDecimals, AreDecimals, AreWholes, FailsAsDecimals, FailsAsWholes};

use crate::float_columns::boxed_runs;
use c_columns::flat::Boxed;
use c_columns::sessions::plain_context;
use column_core::{DecimalDType, PType, VortexError, is_number_type};
use runend_array::{ArrayRef, RunEndArray};
use runend_decimals::{RescaleError, decimals_of, integers_of, rescale};
use std::alloc::Global;

/// Returns integers or decimals as decimals of a precision and scale, as a run column. Refused as `Unsupported` exactly
/// for a column of another type, before any memory is taken, then with the first row that is not a decimal of the type
/// asked for, and else only as `OutOfMemory`.
pub fn decimals_cast(
    alloc: Global,
    column: &ArrayRef<Global>,
    to: DecimalDType,
) -> Result<Boxed, RescaleError>
    ensures made { IfOk result (λ made. AreDecimals to column.now made.value.array) }
    ensures untyped { IfOk result (λ made. format_of made.value ≡ []) }
    ensures refused { exact_fault (dtype_of column.now) ≡ None → IfErr result (FailsAsDecimals to column.now) }
    ensures first { (error : VortexError) → exact_fault (dtype_of column.now) ≡ Some error →
        IsErrOf result (Refused error) }
{
    let runs = decimal_runs(alloc, column, to)?;
    Ok(boxed_runs(alloc, runs)?)
}

/// Returns decimals as integers of a type, as a run column. Refused as `Unsupported` exactly for a column that is not
/// of decimals, before any memory is taken, then with the first row that is not an integer of the type asked for, and
/// else only as `OutOfMemory`.
pub fn wholes_cast(
    alloc: Global,
    column: &ArrayRef<Global>,
    to: PType,
) -> Result<Boxed, RescaleError>
    ensures made { IfOk result (λ made. AreWholes to column.now made.value.array) }
    ensures untyped { IfOk result (λ made. format_of made.value ≡ []) }
    ensures refused { decimals_fault (dtype_of column.now) ≡ None → IfErr result (FailsAsWholes to column.now) }
    ensures first { (error : VortexError) → decimals_fault (dtype_of column.now) ≡ Some error →
        IsErrOf result (Refused error) }
{
    let runs = integers_of(column, to, &mut plain_context(alloc))?;
    Ok(boxed_runs(alloc, runs)?)
}

// Returns the run column of integers, or of decimals, as decimals.
fn decimal_runs(
    alloc: Global,
    column: &ArrayRef<Global>,
    to: DecimalDType,
) -> Result<RunEndArray<Global>, RescaleError>
    ensures encoded { IfOk result (λ runs. IsEncodedRows (map (decimal_at (dtype_of column.now) to) (rows column.now))
        (types.Decimal to (nullability_of (dtype_of column.now))) runs) }
    ensures held { IfOk result (λ runs. AllAreDecimals (dtype_of column.now) to (exacts_in column.now)) }
    ensures refused { exact_fault (dtype_of column.now) ≡ None → IfErr result (FailsAsDecimals to column.now) }
    ensures first { (error : VortexError) → exact_fault (dtype_of column.now) ≡ Some error →
        IsErrOf result (Refused error) }
{
    let mut ctx = plain_context(alloc);
    if is_number_type(column.dtype()) {
        decimals_of(column, to, &mut ctx)
    } else {
        rescale(column, to, &mut ctx)
    }
}
