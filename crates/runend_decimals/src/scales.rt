//! Decimals in another precision and scale.
ghost use Rattle.std.specs.Prelude.{◌≡◌, Err, IfErr, IfOk, Some, map, min, true};
ghost use Rattle.column_base.specs.Types.{nullability_of};
ghost use Rattle.column_base.specs.declared.dtype.DType.TheVariants as types;
ghost use Rattle.column_core.specs.FlatColumn.{leaf_of};
ghost use Rattle.runend_array.specs.Array.{dtype_of, rows};
ghost use Rattle.runend_builder.specs.Encoded.{IsEncodedRows};
ghost use Rattle.runend_encode.specs.Encoding.{IsRowEncoding};
ghost use Rattle.runend_decimals.specs.Digits.{HasDigits};
ghost use Rattle.runend_decimals.specs.Rows.{decimal_in, decimals_fault, is_decimals};
ghost use Rattle.runend_decimals.specs.Scales.{rescaled_row, scale_of, EachDecimal, IsHeldAt, IsRescaleRefusal};
ghost use Rattle.runend_decimals.specs.declared.fault.RescaleError.TheVariants.{Refused};

use crate::fault::{RescaleError, is_decimal_type};
use crate::rescaled::rescaled_decimals;
use crate::runs::decimal_runs;
use column_core::{DecimalDType, FlatColumn, PrimitiveArray, VortexError};
use runend_array::{ArrayRef, ExecutionCtx, RunEnd, RunEndArray, array_of};
use runend_encode::encode_runs;
use std::alloc::Allocator;

/// Returns the same decimals in another precision and scale, null where the row is: the run column of the only tight
/// exact cover, with ends of the least unsigned type and flat values. Takes a step for each visible run. A precision
/// past 38 limits digits to 38. Refused as `Unsupported` where the column is not of decimals, before any memory is
/// taken; then, with the first row that is not a decimal of the type asked for, as `Inexact` where it has more places
/// than the scale, and as `Overflow` where it has more digits than the precision; and else only as `OutOfMemory`.
pub fn rescale<A: Allocator + Copy>(
    column: &ArrayRef<A>,
    to: DecimalDType,
    ctx: &mut ExecutionCtx<A>,
) -> Result<RunEndArray<A>, RescaleError>
    ensures encoded { IfOk result (λ runs. IsEncodedRows
        (map (rescaled_row (scale_of (dtype_of column.now)) to.scale) (rows column.now))
        (types.Decimal to (nullability_of (dtype_of column.now))) runs) }
    ensures held { IfOk result (λ runs.
        EachDecimal (IsHeldAt (scale_of (dtype_of column.now)) to.scale (HasDigits (min to.precision 38)))
        (map decimal_in (rows column.now))) }
    ensures refused { IfErr result (IsRescaleRefusal (decimals_fault (dtype_of column.now))
        (scale_of (dtype_of column.now)) to.scale (HasDigits (min to.precision 38))
        (map decimal_in (rows column.now))) }
    ensures first { (error : VortexError) → decimals_fault (dtype_of column.now) ≡ Some error →
        result ≡ Err (Refused error) }
    ensures session { ctx.new ≡ ctx.old }
{
    if !is_decimal_type(column.dtype()) {
        return Err(RescaleError::Refused(VortexError::Unsupported));
    }
    let (ends, values) = rescaled_parts(*ctx.allocator(), column, to)?;
    Ok(RunEnd::new_unchecked(ArrayRef::Primitive(ends), array_of(values), 0, column.len()))
}

// Returns the ends and the values of that encoding. Refused with the first row that is not a decimal of the type, and
// as `OutOfMemory`.
fn rescaled_parts<A: Allocator + Copy>(
    alloc: A,
    column: &ArrayRef<A>,
    to: DecimalDType,
) -> Result<(PrimitiveArray<A>, FlatColumn<A>), RescaleError>
    requires { is_decimals (dtype_of column.now) ≡ true }
    ensures encoding { IfOk result (λ parts. IsRowEncoding
        (map (rescaled_row (scale_of (dtype_of column.now)) to.scale) (rows column.now))
        (types.Decimal to (nullability_of (dtype_of column.now))) parts.0 (leaf_of parts.1)) }
    ensures held { IfOk result (λ parts.
        EachDecimal (IsHeldAt (scale_of (dtype_of column.now)) to.scale (HasDigits (min to.precision 38)))
        (map decimal_in (rows column.now))) }
    ensures refused { IfErr result (IsRescaleRefusal (decimals_fault (dtype_of column.now))
        (scale_of (dtype_of column.now)) to.scale (HasDigits (min to.precision 38))
        (map decimal_in (rows column.now))) }
{
    let (ends, values) = decimal_runs(alloc, column)?;
    let decimals = match rescaled_decimals(alloc, &ends, &values, to) {
        Ok(decimals) => FlatColumn::Decimal(decimals),
        Err(error) => {
            drop(values);
            drop(ends);
            return Err(error);
        }
    };
    let parts = encode_runs(alloc, &ends, &decimals, 0, column.len());
    drop(decimals);
    drop(values);
    drop(ends);
    Ok(parts?)
}
