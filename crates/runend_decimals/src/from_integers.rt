//! Decimals of integers.
ghost use Rattle.std.specs.Prelude.{◌≡◌, Err, IfErr, IfOk, IsOkUnless, None, Some, length, map, min, option_map, pos, true};
ghost use Rattle.column_base.specs.Numbers.{numbers};
ghost use Rattle.column_base.specs.Types.{nullability_of};
ghost use Rattle.column_base.specs.declared.dtype.DType.TheVariants as types;
ghost use Rattle.column_base.specs.ValidityForm.{nullability_in};
ghost use Rattle.column_core.specs.DecimalForm.{decimal_dtype_of};
ghost use Rattle.column_core.specs.FlatColumn.{leaf_of};
ghost use Rattle.column_core.specs.Kinds.{is_numbers};
ghost use Rattle.column_core.specs.Leaf.{OfDecimals, single_rows};
ghost use Rattle.column_core.specs.PrimitiveForm.{optional_numbers};
ghost use Rattle.column_sums.specs.SumAnswer.{number_in};
ghost use Rattle.runend_array.specs.Array.{dtype_of, rows};
ghost use Rattle.runend_builder.specs.Encoded.{IsEncodedRows};
ghost use Rattle.runend_encode.specs.Encoding.{IsRowEncoding};
ghost use Rattle.runend_floats.specs.Runs.{AreWholeRuns};
ghost use Rattle.runend_windows.specs.Ends.{ends_of};
ghost use Rattle.runend_windows.specs.Window.{last_end, run_rows};
ghost use Rattle.runend_decimals.specs.Digits.{HasDigits};
ghost use Rattle.runend_decimals.specs.Rows.{decimals_without_places, integers_fault};
ghost use Rattle.runend_decimals.specs.Scales.{decimal_of_row, decimal_row, rescaled, EachDecimal, IsHeldAt, IsRescaleRefusal};
ghost use Rattle.runend_decimals.specs.declared.fault.RescaleError.TheVariants.{Refused};

use crate::fault::RescaleError;
use crate::rescaled::rescaled_decimals;
use crate::runs::integer_runs;
use column_base::match_each_native;
use column_core::{
    DecimalArray, DecimalDType, FlatColumn, NativePType, PrimitiveArray, PrimitiveValues,
    VortexError, VortexResult, is_number_type,
};
use runend_array::{ArrayRef, ExecutionCtx, RunEnd, RunEndArray, array_of};
use runend_encode::encode_runs;
use std::alloc::Allocator;

/// Returns the integers of a column as decimals of a precision and scale, null where the row is: the run column of the
/// only tight exact cover, with ends of the least unsigned type and flat values. Takes a step for each visible run. A
/// precision past 38 limits digits to 38. Refused as `Unsupported` where the column is not of integers, before any
/// memory is taken; then, with the first row that is not a decimal of the type asked for, as `Inexact` where the scale
/// is below 0 and has no place for its last digits, and as `Overflow` where it has more digits than the precision; and
/// else only as `OutOfMemory`.
pub fn decimals_of<A: Allocator + Copy>(
    column: &ArrayRef<A>,
    to: DecimalDType,
    ctx: &mut ExecutionCtx<A>,
) -> Result<RunEndArray<A>, RescaleError>
    ensures encoded { IfOk result (λ runs. IsEncodedRows (map (decimal_of_row to.scale) (rows column.now))
        (types.Decimal to (nullability_of (dtype_of column.now))) runs) }
    ensures held { IfOk result (λ runs. EachDecimal (IsHeldAt (pos 0) to.scale (HasDigits (min to.precision 38)))
        (map number_in (rows column.now))) }
    ensures refused { IfErr result (IsRescaleRefusal (integers_fault (dtype_of column.now)) (pos 0) to.scale
        (HasDigits (min to.precision 38)) (map number_in (rows column.now))) }
    ensures first { (error : VortexError) → integers_fault (dtype_of column.now) ≡ Some error →
        result ≡ Err (Refused error) }
    ensures session { ctx.new ≡ ctx.old }
{
    if !is_number_type(column.dtype()) {
        return Err(RescaleError::Refused(VortexError::Unsupported));
    }
    let (ends, values) = decimal_parts(*ctx.allocator(), column, to)?;
    Ok(RunEnd::new_unchecked(ArrayRef::Primitive(ends), array_of(values), 0, column.len()))
}

// Returns the ends and the values of the encoding of integers as decimals. Refused with the first row that is not a
// decimal of the type, and as `OutOfMemory`.
fn decimal_parts<A: Allocator + Copy>(
    alloc: A,
    column: &ArrayRef<A>,
    to: DecimalDType,
) -> Result<(PrimitiveArray<A>, FlatColumn<A>), RescaleError>
    requires { is_numbers (dtype_of column.now) ≡ true }
    ensures encoding { IfOk result (λ parts. IsRowEncoding (map (decimal_of_row to.scale) (rows column.now))
        (types.Decimal to (nullability_of (dtype_of column.now))) parts.0 (leaf_of parts.1)) }
    ensures held { IfOk result (λ parts. EachDecimal (IsHeldAt (pos 0) to.scale (HasDigits (min to.precision 38)))
        (map number_in (rows column.now))) }
    ensures refused { IfErr result (IsRescaleRefusal (integers_fault (dtype_of column.now)) (pos 0) to.scale
        (HasDigits (min to.precision 38)) (map number_in (rows column.now))) }
{
    let (ends, integers) = integer_runs(alloc, column)?;
    let decimals = match scaled_integers(alloc, &ends, &integers, to) {
        Ok(decimals) => FlatColumn::Decimal(decimals),
        Err(error) => {
            drop(integers);
            drop(ends);
            return Err(error);
        }
    };
    let parts = encode_runs(alloc, &ends, &decimals, 0, column.len());
    drop(decimals);
    drop(integers);
    drop(ends);
    Ok(parts?)
}

// Returns the values of these runs as decimals. Refused with the first row that is not a decimal of the type, and as
// `OutOfMemory`.
fn scaled_integers<A: Allocator + Copy>(
    alloc: A,
    ends: &PrimitiveArray<A>,
    integers: &PrimitiveArray<A>,
    to: DecimalDType,
) -> Result<DecimalArray<A>, RescaleError>
    requires runs { AreWholeRuns ends.now }
    requires paired { length (optional_numbers integers.now) ≡ length (ends_of ends.now) }
    ensures rows { IfOk result (λ decimals. single_rows (OfDecimals decimals) ≡
        map (λ n. decimal_row (option_map (rescaled (pos 0) to.scale) n)) (optional_numbers integers.now)) }
    ensures dtype { IfOk result (λ decimals. decimal_dtype_of decimals ≡
        types.Decimal to (nullability_in integers.now.validity)) }
    ensures held { IfOk result (λ decimals.
        EachDecimal (IsHeldAt (pos 0) to.scale (HasDigits (min to.precision 38)))
        (run_rows (ends_of ends.now) (optional_numbers integers.now) 0 (last_end (ends_of ends.now)))) }
    ensures refused { IfErr result
        (IsRescaleRefusal None (pos 0) to.scale (HasDigits (min to.precision 38))
        (run_rows (ends_of ends.now) (optional_numbers integers.now) 0 (last_end (ends_of ends.now)))) }
{
    let widened = widened(alloc, integers)?;
    rescaled_decimals(alloc, ends, &widened, to)
}

// Returns integers as decimals without places. Refused only as `OutOfMemory`.
fn widened<A: Allocator + Copy>(
    alloc: A,
    integers: &PrimitiveArray<A>,
) -> VortexResult<DecimalArray<A>>
    ensures only { IsOkUnless result VortexError.OutOfMemory }
    ensures widened { IfOk result (λ decimals. decimals ≡ decimals_without_places integers.now) }
{
    let validity = integers.validity().try_clone(alloc)?;
    let items = widened_numbers(alloc, integers.values())?;
    let decimal = DecimalDType {
        precision: 38,
        scale: 0,
    };
    Ok(DecimalArray::new_unchecked(items, decimal, validity))
}

// Returns integers as those of decimals. Refused only as `OutOfMemory`.
fn widened_numbers<A: Allocator + Copy>(
    alloc: A,
    values: &PrimitiveValues<A>,
) -> VortexResult<Vec<i128, A>>
    ensures only { IsOkUnless result VortexError.OutOfMemory }
    ensures items { IfOk result (λ widened. widened.items ≡ numbers values.now) }
{
    match_each_native!(values, items => widened_items(alloc, items.as_slice()))
}

// Returns the same of integers of one native type.
fn widened_items<T: NativePType, A: Allocator>(alloc: A, items: &[T]) -> VortexResult<Vec<i128, A>>
    ensures only { IsOkUnless result VortexError.OutOfMemory }
    ensures items { IfOk result (λ widened. widened.items ≡ map T.number items.now) }
{
    let mut widened = Vec::with_capacity(alloc, items.len())?;
    for item in items {
        widened.push_reserved(item.widen());
    }
    Ok(widened)
}
