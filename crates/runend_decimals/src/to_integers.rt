//! Integers of decimals.
ghost use Rattle.std.specs.Prelude.{◌≡◌, Err, IfErr, IfOk, None, Some, length, map, option_map, pos, true};
ghost use Rattle.column_base.specs.Number.{Narrows};
ghost use Rattle.column_base.specs.Numbers.{numbers, ptype_of};
ghost use Rattle.column_base.specs.Types.{nullability_of, HasNumber};
ghost use Rattle.column_base.specs.ValidityForm.{nullability_in};
ghost use Rattle.column_base.specs.declared.dtype.DType.TheVariants as types;
ghost use Rattle.column_core.specs.DecimalForm.{optional_decimals};
ghost use Rattle.column_core.specs.FlatColumn.{leaf_of};
ghost use Rattle.column_core.specs.Leaf.{OfNumbers, single_rows};
ghost use Rattle.column_core.specs.PrimitiveForm.{primitive_dtype};
ghost use Rattle.runend_array.specs.Array.{dtype_of, rows};
ghost use Rattle.runend_builder.specs.Encoded.{IsEncodedRows};
ghost use Rattle.runend_encode.specs.Encoding.{IsRowEncoding};
ghost use Rattle.runend_floats.specs.Runs.{AreWholeRuns};
ghost use Rattle.runend_windows.specs.Ends.{ends_of};
ghost use Rattle.runend_windows.specs.Window.{last_end, run_rows};
ghost use Rattle.runend_decimals.specs.Rescaling.{stored_at};
ghost use Rattle.runend_decimals.specs.Rows.{decimal_in, decimals_fault, is_decimals};
ghost use Rattle.runend_decimals.specs.Scales.{integer_of_row, integer_row, rescaled, scale_of, EachDecimal, IsHeldAt, IsRescaleRefusal};
ghost use Rattle.runend_decimals.specs.declared.fault.RescaleError.TheVariants.{Refused};

use crate::fault::{RescaleError, is_decimal_type};
use crate::rescaled::rescaled_items;
use crate::runs::decimal_runs;
use crate::scaling::Limits;
use column_core::{
    DecimalArray, FlatColumn, NativePType, PType, PrimitiveArray, PrimitiveValues, VortexError,
};
use runend_array::{ArrayRef, ExecutionCtx, RunEnd, RunEndArray, array_of};
use runend_encode::encode_runs;
use std::alloc::Allocator;

/// Returns the decimals of a column as integers of a native type, null where the row is, in the same form. Takes a step
/// for each visible run. Refused as `Unsupported` where the column is not of decimals, before any memory is taken;
/// then, with the first row that is not an integer of the type asked for, as `Inexact` where it has a fraction, and as
/// `Overflow` where it is an integer that the type does not have; and else only as `OutOfMemory`.
pub fn integers_of<A: Allocator + Copy>(
    column: &ArrayRef<A>,
    to: PType,
    ctx: &mut ExecutionCtx<A>,
) -> Result<RunEndArray<A>, RescaleError>
    ensures encoded { IfOk result (λ runs. IsEncodedRows
        (map (integer_of_row (scale_of (dtype_of column.now))) (rows column.now))
        (types.Primitive to (nullability_of (dtype_of column.now))) runs) }
    ensures held { IfOk result (λ runs.
        EachDecimal (IsHeldAt (scale_of (dtype_of column.now)) (pos 0) (HasNumber to))
        (map decimal_in (rows column.now))) }
    ensures refused { IfErr result (IsRescaleRefusal (decimals_fault (dtype_of column.now))
        (scale_of (dtype_of column.now)) (pos 0) (HasNumber to) (map decimal_in (rows column.now))) }
    ensures first { (error : VortexError) → decimals_fault (dtype_of column.now) ≡ Some error →
        result ≡ Err (Refused error) }
    ensures session { ctx.new ≡ ctx.old }
{
    if !is_decimal_type(column.dtype()) {
        return Err(RescaleError::Refused(VortexError::Unsupported));
    }
    let (ends, values) = integer_parts(*ctx.allocator(), column, to)?;
    Ok(RunEnd::new_unchecked(ArrayRef::Primitive(ends), array_of(values), 0, column.len()))
}

// Returns the ends and the values of the encoding of decimals as integers. Refused with the first row that is not an
// integer of the type, and as `OutOfMemory`.
fn integer_parts<A: Allocator + Copy>(
    alloc: A,
    column: &ArrayRef<A>,
    to: PType,
) -> Result<(PrimitiveArray<A>, FlatColumn<A>), RescaleError>
    requires { is_decimals (dtype_of column.now) ≡ true }
    ensures encoding { IfOk result (λ parts. IsRowEncoding
        (map (integer_of_row (scale_of (dtype_of column.now))) (rows column.now))
        (types.Primitive to (nullability_of (dtype_of column.now))) parts.0 (leaf_of parts.1)) }
    ensures held { IfOk result (λ parts.
        EachDecimal (IsHeldAt (scale_of (dtype_of column.now)) (pos 0) (HasNumber to))
        (map decimal_in (rows column.now))) }
    ensures refused { IfErr result (IsRescaleRefusal (decimals_fault (dtype_of column.now))
        (scale_of (dtype_of column.now)) (pos 0) (HasNumber to) (map decimal_in (rows column.now))) }
{
    let (ends, values) = decimal_runs(alloc, column)?;
    let integers = match rescaled_integers(alloc, &ends, &values, to) {
        Ok(integers) => FlatColumn::Primitive(integers),
        Err(error) => {
            drop(values);
            drop(ends);
            return Err(error);
        }
    };
    let parts = encode_runs(alloc, &ends, &integers, 0, column.len());
    drop(integers);
    drop(values);
    drop(ends);
    Ok(parts?)
}

// Returns the values of these runs as integers of a native type. Refused with the first row that is not an integer of
// that type, and as `OutOfMemory`.
fn rescaled_integers<A: Allocator + Copy>(
    alloc: A,
    ends: &PrimitiveArray<A>,
    values: &DecimalArray<A>,
    to: PType,
) -> Result<PrimitiveArray<A>, RescaleError>
    requires runs { AreWholeRuns ends.now }
    requires paired { length (optional_decimals values.now) ≡ length (ends_of ends.now) }
    ensures rows { IfOk result (λ integers. single_rows (OfNumbers integers) ≡
        map (λ n. integer_row (option_map (rescaled values.now.decimal.scale (pos 0)) n))
        (optional_decimals values.now)) }
    ensures dtype { IfOk result (λ integers. primitive_dtype integers ≡
        types.Primitive to (nullability_in values.now.validity)) }
    ensures held { IfOk result (λ integers.
        EachDecimal (IsHeldAt values.now.decimal.scale (pos 0) (HasNumber to))
        (run_rows (ends_of ends.now) (optional_decimals values.now) 0 (last_end (ends_of ends.now)))) }
    ensures refused { IfErr result
        (IsRescaleRefusal None values.now.decimal.scale (pos 0) (HasNumber to)
        (run_rows (ends_of ends.now) (optional_decimals values.now) 0 (last_end (ends_of ends.now)))) }
{
    let validity = values.validity().try_clone(alloc)?;
    let integers = rescaled_numbers(alloc, ends, values, to)?;
    Ok(PrimitiveArray::new_unchecked(integers, validity))
}

// Returns the integers that are stored for them, 0 for null.
fn rescaled_numbers<A: Allocator + Copy>(
    alloc: A,
    ends: &PrimitiveArray<A>,
    values: &DecimalArray<A>,
    to: PType,
) -> Result<PrimitiveValues<A>, RescaleError>
    requires runs { AreWholeRuns ends.now }
    requires paired { length (optional_decimals values.now) ≡ length (ends_of ends.now) }
    ensures items { IfOk result (λ integers. numbers integers ≡
        map (stored_at values.now.decimal.scale (pos 0)) (optional_decimals values.now)) }
    ensures typed { IfOk result (λ integers. ptype_of integers ≡ to) }
    ensures held { IfOk result (λ integers.
        EachDecimal (IsHeldAt values.now.decimal.scale (pos 0) (HasNumber to))
        (run_rows (ends_of ends.now) (optional_decimals values.now) 0 (last_end (ends_of ends.now)))) }
    ensures refused { IfErr result
        (IsRescaleRefusal None values.now.decimal.scale (pos 0) (HasNumber to)
        (run_rows (ends_of ends.now) (optional_decimals values.now) 0 (last_end (ends_of ends.now)))) }
{
    match to {
        PType::U8 => rescaled_natives::<u8, A>(alloc, ends, values),
        PType::U16 => rescaled_natives::<u16, A>(alloc, ends, values),
        PType::U32 => rescaled_natives::<u32, A>(alloc, ends, values),
        PType::U64 => rescaled_natives::<u64, A>(alloc, ends, values),
        PType::I8 => rescaled_natives::<i8, A>(alloc, ends, values),
        PType::I16 => rescaled_natives::<i16, A>(alloc, ends, values),
        PType::I32 => rescaled_natives::<i32, A>(alloc, ends, values),
        PType::I64 => rescaled_natives::<i64, A>(alloc, ends, values),
    }
}

// Returns the same in one native type.
fn rescaled_natives<T: NativePType, A: Allocator + Copy>(
    alloc: A,
    ends: &PrimitiveArray<A>,
    values: &DecimalArray<A>,
) -> Result<PrimitiveValues<A>, RescaleError>
    requires runs { AreWholeRuns ends.now }
    requires paired { length (optional_decimals values.now) ≡ length (ends_of ends.now) }
    ensures items { IfOk result (λ integers. numbers integers ≡
        map (stored_at values.now.decimal.scale (pos 0)) (optional_decimals values.now)) }
    ensures typed { IfOk result (λ integers. ptype_of integers ≡ T.PTYPE) }
    ensures held { IfOk result (λ integers.
        EachDecimal (IsHeldAt values.now.decimal.scale (pos 0) (HasNumber T.PTYPE))
        (run_rows (ends_of ends.now) (optional_decimals values.now) 0 (last_end (ends_of ends.now)))) }
    ensures refused { IfErr result
        (IsRescaleRefusal None values.now.decimal.scale (pos 0) (HasNumber T.PTYPE)
        (run_rows (ends_of ends.now) (optional_decimals values.now) 0 (last_end (ends_of ends.now)))) }
{
    let items = rescaled_items::<T, Native, A>(alloc, ends, values, 0, &Native)?;
    Ok(T::wrap(items))
}

/// Limits integers to those of a native type, and stores them in it.
#[derive(Drop)]
struct Native;

impl<T: NativePType> Limits<T> for Native {
    ghost has = { λ native n. HasNumber T.PTYPE n };

    ghost integer = { λ item. T.number item };

    fn hold(&self, number: i128) -> Option<T>
        ensures { Narrows (λ item. T.number item) (HasNumber T.PTYPE) number result }
    {
        T::narrow(number)
    }

    fn blank() -> T
        ensures { T.number result ≡ pos 0 }
    {
        T::default()
    }
}
