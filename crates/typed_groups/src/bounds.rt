//! The least and the greatest value of a group, and of its floats.
ghost use Rattle.std.specs.Prelude.{◌≡◌, ◌≢◌, IfOk, IfSome, IsOkUnless, map, option_map};
ghost use Rattle.column_base.specs.declared.dtype.Nullability.TheVariants.{Nullable};
ghost use Rattle.column_base.specs.Types.{with_nullability};
ghost use Rattle.column_core.specs.Value.{IsLists, Single};
ghost use Rattle.column_floats.specs.Formats.{IsFormatOf};
ghost use Rattle.column_sums.specs.SumAnswer.{number_in};
ghost use Rattle.float_bits.specs.Format.{IsPattern};
ghost use Rattle.runend_array.specs.Array.{dtype_of, rows};
ghost use Rattle.typed_groups.specs.Questions.{IsEnd, IsNumberEnd, key_value};

use crate::row_scalars::{null_of, scalar_of};
use column_core::{DType, Nullability, Scalar, ScalarValue, VortexError, VortexResult};
use column_floats::FloatFormat;
use float_bits::total_key;
use runend_array::{ArrayRef, ExecutionCtx};
use runend_commands::compute::extreme;
use runend_floats::min_max_numbers;
use std::alloc::Allocator;
use std::cmp::Ordering;

/// Returns the least value of a column of any type but lists where the side is `Less`, and the greatest where it is
/// `Greater`; null where all rows are null. Refused only as `OutOfMemory`.
pub(crate) fn furthest_value<A: Allocator + Copy>(
    array: &ArrayRef<A>,
    side: Ordering,
    ctx: &mut ExecutionCtx<A>,
) -> VortexResult<Scalar<A>>
    requires single { ¬ IsLists (dtype_of array.now) }
    requires side { side ≢ Ordering.Equal }
    ensures only { IsOkUnless result VortexError.OutOfMemory }
    ensures end { IfOk result (λ scalar. IsEnd side (rows array.now) (option_map Single scalar.value)) }
    ensures dtype { IfOk result (λ scalar. scalar.dtype ≡ with_nullability (dtype_of array.now) Nullable) }
    ensures session { ctx.new ≡ ctx.old }
{
    match extreme(array, side, ctx)? {
        Some(found) => {
            let scalar = scalar_of(*ctx.allocator(), array.dtype(), found.view());
            drop(found);
            scalar
        }
        None => Ok(null_of(array.dtype())),
    }
}

/// Returns the least of the floats of a format that are numbers, by its key; null where each row is null or a NaN.
/// Refused only as `OutOfMemory`.
pub(crate) fn least_number<A: Allocator + Copy>(
    format: FloatFormat,
    array: &ArrayRef<A>,
    ctx: &mut ExecutionCtx<A>,
) -> VortexResult<Scalar<A>>
    requires { IsFormatOf (dtype_of array.now) format }
    ensures only { IsOkUnless result VortexError.OutOfMemory }
    ensures end { IfOk result (λ scalar.
        IsNumberEnd Ordering.Less format (map number_in (rows array.now)) (option_map Single scalar.value)) }
    ensures dtype { IfOk result (λ scalar. scalar.dtype ≡ with_nullability (dtype_of array.now) Nullable) }
    ensures session { ctx.new ≡ ctx.old }
{
    let found = min_max_numbers(array, ctx)?;
    Ok(key_scalar(array.dtype(), format, least_of(found)))
}

/// Returns the greatest of the floats of a format that are numbers, as `least_number` the least.
pub(crate) fn greatest_number<A: Allocator + Copy>(
    format: FloatFormat,
    array: &ArrayRef<A>,
    ctx: &mut ExecutionCtx<A>,
) -> VortexResult<Scalar<A>>
    requires { IsFormatOf (dtype_of array.now) format }
    ensures only { IsOkUnless result VortexError.OutOfMemory }
    ensures end { IfOk result (λ scalar.
        IsNumberEnd Ordering.Greater format (map number_in (rows array.now)) (option_map Single scalar.value)) }
    ensures dtype { IfOk result (λ scalar. scalar.dtype ≡ with_nullability (dtype_of array.now) Nullable) }
    ensures session { ctx.new ≡ ctx.old }
{
    let found = min_max_numbers(array, ctx)?;
    Ok(key_scalar(array.dtype(), format, greatest_of(found)))
}

// The first of two numbers, where there are two.
fn least_of(found: Option<(u64, u64)>) -> Option<u64>
    ensures { result ≡ option_map (λ ends. ends.0) found }
{
    match found {
        Some(ends) => Some(ends.0),
        None => None,
    }
}

// The second of two numbers, where there are two.
fn greatest_of(found: Option<(u64, u64)>) -> Option<u64>
    ensures { result ≡ option_map (λ ends. ends.1) found }
{
    match found {
        Some(ends) => Some(ends.1),
        None => None,
    }
}

// The key of a float with these bits, or null, in a column of floats of this type.
fn key_scalar<A: Allocator>(dtype: DType, format: FloatFormat, bits: Option<u64>) -> Scalar<A>
    requires format { IsFormatOf dtype format }
    requires pattern { IfSome bits (IsPattern format) }
    ensures key { option_map Single result.value ≡ option_map (key_value format) bits }
    ensures dtype { result.dtype ≡ with_nullability dtype Nullable }
{
    match bits {
        Some(bits) => {
            let key = total_key(format, bits);
            let dtype = dtype.with_nullability(Nullability::Nullable);
            Scalar::try_new(dtype, Some(ScalarValue::Signed(key))).unwrap()
        }
        None => null_of(dtype),
    }
}
