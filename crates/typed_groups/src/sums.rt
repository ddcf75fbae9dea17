//! Sums of the floats and of the decimals of a group, and how many values it has.
ghost use Rattle.std.specs.Prelude.{◌≡◌, ◌-◌, IfErr, IfOk, IsOkUnless, None, Some, if◌then◌else◌, length, map, option_map, pos, true};
ghost use Rattle.column_base.specs.declared.dtype.DType.TheVariants as column;
ghost use Rattle.column_base.specs.declared.dtype.Nullability.TheVariants.{Nullable};
ghost use Rattle.column_base.specs.declared.dtype.PType.TheVariants.{I64, U64};
ghost use Rattle.column_core.specs.Value.{DecimalNumber, Number, Single};
ghost use Rattle.column_floats.specs.Formats.{IsFormatOf};
ghost use Rattle.column_sums.specs.SumAnswer.{number_in};
ghost use Rattle.runend_array.specs.Array.{dtype_of, rows};
ghost use Rattle.runend_decimals.specs.Rows.{decimal_in, is_decimals};
ghost use Rattle.runend_decimals.specs.Totals.{StaysWithin};
ghost use Rattle.runend_floats.specs.Sums.{tally_of_keys};
ghost use Rattle.runend_pairs.specs.NullCounts.{null_rows};
ghost use Rattle.typed_groups.specs.Group.{IsGroupRefusal};
ghost use Rattle.typed_groups.specs.Questions.{IsFloatSum, decimal_sum, decimal_sum_dtype};
ghost use Rattle.typed_groups.specs.declared.question.Question.TheVariants.{DecimalSum as decimal_question};

use crate::question::Question;
use crate::row_scalars::null_of;
use column_core::{DType, Nullability, PType, Scalar, ScalarValue, VortexError, VortexResult};
use column_floats::FloatFormat;
use float_bits::{FloatSum, total_key};
use runend_array::{ArrayRef, ExecutionCtx};
use runend_decimals::{DecimalError, DecimalSum, sum_decimals};
use runend_floats::sum_floats;
use runend_pairs::{GroupError, null_count};
use std::alloc::Allocator;

/// Returns how many rows are not null.
pub(crate) fn value_count<A: Allocator + Copy>(array: &ArrayRef<A>) -> Scalar<A>
    ensures count { option_map Single result.value ≡
        Some (Single (Number (pos (length (rows array.now) - null_rows (rows array.now))))) }
    ensures dtype { result.dtype ≡ column.Primitive U64 Nullable }
{
    let count = array.len().saturating_sub(null_count(array));
    let dtype = DType::Primitive(PType::U64, Nullability::Nullable);
    Scalar::try_new(dtype, Some(ScalarValue::Unsigned(count as u64))).unwrap()
}

/// Returns the exact sum of floats of a format, rounded once, as the key of a float of 64 bits, or null where there is
/// none. Refused only as `OutOfMemory`.
pub(crate) fn float_sum<A: Allocator + Copy>(
    format: FloatFormat,
    array: &ArrayRef<A>,
    ctx: &mut ExecutionCtx<A>,
) -> VortexResult<Scalar<A>>
    requires { IsFormatOf (dtype_of array.now) format }
    ensures only { IsOkUnless result VortexError.OutOfMemory }
    ensures sum { IfOk result (λ scalar. IsFloatSum (tally_of_keys format (map number_in (rows array.now)))
        (option_map Single scalar.value)) }
    ensures dtype { IfOk result (λ scalar. scalar.dtype ≡ column.Primitive I64 Nullable) }
    ensures session { ctx.new ≡ ctx.old }
{
    let sum = sum_floats(array, ctx)?;
    Ok(float_scalar(&sum))
}

// A sum as the key of a float of 64 bits.
fn float_scalar<A: Allocator>(sum: &FloatSum) -> Scalar<A>
    ensures sum { IsFloatSum sum.now (option_map Single result.value) }
    ensures dtype { result.dtype ≡ column.Primitive I64 Nullable }
{
    let dtype = DType::Primitive(PType::I64, Nullability::Nullable);
    if sum.rows() == 0 {
        return null_of(dtype);
    }
    let key = total_key(FloatFormat::F64, sum.rounded());
    Scalar::try_new(dtype, Some(ScalarValue::Signed(key))).unwrap()
}

/// Returns the exact sum of the decimals of a group, of 38 digits at most, or null where there is none. Refused as
/// `SumOverflow` with the group where the rows up to any of them add up to more digits, else only as
/// `Refused(OutOfMemory)`.
pub(crate) fn sum_of_decimals<A: Allocator + Copy>(
    array: &ArrayRef<A>,
    group: usize,
    ctx: &mut ExecutionCtx<A>,
) -> Result<Scalar<A>, GroupError>
    requires { is_decimals (dtype_of array.now) ≡ true }
    ensures sum { IfOk result (λ scalar. option_map Single scalar.value ≡
        decimal_sum (map decimal_in (rows array.now))) }
    ensures within { IfOk result (λ scalar. StaysWithin (map decimal_in (rows array.now))) }
    ensures dtype { IfOk result (λ scalar. scalar.dtype ≡ decimal_sum_dtype (dtype_of array.now)) }
    ensures refused { IfErr result (IsGroupRefusal decimal_question (rows array.now) group) }
    ensures session { ctx.new ≡ ctx.old }
{
    match sum_decimals(array, ctx) {
        Ok(sum) => Ok(decimal_scalar(array.dtype(), sum)),
        Err(DecimalError::Overflow { .. }) => Err(GroupError::SumOverflow { group }),
        Err(DecimalError::Refused(error)) => Err(GroupError::Refused(error)),
    }
}

// A sum of decimals of a type.
fn decimal_scalar<A: Allocator>(dtype: DType, sum: DecimalSum) -> Scalar<A>
    requires { is_decimals dtype ≡ true }
    ensures sum { option_map Single result.value ≡
        (if sum.is_empty then None else Some (Single (DecimalNumber sum.sum))) }
    ensures dtype { result.dtype ≡ decimal_sum_dtype dtype }
{
    let dtype = Question::DecimalSum.dtype(dtype);
    if sum.is_empty {
        return null_of(dtype);
    }
    Scalar::try_new(dtype, Some(ScalarValue::Decimal(sum.sum))).unwrap()
}
