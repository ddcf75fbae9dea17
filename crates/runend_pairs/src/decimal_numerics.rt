//! Sums, differences and products of decimals.
ghost use Rattle.std.specs.Prelude.{◌≡◌, ◌≤◌, Err, None, Some, SomeIff, length, option_map, IfErr, IfOk, true};
ghost use Rattle.std.specs.Ordering.{int_eq};
ghost use Rattle.column_base.specs.declared.dtype.DType.TheVariants as types;
ghost use Rattle.column_base.specs.Types.{nullability_of};
ghost use Rattle.column_core.specs.ScalarView.{sees};
ghost use Rattle.column_core.specs.Value.{DecimalNumber};
ghost use Rattle.column_ops.specs.Comparing.{either_nullability};
ghost use Rattle.runend_array.specs.Array.{column_of, dtype_of, rows};
ghost use Rattle.runend_pairs.specs.Answers.{IsFound};
ghost use Rattle.runend_pairs.specs.Decimals.{answer_decimal, answer_digits, answer_precision, answer_scale, decimal_in, decimal_integer, decimal_numeric_dtype, decimal_numeric_fault, decimal_numeric_of, decimal_row, go_together, IsDecimalOrNull, IsDigitLimit};
ghost use Rattle.runend_pairs.specs.Faults.{AreSingle, IsCallRefusal, IsZipRefusal};
ghost use Rattle.runend_pairs.specs.Operations.{calculated};
ghost use Rattle.runend_pairs.specs.Zipped.{are_constant, zip_rows, AllHave, IsAnswerColumn};

use crate::columns::{either_null, zip_columns};
use crate::fault::{ZipError, fault_of_lengths};
use crate::numerics::NumericOperator;
use crate::pairs::Pairwise;
use crate::stored::Decimals;
use column_core::{DType, DecimalDType, ScalarView, VortexError, VortexResult};
use runend_array::{ArrayRef, ExecutionCtx};
use std::alloc::Allocator;

/// Returns the exact sum, difference or product of the two decimals at each place, null where either is null. Sums and
/// differences need the same scale on both sides, and have it; a product has the sum of the two scales. The precision
/// is the one that Arrow's kernels give: for sums and differences one digit more than the greater precision, for
/// products the sum of both and one more, and 38 at most. Rows may have more digits than the precision of their own
/// column.
///
/// Where both columns are constants and have a row, the answer is a constant, else the run column of the only tight
/// exact cover of the answers. Takes a step for each run of either column; a constant is one run.
///
/// Refused as `Unsupported` where either column is not of decimals, then as `TypeMismatch` where the scales of a sum or
/// difference differ, or the sum of the scales of a product does not fit an `i8`; then as `ColumnLength` where the
/// columns differ in rows; then as `Overflow` with the first row whose answer has more digits than the precision of the
/// answers, and else only as `OutOfMemory`.
pub fn decimal_numeric<A: Allocator + Copy>(
    left: &ArrayRef<A>,
    operator: NumericOperator,
    right: &ArrayRef<A>,
    ctx: &mut ExecutionCtx<A>,
) -> Result<ArrayRef<A>, ZipError>
    ensures answers { IfOk result (λ answers. IsAnswerColumn (are_constant (column_of left.now) (column_of right.now))
        (zip_rows (decimal_numeric_of operator) (rows left.now) (rows right.now))
        (decimal_numeric_dtype operator (dtype_of left.now) (dtype_of right.now)) (column_of answers)) }
    ensures within { IfOk result (λ answers.
        AllHave (IsDecimalOrNull (answer_digits operator (dtype_of left.now) (dtype_of right.now)))
        (zip_rows (decimal_numeric_of operator) (rows left.now) (rows right.now))) }
    ensures refused { IfErr result (IsCallRefusal (decimal_numeric_fault operator (dtype_of left.now)
        (dtype_of right.now) (length (rows left.now)) (length (rows right.now)))
        (IsDecimalOrNull (answer_digits operator (dtype_of left.now) (dtype_of right.now)))
        (zip_rows (decimal_numeric_of operator) (rows left.now) (rows right.now))) }
    ensures first { (error : VortexError) → decimal_numeric_fault operator (dtype_of left.now) (dtype_of right.now)
        (length (rows left.now)) (length (rows right.now)) ≡ Some error → result ≡ Err (ZipError.Refused error) }
    ensures session { ctx.new ≡ ctx.old }
{
    match answer_type(
        operator,
        left.dtype(),
        right.dtype(),
        left.len(),
        right.len(),
    ) {
        Ok(decimal) => decimals_of(*ctx.allocator(), left, operator, right, decimal),
        Err(error) => Err(ZipError::Refused(error)),
    }
}

// Returns the precision and the scale of the answers for two columns of these types and numbers of rows. Refused as
// `Unsupported` where either is not of decimals, as `TypeMismatch` where their scales do not go together, then as
// `ColumnLength` where they differ in rows.
fn answer_type(
    operator: NumericOperator,
    left: DType,
    right: DType,
    left_count: usize,
    right_count: usize,
) -> VortexResult<DecimalDType>
    ensures answers { IfOk result (λ decimal. decimal ≡ answer_decimal operator (decimal_in left) (decimal_in right)) }
    ensures none { IfOk result (λ decimal.
        decimal_numeric_fault operator left right left_count right_count ≡ None) }
    ensures refused { IfErr result (λ error.
        decimal_numeric_fault operator left right left_count right_count ≡ Some error) }
{
    let (DType::Decimal(left, _), DType::Decimal(right, _)) = (left, right) else {
        return Err(VortexError::Unsupported);
    };
    let Some(scale) = operator.answer_scale(left.scale, right.scale) else {
        return Err(VortexError::TypeMismatch);
    };
    if let Some(error) = fault_of_lengths(left_count, right_count) {
        return Err(error);
    }
    Ok(DecimalDType {
        precision: operator.answer_precision(left.precision, right.precision),
        scale,
    })
}

impl NumericOperator {
    // The scale of the answers, `None` where two scales do not go together.
    #[tactic(auto, using(crate::proofs::DecimalAnswers::scale_of_fitting, crate::proofs::DecimalAnswers::fitting_of_scale))]
    fn answer_scale(self, left: i8, right: i8) -> Option<i8>
        ensures { SomeIff result (go_together self left right ≡ true) (answer_scale self left right) }
    {
        match self {
            NumericOperator::Add => same_scale(left, right),
            NumericOperator::Subtract => same_scale(left, right),
            NumericOperator::Multiply => left.checked_add(right),
        }
    }

    // The digits that answers may have, 38 at most.
    fn answer_precision(self, left: u8, right: u8) -> u8
        ensures { result ≡ answer_precision self left right }
    {
        match self {
            NumericOperator::Add => left.max(right).min(37) + 1,
            NumericOperator::Subtract => left.max(right).min(37) + 1,
            NumericOperator::Multiply => (left.min(38) + right.min(38) + 1).min(38),
        }
    }
}

// The scale of both sides, `None` where they differ.
fn same_scale(left: i8, right: i8) -> Option<i8>
    ensures { SomeIff result (int_eq left right ≡ true) left }
{
    if left == right { Some(left) } else { None }
}

// The answers for two columns of decimals of the same number of rows, in a precision of 38 digits at most.
#[tactic(auto, using(crate::proofs::DecimalAnswers::power_fits))]
fn decimals_of<A: Allocator + Copy>(
    alloc: A,
    left: &ArrayRef<A>,
    operator: NumericOperator,
    right: &ArrayRef<A>,
    decimal: DecimalDType,
) -> Result<ArrayRef<A>, ZipError>
    requires single { AreSingle (dtype_of left.now) (dtype_of right.now) (length (rows left.now))
        (length (rows right.now)) }
    requires few { decimal.precision ≤ 38 }
    ensures answers { IfOk result (λ answers. IsAnswerColumn (are_constant (column_of left.now) (column_of right.now))
        (zip_rows (decimal_numeric_of operator) (rows left.now) (rows right.now)) (types.Decimal decimal
        (either_nullability (nullability_of (dtype_of left.now)) (nullability_of (dtype_of right.now))))
        (column_of answers)) }
    ensures within { IfOk result (λ answers. AllHave (IsDecimalOrNull decimal.precision)
        (zip_rows (decimal_numeric_of operator) (rows left.now) (rows right.now))) }
    ensures refused { IfErr result (IsZipRefusal (IsDecimalOrNull decimal.precision)
        (zip_rows (decimal_numeric_of operator) (rows left.now) (rows right.now))) }
{
    let nullability = either_null(left.dtype(), right.dtype());
    let calculation = DecimalCalculation {
        operator,
        digits: decimal.precision,
        limit: 10u128.pow(u32::from(decimal.precision)),
    };
    let stored = Decimals { decimal };
    zip_columns::<i128, Decimals, DecimalCalculation, A>(
        alloc,
        left,
        &calculation,
        right,
        &stored,
        nullability,
    )
}

/// Calculates a decimal from two.
#[derive(Drop)]
struct DecimalCalculation {
    operator: NumericOperator,
    /// Counts the digits that an answer may have, 38 at most.
    digits: u8,
    /// Holds 10 to the power of that number.
    limit: u128,
}

impl Pairwise<i128, Decimals> for DecimalCalculation {
    ghost takes = { λ calculation left right. IsDigitLimit calculation.digits calculation.limit };

    ghost answer_of = { λ calculation. decimal_numeric_of calculation.operator };

    ghost has = { λ calculation. IsDecimalOrNull calculation.digits };

    fn answer<A: Allocator>(
        &self,
        left: &ScalarView<'_, A>,
        right: &ScalarView<'_, A>,
    ) -> Option<Option<i128>> {
        match (integer_in(left), integer_in(right)) {
            (Some(left), Some(right)) => self.item(left, right),
            _ => Some(None),
        }
    }
}

impl DecimalCalculation {
    // The integer that two give, unless it has more digits than an answer may have.
    #[tactic(auto, using(crate::proofs::DecimalAnswers::fits_digits))]
    fn item(&self, left: i128, right: i128) -> Option<Option<i128>>
        requires { IsDigitLimit self.now.digits self.now.limit }
        ensures { IsFound (λ item. DecimalNumber item) (IsDecimalOrNull self.now.digits)
            (decimal_row (Some (calculated self.now.operator left right))) result }
    {
        let Some(number) = self.operator.calculate(left, right) else {
            return None;
        };
        if number.unsigned_abs() < self.limit {
            Some(Some(number))
        } else {
            None
        }
    }
}

// The integer of the decimal that a view shows, or null; 0 where it shows a value of another kind.
fn integer_in<A: Allocator>(view: &ScalarView<'_, A>) -> Option<i128>
    ensures { result ≡ option_map decimal_integer (sees view.now) }
{
    match view {
        ScalarView::Null => None,
        ScalarView::Decimal(number) => Some(*number),
        _ => Some(0),
    }
}
