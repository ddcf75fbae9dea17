//! The answers for the rows of two columns, on the heap.
ghost use Rattle.std.specs.Prelude.{◌≡◌, [], Err, Some, IfErr, IfOk};
ghost use Rattle.runend_array.specs.Array.{dtype_of};
ghost use Rattle.typed_columns.specs.Typed.{format_of};
ghost use Rattle.c_kernels.specs.Combined.{are_decimals, calculate_fault, pair_fault, row_without, AreCalculated, AreCombined, IsFirstLarge, IsPairRefusal};

use crate::operators::PairOperator;
use c_columns::flat::{Boxed, boxed};
use c_columns::sessions::plain_context;
use column_core::{DType, VortexError};
use runend_array::{ArrayRef, ExecutionCtx};
use runend_pairs::{
    NumericOperator, ZipError, boolean, coalesce, compare, decimal_numeric, greatest_of, least_of,
    numeric,
};
use std::alloc::Global;

/// Returns what the operator answers for the two rows at each place: a constant where both columns are constants and
/// have a row, else the least number of runs. Refused as the operations of `runend_pairs` refuse, and for memory.
pub fn combine(
    alloc: Global,
    left: &ArrayRef<Global>,
    operator: PairOperator,
    right: &ArrayRef<Global>,
) -> Result<Boxed, ZipError>
    ensures made { IfOk result (λ made. AreCombined operator left.now right.now made.value.array) }
    ensures untyped { IfOk result (λ made. format_of made.value ≡ []) }
    ensures refused { IfErr result
        (IsPairRefusal (pair_fault operator left.now right.now) (row_without operator left.now right.now)) }
    ensures first { (error : VortexError) → pair_fault operator left.now right.now ≡ Some error →
        result ≡ Err (ZipError.Refused error) }
{
    let answers = answers_of(alloc, left, operator, right)?;
    let made = boxed(alloc, answers)?;
    Ok(made)
}

// The same, not yet on the heap.
fn answers_of(
    alloc: Global,
    left: &ArrayRef<Global>,
    operator: PairOperator,
    right: &ArrayRef<Global>,
) -> Result<ArrayRef<Global>, ZipError>
    ensures made { IfOk result (λ made. AreCombined operator left.now right.now made) }
    ensures refused { IfErr result
        (IsPairRefusal (pair_fault operator left.now right.now) (row_without operator left.now right.now)) }
    ensures first { (error : VortexError) → pair_fault operator left.now right.now ≡ Some error →
        result ≡ Err (ZipError.Refused error) }
{
    let mut ctx = plain_context(alloc);
    match operator {
        PairOperator::Compare(operator) => {
            let truths = compare(left, operator, right, &mut ctx)?;
            Ok(truths)
        }
        PairOperator::Calculate(operator) => {
            let numbers = calculate(left, operator, right, &mut ctx)?;
            Ok(numbers)
        }
        PairOperator::Connect(operator) => {
            let truths = boolean(left, operator, right, &mut ctx)?;
            Ok(truths)
        }
        PairOperator::Coalesce => {
            let rows = coalesce(left, right, &mut ctx)?;
            Ok(rows)
        }
        PairOperator::Least => {
            let rows = least_of(left, right, &mut ctx)?;
            Ok(rows)
        }
        PairOperator::Greatest => {
            let rows = greatest_of(left, right, &mut ctx)?;
            Ok(rows)
        }
    }
}

// Adds, subtracts or multiplies two columns of decimals, and any others as columns of integers.
fn calculate(
    left: &ArrayRef<Global>,
    operator: NumericOperator,
    right: &ArrayRef<Global>,
    ctx: &mut ExecutionCtx<Global>,
) -> Result<ArrayRef<Global>, ZipError>
    ensures made { IfOk result (λ made.
        AreCalculated operator (are_decimals (dtype_of left.now) (dtype_of right.now)) left.now right.now made) }
    ensures refused { IfErr result (IsPairRefusal
        (calculate_fault operator (are_decimals (dtype_of left.now) (dtype_of right.now)) left.now right.now)
        (IsFirstLarge operator (are_decimals (dtype_of left.now) (dtype_of right.now)) left.now right.now)) }
    ensures first { (error : VortexError) →
        calculate_fault operator (are_decimals (dtype_of left.now) (dtype_of right.now)) left.now right.now ≡ Some error
        → result ≡ Err (ZipError.Refused error) }
{
    if are_decimals(left.dtype(), right.dtype()) {
        decimal_numeric(left, operator, right, ctx)
    } else {
        numeric(left, operator, right, ctx)
    }
}

// Are both types of decimals?
fn are_decimals(left: DType, right: DType) -> bool
    ensures { result ≡ are_decimals left right }
{
    match (left, right) {
        (DType::Decimal(_, _), DType::Decimal(_, _)) => true,
        _ => false,
    }
}
