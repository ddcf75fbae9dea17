//! Columns compared with a number.
ghost use Rattle.std.specs.Prelude.{◌≡◌, IfOk, IsOkUnless, None, Some, false, option_map};
ghost use Rattle.std.specs.List.{AllZip};
ghost use Rattle.column_base.specs.declared.dtype.DType.TheVariants as types;
ghost use Rattle.column_base.specs.Types.{nullability_of};
ghost use Rattle.column_core.specs.Value.{Single};
ghost use Rattle.column_ops.specs.CompareFault.{compare_scalar_fault};
ghost use Rattle.column_ops.specs.Comparing.{compare_dtype, compare_with};
ghost use Rattle.exact_comparisons.specs.ExactRows.{is_numeric, number_fault, stored_fault, IsExactTruth};
ghost use Rattle.logical_types.specs.Storage.{storage_of};
ghost use Rattle.logical_types.specs.declared.types.LogicalType.TheVariants as logical;
ghost use Rattle.runend_array.specs.Array.{dtype_of, rows};
ghost use Rattle.tables.specs.TableFaults.{IsRefusedFirstBy};
ghost use Rattle.typed_columns.specs.Typed.{typed_of};
ghost use Rattle.typed_kernels.specs.Served.{served};

use crate::number_types::{NumberType, scalar_of};
use column_core::{DType, VortexError, VortexResult, is_list_type};
use column_ops::CompareOperator;
use exact_numbers::ExactNumber;
use float_bits::FloatFormat;
use runend_array::{ArrayRef, ExecutionCtx};
use std::alloc::Allocator;
use tables::compare_value;
use typed_columns::TypedColumn;
use typed_kernels::Served;

/// Returns whether the operator holds of each row and a number, both as the exact numbers that they are, null where the
/// row is: integers, decimals and floats are compared with each integer, decimal and double, and nothing is rounded. A
/// NaN is unequal to all numbers, and in no order with them. Takes a step for each run.
///
/// Refused as `Unsupported` for lists, and as `TypeMismatch` for other rows that are not numbers, dates and times among
/// them, before any memory is taken; else only as `OutOfMemory`.
pub fn compare_number<A: Allocator + Copy>(
    column: &TypedColumn<A>,
    operator: CompareOperator,
    number: ExactNumber,
    ctx: &mut ExecutionCtx<A>,
) -> VortexResult<ArrayRef<A>>
    ensures refused { IsRefusedFirstBy
        (number_fault (served (typed_of column.now)) (dtype_of column.now.array)) result }
    ensures truths { IfOk result (λ truths. AllZip (IsExactTruth (served (typed_of column.now))
        (dtype_of column.now.array) operator number) (rows column.now.array) (rows truths)) }
    ensures dtype { IfOk result (λ truths. dtype_of truths ≡
        types.Bool (nullability_of (dtype_of column.now.array))) }
    ensures session { ctx.new ≡ ctx.old }
{
    match Served::of(column) {
        Served::Stored => compare_stored(&column.array, operator, number, ctx),
        Served::Floats(format) => compare_floats(&column.array, format, operator, number, ctx),
        Served::Times(_) => Err(VortexError::TypeMismatch),
    }
}

/// Returns why the rows of a column are not compared with numbers, as `compare_number` is refused; `None` where they
/// are numbers.
pub fn number_fault<A: Allocator + Copy>(column: &TypedColumn<A>) -> Option<VortexError>
    ensures { result ≡ number_fault (served (typed_of column.now)) (dtype_of column.now.array) }
{
    match Served::of(column) {
        Served::Stored => stored_fault(column.array.dtype()),
        Served::Floats(_) => None,
        Served::Times(_) => Some(VortexError::TypeMismatch),
    }
}

// Compares integers and decimals. Refused as `Unsupported` for lists, and as `TypeMismatch` for other rows, before any
// memory is taken; else only as `OutOfMemory`.
fn compare_stored<A: Allocator + Copy>(
    column: &ArrayRef<A>,
    operator: CompareOperator,
    number: ExactNumber,
    ctx: &mut ExecutionCtx<A>,
) -> VortexResult<ArrayRef<A>>
    ensures refused { IsRefusedFirstBy (stored_fault (dtype_of column.now)) result }
    ensures truths { IfOk result (λ truths. AllZip (IsExactTruth Served.Stored (dtype_of column.now) operator number)
        (rows column.now) (rows truths)) }
    ensures dtype { IfOk result (λ truths. dtype_of truths ≡ types.Bool (nullability_of (dtype_of column.now))) }
    ensures session { ctx.new ≡ ctx.old }
{
    let dtype = column.dtype();
    let Some(numbers) = NumberType::of(dtype) else {
        return Err(fault_of(dtype));
    };
    let decision = number.decide(operator, numbers.scale, numbers.least, numbers.greatest);
    let value = scalar_of(dtype, decision.number);
    let truths = compare_value(column, decision.operator, &value, ctx);
    drop(value);
    truths
}

// Returns why what rows of a type are stored as is not compared with numbers.
fn stored_fault(dtype: DType) -> Option<VortexError>
    ensures { result ≡ stored_fault dtype }
{
    match NumberType::of(dtype) {
        Some(_) => None,
        None => Some(fault_of(dtype)),
    }
}

// Returns why rows that are not numbers are not compared.
fn fault_of(dtype: DType) -> VortexError
    requires { is_numeric dtype ≡ false }
    ensures { stored_fault dtype ≡ Some result }
{
    if is_list_type(dtype) {
        VortexError::Unsupported
    } else {
        VortexError::TypeMismatch
    }
}

// Compares floats of a format. Refused only as `OutOfMemory`.
fn compare_floats<A: Allocator + Copy>(
    column: &ArrayRef<A>,
    format: FloatFormat,
    operator: CompareOperator,
    number: ExactNumber,
    ctx: &mut ExecutionCtx<A>,
) -> VortexResult<ArrayRef<A>>
    requires floats { dtype_of column.now ≡ storage_of (logical.Float format) (nullability_of (dtype_of column.now)) }
    ensures only { IsOkUnless result VortexError.OutOfMemory }
    ensures truths { IfOk result (λ truths. AllZip
        (IsExactTruth (Served.Floats format) (dtype_of column.now) operator number) (rows column.now) (rows truths)) }
    ensures dtype { IfOk result (λ truths. dtype_of truths ≡ types.Bool (nullability_of (dtype_of column.now))) }
    ensures session { ctx.new ≡ ctx.old }
{
    let decision = number.decide_floats(operator, format);
    let truths = runend_floats::compare_numbers(column, decision.operator, decision.bits, ctx)?;
    ArrayRef::of_runs(*ctx.allocator(), truths)
}
