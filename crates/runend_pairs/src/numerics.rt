//! Sums, differences and products of integers.
ghost use Rattle.std.specs.Prelude.{◌≡◌, Err, Some, length, option_map, IfErr, IfOk, FitsSigned, IfSome, IfNone};
ghost use Rattle.std.specs.Int.{w128};
ghost use Rattle.column_core.specs.ScalarView.{sees};
ghost use Rattle.column_core.specs.Value.{Number};
ghost use Rattle.runend_array.specs.Array.{column_of, dtype_of, rows};
ghost use Rattle.runend_pairs.specs.Answers.{IsFound};
ghost use Rattle.runend_pairs.specs.Faults.{numeric_fault, AreNumbers, IsCallRefusal, IsZipRefusal};
ghost use Rattle.runend_pairs.specs.Operations.{calculated, integer_of, number_row, numeric_dtype, numeric_of, IsNumberOrNull, ptype_in};
ghost use Rattle.runend_pairs.specs.Zipped.{are_constant, zip_rows, IsAnswerColumn};

use crate::columns::{either_null, zip_columns};
use crate::fault::{ZipError, fault_of_numeric};
use crate::pairs::Pairwise;
use crate::stored::Integers;
use column_core::{DType, NativePType, PType, ScalarView, VortexError};
use runend_array::{ArrayRef, ExecutionCtx};
use std::alloc::Allocator;

/// Says what two integers give.
#[derive(Debug, Clone, Copy, PartialEq, Eq, Drop)]
pub enum NumericOperator {
    Add,
    Subtract,
    Multiply,
}

/// Returns the sum, difference or product of the two rows at each place, in the native type of both columns, null where
/// either row is null. Where both columns are constants and have a row, the answer is a constant, else the run column
/// of the only tight exact cover of the answers. Takes a step for each run of either column; a constant is one run.
///
/// Refused as `Unsupported` where either column is not of integers, then as `TypeMismatch` where they are of two native
/// types, then as `ColumnLength` where they differ in rows; then as `Overflow` with the first row whose answer does not
/// fit the type, and else only as `OutOfMemory`.
pub fn numeric<A: Allocator + Copy>(
    left: &ArrayRef<A>,
    operator: NumericOperator,
    right: &ArrayRef<A>,
    ctx: &mut ExecutionCtx<A>,
) -> Result<ArrayRef<A>, ZipError>
    ensures answers { IfOk result (λ answers. IsAnswerColumn (are_constant (column_of left.now) (column_of right.now))
        (zip_rows (numeric_of operator) (rows left.now) (rows right.now))
        (numeric_dtype (dtype_of left.now) (dtype_of right.now)) (column_of answers)) }
    ensures refused { IfErr result (IsCallRefusal
        (numeric_fault (dtype_of left.now) (dtype_of right.now) (length (rows left.now)) (length (rows right.now)))
        (IsNumberOrNull (ptype_in (dtype_of left.now)))
        (zip_rows (numeric_of operator) (rows left.now) (rows right.now))) }
    ensures first { (error : VortexError) → numeric_fault (dtype_of left.now) (dtype_of right.now)
        (length (rows left.now)) (length (rows right.now)) ≡ Some error → result ≡ Err (ZipError.Refused error) }
    ensures session { ctx.new ≡ ctx.old }
{
    if let Some(error) = fault_of_numeric(left.dtype(), right.dtype(), left.len(), right.len()) {
        return Err(ZipError::Refused(error));
    }
    match left.dtype() {
        DType::Primitive(ptype, _) => { numeric_in(*ctx.allocator(), ptype, left, operator, right) }
        _ => unreachable!(),
    }
}

// The same for columns of this native type, of the same number of rows.
fn numeric_in<A: Allocator + Copy>(
    alloc: A,
    ptype: PType,
    left: &ArrayRef<A>,
    operator: NumericOperator,
    right: &ArrayRef<A>,
) -> Result<ArrayRef<A>, ZipError>
    requires { AreNumbers ptype (dtype_of left.now) (dtype_of right.now) (length (rows left.now))
        (length (rows right.now)) }
    ensures answers { IfOk result (λ answers. IsAnswerColumn (are_constant (column_of left.now) (column_of right.now))
        (zip_rows (numeric_of operator) (rows left.now) (rows right.now))
        (numeric_dtype (dtype_of left.now) (dtype_of right.now)) (column_of answers)) }
    ensures refused { IfErr result (IsZipRefusal (IsNumberOrNull ptype)
        (zip_rows (numeric_of operator) (rows left.now) (rows right.now))) }
{
    match ptype {
        PType::U8 => numeric_as::<u8, A>(alloc, left, operator, right),
        PType::U16 => numeric_as::<u16, A>(alloc, left, operator, right),
        PType::U32 => numeric_as::<u32, A>(alloc, left, operator, right),
        PType::U64 => numeric_as::<u64, A>(alloc, left, operator, right),
        PType::I8 => numeric_as::<i8, A>(alloc, left, operator, right),
        PType::I16 => numeric_as::<i16, A>(alloc, left, operator, right),
        PType::I32 => numeric_as::<i32, A>(alloc, left, operator, right),
        PType::I64 => numeric_as::<i64, A>(alloc, left, operator, right),
    }
}

// The same by the native type.
fn numeric_as<T: NativePType, A: Allocator + Copy>(
    alloc: A,
    left: &ArrayRef<A>,
    operator: NumericOperator,
    right: &ArrayRef<A>,
) -> Result<ArrayRef<A>, ZipError>
    requires { AreNumbers T.PTYPE (dtype_of left.now) (dtype_of right.now) (length (rows left.now))
        (length (rows right.now)) }
    ensures answers { IfOk result (λ answers. IsAnswerColumn (are_constant (column_of left.now) (column_of right.now))
        (zip_rows (numeric_of operator) (rows left.now) (rows right.now))
        (numeric_dtype (dtype_of left.now) (dtype_of right.now)) (column_of answers)) }
    ensures refused { IfErr result (IsZipRefusal (IsNumberOrNull T.PTYPE)
        (zip_rows (numeric_of operator) (rows left.now) (rows right.now))) }
{
    let nullability = either_null(left.dtype(), right.dtype());
    zip_columns::<T, Integers, Calculation, A>(
        alloc,
        left,
        &Calculation { operator },
        right,
        &Integers,
        nullability,
    )
}

/// Calculates an integer from two.
#[derive(Drop)]
struct Calculation {
    operator: NumericOperator,
}

impl<T: NativePType> Pairwise<T, Integers> for Calculation {
    ghost takes = { λ calculation left right. Unit {0} };

    ghost answer_of = { λ calculation. numeric_of calculation.operator };

    ghost has = { λ calculation. IsNumberOrNull T.PTYPE };

    fn answer<A: Allocator>(
        &self,
        left: &ScalarView<'_, A>,
        right: &ScalarView<'_, A>,
    ) -> Option<Option<T>> {
        match (integer_in(left), integer_in(right)) {
            (Some(left), Some(right)) => self.operator.item::<T>(left, right),
            _ => Some(None),
        }
    }
}

impl NumericOperator {
    // The item of the integer that two give, where the type has it.
    fn item<T: NativePType>(self, left: i128, right: i128) -> Option<Option<T>>
        ensures { IsFound (λ item. Number (T.number item)) (IsNumberOrNull T.PTYPE)
            (number_row (Some (calculated self left right))) result }
    {
        match self.calculate(left, right) {
            Some(number) => match T::narrow(number) {
                Some(item) => Some(Some(item)),
                None => None,
            },
            None => None,
        }
    }

    /// Returns the integer that two give, where it fits 128 bits.
    pub(crate) fn calculate(self, left: i128, right: i128) -> Option<i128>
        ensures some { IfSome result (λ number. number ≡ calculated self left right) }
        ensures none { IfNone result (¬ FitsSigned w128 (calculated self left right)) }
    {
        match self {
            NumericOperator::Add => left.checked_add(right),
            NumericOperator::Subtract => left.checked_sub(right),
            NumericOperator::Multiply => left.checked_mul(right),
        }
    }
}

// The integer that a view shows, or null; 0 where it shows a value of another kind.
fn integer_in<A: Allocator>(view: &ScalarView<'_, A>) -> Option<i128>
    ensures { result ≡ option_map integer_of (sees view.now) }
{
    match view {
        ScalarView::Null => None,
        ScalarView::Unsigned(number) => Some(i128::from(*number)),
        ScalarView::Signed(number) => Some(i128::from(*number)),
        _ => Some(0),
    }
}
