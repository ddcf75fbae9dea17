//! Sums, differences, products and quotients of floats.
ghost use Rattle.std.specs.Prelude.{◌≡◌, Some, length, IfOk, IsErrOf, IsOkUnless};
ghost use Rattle.column_base.specs.declared.dtype.DType.TheVariants as column;
ghost use Rattle.column_core.specs.Refusal.{IsRefusedBy};
ghost use Rattle.column_core.specs.ScalarView.{sees};
ghost use Rattle.column_core.specs.Value.{Number};
ghost use Rattle.column_floats.specs.Formats.{format_of};
ghost use Rattle.runend_array.specs.Array.{column_of, dtype_of, rows};
ghost use Rattle.runend_pairs.specs.Answers.{row_of};
ghost use Rattle.runend_pairs.specs.Faults.{AreNumbers};
ghost use Rattle.runend_pairs.specs.FloatKeys.{float_numeric_fault, float_numeric_of, is_halves};
ghost use Rattle.runend_pairs.specs.Operations.{numeric_dtype, IsOfKind, IsViewIn};
ghost use Rattle.runend_pairs.specs.Zipped.{are_constant, zip_rows, IsAnswerColumn};

use crate::columns::{either_null, zip_columns};
use crate::fault::{fault_of_lengths, only_refused};
use crate::float_keys::FloatKey;
use crate::pairs::Pairwise;
use crate::stored::{Integers, Stored};
use column_core::{DType, PType, ScalarView, VortexError, VortexResult, is_same_kind};
use column_floats::float_format;
use runend_array::{ArrayRef, ExecutionCtx};
use std::alloc::Allocator;

/// Says what two floats give.
#[derive(Debug, Clone, Copy, PartialEq, Eq, Drop)]
pub enum FloatOperator {
    Add,
    Subtract,
    Multiply,
    Divide,
}

/// Returns the sum, difference, product or quotient of the two rows at each place, for columns of floats that are
/// stored by their keys; null where either row is null. The answer is the one of IEEE 754 in their format, rounded
/// once, at a tie to the even one. No row is refused: an answer past the finite floats is an infinity, and so is a
/// number other than 0 that is divided by 0. Each NaN is the quiet one with a plus and without payload.
///
/// Where both columns are constants and have a row, the answer is a constant, else the run column of the only tight
/// exact cover of the answers. Takes a step for each run of either column; a constant is one run.
///
/// Refused as `TypeMismatch` where the left column is not of `i16`, `i32` or `i64`, or the right one is of another
/// type, then as `Unsupported` for `i16`, then as `ColumnLength` where they differ in rows, all before any memory is
/// taken, and else only as `OutOfMemory`.
pub fn float_numeric<A: Allocator + Copy>(
    left: &ArrayRef<A>,
    operator: FloatOperator,
    right: &ArrayRef<A>,
    ctx: &mut ExecutionCtx<A>,
) -> VortexResult<ArrayRef<A>>
    ensures answers { IfOk result (λ answers. IsAnswerColumn (are_constant (column_of left.now) (column_of right.now))
        (zip_rows (float_numeric_of operator (format_of (dtype_of left.now))) (rows left.now) (rows right.now))
        (numeric_dtype (dtype_of left.now) (dtype_of right.now)) (column_of answers)) }
    ensures refused { IsRefusedBy (float_numeric_fault (dtype_of left.now) (dtype_of right.now)
        (length (rows left.now)) (length (rows right.now))) result }
    ensures first { (error : VortexError) → float_numeric_fault (dtype_of left.now) (dtype_of right.now)
        (length (rows left.now)) (length (rows right.now)) ≡ Some error → IsErrOf result error }
    ensures session { ctx.new ≡ ctx.old }
{
    if let Some(error) = fault_of_floats(left.dtype(), right.dtype(), left.len(), right.len()) {
        return Err(error);
    }
    let alloc = *ctx.allocator();
    match left.dtype() {
        DType::Primitive(PType::I32, _) => calculate::<i32, A>(alloc, left, operator, right),
        DType::Primitive(PType::I64, _) => calculate::<i64, A>(alloc, left, operator, right),
        _ => unreachable!(),
    }
}

// Returns why floats of two columns of these types and numbers of rows are not calculated with: `TypeMismatch` where
// the left one is not of floats or the right one is of another type, `Unsupported` for floats of 16 bits, then
// `ColumnLength` where they differ in rows.
fn fault_of_floats(
    left: DType,
    right: DType,
    left_count: usize,
    right_count: usize,
) -> Option<VortexError>
    ensures { result ≡ float_numeric_fault left right left_count right_count }
{
    if !(float_format(left).is_some() && is_same_kind(left, right)) {
        return Some(VortexError::TypeMismatch);
    }
    if is_of_halves(left) {
        return Some(VortexError::Unsupported);
    }
    fault_of_lengths(left_count, right_count)
}

// Whether it is a type of floats of 16 bits.
fn is_of_halves(dtype: DType) -> bool
    ensures { result ≡ is_halves dtype }
{
    match dtype {
        DType::Primitive(PType::I16, _) => true,
        _ => false,
    }
}

// The same for columns of keys of this type, of the same number of rows. Refused only as `OutOfMemory`.
fn calculate<T: FloatKey, A: Allocator + Copy>(
    alloc: A,
    left: &ArrayRef<A>,
    operator: FloatOperator,
    right: &ArrayRef<A>,
) -> VortexResult<ArrayRef<A>>
    requires { AreNumbers T.PTYPE (dtype_of left.now) (dtype_of right.now) (length (rows left.now))
        (length (rows right.now)) }
    ensures only { IsOkUnless result VortexError.OutOfMemory }
    ensures answers { IfOk result (λ answers. IsAnswerColumn (are_constant (column_of left.now) (column_of right.now))
        (zip_rows (float_numeric_of operator T.format) (rows left.now) (rows right.now))
        (numeric_dtype (dtype_of left.now) (dtype_of right.now)) (column_of answers)) }
{
    let nullability = either_null(left.dtype(), right.dtype());
    let calculation = FloatCalculation { operator };
    let made = zip_columns::<T, Integers, FloatCalculation, A>(
        alloc,
        left,
        &calculation,
        right,
        &Integers,
        nullability,
    );
    only_refused(made)
}

/// Calculates a float from two.
#[derive(Drop)]
struct FloatCalculation {
    operator: FloatOperator,
}

impl<T: FloatKey> Pairwise<T, Integers> for FloatCalculation {
    ghost takes = { λ calculation left right. IsOfKind (λ nullability. column.Primitive T.PTYPE nullability) left ×
        IsOfKind (λ nullability. column.Primitive T.PTYPE nullability) right };

    ghost answer_of = { λ calculation. float_numeric_of calculation.operator T.format };

    ghost has = { λ calculation answer. Unit {0} };

    fn answer<A: Allocator>(
        &self,
        left: &ScalarView<'_, A>,
        right: &ScalarView<'_, A>,
    ) -> Option<Option<T>> {
        match (key_in::<T, A>(left), key_in::<T, A>(right)) {
            (Some(left), Some(right)) => Some(Some(T::combine(self.operator, left, right))),
            _ => Some(None),
        }
    }
}

// The key that a view of a row of keys shows, or null.
fn key_in<T: FloatKey, A: Allocator>(view: &ScalarView<'_, A>) -> Option<T>
    requires { IsViewIn (λ nullability. column.Primitive T.PTYPE nullability) view.now }
    ensures { row_of (λ item. Number (T.number item)) result ≡ sees view.now }
{
    <Integers as Stored<T>>::of_view(&Integers, view)
}
