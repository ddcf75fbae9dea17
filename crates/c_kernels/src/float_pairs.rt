//! Two columns of floats worked row by row, and the call on their handles.
ghost use Rattle.std.specs.Prelude.{◌≡◌, ◌≢◌, [], IfOk, IsErrOf, IsSomeAnd, MatchOption, Some, pos};
ghost use Rattle.column_core.specs.Refusal.{IsRefusedBy};
ghost use Rattle.typed_columns.specs.Typed.{format_of};
ghost use Rattle.c_columns.specs.Ending.{WhereAll};
ghost use Rattle.c_columns.specs.Handle.{array_in, format_in};
ghost use Rattle.c_kernels.specs.FloatPairs.{float_operator_numbered, float_pair_fault, AreFloatsCombined, EndsOnFloatPairs};

use c_columns::commands::answer;
use c_columns::error_fields::{BAD_NUMBER, ErrorFields, NO_COLUMN};
use c_columns::flat::{Boxed, boxed};
use c_columns::handle::Handle;
use c_columns::sessions::plain_context;
use column_core::{VortexError, VortexResult};
use runend_array::ArrayRef;
use runend_pairs::{FloatOperator, float_numeric};
use std::alloc::Global;

/// Puts what the operator of this number gives for the two floats at each place into a handle, and returns 0. Else
/// returns the number of an error, and leaves that handle: 23 for a number that names no operator, then 22 for an empty
/// handle, and then as `floats_combined` is refused.
pub fn combine_float_handles(
    alloc: Global,
    left: &mut Handle,
    operator: u8,
    right: &mut Handle,
    out: &mut Handle,
    error: &mut ErrorFields,
) -> i32
    ensures same { left.new.column ≡ left.old.column }
    ensures same_right { right.new.column ≡ right.old.column }
    ensures made { result ≡ pos 0 → IsSomeAnd (float_operator_numbered operator)
        (λ operator. WhereAll (AreFloatsCombined operator) (array_in left.old.column) (array_in right.old.column)
        (array_in out.new.column)) }
    ensures untyped { result ≡ pos 0 → format_in out.new.column ≡ [] }
    ensures kept { result ≢ pos 0 → out.new.column ≡ out.old.column }
    ensures ended { MatchOption (float_operator_numbered operator) (result ≡ pos 23)
        (λ operator. EndsOnFloatPairs (array_in left.old.column) (array_in right.old.column) result error.new) }
{
    match float_operator_by(operator) {
        Some(operator) => combine_floats_held(alloc, left, operator, right, out, error),
        None => BAD_NUMBER,
    }
}

/// Returns the operator on floats of a number: 6 to 8 add, subtract and multiply, and 14 divides.
pub fn float_operator_by(number: u8) -> Option<FloatOperator>
    ensures { result ≡ float_operator_numbered number }
{
    match number {
        6 => Some(FloatOperator::Add),
        7 => Some(FloatOperator::Subtract),
        8 => Some(FloatOperator::Multiply),
        14 => Some(FloatOperator::Divide),
        _ => None,
    }
}

/// Returns what the operator gives for the two floats at each place: a constant where both columns are constants and
/// have a row, else the least number of runs. Refused as `float_numeric` of `runend_pairs` is, before any memory is
/// taken, else only as `OutOfMemory`.
pub fn floats_combined(
    alloc: Global,
    left: &ArrayRef<Global>,
    operator: FloatOperator,
    right: &ArrayRef<Global>,
) -> VortexResult<Boxed>
    ensures made { IfOk result (λ made. AreFloatsCombined operator left.now right.now made.value.array) }
    ensures untyped { IfOk result (λ made. format_of made.value ≡ []) }
    ensures refused { IsRefusedBy (float_pair_fault left.now right.now) result }
    ensures first { (error : VortexError) → float_pair_fault left.now right.now ≡ Some error → IsErrOf result error }
{
    let answers = float_numeric(left, operator, right, &mut plain_context(alloc))?;
    boxed(alloc, answers)
}

// The same call, by an operator.
fn combine_floats_held(
    alloc: Global,
    left: &mut Handle,
    operator: FloatOperator,
    right: &mut Handle,
    out: &mut Handle,
    error: &mut ErrorFields,
) -> i32
    ensures same { left.new.column ≡ left.old.column }
    ensures same_right { right.new.column ≡ right.old.column }
    ensures made { result ≡ pos 0 →
        WhereAll (AreFloatsCombined operator) (array_in left.old.column) (array_in right.old.column)
        (array_in out.new.column) }
    ensures untyped { result ≡ pos 0 → format_in out.new.column ≡ [] }
    ensures kept { result ≢ pos 0 → out.new.column ≡ out.old.column }
    ensures ended { EndsOnFloatPairs (array_in left.old.column) (array_in right.old.column) result error.new }
{
    let Some(lent) = left.take(alloc) else {
        return NO_COLUMN;
    };
    let Some(held) = right.take(alloc) else {
        left.put(lent);
        return NO_COLUMN;
    };
    let outcome = floats_combined(alloc, &lent.array, operator, &held.array);
    left.put(lent);
    right.put(held);
    answer(outcome, out, error)
}
