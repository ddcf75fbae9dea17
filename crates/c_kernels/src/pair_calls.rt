//! The call on the columns of two handles.
ghost use Rattle.std.specs.Prelude.{◌≡◌, ◌≢◌, [], IfErr, IfOk, IsSomeAnd, MatchOption, Some, pos};
ghost use Rattle.typed_columns.specs.Typed.{format_of};
ghost use Rattle.c_columns.specs.Ending.{WhereAll};
ghost use Rattle.c_columns.specs.Handle.{array_in, format_in};
ghost use Rattle.c_kernels.specs.Combined.{operator_numbered, AreCombined, EndsOnPairs, IsToldAs};

use crate::combined::combine;
use crate::operators::{PairOperator, pair_operator_by};
use c_columns::error_fields::{BAD_NUMBER, ErrorFields, NO_COLUMN, refuse};
use c_columns::flat::Boxed;
use c_columns::handle::Handle;
use column_core::VortexError;
use runend_pairs::ZipError;
use std::alloc::Global;

/// Puts what the operator of this number answers for the two rows at each place into a handle, and returns 0. Else
/// returns the number of an error, and leaves that handle: 23 for a number that names no operator, then 22 for an empty
/// handle, and then as `combine` is refused, with 14 and the row in the first field for an integer or a decimal that
/// the type of the answers does not have.
pub fn combine_handles(
    alloc: Global,
    left: &mut Handle,
    operator: u8,
    right: &mut Handle,
    out: &mut Handle,
    error: &mut ErrorFields,
) -> i32
    ensures same { left.new.column ≡ left.old.column }
    ensures same_right { right.new.column ≡ right.old.column }
    ensures made { result ≡ pos 0 → IsSomeAnd (operator_numbered operator)
        (λ operator. WhereAll (AreCombined operator) (array_in left.old.column) (array_in right.old.column)
        (array_in out.new.column)) }
    ensures untyped { result ≡ pos 0 → format_in out.new.column ≡ [] }
    ensures kept { result ≢ pos 0 → out.new.column ≡ out.old.column }
    ensures ended { MatchOption (operator_numbered operator) (result ≡ pos 23)
        (λ operator. EndsOnPairs operator (array_in left.old.column) (array_in right.old.column) result error.new) }
{
    match pair_operator_by(operator) {
        Some(operator) => combine_held(alloc, left, operator, right, out, error),
        None => BAD_NUMBER,
    }
}

// The same for an operator.
fn combine_held(
    alloc: Global,
    left: &mut Handle,
    operator: PairOperator,
    right: &mut Handle,
    out: &mut Handle,
    error: &mut ErrorFields,
) -> i32
    ensures same { left.new.column ≡ left.old.column }
    ensures same_right { right.new.column ≡ right.old.column }
    ensures made { result ≡ pos 0 →
        WhereAll (AreCombined operator) (array_in left.old.column) (array_in right.old.column)
        (array_in out.new.column) }
    ensures untyped { result ≡ pos 0 → format_in out.new.column ≡ [] }
    ensures kept { result ≢ pos 0 → out.new.column ≡ out.old.column }
    ensures ended { EndsOnPairs operator (array_in left.old.column) (array_in right.old.column) result error.new }
{
    let Some(lent) = left.take(alloc) else {
        return NO_COLUMN;
    };
    let Some(held) = right.take(alloc) else {
        left.put(lent);
        return NO_COLUMN;
    };
    let outcome = combine(alloc, &lent.array, operator, &held.array);
    left.put(lent);
    right.put(held);
    answer(outcome, out, error)
}

/// Puts the column into its handle and returns 0, or returns the number of a refusal and writes its fields.
#[tactic(auto, using(c_columns::proofs::Held::array_some, c_columns::proofs::Held::format_some))]
pub(crate) fn answer(
    outcome: Result<Boxed, ZipError>,
    out: &mut Handle,
    error: &mut ErrorFields,
) -> i32
    ensures ok { IfOk outcome (λ made. (result ≡ pos 0) × (out.new.column ≡ Some made.value)) }
    ensures array { IfOk outcome (λ made. array_in out.new.column ≡ Some made.value.array) }
    ensures format { IfOk outcome (λ made. format_in out.new.column ≡ format_of made.value) }
    ensures err { IfErr outcome (λ why. (result ≢ pos 0) × (out.new.column ≡ out.old.column)
        × IsToldAs why result error.new) }
{
    match outcome {
        Ok(made) => {
            out.put(made);
            0
        }
        Err(ZipError::Refused(why)) => refuse(why, error),
        Err(ZipError::Overflow { row }) => {
            *error = ErrorFields {
                first: row as u64,
                second: 0,
                third: 0,
            };
            i32::from(VortexError::CastOutOfRange.number())
        }
    }
}
