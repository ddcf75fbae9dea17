//! The call on the columns of two handles.
ghost use Rattle.std.specs.Prelude.{◌≡◌, ◌≢◌, IfErr, IfOk, IsSomeAnd, MatchOption, Some, pos};
ghost use Rattle.typed_columns.specs.Typed.{format_of};
ghost use Rattle.c_columns.specs.Handle.{array_in, format_in};
ghost use Rattle.c_kernels.specs.Grouped.{answer_format, fold_numbered, AreMade, EndsOnGroups, IsToldAs};

use crate::grouped::{BoxedGroups, groups_of};
use crate::named::fold_named;
use c_columns::error_fields::{BAD_NUMBER, ErrorFields, NO_COLUMN, refuse};
use c_columns::handle::Handle;
use column_core::VortexError;
use runend_pairs::{GroupError, GroupFold};
use std::alloc::Global;

/// Puts the keys of the groups of two columns into one handle and the answers into another, and returns 0. Else
/// returns the number of an error, and leaves both: 23 for a number that names no fold, then 22 for an empty handle,
/// and then as `groups_of` is refused, with 14 and the group in the first field for a sum that does not fit 64 bits.
pub fn fold_handles(
    alloc: Global,
    keys: &mut Handle,
    values: &mut Handle,
    fold: u8,
    out_keys: &mut Handle,
    out_answers: &mut Handle,
    error: &mut ErrorFields,
) -> i32
    ensures same { keys.new.column ≡ keys.old.column }
    ensures same_values { values.new.column ≡ values.old.column }
    ensures made { result ≡ pos 0 → IsSomeAnd (fold_numbered fold)
        (λ fold. AreMade fold (array_in keys.old.column) (array_in values.old.column) (array_in out_keys.new.column)
        (array_in out_answers.new.column)) }
    ensures typed { result ≡ pos 0 → format_in out_keys.new.column ≡ format_in keys.old.column }
    ensures typed_answers { result ≡ pos 0 → IsSomeAnd (fold_numbered fold)
        (λ fold. format_in out_answers.new.column ≡ answer_format fold (format_in values.old.column)) }
    ensures kept { result ≢ pos 0 → out_keys.new.column ≡ out_keys.old.column }
    ensures kept_answers { result ≢ pos 0 → out_answers.new.column ≡ out_answers.old.column }
    ensures ended { MatchOption (fold_numbered fold) (result ≡ pos 23)
        (λ fold. EndsOnGroups fold (array_in keys.old.column) (array_in values.old.column) result error.new) }
{
    match fold_named(fold) {
        Some(fold) => fold_held(alloc, keys, values, fold, out_keys, out_answers, error),
        None => BAD_NUMBER,
    }
}

// The same for a fold.
fn fold_held(
    alloc: Global,
    keys: &mut Handle,
    values: &mut Handle,
    fold: GroupFold,
    out_keys: &mut Handle,
    out_answers: &mut Handle,
    error: &mut ErrorFields,
) -> i32
    ensures same { keys.new.column ≡ keys.old.column }
    ensures same_values { values.new.column ≡ values.old.column }
    ensures made { result ≡ pos 0 →
        AreMade fold (array_in keys.old.column) (array_in values.old.column) (array_in out_keys.new.column)
        (array_in out_answers.new.column) }
    ensures typed { result ≡ pos 0 → format_in out_keys.new.column ≡ format_in keys.old.column }
    ensures typed_answers { result ≡ pos 0 →
        format_in out_answers.new.column ≡ answer_format fold (format_in values.old.column) }
    ensures kept { result ≢ pos 0 → out_keys.new.column ≡ out_keys.old.column }
    ensures kept_answers { result ≢ pos 0 → out_answers.new.column ≡ out_answers.old.column }
    ensures ended { EndsOnGroups fold (array_in keys.old.column) (array_in values.old.column) result error.new }
{
    let Some(lent) = keys.take(alloc) else {
        return NO_COLUMN;
    };
    let Some(held) = values.take(alloc) else {
        keys.put(lent);
        return NO_COLUMN;
    };
    let outcome = groups_of(alloc, fold, &lent, &held);
    keys.put(lent);
    values.put(held);
    answer(outcome, out_keys, out_answers, error)
}

// Puts both columns into their handles and answers 0, or answers the number of a refusal and writes its fields.
#[tactic(auto, using(c_columns::proofs::Held::array_some, c_columns::proofs::Held::format_some))]
fn answer(
    outcome: Result<BoxedGroups, GroupError>,
    out_keys: &mut Handle,
    out_answers: &mut Handle,
    error: &mut ErrorFields,
) -> i32
    ensures ok { IfOk outcome (λ made. (result ≡ pos 0) × (out_keys.new.column ≡ Some made.keys.value)
        × (out_answers.new.column ≡ Some made.answers.value)) }
    ensures arrays { IfOk outcome (λ made. (array_in out_keys.new.column ≡ Some made.keys.value.array)
        × (array_in out_answers.new.column ≡ Some made.answers.value.array)) }
    ensures formats { IfOk outcome (λ made. (format_in out_keys.new.column ≡ format_of made.keys.value)
        × (format_in out_answers.new.column ≡ format_of made.answers.value)) }
    ensures err { IfErr outcome (λ why. (result ≢ pos 0) × (out_keys.new.column ≡ out_keys.old.column)
        × (out_answers.new.column ≡ out_answers.old.column) × IsToldAs why result error.new) }
{
    match outcome {
        Ok(made) => {
            out_keys.put(made.keys);
            out_answers.put(made.answers);
            0
        }
        Err(GroupError::Refused(why)) => refuse(why, error),
        Err(GroupError::SumOverflow { group }) => {
            *error = ErrorFields {
                first: group as u64,
                second: 0,
                third: 0,
            };
            i32::from(VortexError::CastOutOfRange.number())
        }
    }
}
