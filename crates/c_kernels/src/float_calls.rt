//! The calls on the columns of handles.
ghost use Rattle.std.specs.Prelude.{◌≡◌, ◌≢◌, [], IsSomeAnd, MatchOption, pos};
ghost use Rattle.column_floats.specs.Formats.{bits_fault, constant_fault, floats_fault};
ghost use Rattle.c_columns.specs.Ending.{WhereBoth};
ghost use Rattle.c_columns.specs.Flags.{flag_of};
ghost use Rattle.c_columns.specs.Handle.{array_in, format_in};
ghost use Rattle.c_columns.specs.Kinds.{operator_by};
ghost use Rattle.c_kernels.specs.Floats.{AreBitsOf, AreComparedBy, AreFloatsOf, EndsOnFloats};

use crate::float_columns::{compared, decoded, encoded};
use c_columns::commands::answer;
use c_columns::error_fields::{BAD_NUMBER, ErrorFields, NO_COLUMN};
use c_columns::handle::Handle;
use c_columns::kinds::{is_set, operator_by};
use column_ops::CompareOperator;
use std::alloc::Global;

/// Puts the floats whose bits the rows of a column are into a handle, as the run column of their keys, with one pattern
/// for each value where `is_canonical` is not 0, and returns 0. Else returns the number of an error, and leaves the
/// handle: 22 for an empty one, then as `encoded` is refused.
#[tactic(auto, using(crate::proofs::FloatEndings::floats_empty, crate::proofs::FloatEndings::column_ends, crate::proofs::FloatEndings::column_made))]
pub fn encode_handle(
    alloc: Global,
    bits: &mut Handle,
    is_canonical: u8,
    out: &mut Handle,
    error: &mut ErrorFields,
) -> i32
    ensures same { bits.new.column ≡ bits.old.column }
    ensures made { result ≡ pos 0 →
        WhereBoth (AreFloatsOf (flag_of is_canonical)) (array_in bits.old.column) (array_in out.new.column) }
    ensures untyped { result ≡ pos 0 → format_in out.new.column ≡ [] }
    ensures kept { result ≢ pos 0 → out.new.column ≡ out.old.column }
    ensures ended { EndsOnFloats bits_fault (array_in bits.old.column) result error.new }
{
    let Some(held) = bits.take(alloc) else {
        return NO_COLUMN;
    };
    let outcome = encoded(alloc, &held.array, is_set(is_canonical));
    bits.put(held);
    answer(outcome, out, error)
}

/// Puts the flat column of the bits of the floats into a handle, and returns 0. Else returns the number of an error,
/// and leaves the handle: 22 for an empty one, then as `decoded` is refused.
#[tactic(auto, using(crate::proofs::FloatEndings::floats_empty, crate::proofs::FloatEndings::column_ends, crate::proofs::FloatEndings::column_made))]
pub fn decode_handle(
    alloc: Global,
    floats: &mut Handle,
    out: &mut Handle,
    error: &mut ErrorFields,
) -> i32
    ensures same { floats.new.column ≡ floats.old.column }
    ensures made { result ≡ pos 0 → WhereBoth AreBitsOf (array_in floats.old.column) (array_in out.new.column) }
    ensures untyped { result ≡ pos 0 → format_in out.new.column ≡ [] }
    ensures kept { result ≢ pos 0 → out.new.column ≡ out.old.column }
    ensures ended { EndsOnFloats floats_fault (array_in floats.old.column) result error.new }
{
    let Some(held) = floats.take(alloc) else {
        return NO_COLUMN;
    };
    let outcome = decoded(alloc, &held.array);
    floats.put(held);
    answer(outcome, out, error)
}

/// Puts into a handle whether each float compares with the one with these bits as the operator of this number says, by
/// IEEE 754, or in its total order where `is_ieee` is 0, and returns 0. Else returns the number of an error, and leaves
/// the handle: 23 for a number that names no operator, then 22 for an empty handle, then as `compared` is refused.
pub fn compare_handle(
    alloc: Global,
    floats: &mut Handle,
    operator: u8,
    bits: u64,
    is_ieee: u8,
    out: &mut Handle,
    error: &mut ErrorFields,
) -> i32
    ensures same { floats.new.column ≡ floats.old.column }
    ensures made { result ≡ pos 0 → IsSomeAnd (operator_by operator)
        (λ op. WhereBoth (AreComparedBy (flag_of is_ieee) op bits) (array_in floats.old.column)
        (array_in out.new.column)) }
    ensures untyped { result ≡ pos 0 → format_in out.new.column ≡ [] }
    ensures kept { result ≢ pos 0 → out.new.column ≡ out.old.column }
    ensures ended { MatchOption (operator_by operator) (result ≡ pos 23)
        (λ op. EndsOnFloats (λ dtype. constant_fault dtype bits) (array_in floats.old.column) result error.new) }
{
    match operator_by(operator) {
        Some(operator) => compare_held(alloc, floats, operator, bits, is_ieee, out, error),
        None => BAD_NUMBER,
    }
}

// The same comparison, by an operator.
#[tactic(auto, using(crate::proofs::FloatEndings::constant_empty, crate::proofs::FloatEndings::compared_ends, crate::proofs::FloatEndings::column_made))]
fn compare_held(
    alloc: Global,
    floats: &mut Handle,
    operator: CompareOperator,
    bits: u64,
    is_ieee: u8,
    out: &mut Handle,
    error: &mut ErrorFields,
) -> i32
    ensures same { floats.new.column ≡ floats.old.column }
    ensures made { result ≡ pos 0 →
        WhereBoth (AreComparedBy (flag_of is_ieee) operator bits) (array_in floats.old.column)
        (array_in out.new.column) }
    ensures untyped { result ≡ pos 0 → format_in out.new.column ≡ [] }
    ensures kept { result ≢ pos 0 → out.new.column ≡ out.old.column }
    ensures ended { EndsOnFloats (λ dtype. constant_fault dtype bits) (array_in floats.old.column) result error.new }
{
    let Some(held) = floats.take(alloc) else {
        return NO_COLUMN;
    };
    let outcome = compared(alloc, &held.array, operator, bits, is_set(is_ieee));
    floats.put(held);
    answer(outcome, out, error)
}
