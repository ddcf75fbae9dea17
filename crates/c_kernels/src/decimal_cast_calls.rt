//! The casts to decimals, and of decimals to integers, on the columns of handles.
ghost use Rattle.std.specs.Prelude.{◌≡◌, ◌≢◌, [], IfErr, IfOk, IsSomeAnd, MatchOption, Some, pos};
ghost use Rattle.runend_decimals.specs.Rows.{decimals_fault};
ghost use Rattle.typed_columns.specs.Typed.{format_of};
ghost use Rattle.c_columns.specs.Ending.{AreFields, WhereBoth};
ghost use Rattle.c_columns.specs.Handle.{array_in, format_in};
ghost use Rattle.c_columns.specs.Kinds.{ptype_by as ptype_by_number};
ghost use Rattle.c_kernels.specs.DecimalCasts.{exact_fault, AreDecimals, AreWholes, EndsOnRescale, FailsAsDecimals, FailsAsWholes, IsPrecision, IsRescaleErrorAs};

use crate::decimal_casts::{decimals_cast, wholes_cast};
use c_columns::error_fields::{BAD_NUMBER, ErrorFields, NO_COLUMN, refuse};
use c_columns::flat::Boxed;
use c_columns::handle::Handle;
use c_columns::kinds::ptype_by;
use column_core::{DecimalDType, PType, VortexError};
use runend_decimals::RescaleError;
use std::alloc::Global;

// The digits that a decimal has at most.
const MOST_DIGITS: u8 = 38;

/// Puts integers or decimals as decimals of a precision and scale into a handle, and returns 0. Else returns the number
/// of an error, and leaves the handle: 23 for a precision that is not 1 to 38, then 22 for an empty handle, then as
/// `decimals_cast` is refused, with 14, the row, and 1 where no number of that scale is the same, else 0.
pub fn cast_decimals_handle(
    alloc: Global,
    column: &mut Handle,
    to: DecimalDType,
    out: &mut Handle,
    error: &mut ErrorFields,
) -> i32
    ensures same { column.new.column ≡ column.old.column }
    ensures made { result ≡ pos 0 → WhereBoth (AreDecimals to) (array_in column.old.column) (array_in out.new.column) }
    ensures untyped { result ≡ pos 0 → format_in out.new.column ≡ [] }
    ensures kept { result ≢ pos 0 → out.new.column ≡ out.old.column }
    ensures digits { ¬ IsPrecision to.precision → result ≡ pos 23 }
    ensures ended { IsPrecision to.precision →
        EndsOnRescale exact_fault (FailsAsDecimals to) (array_in column.old.column) result error.new }
{
    if to.precision == 0 || to.precision > MOST_DIGITS {
        return BAD_NUMBER;
    }
    cast_decimals_held(alloc, column, to, out, error)
}

// The same cast, to decimals that there are.
#[tactic(auto, using(crate::proofs::RescaleEndings::rescale_empty, crate::proofs::RescaleEndings::decimals_end, crate::proofs::RescaleEndings::rescale_made))]
fn cast_decimals_held(
    alloc: Global,
    column: &mut Handle,
    to: DecimalDType,
    out: &mut Handle,
    error: &mut ErrorFields,
) -> i32
    ensures same { column.new.column ≡ column.old.column }
    ensures made { result ≡ pos 0 → WhereBoth (AreDecimals to) (array_in column.old.column) (array_in out.new.column) }
    ensures untyped { result ≡ pos 0 → format_in out.new.column ≡ [] }
    ensures kept { result ≢ pos 0 → out.new.column ≡ out.old.column }
    ensures ended { EndsOnRescale exact_fault (FailsAsDecimals to) (array_in column.old.column) result error.new }
{
    let Some(held) = column.take(alloc) else {
        return NO_COLUMN;
    };
    let outcome = decimals_cast(alloc, &held.array, to);
    column.put(held);
    answer_rescale(outcome, out, error)
}

/// Puts decimals as integers of the type of this number into a handle, and returns 0. Else returns the number of an
/// error, and leaves the handle: 23 for a number that names no type of integers, then 22 for an empty handle, then as
/// `wholes_cast` is refused, with 14, the row, and 1 where the decimal has a fraction, else 0.
pub fn cast_wholes_handle(
    alloc: Global,
    column: &mut Handle,
    to: u8,
    out: &mut Handle,
    error: &mut ErrorFields,
) -> i32
    ensures same { column.new.column ≡ column.old.column }
    ensures made { result ≡ pos 0 → IsSomeAnd (ptype_by_number to)
        (λ ptype. WhereBoth (AreWholes ptype) (array_in column.old.column) (array_in out.new.column)) }
    ensures untyped { result ≡ pos 0 → format_in out.new.column ≡ [] }
    ensures kept { result ≢ pos 0 → out.new.column ≡ out.old.column }
    ensures ended { MatchOption (ptype_by_number to) (result ≡ pos 23) (λ ptype. EndsOnRescale decimals_fault
        (FailsAsWholes ptype) (array_in column.old.column) result error.new) }
{
    match ptype_by(to) {
        Some(ptype) => cast_wholes_held(alloc, column, ptype, out, error),
        None => BAD_NUMBER,
    }
}

// The same cast of decimals, to a type of integers.
#[tactic(auto, using(crate::proofs::RescaleEndings::rescale_empty, crate::proofs::RescaleEndings::wholes_end, crate::proofs::RescaleEndings::rescale_made))]
fn cast_wholes_held(
    alloc: Global,
    column: &mut Handle,
    ptype: PType,
    out: &mut Handle,
    error: &mut ErrorFields,
) -> i32
    ensures same { column.new.column ≡ column.old.column }
    ensures made { result ≡ pos 0 → WhereBoth (AreWholes ptype) (array_in column.old.column) (array_in out.new.column) }
    ensures untyped { result ≡ pos 0 → format_in out.new.column ≡ [] }
    ensures kept { result ≢ pos 0 → out.new.column ≡ out.old.column }
    ensures ended { EndsOnRescale decimals_fault (FailsAsWholes ptype) (array_in column.old.column) result error.new }
{
    let Some(held) = column.take(alloc) else {
        return NO_COLUMN;
    };
    let outcome = wholes_cast(alloc, &held.array, ptype);
    column.put(held);
    answer_rescale(outcome, out, error)
}

// Puts a column into `out` and returns 0, or returns the number of a refusal and writes its fields.
#[tactic(auto, using(c_columns::proofs::Held::array_some, c_columns::proofs::Held::format_some))]
fn answer_rescale(
    outcome: Result<Boxed, RescaleError>,
    out: &mut Handle,
    error: &mut ErrorFields,
) -> i32
    ensures ok { IfOk outcome (λ made. (result ≡ pos 0) × (out.new.column ≡ Some made.value)) }
    ensures array { IfOk outcome (λ made. array_in out.new.column ≡ Some made.value.array) }
    ensures format { IfOk outcome (λ made. format_in out.new.column ≡ format_of made.value) }
    ensures err { IfErr outcome (λ why. (result ≢ pos 0) × (out.new.column ≡ out.old.column)
        × IsRescaleErrorAs why result error.new) }
{
    match outcome {
        Ok(made) => {
            out.put(made);
            0
        }
        Err(RescaleError::Refused(why)) => refuse(why, error),
        Err(RescaleError::Inexact { row }) => misfit(row, 1, error),
        Err(RescaleError::Overflow { row }) => misfit(row, 0, error),
    }
}

// Writes the row that does not fit and why, and returns 14.
fn misfit(row: usize, why: u64, error: &mut ErrorFields) -> i32
    ensures code { result ≡ pos 14 }
    ensures fields { AreFields error.new row why 0 }
{
    *error = ErrorFields {
        first: row as u64,
        second: why,
        third: 0,
    };
    i32::from(VortexError::CastOutOfRange.number())
}
