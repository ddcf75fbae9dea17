//! What C learns of an error.
ghost use Rattle.std.specs.Prelude.{◌≡◌, ◌≢◌, pos, IfOk, IfErr, OnErr};
ghost use Rattle.column_base.specs.Error.{number_of};
ghost use Rattle.c_columns.specs.Ending.{HasFields, IsIndexField};

use column_core::{VortexError, VortexResult};

/// Numbers the refusal of a call that is lent a handle without a column.
pub const NO_COLUMN: i32 = 22;

/// Numbers the refusal of a number that names no type, or no operator.
pub const BAD_NUMBER: i32 = 23;

/// Holds the fields of an error, in their order; 0 where it has fewer.
#[repr(C)]
#[derive(Clone, Copy)]
pub struct ErrorFields {
    pub first: u64,
    pub second: u64,
    pub third: u64,
}

/// Writes the fields of an error, and answers its number.
pub fn refuse(error: VortexError, fields: &mut ErrorFields) -> i32
    ensures number { result ≡ pos (number_of error) }
    ensures fields { HasFields error fields.new }
    ensures fails { result ≢ pos 0 }
{
    *fields = fields_of(error);
    i32::from(error.number())
}

/// Returns 0 and writes what was found, or returns the number of an error and writes only its fields.
pub fn write_answer<T: Drop>(
    outcome: VortexResult<T>,
    place: &mut T,
    fields: &mut ErrorFields,
) -> i32
    ensures ok { IfOk outcome (λ found. (result ≡ pos 0) × (place.new ≡ found)) }
    ensures err { IfErr outcome
        (λ error. (result ≡ pos (number_of error)) × (result ≢ pos 0) × HasFields error fields.new) }
    ensures kept { OnErr outcome (place.new ≡ place.old) }
{
    match outcome {
        Ok(found) => {
            *place = found;
            0
        }
        Err(error) => refuse(error, fields),
    }
}

/// Returns 0, or the number of an error, whose fields are written.
pub fn write_status(outcome: VortexResult<()>, fields: &mut ErrorFields) -> i32
    ensures ok { IfOk outcome (λ _. result ≡ pos 0) }
    ensures err { IfErr outcome
        (λ error. (result ≡ pos (number_of error)) × (result ≢ pos 0) × HasFields error fields.new) }
{
    match outcome {
        Ok(()) => 0,
        Err(error) => refuse(error, fields),
    }
}

fn fields_of(error: VortexError) -> ErrorFields
    ensures { HasFields error result }
{
    match error {
        VortexError::LengthsDiffer { ends, values } => counts(ends, values, 0),
        VortexError::NoRunsWindow { offset, length } => counts(offset, length, 0),
        VortexError::EndsNotStrict { run } => counts(run, 0, 0),
        VortexError::FirstEndBelowOffset { end, offset } => counts(end, offset, 0),
        VortexError::LastEndBelowWindow { end, required } => counts(end, required, 0),
        VortexError::OutOfBounds { index, length } => counts(index_field(index), length, 0),
        VortexError::BadRange {
            start,
            stop,
            length,
        } => counts(start, stop, length),
        VortexError::MaskLength { mask, length } => counts(mask, length, 0),
        VortexError::ColumnLength { left, right } => counts(left, right, 0),
        VortexError::EndsTypeNumber { number } => ErrorFields {
            first: number,
            second: 0,
            third: 0,
        },
        VortexError::RunCount { stated, found } => ErrorFields {
            first: stated,
            second: found as u64,
            third: 0,
        },
        _ => counts(0, 0, 0),
    }
}

// An index as a field; 2^64 - 1 for an index that does not fit `u64`.
fn index_field(index: i128) -> usize
    ensures { IsIndexField index result }
{
    match usize::try_from(index) {
        Ok(place) => place,
        Err(_) => usize::MAX,
    }
}

fn counts(first: usize, second: usize, third: usize) -> ErrorFields
    ensures first { result.first ≡ first }
    ensures second { result.second ≡ second }
    ensures third { result.third ≡ third }
{
    ErrorFields {
        first: first as u64,
        second: second as u64,
        third: third as u64,
    }
}
