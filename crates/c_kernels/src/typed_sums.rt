//! The sum of the column of a handle, by what its rows are worked as.
ghost use Rattle.std.specs.Prelude.{◌≡◌, ◌≢◌, Err, IfErr, IfOk, IsSomeAnd, None, Some, pos};
ghost use Rattle.runend_array.specs.Array.{column_of};
ghost use Rattle.runend_array.specs.declared.session.Kernel.TheVariants.{Sum as sum_kernel};
ghost use Rattle.runend_decimals.specs.Scales.{scale_of};
ghost use Rattle.runend_decimals.specs.declared.fault.DecimalError.TheVariants.{Refused};
ghost use Rattle.typed_columns.specs.Typed.{typed_of};
ghost use Rattle.typed_kernels.specs.Sums.{summand_of, IsTypedSumError};
ghost use Rattle.typed_kernels.specs.declared.sums.Summand.TheVariants.{Integers};
ghost use Rattle.c_columns.specs.Sessions.{IsReadInPlaceIn};
ghost use Rattle.c_kernels.specs.TypedSums.{AreIntegersTold, EndsOnSum, IsDecimalTold, IsFloatTold, IsSumError, IsSumNeverShortOn, IsSumOf, IsToldAs};

use c_columns::error_fields::{ErrorFields, NO_COLUMN, refuse};
use c_columns::handle::Handle;
use c_columns::pairs::pair_of;
use c_columns::sessions::{Session, context};
use column_core::{DType, VortexError};
use column_sums::{SumAnswer, SumValue};
use float_bits::FloatSum;
use runend_decimals::{DecimalError, DecimalSum};
use std::alloc::Global;
use typed_columns::TypedColumn;
use typed_kernels::{TypedSum, typed_sum};

/// Holds a sum, by `kind`: 0 it left the range of 64 bits; 1 it is `as_unsigned`; 2 it is `as_signed`; 7 it is the
/// float of 64 bits whose bits are `as_unsigned`; 8 it is the decimal at `scale` whose high 64 bits are `as_signed` and
/// whose low 64 bits are `as_unsigned`. `empty` is 1 where no row is valid, else 0, and `scale` is 0 for all other
/// kinds.
#[repr(C)]
#[derive(Clone, Copy)]
pub struct Total {
    pub as_unsigned: u64,
    pub as_signed: i64,
    pub kind: u8,
    pub empty: u8,
    pub scale: i8,
}

/// Writes the sum of the rows of the column of a handle that are not null, and returns 0. Else returns the number of an
/// error, and writes nothing: 22 for an empty handle, then as `typed_sum` is refused, with 14 and the row in the first
/// field for more digits than 38.
#[tactic(auto, using(crate::proofs::TypedSumEndings::sum_empty, crate::proofs::TypedSumEndings::short_empty, crate::proofs::TypedSumEndings::sum_ends, crate::proofs::TypedSumEndings::sum_told, crate::proofs::TypedSumEndings::never_short))]
pub fn typed_sum_in_handle(
    alloc: Global,
    session: &Session,
    column: &mut Handle,
    total: &mut Total,
    error: &mut ErrorFields,
) -> i32
    ensures same { column.new.column ≡ column.old.column }
    ensures told { result ≡ pos 0 → IsSomeAnd column.old.column (λ c. IsSumOf (typed_of c) total.new) }
    ensures kept { result ≢ pos 0 → total.new ≡ total.old }
    ensures ended { EndsOnSum column.old.column result error.new }
    ensures memory { IsSumNeverShortOn session.now column.old.column result }
{
    let Some(held) = column.take(alloc) else {
        return NO_COLUMN;
    };
    let outcome = total_of(alloc, session, &held);
    column.put(held);
    write_total(outcome, total, error)
}

// Returns the sum of a column for C. Refused as `typed_sum` is.
fn total_of(
    alloc: Global,
    session: &Session,
    column: &TypedColumn<Global>,
) -> Result<Total, DecimalError>
    ensures told { IfOk result (IsSumOf (typed_of column.now)) }
    ensures refused { IfErr result (IsTypedSumError (typed_of column.now)) }
    ensures first { summand_of (typed_of column.now) ≡ None → result ≡ Err (Refused VortexError.Unsupported) }
    ensures memory { summand_of (typed_of column.now) ≡ Some Integers →
        IsReadInPlaceIn session.now sum_kernel (column_of column.now.array) →
        result ≢ Err (Refused VortexError.OutOfMemory) }
{
    let mut ctx = context(alloc, session);
    match typed_sum(column, &mut ctx) {
        Ok(sum) => Ok(sum_told(&sum, column.array.dtype())),
        Err(why) => Err(why),
    }
}

// Returns the sum of a column of this type for C.
fn sum_told(sum: &TypedSum, dtype: DType) -> Total
    ensures { IsToldAs dtype sum.now result }
{
    match sum {
        TypedSum::Integers(answer) => integers_told(answer),
        TypedSum::Decimals(sum) => decimal_told(sum, scale_of(dtype)),
        TypedSum::Floats(sum) => float_told(sum),
    }
}

fn integers_told(answer: &SumAnswer) -> Total
    ensures { AreIntegersTold answer.now result }
{
    let (kind, as_unsigned, as_signed) = match answer.sum {
        None => (0, 0, 0),
        Some(SumValue::Unsigned(number)) => (1, number, 0),
        Some(SumValue::Signed(number)) => (2, 0, number),
    };
    Total {
        as_unsigned,
        as_signed,
        kind,
        empty: answer.is_empty as u8,
        scale: 0,
    }
}

fn decimal_told(sum: &DecimalSum, scale: i8) -> Total
    ensures { IsDecimalTold scale sum.now result }
{
    let pair = pair_of(sum.sum);
    Total {
        as_unsigned: pair.low,
        as_signed: pair.high,
        kind: 8,
        empty: sum.is_empty as u8,
        scale,
    }
}

fn float_told(sum: &FloatSum) -> Total
    ensures { IsFloatTold sum.now result }
{
    Total {
        as_unsigned: sum.rounded(),
        as_signed: 0,
        kind: 7,
        empty: (sum.rows() == 0) as u8,
        scale: 0,
    }
}

// Returns the scale of a type, 0 where it is not one of decimals.
fn scale_of(dtype: DType) -> i8
    ensures { result ≡ scale_of dtype }
{
    match dtype {
        DType::Decimal(decimal, _) => decimal.scale,
        _ => 0,
    }
}

// Writes the sum, and returns 0; else the number of a refusal, whose fields are written.
fn write_total(
    outcome: Result<Total, DecimalError>,
    total: &mut Total,
    error: &mut ErrorFields,
) -> i32
    ensures ok { IfOk outcome (λ found. (result ≡ pos 0) × (total.new ≡ found)) }
    ensures err { IfErr outcome (λ why. (result ≢ pos 0) × IsSumError why result error.new
        × (total.new ≡ total.old)) }
{
    match outcome {
        Ok(found) => {
            *total = found;
            0
        }
        Err(DecimalError::Refused(why)) => refuse(why, error),
        Err(DecimalError::Overflow { row }) => {
            *error = ErrorFields {
                first: row as u64,
                second: 0,
                third: 0,
            };
            i32::from(VortexError::CastOutOfRange.number())
        }
    }
}
