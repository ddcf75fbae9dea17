//! The sum of a column, by what its rows are worked as.
ghost use Rattle.std.specs.Prelude.{◌≡◌, ◌≢◌, Err, IfErr, IfOk, IfSome, None, Some, true};
ghost use Rattle.column_floats.specs.Formats.{IsFormatOf};
ghost use Rattle.column_sums.specs.SumAnswer.{sum_fault};
ghost use Rattle.runend_array.specs.Array.{column_of, dtype_of};
ghost use Rattle.runend_array.specs.declared.session.Kernel.TheVariants.{Sum as sum_kernel};
ghost use Rattle.runend_commands.specs.KernelForms.{IsReadInPlace};
ghost use Rattle.runend_decimals.specs.Rows.{is_decimals};
ghost use Rattle.runend_decimals.specs.declared.fault.DecimalError.TheVariants.{Refused};
ghost use Rattle.typed_columns.specs.Typed.{typed_of};
ghost use Rattle.typed_kernels.specs.Sums.{summand_of, summed_as, IsTypedSum, IsTypedSumError, IsSummable};

use crate::meanings::Served;
use column_core::{DType, VortexError};
use column_floats::FloatFormat;
use column_sums::SumAnswer;
use float_bits::FloatSum;
use logical_types::LogicalType;
use runend_array::ExecutionCtx;
use runend_commands::compute;
use runend_decimals::{DecimalError, DecimalSum, sum_decimals};
use runend_floats::sum_floats;
use std::alloc::Allocator;
use typed_columns::TypedColumn;

/// Says what the rows of a column are added as.
#[derive(Clone, Copy, Debug, PartialEq, Eq, Drop)]
pub enum Summand {
    /// Adds integers: rows of no other meaning, and lengths of time.
    Integers,
    /// Adds decimals.
    Decimals,
    /// Adds floats of this format.
    Floats(FloatFormat),
}

/// Holds the sum of a column.
#[derive(Drop)]
pub enum TypedSum {
    /// Holds the sum of integers, in 64 bits, or of lengths of time, in their unit.
    Integers(SumAnswer),
    /// Holds the exact sum of decimals, at the scale of the column.
    Decimals(DecimalSum),
    /// Holds the exact sum of floats, which is rounded once, to 64 bits, by `rounded`.
    Floats(FloatSum),
}

/// Returns the sum of the rows that are not null. Integers and lengths of time are added one at a time in 64 bits, in
/// which any sum on the way may leave none; decimals exactly, of 38 digits at most; floats exactly, of any number. Runs
/// and constants are added run by run where the kernel is registered.
///
/// Refused as `Unsupported` for dates, times of a day and timestamps, and for rows that are stored as neither integers
/// nor decimals, before any memory is taken; decimals then as `Overflow` with the first row such that the rows up to it
/// add up to more than 38 digits; else only as `OutOfMemory`, and never for integers that are read in place.
pub fn typed_sum<A: Allocator + Copy>(
    column: &TypedColumn<A>,
    ctx: &mut ExecutionCtx<A>,
) -> Result<TypedSum, DecimalError>
    ensures sum { IfOk result (IsTypedSum (typed_of column.now)) }
    ensures refused { IfErr result (IsTypedSumError (typed_of column.now)) }
    ensures first { summand_of (typed_of column.now) ≡ None → result ≡ Err (Refused VortexError.Unsupported) }
    ensures in_place { summand_of (typed_of column.now) ≡ Some Summand.Integers →
        IsReadInPlace ctx.old sum_kernel (column_of column.now.array) →
        result ≢ Err (Refused VortexError.OutOfMemory) }
    ensures session { ctx.new ≡ ctx.old }
{
    match Summand::of(column) {
        Some(Summand::Integers) => {
            let answer = compute::sum(&column.array, ctx)?;
            Ok(TypedSum::Integers(answer))
        }
        Some(Summand::Decimals) => {
            let sum = sum_decimals(&column.array, ctx)?;
            Ok(TypedSum::Decimals(sum))
        }
        Some(Summand::Floats(_)) => {
            let sum = sum_floats(&column.array, ctx)?;
            Ok(TypedSum::Floats(sum))
        }
        None => Err(DecimalError::Refused(VortexError::Unsupported)),
    }
}

impl Summand {
    /// Returns what the rows of a column are added as, `None` where they are not added.
    pub fn of<A: Allocator + Copy>(column: &TypedColumn<A>) -> Option<Summand>
        ensures summand { result ≡ summand_of (typed_of column.now) }
        ensures summable { IfSome result (IsSummable (dtype_of column.now.array)) }
    {
        match Served::of(column) {
            Served::Stored => summed_as(column.array.dtype()),
            Served::Floats(format) => Some(Summand::Floats(format)),
            Served::Times(LogicalType::Duration(_)) => Some(Summand::Integers),
            Served::Times(_) => None,
        }
    }
}

// Returns what stored rows of a type are added as, `None` where they are not added.
fn summed_as(dtype: DType) -> Option<Summand>
    ensures summand { result ≡ summed_as dtype }
    ensures summable { IfSome result (IsSummable dtype) }
{
    match dtype {
        DType::Primitive(_, _) => Some(Summand::Integers),
        DType::Decimal(_, _) => Some(Summand::Decimals),
        _ => None,
    }
}
