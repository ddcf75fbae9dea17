//! Running totals of a column of integers, at the ends of its runs.
ghost use Rattle.std.specs.Prelude.{◌≡◌, Err, Some, length, map, IfErr, IfOk};
ghost use Rattle.column_base.specs.declared.dtype.DType.TheVariants as column;
ghost use Rattle.column_base.specs.declared.dtype.Nullability.TheVariants.{Nullable};
ghost use Rattle.column_base.specs.declared.dtype.PType.TheVariants.{I64, U64};
ghost use Rattle.column_base.specs.Types.{HasNumber};
ghost use Rattle.column_core.specs.Computed.{IsComputed};
ghost use Rattle.column_core.specs.PrimitiveForm.{optional_numbers, primitive_dtype};
ghost use Rattle.column_sums.specs.SumAnswer.{number_in};
ghost use Rattle.runend_array.specs.Array.{dtype_of, rows};
ghost use Rattle.runend_windows.specs.Ends.{ends_of};
ghost use Rattle.runend_windows.specs.Window.{last_end, run_rows};
ghost use Rattle.runend_pairs.specs.GroupFaults.{numbers_fault};
ghost use Rattle.runend_pairs.specs.Groups.{AreWholeRuns};
ghost use Rattle.runend_pairs.specs.Sums.{sum_of, sum_ptype, summed_ptype};
ghost use Rattle.runend_pairs.specs.Totals.{AreRunEnds, AreRunningAnswers, IsRunningRefusal, IsTotalRefusal};

use crate::folds::Fold;
use crate::number_runs::number_runs;
use crate::running::fold_running;
use crate::sums::{SignedTotal, UnsignedTotal};
use crate::total_fault::{TotalError, fault_of_numbers};
use crate::values::ValueRuns;
use column_core::{
    NativePType, PrimitiveArray, PrimitiveValues as Values, UnsignedPType, VortexError,
};
use column_sums::SignedPType;
use runend_array::{ArrayRef, ExecutionCtx};
use std::alloc::Allocator;

/// Holds running totals at the ends of runs of equal neighbouring rows.
#[derive(Drop)]
pub struct RunningTotals<A: Allocator> {
    /// Holds the row that each run ends before.
    pub ends: PrimitiveArray<A>,
    /// Holds the sum of all rows before that row.
    pub totals: PrimitiveArray<A>,
}

/// Returns where each run of equal neighbouring rows ends, null being equal to null, and the sum of all rows before its
/// end, in `i64` for signed rows and in `u64` for unsigned ones. Null rows are skipped: a total is null only where all
/// rows so far are null. A total is the exact sum, whatever the order of the rows. Takes a step and 8 bytes for each
/// run; a constant is one run.
///
/// Refused as `Unsupported` where the column is not of integers, then as `Overflow` with the first run whose total does
/// not fit 64 bits, and else only as `OutOfMemory`.
pub fn running_totals<A: Allocator + Copy>(
    array: &ArrayRef<A>,
    ctx: &mut ExecutionCtx<A>,
) -> Result<RunningTotals<A>, TotalError>
    ensures ends { IfOk result (λ made. AreRunEnds (rows array.now) (dtype_of array.now) made.ends) }
    ensures totals { IfOk result (λ made. AreRunningAnswers sum_of (ends_of made.ends)
        (map number_in (rows array.now)) (optional_numbers made.totals)) }
    ensures dtype { IfOk result (λ made. primitive_dtype made.totals ≡
        column.Primitive (summed_ptype (dtype_of array.now)) Nullable) }
    ensures computed { IfOk result (λ made. IsComputed made.totals) }
    ensures refused { IfErr result (IsTotalRefusal (dtype_of array.now) (rows array.now)) }
    ensures first { (error : VortexError) → numbers_fault (dtype_of array.now) ≡ Some error →
        result ≡ Err (TotalError.Refused error) }
    ensures session { ctx.new ≡ ctx.old }
{
    if let Some(error) = fault_of_numbers(array.dtype()) {
        return Err(TotalError::Refused(error));
    }
    let alloc = *ctx.allocator();
    let (ends, numbers) = number_runs(alloc, array)?;
    let totals = match total_numbers(alloc, &ends, &numbers) {
        Ok(totals) => totals,
        Err(error) => {
            drop(numbers);
            drop(ends);
            return Err(error);
        }
    };
    drop(numbers);
    Ok(RunningTotals { ends, totals })
}

// The totals at the ends of runs of these numbers.
fn total_numbers<A: Allocator + Copy>(
    alloc: A,
    ends: &PrimitiveArray<A>,
    numbers: &PrimitiveArray<A>,
) -> Result<PrimitiveArray<A>, TotalError>
    requires runs { AreWholeRuns ends.now }
    requires paired { length (optional_numbers numbers.now) ≡ length (ends_of ends.now) }
    ensures totals { IfOk result (λ totals. AreRunningAnswers sum_of (ends_of ends.now)
        (run_rows (ends_of ends.now) (optional_numbers numbers.now) 0 (last_end (ends_of ends.now)))
        (optional_numbers totals)) }
    ensures dtype { IfOk result (λ totals. primitive_dtype totals ≡
        column.Primitive (sum_ptype numbers.now.ptype) Nullable) }
    ensures computed { IfOk result (λ totals. IsComputed totals) }
    ensures refused { IfErr result (IsRunningRefusal (HasNumber (sum_ptype numbers.now.ptype)) sum_of
        (ends_of ends.now)
        (run_rows (ends_of ends.now) (optional_numbers numbers.now) 0 (last_end (ends_of ends.now)))) }
{
    match numbers.values() {
        Values::I8(items) => total_signed(alloc, ends, items.as_slice(), numbers),
        Values::I16(items) => total_signed(alloc, ends, items.as_slice(), numbers),
        Values::I32(items) => total_signed(alloc, ends, items.as_slice(), numbers),
        Values::I64(items) => total_signed(alloc, ends, items.as_slice(), numbers),
        Values::U8(items) => total_unsigned(alloc, ends, items.as_slice(), numbers),
        Values::U16(items) => total_unsigned(alloc, ends, items.as_slice(), numbers),
        Values::U32(items) => total_unsigned(alloc, ends, items.as_slice(), numbers),
        Values::U64(items) => total_unsigned(alloc, ends, items.as_slice(), numbers),
    }
}

// The same for items of a signed type.
fn total_signed<T: SignedPType, A: Allocator + Copy>(
    alloc: A,
    ends: &PrimitiveArray<A>,
    items: &[T],
    numbers: &PrimitiveArray<A>,
) -> Result<PrimitiveArray<A>, TotalError>
    requires runs { AreWholeRuns ends.now }
    requires paired { length (optional_numbers numbers.now) ≡ length (ends_of ends.now) }
    requires stored { map T.number items.now ≡ numbers.now.numbers }
    requires typed { sum_ptype numbers.now.ptype ≡ I64 }
    ensures totals { IfOk result (λ totals. AreRunningAnswers sum_of (ends_of ends.now)
        (run_rows (ends_of ends.now) (optional_numbers numbers.now) 0 (last_end (ends_of ends.now)))
        (optional_numbers totals)) }
    ensures dtype { IfOk result (λ totals. primitive_dtype totals ≡
        column.Primitive (sum_ptype numbers.now.ptype) Nullable) }
    ensures computed { IfOk result (λ totals. IsComputed totals) }
    ensures refused { IfErr result (IsRunningRefusal (HasNumber (sum_ptype numbers.now.ptype)) sum_of
        (ends_of ends.now)
        (run_rows (ends_of ends.now) (optional_numbers numbers.now) 0 (last_end (ends_of ends.now)))) }
{
    total_items::<T, i64, SignedTotal, A>(alloc, ends, items, numbers)
}

// The same for items of an unsigned type.
fn total_unsigned<T: UnsignedPType, A: Allocator + Copy>(
    alloc: A,
    ends: &PrimitiveArray<A>,
    items: &[T],
    numbers: &PrimitiveArray<A>,
) -> Result<PrimitiveArray<A>, TotalError>
    requires runs { AreWholeRuns ends.now }
    requires paired { length (optional_numbers numbers.now) ≡ length (ends_of ends.now) }
    requires stored { map T.number items.now ≡ numbers.now.numbers }
    requires typed { sum_ptype numbers.now.ptype ≡ U64 }
    ensures totals { IfOk result (λ totals. AreRunningAnswers sum_of (ends_of ends.now)
        (run_rows (ends_of ends.now) (optional_numbers numbers.now) 0 (last_end (ends_of ends.now)))
        (optional_numbers totals)) }
    ensures dtype { IfOk result (λ totals. primitive_dtype totals ≡
        column.Primitive (sum_ptype numbers.now.ptype) Nullable) }
    ensures computed { IfOk result (λ totals. IsComputed totals) }
    ensures refused { IfErr result (IsRunningRefusal (HasNumber (sum_ptype numbers.now.ptype)) sum_of
        (ends_of ends.now)
        (run_rows (ends_of ends.now) (optional_numbers numbers.now) 0 (last_end (ends_of ends.now)))) }
{
    total_items::<T, u64, UnsignedTotal, A>(alloc, ends, items, numbers)
}

// The answers of the fold `S`, for items that are null where the numbers are.
fn total_items<T: NativePType, N: NativePType, S: Fold<T, N>, A: Allocator + Copy>(
    alloc: A,
    ends: &PrimitiveArray<A>,
    items: &[T],
    numbers: &PrimitiveArray<A>,
) -> Result<PrimitiveArray<A>, TotalError>
    requires runs { AreWholeRuns ends.now }
    requires paired { length (optional_numbers numbers.now) ≡ length (ends_of ends.now) }
    requires stored { map T.number items.now ≡ numbers.now.numbers }
    ensures totals { IfOk result (λ totals. AreRunningAnswers S.answer_of (ends_of ends.now)
        (run_rows (ends_of ends.now) (optional_numbers numbers.now) 0 (last_end (ends_of ends.now)))
        (optional_numbers totals)) }
    ensures dtype { IfOk result (λ totals. primitive_dtype totals ≡ column.Primitive N.PTYPE Nullable) }
    ensures computed { IfOk result (λ totals. IsComputed totals) }
    ensures refused { IfErr result (IsRunningRefusal S.gives S.answer_of (ends_of ends.now)
        (run_rows (ends_of ends.now) (optional_numbers numbers.now) 0 (last_end (ends_of ends.now)))) }
{
    let runs = ValueRuns {
        ends,
        items,
        validity: numbers.validity(),
    };
    fold_running::<T, N, S, A>(alloc, &runs)
}
