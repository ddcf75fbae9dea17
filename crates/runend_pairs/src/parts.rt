//! What the rows of a column of integers add to a sum, so that the sums of parts of a column can be joined.
ghost use Rattle.std.specs.Prelude.{◌≡◌, Some, length, map, IfOk, IsErrOf};
ghost use Rattle.column_core.specs.PrimitiveForm.{optional_numbers};
ghost use Rattle.column_core.specs.Refusal.{IsRefusedBy};
ghost use Rattle.column_sums.specs.SumRange.{SignedRange, UnsignedRange, sum_range};
ghost use Rattle.runend_array.specs.Array.{dtype_of, rows};
ghost use Rattle.runend_windows.specs.Ends.{ends_of};
ghost use Rattle.runend_windows.specs.Window.{last_end, run_rows};
ghost use Rattle.runend_pairs.specs.GroupFaults.{numbers_fault};
ghost use Rattle.runend_pairs.specs.Groups.{AreWholeRuns};
ghost use Rattle.runend_pairs.specs.SumParts.{ArePartsIn, ArePartsOf, AreSumParts, JoinsParts};

use crate::number_runs::number_runs;
use crate::part_sums::{PartSum, SignedParts, UnsignedParts, parts_in_runs};
use crate::total_fault::fault_of_numbers;
use crate::values::ValueRuns;
use column_core::{
    NativePType, PrimitiveArray, PrimitiveValues as Values, UnsignedPType, VortexError,
    VortexResult,
};
use column_sums::SignedPType;
use runend_array::ArrayRef;
use std::alloc::Allocator;

/// Says what rows add to a sum. These sums never leave their types: fewer than 2^64 rows, each of at most 2^63 in
/// absolute value, add up to less than 2^127, and rows below 2^64 to less than 2^128.
#[derive(Debug, Clone, Copy, Drop, PartialEq, Eq)]
pub enum SumParts {
    Signed(SignedParts),
    Unsigned(UnsignedParts),
}

/// Returns what the rows of a column of any form add to a sum: their total, and the least and the greatest of the
/// partial sums from row to row, one of which is the 0 before the first row. From these numbers of each part follows
/// the sum of joined rows, also where a partial sum overflows (`joined_parts`). Takes a step for each run, and 8 bytes
/// and a value for it; a constant is one run. Refused as `Unsupported` exactly where the rows are not integers, before
/// any memory is taken, and else only as `OutOfMemory`.
pub fn sum_parts<A: Allocator + Copy>(alloc: A, array: &ArrayRef<A>) -> VortexResult<SumParts>
    ensures parts { IfOk result (ArePartsOf (dtype_of array.now) (rows array.now)) }
    ensures refused { IsRefusedBy (numbers_fault (dtype_of array.now)) result }
    ensures first { (error : VortexError) → numbers_fault (dtype_of array.now) ≡ Some error → IsErrOf result error }
{
    if let Some(error) = fault_of_numbers(array.dtype()) {
        return Err(error);
    }
    let (ends, numbers) = number_runs(alloc, array)?;
    let parts = parts_of_numbers(&ends, &numbers);
    drop(numbers);
    drop(ends);
    Ok(parts)
}

/// Proves what joined rows add to a sum, by what the parts add: the totals are added; the least and the greatest
/// partial sums are the least and the greatest among those of the first part and those of the second raised by the
/// total of the first.
pub fn joined_parts()
    ensures { JoinsParts }
{}

// What runs of these numbers add.
fn parts_of_numbers<A: Allocator + Copy>(
    ends: &PrimitiveArray<A>,
    numbers: &PrimitiveArray<A>,
) -> SumParts
    requires runs { AreWholeRuns ends.now }
    requires paired { length (optional_numbers numbers.now) ≡ length (ends_of ends.now) }
    ensures { ArePartsIn (sum_range numbers.now.ptype)
        (run_rows (ends_of ends.now) (optional_numbers numbers.now) 0 (last_end (ends_of ends.now))) result }
{
    match numbers.values() {
        Values::I8(items) => signed_parts(ends, items.as_slice(), numbers),
        Values::I16(items) => signed_parts(ends, items.as_slice(), numbers),
        Values::I32(items) => signed_parts(ends, items.as_slice(), numbers),
        Values::I64(items) => signed_parts(ends, items.as_slice(), numbers),
        Values::U8(items) => unsigned_parts(ends, items.as_slice(), numbers),
        Values::U16(items) => unsigned_parts(ends, items.as_slice(), numbers),
        Values::U32(items) => unsigned_parts(ends, items.as_slice(), numbers),
        Values::U64(items) => unsigned_parts(ends, items.as_slice(), numbers),
    }
}

// The same for items of a signed type.
fn signed_parts<T: SignedPType, A: Allocator + Copy>(
    ends: &PrimitiveArray<A>,
    items: &[T],
    numbers: &PrimitiveArray<A>,
) -> SumParts
    requires runs { AreWholeRuns ends.now }
    requires paired { length (optional_numbers numbers.now) ≡ length (ends_of ends.now) }
    requires stored { map T.number items.now ≡ numbers.now.numbers }
    requires typed { sum_range numbers.now.ptype ≡ SignedRange }
    ensures { ArePartsIn (sum_range numbers.now.ptype)
        (run_rows (ends_of ends.now) (optional_numbers numbers.now) 0 (last_end (ends_of ends.now))) result }
{
    let parts = parts_of_items::<T, SignedParts, A>(ends, items, numbers);
    SumParts::Signed(parts)
}

// The same for items of an unsigned type.
fn unsigned_parts<T: UnsignedPType, A: Allocator + Copy>(
    ends: &PrimitiveArray<A>,
    items: &[T],
    numbers: &PrimitiveArray<A>,
) -> SumParts
    requires runs { AreWholeRuns ends.now }
    requires paired { length (optional_numbers numbers.now) ≡ length (ends_of ends.now) }
    requires stored { map T.number items.now ≡ numbers.now.numbers }
    requires typed { sum_range numbers.now.ptype ≡ UnsignedRange }
    ensures { ArePartsIn (sum_range numbers.now.ptype)
        (run_rows (ends_of ends.now) (optional_numbers numbers.now) 0 (last_end (ends_of ends.now))) result }
{
    let parts = parts_of_items::<T, UnsignedParts, A>(ends, items, numbers);
    SumParts::Unsigned(parts)
}

// What `P` keeps of items that are null where the numbers are.
fn parts_of_items<T: NativePType, P: PartSum<T>, A: Allocator + Copy>(
    ends: &PrimitiveArray<A>,
    items: &[T],
    numbers: &PrimitiveArray<A>,
) -> P
    requires runs { AreWholeRuns ends.now }
    requires paired { length (optional_numbers numbers.now) ≡ length (ends_of ends.now) }
    requires stored { map T.number items.now ≡ numbers.now.numbers }
    ensures { P.keeps
        (run_rows (ends_of ends.now) (optional_numbers numbers.now) 0 (last_end (ends_of ends.now))) result }
{
    let runs = ValueRuns {
        ends,
        items,
        validity: numbers.validity(),
    };
    parts_in_runs::<T, P, A>(&runs)
}
