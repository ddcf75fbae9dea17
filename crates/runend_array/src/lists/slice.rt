//! Offsets, sizes and validity of a range of lists.
ghost use Rattle.std.specs.Prelude.{◌≡◌, ◌-◌, ◌≤◌, length, map, replicate, slice_range, IfOk, IsOkUnless};
ghost use Rattle.std.specs.List.{range_with_len};
ghost use Rattle.runend_array.specs.Array.{IsRowValidity, column_of, validity_of};
ghost use Rattle.runend_array.specs.Column.{IsIndex, IsPlainIndex, end_numbers, index_of};
ghost use Rattle.runend_array.specs.ListSlice.{IsIndexInRange, IsValidityInRange};
ghost use Rattle.runend_array.specs.Lists.{HasRows, PlainIndex, index_at as number_in_row, index_count, row_flag_at};

use crate::array_ref::ArrayRef;
use crate::lists::index::plain_numbers_between;
use crate::validities::{RowValidity, rows_of_validity};
use column_core::{
    BitBuffer, BitBufferMut, Buffer, PrimitiveArray, PrimitiveValues, Validity, VortexError,
    VortexResult,
};
use std::alloc::Allocator;

/// Returns the numbers of an index from row `start` to row `stop - 1`. Shares the buffer of a flat index if it is
/// shared; looks at each run of an index in runs once. Refused only as `OutOfMemory`.
pub(super) fn numbers_between<A: Allocator + Copy>(
    alloc: A,
    index: &ArrayRef<A>,
    start: usize,
    stop: usize,
) -> VortexResult<Buffer<u64, A>>
    requires index { IsIndex (column_of index.now) }
    requires ordered { start ≤ stop }
    requires in_bounds { stop ≤ index_count (index_of (column_of index.now)) }
    ensures only { IsOkUnless result VortexError.OutOfMemory }
    ensures numbers { IfOk result (λ numbers. numbers.items ≡
        map (number_in_row (index_of (column_of index.now))) (range_with_len start (stop - start))) }
{
    match index {
        ArrayRef::Primitive(_) => plain_numbers_between(alloc, index, start, stop),
        ArrayRef::RunEnd(runs) => {
            let numbers = runs.numbers_between(alloc, start, stop)?;
            Ok(Buffer::shared(numbers))
        }
        _ => unreachable!(),
    }
}

/// Returns for each row from `start` to `stop - 1`, of `count` rows, whether it is valid. Looks at each run of a
/// validity in runs once. Refused only as `OutOfMemory`.
pub(super) fn flags_between<A: Allocator + Copy>(
    alloc: A,
    validity: &RowValidity<A>,
    count: usize,
    start: usize,
    stop: usize,
) -> VortexResult<BitBuffer<A>>
    requires plain { IsRowValidity validity.now }
    requires counted { HasRows (validity_of validity.now) count }
    requires ordered { start ≤ stop }
    requires in_bounds { stop ≤ count }
    ensures only { IsOkUnless result VortexError.OutOfMemory }
    ensures flags { IfOk result (λ bits. bits ≡ map (row_flag_at (validity_of validity.now)) (range_with_len start
        (stop - start))) }
{
    let _ = count;
    match validity {
        RowValidity::NonNullable => same_flags(alloc, true, stop - start),
        RowValidity::AllValid => same_flags(alloc, true, stop - start),
        RowValidity::AllInvalid => same_flags(alloc, false, stop - start),
        RowValidity::Bits(bits) => bits.slice(alloc, start..stop),
        RowValidity::Runs(runs) => runs.truths_between(alloc, start, stop),
    }
}

// The flag in each of `count` rows.
fn same_flags<A: Allocator + Copy>(alloc: A, flag: bool, count: usize) -> VortexResult<BitBuffer<A>>
    ensures only { IsOkUnless result VortexError.OutOfMemory }
    ensures flags { IfOk result (λ bits. bits ≡ replicate count flag) }
{
    let bits = BitBufferMut::full(alloc, flag, count)?;
    Ok(bits.freeze())
}

/// Cuts an index to the rows from `start` to `stop - 1`: a flat one stays flat, and one in runs keeps the runs of these
/// rows. Refused only as `OutOfMemory`.
pub(crate) fn index_between<A: Allocator + Copy>(
    alloc: A,
    index: &ArrayRef<A>,
    start: usize,
    stop: usize,
) -> VortexResult<ArrayRef<A>>
    requires index { IsIndex (column_of index.now) }
    requires ordered { start ≤ stop }
    requires in_bounds { stop ≤ index_count (index_of (column_of index.now)) }
    ensures only { IsOkUnless result VortexError.OutOfMemory }
    ensures index { IfOk result (λ part. IsIndex (column_of part)) }
    ensures form { IfOk result (λ part.
        IsIndexInRange (index_of (column_of index.now)) start stop (index_of (column_of part))) }
{
    match index {
        ArrayRef::Primitive(_) => {
            let flat = plain_index_between(alloc, index, start, stop)?;
            Ok(flat)
        }
        ArrayRef::RunEnd(runs) => {
            let part = runs.index_between(alloc, start, stop)?;
            let shown = ArrayRef::of_runs(alloc, part)?;
            Ok(shown)
        }
        _ => unreachable!(),
    }
}

// A flat index from row `start` to row `stop - 1`.
fn plain_index_between<A: Allocator + Copy>(
    alloc: A,
    index: &ArrayRef<A>,
    start: usize,
    stop: usize,
) -> VortexResult<ArrayRef<A>>
    requires plain { IsPlainIndex (column_of index.now) }
    requires ordered { start ≤ stop }
    requires in_bounds { stop ≤ length (end_numbers (column_of index.now)) }
    ensures only { IsOkUnless result VortexError.OutOfMemory }
    ensures index { IfOk result (λ part. IsIndex (column_of part)) }
    ensures form { IfOk result (λ part. index_of (column_of part) ≡
        PlainIndex (slice_range (end_numbers (column_of index.now)) start stop)) }
{
    let numbers = plain_numbers_between(alloc, index, start, stop)?;
    let values = PrimitiveValues::U64(numbers);
    let flat = PrimitiveArray::new_unchecked(values, Validity::NonNullable);
    Ok(ArrayRef::Primitive(flat))
}

/// Cuts a validity of `count` rows to the rows from `start` to `stop - 1`. It stays as it is where it serves any number
/// of rows; one in runs keeps the runs of these rows; any other has bits only where some of these rows are null and
/// others are not. Refused only as `OutOfMemory`.
pub(crate) fn validity_between<A: Allocator + Copy>(
    alloc: A,
    validity: &RowValidity<A>,
    count: usize,
    start: usize,
    stop: usize,
) -> VortexResult<RowValidity<A>>
    requires plain { IsRowValidity validity.now }
    requires counted { HasRows (validity_of validity.now) count }
    requires ordered { start ≤ stop }
    requires in_bounds { stop ≤ count }
    ensures only { IsOkUnless result VortexError.OutOfMemory }
    ensures plain { IfOk result (λ part. IsRowValidity part) }
    ensures form { IfOk result (λ part. IsValidityInRange (validity_of validity.now) start stop (validity_of part)) }
{
    match validity {
        RowValidity::NonNullable => Ok(RowValidity::NonNullable),
        RowValidity::AllValid => Ok(RowValidity::AllValid),
        RowValidity::AllInvalid => Ok(RowValidity::AllInvalid),
        RowValidity::Bits(_) => {
            let flags = flags_between(alloc, validity, count, start, stop)?;
            Ok(rows_of_validity(Validity::from_bits(flags)))
        }
        RowValidity::Runs(runs) => {
            let part = runs.flags_in_range(alloc, start, stop)?;
            let boxed = Box::new(alloc, part)?;
            Ok(RowValidity::Runs(boxed))
        }
    }
}
