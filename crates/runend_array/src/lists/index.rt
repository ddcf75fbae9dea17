//! The numbers of a column of lists: offsets or sizes, flat or in runs.
ghost use Rattle.std.specs.Prelude.{◌≡◌, ◌<◌, ◌≤◌, ◌↔◌, IfOk, IsOkUnless, IsTrue, MatchOption, length, slice_index, slice_index_or, slice_range, false};
ghost use Rattle.runend_array.specs.Array.{column_of};
ghost use Rattle.runend_array.specs.Column.{IsIndex, IsPlainIndex, IsPlainTruths, end_numbers, index_of, truths_of};
ghost use Rattle.runend_array.specs.Lists.{IsRunUpTo, PlainIndex, index_at as number_in_row, index_count, index_stop};

use crate::array_ref::ArrayRef;
use crate::lists::stretch::Stretch;
use column_core::{
    BitBuffer, Buffer, DType, Nullability, PType, PrimitiveValues, VortexError, VortexResult,
};
use std::alloc::Allocator;

/// Returns whether it is a flat column of u64 without null.
pub(crate) fn is_plain_index<A: Allocator + Copy>(column: &ArrayRef<A>) -> bool
    ensures { IsTrue result ↔ IsPlainIndex (column_of column.now) }
{
    match column {
        ArrayRef::Primitive(numbers) => {
            numbers.dtype() == DType::Primitive(PType::U64, Nullability::NonNullable)
        }
        _ => false,
    }
}

/// Returns the numbers of a flat column of u64 without null, and `None` for offsets or sizes in runs.
pub(crate) fn plain_numbers<A: Allocator + Copy>(column: &ArrayRef<A>) -> Option<&[u64]>
    requires { IsIndex (column_of column.now) }
    ensures { MatchOption result (¬ IsPlainIndex (column_of column.now))
        (λ numbers. index_of (column_of column.now) ≡ PlainIndex numbers.now) }
{
    match column {
        ArrayRef::Primitive(numbers) => match numbers.values() {
            PrimitiveValues::U64(items) => Some(items.as_slice()),
            _ => unreachable!(),
        },
        _ => None,
    }
}

/// Returns a number of a flat column of u64.
pub(crate) fn plain_number_at<A: Allocator + Copy>(column: &ArrayRef<A>, index: usize) -> u64
    requires plain { IsPlainIndex (column_of column.now) }
    requires within { index < length (end_numbers (column_of column.now)) }
    ensures { result ≡ slice_index (end_numbers (column_of column.now)) index }
{
    match column {
        ArrayRef::Primitive(numbers) => match numbers.values() {
            PrimitiveValues::U64(items) => items[index],
            _ => unreachable!(),
        },
        _ => unreachable!(),
    }
}

/// Returns the numbers of a flat column of u64 from row `start` to row `stop - 1`. Shares its buffer if it is shared,
/// and copies otherwise. Refused only as `OutOfMemory`.
pub(crate) fn plain_numbers_between<A: Allocator + Copy>(
    alloc: A,
    column: &ArrayRef<A>,
    start: usize,
    stop: usize,
) -> VortexResult<Buffer<u64, A>>
    requires plain { IsPlainIndex (column_of column.now) }
    requires ordered { start ≤ stop }
    requires in_bounds { stop ≤ length (end_numbers (column_of column.now)) }
    ensures only { IsOkUnless result VortexError.OutOfMemory }
    ensures numbers { IfOk result (λ numbers. numbers.items ≡
        slice_range (end_numbers (column_of column.now)) start stop) }
{
    match column {
        ArrayRef::Primitive(numbers) => match numbers.values() {
            PrimitiveValues::U64(items) => Ok(items.slice(alloc, start..stop)?),
            _ => unreachable!(),
        },
        _ => unreachable!(),
    }
}

/// Returns the bits of a flat column of booleans from row `start` to row `stop - 1`. Shares them if they are shared and
/// the range is one of whole words, and copies otherwise. Refused only as `OutOfMemory`.
pub(crate) fn plain_truths_between<A: Allocator + Copy>(
    alloc: A,
    column: &ArrayRef<A>,
    start: usize,
    stop: usize,
) -> VortexResult<BitBuffer<A>>
    requires plain { IsPlainTruths (column_of column.now) }
    requires ordered { start ≤ stop }
    requires in_bounds { stop ≤ length (truths_of (column_of column.now)) }
    ensures only { IsOkUnless result VortexError.OutOfMemory }
    ensures truths { IfOk result (λ bits. bits ≡ slice_range (truths_of (column_of column.now)) start stop) }
{
    match column {
        ArrayRef::Bool(truths) => truths.values().slice(alloc, start..stop),
        _ => unreachable!(),
    }
}

/// Returns whether it is a flat column of booleans without null.
pub(crate) fn is_plain_truths<A: Allocator + Copy>(column: &ArrayRef<A>) -> bool
    ensures { IsTrue result ↔ IsPlainTruths (column_of column.now) }
{
    match column {
        ArrayRef::Bool(truths) => truths.dtype() == DType::Bool(Nullability::NonNullable),
        _ => false,
    }
}

/// Returns a boolean of a flat column of booleans.
pub(crate) fn plain_truth_at<A: Allocator + Copy>(column: &ArrayRef<A>, index: usize) -> bool
    requires plain { IsPlainTruths (column_of column.now) }
    requires within { index < length (truths_of (column_of column.now)) }
    ensures { result ≡ slice_index_or (truths_of (column_of column.now)) index false }
{
    match column {
        ArrayRef::Bool(truths) => truths.values().value(index),
        _ => unreachable!(),
    }
}

/// Returns whether it is a column of offsets or sizes: u64 without null, flat or in runs over flat values.
pub(crate) fn is_index<A: Allocator + Copy>(column: &ArrayRef<A>) -> bool
    ensures { IsTrue result ↔ IsIndex (column_of column.now) }
{
    match column {
        ArrayRef::Primitive(_) => is_plain_index(column),
        ArrayRef::RunEnd(runs) => runs.is_index(),
        _ => false,
    }
}

/// Returns how many offsets or sizes there are.
pub(crate) fn index_len<A: Allocator + Copy>(column: &ArrayRef<A>) -> usize
    requires { IsIndex (column_of column.now) }
    ensures { result ≡ index_count (index_of (column_of column.now)) }
{
    match column {
        ArrayRef::Primitive(numbers) => numbers.len(),
        ArrayRef::RunEnd(runs) => runs.len(),
        _ => unreachable!(),
    }
}

/// Returns the offset or size at `index`.
pub(crate) fn index_at<A: Allocator + Copy>(column: &ArrayRef<A>, index: usize) -> u64
    requires index { IsIndex (column_of column.now) }
    requires within { index < index_count (index_of (column_of column.now)) }
    ensures { result ≡ number_in_row (index_of (column_of column.now)) index }
{
    match column {
        ArrayRef::Primitive(_) => plain_number_at(column, index),
        ArrayRef::RunEnd(runs) => runs.number_at(index),
        _ => unreachable!(),
    }
}

/// Returns the offset or size at `index`, and the row before which it is known to stay the same: the next row in a flat
/// column, the end of the row's run in a run column. The run is searched from `run` on, which is the run of an earlier
/// row, or the first run, and is put into `run`.
pub(crate) fn index_from<A: Allocator + Copy>(
    column: &ArrayRef<A>,
    run: &mut usize,
    index: usize,
) -> Stretch<u64>
    requires index { IsIndex (column_of column.now) }
    requires within { index < index_count (index_of (column_of column.now)) }
    requires before { IsRunUpTo (index_of (column_of column.now)) run.old index }
    ensures number { result.value ≡ number_in_row (index_of (column_of column.now)) index }
    ensures stop { result.stop ≡ index_stop (index_of (column_of column.now)) index }
    ensures within { index < result.stop }
    ensures before { IsRunUpTo (index_of (column_of column.now)) run.new index }
{
    match column {
        ArrayRef::Primitive(numbers) => {
            prove!(index < numbers.len());
            Stretch {
                value: plain_number_at(column, index),
                stop: index + 1,
            }
        }
        ArrayRef::RunEnd(runs) => runs.number_from(run, index),
        _ => unreachable!(),
    }
}
