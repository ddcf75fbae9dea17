//! Texts and bytes of a flat column, many rows at once.
ghost use Rattle.std.specs.Prelude.{◌≡◌, ℕ, ◌+◌, ◌-◌, ◌^◌, ◌++◌, ◌<◌, ◌≤◌, pos, take, length, map, slice_range, slice_index_or, IfOk, MatchOption, MatchResult, None, OnErr};
ghost use Rattle.column_core.specs.FlatView.{leaf_in};
ghost use Rattle.c_columns.specs.ReadFaults.{IsRefusedOnlyBy, offset_fault, room_fault, stored_bytes_fault, stored_offsets_fault};
ghost use Rattle.c_columns.specs.Reads.{AreStoredBytes, AreStoredOffsets, bytes_of, bytes_of_rows, size_between, text_rows};

use crate::words::{check_range, check_room};
use column_core::{FlatView, NativePType, ScalarView, VarBinViewArray, VortexError, VortexResult};
use std::alloc::Global;

/// Writes the offsets of the texts or bytes of the rows from row `start` on: one more than there are rows, the first of
/// them 0, and the last the number of bytes of these rows. Refused as `Unsupported` unless it is a flat column of texts
/// or bytes, as `BadRange` where `offsets` is empty or there are fewer rows, and as `CastOutOfRange` where an offset
/// does not fit the type.
#[tactic(auto, using(crate::proofs::ReadRefusals::offsets_none, crate::proofs::ReadRefusals::offsets_past, crate::proofs::ReadRefusals::offsets_there, crate::proofs::ReadRefusals::refused_so))]
pub fn read_offsets<T: NativePType>(
    flat: FlatView<'_, Global>,
    start: usize,
    offsets: &mut [T],
) -> VortexResult<()>
    ensures offsets { IfOk result (λ _. AreStoredOffsets (leaf_in flat.entry) start (map T.number offsets.new)) }
    ensures refused { IsRefusedOnlyBy
        (stored_offsets_fault T.PTYPE start (length offsets.old) (leaf_in flat.entry)) result }
    ensures kept { OnErr result (offsets.new ≡ offsets.old) }
    ensures len { length offsets.new ≡ length offsets.old }
{
    let FlatView::VarBinView(texts) = flat else {
        return Err(VortexError::Unsupported);
    };
    if offsets.is_empty() {
        return Err(VortexError::BadRange {
            start,
            stop: start,
            length: texts.len(),
        });
    }
    let count = offsets.len() - 1;
    check_range(start, count, texts.len())?;
    put_offsets(texts, start, start + count, offsets)
}

/// Writes the bytes of `count` rows from row `start` on, one after the other. Refused as `Unsupported` unless it is a
/// flat column of texts or bytes, as `BadRange` where there are fewer rows, and as `ColumnLength`, with their number
/// and the room, unless the room is exactly for these bytes.
#[tactic(auto, using(crate::proofs::ReadRefusals::bytes_past, crate::proofs::ReadRefusals::bytes_there))]
pub fn read_bytes(
    flat: FlatView<'_, Global>,
    start: usize,
    count: usize,
    bytes: &mut [u8],
) -> VortexResult<()>
    ensures bytes { IfOk result (λ _. AreStoredBytes (leaf_in flat.entry) start count bytes.new) }
    ensures refused { IsRefusedOnlyBy (stored_bytes_fault start count (length bytes.old) (leaf_in flat.entry)) result }
    ensures kept { OnErr result (bytes.new ≡ bytes.old) }
    ensures len { length bytes.new ≡ length bytes.old }
{
    let FlatView::VarBinView(texts) = flat else {
        return Err(VortexError::Unsupported);
    };
    check_range(start, count, texts.len())?;
    check_bytes(texts, start, start + count, bytes.len())?;
    put_rows(texts, start, start + count, bytes);
    Ok(())
}

// The offset of each row from `start` to `stop - 1`, and one more. None is written where the type has not the last,
// which is the greatest.
#[tactic(auto, using(crate::proofs::ReadRefusals::passed_on))]
fn put_offsets<T: NativePType>(
    texts: &VarBinViewArray<Global>,
    start: usize,
    stop: usize,
    offsets: &mut [T],
) -> VortexResult<()>
    requires order { start ≤ stop }
    requires within { stop ≤ length texts.now.views }
    requires counted { length (text_rows texts.now) ≡ length texts.now.views }
    requires room { length offsets.old ≡ stop - start + 1 }
    ensures offsets { IfOk result
        (λ _. (k : ℕ) → k < stop - start + 1
        → slice_index_or (map T.number offsets.new) k (pos 0) ≡ pos (size_between texts.now start (start + k))) }
    ensures refused { IsRefusedOnlyBy (offset_fault T.PTYPE (size_between texts.now start stop)) result }
    ensures kept { OnErr result (offsets.new ≡ offsets.old) }
    ensures len { length offsets.new ≡ length offsets.old }
{
    check_last::<T>(texts, start, stop)?;
    put_each_offset(texts, start, stop, offsets);
    Ok(())
}

// Has the type the offset after the rows from `start` to `stop - 1`? Else refused as `CastOutOfRange`.
#[tactic(auto, using(crate::proofs::ReadRefusals::offset_huge, crate::proofs::ReadRefusals::passed_on))]
fn check_last<T: NativePType>(
    texts: &VarBinViewArray<Global>,
    start: usize,
    stop: usize,
) -> VortexResult<()>
    requires order { start ≤ stop }
    requires within { stop ≤ length texts.now.views }
    requires counted { length (text_rows texts.now) ≡ length texts.now.views }
    ensures refused { IsRefusedOnlyBy (offset_fault T.PTYPE (size_between texts.now start stop)) result }
{
    match size_of_rows(texts, start, stop) {
        Some(size) => {
            let _last: T = offset_of(size)?;
            Ok(())
        }
        None => Err(VortexError::CastOutOfRange),
    }
}

// Writes the offset of each row from `start` to `stop - 1`, and one more, which the type has.
#[tactic(auto, using(crate::proofs::TextRows::size_more, crate::proofs::TextRows::next_offset))]
fn put_each_offset<T: NativePType>(
    texts: &VarBinViewArray<Global>,
    start: usize,
    stop: usize,
    offsets: &mut [T],
)
    requires order { start ≤ stop }
    requires within { stop ≤ length texts.now.views }
    requires counted { length (text_rows texts.now) ≡ length texts.now.views }
    requires room { length offsets.old ≡ stop - start + 1 }
    requires last { offset_fault T.PTYPE (size_between texts.now start stop) ≡ None }
    ensures offsets { (k : ℕ) → k < stop - start + 1
        → slice_index_or (map T.number offsets.new) k (pos 0) ≡ pos (size_between texts.now start (start + k)) }
    ensures len { length offsets.new ≡ length offsets.old }
{
    let mut size: usize = 0;
    offsets[0] = offset_within(0);
    for row in start..stop {
        let more = bytes_at(texts, row).len();
        size += more;
        offsets[row - start + 1] = offset_within(size);
    }
}

// The offset in its type, which has it.
#[tactic(auto, using(crate::proofs::ReadRefusals::offset_fits))]
fn offset_within<T: NativePType>(size: usize) -> T
    requires { offset_fault T.PTYPE size ≡ None }
    ensures { T.number result ≡ pos size }
{
    T::narrow(size as i128).unwrap()
}

// The offset in its type.
#[tactic(auto, using(crate::proofs::ReadRefusals::offset_there, crate::proofs::ReadRefusals::offset_past))]
fn offset_of<T: NativePType>(size: usize) -> VortexResult<T>
    ensures number { IfOk result (λ offset. T.number offset ≡ pos size) }
    ensures refused { IsRefusedOnlyBy (offset_fault T.PTYPE size) result }
{
    match T::narrow(size as i128) {
        Some(offset) => Ok(offset),
        None => Err(VortexError::CastOutOfRange),
    }
}

// Is the room for just the bytes of the rows from `start` to `stop - 1`? Else refused as `ColumnLength`, with their
// number, 2^64 - 1 where no `usize` has it, and the room.
fn check_bytes(
    texts: &VarBinViewArray<Global>,
    start: usize,
    stop: usize,
    room: usize,
) -> VortexResult<()>
    requires order { start ≤ stop }
    requires within { stop ≤ length texts.now.views }
    requires counted { length (text_rows texts.now) ≡ length texts.now.views }
    ensures there { IfOk result (λ _. size_between texts.now start stop ≡ room) }
    ensures refused { IsRefusedOnlyBy (room_fault (size_between texts.now start stop) room) result }
{
    match size_of_rows(texts, start, stop) {
        Some(needed) => check_room(needed, room),
        None => Err(VortexError::ColumnLength {
            left: usize::MAX,
            right: room,
        }),
    }
}

// How many bytes the rows from `start` to `stop - 1` have, or `None` where no `usize` says it.
#[tactic(auto, using(crate::proofs::TextRows::size_more))]
fn size_of_rows(texts: &VarBinViewArray<Global>, start: usize, stop: usize) -> Option<usize>
    requires order { start ≤ stop }
    requires within { stop ≤ length texts.now.views }
    requires counted { length (text_rows texts.now) ≡ length texts.now.views }
    ensures { let size = size_between texts.now start stop in MatchOption result (2 ^ 64 ≤ size) (λ told. told ≡ size) }
{
    let mut size: usize = 0;
    for row in start..stop {
        size = size.checked_add(bytes_at(texts, row).len())?;
    }
    Some(size)
}

// Writes the bytes of the rows from `start` to `stop - 1`, one after the other.
#[tactic(auto, using(crate::proofs::TextRows::size_more, crate::proofs::TextRows::bytes_more, crate::proofs::TextRows::has_room))]
fn put_rows(texts: &VarBinViewArray<Global>, start: usize, stop: usize, bytes: &mut [u8])
    requires order { start ≤ stop }
    requires within { stop ≤ length texts.now.views }
    requires counted { length (text_rows texts.now) ≡ length texts.now.views }
    requires room { length bytes.old ≡ length (bytes_of_rows (slice_range (text_rows texts.now) start stop)) }
    ensures { bytes.new ≡ bytes_of_rows (slice_range (text_rows texts.now) start stop) }
{
    let mut written = 0;
    for row in start..stop {
        let more = bytes_at(texts, row);
        put_at(bytes, written, more);
        written += more.len();
    }
}

// Copies bytes to a place.
fn put_at(bytes: &mut [u8], at: usize, more: &[u8])
    requires { at + length more.now ≤ length bytes.old }
    ensures put { take (at + length more.now) bytes.new ≡ take at bytes.old ++ more.now }
    ensures len { length bytes.new ≡ length bytes.old }
{
    let (_, rest) = bytes.split_at_mut(at);
    rest[..more.len()].copy_from_slice(more);
}

// The bytes of a row, none where it is null.
fn bytes_at(texts: &VarBinViewArray<Global>, row: usize) -> &[u8]
    requires { row < length texts.now.views }
    ensures { result.now ≡ bytes_of (slice_index_or (text_rows texts.now) row None) }
{
    match texts.get(row) {
        ScalarView::Utf8(string) => string.as_bytes(),
        ScalarView::Binary(bytes) => bytes,
        _ => &[],
    }
}
