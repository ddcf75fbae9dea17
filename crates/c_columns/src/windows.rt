//! Windows of rows of columns in any form. A flat column is read where it lies, by `rows` and `text_rows`, which takes
//! no memory; of any other form only these rows are written flat first.
ghost use Rattle.std.specs.Prelude.{◌≡◌, ◌+◌, ◌-◌, ◌^◌, ◌<◌, ◌≤◌, cond, length, map, IfOk, IsOkUnless, None, Some, OnErr};
ghost use Rattle.column_core.specs.FlatColumn.{leaf_of};
ghost use Rattle.column_core.specs.Kinds.{list_fault};
ghost use Rattle.column_core.specs.Leaf.{leaf_count, single_rows};
ghost use Rattle.column_core.specs.Refusal.{IsRefusedBy};
ghost use Rattle.runend_array.specs.Array.{column_of, dtype_of, rows as rows_of};
ghost use Rattle.runend_array.specs.Canonical.{IsFlatPart};
ghost use Rattle.runend_array.specs.Column.{OfLeaf};
ghost use Rattle.c_columns.specs.ReadFaults.{IsRefusedIn, IsRefusedOnlyBy, bytes_fault, decimals_fault, decimals_type_fault, flags_fault, flags_from_fault, is_same_type, numbers_fault, numbers_type_fault, offsets_fault, other_bytes_fault, other_offsets_fault, part_fault, texts_type_fault, truths_fault, truths_from_fault, truths_type_fault};
ghost use Rattle.c_columns.specs.Reads.{AreBytesFrom, AreNumbersFrom, AreOffsetsFrom, ArePairsFrom, AreReadFlat, AreStoredBytes, AreStoredNumbers, AreStoredOffsets, AreStoredPairs, AreTruthWords, AreTruthWordsFrom, AreValidityWords, AreValidityWordsFrom};

use crate::pairs::Pair;
use crate::words::{check_range, check_room};
use crate::{rows, text_rows};
use column_core::{
    DType, FlatColumn, NativePType, PType, VortexError, VortexResult, fault_of_lists,
};
use runend_array::{ArrayRef, Canonical};
use std::alloc::Global;

/// Writes the numbers of the rows from `start` on, as many as there are `items`; under null of a column that is not
/// flat any number may be written. Refused as `Unsupported` unless they are integers, as `TypeMismatch` for another
/// type of them, as `BadRange` where there are fewer rows, and for memory unless the column is flat.
#[tactic(auto, using(crate::proofs::FlatParts::flat_numbers, crate::proofs::FlatParts::flat_numbers_refused, crate::proofs::FlatParts::other_numbers, crate::proofs::FlatParts::other_numbers_refused))]
pub fn read_numbers<T: NativePType>(
    alloc: Global,
    array: &ArrayRef<Global>,
    start: usize,
    items: &mut [T],
) -> VortexResult<()>
    ensures items { IfOk result (λ _. AreNumbersFrom (column_of array.now) start (map T.number items.new)) }
    ensures refused { IsRefusedIn (column_of array.now)
        (numbers_fault T.PTYPE start (length items.old) (column_of array.now)) result }
    ensures kept { OnErr result (items.new ≡ items.old) }
    ensures len { length items.new ≡ length items.old }
{
    match array.flat_view() {
        Some(flat) => rows::read_numbers(flat, start, items),
        None => read_other_numbers(alloc, array, start, items),
    }
}

/// Writes the decimals of the rows from `start` on, as many as there are `pairs`. Refused as `Unsupported` unless they
/// are decimals, as `BadRange` where there are fewer rows, and for memory unless the column is flat.
#[tactic(auto, using(crate::proofs::FlatParts::flat_pairs, crate::proofs::FlatParts::flat_pairs_refused, crate::proofs::FlatParts::other_pairs, crate::proofs::FlatParts::other_pairs_refused))]
pub fn read_decimals(
    alloc: Global,
    array: &ArrayRef<Global>,
    start: usize,
    pairs: &mut [Pair],
) -> VortexResult<()>
    ensures pairs { IfOk result (λ _. ArePairsFrom (column_of array.now) start pairs.new) }
    ensures refused { IsRefusedIn (column_of array.now)
        (decimals_fault start (length pairs.old) (column_of array.now)) result }
    ensures kept { OnErr result (pairs.new ≡ pairs.old) }
    ensures len { length pairs.new ≡ length pairs.old }
{
    match array.flat_view() {
        Some(flat) => rows::read_decimals(flat, start, pairs),
        None => read_other_decimals(alloc, array, start, pairs),
    }
}

/// Writes the booleans of `count` rows from `start` on, 64 to a word. Refused as `Unsupported` unless they are
/// booleans, as `BadRange` where there are fewer rows, as `ColumnLength` for another number of words, and for memory.
#[tactic(auto, using(crate::proofs::FlatParts::truths_are_single, crate::proofs::FlatParts::or_first, crate::proofs::FlatParts::or_second, crate::proofs::FlatParts::accepted, crate::proofs::FlatParts::read_flat, crate::proofs::FlatParts::never, crate::proofs::FlatParts::truths_there))]
pub fn read_booleans(
    alloc: Global,
    array: &ArrayRef<Global>,
    start: usize,
    count: usize,
    words: &mut [u64],
) -> VortexResult<()>
    ensures words { IfOk result (λ _. AreTruthWordsFrom (column_of array.now) start count words.new) }
    ensures refused { IsRefusedBy (truths_from_fault start count (length words.old) (column_of array.now)) result }
    ensures kept { OnErr result (words.new ≡ words.old) }
    ensures len { length words.new ≡ length words.old }
{
    check_truths(array.dtype())?;
    check_range(start, count, array.len())?;
    check_room(count.div_ceil(64), words.len())?;
    let part = flat_part(alloc, array, start, count)?;
    let read = rows::read_booleans(part.view(), words);
    drop(part);
    read
}

/// Writes a bit for each of `count` rows from `start` on, 64 to a word: whether it is valid. Refused as `Unsupported`
/// for lists, as `BadRange` where there are fewer rows, as `ColumnLength` for another number of words, and for memory.
#[tactic(auto, using(crate::proofs::FlatParts::or_first, crate::proofs::FlatParts::or_second, crate::proofs::FlatParts::accepted, crate::proofs::FlatParts::read_flat, crate::proofs::FlatParts::never))]
pub fn read_validity(
    alloc: Global,
    array: &ArrayRef<Global>,
    start: usize,
    count: usize,
    words: &mut [u64],
) -> VortexResult<()>
    ensures words { IfOk result (λ _. AreValidityWordsFrom (column_of array.now) start count words.new) }
    ensures refused { IsRefusedBy (flags_from_fault start count (length words.old) (column_of array.now)) result }
    ensures kept { OnErr result (words.new ≡ words.old) }
    ensures len { length words.new ≡ length words.old }
{
    check_single(array.dtype())?;
    check_range(start, count, array.len())?;
    check_room(count.div_ceil(64), words.len())?;
    let part = flat_part(alloc, array, start, count)?;
    let read = rows::read_validity(part.view(), words);
    drop(part);
    read
}

/// Writes the offsets of the texts or bytes of the rows from `start` on: one more than there are rows, the first of
/// them 0, and the last the number of bytes of these rows. Refused as `Unsupported` unless they are texts or bytes, as
/// `BadRange` where `offsets` is empty or there are fewer rows, as `CastOutOfRange` where an offset does not fit the
/// type, and for memory unless the column is flat.
#[tactic(auto, using(crate::proofs::FlatParts::flat_offsets, crate::proofs::FlatParts::flat_offsets_refused, crate::proofs::FlatParts::other_offsets, crate::proofs::FlatParts::other_offsets_refused))]
pub fn read_offsets<T: NativePType>(
    alloc: Global,
    array: &ArrayRef<Global>,
    start: usize,
    offsets: &mut [T],
) -> VortexResult<()>
    ensures offsets { IfOk result (λ _. AreOffsetsFrom (column_of array.now) start (map T.number offsets.new)) }
    ensures refused { IsRefusedIn (column_of array.now)
        (offsets_fault T.PTYPE start (length offsets.old) (column_of array.now)) result }
    ensures kept { OnErr result (offsets.new ≡ offsets.old) }
    ensures len { length offsets.new ≡ length offsets.old }
{
    match array.flat_view() {
        Some(flat) => text_rows::read_offsets(flat, start, offsets),
        None => read_other_offsets(alloc, array, start, offsets),
    }
}

/// Writes the bytes of `count` texts or bytes from row `start` on, one after the other. Refused as `Unsupported` unless
/// they are texts or bytes, as `BadRange` where there are fewer rows, as `ColumnLength`, with their number and the
/// room, unless the room is exactly for these bytes, and for memory unless the column is flat.
#[tactic(auto, using(crate::proofs::FlatParts::flat_bytes, crate::proofs::FlatParts::flat_bytes_refused, crate::proofs::FlatParts::other_bytes, crate::proofs::FlatParts::other_bytes_refused))]
pub fn read_bytes(
    alloc: Global,
    array: &ArrayRef<Global>,
    start: usize,
    count: usize,
    bytes: &mut [u8],
) -> VortexResult<()>
    ensures bytes { IfOk result (λ _. AreBytesFrom (column_of array.now) start count bytes.new) }
    ensures refused { IsRefusedIn (column_of array.now)
        (bytes_fault start count (length bytes.old) (column_of array.now)) result }
    ensures kept { OnErr result (bytes.new ≡ bytes.old) }
    ensures len { length bytes.new ≡ length bytes.old }
{
    match array.flat_view() {
        Some(flat) => text_rows::read_bytes(flat, start, count, bytes),
        None => read_other_bytes(alloc, array, start, count, bytes),
    }
}

/// Writes the bits of all booleans that a flat column stores, 64 to a word. Refused as `Unsupported` unless it is a
/// flat column of booleans, and as `ColumnLength` for another number of words.
pub fn read_all_booleans(array: &ArrayRef<Global>, words: &mut [u64]) -> VortexResult<()>
    ensures words { IfOk result (λ _. AreTruthWords (column_of array.now) words.new) }
    ensures refused { IsRefusedOnlyBy (truths_fault (length words.old) (column_of array.now)) result }
    ensures kept { OnErr result (words.new ≡ words.old) }
    ensures len { length words.new ≡ length words.old }
{
    match array.flat_view() {
        Some(flat) => rows::read_booleans(flat, words),
        None => Err(VortexError::Unsupported),
    }
}

/// Writes a bit for each row of a flat column, 64 to a word: whether it is valid. Refused as `Unsupported` unless the
/// column is flat, and as `ColumnLength` for another number of words.
pub fn read_all_validity(array: &ArrayRef<Global>, words: &mut [u64]) -> VortexResult<()>
    ensures words { IfOk result (λ _. AreValidityWords (column_of array.now) words.new) }
    ensures refused { IsRefusedOnlyBy (flags_fault (length words.old) (column_of array.now)) result }
    ensures kept { OnErr result (words.new ≡ words.old) }
    ensures len { length words.new ≡ length words.old }
{
    match array.flat_view() {
        Some(flat) => rows::read_validity(flat, words),
        None => Err(VortexError::Unsupported),
    }
}

// The numbers of rows that are not flat.
#[tactic(auto, using(crate::proofs::FlatParts::numbers_are_single, crate::proofs::FlatParts::or_first, crate::proofs::FlatParts::or_second, crate::proofs::FlatParts::accepted, crate::proofs::FlatParts::read_flat, crate::proofs::FlatParts::never, crate::proofs::FlatParts::numbers_there))]
fn read_other_numbers<T: NativePType>(
    alloc: Global,
    array: &ArrayRef<Global>,
    start: usize,
    items: &mut [T],
) -> VortexResult<()>
    ensures items { IfOk result
        (λ _. AreReadFlat (column_of array.now) start (length items.old)
        (λ leaf. AreStoredNumbers leaf 0 (map T.number items.new))) }
    ensures refused { IsRefusedBy
        (part_fault (numbers_type_fault T.PTYPE (dtype_of array.now)) start (length items.old)
        (column_of array.now)) result }
    ensures kept { OnErr result (items.new ≡ items.old) }
    ensures len { length items.new ≡ length items.old }
{
    check_numbers(array.dtype(), T::PTYPE)?;
    check_range(start, items.len(), array.len())?;
    let part = flat_part(alloc, array, start, items.len())?;
    let read = rows::read_numbers(part.view(), 0, items);
    drop(part);
    read
}

// The decimals of rows that are not flat.
#[tactic(auto, using(crate::proofs::FlatParts::decimals_are_single, crate::proofs::FlatParts::or_first, crate::proofs::FlatParts::or_second, crate::proofs::FlatParts::accepted, crate::proofs::FlatParts::read_flat, crate::proofs::FlatParts::never, crate::proofs::FlatParts::decimals_there))]
fn read_other_decimals(
    alloc: Global,
    array: &ArrayRef<Global>,
    start: usize,
    pairs: &mut [Pair],
) -> VortexResult<()>
    ensures pairs { IfOk result
        (λ _. AreReadFlat (column_of array.now) start (length pairs.old) (λ leaf. AreStoredPairs leaf 0 pairs.new)) }
    ensures refused { IsRefusedBy
        (part_fault (decimals_type_fault (dtype_of array.now)) start (length pairs.old) (column_of array.now)) result }
    ensures kept { OnErr result (pairs.new ≡ pairs.old) }
    ensures len { length pairs.new ≡ length pairs.old }
{
    check_decimals(array.dtype())?;
    check_range(start, pairs.len(), array.len())?;
    let part = flat_part(alloc, array, start, pairs.len())?;
    let read = rows::read_decimals(part.view(), 0, pairs);
    drop(part);
    read
}

// The offsets of rows that are not flat.
#[tactic(auto, using(crate::proofs::FlatParts::texts_are_single, crate::proofs::FlatParts::or_first, crate::proofs::FlatParts::no_offsets, crate::proofs::FlatParts::past_offsets, crate::proofs::FlatParts::read_flat, crate::proofs::FlatParts::likewise, crate::proofs::FlatParts::offsets_there))]
fn read_other_offsets<T: NativePType>(
    alloc: Global,
    array: &ArrayRef<Global>,
    start: usize,
    offsets: &mut [T],
) -> VortexResult<()>
    ensures offsets { IfOk result
        (λ _. AreReadFlat (column_of array.now) start (length offsets.old - 1)
        (λ leaf. AreStoredOffsets leaf 0 (map T.number offsets.new))) }
    ensures refused { IsRefusedBy
        (other_offsets_fault T.PTYPE start (length offsets.old) (column_of array.now)) result }
    ensures kept { OnErr result (offsets.new ≡ offsets.old) }
    ensures len { length offsets.new ≡ length offsets.old }
{
    check_texts(array.dtype())?;
    if offsets.is_empty() {
        return Err(VortexError::BadRange {
            start,
            stop: start,
            length: array.len(),
        });
    }
    let count = offsets.len() - 1;
    check_range(start, count, array.len())?;
    let part = flat_part(alloc, array, start, count)?;
    let read = text_rows::read_offsets(part.view(), 0, offsets);
    drop(part);
    read
}

// The bytes of rows that are not flat.
#[tactic(auto, using(crate::proofs::FlatParts::texts_are_single, crate::proofs::FlatParts::or_first, crate::proofs::FlatParts::or_second, crate::proofs::FlatParts::accepted, crate::proofs::FlatParts::read_flat, crate::proofs::FlatParts::likewise, crate::proofs::FlatParts::bytes_there))]
fn read_other_bytes(
    alloc: Global,
    array: &ArrayRef<Global>,
    start: usize,
    count: usize,
    bytes: &mut [u8],
) -> VortexResult<()>
    ensures bytes { IfOk result
        (λ _. AreReadFlat (column_of array.now) start count (λ leaf. AreStoredBytes leaf 0 count bytes.new)) }
    ensures refused { IsRefusedBy (other_bytes_fault start count (length bytes.old) (column_of array.now)) result }
    ensures kept { OnErr result (bytes.new ≡ bytes.old) }
    ensures len { length bytes.new ≡ length bytes.old }
{
    check_texts(array.dtype())?;
    check_range(start, count, array.len())?;
    let part = flat_part(alloc, array, start, count)?;
    let read = text_rows::read_bytes(part.view(), 0, count, bytes);
    drop(part);
    read
}

// `count` rows from `start` on, which are there and are not lists, written flat. Refused only for memory.
#[tactic(auto, using(crate::proofs::FlatParts::no_lists, crate::proofs::FlatParts::part_length))]
fn flat_part(
    alloc: Global,
    array: &ArrayRef<Global>,
    start: usize,
    count: usize,
) -> VortexResult<FlatColumn<Global>>
    requires single { list_fault (dtype_of array.now) ≡ None }
    requires there { start + count ≤ length (rows_of array.now) }
    requires numbered { start + count < 2 ^ 64 }
    ensures part { IfOk result (λ flat. IsFlatPart (column_of array.now) start (start + count)
        (OfLeaf (leaf_of flat))) }
    ensures counted { IfOk result (λ flat. leaf_count (leaf_of flat) ≡ count) }
    ensures only { IsOkUnless result VortexError.OutOfMemory }
{
    match array.rows_between(alloc, start, start + count)? {
        Canonical::Flat(flat) => {
            let stored = stored_rows(&flat);
            prove!(stored == count);
            Ok(flat)
        }
        Canonical::List(_) => unreachable!(),
    }
}

// How many rows are stored, which are as many as there are.
fn stored_rows(flat: &FlatColumn<Global>) -> usize
    ensures stored { result ≡ leaf_count (leaf_of flat.now) }
    ensures rows { result ≡ length (single_rows (leaf_of flat.now)) }
{
    match flat {
        FlatColumn::Primitive(numbers) => numbers.len(),
        FlatColumn::Bool(truths) => truths.len(),
        FlatColumn::Decimal(decimals) => decimals.len(),
        FlatColumn::VarBinView(texts) => texts.len(),
    }
}

// Refused as `Unsupported` unless it is a type of integers, and as `TypeMismatch` for another one.
fn check_numbers(dtype: DType, ptype: PType) -> VortexResult<()>
    ensures { IsRefusedOnlyBy (numbers_type_fault ptype dtype) result }
{
    match dtype {
        DType::Primitive(stored, _) => check_ptype(stored, ptype),
        _ => Err(VortexError::Unsupported),
    }
}

#[tactic(auto, using(crate::proofs::ReadRefusals::is_same, crate::proofs::ReadRefusals::is_other))]
fn check_ptype(stored: PType, wanted: PType) -> VortexResult<()>
    ensures { IsRefusedOnlyBy (cond (is_same_type stored wanted) None (Some VortexError.TypeMismatch)) result }
{
    if stored == wanted {
        Ok(())
    } else {
        Err(VortexError::TypeMismatch)
    }
}

// Refused as `Unsupported` unless it is a type of decimals.
fn check_decimals(dtype: DType) -> VortexResult<()>
    ensures { IsRefusedOnlyBy (decimals_type_fault dtype) result }
{
    match dtype {
        DType::Decimal(_, _) => Ok(()),
        _ => Err(VortexError::Unsupported),
    }
}

// Refused as `Unsupported` unless it is the type of booleans.
fn check_truths(dtype: DType) -> VortexResult<()>
    ensures { IsRefusedOnlyBy (truths_type_fault dtype) result }
{
    match dtype {
        DType::Bool(_) => Ok(()),
        _ => Err(VortexError::Unsupported),
    }
}

// Refused as `Unsupported` unless it is a type of texts or bytes.
fn check_texts(dtype: DType) -> VortexResult<()>
    ensures { IsRefusedOnlyBy (texts_type_fault dtype) result }
{
    match dtype {
        DType::Utf8(_) | DType::Binary(_) => Ok(()),
        _ => Err(VortexError::Unsupported),
    }
}

// Refused as `Unsupported` for lists.
fn check_single(dtype: DType) -> VortexResult<()>
    ensures { IsRefusedOnlyBy (list_fault dtype) result }
{
    match fault_of_lists(dtype) {
        Some(error) => Err(error),
        None => Ok(()),
    }
}
