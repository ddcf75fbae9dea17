//! Calls that read many rows at once. A flat column is read where it lies; rows in any other form are written flat
//! first, these rows alone.
#![tactic(auto, using(crate::proofs::ReadEndings::read_empty, crate::proofs::ReadEndings::read_done, crate::proofs::ReadEndings::read_refused))]

ghost use Rattle.std.specs.Prelude.{◌≡◌, ◌≢◌, IsSomeAnd, length, map, pos};
ghost use Rattle.column_base.specs.declared.dtype.PType.TheVariants.{U8, U16, U32, U64, I8, I16, I32, I64};
ghost use Rattle.runend_array.specs.Array.{column_of, rows};
ghost use Rattle.c_columns.specs.Handle.{array_in};
ghost use Rattle.c_columns.specs.ReadFaults.{EndsOnRead, EndsOnRows, bytes_fault, decimals_fault, flags_fault, numbers_fault, offsets_fault, truths_fault};
ghost use Rattle.c_columns.specs.Reads.{AreBytesFrom, AreNumbersFrom, AreOffsetsFrom, ArePairsFrom, AreTruthWords, AreValidityWords};

use c_columns::error_fields::{ErrorFields, NO_COLUMN, write_status};
use c_columns::handle::Handle;
use c_columns::pairs::Pair;
use c_columns::windows;
use std::alloc::Global;

/// Returns the numbers of the rows from row `start` on, as many as there are `items`. Refused as
/// `windows::read_numbers` says.
#[tactic(auto, using(crate::proofs::ReadEndings::rows_empty, crate::proofs::ReadEndings::rows_done))]
#[unsafe(no_mangle)]
pub extern "C" fn hv_read_u8(
    alloc: Global,
    column: &mut Handle,
    start: usize,
    items: &mut [u8],
    error: &mut ErrorFields,
) -> i32
    ensures same { column.new.column ≡ column.old.column }
    ensures told { result ≡ pos 0
        → IsSomeAnd (array_in column.old.column) (λ c. AreNumbersFrom (column_of c) start (map pos items.new)) }
    ensures kept { result ≢ pos 0 → items.new ≡ items.old }
    ensures ended { EndsOnRows (numbers_fault U8 start (length items.old))
        (array_in column.old.column) result error.new }
{
    let Some(held) = column.take(alloc) else {
        return NO_COLUMN;
    };
    let outcome = windows::read_numbers(alloc, &held.array, start, items);
    column.put(held);
    write_status(outcome, error)
}

/// Returns the numbers of the rows from row `start` on, as many as there are `items`. Refused as
/// `windows::read_numbers` says.
#[tactic(auto, using(crate::proofs::ReadEndings::rows_empty, crate::proofs::ReadEndings::rows_done))]
#[unsafe(no_mangle)]
pub extern "C" fn hv_read_u16(
    alloc: Global,
    column: &mut Handle,
    start: usize,
    items: &mut [u16],
    error: &mut ErrorFields,
) -> i32
    ensures same { column.new.column ≡ column.old.column }
    ensures told { result ≡ pos 0
        → IsSomeAnd (array_in column.old.column) (λ c. AreNumbersFrom (column_of c) start (map pos items.new)) }
    ensures kept { result ≢ pos 0 → items.new ≡ items.old }
    ensures ended { EndsOnRows (numbers_fault U16 start (length items.old))
        (array_in column.old.column) result error.new }
{
    let Some(held) = column.take(alloc) else {
        return NO_COLUMN;
    };
    let outcome = windows::read_numbers(alloc, &held.array, start, items);
    column.put(held);
    write_status(outcome, error)
}

/// Returns the numbers of the rows from row `start` on, as many as there are `items`. Refused as
/// `windows::read_numbers` says.
#[tactic(auto, using(crate::proofs::ReadEndings::rows_empty, crate::proofs::ReadEndings::rows_done))]
#[unsafe(no_mangle)]
pub extern "C" fn hv_read_u32(
    alloc: Global,
    column: &mut Handle,
    start: usize,
    items: &mut [u32],
    error: &mut ErrorFields,
) -> i32
    ensures same { column.new.column ≡ column.old.column }
    ensures told { result ≡ pos 0
        → IsSomeAnd (array_in column.old.column) (λ c. AreNumbersFrom (column_of c) start (map pos items.new)) }
    ensures kept { result ≢ pos 0 → items.new ≡ items.old }
    ensures ended { EndsOnRows (numbers_fault U32 start (length items.old))
        (array_in column.old.column) result error.new }
{
    let Some(held) = column.take(alloc) else {
        return NO_COLUMN;
    };
    let outcome = windows::read_numbers(alloc, &held.array, start, items);
    column.put(held);
    write_status(outcome, error)
}

/// Returns the numbers of the rows from row `start` on, as many as there are `items`. Refused as
/// `windows::read_numbers` says.
#[tactic(auto, using(crate::proofs::ReadEndings::rows_empty, crate::proofs::ReadEndings::rows_done))]
#[unsafe(no_mangle)]
pub extern "C" fn hv_read_u64(
    alloc: Global,
    column: &mut Handle,
    start: usize,
    items: &mut [u64],
    error: &mut ErrorFields,
) -> i32
    ensures same { column.new.column ≡ column.old.column }
    ensures told { result ≡ pos 0
        → IsSomeAnd (array_in column.old.column) (λ c. AreNumbersFrom (column_of c) start (map pos items.new)) }
    ensures kept { result ≢ pos 0 → items.new ≡ items.old }
    ensures ended { EndsOnRows (numbers_fault U64 start (length items.old))
        (array_in column.old.column) result error.new }
{
    let Some(held) = column.take(alloc) else {
        return NO_COLUMN;
    };
    let outcome = windows::read_numbers(alloc, &held.array, start, items);
    column.put(held);
    write_status(outcome, error)
}

/// Returns the numbers of the rows from row `start` on, as many as there are `items`. Refused as
/// `windows::read_numbers` says.
#[tactic(auto, using(crate::proofs::ReadEndings::rows_empty, crate::proofs::ReadEndings::rows_done))]
#[unsafe(no_mangle)]
pub extern "C" fn hv_read_i8(
    alloc: Global,
    column: &mut Handle,
    start: usize,
    items: &mut [i8],
    error: &mut ErrorFields,
) -> i32
    ensures same { column.new.column ≡ column.old.column }
    ensures told { result ≡ pos 0 →
        IsSomeAnd (array_in column.old.column) (λ c. AreNumbersFrom (column_of c) start (items.new)) }
    ensures kept { result ≢ pos 0 → items.new ≡ items.old }
    ensures ended { EndsOnRows (numbers_fault I8 start (length items.old))
        (array_in column.old.column) result error.new }
{
    let Some(held) = column.take(alloc) else {
        return NO_COLUMN;
    };
    let outcome = windows::read_numbers(alloc, &held.array, start, items);
    column.put(held);
    write_status(outcome, error)
}

/// Returns the numbers of the rows from row `start` on, as many as there are `items`. Refused as
/// `windows::read_numbers` says.
#[tactic(auto, using(crate::proofs::ReadEndings::rows_empty, crate::proofs::ReadEndings::rows_done))]
#[unsafe(no_mangle)]
pub extern "C" fn hv_read_i16(
    alloc: Global,
    column: &mut Handle,
    start: usize,
    items: &mut [i16],
    error: &mut ErrorFields,
) -> i32
    ensures same { column.new.column ≡ column.old.column }
    ensures told { result ≡ pos 0 →
        IsSomeAnd (array_in column.old.column) (λ c. AreNumbersFrom (column_of c) start (items.new)) }
    ensures kept { result ≢ pos 0 → items.new ≡ items.old }
    ensures ended { EndsOnRows (numbers_fault I16 start (length items.old))
        (array_in column.old.column) result error.new }
{
    let Some(held) = column.take(alloc) else {
        return NO_COLUMN;
    };
    let outcome = windows::read_numbers(alloc, &held.array, start, items);
    column.put(held);
    write_status(outcome, error)
}

/// Returns the numbers of the rows from row `start` on, as many as there are `items`. Refused as
/// `windows::read_numbers` says.
#[tactic(auto, using(crate::proofs::ReadEndings::rows_empty, crate::proofs::ReadEndings::rows_done))]
#[unsafe(no_mangle)]
pub extern "C" fn hv_read_i32(
    alloc: Global,
    column: &mut Handle,
    start: usize,
    items: &mut [i32],
    error: &mut ErrorFields,
) -> i32
    ensures same { column.new.column ≡ column.old.column }
    ensures told { result ≡ pos 0 →
        IsSomeAnd (array_in column.old.column) (λ c. AreNumbersFrom (column_of c) start (items.new)) }
    ensures kept { result ≢ pos 0 → items.new ≡ items.old }
    ensures ended { EndsOnRows (numbers_fault I32 start (length items.old))
        (array_in column.old.column) result error.new }
{
    let Some(held) = column.take(alloc) else {
        return NO_COLUMN;
    };
    let outcome = windows::read_numbers(alloc, &held.array, start, items);
    column.put(held);
    write_status(outcome, error)
}

/// Returns the numbers of the rows from row `start` on, as many as there are `items`. Refused as
/// `windows::read_numbers` says.
#[tactic(auto, using(crate::proofs::ReadEndings::rows_empty, crate::proofs::ReadEndings::rows_done))]
#[unsafe(no_mangle)]
pub extern "C" fn hv_read_i64(
    alloc: Global,
    column: &mut Handle,
    start: usize,
    items: &mut [i64],
    error: &mut ErrorFields,
) -> i32
    ensures same { column.new.column ≡ column.old.column }
    ensures told { result ≡ pos 0 →
        IsSomeAnd (array_in column.old.column) (λ c. AreNumbersFrom (column_of c) start (items.new)) }
    ensures kept { result ≢ pos 0 → items.new ≡ items.old }
    ensures ended { EndsOnRows (numbers_fault I64 start (length items.old))
        (array_in column.old.column) result error.new }
{
    let Some(held) = column.take(alloc) else {
        return NO_COLUMN;
    };
    let outcome = windows::read_numbers(alloc, &held.array, start, items);
    column.put(held);
    write_status(outcome, error)
}

/// Returns the decimals of the rows from row `start` on, as many as there are `pairs`. Refused as
/// `windows::read_decimals` says.
#[tactic(auto, using(crate::proofs::ReadEndings::rows_empty, crate::proofs::ReadEndings::rows_done))]
#[unsafe(no_mangle)]
pub extern "C" fn hv_read_decimals(
    alloc: Global,
    column: &mut Handle,
    start: usize,
    pairs: &mut [Pair],
    error: &mut ErrorFields,
) -> i32
    ensures same { column.new.column ≡ column.old.column }
    ensures told { result ≡ pos 0 →
        IsSomeAnd (array_in column.old.column) (λ c. ArePairsFrom (column_of c) start pairs.new) }
    ensures kept { result ≢ pos 0 → pairs.new ≡ pairs.old }
    ensures ended { EndsOnRows (decimals_fault start (length pairs.old)) (array_in column.old.column) result error.new }
{
    let Some(held) = column.take(alloc) else {
        return NO_COLUMN;
    };
    let outcome = windows::read_decimals(alloc, &held.array, start, pairs);
    column.put(held);
    write_status(outcome, error)
}

/// Returns the booleans that a flat column stores, 64 to a word, in as few words as can be. Refused as
/// `windows::read_all_booleans` says.
#[unsafe(no_mangle)]
pub extern "C" fn hv_read_bools(
    alloc: Global,
    column: &mut Handle,
    words: &mut [u64],
    error: &mut ErrorFields,
) -> i32
    ensures same { column.new.column ≡ column.old.column }
    ensures told { result ≡ pos 0 →
        IsSomeAnd (array_in column.old.column) (λ c. AreTruthWords (column_of c) words.new) }
    ensures kept { result ≢ pos 0 → words.new ≡ words.old }
    ensures ended { EndsOnRead (truths_fault (length words.old)) (array_in column.old.column) result error.new }
{
    let Some(held) = column.take(alloc) else {
        return NO_COLUMN;
    };
    let outcome = windows::read_all_booleans(&held.array, words);
    column.put(held);
    write_status(outcome, error)
}

/// Returns a bit for each row of a flat column, 64 to a word: whether it is valid. Refused as
/// `windows::read_all_validity` says.
#[unsafe(no_mangle)]
pub extern "C" fn hv_read_validity(
    alloc: Global,
    column: &mut Handle,
    words: &mut [u64],
    error: &mut ErrorFields,
) -> i32
    ensures same { column.new.column ≡ column.old.column }
    ensures told { result ≡ pos 0 →
        IsSomeAnd (array_in column.old.column) (λ c. AreValidityWords (column_of c) words.new) }
    ensures kept { result ≢ pos 0 → words.new ≡ words.old }
    ensures ended { EndsOnRead (flags_fault (length words.old)) (array_in column.old.column) result error.new }
{
    let Some(held) = column.take(alloc) else {
        return NO_COLUMN;
    };
    let outcome = windows::read_all_validity(&held.array, words);
    column.put(held);
    write_status(outcome, error)
}

/// Returns the offsets of the texts or bytes from row `start` on, from 0: one more than rows. Refused as
/// `windows::read_offsets` says.
#[tactic(auto, using(crate::proofs::ReadEndings::rows_empty, crate::proofs::ReadEndings::rows_done))]
#[unsafe(no_mangle)]
pub extern "C" fn hv_read_offsets(
    alloc: Global,
    column: &mut Handle,
    start: usize,
    offsets: &mut [i32],
    error: &mut ErrorFields,
) -> i32
    ensures same { column.new.column ≡ column.old.column }
    ensures told { result ≡ pos 0 →
        IsSomeAnd (array_in column.old.column) (λ c. AreOffsetsFrom (column_of c) start offsets.new) }
    ensures kept { result ≢ pos 0 → offsets.new ≡ offsets.old }
    ensures ended { EndsOnRows (offsets_fault I32 start (length offsets.old))
        (array_in column.old.column) result error.new }
{
    let Some(held) = column.take(alloc) else {
        return NO_COLUMN;
    };
    let outcome = windows::read_offsets(alloc, &held.array, start, offsets);
    column.put(held);
    write_status(outcome, error)
}

/// Returns the offsets of the texts or bytes from row `start` on, from 0: one more than rows. Refused as
/// `windows::read_offsets` says.
#[tactic(auto, using(crate::proofs::ReadEndings::rows_empty, crate::proofs::ReadEndings::rows_done))]
#[unsafe(no_mangle)]
pub extern "C" fn hv_read_large_offsets(
    alloc: Global,
    column: &mut Handle,
    start: usize,
    offsets: &mut [i64],
    error: &mut ErrorFields,
) -> i32
    ensures same { column.new.column ≡ column.old.column }
    ensures told { result ≡ pos 0 →
        IsSomeAnd (array_in column.old.column) (λ c. AreOffsetsFrom (column_of c) start offsets.new) }
    ensures kept { result ≢ pos 0 → offsets.new ≡ offsets.old }
    ensures ended { EndsOnRows (offsets_fault I64 start (length offsets.old))
        (array_in column.old.column) result error.new }
{
    let Some(held) = column.take(alloc) else {
        return NO_COLUMN;
    };
    let outcome = windows::read_offsets(alloc, &held.array, start, offsets);
    column.put(held);
    write_status(outcome, error)
}

/// Returns the bytes of `count` texts or bytes from row `start` on, one after the other. Refused as
/// `windows::read_bytes` says.
#[tactic(auto, using(crate::proofs::ReadEndings::rows_empty, crate::proofs::ReadEndings::rows_done))]
#[unsafe(no_mangle)]
pub extern "C" fn hv_read_bytes(
    alloc: Global,
    column: &mut Handle,
    start: usize,
    count: usize,
    bytes: &mut [u8],
    error: &mut ErrorFields,
) -> i32
    ensures same { column.new.column ≡ column.old.column }
    ensures told { result ≡ pos 0
        → IsSomeAnd (array_in column.old.column) (λ c. AreBytesFrom (column_of c) start count bytes.new) }
    ensures kept { result ≢ pos 0 → bytes.new ≡ bytes.old }
    ensures ended { EndsOnRows (bytes_fault start count (length bytes.old))
        (array_in column.old.column) result error.new }
{
    let Some(held) = column.take(alloc) else {
        return NO_COLUMN;
    };
    let outcome = windows::read_bytes(alloc, &held.array, start, count, bytes);
    column.put(held);
    write_status(outcome, error)
}
