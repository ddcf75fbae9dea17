//! Calls that read the bits of a window of rows, in any form.
#![tactic(auto, using(crate::proofs::ReadEndings::window_empty, crate::proofs::ReadEndings::window_done, crate::proofs::ReadEndings::window_refused))]

ghost use Rattle.std.specs.Prelude.{◌≡◌, ◌≢◌, IsSomeAnd, length, pos};
ghost use Rattle.runend_array.specs.Array.{column_of};
ghost use Rattle.c_columns.specs.Handle.{array_in};
ghost use Rattle.c_columns.specs.ReadFaults.{EndsOnWindow, flags_from_fault, truths_from_fault};
ghost use Rattle.c_columns.specs.Reads.{AreTruthWordsFrom, AreValidityWordsFrom};

use c_columns::error_fields::{ErrorFields, NO_COLUMN, write_status};
use c_columns::handle::Handle;
use c_columns::windows;
use std::alloc::Global;

/// Returns the booleans of `count` rows from row `start` on, 64 to a word, in as few words as can be. Refused as
/// `windows::read_booleans` says.
#[unsafe(no_mangle)]
pub extern "C" fn hv_read_bools_from(
    alloc: Global,
    column: &mut Handle,
    start: usize,
    count: usize,
    words: &mut [u64],
    error: &mut ErrorFields,
) -> i32
    ensures same { column.new.column ≡ column.old.column }
    ensures told { result ≡ pos 0
        → IsSomeAnd (array_in column.old.column) (λ c. AreTruthWordsFrom (column_of c) start count words.new) }
    ensures kept { result ≢ pos 0 → words.new ≡ words.old }
    ensures ended { EndsOnWindow (truths_from_fault start count (length words.old))
        (array_in column.old.column) result error.new }
{
    let Some(held) = column.take(alloc) else {
        return NO_COLUMN;
    };
    let outcome = windows::read_booleans(alloc, &held.array, start, count, words);
    column.put(held);
    write_status(outcome, error)
}

/// Returns a bit for each of `count` rows from row `start` on, 64 to a word: whether it is valid. Refused as
/// `windows::read_validity` says.
#[unsafe(no_mangle)]
pub extern "C" fn hv_read_validity_from(
    alloc: Global,
    column: &mut Handle,
    start: usize,
    count: usize,
    words: &mut [u64],
    error: &mut ErrorFields,
) -> i32
    ensures same { column.new.column ≡ column.old.column }
    ensures told { result ≡ pos 0
        → IsSomeAnd (array_in column.old.column) (λ c. AreValidityWordsFrom (column_of c) start count words.new) }
    ensures kept { result ≢ pos 0 → words.new ≡ words.old }
    ensures ended { EndsOnWindow (flags_from_fault start count (length words.old))
        (array_in column.old.column) result error.new }
{
    let Some(held) = column.take(alloc) else {
        return NO_COLUMN;
    };
    let outcome = windows::read_validity(alloc, &held.array, start, count, words);
    column.put(held);
    write_status(outcome, error)
}
