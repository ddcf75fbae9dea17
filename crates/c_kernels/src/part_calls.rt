//! What the rows of the column of a handle add to a sum, and how many of them are null.
ghost use Rattle.std.specs.Prelude.{◌≡◌, ◌≢◌, IfErr, IfOk, IsErrOf, IsSomeAnd, MatchOption, Some, pos};
ghost use Rattle.column_core.specs.Refusal.{IsRefusedBy};
ghost use Rattle.column_sums.specs.SumRange.{UnsignedRange};
ghost use Rattle.runend_array.specs.Array.{dtype_of, rows};
ghost use Rattle.runend_pairs.specs.GroupFaults.{numbers_fault};
ghost use Rattle.runend_pairs.specs.NullCounts.{null_rows};
ghost use Rattle.c_columns.specs.Ending.{IsRefusedAs};
ghost use Rattle.c_columns.specs.Handle.{array_in};
ghost use Rattle.c_kernels.specs.SumParts.{number_by, ArePairsOf, ArePartsShown, EndsOnParts};

use c_columns::error_fields::{ErrorFields, NO_COLUMN, refuse};
use c_columns::handle::Handle;
use c_columns::pairs::{Pair, pair_of};
use column_core::{VortexError, VortexResult};
use runend_array::ArrayRef;
use runend_pairs::{SumParts, null_count, sum_parts};
use std::alloc::Global;

/// Holds what rows add to a sum, each number in two words.
#[derive(Clone, Copy)]
pub struct PartPairs {
    pub total: Pair,
    pub least: Pair,
    pub greatest: Pair,
}

/// Writes what the rows of the column of a handle add to a sum, and returns 0: their total, and the least and the
/// greatest partial sum, one of which is the 0 before the first row. Else returns the number of an error, and writes
/// none of them: 22 for an empty handle, then as `part_pairs` is refused.
#[tactic(auto, using(crate::proofs::PartEndings::parts_empty, crate::proofs::PartEndings::parts_ends, crate::proofs::PartEndings::parts_shown))]
pub fn sum_parts_in_handle(
    alloc: Global,
    column: &mut Handle,
    total: &mut Pair,
    least: &mut Pair,
    greatest: &mut Pair,
    error: &mut ErrorFields,
) -> i32
    ensures same { column.new.column ≡ column.old.column }
    ensures shown { result ≡ pos 0 →
        IsSomeAnd (array_in column.old.column) (λ c. ArePartsShown c total.new least.new greatest.new) }
    ensures kept_total { result ≢ pos 0 → total.new ≡ total.old }
    ensures kept_least { result ≢ pos 0 → least.new ≡ least.old }
    ensures kept_greatest { result ≢ pos 0 → greatest.new ≡ greatest.old }
    ensures ended { EndsOnParts (array_in column.old.column) result error.new }
{
    let Some(held) = column.take(alloc) else {
        return NO_COLUMN;
    };
    let outcome = part_pairs(alloc, &held.array);
    column.put(held);
    write_parts(outcome, total, least, greatest, error)
}

/// Returns how many rows of the column of a handle are null; 0 for an empty handle. Takes no memory.
pub fn nulls_in_handle(alloc: Global, column: &mut Handle) -> usize
    ensures same { column.new.column ≡ column.old.column }
    ensures counted { MatchOption (array_in column.old.column) (result ≡ 0) (λ c. result ≡ null_rows (rows c)) }
{
    let Some(held) = column.take(alloc) else {
        return 0;
    };
    let nulls = null_count(&held.array);
    column.put(held);
    nulls
}

/// Returns what the rows of a column of integers add to a sum, in words: in two's complement for signed types. Refused
/// as `Unsupported` exactly for other types, before any memory is taken, and else only for memory.
#[tactic(auto, using(crate::proofs::PartEndings::words_shown))]
pub fn part_pairs(alloc: Global, array: &ArrayRef<Global>) -> VortexResult<PartPairs>
    ensures shown { IfOk result (λ parts. ArePartsShown array.now parts.total parts.least parts.greatest) }
    ensures refused { IsRefusedBy (numbers_fault (dtype_of array.now)) result }
    ensures first { (error : VortexError) → numbers_fault (dtype_of array.now) ≡ Some error → IsErrOf result error }
{
    let parts = sum_parts(alloc, array)?;
    Ok(pairs_of(parts))
}

// The words of three numbers.
fn pairs_of(parts: SumParts) -> PartPairs
    ensures { ArePairsOf parts result.total result.least result.greatest }
{
    match parts {
        SumParts::Signed(signed) => PartPairs {
            total: pair_of(signed.total),
            least: pair_of(signed.least),
            greatest: pair_of(signed.greatest),
        },
        SumParts::Unsigned(unsigned) => {
            let total = words_of(unsigned.total);
            PartPairs {
                total,
                least: Pair { low: 0, high: 0 },
                greatest: total,
            }
        }
    }
}

/// Holds 2^64.
const WORD: u128 = 18_446_744_073_709_551_616;

// The words of a number that is not negative.
fn words_of(number: u128) -> Pair
    ensures { pos number ≡ number_by UnsignedRange result }
{
    let high = (number / WORD) as u64;
    Pair {
        low: (number % WORD) as u64,
        high: high.cast_signed(),
    }
}

// Writes the three numbers and returns 0, or returns the number of an error and writes its fields.
fn write_parts(
    outcome: VortexResult<PartPairs>,
    total: &mut Pair,
    least: &mut Pair,
    greatest: &mut Pair,
    error: &mut ErrorFields,
) -> i32
    ensures ok { IfOk outcome (λ parts. (result ≡ pos 0) × (total.new ≡ parts.total)
        × (least.new ≡ parts.least) × (greatest.new ≡ parts.greatest)) }
    ensures err { IfErr outcome (λ why. (result ≢ pos 0) × IsRefusedAs why result error.new
        × (total.new ≡ total.old) × (least.new ≡ least.old) × (greatest.new ≡ greatest.old)) }
{
    match outcome {
        Ok(parts) => {
            *total = parts.total;
            *least = parts.least;
            *greatest = parts.greatest;
            0
        }
        Err(why) => refuse(why, error),
    }
}
