//! Many rows of a flat column at once, borrowed. What is stored under null is read as it is.
ghost use Rattle.std.specs.Prelude.{◌≡◌, ℕ, ◌+◌, ◌<◌, ◌≤◌, pos, length, map, slice_range, slice_index_or, IfOk, OnErr};
ghost use Rattle.column_base.specs.Validity.{form_of, validity_flags};
ghost use Rattle.column_base.specs.ValidityForm.{HasLength};
ghost use Rattle.column_base.specs.Words.{Packs};
ghost use Rattle.column_core.specs.FlatView.{leaf_in};
ghost use Rattle.column_core.specs.Leaf.{leaf_count};
ghost use Rattle.c_columns.specs.Pairs.{number_in, zero_pair};
ghost use Rattle.c_columns.specs.ReadFaults.{IsRefusedOnlyBy, stored_decimals_fault, stored_numbers_fault, stored_truths_fault, words_fault};
ghost use Rattle.c_columns.specs.Reads.{AreLeafFlags, AreLeafTruths, AreStoredNumbers, AreStoredPairs};

use crate::pairs::{Pair, pair_of};
use crate::words::{check_range, put_bits, put_same};
use column_core::{FlatView, NativePType, Validity, VortexError, VortexResult};
use std::alloc::Global;

/// Writes the numbers that a flat column stores, from row `start` on, as many as there are `items`. Refused as
/// `Unsupported` unless it is a flat column of integers, as `TypeMismatch` where it is one of another type, and as
/// `BadRange` where there are fewer rows.
#[tactic(auto, using(crate::proofs::ReadRefusals::numbers_of_type, crate::proofs::ReadRefusals::numbers_of_other))]
pub fn read_numbers<T: NativePType>(
    flat: FlatView<'_, Global>,
    start: usize,
    items: &mut [T],
) -> VortexResult<()>
    ensures items { IfOk result (λ _. AreStoredNumbers (leaf_in flat.entry) start (map T.number items.new)) }
    ensures refused { IsRefusedOnlyBy
        (stored_numbers_fault T.PTYPE start (length items.old) (leaf_in flat.entry)) result }
    ensures kept { OnErr result (items.new ≡ items.old) }
    ensures len { length items.new ≡ length items.old }
{
    let FlatView::Primitive(numbers) = flat else {
        return Err(VortexError::Unsupported);
    };
    let Some(stored) = T::slice_of(numbers.values()) else {
        return Err(VortexError::TypeMismatch);
    };
    check_range(start, items.len(), stored.len())?;
    copy_items(stored, start, items);
    Ok(())
}

/// Writes the decimals that a flat column stores, from row `start` on, as many as there are `pairs`. Refused as
/// `Unsupported` unless it is a flat column of decimals, and as `BadRange` where there are fewer rows.
pub fn read_decimals(
    flat: FlatView<'_, Global>,
    start: usize,
    pairs: &mut [Pair],
) -> VortexResult<()>
    ensures pairs { IfOk result (λ _. AreStoredPairs (leaf_in flat.entry) start pairs.new) }
    ensures refused { IsRefusedOnlyBy (stored_decimals_fault start (length pairs.old) (leaf_in flat.entry)) result }
    ensures kept { OnErr result (pairs.new ≡ pairs.old) }
    ensures len { length pairs.new ≡ length pairs.old }
{
    let FlatView::Decimal(decimals) = flat else {
        return Err(VortexError::Unsupported);
    };
    let stored = decimals.values();
    check_range(start, pairs.len(), stored.len())?;
    copy_pairs(stored, start, pairs);
    Ok(())
}

/// Writes the bits of the booleans that a flat column stores, 64 to a word. Refused as `Unsupported` unless it is a
/// flat column of booleans, and as `ColumnLength` for another number of words.
pub fn read_booleans(flat: FlatView<'_, Global>, words: &mut [u64]) -> VortexResult<()>
    ensures words { IfOk result (λ _. AreLeafTruths (leaf_in flat.entry) words.new) }
    ensures refused { IsRefusedOnlyBy (stored_truths_fault (length words.old) (leaf_in flat.entry)) result }
    ensures kept { OnErr result (words.new ≡ words.old) }
    ensures len { length words.new ≡ length words.old }
{
    match flat {
        FlatView::Bool(truths) => put_bits(truths.values(), words),
        _ => Err(VortexError::Unsupported),
    }
}

/// Writes a bit for each row of a flat column, 64 to a word: whether it is valid. Refused as `ColumnLength` for another
/// number of words.
pub fn read_validity(flat: FlatView<'_, Global>, words: &mut [u64]) -> VortexResult<()>
    ensures words { IfOk result (λ _. AreLeafFlags (leaf_in flat.entry) words.new) }
    ensures refused { IsRefusedOnlyBy (words_fault (leaf_count (leaf_in flat.entry)) (length words.old)) result }
    ensures kept { OnErr result (words.new ≡ words.old) }
    ensures len { length words.new ≡ length words.old }
{
    put_validity(flat.validity(), flat.len(), words)
}

// The items from `start` on, as many as there is room for.
#[tactic(auto, using(column_base::proofs::Ranges::slice_range_of_map))]
fn copy_items<T: NativePType>(stored: &[T], start: usize, items: &mut [T])
    requires { start + length items.old ≤ length stored.now }
    ensures len { length items.new ≡ length items.old }
    ensures numbers { map T.number items.new ≡ slice_range (map T.number stored.now) start (start + length items.old) }
{
    let stop = start + items.len();
    items.copy_from_slice(&stored[start..stop]);
}

// The numbers from `start` on, as many as there is room for.
fn copy_pairs(stored: &[i128], start: usize, pairs: &mut [Pair])
    requires { start + length pairs.old ≤ length stored.now }
    ensures len { length pairs.new ≡ length pairs.old }
    ensures numbers { (k : ℕ) → k < length pairs.new
        → number_in (slice_index_or pairs.new k zero_pair) ≡ slice_index_or stored.now (start + k) (pos 0) }
{
    for row in 0..pairs.len() {
        pairs[row] = pair_of(stored[start + row]);
    }
}

// The bits of a validity of `count` rows.
fn put_validity(validity: &Validity<Global>, count: usize, words: &mut [u64]) -> VortexResult<()>
    requires { HasLength (form_of validity.now) count }
    ensures packed { IfOk result (λ _. Packs words.new (validity_flags validity.now count)) }
    ensures refused { IsRefusedOnlyBy (words_fault count (length words.old)) result }
    ensures kept { OnErr result (words.new ≡ words.old) }
    ensures len { length words.new ≡ length words.old }
{
    match validity {
        Validity::Bits(bits) => put_bits(bits, words),
        Validity::AllInvalid => put_same(false, count, words),
        Validity::NonNullable | Validity::AllValid => put_same(true, count, words),
    }
}
