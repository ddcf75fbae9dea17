//! Which rows of numbers differ from the row before.
ghost use Rattle.std.specs.Prelude.{◌≡◌, ◌↔◌, ◌+◌, ◌*◌, ◌/◌, ◌<◌, ℕ, IfOk, IsOkUnless, length, map};
ghost use Rattle.std.specs.Int.{bit_at};
ghost use Rattle.column_base.specs.ValidityForm.{HasLength};
ghost use Rattle.column_base.specs.Validity.{form_of, validity_flags};
ghost use Rattle.column_base.specs.Words.{digit_at};
ghost use Rattle.column_core.specs.PrimitiveForm.{optionals};
ghost use Rattle.runend_windows.specs.Starts.{AreChanges, GoesOn};

use crate::flag_changes::changed_optionals;
use crate::item_changes::changed_items;
use column_core::{BitBuffer, BitBufferMut, NativePType, Validity, VortexError, VortexResult};
use std::alloc::Allocator;

/// Returns a bit for each row of numbers: whether it differs from the row before, null being equal to null. The bit of
/// the first row is false. Refused only as `OutOfMemory`.
pub(crate) fn changes_of<T: NativePType, A: Allocator + Copy>(
    alloc: A,
    items: &[T],
    validity: &Validity<A>,
) -> VortexResult<BitBuffer<A>>
    requires { HasLength (form_of validity.now) (length items.now) }
    ensures only { IsOkUnless result VortexError.OutOfMemory }
    ensures changes { IfOk result (λ bits. AreChanges
        (optionals (map T.number items.now) (validity_flags validity.now (length items.now))) bits) }
{
    let words = change_words(alloc, items, validity)?;
    Ok(BitBufferMut::from_words(words, items.len()).freeze())
}

// These bits in words of 64; the last word may have more.
fn change_words<T: NativePType, A: Allocator + Copy>(
    alloc: A,
    items: &[T],
    validity: &Validity<A>,
) -> VortexResult<Vec<u64, A>>
    requires { HasLength (form_of validity.now) (length items.now) }
    ensures only { IsOkUnless result VortexError.OutOfMemory }
    ensures len { IfOk result (λ words. length words.items ≡ (length items.now + 63) / 64) }
    ensures digits { IfOk result (λ words. (row : ℕ) → row < length items.now → ((digit_at words.items row ≡ 0) ↔
        GoesOn (optionals (map T.number items.now) (validity_flags validity.now (length items.now))) row)) }
{
    let count = items.len().div_ceil(64);
    let mut words = Vec::with_capacity(alloc, count)?;
    for index in 0..count {
        words.push_reserved(change_word(items, validity, index));
    }
    Ok(words)
}

// A bit for each of the 64 rows from row `index` * 64 on, the first of them lowest: whether it differs from the row
// before, null being equal to null. The bit of the first row of all is false. Bits after the last row may be any.
#[inline(always)]
fn change_word<T: NativePType, A: Allocator>(
    items: &[T],
    validity: &Validity<A>,
    index: usize,
) -> u64
    requires fits { HasLength (form_of validity.now) (length items.now) }
    requires within { index * 64 < length items.now }
    ensures { (lane : ℕ) → lane < 64 → index * 64 + lane < length items.now → ((bit_at result lane ≡ 0) ↔
        GoesOn (optionals (map T.number items.now) (validity_flags validity.now (length items.now)))
        (index * 64 + lane)) }
{
    changed_optionals(validity, index, changed_items(items, index))
}
