//! The bits of a comparison with a constant, by one loop over the items as they are stored: types,
//! operator and validity are matched once, outside of it, and validity is applied word by word.
ghost use Rattle.std.specs.Prelude.{◌≡◌, false, is_none, length, map, IfOk, IsOkUnless};
ghost use Rattle.std.specs.Ordering.{int_cmp};
ghost use Rattle.column_base.specs.Numbers.{numbers, ptype_of};
ghost use Rattle.column_base.specs.Types.{HasNumber};
ghost use Rattle.column_base.specs.Validity.{form_of, validity_flags};
ghost use Rattle.column_base.specs.ValidityForm.{HasLength};
ghost use Rattle.column_core.specs.FlatView.{leaf_in};
ghost use Rattle.column_core.specs.Leaf.{leaf_dtype, single_rows};
ghost use Rattle.column_core.specs.Optionals.{optionals};
ghost use Rattle.column_core.specs.ScalarView.{sees, IsViewOf};
ghost use Rattle.column_ops.specs.Comparing.{answer_bits, compare_with, holds_of, is_held};

use crate::answer_words::{clear_unset, words_of_answers};
use crate::compared_truths::truth_of;
use crate::operator::CompareOperator;
use column_base::match_each_native;
use column_core::{
    BitBuffer, BitBufferMut, FlatView, NativePType, PrimitiveValues, ScalarView, Validity,
    VortexError, VortexResult,
};
use std::alloc::Allocator;

/// Returns a bit for each row: whether the operator holds of the row and the view, false where one is null. The view is
/// null or of the column's type. Refused only as `OutOfMemory`.
pub(crate) fn bits_of_answers<A: Allocator + Copy>(
    alloc: A,
    column: FlatView<'_, A>,
    operator: CompareOperator,
    right: &ScalarView<'_, A>,
) -> VortexResult<BitBufferMut<A>>
    requires { is_none (sees right.now) ≡ false → IsViewOf (leaf_dtype (leaf_in column)) right.now }
    ensures only { IsOkUnless result VortexError.OutOfMemory }
    ensures bits { IfOk result (λ bits. bits ≡ answer_bits (compare_with operator (single_rows (leaf_in column.entry))
        (sees right.now))) }
{
    match (column, right) {
        (FlatView::Primitive(array), ScalarView::Unsigned(number)) => {
            let right = i128::from(*number);
            bits_of_numbers(alloc, array.values(), array.validity(), operator, right)
        }
        (FlatView::Primitive(array), ScalarView::Signed(number)) => {
            let right = i128::from(*number);
            bits_of_numbers(alloc, array.values(), array.validity(), operator, right)
        }
        (FlatView::Decimal(array), ScalarView::Decimal(number)) => {
            bits_of_items(alloc, array.values(), array.validity(), operator, *number)
        }
        _ => bits_of_rows(alloc, column, operator, right),
    }
}

// A bit for each row, which is looked at by itself.
fn bits_of_rows<A: Allocator + Copy>(
    alloc: A,
    column: FlatView<'_, A>,
    operator: CompareOperator,
    right: &ScalarView<'_, A>,
) -> VortexResult<BitBufferMut<A>>
    ensures only { IsOkUnless result VortexError.OutOfMemory }
    ensures bits { IfOk result (λ bits. bits ≡ answer_bits (compare_with operator (single_rows (leaf_in column.entry))
        (sees right.now))) }
{
    let count = column.len();
    let mut bits = BitBufferMut::with_capacity(alloc, count)?;
    for index in 0..count {
        let truth = truth_of(operator, &column.get(index), right);
        bits.append(truth.unwrap_or(false))?;
    }
    Ok(bits)
}

// A bit for each number compared with one that the type has.
fn bits_of_numbers<A: Allocator + Copy>(
    alloc: A,
    values: &PrimitiveValues<A>,
    validity: &Validity<A>,
    operator: CompareOperator,
    right: i128,
) -> VortexResult<BitBufferMut<A>>
    requires fits { HasLength (form_of validity.now) (length (numbers values.now)) }
    requires has { HasNumber (ptype_of values.now) right }
    ensures only { IsOkUnless result VortexError.OutOfMemory }
    ensures bits { IfOk result (λ bits. bits ≡ map (is_held (λ number. holds_of operator (int_cmp number right)))
        (optionals (numbers values.now) (validity_flags validity.now (length (numbers values.now))))) }
{
    match_each_native!(values, items => bits_of_native(alloc, items.as_slice(), validity, operator, right))
}

// A bit for each item of one native type compared with a number that the type has.
fn bits_of_native<T: NativePType, A: Allocator + Copy>(
    alloc: A,
    items: &[T],
    validity: &Validity<A>,
    operator: CompareOperator,
    right: i128,
) -> VortexResult<BitBufferMut<A>>
    requires fits { HasLength (form_of validity.now) (length items.now) }
    requires has { HasNumber T.PTYPE right }
    ensures only { IsOkUnless result VortexError.OutOfMemory }
    ensures bits { IfOk result (λ bits. bits ≡ map (is_held (λ number. holds_of operator (int_cmp number right)))
        (optionals (map T.number items.now) (validity_flags validity.now (length items.now)))) }
{
    let Some(right) = T::narrow(right) else {
        unreachable!()
    };
    bits_of_items(alloc, items, validity, operator, right)
}

// A bit for each item, false where it is null.
fn bits_of_items<T: Copy + Ord + Drop, A: Allocator + Copy>(
    alloc: A,
    items: &[T],
    validity: &Validity<A>,
    operator: CompareOperator,
    right: T,
) -> VortexResult<BitBufferMut<A>>
    requires { HasLength (form_of validity.now) (length items.now) }
    ensures only { IsOkUnless result VortexError.OutOfMemory }
    ensures bits { IfOk result (λ bits. bits ≡ map (is_held (λ item. holds_of operator (T.cmp item right)))
        (optionals items.now (validity_flags validity.now (length items.now)))) }
{
    match validity {
        Validity::NonNullable => bits_of_all(alloc, items, operator, right),
        Validity::AllValid => bits_of_all(alloc, items, operator, right),
        Validity::AllInvalid => BitBufferMut::full(alloc, false, items.len()),
        Validity::Bits(valid) => bits_of_valid(alloc, items, valid, operator, right),
    }
}

// A bit for each item, where none is null.
fn bits_of_all<T: Copy + Ord + Drop, A: Allocator + Copy>(
    alloc: A,
    items: &[T],
    operator: CompareOperator,
    right: T,
) -> VortexResult<BitBufferMut<A>>
    ensures only { IsOkUnless result VortexError.OutOfMemory }
    ensures bits { IfOk result (λ bits. bits ≡ map (λ item. holds_of operator (T.cmp item right)) items.now) }
{
    let words = words_of_answers(alloc, items, operator, right)?;
    Ok(BitBufferMut::from_words(words, items.len()))
}

// A bit for each item, false where its bit of validity is.
fn bits_of_valid<T: Copy + Ord + Drop, A: Allocator + Copy>(
    alloc: A,
    items: &[T],
    valid: &BitBuffer<A>,
    operator: CompareOperator,
    right: T,
) -> VortexResult<BitBufferMut<A>>
    requires { length valid.now ≡ length items.now }
    ensures only { IsOkUnless result VortexError.OutOfMemory }
    ensures bits { IfOk result (λ bits. bits ≡ map (is_held (λ item. holds_of operator (T.cmp item right)))
        (optionals items.now valid.now)) }
{
    let mut words = words_of_answers(alloc, items, operator, right)?;
    clear_unset(words.as_mut_slice(), valid.words());
    Ok(BitBufferMut::from_words(words, items.len()))
}
