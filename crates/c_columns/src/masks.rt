//! Masks: the rows of a column of booleans, whatever its form, that are true.
ghost use Rattle.std.specs.Prelude.{◌≡◌, length, map, IfOk, IsOkUnless, IsTrue, None};
ghost use Rattle.column_base.specs.Mask.{mask_bits};
ghost use Rattle.column_base.specs.ValidityForm.{ByBits};
ghost use Rattle.column_core.specs.Leaf.{OfTruths, single_rows};
ghost use Rattle.column_core.specs.Refusal.{IsRefusedBy};
ghost use Rattle.column_core.specs.ScalarView.{sees};
ghost use Rattle.runend_array.specs.Array.{dtype_of, rows};
ghost use Rattle.runend_array.specs.Canonical.{canonical_column};
ghost use Rattle.runend_array.specs.Column.{OfConstant, column_dtype, column_rows};
ghost use Rattle.runend_select.specs.MaskRuns.{is_true, mask_fault};
ghost use Rattle.c_columns.specs.TwoColumns.{AreOfBoth, AreWithin};

use crate::sessions::plain_context;
use column_core::{
    BitBuffer, BitBufferMut, BoolArray, DType, FlatColumn, Mask, ScalarView, Validity, VortexError,
    VortexResult,
};
use runend_array::{ArrayRef, Canonical, ConstantArray};
use std::alloc::Global;

/// Returns which rows are true; null is not true. A constant takes no memory, and stored bits are shared where they are
/// the answer. Refused as `TypeMismatch` unless the rows are booleans, else only for memory.
pub fn mask_of(alloc: Global, array: &ArrayRef<Global>) -> VortexResult<Mask<Global>>
    ensures mask { IfOk result (λ mask. mask_bits mask ≡ map is_true (rows array.now)) }
    ensures refused { IsRefusedBy (mask_fault (dtype_of array.now)) result }
{
    match array.dtype() {
        DType::Bool(_) => mask_of_truths(alloc, array),
        _ => Err(VortexError::TypeMismatch),
    }
}

// Which rows of a column of booleans are true.
fn mask_of_truths(alloc: Global, array: &ArrayRef<Global>) -> VortexResult<Mask<Global>>
    requires { mask_fault (dtype_of array.now) ≡ None }
    ensures mask { IfOk result (λ mask. mask_bits mask ≡ map is_true (rows array.now)) }
    ensures refused { IsRefusedBy (mask_fault (dtype_of array.now)) result }
{
    match array {
        ArrayRef::Bool(truths) => mask_of_flat(alloc, truths),
        ArrayRef::Constant(constant) => Ok(mask_of_constant(constant)),
        _ => mask_of_decoded(alloc, array),
    }
}

// The rows of a flat column that are true. Refused only for memory.
#[tactic(auto, using(crate::proofs::MaskRows::never_null, crate::proofs::MaskRows::none_null, crate::proofs::MaskRows::all_null))]
fn mask_of_flat(alloc: Global, truths: &BoolArray<Global>) -> VortexResult<Mask<Global>>
    ensures mask { IfOk result (λ mask. mask_bits mask ≡ map is_true (single_rows (OfTruths truths.now))) }
    ensures only { IsOkUnless result VortexError.OutOfMemory }
{
    match truths.validity() {
        Validity::NonNullable => mask_of_bits(alloc, truths),
        Validity::AllValid => mask_of_bits(alloc, truths),
        Validity::AllInvalid => Ok(Mask::AllFalse(truths.len())),
        Validity::Bits(valid) => mask_of_valid(alloc, truths, valid),
    }
}

// The rows that are true where the stored bits say it: these are shared as `BitBuffer::try_clone` shares them.
fn mask_of_bits(alloc: Global, truths: &BoolArray<Global>) -> VortexResult<Mask<Global>>
    requires { truths.now.bits ≡ map is_true (single_rows (OfTruths truths.now)) }
    ensures mask { IfOk result (λ mask. mask_bits mask ≡ map is_true (single_rows (OfTruths truths.now))) }
    ensures only { IsOkUnless result VortexError.OutOfMemory }
{
    let bits = truths.values().try_clone(alloc)?;
    Ok(Mask::from_buffer(bits))
}

// The rows that are true where `valid` says which are there. Computed columns store false under null, as comparisons
// leave them.
#[tactic(auto, using(crate::proofs::MaskRows::bits_within))]
fn mask_of_valid(
    alloc: Global,
    truths: &BoolArray<Global>,
    valid: &BitBuffer<Global>,
) -> VortexResult<Mask<Global>>
    requires by_bits { truths.now.validity ≡ ByBits valid.now }
    requires counted { length valid.now ≡ length truths.now.bits }
    ensures mask { IfOk result (λ mask. mask_bits mask ≡ map is_true (single_rows (OfTruths truths.now))) }
    ensures only { IsOkUnless result VortexError.OutOfMemory }
{
    if are_within(truths.values(), valid) {
        mask_of_bits(alloc, truths)
    } else {
        mask_by_words(alloc, truths, valid)
    }
}

// Is each bit that is true one that `others` has true too? A word of 64 at a time.
#[tactic(auto, using(crate::proofs::MaskRows::one_word_more, crate::proofs::MaskRows::all_words))]
fn are_within(bits: &BitBuffer<Global>, others: &BitBuffer<Global>) -> bool
    requires { length others.now ≡ length bits.now }
    ensures { IsTrue result → AreWithin bits.now others.now }
{
    let words = bits.words();
    let limits = others.words();
    for index in 0..words.len() {
        if words[index] & limits[index] != words[index] {
            return false;
        }
    }
    true
}

// The rows that are true where true is stored under null too: the bits of both, a word of 64 at a time.
#[tactic(auto, using(crate::proofs::MaskRows::bits_of_both))]
fn mask_by_words(
    alloc: Global,
    truths: &BoolArray<Global>,
    valid: &BitBuffer<Global>,
) -> VortexResult<Mask<Global>>
    requires by_bits { truths.now.validity ≡ ByBits valid.now }
    requires counted { length valid.now ≡ length truths.now.bits }
    ensures mask { IfOk result (λ mask. mask_bits mask ≡ map is_true (single_rows (OfTruths truths.now))) }
    ensures only { IsOkUnless result VortexError.OutOfMemory }
{
    let words = words_of_both(alloc, truths.values().words(), valid.words())?;
    let bits = BitBufferMut::from_words(words, truths.len());
    Ok(Mask::from_buffer(bits.freeze()))
}

// Each word with only those bits that the other one has too.
fn words_of_both(alloc: Global, words: &[u64], others: &[u64]) -> VortexResult<Vec<u64, Global>>
    requires { length others.now ≡ length words.now }
    ensures both { IfOk result (λ both. AreOfBoth words.now others.now both.items (length words.now)) }
    ensures only { IsOkUnless result VortexError.OutOfMemory }
{
    let mut both = Vec::with_capacity(alloc, words.len())?;
    for index in 0..words.len() {
        both.push(words[index] & others[index])?;
    }
    Ok(both)
}

// The rows that are true of a column in another form, which is written flat first.
fn mask_of_decoded(alloc: Global, array: &ArrayRef<Global>) -> VortexResult<Mask<Global>>
    ensures mask { IfOk result (λ mask. mask_bits mask ≡ map is_true (rows array.now)) }
    ensures refused { IsRefusedBy (mask_fault (dtype_of array.now)) result }
{
    let flat = array.to_canonical(&mut plain_context(alloc))?;
    let mask = mask_of_canonical(alloc, &flat);
    drop(flat);
    mask
}

fn mask_of_canonical(alloc: Global, flat: &Canonical<Global>) -> VortexResult<Mask<Global>>
    ensures mask { IfOk result (λ mask. mask_bits mask ≡ map is_true (column_rows (canonical_column flat.now))) }
    ensures refused { IsRefusedBy (mask_fault (column_dtype (canonical_column flat.now))) result }
{
    match flat {
        Canonical::Flat(FlatColumn::Bool(truths)) => mask_of_flat(alloc, truths),
        _ => Err(VortexError::TypeMismatch),
    }
}

// A constant is true in each row, or in none.
#[tactic(auto, using(crate::proofs::TwoColumns::true_in_each))]
fn mask_of_constant(constant: &ConstantArray<Global>) -> Mask<Global>
    ensures { mask_bits result ≡ map is_true (column_rows (OfConstant constant.now)) }
{
    if is_selected(constant.scalar().view()) {
        Mask::AllTrue(constant.len())
    } else {
        Mask::AllFalse(constant.len())
    }
}

/// Returns whether the row is true. Null is not true.
pub(crate) fn is_selected(row: ScalarView<'_, Global>) -> bool
    ensures { result ≡ is_true (sees row.entry) }
{
    match row {
        ScalarView::Bool(truth) => truth,
        _ => false,
    }
}
