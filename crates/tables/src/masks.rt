//! Masks of any form as bits, where their rows change so often that stretches of them are no shorter.
ghost use Rattle.std.specs.Prelude.{◌≡◌, None, IfOk, IfSome, IsOkUnless, length};
ghost use Rattle.column_base.specs.Mask.{mask_bits};
ghost use Rattle.column_base.specs.ValidityForm.{ByBits};
ghost use Rattle.column_core.specs.Leaf.{OfTruths, single_rows};
ghost use Rattle.column_core.specs.Refusal.{IsRefusedBy};
ghost use Rattle.runend_array.specs.Array.{dtype_of, rows};
ghost use Rattle.runend_array.specs.Canonical.{canonical_column};
ghost use Rattle.runend_array.specs.Column.{column_dtype, column_rows};
ghost use Rattle.row_stretches.specs.Masks.{mask_fault, truths_of};
ghost use Rattle.tables.specs.MaskWords.{AreOfBoth};

use column_core::{
    BitBuffer, BitBufferMut, BoolArray, FlatColumn, Mask, Validity, VortexError, VortexResult,
};
use runend_array::{ArrayRef, Canonical, ExecutionCtx, RunEndArrayExt};
use std::alloc::Allocator;

/// Returns a bit for each row of a mask of booleans, true where the row is: null is not. `None` for a constant, and for
/// a mask in at most a run for 64 rows: its stretches are then no more than the words of its bits. Refused only as
/// `OutOfMemory`.
pub(crate) fn mask_by_bits<A: Allocator + Copy>(
    mask: &ArrayRef<A>,
    ctx: &mut ExecutionCtx<A>,
) -> VortexResult<Option<Mask<A>>>
    requires booleans { mask_fault (dtype_of mask.now) ≡ None }
    ensures only { IsOkUnless result VortexError.OutOfMemory }
    ensures bits { IfOk result (λ found. IfSome found (λ bits. mask_bits bits ≡ truths_of (rows mask.now))) }
    ensures session { ctx.new ≡ ctx.old }
{
    match mask {
        ArrayRef::Bool(truths) => {
            let bits = bits_of(*ctx.allocator(), truths)?;
            Ok(Some(bits))
        }
        ArrayRef::RunEnd(runs) if runs.visible_runs().len() > runs.len() / 64 => {
            let flat = mask.to_canonical(ctx)?;
            let bits = bits_of_flat(*ctx.allocator(), &flat);
            drop(flat);
            Ok(Some(bits?))
        }
        _ => Ok(None),
    }
}

// The same of a flat column.
fn bits_of_flat<A: Allocator + Copy>(alloc: A, flat: &Canonical<A>) -> VortexResult<Mask<A>>
    ensures mask { IfOk result (λ mask. mask_bits mask ≡ truths_of (column_rows (canonical_column flat.now))) }
    ensures refused { IsRefusedBy (mask_fault (column_dtype (canonical_column flat.now))) result }
{
    match flat {
        Canonical::Flat(FlatColumn::Bool(truths)) => bits_of(alloc, truths),
        _ => Err(VortexError::TypeMismatch),
    }
}

// The same of flat booleans. Stored bits are shared where no row is null. Refused only as `OutOfMemory`.
#[tactic(auto, using(crate::proofs::MaskBits::never_null, crate::proofs::MaskBits::none_null, crate::proofs::MaskBits::all_null))]
fn bits_of<A: Allocator + Copy>(alloc: A, truths: &BoolArray<A>) -> VortexResult<Mask<A>>
    ensures mask { IfOk result (λ mask. mask_bits mask ≡ truths_of (single_rows (OfTruths truths.now))) }
    ensures only { IsOkUnless result VortexError.OutOfMemory }
{
    match truths.validity() {
        Validity::NonNullable => stored_bits(alloc, truths),
        Validity::AllValid => stored_bits(alloc, truths),
        Validity::AllInvalid => Ok(Mask::AllFalse(truths.len())),
        Validity::Bits(valid) => bits_where(alloc, truths, valid),
    }
}

// The stored bits.
fn stored_bits<A: Allocator + Copy>(alloc: A, truths: &BoolArray<A>) -> VortexResult<Mask<A>>
    ensures mask { IfOk result (λ mask. mask_bits mask ≡ truths.now.bits) }
    ensures only { IsOkUnless result VortexError.OutOfMemory }
{
    let bits = truths.values().try_clone(alloc)?;
    Ok(Mask::from_buffer(bits))
}

// The bits that are true where `valid` says that a row is there, a word of 64 at a time.
#[tactic(auto, using(crate::proofs::MaskBits::bits_of_both))]
fn bits_where<A: Allocator + Copy>(
    alloc: A,
    truths: &BoolArray<A>,
    valid: &BitBuffer<A>,
) -> VortexResult<Mask<A>>
    requires by_bits { truths.now.validity ≡ ByBits valid.now }
    requires counted { length valid.now ≡ length truths.now.bits }
    ensures mask { IfOk result (λ mask. mask_bits mask ≡ truths_of (single_rows (OfTruths truths.now))) }
    ensures only { IsOkUnless result VortexError.OutOfMemory }
{
    let words = words_of_both(alloc, truths.values().words(), valid.words())?;
    let bits = BitBufferMut::from_words(words, truths.len());
    Ok(Mask::from_buffer(bits.freeze()))
}

// Each word with only the bits that the other one has too.
fn words_of_both<A: Allocator>(alloc: A, words: &[u64], others: &[u64]) -> VortexResult<Vec<u64, A>>
    requires { length others.now ≡ length words.now }
    ensures both { IfOk result (λ both. AreOfBoth words.now others.now both.items (length words.now)) }
    ensures only { IsOkUnless result VortexError.OutOfMemory }
{
    let mut both = Vec::with_capacity(alloc, words.len())?;
    for index in 0..words.len() {
        both.push(words[index] & others[index])?;
    }
    Ok(both)
}
