//! Items and flags as a flat column, to which the items move.
ghost use Rattle.std.specs.Prelude.{◌≡◌, ◌∷◌, [], IfOk, IsOkUnless, OnErr, OnOk, length};
ghost use Rattle.column_base.specs.Validity.{form_of};
ghost use Rattle.column_base.specs.ValidityForm.{HasLength};
ghost use Rattle.column_core.specs.DecimalForm.{decimal_with};
ghost use Rattle.column_core.specs.BoolForm.{bool_with};
ghost use Rattle.column_core.specs.FlatColumn.{leaf_of};
ghost use Rattle.column_core.specs.Leaf.{OfDecimals, OfNumbers, OfTruths, OfVarBins, leaf_count, leaf_dtype};
ghost use Rattle.column_core.specs.PrimitiveForm.{primitive_with};
ghost use Rattle.column_core.specs.VarBinForm.{varbin_with};
ghost use Rattle.runend_builder.specs.Items.{AreSound, IsColumnOf, IsGrown, numbers_in, ptype_in, stored_in, with_validity};
ghost use Rattle.runend_builder.specs.Texts.{AreCut};

use crate::bits::packed;
use crate::columns::validity_of;
use crate::items::Items;
use crate::numbers::{NumberItems, taken_numbers};
use crate::texts::TextItems;
use bytes::Bytes;
use column_core::{
    BoolArray, DecimalArray, DecimalDType, FlatColumn, Nullability, PrimitiveArray, Validity,
    VarBinViewArray, VortexError, VortexResult,
};
use std::alloc::{AllocFailed, Allocator};
use std::mem::replace;

/// Returns a flat column of these items, null where a flag is false: numbers, views and bytes are moved, bits are
/// packed, and no item stays. Refused only as `OutOfMemory`, and then all of them stay.
pub(crate) fn taken_column<A: Allocator + Copy>(
    alloc: A,
    items: &mut Items<A>,
    flags: &[bool],
    nullability: Nullability,
) -> VortexResult<FlatColumn<A>>
    requires { IsGrown (stored_in items.old) flags.now nullability }
    ensures only { IsOkUnless result VortexError.OutOfMemory }
    ensures column { IfOk result (λ column.
        IsColumnOf (stored_in items.old) flags.now nullability (leaf_of column)) }
    ensures none { OnOk result (leaf_count (stored_in items.new) ≡ 0) }
    ensures kept { OnErr result (stored_in items.new ≡ stored_in items.old) }
    ensures sound { AreSound (stored_in items.new) }
    ensures typed { leaf_dtype (stored_in items.new) ≡ leaf_dtype (stored_in items.old) }
{
    let validity = validity_of(alloc, flags, nullability)?;
    taken_with(alloc, items, validity)
}

// The column of these items with that validity.
fn taken_with<A: Allocator + Copy>(
    alloc: A,
    items: &mut Items<A>,
    validity: Validity<A>,
) -> VortexResult<FlatColumn<A>>
    requires counted { HasLength (form_of validity) (leaf_count (stored_in items.old)) }
    requires sound { AreSound (stored_in items.old) }
    ensures only { IsOkUnless result VortexError.OutOfMemory }
    ensures column { IfOk result (λ column. leaf_of column ≡ with_validity (stored_in items.old) (form_of validity)) }
    ensures none { OnOk result (leaf_count (stored_in items.new) ≡ 0) }
    ensures kept { OnErr result (stored_in items.new ≡ stored_in items.old) }
    ensures sound { AreSound (stored_in items.new) }
    ensures typed { leaf_dtype (stored_in items.new) ≡ leaf_dtype (stored_in items.old) }
{
    match items {
        Items::Numbers(numbers) => Ok(taken_number_column(alloc, numbers, validity)),
        Items::Truths(bits) => taken_truth_column(alloc, bits, validity),
        Items::Decimals(decimal, numbers) => {
            Ok(taken_decimal_column(alloc, *decimal, numbers, validity))
        }
        Items::VarBins(texts) => taken_text_column(alloc, texts, validity),
    }
}

fn taken_number_column<A: Allocator + Copy>(
    alloc: A,
    numbers: &mut NumberItems<A>,
    validity: Validity<A>,
) -> FlatColumn<A>
    requires { HasLength (form_of validity) (length (numbers_in numbers.old)) }
    ensures column { leaf_of result ≡
        OfNumbers (primitive_with (ptype_in numbers.old) (numbers_in numbers.old) (form_of validity)) }
    ensures none { numbers_in numbers.new ≡ [] }
    ensures typed { ptype_in numbers.new ≡ ptype_in numbers.old }
{
    let values = taken_numbers(alloc, numbers);
    FlatColumn::Primitive(PrimitiveArray::new_unchecked(values, validity))
}

fn taken_truth_column<A: Allocator + Copy>(
    alloc: A,
    bits: &mut Vec<bool, A>,
    validity: Validity<A>,
) -> VortexResult<FlatColumn<A>>
    requires { HasLength (form_of validity) (length bits.old.items) }
    ensures only { IsOkUnless result VortexError.OutOfMemory }
    ensures column { IfOk result (λ column. leaf_of column ≡
        OfTruths (bool_with bits.old.items (form_of validity))) }
    ensures none { OnOk result (bits.new.items ≡ []) }
    ensures kept { OnErr result (bits.new.items ≡ bits.old.items) }
{
    let words = packed(alloc, bits)?;
    drop(replace(bits, Vec::new(alloc)));
    Ok(FlatColumn::Bool(BoolArray::new_unchecked(words, validity)))
}

fn taken_decimal_column<A: Allocator + Copy>(
    alloc: A,
    decimal: DecimalDType,
    numbers: &mut Vec<i128, A>,
    validity: Validity<A>,
) -> FlatColumn<A>
    requires { HasLength (form_of validity) (length numbers.old.items) }
    ensures column { leaf_of result ≡ OfDecimals (decimal_with decimal numbers.old.items (form_of validity)) }
    ensures none { numbers.new.items ≡ [] }
{
    let numbers = replace(numbers, Vec::new(alloc));
    FlatColumn::Decimal(DecimalArray::new_unchecked(numbers, decimal, validity))
}

fn taken_text_column<A: Allocator + Copy>(
    alloc: A,
    texts: &mut TextItems<A>,
    validity: Validity<A>,
) -> VortexResult<FlatColumn<A>>
    requires counted { HasLength (form_of validity) (length texts.old.views.items) }
    requires cut { AreCut texts.old.kind (texts.old.bytes.items ∷ []) texts.old.views.items }
    ensures only { IsOkUnless result VortexError.OutOfMemory }
    ensures column { IfOk result (λ column. leaf_of column ≡ OfVarBins (varbin_with texts.old.kind
        texts.old.views.items (texts.old.bytes.items ∷ []) (form_of validity))) }
    ensures none { OnOk result (texts.new.views.items ≡ []) }
    ensures kept_views { OnErr result (texts.new.views.items ≡ texts.old.views.items) }
    ensures kept_bytes { OnErr result (texts.new.bytes.items ≡ texts.old.bytes.items) }
    ensures kind { texts.new.kind ≡ texts.old.kind }
{
    let buffers = taken_buffer(alloc, &mut texts.bytes)?;
    let views = replace(&mut texts.views, Vec::new(alloc));
    let array = VarBinViewArray::new_unchecked(views, buffers, texts.kind, validity);
    Ok(FlatColumn::VarBinView(array))
}

// These bytes as the one buffer. Refused only as `OutOfMemory`, and then they stay.
fn taken_buffer<A: Allocator + Copy>(
    alloc: A,
    bytes: &mut Vec<u8, A>,
) -> VortexResult<Vec<Bytes<A>, A>>
    ensures only { IsOkUnless result VortexError.OutOfMemory }
    ensures buffer { IfOk result (λ buffers. buffers.items ≡ bytes.old.items ∷ []) }
    ensures none { OnOk result (bytes.new.items ≡ []) }
    ensures kept { OnErr result (bytes.new.items ≡ bytes.old.items) }
{
    let mut buffers = Vec::with_capacity(alloc, 1)?;
    match Bytes::from_vec(replace(bytes, Vec::new(alloc))) {
        Ok(buffer) => {
            buffers.push_reserved(buffer);
            Ok(buffers)
        }
        Err(AllocFailed { value: refused }) => {
            drop(buffers);
            drop(replace(bytes, refused));
            Err(VortexError::OutOfMemory)
        }
    }
}
