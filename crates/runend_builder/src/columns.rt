//! Items and flags as a flat column.
ghost use Rattle.std.specs.Prelude.{◌≡◌, ◌∷◌, [], All, IfOk, IsOkUnless, length, true};
ghost use Rattle.column_base.specs.Validity.{form_of};
ghost use Rattle.column_base.specs.ValidityForm.{HasLength};
ghost use Rattle.column_base.specs.declared.dtype.Nullability.TheVariants.{NonNullable};
ghost use Rattle.column_core.specs.DecimalForm.{decimal_with};
ghost use Rattle.column_core.specs.BoolForm.{bool_with};
ghost use Rattle.column_core.specs.FlatColumn.{leaf_of};
ghost use Rattle.column_core.specs.Leaf.{OfDecimals, OfNumbers, OfTruths, OfVarBins, leaf_count};
ghost use Rattle.column_core.specs.PrimitiveForm.{primitive_with};
ghost use Rattle.column_core.specs.VarBinForm.{varbin_with};
ghost use Rattle.runend_builder.specs.Items.{AreSound, IsColumnOf, IsGrown, IsValidityOf, numbers_in, ptype_in, stored_in, with_validity};
ghost use Rattle.runend_builder.specs.Texts.{AreCut};

use crate::bits::packed;
use crate::items::Items;
use crate::numbers::{NumberItems, copied_numbers};
use crate::texts::TextItems;
use bytes::Bytes;
use column_core::{
    BoolArray, DecimalArray, DecimalDType, FlatColumn, Nullability, PrimitiveArray, Validity,
    VarBinViewArray, VortexError, VortexResult,
};
use std::alloc::Allocator;

/// Returns a flat column of copies of these items, null where a flag is false. Refused only as `OutOfMemory`.
pub(crate) fn column_of<A: Allocator + Copy>(
    alloc: A,
    items: &Items<A>,
    flags: &[bool],
    nullability: Nullability,
) -> VortexResult<FlatColumn<A>>
    requires { IsGrown (stored_in items.now) flags.now nullability }
    ensures only { IsOkUnless result VortexError.OutOfMemory }
    ensures column { IfOk result (λ column.
        IsColumnOf (stored_in items.now) flags.now nullability (leaf_of column)) }
{
    let validity = validity_of(alloc, flags, nullability)?;
    column_with(alloc, items, validity)
}

/// Returns the validity of these flags. Refused only as `OutOfMemory`.
pub(crate) fn validity_of<A: Allocator + Copy>(
    alloc: A,
    flags: &[bool],
    nullability: Nullability,
) -> VortexResult<Validity<A>>
    requires { nullability ≡ NonNullable → All (λ flag. flag ≡ true) flags.now }
    ensures only { IsOkUnless result VortexError.OutOfMemory }
    ensures flags { IfOk result (λ validity. IsValidityOf (form_of validity) flags.now nullability) }
{
    match nullability {
        Nullability::NonNullable => Ok(Validity::NonNullable),
        Nullability::Nullable => Ok(Validity::from_bits(packed(alloc, flags)?)),
    }
}

// The column of copies of these items with that validity.
fn column_with<A: Allocator + Copy>(
    alloc: A,
    items: &Items<A>,
    validity: Validity<A>,
) -> VortexResult<FlatColumn<A>>
    requires counted { HasLength (form_of validity) (leaf_count (stored_in items.now)) }
    requires sound { AreSound (stored_in items.now) }
    ensures only { IsOkUnless result VortexError.OutOfMemory }
    ensures column { IfOk result (λ column. leaf_of column ≡ with_validity (stored_in items.now) (form_of validity)) }
{
    match items {
        Items::Numbers(numbers) => number_column(alloc, numbers, validity),
        Items::Truths(bits) => truth_column(alloc, bits, validity),
        Items::Decimals(decimal, numbers) => decimal_column(alloc, *decimal, numbers, validity),
        Items::VarBins(texts) => text_column(alloc, texts, validity),
    }
}

fn number_column<A: Allocator + Copy>(
    alloc: A,
    numbers: &NumberItems<A>,
    validity: Validity<A>,
) -> VortexResult<FlatColumn<A>>
    requires { HasLength (form_of validity) (length (numbers_in numbers.now)) }
    ensures only { IsOkUnless result VortexError.OutOfMemory }
    ensures column { IfOk result (λ column. leaf_of column ≡
        OfNumbers (primitive_with (ptype_in numbers.now) (numbers_in numbers.now) (form_of validity))) }
{
    let values = copied_numbers(alloc, numbers)?;
    let array = PrimitiveArray::new_unchecked(values, validity);
    Ok(FlatColumn::Primitive(array))
}

fn truth_column<A: Allocator + Copy>(
    alloc: A,
    bits: &[bool],
    validity: Validity<A>,
) -> VortexResult<FlatColumn<A>>
    requires { HasLength (form_of validity) (length bits.now) }
    ensures only { IsOkUnless result VortexError.OutOfMemory }
    ensures column { IfOk result (λ column. leaf_of column ≡ OfTruths (bool_with bits.now (form_of validity))) }
{
    let bits = packed(alloc, bits)?;
    let array = BoolArray::new_unchecked(bits, validity);
    Ok(FlatColumn::Bool(array))
}

fn decimal_column<A: Allocator + Copy>(
    alloc: A,
    decimal: DecimalDType,
    numbers: &[i128],
    validity: Validity<A>,
) -> VortexResult<FlatColumn<A>>
    requires { HasLength (form_of validity) (length numbers.now) }
    ensures only { IsOkUnless result VortexError.OutOfMemory }
    ensures column { IfOk result (λ column. leaf_of column ≡
        OfDecimals (decimal_with decimal numbers.now (form_of validity))) }
{
    let numbers = Vec::from_slice(alloc, numbers)?;
    let array = DecimalArray::new_unchecked(numbers, decimal, validity);
    Ok(FlatColumn::Decimal(array))
}

fn text_column<A: Allocator + Copy>(
    alloc: A,
    texts: &TextItems<A>,
    validity: Validity<A>,
) -> VortexResult<FlatColumn<A>>
    requires counted { HasLength (form_of validity) (length texts.now.views.items) }
    requires cut { AreCut texts.now.kind (texts.now.bytes.items ∷ []) texts.now.views.items }
    ensures only { IsOkUnless result VortexError.OutOfMemory }
    ensures column { IfOk result (λ column. leaf_of column ≡ OfVarBins (varbin_with texts.now.kind
        texts.now.views.items (texts.now.bytes.items ∷ []) (form_of validity))) }
{
    let views = Vec::from_slice(alloc, &texts.views)?;
    let buffers = one_buffer(alloc, &texts.bytes)?;
    let array = VarBinViewArray::new_unchecked(views, buffers, texts.kind, validity);
    Ok(FlatColumn::VarBinView(array))
}

// A copy of these bytes as the one buffer.
fn one_buffer<A: Allocator + Copy>(alloc: A, bytes: &[u8]) -> VortexResult<Vec<Bytes<A>, A>>
    ensures only { IsOkUnless result VortexError.OutOfMemory }
    ensures buffer { IfOk result (λ buffers. buffers.items ≡ bytes.now ∷ []) }
{
    let mut buffers = Vec::with_capacity(alloc, 1)?;
    let copy = Vec::from_slice(alloc, bytes)?;
    buffers.push(Bytes::from_vec(copy)?)?;
    Ok(buffers)
}
