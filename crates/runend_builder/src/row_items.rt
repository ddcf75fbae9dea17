//! One row that is appended to others.
ghost use Rattle.std.specs.Prelude.{◌≡◌, ◌++◌, ◌∷◌, [], IsOkUnless, OnErr, OnOk, is_some, map};
ghost use Rattle.column_base.specs.Types.{HasNumber};
ghost use Rattle.column_core.specs.ScalarView.{sees};
ghost use Rattle.column_core.specs.VarBinForm.{IsOfKind};
ghost use Rattle.runend_builder.specs.Items.{AreSound, numbers_in, ptype_in, stored_in};
ghost use Rattle.runend_builder.specs.OneRow.{IsPushed, IsRowFor, number_in, truth_in};
ghost use Rattle.runend_builder.specs.Texts.{AreCut, texts_of};

use crate::items::Items;
use crate::numbers::NumberItems;
use crate::texts::{TextItems, push_text};
use column_core::{NativePType, ScalarView, VortexError, VortexResult};
use std::alloc::Allocator;

/// Appends the item of a row to items of its kind: 0, false or the view of nothing for null. Refused only as
/// `OutOfMemory`, and then the others stay as they are.
pub(crate) fn push_item<A: Allocator>(
    items: &mut Items<A>,
    row: ScalarView<'_, A>,
) -> VortexResult<()>
    requires typed { IsRowFor (stored_in items.old) (sees row) }
    requires sound { AreSound (stored_in items.old) }
    ensures only { IsOkUnless result VortexError.OutOfMemory }
    ensures items { OnOk result (IsPushed (stored_in items.old) (sees row.entry) (stored_in items.new)) }
    ensures kept { OnErr result (stored_in items.new ≡ stored_in items.old) }
    ensures sound { AreSound (stored_in items.new) }
{
    match items {
        Items::Numbers(numbers) => push_number(numbers, number_of(row)),
        Items::Truths(bits) => {
            bits.push(truth_of(row))?;
            Ok(())
        }
        Items::Decimals(_, numbers) => {
            numbers.push(number_of(row))?;
            Ok(())
        }
        Items::VarBins(texts) => match row {
            ScalarView::Utf8(text) => push_bytes(texts, text.as_bytes()),
            ScalarView::Binary(bytes) => push_bytes(texts, bytes),
            _ => push_bytes(texts, &[]),
        },
    }
}

/// Returns whether the row is a value.
pub(crate) fn is_valid<A: Allocator>(row: ScalarView<'_, A>) -> bool
    ensures { result ≡ is_some (sees row.entry) }
{
    match row {
        ScalarView::Null => false,
        _ => true,
    }
}

// Appends a number of the type.
fn push_number<A: Allocator>(items: &mut NumberItems<A>, number: i128) -> VortexResult<()>
    requires typed { HasNumber (ptype_in items.old) number }
    ensures only { IsOkUnless result VortexError.OutOfMemory }
    ensures numbers { OnOk result (numbers_in items.new ≡ numbers_in items.old ++ number ∷ []) }
    ensures kept { OnErr result (numbers_in items.new ≡ numbers_in items.old) }
    ensures typed { ptype_in items.new ≡ ptype_in items.old }
{
    match items {
        NumberItems::U8(items) => push_narrow(items, number),
        NumberItems::U16(items) => push_narrow(items, number),
        NumberItems::U32(items) => push_narrow(items, number),
        NumberItems::U64(items) => push_narrow(items, number),
        NumberItems::I8(items) => push_narrow(items, number),
        NumberItems::I16(items) => push_narrow(items, number),
        NumberItems::I32(items) => push_narrow(items, number),
        NumberItems::I64(items) => push_narrow(items, number),
    }
}

fn push_narrow<T: NativePType, A: Allocator>(
    items: &mut Vec<T, A>,
    number: i128,
) -> VortexResult<()>
    requires typed { HasNumber T.PTYPE number }
    ensures only { IsOkUnless result VortexError.OutOfMemory }
    ensures numbers { OnOk result (map T.number items.new.items ≡ map T.number items.old.items ++ number ∷ []) }
    ensures kept { OnErr result (items.new.items ≡ items.old.items) }
{
    let Some(item) = T::narrow(number) else {
        unreachable!()
    };
    items.push(item)?;
    Ok(())
}

// Appends a text of the kind, in bytes of its own.
fn push_bytes<A: Allocator>(texts: &mut TextItems<A>, text: &[u8]) -> VortexResult<()>
    requires of_kind { IsOfKind texts.old.kind text.now }
    requires cut { AreCut texts.old.kind (texts.old.bytes.items ∷ []) texts.old.views.items }
    ensures only { IsOkUnless result VortexError.OutOfMemory }
    ensures texts { OnOk result (texts_of (texts.new.bytes.items ∷ []) texts.new.views.items ≡
        texts_of (texts.old.bytes.items ∷ []) texts.old.views.items ++ text.now ∷ []) }
    ensures kept_views { OnErr result (texts.new.views.items ≡ texts.old.views.items) }
    ensures kept_bytes { OnErr result (texts.new.bytes.items ≡ texts.old.bytes.items) }
    ensures cut { AreCut texts.new.kind (texts.new.bytes.items ∷ []) texts.new.views.items }
    ensures kind { texts.new.kind ≡ texts.old.kind }
{
    push_text(&mut texts.views, &mut texts.bytes, text)
}

// The number that is stored for a row of integers or decimals: 0 for null.
fn number_of<A: Allocator>(row: ScalarView<'_, A>) -> i128
    ensures { result ≡ number_in (sees row.entry) }
{
    match row {
        ScalarView::Unsigned(number) => i128::from(number),
        ScalarView::Signed(number) => i128::from(number),
        ScalarView::Decimal(number) => number,
        _ => 0,
    }
}

// The bit that is stored for a row of booleans: false for null.
fn truth_of<A: Allocator>(row: ScalarView<'_, A>) -> bool
    ensures { result ≡ truth_in (sees row.entry) }
{
    match row {
        ScalarView::Bool(truth) => truth,
        _ => false,
    }
}
