//! The items of a flat column of any kind, which grow.
ghost use Rattle.std.specs.Prelude.{◌≡◌, ◌≤◌, IfOk, IsOkUnless, OnErr, OnOk, length};
ghost use Rattle.column_base.specs.Types.{nullability_of};
ghost use Rattle.column_base.specs.ValidityForm.{nullability_in};
ghost use Rattle.column_core.specs.Computed.{IsComputedLeaf};
ghost use Rattle.column_core.specs.FlatColumn.{leaf_of};
ghost use Rattle.column_core.specs.FlatView.{leaf_in};
ghost use Rattle.column_core.specs.Leaf.{leaf_count, leaf_dtype, leaf_validity};
ghost use Rattle.column_core.specs.Value.{IsLists};
ghost use Rattle.runend_builder.specs.Items.{AreAppended, AreSound, stored_in, type_with};

use crate::bits::append_bits;
use crate::numbers::{NumberItems, append_numbers, no_numbers};
use crate::texts::{TextItems, append_texts, no_texts};
use column_core::{DType, DecimalDType, FlatView, VarBinKind, VortexError, VortexResult};
use std::alloc::Allocator;

/// Holds the items of a column of one kind, as they are stored, under null too.
#[derive(Drop)]
pub(crate) enum Items<A: Allocator> {
    Numbers(NumberItems<A>),
    Truths(Vec<bool, A>),
    Decimals(DecimalDType, Vec<i128, A>),
    VarBins(TextItems<A>),
}

/// Returns no items of a type, which is not a type of lists. Takes no memory.
pub(crate) fn no_items<A: Allocator + Copy>(alloc: A, dtype: DType) -> Items<A>
    requires { ¬ IsLists dtype }
    ensures typed { type_with (stored_in result) (nullability_of dtype) ≡ dtype }
    ensures none { leaf_count (stored_in result) ≡ 0 }
    ensures sound { AreSound (stored_in result) }
{
    match dtype {
        DType::Primitive(ptype, _) => Items::Numbers(no_numbers(alloc, ptype)),
        DType::Bool(_) => Items::Truths(Vec::new(alloc)),
        DType::Decimal(decimal, _) => Items::Decimals(decimal, Vec::new(alloc)),
        DType::Utf8(_) => Items::VarBins(no_texts(alloc, VarBinKind::Utf8)),
        DType::Binary(_) => Items::VarBins(no_texts(alloc, VarBinKind::Binary)),
        DType::List(_, _) => unreachable!(),
    }
}

/// Appends the items of a column of the same kind from row `start` on. Refused only as `OutOfMemory`, and then the
/// others stay as they are.
pub(crate) fn append_items<A: Allocator>(
    items: &mut Items<A>,
    column: FlatView<'_, A>,
    start: usize,
) -> VortexResult<()>
    requires typed { type_with (stored_in items.old) (nullability_in (leaf_validity (leaf_in column))) ≡
        leaf_dtype (leaf_in column) }
    requires computed { IsComputedLeaf (leaf_in column) }
    requires within { start ≤ leaf_count (leaf_in column) }
    requires sound { AreSound (stored_in items.old) }
    ensures only { IsOkUnless result VortexError.OutOfMemory }
    ensures items { OnOk result (AreAppended (stored_in items.old) (leaf_in column.entry) start (stored_in items.new)) }
    ensures kept { OnErr result (stored_in items.new ≡ stored_in items.old) }
    ensures sound { AreSound (stored_in items.new) }
{
    match column {
        FlatView::Primitive(array) => match items {
            Items::Numbers(numbers) => append_numbers(numbers, array.values(), start),
            _ => unreachable!(),
        },
        FlatView::Bool(array) => match items {
            Items::Truths(bits) => append_bits(bits, array.values(), start),
            _ => unreachable!(),
        },
        FlatView::Decimal(array) => match items {
            Items::Decimals(_, numbers) => {
                numbers.extend_from_slice(&array.values()[start..])?;
                Ok(())
            }
            _ => unreachable!(),
        },
        FlatView::VarBinView(array) => match items {
            Items::VarBins(texts) => append_texts(texts, array, start),
            _ => unreachable!(),
        },
    }
}
