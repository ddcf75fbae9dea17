//! How answers are stored, in flat columns.
ghost use Rattle.std.specs.Prelude.{◌≡◌, ◌↔◌, All, false, IfOk, IsOkUnless, IsTrue, length, map, pos, true};
ghost use Rattle.column_base.specs.declared.dtype.DType.{DType};
ghost use Rattle.column_base.specs.declared.dtype.DType.TheVariants as column;
ghost use Rattle.column_base.specs.declared.dtype.Nullability.{Nullability};
ghost use Rattle.column_base.specs.declared.dtype.Nullability.TheVariants.{NonNullable};
ghost use Rattle.column_core.specs.Computed.{IsComputedLeaf};
ghost use Rattle.column_core.specs.FlatColumn.{leaf_of};
ghost use Rattle.column_core.specs.Leaf.{leaf_dtype, single_rows};
ghost use Rattle.column_core.specs.Optionals.{AreBlankAtNulls};
ghost use Rattle.column_core.specs.Value.{DecimalNumber, FlatValue, Number, Truth};
ghost use Rattle.column_core.specs.ScalarView.{sees};
ghost use Rattle.runend_pairs.specs.Answers.{row_of, rows_of_items};
ghost use Rattle.runend_pairs.specs.Operations.{IsViewIn};

use column_core::{
    BitBuffer, BitBufferMut, BoolArray, DecimalArray, DecimalDType, FlatColumn, NativePType,
    Nullability, PrimitiveArray, ScalarView, VortexError, VortexResult,
};
use runend_windows::validity_with;
use std::alloc::Allocator;

/// Says how items of a native type are stored in a flat column.
pub(crate) trait Stored<Z: Copy + Drop> {
    // The value that an item is.
    ghost shown: { Z → FlatValue };

    // The value that is stored under null.
    ghost blank_value: { FlatValue };

    // The type of a column of items, with null or without.
    ghost dtype_in: { Self → Nullability → DType };

    /// Returns the item that is stored under null.
    fn blank() -> Z
        ensures { shown result ≡ blank_value };

    /// Returns whether two items are of one value.
    fn is_same(left: Z, right: Z) -> bool
        ensures { IsTrue result ↔ (shown left ≡ shown right) };

    /// Returns the item that a view of a row shows, or `None` for null.
    fn of_view<A: Allocator>(&self, view: &ScalarView<'_, A>) -> Option<Z>
        requires { IsViewIn (dtype_in self.now) view.now }
        ensures { row_of shown result ≡ sees view.now };

    /// Returns the flat column of items, null where the flag is false. Refused only as `OutOfMemory`.
    fn column<A: Allocator + Copy>(
        &self,
        alloc: A,
        items: Vec<Z, A>,
        flags: BitBuffer<A>,
        nullability: Nullability,
    ) -> VortexResult<FlatColumn<A>>
        requires paired { length flags ≡ length items.items }
        requires blank { AreBlankAtNulls blank_value (map shown items.items) flags }
        requires filled { nullability ≡ NonNullable → All (λ flag. flag ≡ true) flags }
        ensures only { IsOkUnless result VortexError.OutOfMemory }
        ensures rows { IfOk result (λ made.
            single_rows (leaf_of made) ≡ rows_of_items shown items.items flags) }
        ensures dtype { IfOk result (λ made. leaf_dtype (leaf_of made) ≡ dtype_in self.now nullability) }
        ensures computed { IfOk result (λ made. IsComputedLeaf (leaf_of made)) };
}

/// Stores integers of one native type.
pub(crate) struct Integers;

impl<T: NativePType> Stored<T> for Integers {
    ghost shown = { λ item. Number (T.number item) };

    ghost blank_value = { Number (pos 0) };

    ghost dtype_in = { λ integers nullability. column.Primitive T.PTYPE nullability };

    fn blank() -> T {
        T::default()
    }

    fn is_same(left: T, right: T) -> bool {
        left == right
    }

    fn of_view<A: Allocator>(&self, view: &ScalarView<'_, A>) -> Option<T>
        requires { IsViewIn (λ nullability. column.Primitive T.PTYPE nullability) view.now }
        ensures { row_of (λ item. Number (T.number item)) result ≡ sees view.now }
    {
        match view {
            ScalarView::Null => None,
            ScalarView::Unsigned(number) => T::narrow(i128::from(*number)),
            ScalarView::Signed(number) => T::narrow(i128::from(*number)),
            _ => unreachable!(),
        }
    }

    fn column<A: Allocator + Copy>(
        &self,
        _alloc: A,
        items: Vec<T, A>,
        flags: BitBuffer<A>,
        nullability: Nullability,
    ) -> VortexResult<FlatColumn<A>>
        requires paired { length flags ≡ length items.items }
        requires blank { AreBlankAtNulls (Number (pos 0)) (map (λ item. Number (T.number item)) items.items) flags }
        requires filled { nullability ≡ NonNullable → All (λ flag. flag ≡ true) flags }
        ensures only { IsOkUnless result VortexError.OutOfMemory }
        ensures rows { IfOk result (λ made. single_rows (leaf_of made) ≡
            rows_of_items (λ item. Number (T.number item)) items.items flags) }
        ensures dtype { IfOk result (λ made. leaf_dtype (leaf_of made) ≡ column.Primitive T.PTYPE nullability) }
        ensures computed { IfOk result (λ made. IsComputedLeaf (leaf_of made)) }
    {
        let validity = validity_with(nullability, flags);
        let numbers = PrimitiveArray::new_unchecked(T::wrap(items), validity);
        Ok(FlatColumn::Primitive(numbers))
    }
}

/// Stores the integers of decimals of one precision and scale.
#[derive(Clone, Copy, Drop)]
pub(crate) struct Decimals {
    pub(crate) decimal: DecimalDType,
}

impl Stored<i128> for Decimals {
    ghost shown = { λ item. DecimalNumber item };

    ghost blank_value = { DecimalNumber (pos 0) };

    ghost dtype_in = { λ decimals nullability. column.Decimal decimals.decimal nullability };

    fn blank() -> i128 {
        0
    }

    fn is_same(left: i128, right: i128) -> bool {
        left == right
    }

    fn of_view<A: Allocator>(&self, view: &ScalarView<'_, A>) -> Option<i128>
        requires { IsViewIn (λ nullability. column.Decimal self.now.decimal nullability) view.now }
        ensures { row_of (λ item. DecimalNumber item) result ≡ sees view.now }
    {
        match view {
            ScalarView::Decimal(number) => Some(*number),
            _ => None,
        }
    }

    fn column<A: Allocator + Copy>(
        &self,
        _alloc: A,
        items: Vec<i128, A>,
        flags: BitBuffer<A>,
        nullability: Nullability,
    ) -> VortexResult<FlatColumn<A>>
        requires paired { length flags ≡ length items.items }
        requires blank { AreBlankAtNulls (DecimalNumber (pos 0)) (map (λ item. DecimalNumber item) items.items) flags }
        requires filled { nullability ≡ NonNullable → All (λ flag. flag ≡ true) flags }
        ensures only { IsOkUnless result VortexError.OutOfMemory }
        ensures rows { IfOk result (λ made. single_rows (leaf_of made) ≡
            rows_of_items (λ item. DecimalNumber item) items.items flags) }
        ensures dtype { IfOk result (λ made.
            leaf_dtype (leaf_of made) ≡ column.Decimal self.now.decimal nullability) }
        ensures computed { IfOk result (λ made. IsComputedLeaf (leaf_of made)) }
    {
        let validity = validity_with(nullability, flags);
        let decimals = DecimalArray::new_unchecked(items, self.decimal, validity);
        Ok(FlatColumn::Decimal(decimals))
    }
}

/// Stores booleans.
pub(crate) struct Truths;

impl Stored<bool> for Truths {
    ghost shown = { λ item. Truth item };

    ghost blank_value = { Truth false };

    ghost dtype_in = { λ truths nullability. column.Bool nullability };

    fn blank() -> bool {
        false
    }

    fn is_same(left: bool, right: bool) -> bool {
        left == right
    }

    fn of_view<A: Allocator>(&self, view: &ScalarView<'_, A>) -> Option<bool>
        requires { IsViewIn (λ nullability. column.Bool nullability) view.now }
        ensures { row_of (λ item. Truth item) result ≡ sees view.now }
    {
        match view {
            ScalarView::Null => None,
            ScalarView::Bool(truth) => Some(*truth),
            _ => unreachable!(),
        }
    }

    fn column<A: Allocator + Copy>(
        &self,
        alloc: A,
        items: Vec<bool, A>,
        flags: BitBuffer<A>,
        nullability: Nullability,
    ) -> VortexResult<FlatColumn<A>>
        requires paired { length flags ≡ length items.items }
        requires blank { AreBlankAtNulls (Truth false) (map (λ item. Truth item) items.items) flags }
        requires filled { nullability ≡ NonNullable → All (λ flag. flag ≡ true) flags }
        ensures only { IsOkUnless result VortexError.OutOfMemory }
        ensures rows { IfOk result (λ made. single_rows (leaf_of made) ≡
            rows_of_items (λ item. Truth item) items.items flags) }
        ensures dtype { IfOk result (λ made. leaf_dtype (leaf_of made) ≡ column.Bool nullability) }
        ensures computed { IfOk result (λ made. IsComputedLeaf (leaf_of made)) }
    {
        let bits = packed(alloc, items.as_slice())?;
        let validity = validity_with(nullability, flags);
        Ok(FlatColumn::Bool(BoolArray::new_unchecked(bits, validity)))
    }
}

// The booleans, 64 to a word.
fn packed<A: Allocator + Copy>(alloc: A, truths: &[bool]) -> VortexResult<BitBuffer<A>>
    ensures only { IsOkUnless result VortexError.OutOfMemory }
    ensures bits { IfOk result (λ bits. bits ≡ truths.now) }
{
    let mut bits = BitBufferMut::with_capacity(alloc, truths.len())?;
    for truth in truths {
        bits.append(*truth)?;
    }
    Ok(bits.freeze())
}
