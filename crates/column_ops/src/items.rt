//! Items that a flat column stores as they are: integers of each native type, and those of decimals.
ghost use Rattle.std.specs.Prelude.{◌≡◌, pos, refl};
ghost use Rattle.column_base.specs.Number.{unsigned_numbered};
ghost use Rattle.column_base.specs.declared.dtype.DType.{DType};
ghost use Rattle.column_base.specs.declared.dtype.DType.TheVariants as column;
ghost use Rattle.column_base.specs.declared.dtype.DecimalDType.{DecimalDType};
ghost use Rattle.column_base.specs.declared.dtype.Nullability.{Nullability};
ghost use Rattle.column_base.specs.declared.dtype.PType.TheVariants.{U8, U16, U32, U64, I8, I16, I32, I64};
ghost use Rattle.column_core.specs.ScalarView.{sees, IsViewOf};
ghost use Rattle.column_core.specs.Value.{FlatValue, Number, DecimalNumber};
ghost use Rattle.column_ops.specs.Items.{item_row};
ghost use Rattle.column_ops.specs.Order.{flat_cmp};

use column_core::ScalarView;
use std::alloc::Allocator;

/// Represents a flat value by an item that is ordered as the value is.
pub(crate) trait FlatItem: Copy + Ord + Drop {
    // The value of an item.
    ghost value: { Self → FlatValue };

    // The type of a column of such items; only decimals have a precision and a scale.
    ghost dtype: { DecimalDType → Nullability → DType };

    /// Returns the item as a row.
    fn view<'a, A: Allocator>(self) -> ScalarView<'a, A>
        ensures row { sees result ≡ item_row value self }
        ensures of_type { (decimal : DecimalDType) (nullability : Nullability) →
            IsViewOf (dtype decimal nullability) result };

    ghost ordered: { (a b : Self) → Self.cmp a b ≡ flat_cmp (value a) (value b) };
}

impl FlatItem for u8 {
    ghost value = { λ n. Number (pos n) };

    ghost dtype = { λ _ nullability. column.Primitive U8 nullability };

    ghost ordered = { unsigned_numbered.ordered };

    fn view<'a, A: Allocator>(self) -> ScalarView<'a, A> {
        ScalarView::Unsigned(u64::from(self))
    }
}

impl FlatItem for u16 {
    ghost value = { λ n. Number (pos n) };

    ghost dtype = { λ _ nullability. column.Primitive U16 nullability };

    ghost ordered = { unsigned_numbered.ordered };

    fn view<'a, A: Allocator>(self) -> ScalarView<'a, A> {
        ScalarView::Unsigned(u64::from(self))
    }
}

impl FlatItem for u32 {
    ghost value = { λ n. Number (pos n) };

    ghost dtype = { λ _ nullability. column.Primitive U32 nullability };

    ghost ordered = { unsigned_numbered.ordered };

    fn view<'a, A: Allocator>(self) -> ScalarView<'a, A> {
        ScalarView::Unsigned(u64::from(self))
    }
}

impl FlatItem for u64 {
    ghost value = { λ n. Number (pos n) };

    ghost dtype = { λ _ nullability. column.Primitive U64 nullability };

    ghost ordered = { unsigned_numbered.ordered };

    fn view<'a, A: Allocator>(self) -> ScalarView<'a, A> {
        ScalarView::Unsigned(self)
    }
}

impl FlatItem for i8 {
    ghost value = { λ n. Number n };

    ghost dtype = { λ _ nullability. column.Primitive I8 nullability };

    ghost ordered = { λ a b. refl };

    fn view<'a, A: Allocator>(self) -> ScalarView<'a, A> {
        ScalarView::Signed(i64::from(self))
    }
}

impl FlatItem for i16 {
    ghost value = { λ n. Number n };

    ghost dtype = { λ _ nullability. column.Primitive I16 nullability };

    ghost ordered = { λ a b. refl };

    fn view<'a, A: Allocator>(self) -> ScalarView<'a, A> {
        ScalarView::Signed(i64::from(self))
    }
}

impl FlatItem for i32 {
    ghost value = { λ n. Number n };

    ghost dtype = { λ _ nullability. column.Primitive I32 nullability };

    ghost ordered = { λ a b. refl };

    fn view<'a, A: Allocator>(self) -> ScalarView<'a, A> {
        ScalarView::Signed(i64::from(self))
    }
}

impl FlatItem for i64 {
    ghost value = { λ n. Number n };

    ghost dtype = { λ _ nullability. column.Primitive I64 nullability };

    ghost ordered = { λ a b. refl };

    fn view<'a, A: Allocator>(self) -> ScalarView<'a, A> {
        ScalarView::Signed(self)
    }
}

impl FlatItem for i128 {
    ghost value = { λ n. DecimalNumber n };

    ghost dtype = { λ decimal nullability. column.Decimal decimal nullability };

    ghost ordered = { λ a b. refl };

    fn view<'a, A: Allocator>(self) -> ScalarView<'a, A> {
        ScalarView::Decimal(self)
    }
}
