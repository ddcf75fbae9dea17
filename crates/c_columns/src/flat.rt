//! Flat columns of the numbers, booleans and decimals that C passes.
ghost use Rattle.std.specs.Prelude.{◌≡◌, [], length, map, IfOk, IsOkUnless};
ghost use Rattle.std.specs.Option.{option_or};
ghost use Rattle.column_base.specs.Validity.{form_of};
ghost use Rattle.column_core.specs.Refusal.{IsRefusedBy};
ghost use Rattle.typed_columns.specs.Typed.{format_of};
ghost use Rattle.c_columns.specs.Bits.{bits_fault, bits_in, validity_by, validity_fault};
ghost use Rattle.c_columns.specs.Makers.{AreDecimalsOf, AreTruthsOf, IsFlatOf};

use crate::bits::{bits_of, validity_of};
use crate::pairs::{Pair, numbers_of};
use column_core::{
    BoolArray, DecimalArray, DecimalDType, NativePType, PrimitiveArray, VortexError, VortexResult,
};
use runend_array::ArrayRef;
use std::alloc::Global;
use typed_columns::TypedColumn;

/// Holds a column and its format on the heap.
pub type Boxed = Box<TypedColumn<Global>>;

/// Puts a column on the heap, without a format. Refused only for memory.
pub fn boxed(alloc: Global, array: ArrayRef<Global>) -> VortexResult<Boxed>
    ensures only { IsOkUnless result VortexError.OutOfMemory }
    ensures column { IfOk result (λ made. made.value.array ≡ array) }
    ensures untyped { IfOk result (λ made. format_of made.value ≡ []) }
{
    Ok(Box::new(alloc, TypedColumn::untyped(alloc, array))?)
}

/// Puts a column on the heap, with a copy of this one's format. Refused only for memory.
pub fn boxed_like(
    alloc: Global,
    array: ArrayRef<Global>,
    like: &TypedColumn<Global>,
) -> VortexResult<Boxed>
    ensures only { IsOkUnless result VortexError.OutOfMemory }
    ensures column { IfOk result (λ made. made.value.array ≡ array) }
    ensures typed { IfOk result (λ made. format_of made.value ≡ format_of like.now) }
{
    boxed_under(alloc, array, like.format.as_str())
}

/// Puts a column on the heap, with a copy of this format. Refused only for memory.
pub fn boxed_under(alloc: Global, array: ArrayRef<Global>, format: &str) -> VortexResult<Boxed>
    ensures only { IsOkUnless result VortexError.OutOfMemory }
    ensures column { IfOk result (λ made. made.value.array ≡ array) }
    ensures typed { IfOk result (λ made. format_of made.value ≡ format.now) }
{
    let column = TypedColumn::with_format(alloc, array, format)?;
    Ok(Box::new(alloc, column)?)
}

/// Returns the flat column of these numbers. Refused as `validity_of` refuses.
pub fn numbers<T: NativePType>(
    alloc: Global,
    items: &[T],
    nulls: u8,
    bits: &[u8],
    first: usize,
) -> VortexResult<Boxed>
    ensures column { IfOk result
        (λ made. IsFlatOf T.PTYPE (map T.number items.now)
        (validity_by nulls bits.now first (length items.now)) made.value.array) }
    ensures untyped { IfOk result (λ made. format_of made.value ≡ []) }
    ensures refused { IsRefusedBy (validity_fault nulls bits.now first (length items.now)) result }
{
    let validity = validity_of(alloc, nulls, bits, first, items.len())?;
    let values = T::wrap(Vec::from_slice(alloc, items)?);
    let array = PrimitiveArray::new_unchecked(values, validity);
    boxed(alloc, ArrayRef::Primitive(array))
}

/// Returns the flat column of `count` booleans, the first of which is bit `start` of `truths`. Refused as `validity_of`
/// refuses, and then as `bits_of` refuses.
pub fn booleans(
    alloc: Global,
    truths: &[u8],
    start: usize,
    count: usize,
    nulls: u8,
    bits: &[u8],
    first: usize,
) -> VortexResult<Boxed>
    ensures column { IfOk result
        (λ made. AreTruthsOf (bits_in truths.now start count) (validity_by nulls bits.now first count)
        made.value.array) }
    ensures untyped { IfOk result (λ made. format_of made.value ≡ []) }
    ensures refused { IsRefusedBy
        (option_or (validity_fault nulls bits.now first count) (bits_fault truths.now start count)) result }
{
    let validity = validity_of(alloc, nulls, bits, first, count)?;
    let values = bits_of(alloc, truths, start, count)?;
    let array = BoolArray::new_unchecked(values, validity);
    boxed(alloc, ArrayRef::Bool(array))
}

/// Returns the flat column of these decimals. Refused as `validity_of` refuses.
pub fn decimals(
    alloc: Global,
    pairs: &[Pair],
    decimal_dtype: DecimalDType,
    nulls: u8,
    bits: &[u8],
    first: usize,
) -> VortexResult<Boxed>
    ensures column { IfOk result
        (λ made. AreDecimalsOf decimal_dtype pairs.now
        (validity_by nulls bits.now first (length pairs.now)) made.value.array) }
    ensures untyped { IfOk result (λ made. format_of made.value ≡ []) }
    ensures refused { IsRefusedBy (validity_fault nulls bits.now first (length pairs.now)) result }
{
    let validity = validity_of(alloc, nulls, bits, first, pairs.len())?;
    let numbers = numbers_of(alloc, pairs)?;
    let array = DecimalArray::new_unchecked(numbers, decimal_dtype, validity);
    boxed(alloc, ArrayRef::Decimal(array))
}
