//! A function called on each row of integers, and its answers as columns.
ghost use Rattle.std.specs.Prelude.{◌≡◌, ◌<◌, Some, false, IfOk, IsOkUnless, All, is_some, length, map, option_map, slice_get, unwrap_or};
ghost use Rattle.std.specs.List.{AllZip};
ghost use Rattle.column_base.specs.declared.dtype.DType.TheVariants as column;
ghost use Rattle.column_base.specs.declared.dtype.Nullability.TheVariants.{Nullable};
ghost use Rattle.column_base.specs.ValidityForm.{HasLength, flags};
ghost use Rattle.column_base.specs.Validity.{form_of, validity_flags};
ghost use Rattle.column_core.specs.BoolForm.{bool_dtype};
ghost use Rattle.column_core.specs.Computed.{IsComputed, IsComputedLeaf};
ghost use Rattle.column_core.specs.Leaf.{OfNumbers, OfTruths, single_rows};
ghost use Rattle.column_core.specs.Optionals.{optionals};
ghost use Rattle.column_core.specs.PrimitiveForm.{primitive_dtype};
ghost use Rattle.runend_map.specs.MapResult.{number_row, truth_row};

use column_core::{
    BitBufferMut, BoolArray, NativePType, PrimitiveArray, Validity, VortexError, VortexResult,
};
use column_ops::item_at;
use std::alloc::Allocator;

/// Returns what the function answers to each row, in order. The function is called once for each row. Refused only as
/// `OutOfMemory`.
pub(crate) fn answers<S: Copy + Drop, R: Drop, F: Fn(Option<S>) -> R, A: Allocator + Copy>(
    alloc: A,
    items: &[S],
    validity: &Validity<A>,
    function: &F,
) -> VortexResult<Vec<R, A>>
    requires fits { HasLength (form_of validity.now) (length items.now) }
    requires callable { All (λ row. F.pre function.now row) (optionals items.now (validity_flags validity.now
        (length items.now))) }
    ensures only { IsOkUnless result VortexError.OutOfMemory }
    ensures each { IfOk result (λ answers. AllZip (λ row answer. F.post function.now row answer) (optionals items.now
        (validity_flags validity.now (length items.now))) answers.items) }
{
    let mut answers = Vec::with_capacity(alloc, items.len())?;
    for row in 0..items.len() {
        let answer = function(item_at(items, validity, row));
        answers.push(answer)?;
    }
    Ok(answers)
}

// Each row's item, and the blank one for null.
fn items_of<T: Copy + Drop, A: Allocator + Copy>(
    alloc: A,
    rows: &[Option<T>],
    blank: T,
) -> VortexResult<Vec<T, A>>
    ensures only { IsOkUnless result VortexError.OutOfMemory }
    ensures items { IfOk result (λ items. items.items ≡ map (λ row. unwrap_or row blank) rows.now) }
{
    let mut items = Vec::with_capacity(alloc, rows.len())?;
    for row in 0..rows.len() {
        items.push(rows[row].unwrap_or(blank))?;
    }
    Ok(items)
}

// Each row's boolean, and false for null.
fn bits_of<A: Allocator + Copy>(alloc: A, rows: &[Option<bool>]) -> VortexResult<BitBufferMut<A>>
    ensures only { IsOkUnless result VortexError.OutOfMemory }
    ensures bits { IfOk result (λ bits. bits ≡ map (λ row. unwrap_or row false) rows.now) }
{
    let mut bits = BitBufferMut::with_capacity(alloc, rows.len())?;
    for row in 0..rows.len() {
        bits.append(rows[row].unwrap_or(false))?;
    }
    Ok(bits)
}

// Whether each row is not null.
fn flags_of<T: Copy + Drop, A: Allocator + Copy>(
    alloc: A,
    rows: &[Option<T>],
) -> VortexResult<BitBufferMut<A>>
    ensures only { IsOkUnless result VortexError.OutOfMemory }
    ensures flags { IfOk result (λ flags. flags ≡ map is_some rows.now) }
{
    let mut flags = BitBufferMut::with_capacity(alloc, rows.len())?;
    for row in 0..rows.len() {
        flags.append(rows[row].is_some())?;
    }
    Ok(flags)
}

/// Returns the rows as a column of a type with null, with 0 under null. Refused only as `OutOfMemory`.
pub(crate) fn column_of_numbers<T: NativePType, A: Allocator + Copy>(
    alloc: A,
    rows: &[Option<T>],
) -> VortexResult<PrimitiveArray<A>>
    ensures only { IsOkUnless result VortexError.OutOfMemory }
    ensures rows { IfOk result (λ array. single_rows (OfNumbers array) ≡ map (number_row T.number) rows.now) }
    ensures dtype { IfOk result (λ array. primitive_dtype array ≡ column.Primitive T.PTYPE Nullable) }
    ensures computed { IfOk result IsComputed }
{
    let items = items_of(alloc, rows, T::default())?;
    let flags = flags_of(alloc, rows)?;
    let validity = Validity::from_bits(flags.freeze());
    Ok(PrimitiveArray::new_unchecked(T::wrap(items), validity))
}

/// Returns the rows as a column of booleans with null, with false under null. Refused only as `OutOfMemory`.
pub(crate) fn column_of_truths<A: Allocator + Copy>(
    alloc: A,
    rows: &[Option<bool>],
) -> VortexResult<BoolArray<A>>
    ensures only { IsOkUnless result VortexError.OutOfMemory }
    ensures rows { IfOk result (λ array. single_rows (OfTruths array) ≡ map truth_row rows.now) }
    ensures dtype { IfOk result (λ array. bool_dtype array ≡ column.Bool Nullable) }
    ensures computed { IfOk result (λ array. IsComputedLeaf (OfTruths array)) }
{
    let bits = bits_of(alloc, rows)?;
    let flags = flags_of(alloc, rows)?;
    let validity = Validity::from_bits(flags.freeze());
    Ok(BoolArray::new_unchecked(bits.freeze(), validity))
}
