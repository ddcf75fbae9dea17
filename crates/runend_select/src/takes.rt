//! Rows of run columns at indices.
ghost use Rattle.std.specs.Prelude.{◌≡◌, ◌↔◌, ◌<◌, None, Some, IfOk, IsErrOf, IsOkUnless, IsTrue, Option, ℕ, ℤ, count_by, length, map, option_map, pos, slice_get, true};
ghost use Rattle.column_base.specs.declared.error.VortexError.{VortexError};
ghost use Rattle.column_base.specs.Types.{nullability_of, with_nullability as dtype_with};
ghost use Rattle.column_base.specs.declared.dtype.Nullability.TheVariants.{Nullable};
ghost use Rattle.column_base.specs.ValidityForm.{HasLength, HasRow, flag_at, nullability_in};
ghost use Rattle.column_base.specs.Validity.{form_of, validity_flags};
ghost use Rattle.column_core.specs.PrimitiveForm.{optional_numbers, primitive_dtype, primitive_with};
ghost use Rattle.column_core.specs.Refusal.{IsRefusedBy};
ghost use Rattle.column_ops.specs.Nullable.{either_nullable, take_dtype};
ghost use Rattle.column_ops.specs.Take.{index_fault, take_fault, take_rows};
ghost use Rattle.runend_array.specs.Array.{column_of, dtype_of, rows};
ghost use Rattle.runend_array.specs.Column.{column_dtype, column_of_runs, column_rows};
ghost use Rattle.runend_select.specs.Indices.{AreInBounds, AreSorted, optional_indices};
ghost use Rattle.runend_select.specs.TakeForm.{TakeLeaves};
ghost use Rattle.runend_select.specs.Told.{IsRefusedExactlyBy};

use crate::taken_runs::taken_rows;
use column_base::match_each_native;
use column_core::{
    DType, NativePType, Nullability, PrimitiveArray, Scalar, Validity, VortexError, VortexResult,
};
use column_ops::checked_index;
use runend_array::{ArrayRef, ConstantArray, ExecutionCtx, RunEndArray, RunEndArrayExt};
use std::alloc::Allocator;

/// Returns the rows at the indices, null for null: a constant null where there are indices and all of them are null,
/// else a flat column. Its type has null where the column's or the indices' has. Refused only as `OutOfMemory`.
pub fn take_indices_unchecked<T: NativePType, A: Allocator + Copy>(
    array: &RunEndArray<A>,
    indices: &[T],
    validity: &Validity<A>,
    ctx: &mut ExecutionCtx<A>,
) -> VortexResult<ArrayRef<A>>
    requires fits { HasLength (form_of validity.now) (length indices.now) }
    requires in_bounds { AreInBounds (optional_indices T.number indices.now (validity_flags validity.now
        (length indices.now))) (length (column_rows (column_of_runs array.now))) }
    ensures only { IsOkUnless result VortexError.OutOfMemory }
    ensures rows { IfOk result (λ taken. rows taken ≡ take_rows (column_rows (column_of_runs array.now))
        (optional_indices T.number indices.now (validity_flags validity.now (length indices.now)))) }
    ensures dtype { IfOk result (λ taken. dtype_of taken ≡ dtype_with (column_dtype array.now.values)
        (either_nullable (nullability_of (column_dtype array.now.values)) (nullability_in (form_of validity.now)))) }
    ensures form { IfOk result (λ taken. TakeLeaves (optional_indices T.number indices.now (validity_flags validity.now
        (length indices.now))) (column_of taken)) }
    ensures session { ctx.new ≡ ctx.old }
{
    take_in_order(array, indices, validity, false, ctx)
}

/// Returns the rows at the indices, null for null: a constant null where there are indices and all of them are null,
/// else a flat column. Its type has null where the column's or the indices' has.
///
/// Refused as `OutOfBounds`, with the index and the number of rows, at the first valid index that is
/// negative or not below that number, however little memory there is; else only as `OutOfMemory`.
pub fn take<A: Allocator + Copy>(
    array: &RunEndArray<A>,
    indices: &PrimitiveArray<A>,
    ctx: &mut ExecutionCtx<A>,
) -> VortexResult<ArrayRef<A>>
    ensures refused { IsRefusedBy (take_fault (optional_numbers indices.now)
        (length (column_rows (column_of_runs array.now)))) result }
    ensures first { (error : VortexError) → take_fault (optional_numbers indices.now)
        (length (column_rows (column_of_runs array.now))) ≡ Some error → IsErrOf result error }
    ensures rows { IfOk result (λ taken. rows taken ≡
        take_rows (column_rows (column_of_runs array.now)) (optional_numbers indices.now)) }
    ensures dtype { IfOk result (λ taken. dtype_of taken ≡
        take_dtype (column_dtype array.now.values) (primitive_dtype indices.now)) }
    ensures form { IfOk result (λ taken. TakeLeaves (optional_numbers indices.now) (column_of taken)) }
    ensures session { ctx.new ≡ ctx.old }
{
    let validity = indices.validity();
    match_each_native!(indices.values(), items => take_native(array, items.as_slice(), validity, ctx))
}

// Is the index at a place valid? If all are, no bit is read.
#[inline(always)]
fn is_valid<const ALL: bool, A: Allocator>(validity: &Validity<A>, place: usize) -> bool
    requires there { HasRow (form_of validity.now) place }
    requires all { ALL ≡ true → (row : ℕ) → flag_at (form_of validity.now) row ≡ true }
    ensures { result ≡ flag_at (form_of validity.now) place }
{
    if ALL {
        return true;
    }
    validity.is_valid(place)
}

// The row of the index at a place, or `None` where the index is null. Refused as `OutOfBounds`, with the index and the
// number of rows, where it does not name one of `count` rows. `ALL` says that no index is null.
#[inline(always)]
fn checked_row<const ALL: bool, T: NativePType, A: Allocator>(
    indices: &[T],
    validity: &Validity<A>,
    place: usize,
    count: usize,
) -> VortexResult<Option<u64>>
    requires there { place < length indices.now }
    requires fits { HasLength (form_of validity.now) (length indices.now) }
    requires all { ALL ≡ true → (row : ℕ) → flag_at (form_of validity.now) row ≡ true }
    ensures { (index : Option ℤ) × (slice_get (optional_indices T.number indices.now (validity_flags validity.now
        (length indices.now))) place ≡ Some index)
        × IsRefusedExactlyBy (index_fault count index) result × IfOk result (λ row. index ≡ option_map pos row) }
{
    if !is_valid::<ALL, A>(validity, place) {
        return Ok(None);
    }
    match checked_index(indices[place].widen(), count) {
        Ok(row) => Ok(Some(row)),
        Err(error) => Err(error),
    }
}

// Does each index that is not null name one of `count` rows? True says that no valid index is below a valid one before
// it. Refused as `OutOfBounds`, with the index and the number of rows, at the first that does not. `ALL` says that no
// index is null.
fn check_each<const ALL: bool, T: NativePType, A: Allocator>(
    indices: &[T],
    validity: &Validity<A>,
    count: usize,
) -> VortexResult<bool>
    requires fits { HasLength (form_of validity.now) (length indices.now) }
    requires all { ALL ≡ true → (row : ℕ) → flag_at (form_of validity.now) row ≡ true }
    ensures told { IsRefusedExactlyBy (take_fault (optional_indices T.number indices.now (validity_flags validity.now
        (length indices.now))) count) result }
    ensures sorted { IfOk result (λ sorted. IsTrue sorted →
        AreSorted (optional_indices T.number indices.now (validity_flags validity.now (length indices.now)))) }
{
    let mut last = 0;
    let mut sorted = true;
    for place in 0..indices.len() {
        if let Some(row) = checked_row::<ALL, T, A>(indices, validity, place, count)? {
            sorted &= last <= row;
            last = row;
        }
    }
    Ok(sorted)
}

// Does each index that is not null name one of `count` rows? Some may be null. True says that no valid index is below a
// valid one before it. Refused as `OutOfBounds`, with the index and the number of rows, at the first that does not.
fn check_indices<T: NativePType, A: Allocator>(
    indices: &[T],
    validity: &Validity<A>,
    count: usize,
) -> VortexResult<bool>
    requires fits { HasLength (form_of validity.now) (length indices.now) }
    ensures told { IsRefusedExactlyBy (take_fault (optional_indices T.number indices.now (validity_flags validity.now
        (length indices.now))) count) result }
    ensures sorted { IfOk result (λ sorted. IsTrue sorted →
        AreSorted (optional_indices T.number indices.now (validity_flags validity.now (length indices.now)))) }
{
    match validity {
        Validity::NonNullable => check_each::<true, T, A>(indices, validity, count),
        Validity::AllValid => check_each::<true, T, A>(indices, validity, count),
        Validity::AllInvalid => check_each::<false, T, A>(indices, validity, count),
        Validity::Bits(_) => check_each::<false, T, A>(indices, validity, count),
    }
}

// Returns what `take_indices_unchecked` returns. `sorted` may say that no valid index is below a valid one before it.
fn take_in_order<T: NativePType, A: Allocator + Copy>(
    array: &RunEndArray<A>,
    indices: &[T],
    validity: &Validity<A>,
    sorted: bool,
    ctx: &mut ExecutionCtx<A>,
) -> VortexResult<ArrayRef<A>>
    requires fits { HasLength (form_of validity.now) (length indices.now) }
    requires in_bounds { AreInBounds (optional_indices T.number indices.now (validity_flags validity.now
        (length indices.now))) (length (column_rows (column_of_runs array.now))) }
    requires sorted { IsTrue sorted →
        AreSorted (optional_indices T.number indices.now (validity_flags validity.now (length indices.now))) }
    ensures only { IsOkUnless result VortexError.OutOfMemory }
    ensures rows { IfOk result (λ taken. rows taken ≡ take_rows (column_rows (column_of_runs array.now))
        (optional_indices T.number indices.now (validity_flags validity.now (length indices.now)))) }
    ensures dtype { IfOk result (λ taken. dtype_of taken ≡ dtype_with (column_dtype array.now.values)
        (either_nullable (nullability_of (column_dtype array.now.values)) (nullability_in (form_of validity.now)))) }
    ensures form { IfOk result (λ taken. TakeLeaves (optional_indices T.number indices.now (validity_flags validity.now
        (length indices.now))) (column_of taken)) }
    ensures session { ctx.new ≡ ctx.old }
{
    if are_all_null(validity, indices.len()) {
        let nulls = null_rows(array.dtype(), indices.len());
        return Ok(ArrayRef::Constant(nulls));
    }
    let alloc = *ctx.allocator();
    let taken = taken_rows(array, indices, validity, sorted, ctx)?;
    taken.into_array(alloc)
}

// Is there a row, and are all null?
fn are_all_null<A: Allocator>(validity: &Validity<A>, count: usize) -> bool
    requires { HasLength (form_of validity.now) count }
    ensures { IsTrue result ↔ ((0 < count) × (count_by (λ bit. bit) (validity_flags validity.now count) ≡ 0)) }
{
    match validity {
        Validity::NonNullable => false,
        Validity::AllValid => false,
        Validity::AllInvalid => count > 0,
        Validity::Bits(bits) => count > 0 && bits.true_count() == 0,
    }
}

// Null in each of `count` rows, of this type with null.
fn null_rows<A: Allocator>(dtype: DType, count: usize) -> ConstantArray<A>
    ensures { result ≡ record { dtype = dtype_with dtype Nullable; value = None; count = count } }
{
    let nullable = dtype.with_nullability(Nullability::Nullable);
    ConstantArray::new(Scalar::try_new(nullable, None).unwrap(), count)
}

// The rows at indices of one native type.
fn take_native<T: NativePType, A: Allocator + Copy>(
    array: &RunEndArray<A>,
    indices: &[T],
    validity: &Validity<A>,
    ctx: &mut ExecutionCtx<A>,
) -> VortexResult<ArrayRef<A>>
    requires fits { HasLength (form_of validity.now) (length indices.now) }
    ensures refused { IsRefusedBy (take_fault (optional_numbers (primitive_with T.PTYPE (map T.number indices.now)
        (form_of validity.now))) (length (column_rows (column_of_runs array.now)))) result }
    ensures first { (error : VortexError) → take_fault (optional_numbers (primitive_with T.PTYPE
        (map T.number indices.now) (form_of validity.now))) (length (column_rows (column_of_runs array.now))) ≡
        Some error → IsErrOf result error }
    ensures rows { IfOk result (λ taken. rows taken ≡ take_rows (column_rows (column_of_runs array.now))
        (optional_numbers (primitive_with T.PTYPE (map T.number indices.now) (form_of validity.now)))) }
    ensures dtype { IfOk result (λ taken. dtype_of taken ≡ take_dtype (column_dtype array.now.values)
        (primitive_dtype (primitive_with T.PTYPE (map T.number indices.now) (form_of validity.now)))) }
    ensures form { IfOk result (λ taken. TakeLeaves (optional_numbers (primitive_with T.PTYPE (map T.number indices.now)
        (form_of validity.now))) (column_of taken)) }
    ensures session { ctx.new ≡ ctx.old }
{
    let sorted = check_indices(indices, validity, array.len())?;
    take_in_order(array, indices, validity, sorted, ctx)
}
