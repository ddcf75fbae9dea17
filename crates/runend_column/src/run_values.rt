//! The values of runs in a flat form: those at positions, and those that a mask selects.
ghost use Rattle.std.specs.Prelude.{◌≡◌, IfOk, IsOkUnless, length};
ghost use Rattle.column_base.specs.Mask.{mask_bits};
ghost use Rattle.column_base.specs.Types.{nullability_of, with_nullability as dtype_with};
ghost use Rattle.column_base.specs.ValidityForm.{HasLength, nullability_in};
ghost use Rattle.column_base.specs.Validity.{form_of, validity_flags};
ghost use Rattle.column_core.specs.Leaf.{leaf_dtype, single_rows};
ghost use Rattle.column_core.specs.Optionals.{optionals};
ghost use Rattle.column_ops.specs.Filter.{filter_rows};
ghost use Rattle.column_ops.specs.Nullable.{either_nullable};
ghost use Rattle.column_ops.specs.Take.{ArePositions, position_numbers, take_rows};
ghost use Rattle.runend_array.specs.Array.{dtype_of, rows};
ghost use Rattle.runend_array.specs.Canonical.{canonical_column};
ghost use Rattle.runend_array.specs.Column.{OfLeaf, column_dtype, column_rows};
ghost use Rattle.runend_column.specs.Computed.{IsComputedAs};

use crate::constant_rows::{select_constant, take_constant};
use crate::list_values::{select_lists, take_lists};
use column_core::{FlatColumn, Mask, Validity, VortexError, VortexResult};
use column_ops::ColumnOps;
use runend_array::{ArrayRef, Canonical};
use std::alloc::Allocator;

/// Returns the rows of a flat column at which the mask is true. Refused only as `OutOfMemory`.
pub fn selected_by<C: ColumnOps<A>, A: Allocator + Copy>(
    alloc: A,
    column: &C,
    mask: &Mask<A>,
) -> VortexResult<C>
    requires masked { length (mask_bits mask.now) ≡ length (single_rows (C.leaf column.now)) }
    ensures only { IsOkUnless result VortexError.OutOfMemory }
    ensures made { IfOk result (λ kept. IsComputedAs (filter_rows (mask_bits mask.now)
        (single_rows (C.leaf column.now))) (leaf_dtype (C.leaf column.now)) (OfLeaf (C.leaf kept))) }
{
    column.filter(alloc, mask)
}

/// Returns the values at these positions, null for null, in a flat form. The type has null where the values or the
/// positions have. Refused only as `OutOfMemory`.
pub fn take_values<A: Allocator + Copy>(
    alloc: A,
    values: &ArrayRef<A>,
    positions: &[u64],
    places: &Validity<A>,
) -> VortexResult<Canonical<A>>
    requires counted { HasLength (form_of places.now) (length positions.now) }
    requires within { ArePositions (optionals positions.now (validity_flags places.now (length positions.now)))
        (length (rows values.now)) }
    ensures only { IsOkUnless result VortexError.OutOfMemory }
    ensures made { IfOk result (λ taken. IsComputedAs
        (take_rows (rows values.now) (position_numbers (optionals positions.now (validity_flags places.now
        (length positions.now)))))
        (dtype_with (dtype_of values.now) (either_nullable (nullability_of (dtype_of values.now))
        (nullability_in (form_of places.now))))
        (canonical_column taken)) }
{
    match values {
        ArrayRef::Primitive(array) => {
            let taken = taken_at(alloc, array, positions, places)?;
            Ok(Canonical::Flat(FlatColumn::Primitive(taken)))
        }
        ArrayRef::Bool(array) => {
            let taken = taken_at(alloc, array, positions, places)?;
            Ok(Canonical::Flat(FlatColumn::Bool(taken)))
        }
        ArrayRef::Decimal(array) => {
            let taken = taken_at(alloc, array, positions, places)?;
            Ok(Canonical::Flat(FlatColumn::Decimal(taken)))
        }
        ArrayRef::VarBinView(array) => {
            let taken = taken_at(alloc, array, positions, places)?;
            Ok(Canonical::Flat(FlatColumn::VarBinView(taken)))
        }
        ArrayRef::ListView(lists) => {
            let taken = take_lists(alloc, lists, positions, places)?;
            Ok(Canonical::List(taken))
        }
        ArrayRef::Constant(constant) => take_constant(alloc, values, constant, positions, places),
        _ => take_flattened(alloc, values, positions, places),
    }
}

/// Returns the values at which the mask is true, in order and in a flat form. Refused only as `OutOfMemory`.
pub fn select_values<A: Allocator + Copy>(
    alloc: A,
    values: &ArrayRef<A>,
    mask: &Mask<A>,
) -> VortexResult<Canonical<A>>
    requires masked { length (mask_bits mask.now) ≡ length (rows values.now) }
    ensures only { IsOkUnless result VortexError.OutOfMemory }
    ensures made { IfOk result (λ kept. IsComputedAs (filter_rows (mask_bits mask.now) (rows values.now))
        (dtype_of values.now) (canonical_column kept)) }
{
    match values {
        ArrayRef::Primitive(array) => {
            let kept = selected_by(alloc, array, mask)?;
            Ok(Canonical::Flat(FlatColumn::Primitive(kept)))
        }
        ArrayRef::Bool(array) => {
            let kept = selected_by(alloc, array, mask)?;
            Ok(Canonical::Flat(FlatColumn::Bool(kept)))
        }
        ArrayRef::Decimal(array) => {
            let kept = selected_by(alloc, array, mask)?;
            Ok(Canonical::Flat(FlatColumn::Decimal(kept)))
        }
        ArrayRef::VarBinView(array) => {
            let kept = selected_by(alloc, array, mask)?;
            Ok(Canonical::Flat(FlatColumn::VarBinView(kept)))
        }
        ArrayRef::ListView(lists) => {
            let kept = select_lists(alloc, lists, mask)?;
            Ok(Canonical::List(kept))
        }
        ArrayRef::Constant(constant) => select_constant(alloc, values, constant, mask),
        _ => select_flattened(alloc, values, mask),
    }
}

// The rows of a flat column at these positions, null for null.
fn taken_at<C: ColumnOps<A>, A: Allocator + Copy>(
    alloc: A,
    column: &C,
    positions: &[u64],
    places: &Validity<A>,
) -> VortexResult<C>
    requires counted { HasLength (form_of places.now) (length positions.now) }
    requires within { ArePositions (optionals positions.now (validity_flags places.now (length positions.now)))
        (length (single_rows (C.leaf column.now))) }
    ensures only { IsOkUnless result VortexError.OutOfMemory }
    ensures made { IfOk result (λ taken. IsComputedAs
        (take_rows (single_rows (C.leaf column.now)) (position_numbers (optionals positions.now
        (validity_flags places.now (length positions.now)))))
        (dtype_with (leaf_dtype (C.leaf column.now)) (either_nullable (nullability_of (leaf_dtype (C.leaf column.now)))
        (nullability_in (form_of places.now))))
        (OfLeaf (C.leaf taken))) }
{
    column.take_at(alloc, positions, places)
}

// All rows, in a flat form.
fn canonical_of<A: Allocator + Copy>(alloc: A, values: &ArrayRef<A>) -> VortexResult<Canonical<A>>
    ensures only { IsOkUnless result VortexError.OutOfMemory }
    ensures rows { IfOk result (λ flat. column_rows (canonical_column flat) ≡ rows values.now) }
    ensures dtype { IfOk result (λ flat. column_dtype (canonical_column flat) ≡ dtype_of values.now) }
{
    values.rows_between(alloc, 0, values.len())
}

/// Returns the rows of a flat form at these positions, null for null. Refused only as `OutOfMemory`.
pub(crate) fn take_flat<A: Allocator + Copy>(
    alloc: A,
    values: &Canonical<A>,
    positions: &[u64],
    places: &Validity<A>,
) -> VortexResult<Canonical<A>>
    requires counted { HasLength (form_of places.now) (length positions.now) }
    requires within { ArePositions (optionals positions.now (validity_flags places.now (length positions.now)))
        (length (column_rows (canonical_column values.now))) }
    ensures only { IsOkUnless result VortexError.OutOfMemory }
    ensures made { IfOk result (λ taken. IsComputedAs
        (take_rows (column_rows (canonical_column values.now)) (position_numbers (optionals positions.now
        (validity_flags places.now (length positions.now)))))
        (dtype_with (column_dtype (canonical_column values.now)) (either_nullable
        (nullability_of (column_dtype (canonical_column values.now))) (nullability_in (form_of places.now))))
        (canonical_column taken)) }
{
    match values {
        Canonical::Flat(flat) => {
            let taken = taken_at(alloc, flat, positions, places)?;
            Ok(Canonical::Flat(taken))
        }
        Canonical::List(lists) => {
            let taken = take_lists(alloc, lists, positions, places)?;
            Ok(Canonical::List(taken))
        }
    }
}

/// Returns the rows of a flat form at which the mask is true. Refused only as `OutOfMemory`.
pub(crate) fn select_flat<A: Allocator + Copy>(
    alloc: A,
    values: &Canonical<A>,
    mask: &Mask<A>,
) -> VortexResult<Canonical<A>>
    requires masked { length (mask_bits mask.now) ≡ length (column_rows (canonical_column values.now)) }
    ensures only { IsOkUnless result VortexError.OutOfMemory }
    ensures made { IfOk result (λ kept. IsComputedAs (filter_rows (mask_bits mask.now) (column_rows
        (canonical_column values.now))) (column_dtype (canonical_column values.now)) (canonical_column kept)) }
{
    match values {
        Canonical::Flat(flat) => {
            let kept = selected_by(alloc, flat, mask)?;
            Ok(Canonical::Flat(kept))
        }
        Canonical::List(lists) => {
            let kept = select_lists(alloc, lists, mask)?;
            Ok(Canonical::List(kept))
        }
    }
}

// The values at these positions, once their rows are all made flat.
fn take_flattened<A: Allocator + Copy>(
    alloc: A,
    values: &ArrayRef<A>,
    positions: &[u64],
    places: &Validity<A>,
) -> VortexResult<Canonical<A>>
    requires counted { HasLength (form_of places.now) (length positions.now) }
    requires within { ArePositions (optionals positions.now (validity_flags places.now (length positions.now)))
        (length (rows values.now)) }
    ensures only { IsOkUnless result VortexError.OutOfMemory }
    ensures made { IfOk result (λ taken. IsComputedAs
        (take_rows (rows values.now) (position_numbers (optionals positions.now (validity_flags places.now
        (length positions.now)))))
        (dtype_with (dtype_of values.now) (either_nullable (nullability_of (dtype_of values.now))
        (nullability_in (form_of places.now))))
        (canonical_column taken)) }
{
    let flat = canonical_of(alloc, values)?;
    let taken = take_flat(alloc, &flat, positions, places);
    drop(flat);
    taken
}

// The values at which the mask is true, once their rows are all made flat.
fn select_flattened<A: Allocator + Copy>(
    alloc: A,
    values: &ArrayRef<A>,
    mask: &Mask<A>,
) -> VortexResult<Canonical<A>>
    requires masked { length (mask_bits mask.now) ≡ length (rows values.now) }
    ensures only { IsOkUnless result VortexError.OutOfMemory }
    ensures made { IfOk result (λ kept. IsComputedAs (filter_rows (mask_bits mask.now) (rows values.now))
        (dtype_of values.now) (canonical_column kept)) }
{
    let flat = canonical_of(alloc, values)?;
    let kept = select_flat(alloc, &flat, mask);
    drop(flat);
    kept
}
