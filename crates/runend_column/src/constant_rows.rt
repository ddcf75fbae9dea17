//! The rows of a constant at positions and under a mask. All are the same, so that only those of the answer are
//! written.
ghost use Rattle.std.specs.Prelude.{◌≡◌, IfOk, IsOkUnless, length, replicate};
ghost use Rattle.column_base.specs.Mask.{mask_bits};
ghost use Rattle.column_base.specs.Types.{nullability_of, with_nullability as dtype_with};
ghost use Rattle.column_base.specs.ValidityForm.{HasLength, nullability_in};
ghost use Rattle.column_base.specs.Validity.{form_of, validity_flags};
ghost use Rattle.column_core.specs.Optionals.{optionals};
ghost use Rattle.column_ops.specs.Filter.{filter_rows};
ghost use Rattle.column_ops.specs.Nullable.{either_nullable};
ghost use Rattle.column_ops.specs.Take.{ArePositions, position_numbers, take_rows};
ghost use Rattle.runend_array.specs.Array.{column_of, dtype_of, rows};
ghost use Rattle.runend_array.specs.Canonical.{canonical_column};
ghost use Rattle.runend_array.specs.Column.{OfConstant, column_dtype, column_rows};
ghost use Rattle.runend_column.specs.Computed.{IsComputedAs};

use crate::run_values::{select_flat, take_flat};
use column_core::{Mask, Validity, VortexError, VortexResult};
use runend_array::{ArrayRef, Canonical, ConstantArray};
use std::alloc::Allocator;

/// Returns the rows at these positions, null for null, in a flat form. One row is made flat, and taken for each valid
/// position. Refused only as `OutOfMemory`.
pub(crate) fn take_constant<A: Allocator + Copy>(
    alloc: A,
    values: &ArrayRef<A>,
    constant: &ConstantArray<A>,
    positions: &[u64],
    places: &Validity<A>,
) -> VortexResult<Canonical<A>>
    requires constant { column_of values.now ≡ OfConstant constant.now }
    requires counted { HasLength (form_of places.now) (length positions.now) }
    requires within { ArePositions (optionals positions.now (validity_flags places.now (length positions.now)))
        (length (rows values.now)) }
    ensures only { IsOkUnless result VortexError.OutOfMemory }
    ensures made { IfOk result (λ taken. IsComputedAs
        (take_rows (rows values.now) (position_numbers (optionals positions.now (validity_flags places.now
        (length positions.now)))))
        (dtype_with (dtype_of values.now) (either_nullable (nullability_of (dtype_of values.now))
        (nullability_in (form_of places.now))))
        (canonical_column taken)) }
{
    let one = values.rows_between(alloc, 0, constant.len().min(1))?;
    let taken = take_first(alloc, &one, positions.len(), places);
    drop(one);
    taken
}

// The first row of a flat form at each of these places, null where the place is null.
fn take_first<A: Allocator + Copy>(
    alloc: A,
    one: &Canonical<A>,
    count: usize,
    places: &Validity<A>,
) -> VortexResult<Canonical<A>>
    requires counted { HasLength (form_of places.now) count }
    requires within { ArePositions (optionals (replicate count 0) (validity_flags places.now count))
        (length (column_rows (canonical_column one.now))) }
    ensures only { IsOkUnless result VortexError.OutOfMemory }
    ensures made { IfOk result (λ taken. IsComputedAs
        (take_rows (column_rows (canonical_column one.now)) (position_numbers (optionals (replicate count 0)
        (validity_flags places.now count))))
        (dtype_with (column_dtype (canonical_column one.now)) (either_nullable
        (nullability_of (column_dtype (canonical_column one.now))) (nullability_in (form_of places.now))))
        (canonical_column taken)) }
{
    let zeros = first_positions(alloc, count)?;
    let taken = take_flat(alloc, one, zeros.as_slice(), places);
    drop(zeros);
    taken
}

/// Returns the rows at which the mask is true, in a flat form. Makes as many rows flat as the mask has true bits.
/// Refused only as `OutOfMemory`.
pub(crate) fn select_constant<A: Allocator + Copy>(
    alloc: A,
    values: &ArrayRef<A>,
    constant: &ConstantArray<A>,
    mask: &Mask<A>,
) -> VortexResult<Canonical<A>>
    requires constant { column_of values.now ≡ OfConstant constant.now }
    requires masked { length (mask_bits mask.now) ≡ length (rows values.now) }
    ensures only { IsOkUnless result VortexError.OutOfMemory }
    ensures made { IfOk result (λ kept. IsComputedAs (filter_rows (mask_bits mask.now) (rows values.now))
        (dtype_of values.now) (canonical_column kept)) }
{
    let count = mask.true_count();
    let flat = values.rows_between(alloc, 0, count)?;
    let kept = select_flat(alloc, &flat, &Mask::AllTrue(count));
    drop(flat);
    kept
}

// The position of the first row, `count` times.
fn first_positions<A: Allocator>(alloc: A, count: usize) -> VortexResult<Vec<u64, A>>
    ensures only { IsOkUnless result VortexError.OutOfMemory }
    ensures zeros { IfOk result (λ positions. positions.items ≡ replicate count 0) }
{
    let mut positions = Vec::with_capacity(alloc, count)?;
    for _ in 0..count {
        positions.push_reserved(0);
    }
    Ok(positions)
}
