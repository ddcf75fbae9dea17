//! What can be done with the rows of a flat column.
ghost use Rattle.std.specs.Prelude.{◌≡◌, true, IfOk, IfSome, IsErrOf, IsOkUnless, Some, length};
ghost use Rattle.column_base.specs.declared.error.VortexError.{VortexError};
ghost use Rattle.column_base.specs.Mask.{mask_bits};
ghost use Rattle.column_base.specs.Types.{nullability_of, with_nullability as dtype_with};
ghost use Rattle.column_base.specs.ValidityForm.{HasLength, nullability_in};
ghost use Rattle.column_base.specs.Validity.{form_of, validity_flags};
ghost use Rattle.column_core.specs.FlatColumn.{leaf_of};
ghost use Rattle.column_core.specs.Leaf.{Leaf, leaf_dtype, leaf_rows, plain_leaf, single_rows};
ghost use Rattle.column_core.specs.Optionals.{optionals};
ghost use Rattle.column_core.specs.PrimitiveForm.{optional_numbers, primitive_dtype};
ghost use Rattle.column_core.specs.Refusal.{IsRefusedBy};
ghost use Rattle.column_ops.specs.Computed.{IsMade};
ghost use Rattle.column_core.specs.Scalar.{flat_of, IsOwnedOf};
ghost use Rattle.column_ops.specs.Cast.{can_cast, cast_fault, cast_row_fault};
ghost use Rattle.column_ops.specs.Codes.{code_fault, code_rows};
ghost use Rattle.column_ops.specs.Fault.{first_fault};
ghost use Rattle.column_ops.specs.Fill.{fill_dtype, fill_fault, fill_rows};
ghost use Rattle.column_ops.specs.Filter.{filter_fault, filter_rows};
ghost use Rattle.column_ops.specs.Nullable.{either_nullable, take_dtype};
ghost use Rattle.column_ops.specs.Take.{ArePositions, position_numbers, take_fault, take_rows};

use crate::fill_items::fill_value;
use crate::kinds::is_castable;
use crate::positions::positions_of;
use column_core::{
    DType, FlatColumn, Mask, PrimitiveArray, Scalar, ScalarValue, Validity, VortexError,
    VortexResult,
};
use std::alloc::Allocator;

/// Has the operations on the rows of a flat column. Each returns a column of its own: 0, false or the view of nothing
/// is stored under null, and a validity has bits only where some rows are null and others are not.
pub trait ColumnOps<A: Allocator + Copy>: Sized {
    // The column's form.
    ghost leaf: { Self → Leaf };

    /// Returns how many rows there are.
    fn row_count(&self) -> usize
        ensures { result ≡ length (leaf_rows (leaf self.now)) };

    /// Returns the type of the rows.
    fn column_dtype(&self) -> DType
        ensures { result ≡ leaf_dtype (leaf self.now) };

    /// Returns the rows at these positions, null for null, where the valid positions are below the number of rows. The
    /// type has null where the column's or the positions' has. Refused only as `OutOfMemory`.
    fn take_at(&self, alloc: A, positions: &[u64], validity: &Validity<A>) -> VortexResult<Self>
        requires counted { HasLength (form_of validity.now) (length positions.now) }
        requires within { ArePositions (optionals positions.now (validity_flags validity.now (length positions.now)))
            (length (leaf_rows (leaf self.now))) }
        ensures only { IsOkUnless result VortexError.OutOfMemory }
        ensures made { IfOk result (λ column. IsMade
            (take_rows (leaf_rows (leaf self.now)) (position_numbers (optionals positions.now
            (validity_flags validity.now (length positions.now)))))
            (dtype_with (leaf_dtype (leaf self.now)) (either_nullable (nullability_of (leaf_dtype (leaf self.now)))
            (nullability_in (form_of validity.now))))
            (leaf column)) };

    /// Returns the rows at the indices, null for null. The type has null where the column's or the indices' has.
    /// Refused as `OutOfBounds`, with the index and the number of rows, at the first valid index that is negative or
    /// not below that number; else only as `OutOfMemory`.
    fn take(&self, alloc: A, indices: &PrimitiveArray<A>) -> VortexResult<Self>
        ensures refused { IsRefusedBy (take_fault (optional_numbers indices.now) (length (leaf_rows (leaf self.now))))
            result }
        ensures made { IfOk result (λ column. IsMade
            (take_rows (leaf_rows (leaf self.now)) (optional_numbers indices.now))
            (take_dtype (leaf_dtype (leaf self.now)) (primitive_dtype indices.now))
            (leaf column)) }
    {
        let (positions, places) = positions_of(alloc, indices, self.row_count())?;
        self.take_at(alloc, positions.as_slice(), &places)
    }

    /// Returns the rows of this dictionary at the codes, null for null. The type has null where the dictionary's or the
    /// codes' has. Refused as `TypeMismatch` unless the codes are integers; then as `OutOfBounds`, with the code and
    /// the number of rows, at the first code that is not null and is negative or not below that number; else only as
    /// `OutOfMemory`.
    fn take_codes(&self, alloc: A, codes: &FlatColumn<A>) -> VortexResult<Self>
        ensures refused { IsRefusedBy (code_fault (plain_leaf (leaf_of codes.now)) (length (leaf_rows (leaf self.now))))
            result }
        ensures made { IfOk result (λ column. IsMade
            (code_rows (leaf_rows (leaf self.now)) (single_rows (leaf_of codes.now)))
            (take_dtype (leaf_dtype (leaf self.now)) (leaf_dtype (leaf_of codes.now)))
            (leaf column)) }
    {
        match codes {
            FlatColumn::Primitive(indices) => self.take(alloc, indices),
            _ => Err(VortexError::TypeMismatch),
        }
    }

    /// Returns the rows at which the mask is true, in order. Refused as `MaskLength`, with the mask's length and the
    /// number of rows, where they differ, before any memory is taken; else only as `OutOfMemory`.
    fn filter(&self, alloc: A, mask: &Mask<A>) -> VortexResult<Self>
        ensures refused { IsRefusedBy (filter_fault (length (mask_bits mask.now)) (length (leaf_rows (leaf self.now))))
            result }
        ensures first { (error : VortexError) → filter_fault (length (mask_bits mask.now))
            (length (leaf_rows (leaf self.now))) ≡ Some error → IsErrOf result error }
        ensures made { IfOk result (λ column. IsMade (filter_rows (mask_bits mask.now) (leaf_rows (leaf self.now)))
            (leaf_dtype (leaf self.now)) (leaf column)) };

    /// Returns the rows with the value in place of each null, of the column's kind and without null. Refused only as
    /// `OutOfMemory`.
    fn fill_with(&self, alloc: A, value: &ScalarValue<A>) -> VortexResult<Self>
        requires { IsOwnedOf (leaf_dtype (leaf self.now)) value.now }
        ensures only { IsOkUnless result VortexError.OutOfMemory }
        ensures made { IfOk result (λ column. IsMade (fill_rows (leaf_rows (leaf self.now)) (flat_of value.now))
            (fill_dtype (leaf_dtype (leaf self.now))) (leaf column)) };

    /// Returns the rows with the scalar's value in place of each null, of the column's kind and without null. Refused
    /// as `TypeMismatch` for a scalar of another kind; then as `NullFill` for null; else only as `OutOfMemory`.
    fn fill_null(&self, alloc: A, scalar: &Scalar<A>) -> VortexResult<Self>
        ensures refused { IsRefusedBy (fill_fault (leaf_dtype (leaf self.now)) scalar.now) result }
        ensures made { IfOk result (λ column. IfSome scalar.now.value (λ value.
            IsMade (fill_rows (leaf_rows (leaf self.now)) value) (fill_dtype (leaf_dtype (leaf self.now)))
            (leaf column))) }
    {
        let value = fill_value(self.column_dtype(), scalar)?;
        self.fill_with(alloc, value)
    }

    /// Returns the rows in the type, which rows of this type can be cast to. Refused, at the first row that is not a
    /// value of the type, as `NullNotAllowed` for null and as `CastOutOfRange` for a number; else only as
    /// `OutOfMemory`.
    fn cast_to(&self, alloc: A, dtype: DType) -> VortexResult<Self>
        requires { can_cast (leaf_dtype (leaf self.now)) dtype ≡ true }
        ensures refused { IsRefusedBy (first_fault (cast_row_fault dtype) (single_rows (leaf self.now))) result }
        ensures made { IfOk result (λ column. IsMade (leaf_rows (leaf self.now)) dtype (leaf column)) };

    /// Returns the rows in the type, which may be any. Refused as `Unsupported` unless both types are of integers, or
    /// both of one kind; then, at the first row that is not a value of the type, as `NullNotAllowed` for null and as
    /// `CastOutOfRange` for a number; else only as `OutOfMemory`.
    fn cast(&self, alloc: A, dtype: DType) -> VortexResult<Self>
        ensures refused { IsRefusedBy (cast_fault (plain_leaf (leaf self.now)) dtype) result }
        ensures made { IfOk result (λ column. IsMade (leaf_rows (leaf self.now)) dtype (leaf column)) }
    {
        if !is_castable(self.column_dtype(), dtype) {
            return Err(VortexError::Unsupported);
        }
        self.cast_to(alloc, dtype)
    }
}
