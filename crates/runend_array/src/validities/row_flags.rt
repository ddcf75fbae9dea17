//! Which rows of a run column are valid.
ghost use Rattle.std.specs.Prelude.{◌≡◌, IfOk, IsOkUnless};
ghost use Rattle.column_base.specs.Validity.{form_of};
ghost use Rattle.runend_array.specs.Array.{IsRowValidity, column_of, validity_of};
ghost use Rattle.runend_array.specs.Column.{OfConstant, column_of_runs};
ghost use Rattle.runend_array.specs.Lists.{ByRows};
ghost use Rattle.runend_array.specs.RowFlags.{IsValidityForm, IsValidityOf, constant_validity};

use crate::array_ref::ArrayRef;
use crate::constant::ConstantArray;
use crate::copies::Buffers;
use crate::validities::RowValidity;
use column_core::{Nullability, ScalarView, Validity, VortexError, VortexResult};
use std::alloc::Allocator;

/// Returns a validity as a validity that holds it row by row.
pub(crate) fn rows_of_validity<A: Allocator>(validity: Validity<A>) -> RowValidity<A>
    ensures form { validity_of result ≡ ByRows (form_of validity) }
    ensures plain { IsRowValidity result }
{
    match validity {
        Validity::NonNullable => RowValidity::NonNullable,
        Validity::AllValid => RowValidity::AllValid,
        Validity::AllInvalid => RowValidity::AllInvalid,
        Validity::Bits(bits) => RowValidity::Bits(bits),
    }
}

// A copy of a validity, held row by row.
fn copy_told<A: Allocator + Copy>(alloc: A, validity: &Validity<A>) -> VortexResult<RowValidity<A>>
    ensures only { IsOkUnless result VortexError.OutOfMemory }
    ensures form { IfOk result (λ rows. validity_of rows ≡ ByRows (form_of validity.now)) }
    ensures plain { IfOk result (λ rows. IsRowValidity rows) }
{
    let copy = validity.try_clone(alloc)?;
    Ok(rows_of_validity(copy))
}

// Which rows of a constant are valid: all, or none.
fn validity_of_constant<A: Allocator>(constant: &ConstantArray<A>) -> RowValidity<A>
    ensures rows { IsValidityOf (OfConstant constant.now) (validity_of result) }
    ensures form { validity_of result ≡ ByRows (constant_validity constant.now) }
    ensures plain { IsRowValidity result }
{
    match constant.scalar_view() {
        ScalarView::Null => RowValidity::AllInvalid,
        _ => match constant.dtype().nullability() {
            Nullability::NonNullable => RowValidity::NonNullable,
            Nullability::Nullable => RowValidity::AllValid,
        },
    }
}

impl<A: Allocator + Copy> ArrayRef<A> {
    /// Returns which rows are valid. Refused only as `OutOfMemory`.
    #[cycle(run_validity)]
    pub(crate) fn run_validity(&self, alloc: A) -> VortexResult<RowValidity<A>>
        ensures only { IsOkUnless result VortexError.OutOfMemory }
        ensures rows { IfOk result (λ rows. IsValidityOf (column_of self.now) (validity_of rows)) }
        ensures form { IfOk result (λ rows. IsValidityForm (column_of self.now) (validity_of rows)) }
        ensures plain { IfOk result (λ rows. IsRowValidity rows) }
    {
        match self {
            ArrayRef::ListView(lists) => lists.validity().clone_in(alloc, Buffers::Shared),
            ArrayRef::Constant(array) => Ok(validity_of_constant(array)),
            ArrayRef::RunEnd(array) => array.run_validity(alloc),
            _ => copy_told(alloc, self.as_flat().validity()),
        }
    }
}
