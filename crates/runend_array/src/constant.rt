//! Columns that show one value in each row.
ghost use Rattle.std.specs.Prelude.{◌≡◌, ◌↔◌, None, IsTrue, IfOk, IsOkUnless, option_map};
ghost use Rattle.column_base.specs.Types.{nullability_of};
ghost use Rattle.column_core.specs.Value.{MayBeNull, Single};
ghost use Rattle.column_core.specs.ScalarView.{sees, IsViewOf};
ghost use Rattle.runend_array.specs.Column.{repeated};

use column_core::{DType, Scalar, ScalarView, VortexError, VortexResult};
use std::alloc::Allocator;
use std::marker::Model;

/// Shows one scalar in each of `len` rows.
#[derive(Drop)]
pub struct ConstantArray<A: Allocator> {
    scalar: Scalar<A>,
    len: usize,
}

impl<A: Allocator> Model for ConstantArray<A> {
    ghost use Rattle.runend_array.specs.Column.{Constant};

    ghost Value = { Constant };

    ghost use Rattle.runend_array.specs.ColumnCode.{constant_code};

    ghost coded = { constant_code };

    ghost view = { λ a. record { dtype = a.scalar.dtype; value = a.scalar.value; count = a.len } };
}

impl<A: Allocator> ConstantArray<A> {
    /// Returns the scalar in each of `len` rows. Takes no memory.
    pub fn new(scalar: Scalar<A>, len: usize) -> Self
        ensures { result ≡ record { dtype = scalar.dtype; value = scalar.value; count = len } }
    {
        ConstantArray { scalar, len }
    }

    /// Returns what each row shows.
    pub fn scalar(&self) -> &Scalar<A>
        ensures { result.now ≡ record { dtype = self.now.dtype; value = self.now.value } }
    {
        &self.scalar
    }

    /// Returns what each row shows, borrowed.
    pub(crate) fn scalar_view(&self) -> ScalarView<'_, A>
        ensures value { sees result ≡ option_map Single self.now.value }
        ensures of_type { IsViewOf self.now.dtype result }
    {
        self.scalar.view()
    }

    /// Returns how many rows there are.
    pub fn len(&self) -> usize
        ensures { result ≡ self.now.count }
    {
        self.len
    }

    /// Returns whether the column has no rows.
    pub fn is_empty(&self) -> bool
        ensures { IsTrue result ↔ (self.now.count ≡ 0) }
    {
        self.len == 0
    }

    /// Returns the type of the rows.
    pub fn dtype(&self) -> DType
        ensures { result ≡ self.now.dtype }
    {
        self.scalar.dtype()
    }
}

impl<A: Allocator + Copy> ConstantArray<A> {
    /// Returns an equal column. Refused only as `OutOfMemory`.
    pub(crate) fn clone_in(&self, alloc: A) -> VortexResult<ConstantArray<A>>
        ensures only { IsOkUnless result VortexError.OutOfMemory }
        ensures form { IfOk result (λ array. array ≡ self.now) }
    {
        let scalar = self.scalar.try_clone(alloc)?;
        Ok(ConstantArray {
            scalar,
            len: self.len,
        })
    }

    /// Returns a column of `count` rows, each of them the scalar. Refused only as `OutOfMemory`.
    pub fn repeated(&self, alloc: A, count: usize) -> VortexResult<ConstantArray<A>>
        ensures only { IsOkUnless result VortexError.OutOfMemory }
        ensures form { IfOk result (λ array. array ≡ repeated self.now count) }
    {
        let scalar = self.scalar.try_clone(alloc)?;
        Ok(ConstantArray { scalar, len: count })
    }
}

/// Returns null in each of `count` rows. Takes no memory.
pub fn null_constant<A: Allocator>(dtype: DType, count: usize) -> ConstantArray<A>
    requires { MayBeNull (nullability_of dtype) }
    ensures { result ≡ record { dtype = dtype; value = None; count = count } }
{
    ConstantArray::new(Scalar::try_new(dtype, None).unwrap(), count)
}
