//! Columns that show one value in each row.
ghost use Rattle.std.specs.Prelude.{◌≡◌, [], IfErr, IfOk, OnOk};
ghost use Rattle.typed_columns.specs.Typed.{format_of};
ghost use Rattle.c_columns.specs.Ending.{IsShortOr};
ghost use Rattle.c_columns.specs.Makers.{ConstantFault, IsConstantOf};

use crate::flat::{Boxed, boxed};
use crate::row_value::{RowValue, scalar_of_type};
use column_core::{DType, VortexError, VortexResult};
use runend_array::{ArrayRef, ConstantArray};
use std::alloc::Global;

/// Returns the value in each of `count` rows. Refused as `scalar_of_type` is.
pub fn constant(
    alloc: Global,
    dtype: DType,
    value: &RowValue,
    text: &[u8],
    count: usize,
) -> VortexResult<Boxed>
    ensures column { IfOk result (λ made. IsConstantOf dtype value.now text.now count made.value.array) }
    ensures untyped { IfOk result (λ made. format_of made.value ≡ []) }
    ensures refused { IfErr result (λ error. IsShortOr (ConstantFault dtype value.now text.now) error) }
    ensures served { OnOk result ((error : VortexError) → ¬ (ConstantFault dtype value.now text.now error)) }
{
    let scalar = scalar_of_type(alloc, dtype, value, text)?;
    boxed(alloc, ArrayRef::Constant(ConstantArray::new(scalar, count)))
}
