//! Indices of rows, integers in a column of any form, as a flat column.
ghost use Rattle.std.specs.Prelude.{◌≡◌, IfOk};
ghost use Rattle.column_core.specs.PrimitiveForm.{optional_numbers, primitive_dtype};
ghost use Rattle.column_core.specs.Refusal.{IsRefusedBy};
ghost use Rattle.column_ops.specs.Codes.{code_numbers};
ghost use Rattle.runend_array.specs.Array.{dtype_of, rows};
ghost use Rattle.c_tables.specs.TableCalls.{numbers_fault};

use crate::boxed::usual_context;
use column_core::{FlatColumn, PrimitiveArray, VortexError, VortexResult, is_number_type};
use runend_array::{ArrayRef, Canonical};
use std::alloc::Global;

/// Returns the numbers of a column of integers, row by row. Refused as `TypeMismatch` where it is one of others, else
/// only for memory.
#[tactic(auto, using(crate::proofs::IndexRows::numbers_shown))]
pub(crate) fn numbers_of(
    alloc: Global,
    array: &ArrayRef<Global>,
) -> VortexResult<PrimitiveArray<Global>>
    ensures refused { IsRefusedBy (numbers_fault (dtype_of array.now)) result }
    ensures numbers { IfOk result (λ flat. optional_numbers flat ≡ code_numbers (rows array.now)) }
    ensures dtype { IfOk result (λ flat. primitive_dtype flat ≡ dtype_of array.now) }
{
    if !is_number_type(array.dtype()) {
        return Err(VortexError::TypeMismatch);
    }
    match array.to_canonical(&mut usual_context(alloc))? {
        Canonical::Flat(FlatColumn::Primitive(numbers)) => Ok(numbers),
        other => {
            drop(other);
            Err(VortexError::TypeMismatch)
        }
    }
}
