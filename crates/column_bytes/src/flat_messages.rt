//! Messages inside those of lists: flat columns of a known type, and runs over these.
ghost use Rattle.std.specs.Prelude.{◌≡◌, OnOk, IfOk, IfErr, IsErrOf, IsOkUnless};
ghost use Rattle.column_fields.specs.Refusal.{IsBadOrMemory};
ghost use Rattle.runend_array.specs.Array.{column_of, dtype_of};
ghost use Rattle.runend_array.specs.Column.{column_of_runs};
ghost use Rattle.column_bytes.specs.ListRead.{IsFlatMessage, IsNoFlatMessage, AreFlatRuns, AreNoFlatRuns};

use crate::flat::read_leaf;
use crate::runs::read_run_array;
use column_base::{DType, VortexError, VortexResult};
use column_fields::{read_header, read_run_fields};
use runend_array::{ArrayRef, RunEndArray};
use std::alloc::Allocator;

/// Returns the runs over a flat column of that type that the bytes are the message of. Refused as `BadMetadata` exactly
/// where they are not the message of such runs, else only as `OutOfMemory`.
pub(crate) fn read_flat_runs<A: Allocator + Copy>(
    alloc: A,
    bytes: &[u8],
    dtype: DType,
) -> VortexResult<RunEndArray<A>>
    ensures found { IfOk result (λ runs. AreFlatRuns dtype bytes.now (column_of_runs runs)) }
    ensures bad { IsErrOf result VortexError.BadMetadata → AreNoFlatRuns dtype bytes.now }
    ensures only { IfErr result IsBadOrMemory }
{
    let Some((header, body)) = read_header(bytes) else {
        return Err(VortexError::BadMetadata);
    };
    if header.form != 2 {
        return Err(VortexError::BadMetadata);
    }
    let Some(fields) = read_run_fields(body) else {
        return Err(VortexError::BadMetadata);
    };
    let values = read_flat(alloc, fields.values, dtype)?;
    read_run_array(alloc, header, fields, values)
}

/// Returns the flat column of that type that the bytes are the message of. Refused as `BadMetadata` exactly where they
/// are not the message of such a column, else only as `OutOfMemory`.
pub(crate) fn read_flat<A: Allocator + Copy>(
    alloc: A,
    bytes: &[u8],
    dtype: DType,
) -> VortexResult<ArrayRef<A>>
    ensures found { IfOk result (λ column. IsFlatMessage dtype bytes.now (column_of column)) }
    ensures bad { IsErrOf result VortexError.BadMetadata → IsNoFlatMessage dtype bytes.now }
    ensures only { IfErr result IsBadOrMemory }
{
    let Some((header, body)) = read_header(bytes) else {
        return Err(VortexError::BadMetadata);
    };
    if header.form != 1 {
        return Err(VortexError::BadMetadata);
    }
    let column = read_leaf(alloc, header, body)?;
    of_type(column, dtype)
}

// The column, if that is its type.
fn of_type<A: Allocator + Copy>(column: ArrayRef<A>, dtype: DType) -> VortexResult<ArrayRef<A>>
    ensures same { IfOk result (λ found. column_of found ≡ column_of column) }
    ensures typed { OnOk result (dtype_of column ≡ dtype) }
    ensures other { IsErrOf result VortexError.BadMetadata → ¬ (dtype_of column ≡ dtype) }
    ensures only { IsOkUnless result VortexError.BadMetadata }
{
    if column.dtype() == dtype {
        return Ok(column);
    }
    drop(column);
    Err(VortexError::BadMetadata)
}
