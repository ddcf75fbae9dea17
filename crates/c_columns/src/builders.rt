//! Encodings of columns of any form, and of rows that come batch by batch.
ghost use Rattle.std.specs.Prelude.{◌≡◌, [], length, replicate, IfErr, IfOk, IsOkUnless, OnErr, OnOk};
ghost use Rattle.column_core.specs.Kinds.{list_fault};
ghost use Rattle.column_core.specs.Refusal.{IsRefusedBy};
ghost use Rattle.runend_array.specs.Array.{column_of, rows};
ghost use Rattle.runend_builder.specs.Builder.{built_with};
ghost use Rattle.runend_builder.specs.Encoded.{IsEncodedRows};
ghost use Rattle.std_alloc.specs.Arc.{arc_value};
ghost use Rattle.typed_columns.specs.Typed.{format_of};
ghost use Rattle.c_columns.specs.Builders.{AreBuilt, AreEncoded, PassedAppendFault, column_append_fault, encoding_fault, passed_row, with_rows};
ghost use Rattle.c_columns.specs.Ending.{IsShortOr};

use crate::flat::{Boxed, boxed};
use crate::row_value::{RowValue, scalar_of_type};
use crate::runs::{boxed_runs, boxed_runs_like, no_ends, no_runs};
use crate::sessions::plain_context;
use column_core::{DType, VortexError, VortexResult};
use runend_array::{ArrayRef, RunEndArray};
use runend_builder::{RunBuilder, encode_rows};
use std::alloc::Global;
use std::mem::replace;
use std::sync::Arc;
use typed_columns::TypedColumn;

/// Holds a builder on the heap.
pub type BoxedBuilder = Box<RunBuilder<Global>>;

/// Returns the run column of the encoding of the rows, with the same format. Refused as `Unsupported` exactly for
/// lists.
pub fn encoded_rows(alloc: Global, column: &TypedColumn<Global>) -> VortexResult<Boxed>
    ensures made { IfOk result (λ made. AreEncoded column.now.array made.value.array) }
    ensures typed { IfOk result (λ made. format_of made.value ≡ format_of column.now) }
    ensures refused { IsRefusedBy (encoding_fault (column_of column.now.array)) result }
{
    let runs = encode_rows(&column.array, &mut plain_context(alloc))?;
    boxed_runs_like(alloc, runs, column)
}

/// Returns a builder of rows of this type, without rows. Refused as `Unsupported` exactly for lists.
pub fn new_builder(alloc: Global, dtype: DType) -> VortexResult<BoxedBuilder>
    ensures empty { IfOk result (λ made. made.value ≡ built_with dtype []) }
    ensures refused { IsRefusedBy (list_fault dtype) result }
{
    let builder = RunBuilder::new(alloc, dtype)?;
    Ok(Box::new(alloc, builder)?)
}

/// Appends the rows of a column to those of the builder. Refused as `RunBuilder::append_rows` refuses, and then the
/// builder stays as it is.
#[tactic(auto, using(crate::proofs::Appended::column_grown, crate::proofs::Appended::still_kept))]
pub fn append_column(
    alloc: Global,
    builder: &mut RunBuilder<Global>,
    array: &ArrayRef<Global>,
) -> VortexResult<()>
    ensures grown { OnOk result (builder.new ≡ with_rows builder.old (rows array.now)) }
    ensures kept { OnErr result (builder.new ≡ builder.old) }
    ensures refused { IsRefusedBy (column_append_fault builder.old array.now) result }
{
    builder.append_rows(array, &mut plain_context(alloc))
}

/// Appends `count` rows of the value that C passes, which is of the builder's type. Refused as `scalar_of_type` is,
/// whatever the count is, and then as `RunBuilder::append_value` refuses; then the builder stays as it is.
#[tactic(auto, using(crate::proofs::Appended::value_grown, crate::proofs::Appended::still_kept, crate::proofs::Appended::no_value, crate::proofs::Appended::value_refused, crate::proofs::Appended::value_served))]
pub fn append_passed(
    alloc: Global,
    builder: &mut RunBuilder<Global>,
    value: &RowValue,
    text: &[u8],
    count: usize,
) -> VortexResult<()>
    ensures grown { OnOk result
        (builder.new ≡ with_rows builder.old (replicate count (passed_row value.now text.now))) }
    ensures kept { OnErr result (builder.new ≡ builder.old) }
    ensures refused { IfErr result
        (λ error. IsShortOr (PassedAppendFault builder.old value.now text.now count) error) }
    ensures served { OnOk result
        ((error : VortexError) → ¬ (PassedAppendFault builder.old value.now text.now count error)) }
{
    let scalar = scalar_of_type(alloc, builder.dtype(), value, text)?;
    let appended = builder.append_value(&scalar, count);
    drop(scalar);
    appended
}

/// Returns the run column of the encoding of all rows so far, which the builder keeps. Refused only for memory.
pub fn encoding_of(alloc: Global, builder: &RunBuilder<Global>) -> VortexResult<Boxed>
    ensures made { IfOk result (λ made. AreBuilt builder.now made.value.array) }
    ensures untyped { IfOk result (λ made. format_of made.value ≡ []) }
    ensures only { IsOkUnless result VortexError.OutOfMemory }
{
    let runs = builder.encoding(&mut plain_context(alloc))?;
    boxed_runs(alloc, runs)
}

/// Returns the run column of the encoding of all rows so far, which leave the builder: then it has no rows, and its
/// type stays. Refused only for memory, and then the builder stays as it is, since the blocks of the answer are taken
/// before the rows leave.
pub fn finished(alloc: Global, builder: &mut RunBuilder<Global>) -> VortexResult<Boxed>
    ensures made { IfOk result (λ made. AreBuilt builder.old made.value.array) }
    ensures untyped { IfOk result (λ made. format_of made.value ≡ []) }
    ensures only { IsOkUnless result VortexError.OutOfMemory }
    ensures empty { OnOk result (builder.new ≡ built_with builder.old.dtype []) }
    ensures kept { OnErr result (builder.new ≡ builder.old) }
{
    let mut runs = Arc::new(alloc, no_runs(alloc))?;
    let mut place = match boxed(alloc, no_ends(alloc)) {
        Ok(place) => place,
        Err(error) => {
            drop(runs);
            return Err(error);
        }
    };
    if let Err(error) = finish_into(alloc, builder, &mut runs) {
        drop(place);
        drop(runs);
        return Err(error);
    }
    drop(replace(&mut place.array, ArrayRef::RunEnd(runs)));
    Ok(place)
}

// The encoding of all rows, which leave the builder, is put in the place of other runs. Refused only for memory, and
// then the builder stays as it is; nothing else holds the runs, so that they are never refused as shared.
fn finish_into(
    alloc: Global,
    builder: &mut RunBuilder<Global>,
    runs: &mut Arc<RunEndArray<Global>, Global>,
) -> VortexResult<()>
    ensures made { OnOk result (IsEncodedRows builder.old.rows builder.old.dtype (arc_value runs.new)) }
    ensures only { IsOkUnless result VortexError.OutOfMemory }
    ensures empty { OnOk result (builder.new ≡ built_with builder.old.dtype []) }
    ensures kept { OnErr result (builder.new ≡ builder.old) }
{
    let Some(own) = Arc::get_mut(runs) else {
        return Err(VortexError::OutOfMemory);
    };
    let encoding = builder.finish(&mut plain_context(alloc))?;
    drop(replace(own, encoding));
    Ok(())
}
