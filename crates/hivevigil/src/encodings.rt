//! Calls that encode columns of any form, and builders: encodings of rows that come batch by batch.
ghost use Rattle.std.specs.Prelude.{◌≡◌, ◌≢◌, [], IfErr, IfOk, IsSomeAnd, MatchOption, None, Some, length, pos, replicate};
ghost use Rattle.column_base.specs.Error.{number_of};
ghost use Rattle.column_core.specs.Kinds.{list_fault};
ghost use Rattle.runend_array.specs.Array.{rows};
ghost use Rattle.runend_builder.specs.Builder.{HasRuns, built_with};
ghost use Rattle.c_columns.specs.Builders.{AreBuilt, AreEncoded, EndsOnAppend, EndsOnBuilder, EndsOnBuilt, IsEmptied, PassedAppendFault, encoding_fault, passed_row, with_rows};
ghost use Rattle.c_columns.specs.Ending.{EndsBy, HasFields, WhereAll, WhereBoth};
ghost use Rattle.c_columns.specs.Handle.{array_in, format_in};
ghost use Rattle.c_columns.specs.Kinds.{dtype_by};
ghost use Rattle.c_columns.specs.ReadFaults.{EndsOnWindow};

use c_columns::builder_handle::BuilderHandle;
use c_columns::builders::{self, BoxedBuilder};
use c_columns::commands::answer;
use c_columns::error_fields::{BAD_NUMBER, ErrorFields, NO_COLUMN, refuse, write_status};
use c_columns::handle::Handle;
use c_columns::kinds::{self, Kind};
use c_columns::row_value::RowValue;
use column_core::VortexResult;
use std::alloc::Global;

/// Returns the rows, of any type but lists, as runs, as few as there can be. Refused as `Unsupported` exactly for
/// lists.
#[tactic(auto, using(crate::proofs::ReadEndings::window_empty, crate::proofs::ReadEndings::window_done, crate::proofs::ReadEndings::window_refused))]
#[unsafe(no_mangle)]
pub extern "C" fn hv_encode_rows(
    alloc: Global,
    column: &mut Handle,
    out: &mut Handle,
    error: &mut ErrorFields,
) -> i32
    ensures same { column.new.column ≡ column.old.column }
    ensures made { result ≡ pos 0 → WhereBoth AreEncoded (array_in column.old.column) (array_in out.new.column) }
    ensures typed { result ≡ pos 0 → format_in out.new.column ≡ format_in column.old.column }
    ensures kept { result ≢ pos 0 → out.new.column ≡ out.old.column }
    ensures ended { EndsOnWindow encoding_fault (array_in column.old.column) result error.new }
{
    let Some(held) = column.take(alloc) else {
        return NO_COLUMN;
    };
    let outcome = builders::encoded_rows(alloc, &held);
    column.put(held);
    answer(outcome, out, error)
}

/// Returns a builder of rows of this type, without rows. Answers 23 where the number is of no type, or of lists.
#[unsafe(no_mangle)]
pub extern "C" fn hv_builder_new(
    alloc: Global,
    kind: &Kind,
    builder: &mut BuilderHandle,
    error: &mut ErrorFields,
) -> i32
    ensures made { result ≡ pos 0
        → IsSomeAnd (dtype_by kind.now.number kind.now) (λ dtype. builder.new.built ≡ Some (built_with dtype [])) }
    ensures kept { result ≢ pos 0 → builder.new.built ≡ builder.old.built }
    ensures ended { MatchOption (dtype_by kind.now.number kind.now) (result ≡ pos 23)
        (λ dtype. EndsBy (list_fault dtype) result error.new) }
{
    match kinds::dtype_of(kind) {
        Some(dtype) => put_builder(builders::new_builder(alloc, dtype), builder, error),
        None => BAD_NUMBER,
    }
}

/// Puts the rows of a column, in any form, behind those of the builder. Refused as `RunBuilder::append_rows` says.
#[tactic(auto, using(crate::proofs::BuilderEndings::no_builder, crate::proofs::BuilderEndings::no_batch, crate::proofs::BuilderEndings::append_done, crate::proofs::BuilderEndings::append_refused))]
#[unsafe(no_mangle)]
pub extern "C" fn hv_append(
    alloc: Global,
    builder: &mut BuilderHandle,
    column: &mut Handle,
    error: &mut ErrorFields,
) -> i32
    ensures same { column.new.column ≡ column.old.column }
    ensures grown { result ≡ pos 0
        → WhereAll (λ built c more. more ≡ with_rows built (rows c))
        builder.old.built (array_in column.old.column) builder.new.built }
    ensures kept { result ≢ pos 0 → builder.new.built ≡ builder.old.built }
    ensures ended { EndsOnAppend builder.old.built (array_in column.old.column) result error.new }
{
    let Some(mut built) = builder.take(alloc) else {
        return NO_COLUMN;
    };
    let Some(held) = column.take(alloc) else {
        builder.put(built);
        return NO_COLUMN;
    };
    let outcome = builders::append_column(alloc, &mut built, &held.array);
    builder.put(built);
    column.put(held);
    write_status(outcome, error)
}

/// Puts `count` rows of a value of the builder's type behind its rows. Refused as `builders::append_passed` says: first
/// for the value, then for too many rows.
#[tactic(auto, using(crate::proofs::BuilderEndings::builder_empty))]
#[unsafe(no_mangle)]
pub extern "C" fn hv_append_value(
    alloc: Global,
    builder: &mut BuilderHandle,
    value: &RowValue,
    text: &[u8],
    count: usize,
    error: &mut ErrorFields,
) -> i32
    ensures grown { result ≡ pos 0
        → WhereBoth (λ built more. more ≡ with_rows built (replicate count (passed_row value.now text.now)))
        builder.old.built builder.new.built }
    ensures kept { result ≢ pos 0 → builder.new.built ≡ builder.old.built }
    ensures ended { EndsOnBuilder (λ built. PassedAppendFault built value.now text.now count)
        builder.old.built result error.new }
{
    let Some(mut built) = builder.take(alloc) else {
        return NO_COLUMN;
    };
    let outcome = builders::append_passed(alloc, &mut built, value, text, count);
    builder.put(built);
    write_status(outcome, error)
}

/// Returns the encoding of all rows of the builder, which it keeps. Refused only for memory.
#[tactic(auto, using(crate::proofs::BuilderEndings::built_empty, crate::proofs::BuilderEndings::built_done, crate::proofs::BuilderEndings::built_short))]
#[unsafe(no_mangle)]
pub extern "C" fn hv_encoding(
    alloc: Global,
    builder: &mut BuilderHandle,
    out: &mut Handle,
    error: &mut ErrorFields,
) -> i32
    ensures same { builder.new.built ≡ builder.old.built }
    ensures made { result ≡ pos 0 → WhereBoth AreBuilt builder.old.built (array_in out.new.column) }
    ensures untyped { result ≡ pos 0 → format_in out.new.column ≡ [] }
    ensures kept { result ≢ pos 0 → out.new.column ≡ out.old.column }
    ensures ended { EndsOnBuilt builder.old.built result error.new }
{
    let Some(built) = builder.take(alloc) else {
        return NO_COLUMN;
    };
    let outcome = builders::encoding_of(alloc, &built);
    builder.put(built);
    answer(outcome, out, error)
}

/// Returns the encoding of all rows of the builder, which leave it: it has none after, and its type stays. Refused only
/// for memory, and then the builder stays as it is.
#[tactic(auto, using(crate::proofs::BuilderEndings::built_empty, crate::proofs::BuilderEndings::built_done, crate::proofs::BuilderEndings::built_short))]
#[unsafe(no_mangle)]
pub extern "C" fn hv_finish(
    alloc: Global,
    builder: &mut BuilderHandle,
    out: &mut Handle,
    error: &mut ErrorFields,
) -> i32
    ensures made { result ≡ pos 0 → WhereBoth AreBuilt builder.old.built (array_in out.new.column) }
    ensures empty { result ≡ pos 0 → WhereBoth IsEmptied builder.old.built builder.new.built }
    ensures untyped { result ≡ pos 0 → format_in out.new.column ≡ [] }
    ensures kept { result ≢ pos 0 → out.new.column ≡ out.old.column }
    ensures same { result ≢ pos 0 → builder.new.built ≡ builder.old.built }
    ensures ended { EndsOnBuilt builder.old.built result error.new }
{
    let Some(mut built) = builder.take(alloc) else {
        return NO_COLUMN;
    };
    let outcome = builders::finished(alloc, &mut built);
    builder.put(built);
    answer(outcome, out, error)
}

/// Returns how many rows the builder has; 0 of no builder.
#[unsafe(no_mangle)]
pub extern "C" fn hv_builder_rows(alloc: Global, builder: &mut BuilderHandle) -> usize
    ensures same { builder.new.built ≡ builder.old.built }
    ensures counted { MatchOption builder.old.built (result ≡ 0) (λ built. result ≡ length built.rows) }
{
    let Some(built) = builder.take(alloc) else {
        return 0;
    };
    let count = built.len();
    builder.put(built);
    count
}

/// Returns how many runs the builder holds, as many as the encoding of its rows has; 0 of no builder.
#[unsafe(no_mangle)]
pub extern "C" fn hv_builder_runs(alloc: Global, builder: &mut BuilderHandle) -> usize
    ensures same { builder.new.built ≡ builder.old.built }
    ensures counted { MatchOption builder.old.built (result ≡ 0) (λ built. HasRuns built.rows result) }
{
    let Some(built) = builder.take(alloc) else {
        return 0;
    };
    let count = built.runs();
    builder.put(built);
    count
}

/// Frees the builder, if there is one. The handle is empty after.
#[unsafe(no_mangle)]
pub extern "C" fn hv_builder_free(alloc: Global, builder: &mut BuilderHandle)
    ensures { builder.new.built ≡ None }
{
    drop(builder.take(alloc));
}

// Puts a builder into a handle and answers 0, or answers the number of an error and writes its fields.
fn put_builder(
    outcome: VortexResult<BoxedBuilder>,
    builder: &mut BuilderHandle,
    error: &mut ErrorFields,
) -> i32
    ensures ok { IfOk outcome (λ made. (result ≡ pos 0) × (builder.new.built ≡ Some made.value)) }
    ensures err { IfErr outcome
        (λ why. (result ≡ pos (number_of why)) × (result ≢ pos 0) × (builder.new.built ≡ builder.old.built)
        × HasFields why error.new) }
{
    match outcome {
        Ok(made) => {
            builder.put(made);
            0
        }
        Err(why) => refuse(why, error),
    }
}
