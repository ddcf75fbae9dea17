//! The rows of the columns of one table put after those of another's, place by place.
ghost use Rattle.std.specs.Prelude.{◌≡◌, ◌↔◌, ◌+◌, ◌^◌, ◌<◌, ◌++◌, IfOk, IsOkUnless, IsTrue, MatchOption, None, Some, [], cond, length, map, nat_lt};
ghost use Rattle.column_core.specs.Kinds.{list_fault};
ghost use Rattle.column_core.specs.Refusal.{first_fault};
ghost use Rattle.runend_array.specs.Array.{column_of, dtype_of, rows};
ghost use Rattle.runend_builder.specs.Builder.{built_with};
ghost use Rattle.runend_builder.specs.Encoded.{IsEncodedRows};
ghost use Rattle.tables.specs.Appended.{AreJoined, IsFirstOther, IsJoinedColumn, joining_fault, type_of};
ghost use Rattle.tables.specs.Tables.{AreEven};
ghost use Rattle.typed_columns.specs.Typed.{typed_of};

use column_core::{VortexError, VortexResult, fault_of_lists};
use runend_array::{ArrayRef, ExecutionCtx, RunEndArray};
use runend_builder::RunBuilder;
use std::alloc::Allocator;
use typed_columns::TypedColumn;

/// Returns the first column whose type or format is not that of the other column of its place.
pub(crate) fn first_other_type<A: Allocator + Copy>(
    columns: &[TypedColumn<A>],
    others: &[TypedColumn<A>],
) -> Option<usize>
    requires { length columns.now ≡ length others.now }
    ensures { MatchOption result (map type_of (map typed_of columns.now) ≡ map type_of (map typed_of others.now))
        (IsFirstOther (map type_of (map typed_of columns.now)) (map type_of (map typed_of others.now))) }
{
    for place in 0..columns.len() {
        if !are_alike(&columns[place], &others[place]) {
            return Some(place);
        }
    }
    None
}

// Returns whether two columns are of one type and under one format.
fn are_alike<A: Allocator + Copy>(column: &TypedColumn<A>, other: &TypedColumn<A>) -> bool
    ensures { IsTrue result ↔ (type_of (typed_of column.now) ≡ type_of (typed_of other.now)) }
{
    column.array.dtype() == other.array.dtype() && column.format.as_str() == other.format.as_str()
}

/// Returns why columns are not joined with others of the same types: `Unsupported` where one has lists, then
/// `WindowOverflow` where `count` and `more` are 2^64 rows or more together.
pub(crate) fn fault_of_joining<A: Allocator + Copy>(
    columns: &[TypedColumn<A>],
    count: usize,
    more: usize,
) -> Option<VortexError>
    ensures { result ≡ joining_fault (map (λ column. dtype_of column.array) columns.now) (count + more) }
{
    if let Some(error) = first_list_fault(columns) {
        return Some(error);
    }
    fault_of_count(count, more)
}

// `Unsupported` where a column has lists.
fn first_list_fault<A: Allocator + Copy>(columns: &[TypedColumn<A>]) -> Option<VortexError>
    ensures { result ≡ first_fault list_fault (map (λ column. dtype_of column.array) columns.now) }
{
    for column in columns {
        if let Some(error) = fault_of_lists(column.array.dtype()) {
            return Some(error);
        }
    }
    None
}

// `WindowOverflow` where both are 2^64 rows or more.
fn fault_of_count(count: usize, more: usize) -> Option<VortexError>
    ensures { result ≡ cond (nat_lt (count + more) (2 ^ 64)) None (Some VortexError.WindowOverflow) }
{
    if count.checked_add(more).is_none() {
        return Some(VortexError::WindowOverflow);
    }
    None
}

/// Returns the encoding of the rows of each column and of those of the other column of its place after them, under the
/// same formats. Refused only as `OutOfMemory`.
pub(crate) fn join_each<A: Allocator + Copy>(
    columns: &[TypedColumn<A>],
    others: &[TypedColumn<A>],
    count: usize,
    more: usize,
    ctx: &mut ExecutionCtx<A>,
) -> VortexResult<Vec<TypedColumn<A>, A>>
    requires typed { map type_of (map typed_of columns.now) ≡ map type_of (map typed_of others.now) }
    requires even { AreEven (map typed_of columns.now) count }
    requires even_others { AreEven (map typed_of others.now) more }
    requires joinable { joining_fault (map (λ column. dtype_of column.array) columns.now) (count + more) ≡ None }
    ensures only { IsOkUnless result VortexError.OutOfMemory }
    ensures joined { IfOk result (λ made. AreJoined (map typed_of columns.now) (map typed_of others.now)
        (map typed_of made.items)) }
    ensures session { ctx.new ≡ ctx.old }
{
    let mut kept = Vec::with_capacity(*ctx.allocator(), columns.len())?;
    for place in 0..columns.len() {
        let part = joined(&columns[place], &others[place], ctx)?;
        kept.push_reserved(part);
    }
    Ok(kept)
}

// The encoding of the rows of a column and of those of another one after them, under the format of the first. Refused
// only as `OutOfMemory`.
fn joined<A: Allocator + Copy>(
    column: &TypedColumn<A>,
    other: &TypedColumn<A>,
    ctx: &mut ExecutionCtx<A>,
) -> VortexResult<TypedColumn<A>>
    requires typed { dtype_of column.now.array ≡ dtype_of other.now.array }
    requires single { list_fault (dtype_of column.now.array) ≡ None }
    requires fits { length (rows column.now.array) + length (rows other.now.array) < 2 ^ 64 }
    ensures only { IsOkUnless result VortexError.OutOfMemory }
    ensures joined { IfOk result (λ part. IsJoinedColumn (typed_of column.now) (typed_of other.now) (typed_of part)) }
    ensures session { ctx.new ≡ ctx.old }
{
    let mut builder = RunBuilder::new(*ctx.allocator(), column.array.dtype())?;
    let runs = runs_of_both(&mut builder, &column.array, &other.array, ctx);
    drop(builder);
    let array = ArrayRef::of_runs(*ctx.allocator(), runs?)?;
    TypedColumn::with_format(*ctx.allocator(), array, column.format.as_str())
}

// The encoding of the rows of both, by a builder of their type without rows. Refused only as `OutOfMemory`.
fn runs_of_both<A: Allocator + Copy>(
    builder: &mut RunBuilder<A>,
    column: &ArrayRef<A>,
    other: &ArrayRef<A>,
    ctx: &mut ExecutionCtx<A>,
) -> VortexResult<RunEndArray<A>>
    requires empty { builder.old ≡ built_with (dtype_of column.now) [] }
    requires typed { dtype_of column.now ≡ dtype_of other.now }
    requires fits { length (rows column.now) + length (rows other.now) < 2 ^ 64 }
    ensures only { IsOkUnless result VortexError.OutOfMemory }
    ensures encoded { IfOk result (λ runs.
        IsEncodedRows (rows column.now ++ rows other.now) (dtype_of column.now) runs) }
    ensures session { ctx.new ≡ ctx.old }
{
    builder.append_rows(column, ctx)?;
    builder.append_rows(other, ctx)?;
    builder.finish(ctx)
}
