//! Functions of native numbers, called on the rows of columns.
ghost use Rattle.std.specs.Prelude.{◌≡◌, ◌↔◌, true, length, map, option_map, IfOk, IsOkUnless, IsTrue};
ghost use Rattle.std.specs.List.{AllZip};
ghost use Rattle.column_base.specs.declared.dtype.DType.TheVariants as types;
ghost use Rattle.column_base.specs.declared.dtype.Nullability.TheVariants.{Nullable};
ghost use Rattle.column_core.specs.Computed.{IsComputedLeaf};
ghost use Rattle.column_core.specs.FlatColumn.{leaf_of};
ghost use Rattle.column_core.specs.Leaf.{leaf_dtype, leaf_rows, single_rows};
ghost use Rattle.column_core.specs.Refusal.{IsRefusedBy};
ghost use Rattle.column_core.specs.Value.{IsLists};
ghost use Rattle.runend_array.specs.Array.{column_of, dtype_of, rows};
ghost use Rattle.runend_map.specs.MapInputs.{HasValidRuns, IsAsked, answered_rows, asked_rows};
ghost use Rattle.runend_map.specs.MapResult.{IsMappedForm, IsOwed, MayAsk, is_native, native_fault, number_row, truth_row};

use crate::answers::{answers, column_of_numbers, column_of_truths};
use crate::visible::shown_rows;
use column_core::{DType, FlatColumn, NativePType, VortexError, VortexResult};
use runend_array::{ArrayRef, ExecutionCtx, Kernel, array_of};
use runend_column::{flat_rows, over_visible_runs, visible_values};
use std::alloc::Allocator;

/// Returns what the function answers to each row, in a type with null. A run column, where scalar functions are
/// registered, gives a run column of the visible runs with flat values, and any other column a flat one. The function
/// is called once for each visible run, or for each row of another column, and on no other value.
///
/// Refused as `TypeMismatch` unless the column has native numbers of the type `S`; else only as `OutOfMemory`.
pub fn map_rows<S: NativePType, T: NativePType, F: Fn(Option<S>) -> Option<T>, A: Allocator + Copy>(
    column: &ArrayRef<A>,
    function: &F,
    ctx: &mut ExecutionCtx<A>,
) -> VortexResult<ArrayRef<A>>
    requires { is_native S.PTYPE (dtype_of column.now) ≡ true →
        MayAsk (number_row S.number) (λ row. F.pre function.now row) (rows column.now) }
    ensures refused { IsRefusedBy (native_fault S.PTYPE (dtype_of column.now)) result }
    ensures rows { IfOk result (λ mapped. AllZip (IsOwed (number_row S.number) (number_row T.number) (λ row answer.
        F.post function.now row answer)) (rows column.now) (rows mapped)) }
    ensures dtype { IfOk result (λ mapped. dtype_of mapped ≡ types.Primitive T.PTYPE Nullable) }
    ensures form { IfOk result (λ mapped. IsMappedForm ctx.old (column_of column.now) (column_of mapped)) }
    ensures session { ctx.new ≡ ctx.old }
{
    if !is_type_of::<S>(column.dtype()) {
        return Err(VortexError::TypeMismatch);
    }
    let answers = asked_answers(column, function, ctx)?;
    let mapped = column_of_numbers(*ctx.allocator(), answers.as_slice());
    drop(answers);
    let mapped = mapped?;
    answered(column, FlatColumn::Primitive(mapped), ctx)
}

/// Returns the boolean that the function answers to each row, in a type with null. A run column, where scalar functions
/// are registered, gives a run column of the visible runs with flat values, and any other column a flat one. The
/// function is called once for each visible run, or for each row of another column, and on no other value.
///
/// Refused as `TypeMismatch` unless the column has native numbers of the type `S`; else only as `OutOfMemory`.
pub fn map_rows_bool<S: NativePType, F: Fn(Option<S>) -> Option<bool>, A: Allocator + Copy>(
    column: &ArrayRef<A>,
    function: &F,
    ctx: &mut ExecutionCtx<A>,
) -> VortexResult<ArrayRef<A>>
    requires { is_native S.PTYPE (dtype_of column.now) ≡ true →
        MayAsk (number_row S.number) (λ row. F.pre function.now row) (rows column.now) }
    ensures refused { IsRefusedBy (native_fault S.PTYPE (dtype_of column.now)) result }
    ensures rows { IfOk result (λ mapped. AllZip (IsOwed (number_row S.number) truth_row (λ row answer.
        F.post function.now row answer)) (rows column.now) (rows mapped)) }
    ensures dtype { IfOk result (λ mapped. dtype_of mapped ≡ types.Bool Nullable) }
    ensures form { IfOk result (λ mapped. IsMappedForm ctx.old (column_of column.now) (column_of mapped)) }
    ensures session { ctx.new ≡ ctx.old }
{
    if !is_type_of::<S>(column.dtype()) {
        return Err(VortexError::TypeMismatch);
    }
    let answers = asked_answers(column, function, ctx)?;
    let mapped = column_of_truths(*ctx.allocator(), answers.as_slice());
    drop(answers);
    let mapped = mapped?;
    answered(column, FlatColumn::Bool(mapped), ctx)
}

// Is this the type of these native numbers?
fn is_type_of<S: NativePType>(dtype: DType) -> bool
    ensures { result ≡ is_native S.PTYPE dtype }
{
    match dtype {
        DType::Primitive(ptype, _) => ptype == S::PTYPE,
        _ => false,
    }
}

// The rows that a function is asked for. Refused only as `OutOfMemory`.
fn asked_values<A: Allocator + Copy>(
    column: &ArrayRef<A>,
    ctx: &mut ExecutionCtx<A>,
) -> VortexResult<FlatColumn<A>>
    requires single { ¬ IsLists (dtype_of column.now) }
    ensures only { IsOkUnless result VortexError.OutOfMemory }
    ensures rows { IfOk result (λ values. single_rows (leaf_of values) ≡ asked_rows (column_of column.now)) }
    ensures dtype { IfOk result (λ values. leaf_dtype (leaf_of values) ≡ dtype_of column.now) }
    ensures valid { HasValidRuns (column_of column.now) }
    ensures session { ctx.new ≡ ctx.old }
{
    match column {
        ArrayRef::RunEnd(runs) => visible_values(*ctx.allocator(), runs),
        _ => flat_rows(column, ctx),
    }
}

// What the function answers to each row. Refused only as `OutOfMemory`.
fn answers_to<S: NativePType, R: Drop, F: Fn(Option<S>) -> R, A: Allocator + Copy>(
    alloc: A,
    values: &FlatColumn<A>,
    function: &F,
) -> VortexResult<Vec<R, A>>
    requires native { is_native S.PTYPE (leaf_dtype (leaf_of values.now)) ≡ true }
    requires callable { MayAsk (number_row S.number) (λ row.
        F.pre function.now row) (single_rows (leaf_of values.now)) }
    ensures only { IsOkUnless result VortexError.OutOfMemory }
    ensures each { IfOk result (λ answers. AllZip (IsAsked (number_row S.number) (λ row answer.
        F.post function.now row answer)) (single_rows (leaf_of values.now)) answers.items) }
{
    let FlatColumn::Primitive(array) = values else {
        unreachable!()
    };
    let Some(items) = S::slice_of(array.values()) else {
        unreachable!()
    };
    answers(alloc, items, array.validity(), function)
}

// What the function answers to each row that it is asked for. Refused only as `OutOfMemory`.
fn asked_answers<S: NativePType, R: Drop, F: Fn(Option<S>) -> R, A: Allocator + Copy>(
    column: &ArrayRef<A>,
    function: &F,
    ctx: &mut ExecutionCtx<A>,
) -> VortexResult<Vec<R, A>>
    requires native { is_native S.PTYPE (dtype_of column.now) ≡ true }
    requires callable { MayAsk (number_row S.number) (λ row. F.pre function.now row) (rows column.now) }
    ensures only { IsOkUnless result VortexError.OutOfMemory }
    ensures each { IfOk result (λ answers. AllZip (IsAsked (number_row S.number) (λ row answer.
        F.post function.now row answer)) (asked_rows (column_of column.now)) answers.items) }
    ensures valid { HasValidRuns (column_of column.now) }
    ensures session { ctx.new ≡ ctx.old }
{
    let values = asked_values(column, ctx)?;
    let answers = answers_to(*ctx.allocator(), &values, function);
    drop(values);
    answers
}

// The column of the answers. Refused only as `OutOfMemory`.
fn answered<A: Allocator + Copy>(
    column: &ArrayRef<A>,
    answers: FlatColumn<A>,
    ctx: &mut ExecutionCtx<A>,
) -> VortexResult<ArrayRef<A>>
    requires paired { length (leaf_rows (leaf_of answers)) ≡ length (asked_rows (column_of column.now)) }
    requires computed { IsComputedLeaf (leaf_of answers) }
    ensures only { IsOkUnless result VortexError.OutOfMemory }
    ensures rows { IfOk result (λ mapped. rows mapped ≡
        answered_rows (column_of column.now) (single_rows (leaf_of answers))) }
    ensures dtype { IfOk result (λ mapped. dtype_of mapped ≡ leaf_dtype (leaf_of answers)) }
    ensures form { IfOk result (λ mapped. IsMappedForm ctx.old (column_of column.now) (column_of mapped)) }
    ensures session { ctx.new ≡ ctx.old }
{
    let alloc = *ctx.allocator();
    let ArrayRef::RunEnd(runs) = column else {
        return Ok(array_of(answers));
    };
    if ctx.session().is_registered(Kernel::ScalarFn) {
        over_visible_runs(alloc, runs, answers)
    } else {
        let prefill_runs = ctx.session().thresholds().prefill_runs;
        let flat = shown_rows(alloc, runs, answers, prefill_runs)?;
        Ok(array_of(flat))
    }
}
