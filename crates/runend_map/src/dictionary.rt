//! Rows of dictionaries of any form, taken by codes.
ghost use Rattle.std.specs.Prelude.{◌≡◌, ◌<◌, Err, true, false, length, IfOk, IsOkUnless};
ghost use Rattle.column_core.specs.FlatColumn.{leaf_of};
ghost use Rattle.column_core.specs.Leaf.{leaf_dtype, single_rows};
ghost use Rattle.column_core.specs.PrimitiveForm.{optional_numbers, primitive_dtype};
ghost use Rattle.column_core.specs.Refusal.{IsRefusedBy};
ghost use Rattle.column_ops.specs.Cast.{is_numbers};
ghost use Rattle.column_ops.specs.Codes.{code_fault, code_numbers, code_rows};
ghost use Rattle.column_ops.specs.Nullable.{take_dtype};
ghost use Rattle.runend_array.specs.Array.{column_of, dtype_of, rows};
ghost use Rattle.runend_array.specs.Column.{OfConstant, column_dtype, column_of_runs, column_rows, plain_of};
ghost use Rattle.runend_array.specs.Encoding.{IsComputedFlat};
ghost use Rattle.runend_map.specs.Codes.{keeps_runs};
ghost use Rattle.runend_map.specs.TakenForm.{TakeFromLeaves};

use crate::codes::{placed, rows_for_runs};
use crate::visible::shown_values;
use column_core::{
    FlatColumn, NativePType, PrimitiveArray, Validity, VortexError, VortexResult, is_number_type,
};
use runend_array::{ArrayRef, ConstantArray, ExecutionCtx, RunEnd, RunEndArray, RunEndArrayExt};
use runend_column::flat_rows;
use runend_select::rows_at;
use std::alloc::Allocator;

/// Returns the dictionary's row for each code, null for null, in a type with null where the dictionary's or the codes'
/// has. A dictionary of integers gives a run column in minimal form: no run is hidden, neighbours differ (null is equal
/// to null), the offset is 0 and the last end is the length. One of booleans gives a run column of the visible runs.
/// Both have flat values and ends of the same type. Any other dictionary gives a flat column. The dictionary may be of
/// any form and of any kind: one in runs is written out only where it has no more rows than there are runs of codes,
/// and one of one value is not. Only codes of visible runs are looked at.
///
/// Refused as `TypeMismatch` unless the codes are integers, however little memory there is; then as
/// `OutOfBounds`, with the code and the number of rows of the dictionary, at the first code that is not null
/// and is negative or not below that number; else only as `OutOfMemory`.
pub fn take_from<A: Allocator + Copy>(
    codes: &RunEndArray<A>,
    dictionary: &ArrayRef<A>,
    ctx: &mut ExecutionCtx<A>,
) -> VortexResult<ArrayRef<A>>
    ensures refused { IsRefusedBy (code_fault (plain_of (column_of_runs codes.now))
        (length (rows dictionary.now))) result }
    ensures typed { is_numbers (column_dtype codes.now.values) ≡ false → result ≡ Err VortexError.TypeMismatch }
    ensures rows { IfOk result (λ taken. rows taken ≡
        code_rows (rows dictionary.now) (column_rows (column_of_runs codes.now))) }
    ensures dtype { IfOk result (λ taken. dtype_of taken ≡
        take_dtype (dtype_of dictionary.now) (column_dtype codes.now.values)) }
    ensures form { IfOk result (λ taken. TakeFromLeaves (keeps_runs (dtype_of dictionary.now))
        (dtype_of dictionary.now) codes.now (column_of taken)) }
    ensures session { ctx.new ≡ ctx.old }
{
    if !is_number_type(codes.dtype()) {
        return Err(VortexError::TypeMismatch);
    }
    let taken = rows_for_runs(codes, dictionary, ctx)?;
    placed(codes, taken, ctx)
}

/// Returns the dictionary's row for each code, null for null, flat, in a type with null where the dictionary's or the
/// codes' has. Both may be of any form, and the dictionary of any kind: one in runs is written out only where it has no
/// more rows than codes are looked up, and one of one value is not. Where the codes are in runs, only those of visible
/// runs are looked up, each once, and a constant code once.
///
/// Refused as `TypeMismatch` unless the codes are integers, however little memory there is; then as
/// `OutOfBounds`, with the code and the number of rows of the dictionary, at the first code that is not null
/// and is negative or not below that number; else only as `OutOfMemory`.
pub fn take_from_rows<A: Allocator + Copy>(
    codes: &ArrayRef<A>,
    dictionary: &ArrayRef<A>,
    ctx: &mut ExecutionCtx<A>,
) -> VortexResult<ArrayRef<A>>
    ensures refused { IsRefusedBy (code_fault (plain_of (column_of codes.now)) (length (rows dictionary.now))) result }
    ensures typed { is_numbers (dtype_of codes.now) ≡ false → result ≡ Err VortexError.TypeMismatch }
    ensures rows { IfOk result (λ taken. rows taken ≡ code_rows (rows dictionary.now) (rows codes.now)) }
    ensures dtype { IfOk result (λ taken. dtype_of taken ≡ take_dtype (dtype_of dictionary.now) (dtype_of codes.now)) }
    ensures flat { IfOk result (λ taken. IsComputedFlat (column_of taken)) }
    ensures session { ctx.new ≡ ctx.old }
{
    if !is_number_type(codes.dtype()) {
        return Err(VortexError::TypeMismatch);
    }
    match codes {
        ArrayRef::RunEnd(runs) => return take_each(runs, dictionary, ctx),
        ArrayRef::Constant(code) if !code.is_empty() => return take_one(code, dictionary, ctx),
        _ => {}
    }
    let flat = flat_rows(codes, ctx)?;
    let indices = numbers_of(flat);
    let taken = rows_at(dictionary, &indices, ctx);
    drop(indices);
    taken
}

// The codes of a flat column of integers.
fn numbers_of<A: Allocator>(flat: FlatColumn<A>) -> PrimitiveArray<A>
    requires numbers { is_numbers (leaf_dtype (leaf_of flat)) ≡ true }
    ensures codes { code_numbers (single_rows (leaf_of flat)) ≡ optional_numbers result }
    ensures dtype { primitive_dtype result ≡ leaf_dtype (leaf_of flat) }
{
    match flat {
        FlatColumn::Primitive(numbers) => numbers,
        _ => unreachable!(),
    }
}

// The dictionary's row for the one code, null for null, in each row, flat. It is looked up once.
fn take_one<A: Allocator + Copy>(
    code: &ConstantArray<A>,
    dictionary: &ArrayRef<A>,
    ctx: &mut ExecutionCtx<A>,
) -> VortexResult<ArrayRef<A>>
    requires some { 0 < code.now.count }
    requires numbers { is_numbers code.now.dtype ≡ true }
    ensures refused { IsRefusedBy (code_fault (plain_of (OfConstant code.now)) (length (rows dictionary.now))) result }
    ensures rows { IfOk result (λ taken. rows taken ≡
        code_rows (rows dictionary.now) (column_rows (OfConstant code.now))) }
    ensures dtype { IfOk result (λ taken. dtype_of taken ≡ take_dtype (dtype_of dictionary.now) code.now.dtype) }
    ensures flat { IfOk result (λ taken. IsComputedFlat (column_of taken)) }
    ensures session { ctx.new ≡ ctx.old }
{
    let runs = one_run(*ctx.allocator(), code)?;
    let taken = take_each(&runs, dictionary, ctx);
    drop(runs);
    taken
}

// A constant as one run. Refused only as `OutOfMemory`.
fn one_run<A: Allocator + Copy>(
    alloc: A,
    constant: &ConstantArray<A>,
) -> VortexResult<RunEndArray<A>>
    requires some { 0 < constant.now.count }
    ensures only { IsOkUnless result VortexError.OutOfMemory }
    ensures plain { IfOk result (λ runs. plain_of (column_of_runs runs) ≡ plain_of (OfConstant constant.now)) }
{
    let count = constant.len();
    let ends = vec![in alloc; count as u64; 1]?;
    let ends = PrimitiveArray::new_unchecked(u64::wrap(ends), Validity::NonNullable);
    let value = constant.repeated(alloc, 1)?;
    Ok(RunEnd::new_unchecked(
        ArrayRef::Primitive(ends),
        ArrayRef::Constant(value),
        0,
        count,
    ))
}

// The dictionary's row for each code, null for null, flat. Only the codes of visible runs are looked up, each once.
fn take_each<A: Allocator + Copy>(
    codes: &RunEndArray<A>,
    dictionary: &ArrayRef<A>,
    ctx: &mut ExecutionCtx<A>,
) -> VortexResult<ArrayRef<A>>
    requires numbers { is_numbers (column_dtype codes.now.values) ≡ true }
    ensures refused { IsRefusedBy (code_fault (plain_of (column_of_runs codes.now))
        (length (rows dictionary.now))) result }
    ensures rows { IfOk result (λ taken. rows taken ≡
        code_rows (rows dictionary.now) (column_rows (column_of_runs codes.now))) }
    ensures dtype { IfOk result (λ taken. dtype_of taken ≡
        take_dtype (dtype_of dictionary.now) (column_dtype codes.now.values)) }
    ensures flat { IfOk result (λ taken. IsComputedFlat (column_of taken)) }
    ensures session { ctx.new ≡ ctx.old }
{
    let taken = rows_for_runs(codes, dictionary, ctx)?;
    shown_values(codes, taken, ctx)
}
