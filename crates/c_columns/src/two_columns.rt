//! Commands that are made of a second column, which may have any form. Neither column is copied.
ghost use Rattle.std.specs.Prelude.{◌≡◌, [], IfOk, IfSome, length};
ghost use Rattle.column_base.specs.Mask.{mask_bits};
ghost use Rattle.column_core.specs.Refusal.{IsRefusedBy};
ghost use Rattle.column_core.specs.PrimitiveForm.{optional_numbers};
ghost use Rattle.column_ops.specs.Filter.{filter_fault};
ghost use Rattle.column_ops.specs.Take.{take_fault};
ghost use Rattle.runend_array.specs.Array.{rows};
ghost use Rattle.runend_array.specs.Column.{repeated};
ghost use Rattle.runend_array.specs.declared.array_ref.ArrayRef.TheVariants.{Constant};
ghost use Rattle.runend_commands.specs.declared.command.Command.TheVariants.{Filter, Take};
ghost use Rattle.typed_columns.specs.Typed.{format_of};
ghost use Rattle.c_columns.specs.Calls.{Leaves};
ghost use Rattle.c_columns.specs.TwoColumns.{HasPlain, IsComparedIn, IsFilteredIn, IsLookedUpIn, IsTakenIn, beside_fault, code_look_up_fault, compared_by, filtered_by, looked_up_by, mask_filter_fault, true_rows};

use crate::flat::{Boxed, boxed, boxed_like};
use crate::masks::mask_of;
use crate::sessions::{Session, context};
use crate::true_counts::true_count;
use column_core::{Mask, PrimitiveArray, VortexError, VortexResult};
use column_ops::CompareOperator;
use runend_array::{ArrayRef, ConstantArray};
use runend_commands::compute;
use std::alloc::Global;
use typed_columns::TypedColumn;

/// Returns the rows at which the mask is true, with the same format; null selects nothing. A constant stays one: the
/// true rows of the mask are counted. Runs and a mask in few runs are walked together, and no bit of the mask is made.
/// Refused as `TypeMismatch` unless the mask is of booleans, and then as `MaskLength` where it is of another number of
/// rows.
pub fn filtered(
    alloc: Global,
    session: &Session,
    mask: &ArrayRef<Global>,
    column: &TypedColumn<Global>,
) -> VortexResult<Boxed>
    ensures left { IfOk result (λ made.
        HasPlain (filtered_by mask.now column.now.array)
        (IsFilteredIn session.now mask.now column.now.array) made.value.array) }
    ensures typed { IfOk result (λ made. format_of made.value ≡ format_of column.now) }
    ensures refused { IsRefusedBy (mask_filter_fault mask.now column.now.array) result }
{
    let kept = rows_filtered(alloc, session, mask, &column.array)?;
    boxed_like(alloc, kept, column)
}

// The rows at which the mask is true.
#[tactic(auto, using(crate::proofs::ConstantFilters::constant_left))]
fn rows_filtered(
    alloc: Global,
    session: &Session,
    mask: &ArrayRef<Global>,
    array: &ArrayRef<Global>,
) -> VortexResult<ArrayRef<Global>>
    ensures left { IfOk result (λ made.
        HasPlain (filtered_by mask.now array.now) (IsFilteredIn session.now mask.now array.now) made) }
    ensures refused { IsRefusedBy (mask_filter_fault mask.now array.now) result }
{
    match array {
        ArrayRef::Constant(constant) => {
            let kept = constant_selected(alloc, mask, constant)?;
            Ok(ArrayRef::Constant(kept))
        }
        _ => match filtered_by_runs(alloc, session, mask, array) {
            Some(kept) => kept,
            None => filtered_by_bits(alloc, session, mask, array),
        },
    }
}

// A constant with a row for each row at which the mask is true.
#[tactic(auto, using(crate::proofs::ConstantFilters::type_refused, crate::proofs::ConstantFilters::counted_refused, crate::proofs::ConstantFilters::counted_done))]
fn constant_selected(
    alloc: Global,
    mask: &ArrayRef<Global>,
    constant: &ConstantArray<Global>,
) -> VortexResult<ConstantArray<Global>>
    ensures kept { IfOk result (λ kept. kept ≡ repeated constant.now (true_rows (rows mask.now))) }
    ensures refused { IsRefusedBy (mask_filter_fault mask.now (Constant constant.now)) result }
{
    let count = true_count(alloc, mask)?;
    if mask.len() != constant.len() {
        return Err(VortexError::MaskLength {
            mask: mask.len(),
            length: constant.len(),
        });
    }
    constant.repeated(alloc, count)
}

// The rows at which the mask is true, by the runs of both columns, where the kernel takes a mask so.
#[tactic(auto, using(crate::proofs::TwoColumns::runs_left))]
fn filtered_by_runs(
    alloc: Global,
    session: &Session,
    mask: &ArrayRef<Global>,
    array: &ArrayRef<Global>,
) -> Option<VortexResult<ArrayRef<Global>>>
    ensures left { IfSome result (λ answer. IfOk answer (λ made.
        HasPlain (filtered_by mask.now array.now) (IsFilteredIn session.now mask.now array.now) made)) }
    ensures refused { IfSome result (λ answer. IsRefusedBy (mask_filter_fault mask.now array.now) answer) }
{
    let mut ctx = context(alloc, session);
    match compute::filter_by_runs(array, mask, &mut ctx)? {
        Ok(kept) => Some(Ok(kept)),
        Err(error) => Some(Err(error)),
    }
}

// The rows at which the mask is true, by a bit for each row.
#[tactic(auto, using(crate::proofs::TwoColumns::mask_refused, crate::proofs::TwoColumns::filter_refused, crate::proofs::TwoColumns::filter_done, crate::proofs::TwoColumns::filter_left))]
fn filtered_by_bits(
    alloc: Global,
    session: &Session,
    mask: &ArrayRef<Global>,
    array: &ArrayRef<Global>,
) -> VortexResult<ArrayRef<Global>>
    ensures left { IfOk result (λ made.
        HasPlain (filtered_by mask.now array.now) (IsFilteredIn session.now mask.now array.now) made) }
    ensures refused { IsRefusedBy (mask_filter_fault mask.now array.now) result }
{
    let selected = mask_of(alloc, mask)?;
    let kept = rows_selected(alloc, session, &selected, array);
    drop(selected);
    let kept = kept?;
    Ok(kept)
}

/// Returns the row at each index, null at a null index, with the column's format. Refused as `TypeMismatch` unless the
/// indices are integers, and then as `OutOfBounds`, with the index and the number of rows, at the first that is
/// negative or not below the number of rows.
pub fn taken(
    alloc: Global,
    session: &Session,
    indices: &ArrayRef<Global>,
    column: &TypedColumn<Global>,
) -> VortexResult<Boxed>
    ensures left { IfOk result (λ made.
        HasPlain (looked_up_by indices.now column.now.array)
        (IsTakenIn session.now indices.now column.now.array) made.value.array) }
    ensures typed { IfOk result (λ made. format_of made.value ≡ format_of column.now) }
    ensures refused { IsRefusedBy (code_look_up_fault indices.now column.now.array) result }
{
    let rows = rows_at(alloc, session, indices, &column.array)?;
    boxed_like(alloc, rows, column)
}

// The row at each index.
#[tactic(auto, using(crate::proofs::TwoColumns::same_codes, crate::proofs::TwoColumns::take_left, crate::proofs::TwoColumns::looked_up_taken))]
fn rows_at(
    alloc: Global,
    session: &Session,
    indices: &ArrayRef<Global>,
    array: &ArrayRef<Global>,
) -> VortexResult<ArrayRef<Global>>
    ensures left { IfOk result (λ made.
        HasPlain (looked_up_by indices.now array.now) (IsTakenIn session.now indices.now array.now) made) }
    ensures refused { IsRefusedBy (code_look_up_fault indices.now array.now) result }
{
    match indices {
        ArrayRef::Primitive(numbers) => {
            let taken = rows_taken(alloc, session, numbers, array)?;
            Ok(taken)
        }
        _ => {
            let taken = rows_of_codes(alloc, session, indices, array)?;
            Ok(taken)
        }
    }
}

/// Returns the dictionary's row for each code, null for null, with the dictionary's format. Refused as `TypeMismatch`
/// unless the codes are integers, and then as `OutOfBounds`, with the code and the dictionary's rows, at the first that
/// is negative or not below the number of rows.
pub fn looked_up(
    alloc: Global,
    session: &Session,
    codes: &ArrayRef<Global>,
    dictionary: &TypedColumn<Global>,
) -> VortexResult<Boxed>
    ensures left { IfOk result (λ made.
        HasPlain (looked_up_by codes.now dictionary.now.array)
        (IsLookedUpIn session.now codes.now dictionary.now.array) made.value.array) }
    ensures typed { IfOk result (λ made. format_of made.value ≡ format_of dictionary.now) }
    ensures refused { IsRefusedBy (code_look_up_fault codes.now dictionary.now.array) result }
{
    let rows = rows_of_codes(alloc, session, codes, &dictionary.array)?;
    boxed_like(alloc, rows, dictionary)
}

// The dictionary's row for each code.
#[tactic(auto, using(crate::proofs::TwoColumns::look_up_left))]
fn rows_of_codes(
    alloc: Global,
    session: &Session,
    codes: &ArrayRef<Global>,
    dictionary: &ArrayRef<Global>,
) -> VortexResult<ArrayRef<Global>>
    ensures left { IfOk result (λ made.
        HasPlain (looked_up_by codes.now dictionary.now)
        (IsLookedUpIn session.now codes.now dictionary.now) made) }
    ensures refused { IsRefusedBy (code_look_up_fault codes.now dictionary.now) result }
{
    let mut ctx = context(alloc, session);
    let taken = compute::take_from(codes, dictionary, &mut ctx)?;
    Ok(taken)
}

/// Returns whether the operator holds of each row and the row of `right` at the same place, null where either is null.
/// Refused as `Unsupported` for lists, then as `TypeMismatch` for two kinds, then as `ColumnLength` for two numbers of
/// rows.
#[tactic(auto, using(crate::proofs::TwoColumns::compare_left))]
pub fn compared(
    alloc: Global,
    session: &Session,
    array: &ArrayRef<Global>,
    operator: CompareOperator,
    right: &ArrayRef<Global>,
) -> VortexResult<Boxed>
    ensures left { IfOk result (λ made.
        HasPlain (compared_by operator array.now right.now)
        (IsComparedIn operator session.now array.now right.now) made.value.array) }
    ensures untyped { IfOk result (λ made. format_of made.value ≡ []) }
    ensures refused { IsRefusedBy (beside_fault array.now right.now) result }
{
    let mut ctx = context(alloc, session);
    let truths = compute::compare(array, operator, right, &mut ctx)?;
    boxed(alloc, truths)
}

// The rows at which the bits of the mask are true. Refused as `MaskLength` where it has not a bit for each row.
#[tactic(auto, using(crate::proofs::Left::left_filtered))]
fn rows_selected(
    alloc: Global,
    session: &Session,
    selected: &Mask<Global>,
    array: &ArrayRef<Global>,
) -> VortexResult<ArrayRef<Global>>
    ensures left { IfOk result (λ made. Leaves session.now (Filter selected.now) array.now made) }
    ensures refused { IsRefusedBy (filter_fault (length (mask_bits selected.now)) (length (rows array.now))) result }
{
    let mut ctx = context(alloc, session);
    let kept = compute::filter(array, selected, &mut ctx)?;
    Ok(kept)
}

// The rows at indices that lie flat. Refused as `OutOfBounds` at the first that is negative or of no row.
#[tactic(auto, using(crate::proofs::Left::left_taken))]
fn rows_taken(
    alloc: Global,
    session: &Session,
    numbers: &PrimitiveArray<Global>,
    array: &ArrayRef<Global>,
) -> VortexResult<ArrayRef<Global>>
    ensures left { IfOk result (λ made. Leaves session.now (Take numbers.now) array.now made) }
    ensures refused { IsRefusedBy (take_fault (optional_numbers numbers.now) (length (rows array.now))) result }
{
    let mut ctx = context(alloc, session);
    let taken = compute::take(array, numbers, &mut ctx)?;
    Ok(taken)
}
