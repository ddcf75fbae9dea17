//! The runs in which a mask selects rows, as run columns: in minimal form if the rows are integers.
ghost use Rattle.std.specs.Prelude.{◌≡◌, true, IfOk, IsOkUnless, count_by, length, replicate};
ghost use Rattle.column_core.specs.Computed.{IsComputed};
ghost use Rattle.column_core.specs.Kinds.{is_numbers};
ghost use Rattle.column_core.specs.Leaf.{OfNumbers, single_rows};
ghost use Rattle.column_core.specs.Optionals.{optionals};
ghost use Rattle.column_core.specs.PrimitiveForm.{primitive_dtype};
ghost use Rattle.column_ops.specs.Filter.{filter_rows};
ghost use Rattle.column_ops.specs.Take.{ArePositions, position_numbers, take_rows};
ghost use Rattle.runend_array.specs.Array.{column_of, dtype_of, rows};
ghost use Rattle.runend_array.specs.Column.{AreParts, AreRuns, IsFlat, OfLeaf, column_dtype, column_of_runs, column_rows, runs_of};
ghost use Rattle.runend_windows.specs.Ends.{IsEndsType, ends_of};
ghost use Rattle.runend_windows.specs.Window.{run_rows};
ghost use Rattle.runend_encode.specs.Joined.{AllHaveRows};
ghost use Rattle.runend_column.specs.Computed.{IsComputedAs};
ghost use Rattle.runend_select.specs.FilterForm.{AreLeftRuns, AreSelectedRuns};
ghost use Rattle.runend_column.specs.MinimalForm.{AreMinimalRuns, IsMinimalForm};
ghost use Rattle.runend_column.specs.VisibleForm.{visible_values as values_of_visible};

use crate::filtered_ends::filter_ends;
use crate::ranked::Ranked;
use column_core::{Mask, PrimitiveArray, Validity, VortexError, VortexResult, is_number_type};
use runend_array::{ArrayRef, RunEnd, RunEndArray, RunEndArrayExt, RunEndArraySlotsExt, array_of};
use runend_column::{minimal_runs, selected_by, take_values, visible_values, with_minimal_runs};
use std::alloc::Allocator;

/// Returns the runs with one of the `count` selected rows, in minimal form if the rows are integers, else as they are.
/// Refused only as `OutOfMemory`.
pub(crate) fn selected_runs<S: Ranked, A: Allocator + Copy>(
    alloc: A,
    array: &RunEndArray<A>,
    selected: &mut S,
    count: usize,
) -> VortexResult<RunEndArray<A>>
    requires masked { length (S.bits selected.old) ≡ array.now.count }
    requires ranked { S.is_ranked selected.old }
    requires first { S.passed selected.old ≡ 0 }
    requires counted { count ≡ count_by (λ bit. bit) (S.bits selected.old) }
    ensures only { IsOkUnless result VortexError.OutOfMemory }
    ensures rows { IfOk result (λ kept. column_rows (column_of_runs kept) ≡
        filter_rows (S.bits selected.old) (column_rows (column_of_runs array.now))) }
    ensures dtype { IfOk result (λ kept. column_dtype kept.values ≡ column_dtype array.now.values) }
    ensures form { IfOk result (λ kept. AreLeftRuns (is_numbers (column_dtype array.now.values)) array.now
        (S.bits selected.old) kept) }
{
    if is_number_type(array.dtype()) {
        return least_kept(alloc, array, selected, count);
    }
    kept_column(alloc, array, selected, count)
}

/// Returns all rows of a column of integers, in minimal form. Refused only as `OutOfMemory`.
pub(crate) fn minimal_column<A: Allocator + Copy>(
    alloc: A,
    array: &RunEndArray<A>,
) -> VortexResult<ArrayRef<A>>
    requires numbers { is_numbers (column_dtype array.now.values) ≡ true }
    ensures only { IsOkUnless result VortexError.OutOfMemory }
    ensures rows { IfOk result (λ least. rows least ≡ column_rows (column_of_runs array.now)) }
    ensures dtype { IfOk result (λ least. dtype_of least ≡ column_dtype array.now.values) }
    ensures form { IfOk result (λ least. IsMinimalForm array.now.ends_type (column_of least)) }
{
    let numbers = visible_numbers(alloc, array)?;
    with_minimal_runs(alloc, array, numbers)
}

// The values at these places, as a column.
fn values_at<A: Allocator + Copy>(
    alloc: A,
    values: &ArrayRef<A>,
    places: &[u64],
) -> VortexResult<ArrayRef<A>>
    requires within { ArePositions (optionals places.now (replicate (length places.now) true))
        (length (rows values.now)) }
    ensures only { IsOkUnless result VortexError.OutOfMemory }
    ensures made { IfOk result (λ taken. IsComputedAs (take_rows (rows values.now) (position_numbers
        (optionals places.now (replicate (length places.now) true)))) (dtype_of values.now) (column_of taken)) }
{
    let taken = take_values(alloc, values, places, &Validity::NonNullable)?;
    taken.into_array(alloc)
}

// The runs with a selected row: their ends among the selected rows, and their values.
fn kept_parts<S: Ranked, A: Allocator + Copy>(
    alloc: A,
    array: &RunEndArray<A>,
    selected: &mut S,
) -> VortexResult<(PrimitiveArray<A>, ArrayRef<A>)>
    requires masked { length (S.bits selected.old) ≡ array.now.count }
    requires ranked { S.is_ranked selected.old }
    requires first { S.passed selected.old ≡ 0 }
    ensures only { IsOkUnless result VortexError.OutOfMemory }
    ensures parts { IfOk result (λ parts. AreParts (OfLeaf (OfNumbers parts.0)) (column_of parts.1) 0 (count_by (λ bit.
        bit) (S.bits selected.old))) }
    ensures rows { IfOk result (λ parts. run_rows (ends_of parts.0) (rows parts.1) 0 (count_by (λ bit. bit)
        (S.bits selected.old)) ≡ filter_rows (S.bits selected.old) (column_rows (column_of_runs array.now))) }
    ensures dtype { IfOk result (λ parts. dtype_of parts.1 ≡ column_dtype array.now.values) }
    ensures form { IfOk result (λ parts. AreSelectedRuns array.now (S.bits selected.old)
        (runs_of (OfLeaf (OfNumbers parts.0)) (column_of parts.1) 0 (count_by (λ bit. bit)
        (S.bits selected.old)))) }
    ensures filled { IfOk result (λ parts. AllHaveRows (ends_of parts.0) 0 (count_by (λ bit. bit)
        (S.bits selected.old))) }
{
    let ends = match array.ends() {
        ArrayRef::Primitive(plain) => plain.values(),
        _ => unreachable!(),
    };
    let (kept_ends, places) = filter_ends(alloc, ends, array.offset(), array.len(), selected)?;
    let values = values_at(alloc, array.values(), places.as_slice());
    drop(places);
    match values {
        Ok(values) => Ok((kept_ends, values)),
        Err(error) => {
            drop(kept_ends);
            Err(error)
        }
    }
}

// The runs with a selected row, as they are.
fn kept_column<S: Ranked, A: Allocator + Copy>(
    alloc: A,
    array: &RunEndArray<A>,
    selected: &mut S,
    count: usize,
) -> VortexResult<RunEndArray<A>>
    requires masked { length (S.bits selected.old) ≡ array.now.count }
    requires ranked { S.is_ranked selected.old }
    requires first { S.passed selected.old ≡ 0 }
    requires counted { count ≡ count_by (λ bit. bit) (S.bits selected.old) }
    ensures only { IsOkUnless result VortexError.OutOfMemory }
    ensures rows { IfOk result (λ kept. column_rows (column_of_runs kept) ≡
        filter_rows (S.bits selected.old) (column_rows (column_of_runs array.now))) }
    ensures dtype { IfOk result (λ kept. column_dtype kept.values ≡ column_dtype array.now.values) }
    ensures form { IfOk result (λ kept. AreSelectedRuns array.now (S.bits selected.old) kept) }
{
    let (ends, values) = kept_parts(alloc, array, selected)?;
    let kept_ends = ArrayRef::Primitive(ends);
    Ok(RunEnd::new_unchecked(kept_ends, values, 0, count))
}

// The numbers of a flat column of integers.
fn numbers_in<A: Allocator + Copy>(values: ArrayRef<A>) -> PrimitiveArray<A>
    requires numbers { is_numbers (dtype_of values) ≡ true }
    requires flat { IsFlat (column_of values) }
    ensures { column_of values ≡ OfLeaf (OfNumbers result) }
{
    match values {
        ArrayRef::Primitive(numbers) => numbers,
        _ => unreachable!(),
    }
}

// The runs of integers with a selected row, in minimal form: two runs that a dropped one separated may be equal now.
fn least_kept<S: Ranked, A: Allocator + Copy>(
    alloc: A,
    array: &RunEndArray<A>,
    selected: &mut S,
    count: usize,
) -> VortexResult<RunEndArray<A>>
    requires masked { length (S.bits selected.old) ≡ array.now.count }
    requires ranked { S.is_ranked selected.old }
    requires first { S.passed selected.old ≡ 0 }
    requires counted { count ≡ count_by (λ bit. bit) (S.bits selected.old) }
    requires numbers { is_numbers (column_dtype array.now.values) ≡ true }
    ensures only { IsOkUnless result VortexError.OutOfMemory }
    ensures rows { IfOk result (λ kept. column_rows (column_of_runs kept) ≡
        filter_rows (S.bits selected.old) (column_rows (column_of_runs array.now))) }
    ensures dtype { IfOk result (λ kept. column_dtype kept.values ≡ column_dtype array.now.values) }
    ensures form { IfOk result (λ kept. AreMinimalRuns array.now.ends_type kept) }
{
    let (ends, values) = kept_parts(alloc, array, selected)?;
    let numbers = numbers_in(values);
    minimal_runs(alloc, ends, numbers, 0, count)
}

// The integers of the visible runs, with 0 under null.
fn visible_numbers<A: Allocator + Copy>(
    alloc: A,
    array: &RunEndArray<A>,
) -> VortexResult<PrimitiveArray<A>>
    requires numbers { is_numbers (column_dtype array.now.values) ≡ true }
    ensures only { IsOkUnless result VortexError.OutOfMemory }
    ensures rows { IfOk result (λ numbers. single_rows (OfNumbers numbers) ≡ values_of_visible array.now) }
    ensures dtype { IfOk result (λ numbers. primitive_dtype numbers ≡ column_dtype array.now.values) }
    ensures computed { IfOk result (λ numbers. IsComputed numbers) }
    ensures valid { AreRuns array.now }
{
    let values = visible_values(alloc, array)?;
    let shown = numbers_in(array_of(values));
    let numbers = selected_by(alloc, &shown, &Mask::AllTrue(shown.len()));
    drop(shown);
    numbers
}
