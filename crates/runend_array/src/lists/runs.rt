//! Offsets, sizes and validity of lists, in runs.
ghost use Rattle.std.specs.Prelude.{◌≡◌, ◌+◌, ◌<◌, length, IfOk, IsOkUnless};
ghost use Rattle.column_core.specs.PrimitiveForm.{primitive_dtype};
ghost use Rattle.runend_array.specs.Array.{IsRowValidity, column_of, validity_of};
ghost use Rattle.runend_windows.specs.Ends.{IsEndsType, ends_of};
ghost use Rattle.runend_array.specs.Column.{IsIndex, index_of};
ghost use Rattle.runend_array.specs.ListRuns.{IsValidityInRuns};
ghost use Rattle.runend_array.specs.Lists.{ByRuns, HasRows, RunIndex, index_count, index_numbers};
ghost use Rattle.runend_windows.specs.Window.{IsWindow};

use crate::array::RunEnd;
use crate::array_ref::ArrayRef;
use crate::lists::index::index_len;
use crate::lists::slice::{flags_between, numbers_between};
use crate::validities::RowValidity;
use column_core::{
    BitBuffer, BoolArray, PrimitiveArray, PrimitiveValues, Validity, VortexError, VortexResult,
};
use std::alloc::Allocator;

/// Returns an index in runs: a run column over these numbers, with these ends and this window. Refused only as
/// `OutOfMemory`.
pub(crate) fn index_in_runs<A: Allocator + Copy>(
    alloc: A,
    ends: &PrimitiveArray<A>,
    index: &ArrayRef<A>,
    offset: usize,
    count: usize,
) -> VortexResult<ArrayRef<A>>
    requires plain { IsEndsType (primitive_dtype ends.now) }
    requires window { IsWindow (ends_of ends.now) offset count }
    requires index { IsIndex (column_of index.now) }
    requires paired { index_count (index_of (column_of index.now)) ≡ length ends.now.numbers }
    ensures only { IsOkUnless result VortexError.OutOfMemory }
    ensures index { IfOk result (λ runs. IsIndex (column_of runs)) }
    ensures form { IfOk result (λ runs. index_of (column_of runs) ≡
        RunIndex ends.now.ptype (ends_of ends.now) (index_numbers (index_of (column_of index.now))) offset count) }
{
    let numbers = PrimitiveValues::U64(numbers_between(alloc, index, 0, index_len(index))?);
    let numbers = PrimitiveArray::new_unchecked(numbers, Validity::NonNullable);
    let ends = match ends.try_clone(alloc) {
        Ok(ends) => ends,
        Err(error) => {
            drop(numbers);
            return Err(error);
        }
    };
    let runs = RunEnd::new_unchecked(
        ArrayRef::Primitive(ends),
        ArrayRef::Primitive(numbers),
        offset,
        count,
    );
    let index = ArrayRef::of_runs(alloc, runs)?;
    Ok(index)
}

// The validity that runs of these flags give.
fn flags_in_runs<A: Allocator + Copy>(
    alloc: A,
    ends: &PrimitiveArray<A>,
    flags: BitBuffer<A>,
    offset: usize,
    count: usize,
) -> VortexResult<RowValidity<A>>
    requires plain { IsEndsType (primitive_dtype ends.now) }
    requires window { IsWindow (ends_of ends.now) offset count }
    requires paired { length flags ≡ length ends.now.numbers }
    ensures only { IsOkUnless result VortexError.OutOfMemory }
    ensures plain { IfOk result (λ rows. IsRowValidity rows) }
    ensures form { IfOk result (λ rows. validity_of rows ≡
        ByRuns ends.now.ptype (ends_of ends.now) flags offset count) }
{
    let values = BoolArray::new_unchecked(flags, Validity::NonNullable);
    let ends = match ends.try_clone(alloc) {
        Ok(ends) => ends,
        Err(error) => {
            drop(values);
            return Err(error);
        }
    };
    let runs = RunEnd::new_unchecked(
        ArrayRef::Primitive(ends),
        ArrayRef::Bool(values),
        offset,
        count,
    );
    let boxed = Box::new(alloc, runs)?;
    Ok(RowValidity::Runs(boxed))
}

/// Returns the validity of the rows that runs show in a window: the validity itself where it serves any number of rows,
/// else runs with these ends and this window. Refused only as `OutOfMemory`.
pub(crate) fn run_validity_of_lists<A: Allocator + Copy>(
    alloc: A,
    ends: &PrimitiveArray<A>,
    validity: &RowValidity<A>,
    offset: usize,
    count: usize,
) -> VortexResult<RowValidity<A>>
    requires plain { IsEndsType (primitive_dtype ends.now) }
    requires window { IsWindow (ends_of ends.now) offset count }
    requires validity { IsRowValidity validity.now }
    requires counted { HasRows (validity_of validity.now) (length ends.now.numbers) }
    ensures only { IsOkUnless result VortexError.OutOfMemory }
    ensures plain { IfOk result (λ rows. IsRowValidity rows) }
    ensures form { IfOk result (λ rows. IsValidityInRuns ends.now.ptype (ends_of ends.now) (validity_of validity.now)
        (length ends.now.numbers) offset count (validity_of rows)) }
{
    match validity {
        RowValidity::NonNullable => Ok(RowValidity::NonNullable),
        RowValidity::AllValid => Ok(RowValidity::AllValid),
        RowValidity::AllInvalid => Ok(RowValidity::AllInvalid),
        _ => {
            let runs = ends.len();
            let flags = flags_between(alloc, validity, runs, 0, runs)?;
            flags_in_runs(alloc, ends, flags, offset, count)
        }
    }
}
