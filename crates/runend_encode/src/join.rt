//! Runs of flat columns of integers, joined where neighbours are equal.
ghost use Rattle.std.specs.Prelude.{◌≡◌, ◌≢◌, ◌-◌, pos, true, All, IfOk, IsOkUnless, IsTrue, length, map, min, replicate};
ghost use Rattle.std.specs.List.{AllAdjacentBelow};
ghost use Rattle.column_base.specs.declared.dtype.Nullability.TheVariants.{NonNullable};
ghost use Rattle.column_base.specs.declared.dtype.DType.TheVariants as column;
ghost use Rattle.column_base.specs.Types.{HasNumber};
ghost use Rattle.column_base.specs.ValidityForm.{HasLength, NeverNull, flags};
ghost use Rattle.column_base.specs.Validity.{form_of, validity_flags};
ghost use Rattle.column_core.specs.Computed.{IsComputed};
ghost use Rattle.column_core.specs.PrimitiveForm.{AreZeroAtNulls, optional_numbers, optionals, primitive_dtype, primitive_with};
ghost use Rattle.runend_windows.specs.Cover.{IsTightCover};
ghost use Rattle.runend_windows.specs.Ends.{IsEndsType, ends_of};
ghost use Rattle.runend_windows.specs.Window.{run_rows, IsWindow, typed_ends};
ghost use Rattle.runend_encode.specs.Joined.{AreJoined, AllHaveRows};

use crate::joined::{JoinedRuns, differ_in, join_nullable, valid_runs};
use crate::shifted::{EndsType, shift_ends};
use column_base::{match_each_native, match_each_unsigned};
use column_core::{
    BitBufferMut, NativePType, PrimitiveArray, PrimitiveValues, UnsignedPType, Validity,
    VortexError, VortexResult,
};
use runend_windows::{last_end_of, validity_with};
use std::alloc::Allocator;

/// Returns the ends and the values of the runs that show the same rows, `count` of them from position `offset` on, in
/// minimal form: no two neighbours show the same number or null both, each run ends past the one before it, the last
/// one at `count`, and the ends count rows from the first. Ends and values keep their types; the number under a null is
/// 0. Each run has to show a row, so hidden runs are dropped before.
///
/// Where no neighbours show the same, the values are returned as they are, and so are the ends where they are counted
/// from the first row. Other ends are moved in their own memory, or in a copy where something else shares it. Else each
/// run is looked at once more. Refused only as `OutOfMemory`.
pub fn coalesce_runs<A: Allocator + Copy>(
    alloc: A,
    ends: PrimitiveArray<A>,
    values: PrimitiveArray<A>,
    offset: usize,
    count: usize,
) -> VortexResult<(PrimitiveArray<A>, PrimitiveArray<A>)>
    requires plain { IsEndsType (primitive_dtype ends) }
    requires window { IsWindow (ends_of ends) offset count }
    requires paired { length values.numbers ≡ length ends.numbers }
    requires shown { AllHaveRows (ends_of ends) offset count }
    requires computed { IsComputed values }
    ensures only { IsOkUnless result VortexError.OutOfMemory }
    ensures joined { IfOk result (λ parts. AreJoined ends values offset count parts.0 parts.1) }
{
    if all_differ(&values) {
        let ends = ends_in_window(alloc, ends, offset, count)?;
        return Ok((ends, values));
    }
    let joined = join_parts(alloc, &ends, &values, offset, count);
    drop(ends);
    drop(values);
    joined
}

// The ends of runs, each of which shows a row, counted from the first row of the window: unchanged where they are
// counted so already, else in their own memory where nothing else shares it, and else in a copy.
fn ends_in_window<A: Allocator + Copy>(
    alloc: A,
    ends: PrimitiveArray<A>,
    offset: usize,
    count: usize,
) -> VortexResult<PrimitiveArray<A>>
    requires plain { IsEndsType (primitive_dtype ends) }
    requires window { IsWindow (ends_of ends) offset count }
    requires shown { AllHaveRows (ends_of ends) offset count }
    ensures only { IsOkUnless result VortexError.OutOfMemory }
    ensures ends { IfOk result (λ moved. ends_of moved ≡ map (λ end. min (end - offset) count) (ends_of ends)) }
    ensures dtype { IfOk result (λ moved. primitive_dtype moved ≡ primitive_dtype ends) }
{
    if offset == 0 && last_end_of(&ends) == count {
        // They are counted so.
        return Ok(ends);
    }
    let (stored, _) = ends.into_parts();
    match_each_unsigned!(stored, items => {
        let items = items.into_vec(alloc)?;
        Ok(stored_in_window(items, offset, count))
    })
}

// The ends of runs, counted from the first row of the window, of ends as they are stored.
fn stored_in_window<E: EndsType, A: Allocator + Copy>(
    mut ends: Vec<E, A>,
    offset: usize,
    count: usize,
) -> PrimitiveArray<A>
    requires window { IsWindow (typed_ends E.number ends.items) offset count }
    requires shown { AllHaveRows (typed_ends E.number ends.items) offset count }
    ensures ends { ends_of result ≡ map (λ end. min (end - offset) count) (typed_ends E.number ends.items) }
    ensures dtype { primitive_dtype result ≡ column.Primitive E.PTYPE NonNullable }
{
    shift_ends(&mut ends, offset, count);
    PrimitiveArray::new_unchecked(E::wrap(ends), Validity::NonNullable)
}

// Does each run show another value than the one before it?
fn all_differ<A: Allocator>(values: &PrimitiveArray<A>) -> bool
    requires { IsComputed values.now }
    ensures differ { IsTrue result → AllAdjacentBelow (λ x y. x ≢
        y) (optional_numbers values.now) (length values.now.numbers) }
    ensures counted { HasLength values.now.validity (length values.now.numbers) }
{
    let validity = values.validity();
    match_each_native!(values.values(), items => differ_in(items.as_slice(), validity))
}

// The joined runs, with ends of any unsigned type.
fn join_parts<A: Allocator + Copy>(
    alloc: A,
    ends: &PrimitiveArray<A>,
    values: &PrimitiveArray<A>,
    offset: usize,
    count: usize,
) -> VortexResult<(PrimitiveArray<A>, PrimitiveArray<A>)>
    requires plain { IsEndsType (primitive_dtype ends.now) }
    requires window { IsWindow (ends_of ends.now) offset count }
    requires paired { length values.now.numbers ≡ length ends.now.numbers }
    requires shown { AllHaveRows (ends_of ends.now) offset count }
    requires computed { IsComputed values.now }
    ensures only { IsOkUnless result VortexError.OutOfMemory }
    ensures joined { IfOk result (λ parts. AreJoined ends.now values.now offset count parts.0 parts.1) }
{
    match_each_unsigned!(ends.values(), items => {
        let stored = items.as_slice();
        join_values(alloc, stored, values, offset, count)
    })
}

// The joined runs, over ends as they are stored, with values of any type.
fn join_values<E: UnsignedPType, A: Allocator + Copy>(
    alloc: A,
    ends: &[E],
    values: &PrimitiveArray<A>,
    offset: usize,
    count: usize,
) -> VortexResult<(PrimitiveArray<A>, PrimitiveArray<A>)>
    requires fits { All (λ end. HasNumber E.PTYPE (E.number end)) ends.now }
    requires window { IsWindow (typed_ends E.number ends.now) offset count }
    requires paired { length values.now.numbers ≡ length ends.now }
    requires shown { AllHaveRows (typed_ends E.number ends.now) offset count }
    requires computed { IsComputed values.now }
    ensures only { IsOkUnless result VortexError.OutOfMemory }
    ensures joined { IfOk result (λ parts. AreJoined (primitive_with E.PTYPE (map E.number ends.now) NeverNull)
        values.now offset count parts.0 parts.1) }
{
    let validity = values.validity();
    match_each_native!(values.values(), items => join_as(alloc, ends, items.as_slice(), validity, offset, count))
}

// The joined runs, over ends and values as they are stored.
fn join_as<E: UnsignedPType, T: NativePType, A: Allocator + Copy>(
    alloc: A,
    ends: &[E],
    items: &[T],
    validity: &Validity<A>,
    offset: usize,
    count: usize,
) -> VortexResult<(PrimitiveArray<A>, PrimitiveArray<A>)>
    requires fits { All (λ end. HasNumber E.PTYPE (E.number end)) ends.now }
    requires window { IsWindow (typed_ends E.number ends.now) offset count }
    requires paired { length items.now ≡ length ends.now }
    requires shown { AllHaveRows (typed_ends E.number ends.now) offset count }
    requires counted { HasLength (form_of validity.now) (length items.now) }
    requires zeroed { AreZeroAtNulls (map T.number items.now) (validity_flags validity.now (length items.now)) }
    ensures only { IsOkUnless result VortexError.OutOfMemory }
    ensures joined { IfOk result (λ parts. AreJoined (primitive_with E.PTYPE (map E.number ends.now) NeverNull)
        (primitive_with T.PTYPE (map T.number items.now) (form_of validity.now)) offset count parts.0 parts.1) }
{
    let JoinedRuns {
        ends: joined_ends,
        values,
        flags,
    } = join_items(alloc, ends, items, validity, offset, count)?;
    let joined_validity = validity_with(validity.nullability(), flags.freeze());
    Ok((
        PrimitiveArray::new_unchecked(E::wrap(joined_ends), Validity::NonNullable),
        PrimitiveArray::new_unchecked(T::wrap(values), joined_validity),
    ))
}

// The runs that are left, each closed.
fn join_items<E: UnsignedPType, T: NativePType, A: Allocator + Copy>(
    alloc: A,
    ends: &[E],
    items: &[T],
    validity: &Validity<A>,
    offset: usize,
    count: usize,
) -> VortexResult<JoinedRuns<E, T, A>>
    requires fits { All (λ end. HasNumber E.PTYPE (E.number end)) ends.now }
    requires window { IsWindow (typed_ends E.number ends.now) offset count }
    requires paired { length items.now ≡ length ends.now }
    requires shown { AllHaveRows (typed_ends E.number ends.now) offset count }
    requires counted { HasLength (form_of validity.now) (length items.now) }
    requires zeroed { AreZeroAtNulls (map T.number items.now) (validity_flags validity.now (length items.now)) }
    ensures only { IsOkUnless result VortexError.OutOfMemory }
    ensures cover { IfOk result (λ runs. IsTightCover
        (run_rows (typed_ends E.number ends.now) (optionals (map T.number items.now)
        (validity_flags validity.now (length items.now))) offset count)
        (typed_ends E.number runs.ends.items) (optionals (map T.number runs.values.items) runs.flags)) }
    ensures paired { IfOk result (λ runs. length runs.flags ≡ length runs.values.items) }
    ensures zeroed { IfOk result (λ runs. AreZeroAtNulls (map T.number runs.values.items) runs.flags) }
    ensures never { form_of validity.now ≡ NeverNull → IfOk result (λ runs. All (λ flag. flag ≡ true) runs.flags) }
{
    match validity {
        Validity::NonNullable => join_valid(alloc, ends, items, offset, count),
        Validity::AllValid => join_valid(alloc, ends, items, offset, count),
        Validity::AllInvalid => join_nullable(alloc, ends, items, validity, offset, count),
        Validity::Bits(_) => join_nullable(alloc, ends, items, validity, offset, count),
    }
}

// The runs that are left, where none is null. Their flags need no look at a run.
fn join_valid<E: UnsignedPType, T: NativePType, A: Allocator + Copy>(
    alloc: A,
    ends: &[E],
    items: &[T],
    offset: usize,
    count: usize,
) -> VortexResult<JoinedRuns<E, T, A>>
    requires fits { All (λ end. HasNumber E.PTYPE (E.number end)) ends.now }
    requires window { IsWindow (typed_ends E.number ends.now) offset count }
    requires paired { length items.now ≡ length ends.now }
    requires shown { AllHaveRows (typed_ends E.number ends.now) offset count }
    ensures only { IsOkUnless result VortexError.OutOfMemory }
    ensures cover { IfOk result (λ runs. IsTightCover
        (run_rows (typed_ends E.number ends.now) (optionals (map T.number items.now)
        (replicate (length items.now) true)) offset count)
        (typed_ends E.number runs.ends.items) (optionals (map T.number runs.values.items) runs.flags)) }
    ensures paired { IfOk result (λ runs. length runs.flags ≡ length runs.values.items) }
    ensures zeroed { IfOk result (λ runs. AreZeroAtNulls (map T.number runs.values.items) runs.flags) }
    ensures valid { IfOk result (λ runs. All (λ flag. flag ≡ true) runs.flags) }
{
    let (ends, values) = valid_runs(alloc, ends, items, offset, count)?;
    let flags = BitBufferMut::full(alloc, true, values.len())?;
    Ok(JoinedRuns {
        ends,
        values,
        flags,
    })
}
