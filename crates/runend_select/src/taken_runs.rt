//! Rows at indices, found by the runs that they are in.
ghost use Rattle.std.specs.Prelude.{◌≡◌, ◌*◌, ◌<◌, ◌≤◌, ◌↔◌, IfOk, IsOkUnless, IsTrue, count_by, length, map, unsigned_abs};
ghost use Rattle.column_base.specs.Mask.{mask_bits};
ghost use Rattle.column_base.specs.Numbers.{numbers, ptype_of};
ghost use Rattle.column_base.specs.Types.{IsUnsigned, nullability_of, with_nullability as dtype_with};
ghost use Rattle.column_base.specs.ValidityForm.{HasLength, nullability_in};
ghost use Rattle.column_base.specs.Validity.{form_of, validity_flags};
ghost use Rattle.column_ops.specs.Nullable.{either_nullable};
ghost use Rattle.column_ops.specs.Take.{take_rows};
ghost use Rattle.runend_array.specs.Canonical.{canonical_column};
ghost use Rattle.runend_array.specs.Column.{column_dtype, column_of_runs, column_rows};
ghost use Rattle.runend_windows.specs.Window.{IsWindow, typed_ends};
ghost use Rattle.runend_select.specs.Indices.{AreInBounds, AreSorted, optional_indices, masked_indices};
ghost use Rattle.runend_select.specs.RunsOf.{AreRunsOf};
ghost use Rattle.runend_column.specs.Computed.{IsComputedAs};

use crate::linear_scan::physical_indices_linear_sorted;
use crate::positions::physical_indices;
use column_base::match_each_unsigned;
use column_core::{
    CountedEnds, Mask, NativePType, PrimitiveValues, UnsignedPType, Validity, VortexError,
    VortexResult,
};
use runend_array::{
    ArrayRef, Canonical, ExecutionCtx, RunEndArray, RunEndArrayExt, RunEndArraySlotsExt,
};
use runend_column::take_values;
use runend_windows::repeated_items;
use std::alloc::Allocator;

/// Returns the rows at the indices, null for null, in a flat form. `sorted` may say that no valid index is below a
/// valid one before it. Refused only as `OutOfMemory`.
pub(crate) fn taken_rows<T: NativePType, A: Allocator + Copy>(
    array: &RunEndArray<A>,
    indices: &[T],
    validity: &Validity<A>,
    sorted: bool,
    ctx: &mut ExecutionCtx<A>,
) -> VortexResult<Canonical<A>>
    requires fits { HasLength (form_of validity.now) (length indices.now) }
    requires in_bounds { AreInBounds (optional_indices T.number indices.now (validity_flags validity.now
        (length indices.now))) array.now.count }
    requires sorted { IsTrue sorted →
        AreSorted (optional_indices T.number indices.now (validity_flags validity.now (length indices.now))) }
    ensures only { IsOkUnless result VortexError.OutOfMemory }
    ensures made { IfOk result (λ taken. IsComputedAs
        (take_rows (column_rows (column_of_runs array.now)) (optional_indices T.number indices.now
        (validity_flags validity.now (length indices.now))))
        (dtype_with (column_dtype array.now.values) (either_nullable (nullability_of (column_dtype array.now.values))
        (nullability_in (form_of validity.now))))
        (canonical_column taken)) }
    ensures session { ctx.new ≡ ctx.old }
{
    let alloc = *ctx.allocator();
    let runs = runs_of_indices(array, indices, validity, sorted, ctx)?;
    let taken = take_values(alloc, array.values(), runs.as_slice(), validity);
    drop(runs);
    taken
}

// Which of `count` indices are valid.
fn mask_of<A: Allocator + Copy>(
    alloc: A,
    validity: &Validity<A>,
    count: usize,
) -> VortexResult<Mask<A>>
    requires { HasLength (form_of validity.now) count }
    ensures only { IsOkUnless result VortexError.OutOfMemory }
    ensures bits { IfOk result (λ mask. mask_bits mask ≡ validity_flags validity.now count) }
{
    match validity {
        Validity::NonNullable => Ok(Mask::AllTrue(count)),
        Validity::AllValid => Ok(Mask::AllTrue(count)),
        Validity::AllInvalid => Ok(Mask::AllFalse(count)),
        Validity::Bits(bits) => {
            let bits = bits.try_clone(alloc)?;
            Ok(Mask::Values(bits))
        }
    }
}

// Does the session merge sorted indices with this number of runs? Then they need not be looked at again.
fn merges_sorted<A: Allocator + Copy>(runs: usize, mask: &Mask<A>, ctx: &ExecutionCtx<A>) -> bool
    ensures { IsTrue result
        ↔ (runs ≤ count_by (λ bit. bit) (mask_bits mask.now) * ctx.now.thresholds.sorted_runs_per_index) }
{
    let per_index = ctx.session().thresholds().sorted_runs_per_index;
    runs <= mask.true_count().saturating_mul(per_index)
}

// The run of each valid index among `count` rows from position `offset` on.
fn runs_by<E: UnsignedPType, T: NativePType, A: Allocator + Copy>(
    ends: &[E],
    offset: usize,
    count: usize,
    indices: &[T],
    mask: &Mask<A>,
    sorted: bool,
    ctx: &mut ExecutionCtx<A>,
) -> VortexResult<Vec<u64, A>>
    requires window { IsWindow (typed_ends E.number ends.now) offset count }
    requires some { 0 < count }
    requires masked { length (mask_bits mask.now) ≡ length indices.now }
    requires in_bounds { AreInBounds (masked_indices T.number indices.now mask.now) count }
    requires sorted { IsTrue sorted → AreSorted (masked_indices T.number indices.now mask.now) }
    ensures only { IsOkUnless result VortexError.OutOfMemory }
    ensures runs { IfOk result (λ runs. AreRunsOf (typed_ends E.number ends.now) offset
        (masked_indices T.number indices.now mask.now) runs.items) }
    ensures session { ctx.new ≡ ctx.old }
{
    let mut counted = CountedEnds::new(ends);
    if sorted && merges_sorted(ends.len(), mask, ctx) {
        let alloc = *ctx.allocator();
        return physical_indices_linear_sorted(alloc, &mut counted, offset, indices, mask);
    }
    physical_indices(&mut counted, offset, count, indices, mask, ctx)
}

// The run of each valid index among `count` rows from position `offset` on, for the ends of a buffer.
fn runs_among<T: NativePType, A: Allocator + Copy>(
    ends: &PrimitiveValues<A>,
    offset: usize,
    count: usize,
    indices: &[T],
    mask: &Mask<A>,
    sorted: bool,
    ctx: &mut ExecutionCtx<A>,
) -> VortexResult<Vec<u64, A>>
    requires unsigned { IsUnsigned (ptype_of ends.now) }
    requires window { IsWindow (map unsigned_abs (numbers ends.now)) offset count }
    requires some { 0 < count }
    requires masked { length (mask_bits mask.now) ≡ length indices.now }
    requires in_bounds { AreInBounds (masked_indices T.number indices.now mask.now) count }
    requires sorted { IsTrue sorted → AreSorted (masked_indices T.number indices.now mask.now) }
    ensures only { IsOkUnless result VortexError.OutOfMemory }
    ensures runs { IfOk result (λ runs. AreRunsOf (map unsigned_abs (numbers ends.now)) offset
        (masked_indices T.number indices.now mask.now) runs.items) }
    ensures session { ctx.new ≡ ctx.old }
{
    match_each_unsigned!(ends, items => runs_by(items.as_slice(), offset, count, indices, mask, sorted, ctx))
}

// The run of each valid index.
fn runs_of_indices<T: NativePType, A: Allocator + Copy>(
    array: &RunEndArray<A>,
    indices: &[T],
    validity: &Validity<A>,
    sorted: bool,
    ctx: &mut ExecutionCtx<A>,
) -> VortexResult<Vec<u64, A>>
    requires fits { HasLength (form_of validity.now) (length indices.now) }
    requires in_bounds { AreInBounds (optional_indices T.number indices.now (validity_flags validity.now
        (length indices.now))) array.now.count }
    requires sorted { IsTrue sorted →
        AreSorted (optional_indices T.number indices.now (validity_flags validity.now (length indices.now))) }
    ensures only { IsOkUnless result VortexError.OutOfMemory }
    ensures runs { IfOk result (λ runs. AreRunsOf array.now.ends array.now.offset (optional_indices T.number indices.now
        (validity_flags validity.now (length indices.now))) runs.items) }
    ensures session { ctx.new ≡ ctx.old }
{
    let alloc = *ctx.allocator();
    if array.is_empty() {
        // No index is valid.
        return repeated_items(alloc, 0, indices.len());
    }
    let mask = mask_of(alloc, validity, indices.len())?;
    let ends = match array.ends() {
        ArrayRef::Primitive(plain) => plain.values(),
        _ => unreachable!(),
    };
    let runs = runs_among(
        ends,
        array.offset(),
        array.len(),
        indices,
        &mask,
        sorted,
        ctx,
    );
    drop(mask);
    runs
}
