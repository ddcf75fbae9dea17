//! The encoder: it finds where runs end, 64 rows at a time, and then takes what each run shows from its first row.
ghost use Rattle.std.specs.Prelude.{◌≡◌, ◌<◌, ◌++◌, ◌↔◌, true, [], ◌∷◌, All, IfOk, None, OnOk, IsOkUnless, IsTrue, Some, is_some, length, map, option_map, replicate, slice_get};
ghost use Rattle.column_base.specs.Bits.{set_indices_of};
ghost use Rattle.column_base.specs.declared.dtype.Nullability.TheVariants.{NonNullable};
ghost use Rattle.column_base.specs.ValidityForm.{NeverNull, HasLength, IsNormal, flags, nullability_in};
ghost use Rattle.column_base.specs.Validity.{form_of, validity_flags};
ghost use Rattle.column_core.specs.Computed.{HasRowIfAllNull};
ghost use Rattle.column_core.specs.PrimitiveForm.{AreZeroAtNulls, optionals, primitive_with};
ghost use Rattle.runend_windows.specs.Cover.{IsTightCover};
ghost use Rattle.runend_windows.specs.Encoding.{IsAllInvalid, IsFlatEncoding};
ghost use Rattle.runend_windows.specs.Starts.{items_at, starts_from};

use crate::changes::changes_of;
use crate::narrow::narrowed;
use crate::shown::shown_at;
use column_base::match_each_native;
use column_core::{
    BitBuffer, BitBufferMut, NativePType, Nullability, PrimitiveArray, PrimitiveValues, Validity,
    VortexError, VortexResult,
};
use std::alloc::Allocator;

/// Returns the ends and the values of the runs, both flat. Refused only as `OutOfMemory`.
pub fn encode_plain<A: Allocator + Copy>(
    alloc: A,
    array: &PrimitiveArray<A>,
) -> VortexResult<(PrimitiveArray<A>, PrimitiveArray<A>)>
    ensures only { IsOkUnless result VortexError.OutOfMemory }
    ensures encoding { IfOk result (λ parts. IsFlatEncoding array.now parts.0 parts.1) }
{
    let validity = array.validity();
    match_each_native!(array.values(), items => encode_as(alloc, items.as_slice(), validity))
}

/// Returns whether there is a row, and the form of the validity says that all rows are null.
pub fn is_all_null<A: Allocator>(array: &PrimitiveArray<A>) -> bool
    ensures { IsTrue result ↔ IsAllInvalid array.now }
{
    match array.validity() {
        Validity::AllInvalid => !array.is_empty(),
        _ => false,
    }
}

/// Returns the validity of rows with these flags, of a type with that nullability.
pub fn validity_with<A: Allocator>(nullability: Nullability, bits: BitBuffer<A>) -> Validity<A>
    requires { nullability ≡ NonNullable → All (λ flag. flag ≡ true) bits }
    ensures flags { validity_flags result (length bits) ≡ bits }
    ensures fits { HasLength (form_of result) (length bits) }
    ensures normal { IsNormal (form_of result) }
    ensures nullability { nullability_in (form_of result) ≡ nullability }
    ensures some { HasRowIfAllNull (form_of result) (length bits) }
{
    match nullability {
        Nullability::NonNullable => Validity::NonNullable,
        Nullability::Nullable => Validity::from_bits(bits),
    }
}

fn encode_as<T: NativePType, A: Allocator + Copy>(
    alloc: A,
    items: &[T],
    validity: &Validity<A>,
) -> VortexResult<(PrimitiveArray<A>, PrimitiveArray<A>)>
    requires { HasLength (form_of validity.now) (length items.now) }
    ensures only { IsOkUnless result VortexError.OutOfMemory }
    ensures encoding { IfOk result (λ parts. IsFlatEncoding
        (primitive_with T.PTYPE (map T.number items.now) (form_of validity.now)) parts.0 parts.1) }
{
    let Encoder {
        ends,
        values,
        flags,
    } = encode_items(alloc, items, validity)?;
    let ends = narrowed(alloc, ends.as_slice())?;
    let validity = validity_with(validity.nullability(), flags.freeze());
    Ok((
        PrimitiveArray::new_unchecked(ends, Validity::NonNullable),
        PrimitiveArray::new_unchecked(T::wrap(values), validity),
    ))
}

// The runs of the rows.
fn encode_items<T: NativePType, A: Allocator + Copy>(
    alloc: A,
    items: &[T],
    validity: &Validity<A>,
) -> VortexResult<Encoder<T, A>>
    requires { HasLength (form_of validity.now) (length items.now) }
    ensures only { IsOkUnless result VortexError.OutOfMemory }
    ensures cover { IfOk result (λ runs. IsTightCover (optionals (map T.number items.now) (validity_flags validity.now
        (length items.now)))
        runs.ends.items (optionals (map T.number runs.values.items) runs.flags)) }
    ensures paired { IfOk result (λ runs. length runs.flags ≡ length runs.values.items) }
    ensures zeroed { IfOk result (λ runs. AreZeroAtNulls (map T.number runs.values.items) runs.flags) }
    ensures never { form_of validity.now ≡ NeverNull → IfOk result (λ runs. All (λ flag. flag ≡ true) runs.flags) }
{
    match validity {
        Validity::NonNullable => encode_valid(alloc, items),
        Validity::AllValid => encode_valid(alloc, items),
        Validity::AllInvalid => encode_nullable(alloc, items, validity),
        Validity::Bits(_) => encode_nullable(alloc, items, validity),
    }
}

/// Holds the runs that are closed, in order.
#[derive(Drop)]
struct Encoder<T: Drop, A: Allocator> {
    /// Holds the row that each run ends before.
    ends: Vec<u64, A>,
    /// Holds the number of each run, 0 for null.
    values: Vec<T, A>,
    /// Says of each run whether it shows a number.
    flags: BitBufferMut<A>,
}

impl<T: NativePType, A: Allocator + Copy> Encoder<T, A> {
    // No runs, and room for `count`.
    fn with_capacity(alloc: A, count: usize) -> VortexResult<Self>
        ensures only { IsOkUnless result VortexError.OutOfMemory }
        ensures ends { IfOk result (λ runs. runs.ends.items ≡ []) }
        ensures values { IfOk result (λ runs. runs.values.items ≡ []) }
        ensures flags { IfOk result (λ runs. runs.flags ≡ []) }
    {
        Ok(Encoder {
            ends: Vec::with_capacity(alloc, count)?,
            values: Vec::with_capacity(alloc, count)?,
            flags: BitBufferMut::with_capacity(alloc, count)?,
        })
    }

    // Closes a run that shows `shown` and ends at `end`.
    fn close(&mut self, shown: Option<T>, end: u64) -> VortexResult<()>
        requires { length self.old.flags ≡ length self.old.values.items }
        ensures only { IsOkUnless result VortexError.OutOfMemory }
        ensures ends { OnOk result (self.new.ends.items ≡ self.old.ends.items ++ end ∷ []) }
        ensures flags { OnOk result (self.new.flags ≡ self.old.flags ++ is_some shown ∷ []) }
        ensures paired { OnOk result (length self.new.flags ≡ length self.new.values.items) }
        ensures values { OnOk result (optionals (map T.number self.new.values.items) self.new.flags
            ≡ optionals (map T.number self.old.values.items) self.old.flags ++ option_map T.number shown ∷ []) }
        ensures zeroed { OnOk result (AreZeroAtNulls (map T.number self.old.values.items) self.old.flags
            → AreZeroAtNulls (map T.number self.new.values.items) self.new.flags) }
    {
        self.ends.push(end)?;
        self.flags.append(shown.is_some())?;
        self.values.push(shown.unwrap_or_default())?;
        Ok(())
    }
}

// The runs of rows none of which is null. Their flags need no look at a row.
fn encode_valid<T: NativePType, A: Allocator + Copy>(
    alloc: A,
    items: &[T],
) -> VortexResult<Encoder<T, A>>
    ensures only { IsOkUnless result VortexError.OutOfMemory }
    ensures cover { IfOk result (λ runs. IsTightCover (optionals (map T.number items.now)
        (replicate (length items.now) true))
        runs.ends.items (optionals (map T.number runs.values.items) runs.flags)) }
    ensures paired { IfOk result (λ runs. length runs.flags ≡ length runs.values.items) }
    ensures zeroed { IfOk result (λ runs. AreZeroAtNulls (map T.number runs.values.items) runs.flags) }
    ensures valid { IfOk result (λ runs. All (λ flag. flag ≡ true) runs.flags) }
{
    let (ends, values) = valid_runs(alloc, items)?;
    let flags = BitBufferMut::full(alloc, true, values.len())?;
    Ok(Encoder {
        ends,
        values,
        flags,
    })
}

// The ends and the numbers of the runs, where none is null.
fn valid_runs<T: NativePType, A: Allocator + Copy>(
    alloc: A,
    items: &[T],
) -> VortexResult<(Vec<u64, A>, Vec<T, A>)>
    ensures only { IsOkUnless result VortexError.OutOfMemory }
    ensures cover { IfOk result (λ runs. IsTightCover (map T.number items.now) runs.0.items
        (map T.number runs.1.items)) }
{
    let total = items.len();
    if total == 0 {
        return Ok((Vec::new(alloc), Vec::new(alloc)));
    }
    let changes = changes_of(alloc, items, &Validity::NonNullable)?;
    let (ends, values) = first_items(alloc, items, &changes)?;
    Ok((ends, values))
}

// The row that each run ends before, and the item of its first row. Each run but the first starts where a bit is true.
fn first_items<T: NativePType, A: Allocator + Copy>(
    alloc: A,
    items: &[T],
    changes: &BitBuffer<A>,
) -> VortexResult<(Vec<u64, A>, Vec<T, A>)>
    requires some { 0 < length items.now }
    requires long { length changes.now ≡ length items.now }
    ensures only { IsOkUnless result VortexError.OutOfMemory }
    ensures ends { IfOk result (λ runs. runs.0.items ≡ set_indices_of changes.now ++ length items.now ∷ []) }
    ensures values { IfOk result (λ runs. map (λ item. Some item) runs.1.items
        ≡ map (slice_get items.now) (starts_from 0 runs.0.items)) }
{
    let count = changes.true_count().saturating_add(1);
    let mut ends = Vec::with_capacity(alloc, count)?;
    let mut values = Vec::with_capacity(alloc, count)?;
    let mut start = 0;
    for end in changes.set_indices() {
        ends.push(end as u64)?;
        values.push(items[start])?;
        start = end;
    }
    ends.push(items.len() as u64)?;
    values.push(items[start])?;
    Ok((ends, values))
}

// The runs of rows any of which may be null.
fn encode_nullable<T: NativePType, A: Allocator + Copy>(
    alloc: A,
    items: &[T],
    validity: &Validity<A>,
) -> VortexResult<Encoder<T, A>>
    requires { HasLength (form_of validity.now) (length items.now) }
    ensures only { IsOkUnless result VortexError.OutOfMemory }
    ensures cover { IfOk result (λ runs. IsTightCover (optionals (map T.number items.now) (validity_flags validity.now
        (length items.now)))
        runs.ends.items (optionals (map T.number runs.values.items) runs.flags)) }
    ensures paired { IfOk result (λ runs. length runs.flags ≡ length runs.values.items) }
    ensures zeroed { IfOk result (λ runs. AreZeroAtNulls (map T.number runs.values.items) runs.flags) }
{
    let total = items.len();
    if total == 0 {
        let none = Encoder::with_capacity(alloc, 0)?;
        return Ok(none);
    }
    let changes = changes_of(alloc, items, validity)?;
    let runs = first_rows(alloc, items, validity, &changes)?;
    Ok(runs)
}

// The row that each run ends before, and its first row. Each run but the first starts where a bit is true.
fn first_rows<T: NativePType, A: Allocator + Copy>(
    alloc: A,
    items: &[T],
    validity: &Validity<A>,
    changes: &BitBuffer<A>,
) -> VortexResult<Encoder<T, A>>
    requires fits { HasLength (form_of validity.now) (length items.now) }
    requires some { 0 < length items.now }
    requires long { length changes.now ≡ length items.now }
    ensures only { IsOkUnless result VortexError.OutOfMemory }
    ensures ends { IfOk result (λ runs. runs.ends.items ≡ set_indices_of changes.now ++ length items.now ∷ []) }
    ensures values { IfOk result (λ runs. optionals (map T.number runs.values.items) runs.flags ≡ items_at None
        (optionals (map T.number items.now) (validity_flags validity.now (length items.now)))
        (starts_from 0 runs.ends.items)) }
    ensures paired { IfOk result (λ runs. length runs.flags ≡ length runs.values.items) }
    ensures zeroed { IfOk result (λ runs. AreZeroAtNulls (map T.number runs.values.items) runs.flags) }
{
    let mut runs = Encoder::with_capacity(alloc, changes.true_count().saturating_add(1))?;
    let mut start = 0;
    for end in changes.set_indices() {
        runs.close(shown_at(items, validity, start), end as u64)?;
        start = end;
    }
    runs.close(shown_at(items, validity, start), items.len() as u64)?;
    Ok(runs)
}
