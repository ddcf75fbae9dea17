//! The run-end encoding: run columns made, and their parts tested.
ghost use Rattle.std.specs.Prelude.{◌≡◌, ◌+◌, ◌-◌, ◌<◌, ◌↔◌, Some, length, codes, IfOk, IsErrOf, IsOkUnless, MatchOption, MatchResult};
ghost use Rattle.column_core.specs.Leaf.{OfNumbers};
ghost use Rattle.runend_array.specs.Array.{column_of, rows};
ghost use Rattle.runend_windows.specs.Window.{last_end};
ghost use Rattle.runend_array.specs.Column.{AreParts, IsPlainEnds, OfLeaf, end_numbers, runs_of};
ghost use Rattle.runend_array.specs.Encoding.{IsEncodedColumn, IsPlainNumbers};
ghost use Rattle.runend_array.specs.Fault.{PartsFault};

use super::{RunEnd, RunEndArray};
use crate::array_ref::ArrayRef;
use crate::compress::runend_encode;
use crate::session::ExecutionCtx;
use column_core::{Nullability, PrimitiveArray, VortexError, VortexResult};
use runend_windows::{last_end_of, validate_ends};
use std::alloc::Allocator;

impl RunEnd {
    /// Returns the run column of these ends and values, from the first row to the last end. Refused by
    /// `EndsNotUnsigned`, `LengthsDiffer` or `EndsNotStrict`, in this order. Takes no memory.
    pub fn try_new<A: Allocator + Copy>(
        ends: ArrayRef<A>,
        values: ArrayRef<A>,
        ctx: &mut ExecutionCtx<A>,
    ) -> VortexResult<RunEndArray<A>>
        ensures parts { let count = last_end (end_numbers (column_of ends)) in
            MatchResult result
            (λ array. AreParts (column_of ends) (column_of values) 0 count ×
            (array ≡ runs_of (column_of ends) (column_of values) 0 count))
            (λ error. PartsFault (column_of ends) (column_of values) 0 count error) }
        ensures session { ctx.new ≡ ctx.old }
    {
        let Some(length) = last_of(&ends) else {
            drop(values);
            drop(ends);
            return Err(VortexError::EndsNotUnsigned);
        };
        RunEnd::try_new_offset_length(ends, values, 0, length, ctx)
    }

    /// Returns the run column of these parts. Refused by the first fault: `EndsNotUnsigned`, `LengthsDiffer`,
    /// `NoRunsWindow`, `EndsNotStrict`, `WindowOverflow`, `FirstEndBelowOffset`, `LastEndBelowWindow`. Takes no memory.
    pub fn try_new_offset_length<A: Allocator + Copy>(
        ends: ArrayRef<A>,
        values: ArrayRef<A>,
        offset: usize,
        length: usize,
        ctx: &mut ExecutionCtx<A>,
    ) -> VortexResult<RunEndArray<A>>
        ensures parts { MatchResult result
            (λ array. AreParts (column_of ends) (column_of values) offset length ×
            (array ≡ runs_of (column_of ends) (column_of values) offset length))
            (λ error. PartsFault (column_of ends) (column_of values) offset length error) }
        ensures session { ctx.new ≡ ctx.old }
    {
        let _ = &ctx;
        match validate_parts(&ends, &values, offset, length) {
            Ok(()) => Ok(RunEnd::new_unchecked(ends, values, offset, length)),
            Err(error) => {
                drop(values);
                drop(ends);
                Err(error)
            }
        }
    }

    /// Returns the run column of ends and values that `try_new` accepts. Takes no memory.
    pub fn new<A: Allocator + Copy>(
        ends: ArrayRef<A>,
        values: ArrayRef<A>,
        ctx: &mut ExecutionCtx<A>,
    ) -> RunEndArray<A>
        requires { AreParts (column_of ends) (column_of values) 0 (last_end (end_numbers (column_of ends))) }
        ensures whole { result ≡ runs_of (column_of ends) (column_of values) 0
            (last_end (end_numbers (column_of ends))) }
        ensures session { ctx.new ≡ ctx.old }
    {
        let _ = &ctx;
        let length = last_of(&ends).unwrap_or(0);
        RunEnd::new_unchecked(ends, values, 0, length)
    }

    /// Returns the run column of parts that `try_new_offset_length` accepts. Takes no memory.
    pub fn new_unchecked<A: Allocator + Copy>(
        ends: ArrayRef<A>,
        values: ArrayRef<A>,
        offset: usize,
        length: usize,
    ) -> RunEndArray<A>
        requires { AreParts (column_of ends) (column_of values) offset length }
        ensures { result ≡ runs_of (column_of ends) (column_of values) offset length }
    {
        RunEndArray {
            ends,
            values,
            offset,
            length,
        }
    }

    /// Encodes a plain column of integers: returns the tight exact cover of its rows, with ends of the least type that
    /// holds them. Refused as `OnlyPrimitive` exactly for other forms and types, else only as `OutOfMemory`.
    pub fn encode<A: Allocator + Copy>(
        array: ArrayRef<A>,
        ctx: &mut ExecutionCtx<A>,
    ) -> VortexResult<RunEndArray<A>>
        ensures refused { IsErrOf result VortexError.OnlyPrimitive ↔ (¬ IsPlainNumbers (column_of array)) }
        ensures only { IsPlainNumbers (column_of array) → IsOkUnless result VortexError.OutOfMemory }
        ensures encoded { IfOk result (λ runs. IsEncodedColumn (column_of array) runs) }
        ensures session { ctx.new ≡ ctx.old }
    {
        let ArrayRef::Primitive(plain) = &array else {
            drop(array);
            return Err(VortexError::OnlyPrimitive);
        };
        let count = plain.len();
        let encoded = runend_encode(plain, ctx);
        drop(array);
        let (ends, values) = encoded?;
        let ends = ArrayRef::Primitive(ends);
        Ok(RunEnd::new_unchecked(ends, values, 0, count))
    }

    /// Returns the name of the encoding, `vortex.runend`.
    pub fn id() -> &'static str
        ensures { result.now ≡ codes "vortex.runend" }
    {
        "vortex.runend"
    }

    /// Returns how many buffers a run column has in addition to its slots: none.
    pub fn nbuffers() -> usize
        ensures { result ≡ 0 }
    {
        0
    }

    /// Returns the name of a slot: `ends` for slot 0, `values` for slot 1.
    pub fn slot_name(slot: usize) -> &'static str
        requires { slot < 2 }
        ensures ends { slot ≡ 0 → result.now ≡ codes "ends" }
        ensures values { slot ≡ 1 → result.now ≡ codes "values" }
    {
        match slot {
            0 => "ends",
            _ => "values",
        }
    }
}

/// Tests that the parts make a run column. Refused by the first fault: `EndsNotUnsigned`, `LengthsDiffer`,
/// `NoRunsWindow`, `EndsNotStrict`, `WindowOverflow`, `FirstEndBelowOffset`, `LastEndBelowWindow`. Takes no memory.
pub fn validate_parts<A: Allocator + Copy>(
    ends: &ArrayRef<A>,
    values: &ArrayRef<A>,
    offset: usize,
    length: usize,
) -> VortexResult<()>
    ensures { MatchResult result
        (λ _. AreParts (column_of ends.now) (column_of values.now) offset length)
        (λ error. PartsFault (column_of ends.now) (column_of values.now) offset length error) }
{
    let Some(plain) = plain_ends(ends) else {
        return Err(VortexError::EndsNotUnsigned);
    };
    validate_ends(plain, values.len(), offset, length)
}

/// Returns the ends, where the column is flat, unsigned and without null.
pub(crate) fn plain_ends<A: Allocator + Copy>(ends: &ArrayRef<A>) -> Option<&PrimitiveArray<A>>
    ensures { MatchOption result
        (¬ IsPlainEnds (column_of ends.now))
        (λ plain. IsPlainEnds (column_of ends.now) × (column_of ends.now ≡ OfLeaf (OfNumbers plain.now))) }
{
    match ends {
        ArrayRef::Primitive(plain)
            if plain.dtype().nullability() == Nullability::NonNullable
                && plain.ptype().is_unsigned_int() => { Some(plain) }
        _ => None,
    }
}

// The last end, or 0 without ends; nothing where the column does not hold ends.
fn last_of<A: Allocator + Copy>(ends: &ArrayRef<A>) -> Option<usize>
    ensures { MatchOption result
        (¬ IsPlainEnds (column_of ends.now))
        (λ last. IsPlainEnds (column_of ends.now) × (last ≡ last_end (end_numbers (column_of ends.now)))) }
{
    let plain = plain_ends(ends)?;
    Some(last_end_of(plain))
}
