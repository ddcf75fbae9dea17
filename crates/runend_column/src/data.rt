//! What a run column holds in addition to its slots.
ghost use Rattle.std.specs.Prelude.{◌≡◌, ◌↔◌, Some, fold, IfOk, IsErrOf, IsOkUnless, MatchResult};
ghost use Rattle.runend_array.specs.Array.{column_of};
ghost use Rattle.runend_array.specs.Column.{AreParts};
ghost use Rattle.runend_array.specs.Encoding.{IsPlainNumbers};
ghost use Rattle.runend_array.specs.Fault.{PartsFault};
ghost use Rattle.runend_column.specs.Data.{data_eq, data_text, data_writes};

use runend_array::{ArrayRef, ExecutionCtx, VortexError, VortexResult};
use std::alloc::Allocator;
use std::fmt;
use std::hash::Hasher;
use std::marker::Model;

/// Holds what a run column has in addition to its slots: the offset, in rows.
#[derive(Clone, Debug, Drop)]
pub struct RunEndData {
    offset: usize,
}

impl Model for RunEndData {
    ghost use Rattle.std.specs.Prelude.{ℕ};

    ghost Value = { ℕ };

    ghost view = { λ d. d.offset };
}

/// Holds the slots of a run column, and its offset in rows.
#[derive(Drop)]
pub struct RunEndDataParts<A: Allocator> {
    pub ends: ArrayRef<A>,
    pub values: ArrayRef<A>,
    pub offset: usize,
}

impl RunEndData {
    /// Returns the data of a run column with this offset. Nothing is tested.
    pub fn new(offset: usize) -> Self
        ensures { result ≡ offset }
    {
        RunEndData { offset }
    }

    /// Returns the data of a run column with this offset, as `new` makes it. Nothing is tested.
    pub fn new_unchecked(offset: usize) -> Self
        ensures { result ≡ offset }
    {
        RunEndData { offset }
    }

    /// Returns the data of the encoding of a plain column of integers: offset 0. Refused as `OnlyPrimitive` exactly for
    /// other forms and types. Takes no memory.
    pub fn encode<A: Allocator + Copy>(
        array: &ArrayRef<A>,
        ctx: &mut ExecutionCtx<A>,
    ) -> VortexResult<Self>
        ensures refused { IsErrOf result VortexError.OnlyPrimitive ↔ (¬ IsPlainNumbers (column_of array.now)) }
        ensures only { IsOkUnless result VortexError.OnlyPrimitive }
        ensures offset { IfOk result (λ made. made ≡ 0) }
        ensures session { ctx.new ≡ ctx.old }
    {
        let _ = &ctx;
        match array {
            ArrayRef::Primitive(_) => Ok(RunEndData::new_unchecked(0)),
            _ => Err(VortexError::OnlyPrimitive),
        }
    }

    /// Tests that the parts make a run column. Refused by the first fault: `EndsNotUnsigned`, `LengthsDiffer`,
    /// `NoRunsWindow`, `EndsNotStrict`, `WindowOverflow`, `FirstEndBelowOffset`, `LastEndBelowWindow`. Takes no memory.
    pub fn validate_parts<A: Allocator + Copy>(
        ends: &ArrayRef<A>,
        values: &ArrayRef<A>,
        offset: usize,
        length: usize,
        ctx: &mut ExecutionCtx<A>,
    ) -> VortexResult<()>
        ensures parts { MatchResult result
            (λ _. AreParts (column_of ends.now) (column_of values.now) offset length)
            (λ error. PartsFault (column_of ends.now) (column_of values.now) offset length error) }
        ensures session { ctx.new ≡ ctx.old }
    {
        let _ = &ctx;
        runend_array::validate_parts(ends, values, offset, length)
    }

    /// Returns the offset together with the slots.
    pub fn into_parts<A: Allocator>(
        self,
        ends: ArrayRef<A>,
        values: ArrayRef<A>,
    ) -> RunEndDataParts<A>
        ensures offset { result.offset ≡ self }
        ensures ends { result.ends ≡ ends }
        ensures values { result.values ≡ values }
    {
        RunEndDataParts {
            ends,
            values,
            offset: self.offset,
        }
    }

    /// Returns whether the offsets are equal.
    pub fn array_eq(&self, other: &RunEndData) -> bool
        ensures { result ≡ data_eq self.now other.now }
    {
        self.offset == other.offset
    }

    /// Gives only the offset to the hasher.
    pub fn array_hash<H: Hasher>(&self, state: &mut H)
        ensures { state.new ≡ fold H.write state.old (data_writes self.now) }
    {
        state.write_usize(self.offset);
    }
}

/// Writes `offset: ` and the offset in decimal digits.
impl fmt::Display for RunEndData {
    ghost output = { λ offset. Some (data_text offset) };

    fn fmt<W: fmt::Write>(&self, f: &mut fmt::Formatter<W>) -> fmt::Result {
        let offset = self.offset;
        write!(f, "offset: {offset}")
    }
}
