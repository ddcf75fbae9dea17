//! A run-end encoding that grows by batches.
ghost use Rattle.std.specs.Prelude.{◌≡◌, ◌↔◌, ◌+◌, ◌-◌, ◌^◌, ◌<◌, ◌++◌, None, Some, [], length, replicate, IfErr, IfOk, IsErrOf, IsOk, IsOkUnless, IsTrue, OnErr, OnOk, slice_get};
ghost use Rattle.column_core.specs.FlatColumn.{leaf_of};
ghost use Rattle.column_core.specs.Kinds.{list_fault};
ghost use Rattle.column_core.specs.Leaf.{leaf_rows};
ghost use Rattle.column_core.specs.Refusal.{IsRefusedBy};
ghost use Rattle.column_core.specs.Value.{IsLists};
ghost use Rattle.runend_array.specs.Array.{dtype_of, rows};
ghost use Rattle.runend_encode.specs.Encoding.{IsRowEncoding};
ghost use Rattle.runend_builder.specs.Encoded.{IsEncodedRows};
ghost use Rattle.runend_builder.specs.Builder.{HasRuns, append_fault, built_with, part_rows, scalar_row};

use crate::column_builder::FlatBuilder;
use crate::encode::row_runs;
use crate::seam::{extend_last, goes_on, is_same_value, last_of, push_run, push_runs, row_scalar};
use column_core::{
    DType, FlatColumn, PrimitiveArray, Scalar, VortexError, VortexResult, fault_of_lists,
};
use runend_array::{ArrayRef, ExecutionCtx, RunEnd, RunEndArray, array_of};
use runend_encode::least_ends;
use std::alloc::Allocator;
use std::marker::Model;
use std::mem::replace;

/// Encodes rows of any type but lists that come batch by batch. It holds runs and not rows: an end and a value for each
/// run of the encoding of all rows so far.
#[derive(Drop)]
pub struct RunBuilder<A: Allocator> {
    dtype: DType,
    /// Holds where each run ends, in rows.
    ends: Vec<u64, A>,
    /// Holds what each run shows.
    values: FlatBuilder<A>,
    /// Holds what the last run shows, if there is one.
    last: Option<Scalar<A>>,
}

impl<A: Allocator> Model for RunBuilder<A> {
    ghost use Rattle.runend_builder.specs.Builder.{Built, IsBuilt, shown_rows};

    ghost Value = { Built };

    ghost view = { λ b. record { dtype = b.dtype; rows = shown_rows b.ends.items b.values.rows } };

    ghost invariant = { λ b. IsBuilt b.dtype b.ends.items b.values b.last };
}

impl<A: Allocator + Copy> RunBuilder<A> {
    /// Returns a builder of rows of this type, without rows. Refused as `Unsupported` exactly for lists. Takes no
    /// memory.
    pub fn new(alloc: A, dtype: DType) -> VortexResult<Self>
        ensures empty { IfOk result (λ builder. builder ≡ built_with dtype []) }
        ensures served { IfOk result (λ _. list_fault dtype ≡ None) }
        ensures refused { IfErr result (λ error. list_fault dtype ≡ Some error) }
    {
        if let Some(error) = fault_of_lists(dtype) {
            return Err(error);
        }
        Ok(RunBuilder::empty(alloc, dtype))
    }

    /// Returns how many rows there are.
    pub fn len(&self) -> usize
        ensures { result ≡ length self.now.rows }
    {
        last_of(&self.ends) as usize
    }

    /// Returns whether the builder has no rows.
    pub fn is_empty(&self) -> bool
        ensures { IsTrue result ↔ (length self.now.rows ≡ 0) }
    {
        self.len() == 0
    }

    /// Returns the type of the rows.
    pub fn dtype(&self) -> DType
        ensures { result ≡ self.now.dtype }
    {
        self.dtype
    }

    /// Returns how many runs are held: as many as the encoding of the rows has.
    pub fn runs(&self) -> usize
        ensures { HasRuns self.now.rows result }
    {
        self.ends.len()
    }

    /// Appends the rows of a batch, which is of any form. Refused as `TypeMismatch` for a batch of another type, then
    /// as `WindowOverflow` where there were 2^64 rows or more, both before any memory is taken; else only as
    /// `OutOfMemory`. Where it is refused, the rows stay as they are.
    pub fn append_rows(
        &mut self,
        batch: &ArrayRef<A>,
        ctx: &mut ExecutionCtx<A>,
    ) -> VortexResult<()>
        ensures refused { IsRefusedBy (append_fault self.old.dtype (dtype_of batch.now) (length self.old.rows)
            (length (rows batch.now))) result }
        ensures first { (error : VortexError) → append_fault self.old.dtype (dtype_of batch.now)
            (length self.old.rows) (length (rows batch.now)) ≡ Some error → IsErrOf result error }
        ensures rows { OnOk result (self.new.rows ≡ self.old.rows ++ rows batch.now) }
        ensures kept { OnErr result (self.new.rows ≡ self.old.rows) }
        ensures dtype { self.new.dtype ≡ self.old.dtype }
        ensures session { ctx.new ≡ ctx.old }
    {
        if let Some(error) = self.fault_of(batch.dtype(), batch.len()) {
            return Err(error);
        }
        self.append_part(*ctx.allocator(), batch)
    }

    /// Appends `count` rows of one value, or of null. Refused as `append_rows` refuses as many rows of the value's
    /// type, and then the rows stay as they are. Where the last row has this value, no memory is taken: so rows may
    /// come one by one.
    pub fn append_value(&mut self, value: &Scalar<A>, count: usize) -> VortexResult<()>
        ensures refused { IsRefusedBy (append_fault self.old.dtype value.now.dtype (length self.old.rows) count)
            result }
        ensures first { (error : VortexError) → append_fault self.old.dtype value.now.dtype (length self.old.rows)
            count ≡ Some error → IsErrOf result error }
        ensures in_place { append_fault self.old.dtype value.now.dtype (length self.old.rows) count ≡ None →
            slice_get self.old.rows (length self.old.rows - 1) ≡ Some (scalar_row value.now) → IsOk result }
        ensures rows { OnOk result (self.new.rows ≡ self.old.rows ++ replicate count (scalar_row value.now)) }
        ensures kept { OnErr result (self.new.rows ≡ self.old.rows) }
        ensures dtype { self.new.dtype ≡ self.old.dtype }
    {
        if let Some(error) = self.fault_of(value.dtype(), count) {
            return Err(error);
        }
        if count == 0 {
            return Ok(());
        }
        self.append_run(value, count)
    }

    /// Returns the encoding of all rows so far, as `encode_rows` returns it for a column of them. The builder keeps its
    /// rows. Refused only as `OutOfMemory`.
    pub fn encoding(&self, ctx: &mut ExecutionCtx<A>) -> VortexResult<RunEndArray<A>>
        ensures only { IsOkUnless result VortexError.OutOfMemory }
        ensures encoded { IfOk result (λ runs. IsEncodedRows self.now.rows self.now.dtype runs) }
        ensures session { ctx.new ≡ ctx.old }
    {
        let (ends, values) = self.parts(*ctx.allocator())?;
        Ok(RunEnd::new_unchecked(ArrayRef::Primitive(ends), array_of(values), 0, self.len()))
    }

    /// Returns the encoding of all rows, as `encoding` does, in the builder's own memory where that is possible: ends
    /// are narrowed to their least type, bits and flags of the values are packed, and all else is moved, with the room
    /// that it had in reserve. Then the builder has no rows, holds no memory and takes rows of its type again. Refused
    /// only as `OutOfMemory`, and then the rows stay as they are.
    pub fn finish(&mut self, ctx: &mut ExecutionCtx<A>) -> VortexResult<RunEndArray<A>>
        ensures only { IsOkUnless result VortexError.OutOfMemory }
        ensures encoded { IfOk result (λ runs. IsEncodedRows self.old.rows self.old.dtype runs) }
        ensures empty { OnOk result (self.new.rows ≡ []) }
        ensures kept { OnErr result (self.new.rows ≡ self.old.rows) }
        ensures dtype { self.new.dtype ≡ self.old.dtype }
        ensures session { ctx.new ≡ ctx.old }
    {
        let count = self.len();
        let (ends, values) = self.take_parts(*ctx.allocator())?;
        Ok(RunEnd::new_unchecked(ArrayRef::Primitive(ends), array_of(values), 0, count))
    }
}

impl<A: Allocator + Copy> RunBuilder<A> {
    // A builder of rows of a type, which is not a type of lists, without rows.
    fn empty(alloc: A, dtype: DType) -> Self
        requires { ¬ IsLists dtype }
        ensures { result ≡ built_with dtype [] }
    {
        RunBuilder {
            dtype,
            ends: Vec::new(alloc),
            values: FlatBuilder::new(alloc, dtype),
            last: None,
        }
    }

    // Why `count` rows of a type are refused, if they are.
    fn fault_of(&self, dtype: DType, count: usize) -> Option<VortexError>
        ensures fault { result ≡ append_fault self.now.dtype dtype (length self.now.rows) count }
        ensures single { ¬ IsLists self.now.dtype }
    {
        if dtype != self.dtype {
            return Some(VortexError::TypeMismatch);
        }
        if self.len().checked_add(count).is_none() {
            return Some(VortexError::WindowOverflow);
        }
        None
    }

    // Appends at least one row of one value of the same type. Refused only as `OutOfMemory`, and then the rows stay as
    // they are; where the last run goes on, no memory is taken.
    fn append_run(&mut self, value: &Scalar<A>, count: usize) -> VortexResult<()>
        requires typed { value.now.dtype ≡ self.old.dtype }
        requires some { 0 < count }
        requires small { length self.old.rows + count < 2 ^ 64 }
        ensures only { IsOkUnless result VortexError.OutOfMemory }
        ensures in_place { slice_get self.old.rows (length self.old.rows - 1) ≡ Some (scalar_row value.now) →
            IsOk result }
        ensures rows { OnOk result (self.new.rows ≡ self.old.rows ++ replicate count (scalar_row value.now)) }
        ensures kept { OnErr result (self.new.rows ≡ self.old.rows) }
        ensures dtype { self.new.dtype ≡ self.old.dtype }
    {
        if is_same_value(&self.last, value) {
            extend_last(&mut self.ends, count as u64);
            return Ok(());
        }
        let last = value.try_clone(*self.ends.allocator())?;
        if let Err(error) = push_run(&mut self.ends, &mut self.values, value, count as u64) {
            drop(last);
            return Err(error);
        }
        let before = replace(&mut self.last, Some(last));
        drop(before);
        Ok(())
    }

    // Appends the rows of an array of the same type. Refused only as `OutOfMemory`, and then the rows stay as they are.
    fn append_part(&mut self, alloc: A, array: &ArrayRef<A>) -> VortexResult<()>
        requires single { ¬ IsLists (dtype_of array.now) }
        requires typed { dtype_of array.now ≡ self.old.dtype }
        requires small { length self.old.rows + length (rows array.now) < 2 ^ 64 }
        ensures only { IsOkUnless result VortexError.OutOfMemory }
        ensures rows { OnOk result (self.new.rows ≡ self.old.rows ++ rows array.now) }
        ensures kept { OnErr result (self.new.rows ≡ self.old.rows) }
        ensures dtype { self.new.dtype ≡ self.old.dtype }
    {
        if array.len() == 0 {
            return Ok(());
        }
        let (ends, values) = row_runs(alloc, array)?;
        let appended = self.append_runs(alloc, &ends, &values);
        drop(ends);
        drop(values);
        appended
    }

    // The same for the ends and the values of their encoding, which has a run.
    fn append_runs(
        &mut self,
        alloc: A,
        ends: &PrimitiveArray<A>,
        values: &FlatColumn<A>,
    ) -> VortexResult<()>
        requires encoded { IsRowEncoding (part_rows ends.now (leaf_of values.now)) self.old.dtype
            ends.now (leaf_of values.now) }
        requires some { 0 < length (leaf_rows (leaf_of values.now)) }
        requires small { length self.old.rows + length (part_rows ends.now (leaf_of values.now)) < 2 ^ 64 }
        ensures only { IsOkUnless result VortexError.OutOfMemory }
        ensures rows { OnOk result (self.new.rows ≡ self.old.rows ++ part_rows ends.now (leaf_of values.now)) }
        ensures kept { OnErr result (self.new.rows ≡ self.old.rows) }
        ensures dtype { self.new.dtype ≡ self.old.dtype }
    {
        let view = values.view();
        let one = goes_on(alloc, &self.last, view)?;
        let last = row_scalar(alloc, view, view.len() - 1)?;
        match push_runs(&mut self.ends, &mut self.values, ends, view, one) {
            Ok(()) => {
                drop(replace(&mut self.last, Some(last)));
                Ok(())
            }
            Err(error) => {
                drop(last);
                Err(error)
            }
        }
    }

    // The ends and the values of the encoding. Refused only as `OutOfMemory`.
    fn parts(&self, alloc: A) -> VortexResult<(PrimitiveArray<A>, FlatColumn<A>)>
        ensures only { IsOkUnless result VortexError.OutOfMemory }
        ensures encoding { IfOk result (λ parts.
            IsRowEncoding self.now.rows self.now.dtype parts.0 (leaf_of parts.1)) }
    {
        let ends = least_ends(alloc, &self.ends)?;
        match self.values.to_column(alloc) {
            Ok(values) => Ok((ends, values)),
            Err(error) => {
                drop(ends);
                Err(error)
            }
        }
    }

    // The same in the builder's own memory; then the builder has no rows. Refused only as `OutOfMemory`, and then the
    // rows stay as they are.
    fn take_parts(&mut self, alloc: A) -> VortexResult<(PrimitiveArray<A>, FlatColumn<A>)>
        ensures only { IsOkUnless result VortexError.OutOfMemory }
        ensures encoding { IfOk result (λ parts.
            IsRowEncoding self.old.rows self.old.dtype parts.0 (leaf_of parts.1)) }
        ensures empty { OnOk result (self.new.rows ≡ []) }
        ensures kept { OnErr result (self.new.rows ≡ self.old.rows) }
        ensures dtype { self.new.dtype ≡ self.old.dtype }
    {
        let ends = least_ends(alloc, &self.ends)?;
        match self.values.take_column(alloc) {
            Ok(values) => {
                drop(replace(&mut self.ends, Vec::new(alloc)));
                drop(replace(&mut self.last, None));
                Ok((ends, values))
            }
            Err(error) => {
                drop(ends);
                Err(error)
            }
        }
    }
}
