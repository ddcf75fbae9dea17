//! Rows that are written run by run, into room that is taken at first.
ghost use Rattle.std.specs.Prelude.{◌≡◌, ◌+◌, ◌-◌, ◌≤◌, ◌++◌, [], length, replicate, vec_capacity, vec_len, IfOk, IsOkUnless};
ghost use Rattle.std.specs.Mem.{type_size};
ghost use Rattle.runend_windows.specs.Blocks.{block_items};

use column_core::{VortexError, VortexResult};
use std::alloc::Allocator;
use std::marker::Model;
use std::mem::size_of_val;

// The most items of a block.
const LARGEST_BLOCK: usize = 32;

/// Holds rows that are written run by run, `limit` of them at most.
#[derive(Drop)]
pub struct RunWriter<T: Drop, A: Allocator> {
    written: Vec<T, A>,
    limit: usize,
}

impl<T: Drop, A: Allocator> Model for RunWriter<T, A> {
    ghost use Rattle.std.specs.Prelude.{◌≤◌, ◌+◌, vec_capacity, vec_len};
    ghost use Rattle.runend_windows.specs.RunWriterForm.{RunWriterForm};

    ghost Value = { RunWriterForm T };

    ghost view = { λ writer. record { rows = writer.written.items; limit = writer.limit } };

    // There is room for a block past the last row that there may be.
    ghost invariant = { λ writer. (vec_len writer.written ≤ writer.limit) ×
        (writer.limit + 32 ≤ vec_capacity writer.written) };
}

impl<T: Copy + Drop, A: Allocator> RunWriter<T, A> {
    /// Returns no rows, and room for `limit` rows. Refused only as `OutOfMemory`.
    pub fn with_room(alloc: A, limit: usize) -> VortexResult<Self>
        ensures only { IsOkUnless result VortexError.OutOfMemory }
        ensures empty { IfOk result (λ writer. writer ≡ record { rows = []; limit = limit }) }
    {
        let Some(room) = limit.checked_add(LARGEST_BLOCK) else {
            return Err(VortexError::OutOfMemory);
        };
        Ok(RunWriter {
            written: Vec::with_capacity(alloc, room)?,
            limit,
        })
    }

    /// Appends `value` until there are `end` rows. Takes no memory.
    #[inline]
    pub fn repeat_to(&mut self, value: T, end: usize)
        requires room { end ≤ self.old.limit }
        ensures rows { self.new.rows ≡ self.old.rows ++ replicate (end - length self.old.rows) value }
        ensures limit { self.new.limit ≡ self.old.limit }
    {
        let len = self.written.len();
        if end <= len {
            return;
        }
        let missing = end - len;
        let block = block_of(&value);
        if missing <= block {
            append_short(&mut self.written, value, missing, block);
        } else {
            append_copies(&mut self.written, value, missing);
        }
    }

    /// Returns the rows that were written.
    pub fn finish(self) -> Vec<T, A>
        ensures { result.items ≡ self.rows }
    {
        self.written
    }
}

/// Returns the item in each of `count` rows. Refused only as `OutOfMemory`.
pub fn repeated_items<T: Copy + Drop, A: Allocator + Copy>(
    alloc: A,
    item: T,
    count: usize,
) -> VortexResult<Vec<T, A>>
    ensures only { IsOkUnless result VortexError.OutOfMemory }
    ensures items { IfOk result (λ items. items.items ≡ replicate count item) }
{
    let mut rows = RunWriter::with_room(alloc, count)?;
    rows.repeat_to(item, count);
    Ok(rows.finish())
}

// How many items are written at once: they take few stores, and most short runs have as many. Large items are written
// one by one.
#[inline(always)]
fn block_of<T: Copy>(value: &T) -> usize
    ensures items { result ≡ block_items (type_size T.row) }
    ensures largest { result ≤ 32 }
{
    match size_of_val(value) {
        1 => LARGEST_BLOCK,
        2 => 16,
        size if size <= 64 => 8,
        _ => 0,
    }
}

// Appends `count` copies, into room that is there.
#[inline(always)]
fn append_copies<T: Copy + Drop, A: Allocator>(items: &mut Vec<T, A>, value: T, count: usize)
    requires { vec_len items.old + count ≤ vec_capacity items.old }
    ensures items { items.new.items ≡ items.old.items ++ replicate count value }
    ensures capacity { vec_capacity items.old ≤ vec_capacity items.new }
{
    for _ in 0..count {
        items.push_reserved(value);
    }
}

// Appends at most a block of copies: a whole block is written, so that the number of items is the same for every short
// run, and what is past the count is cut off.
#[tactic(auto, using(crate::proofs::Blocks::take_block))]
#[inline(always)]
fn append_short<T: Copy + Drop, A: Allocator>(
    items: &mut Vec<T, A>,
    value: T,
    count: usize,
    block: usize,
)
    requires short { count ≤ block }
    requires room { vec_len items.old + block ≤ vec_capacity items.old }
    requires sized { block ≡ block_items (type_size T.row) }
    ensures items { items.new.items ≡ items.old.items ++ replicate count value }
    ensures capacity { vec_capacity items.old ≤ vec_capacity items.new }
{
    let end = items.len() + count;
    append_copies(items, value, block);
    items.truncate(end);
}
