//! Answers as they are made: runs of equal answers; the last run is open.
ghost use Rattle.std.specs.Prelude.{◌≡◌, ◌↔◌, ◌⊎◌, ◌++◌, [], ◌∷◌, false, is_some, length, map, IfOk, IsOkUnless, IsTrue, OnOk};
ghost use Rattle.column_core.specs.Optionals.{AreBlankAtNulls};
ghost use Rattle.runend_pairs.specs.Answers.{row_of, rows_of_items};

use crate::stored::Stored;
use column_core::{BitBufferMut, VortexError, VortexResult};
use std::alloc::Allocator;

/// Holds the runs of equal answers that are closed, in order, and one that is open.
#[derive(Drop)]
pub(crate) struct AnswerRuns<Z: Drop, A: Allocator> {
    /// Holds the row that each closed run ends before.
    pub(crate) ends: Vec<u64, A>,
    /// Holds what each closed run shows, blank for null.
    pub(crate) items: Vec<Z, A>,
    /// Says whether each closed run shows an item.
    pub(crate) flags: BitBufferMut<A>,
    /// Holds what the open run shows, if a row was answered.
    pub(crate) last: Option<Z>,
    /// Counts the rows that are answered.
    pub(crate) reached: usize,
}

impl<Z: Copy + Drop, A: Allocator + Copy> AnswerRuns<Z, A> {
    /// Returns no runs. Refused only as `OutOfMemory`.
    pub(crate) fn new(alloc: A) -> VortexResult<Self>
        ensures only { IsOkUnless result VortexError.OutOfMemory }
        ensures ends { IfOk result (λ runs. runs.ends.items ≡ []) }
        ensures items { IfOk result (λ runs. runs.items.items ≡ []) }
        ensures flags { IfOk result (λ runs. runs.flags ≡ []) }
        ensures reached { IfOk result (λ runs. runs.reached ≡ 0) }
    {
        Ok(AnswerRuns {
            ends: Vec::new(alloc),
            items: Vec::new(alloc),
            flags: BitBufferMut::with_capacity(alloc, 0)?,
            last: None,
            reached: 0,
        })
    }

    /// Returns whether the next rows, which show `answer`, belong to the open run. The first rows open it.
    pub(crate) fn goes_on<K: Stored<Z>>(&self, answer: Option<Z>) -> bool
        ensures { IsTrue result ↔ ((self.now.reached ≡ 0) ⊎ (row_of K.shown self.now.last ≡ row_of K.shown answer)) }
    {
        self.reached == 0 || is_same_answer::<Z, K>(self.last, answer)
    }

    /// Adds the rows up to `stop`, which show the same, to the open run, or opens the first run for them.
    pub(crate) fn go_on(&mut self, answer: Option<Z>, stop: usize)
        ensures ends { self.new.ends.items ≡ self.old.ends.items }
        ensures items { self.new.items.items ≡ self.old.items.items }
        ensures flags { self.new.flags ≡ self.old.flags }
        ensures last { self.new.last ≡ answer }
        ensures reached { self.new.reached ≡ stop }
    {
        self.last = answer;
        self.reached = stop;
    }

    /// Closes the open run, and opens one for the rows up to `stop`. Refused only as `OutOfMemory`.
    pub(crate) fn turn_to<K: Stored<Z>>(
        &mut self,
        answer: Option<Z>,
        stop: usize,
    ) -> VortexResult<()>
        requires { length self.old.flags ≡ length self.old.items.items }
        ensures only { IsOkUnless result VortexError.OutOfMemory }
        ensures ends { OnOk result (self.new.ends.items ≡ self.old.ends.items ++ self.old.reached ∷ []) }
        ensures flags { OnOk result (self.new.flags ≡ self.old.flags ++ is_some self.old.last ∷ []) }
        ensures paired { OnOk result (length self.new.flags ≡ length self.new.items.items) }
        ensures items { OnOk result (rows_of_items K.shown self.new.items.items self.new.flags ≡
            rows_of_items K.shown self.old.items.items self.old.flags ++ row_of K.shown self.old.last ∷ []) }
        ensures blank { OnOk result (AreBlankAtNulls K.blank_value (map K.shown self.old.items.items) self.old.flags →
            AreBlankAtNulls K.blank_value (map K.shown self.new.items.items) self.new.flags) }
        ensures last { OnOk result (self.new.last ≡ answer) }
        ensures reached { OnOk result (self.new.reached ≡ stop) }
    {
        self.close::<K>()?;
        self.last = answer;
        self.reached = stop;
        Ok(())
    }

    /// Closes the open run at the last row that is answered. Refused only as `OutOfMemory`.
    pub(crate) fn close<K: Stored<Z>>(&mut self) -> VortexResult<()>
        requires { length self.old.flags ≡ length self.old.items.items }
        ensures only { IsOkUnless result VortexError.OutOfMemory }
        ensures ends { OnOk result (self.new.ends.items ≡ self.old.ends.items ++ self.old.reached ∷ []) }
        ensures flags { OnOk result (self.new.flags ≡ self.old.flags ++ is_some self.old.last ∷ []) }
        ensures paired { OnOk result (length self.new.flags ≡ length self.new.items.items) }
        ensures items { OnOk result (rows_of_items K.shown self.new.items.items self.new.flags ≡
            rows_of_items K.shown self.old.items.items self.old.flags ++ row_of K.shown self.old.last ∷ []) }
        ensures blank { OnOk result (AreBlankAtNulls K.blank_value (map K.shown self.old.items.items) self.old.flags →
            AreBlankAtNulls K.blank_value (map K.shown self.new.items.items) self.new.flags) }
        ensures last { self.new.last ≡ self.old.last }
        ensures reached { self.new.reached ≡ self.old.reached }
    {
        self.ends.push(self.reached as u64)?;
        self.flags.append(self.last.is_some())?;
        self.items.push(item_of::<Z, K>(self.last))?;
        Ok(())
    }
}

// The item that is stored for an answer.
#[inline]
fn item_of<Z: Copy + Drop, K: Stored<Z>>(answer: Option<Z>) -> Z
    ensures item { (found : Z) → answer ≡ Some found → result ≡ found }
    ensures blank { is_some answer ≡ false → K.shown result ≡ K.blank_value }
{
    match answer {
        Some(item) => item,
        None => K::blank(),
    }
}

// Whether two answers are of one value, null being equal to null.
#[inline]
fn is_same_answer<Z: Copy + Drop, K: Stored<Z>>(left: Option<Z>, right: Option<Z>) -> bool
    ensures { IsTrue result ↔ (row_of K.shown left ≡ row_of K.shown right) }
{
    match (left, right) {
        (None, None) => true,
        (Some(left), Some(right)) => K::is_same(left, right),
        _ => false,
    }
}
