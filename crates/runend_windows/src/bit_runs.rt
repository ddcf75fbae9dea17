//! Bits that are written run by run, one after the other or over the bit of most runs.
ghost use Rattle.std.specs.Prelude.{◌≡◌, ◌*◌, ◌-◌, ◌<◌, ◌↔◌, ◌++◌, [], IsTrue, Some, IfOk, IsOkUnless, OnErr, OnOk, count_by, drop, false, length, replicate, slice_get};
ghost use Rattle.column_core.specs.Optionals.{optionals};
ghost use Rattle.runend_windows.specs.Encoding.{blanked};
ghost use Rattle.runend_windows.specs.BitRunsForm.{background_of};

use column_core::{BitBuffer, BitBufferMut, VortexError, VortexResult};
use std::alloc::Allocator;
use std::marker::Model;

/// Holds bits that are written run by run. A buffer that is prefilled holds the background wherever no run is written
/// yet, so that a run of the background costs nothing.
#[derive(Drop)]
pub struct BitRuns<A: Allocator> {
    bits: BitBufferMut<A>,
    written: usize,
    background: bool,
}

impl<A: Allocator> Model for BitRuns<A> {
    ghost use Rattle.std.specs.Prelude.{drop, take};
    ghost use Rattle.runend_windows.specs.BitRunsForm.{BitRunsForm, IsOverBackground};

    ghost Value = { BitRunsForm };

    ghost view = { λ runs. record { written = take runs.written runs.bits; prefilled = drop runs.written runs.bits } };

    ghost invariant = { λ runs. IsOverBackground runs.bits runs.written runs.background };
}

impl<A: Allocator + Copy> BitRuns<A> {
    /// Returns no bits, and room for `count` bits, which are appended. Refused only as `OutOfMemory`.
    pub fn with_room(alloc: A, count: usize) -> VortexResult<Self>
        ensures only { IsOkUnless result VortexError.OutOfMemory }
        ensures empty { IfOk result (λ runs. runs ≡ record { written = []; prefilled = [] }) }
    {
        Ok(BitRuns {
            bits: BitBufferMut::with_capacity(alloc, count)?,
            written: 0,
            background: false,
        })
    }

    /// Returns no bits, with a background for `count` bits; then only the bits that differ from it are written. Refused
    /// only as `OutOfMemory`.
    pub fn prefilled(alloc: A, background: bool, count: usize) -> VortexResult<Self>
        ensures only { IsOkUnless result VortexError.OutOfMemory }
        ensures start { IfOk result (λ runs. runs ≡ record { written = []; prefilled = replicate count background }) }
    {
        Ok(BitRuns {
            bits: BitBufferMut::full(alloc, background, count)?,
            written: 0,
            background,
        })
    }

    /// Appends `bit` until there are `end` bits. Takes no memory up to the number of bits that there is room for. The
    /// background after `end` is left. Refused only as `OutOfMemory`, and then the bits stay and the background is
    /// gone.
    #[inline(always)]
    pub fn repeat_to(&mut self, bit: bool, end: usize) -> VortexResult<()>
        ensures ok { OnOk result (self.new.written ≡
            self.old.written ++ replicate (end - length self.old.written) bit) }
        ensures left { OnOk result (self.new.prefilled ≡ drop (end - length self.old.written) self.old.prefilled) }
        ensures err { OnErr result (self.new ≡ record { written = self.old.written; prefilled = [] }) }
        ensures only { IsOkUnless result VortexError.OutOfMemory }
    {
        if end <= self.written {
            return Ok(());
        }
        if end > self.bits.len() {
            // A background that is too short goes, so that a refusal leaves what is written.
            self.bits.truncate(self.written);
            self.bits.append_n(bit, end - self.written)?;
        } else if bit != self.background {
            self.bits.fill_range(self.written, end, bit);
        }
        self.written = end;
        Ok(())
    }

    /// Returns the bits that were written. Takes no memory.
    pub fn finish(self) -> BitBuffer<A>
        ensures { result ≡ self.written }
    {
        let mut bits = self.bits;
        bits.truncate(self.written);
        bits.freeze()
    }
}

/// Returns no bits, with room for `count` rows that will show the bits of these runs. From `prefill_runs` runs on, all
/// rows are first filled with the bit of most runs, false on a tie; with fewer runs, the room is empty at first.
/// Refused only as `OutOfMemory`.
pub fn start_over<A: Allocator + Copy>(
    alloc: A,
    bits: &BitBuffer<A>,
    count: usize,
    prefill_runs: usize,
) -> VortexResult<BitRuns<A>>
    ensures only { IsOkUnless result VortexError.OutOfMemory }
    ensures start { IfOk result (λ runs. runs ≡ record {
      written = [];
      prefilled =
          background_of bits.now count prefill_runs;
    }) }
{
    if bits.len() < prefill_runs {
        return BitRuns::with_room(alloc, count);
    }
    let majority = is_majority(bits.true_count(), bits.len());
    BitRuns::prefilled(alloc, majority, count)
}

/// Returns whether more than half of the runs are true.
pub fn is_majority(true_runs: usize, runs: usize) -> bool
    ensures { IsTrue result ↔ (runs < 2 * true_runs) }
{
    true_runs > runs / 2
}

/// Returns the bit of a run, false where its mark is false.
pub fn marked_at<A: Allocator>(bits: &BitBuffer<A>, marks: &BitBuffer<A>, run: usize) -> bool
    requires within { run < length bits.now }
    requires paired { length marks.now ≡ length bits.now }
    ensures { slice_get (blanked false (optionals bits.now marks.now)) run ≡ Some result }
{
    marks.value(run) && bits.value(run)
}

/// Returns how many bits are true whose mark is true.
pub fn count_marked<A: Allocator>(bits: &BitBuffer<A>, marks: &BitBuffer<A>) -> usize
    requires { length marks.now ≡ length bits.now }
    ensures { result ≡ count_by (λ bit. bit) (blanked false (optionals bits.now marks.now)) }
{
    let mut count = 0;
    for run in 0..bits.len() {
        if marked_at(bits, marks, run) {
            count += 1;
        }
    }
    count
}
