//! What a loop over runs asks of a sum, whichever sign its numbers have.
ghost use Rattle.std.specs.Prelude.{◌≡◌, ◌+◌, ◌-◌, ◌*◌, ◌<◌, ◌^◌, ◌+ℤ◌, ◌*ℤ◌, pos, [], ◌∷◌, ◌++◌, true, false, option_map, IfSome};
ghost use Rattle.column_sums.specs.Reach.{IsSized, StaysWithin};
ghost use Rattle.column_sums.specs.SumAnswer.{value_in};
ghost use Rattle.column_sums.specs.SumRange.{is_within, sum_range};
ghost use Rattle.column_sums.specs.SumState.{IsAddable, SumState, lanes_with, with_lanes, with_listed};

use crate::answer::SumValue;
use column_core::NativePType;

/// Adds numbers of type `V`, in the range of that type, one run at a time.
pub trait RunSum<V: NativePType>: Drop {
    // What contracts see of it.
    ghost state: { Self → SumState };

    /// Returns the sum of no runs, which is 0.
    fn empty() -> Self
        ensures { state result ≡ record { value = pos 0; calls = []; additions = 0 } };

    /// Returns the sum so far.
    fn total(&self) -> SumValue
        ensures { result ≡ value_in (sum_range V.PTYPE) (state self.now).value };

    /// Adds `value` as often as the run has rows, all at once. False means that the result left the range, and the sum
    /// is unchanged.
    fn add(&mut self, value: V, len: usize) -> bool
        ensures fits { result ≡ is_within (sum_range V.PTYPE)
            ((state self.old).value +ℤ V.number value *ℤ pos len) }
        ensures added { result ≡ true → (state self.new).value ≡
            (state self.old).value +ℤ V.number value *ℤ pos len }
        ensures unchanged { result ≡ false → (state self.new).value ≡ (state self.old).value }
        ensures calls { (state self.new).calls ≡ (state self.old).calls ++ (V.number value, len) ∷ [] }
        ensures additions { (state self.new).additions ≡ (state self.old).additions + 1 };

    /// Returns the lanes after one more run, whose value and result are known to be in the range, and unchanged after a
    /// null run; without a test, and without a branch. `is_short` says that the value has 32 bits.
    fn lane_added(lanes: V, value: Option<V>, len: usize, is_short: bool) -> V
        requires few { len < 2 ^ 31 }
        requires short { is_short ≡ true →
            IfSome (option_map V.number value) (IsSized (sum_range V.PTYPE) (2 ^ 31 - 1)) }
        requires addable { IsAddable (sum_range V.PTYPE) (V.number lanes) (option_map V.number value) len }
        ensures { V.number result ≡ lanes_with (V.number lanes) (option_map V.number value) len };

    /// Lists a run that lanes add, unless it is null. Adds nothing to the sum yet.
    fn list(&mut self, value: Option<V>, len: usize)
        ensures { state self.new ≡ with_listed (state self.old) (option_map V.number value) len };

    /// Adds the sum of the lanes, which is known to leave the sum in the range, by one addition.
    fn add_lanes(&mut self, lanes: V)
        requires { is_within (sum_range V.PTYPE) ((state self.old).value +ℤ V.number lanes) ≡ true }
        ensures { state self.new ≡ with_lanes (state self.old) (V.number lanes) };

    /// Returns whether this many rows of any numbers of this size leave the sum in the range, and are fewer than 2^31.
    fn stays_within(&self, size: u64, rows: u32) -> bool
        ensures few { result ≡ true → rows < 2 ^ 31 }
        ensures stays { result ≡ true → StaysWithin (sum_range V.PTYPE) size (state self.now).value rows };
}

// How far this many rows of numbers of a size reach from 0 at most.
#[inline(always)]
pub(crate) fn reach_of(size: u64, rows: u32) -> u128
    ensures { result ≡ (size + 1) * rows }
{
    (u128::from(size) + 1) * u128::from(rows)
}
