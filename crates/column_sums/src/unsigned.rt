//! A sum of unsigned numbers.
ghost use Rattle.std.specs.Prelude.{◌≡◌, ◌+◌, ◌*◌, ◌+ℤ◌, ◌*ℤ◌, ◌<◌, ◌^◌, pos, [], ◌∷◌, ◌++◌, true, false, IfSome, option_map, ◌-◌};
ghost use Rattle.column_sums.specs.Reach.{IsSized};
ghost use Rattle.column_sums.specs.SumRange.{UnsignedRange, is_within};
ghost use Rattle.column_sums.specs.SumState.{IsAddable, lanes_with, with_lanes, with_listed};

use crate::answer::SumValue;
use crate::calls::Calls;
use crate::run_sum::{RunSum, reach_of};
use std::marker::Model;

/// Adds numbers in the range of `u64`, one run at a time.
///
/// A contract sees a record: `value`, the sum so far; `calls`, the runs that it was given, each value with its number
/// of rows; and `additions`, how often anything was added to it. The list and the number take no bytes and no time.
#[derive(Drop)]
pub struct UnsignedSum {
    value: u64,
    calls: Calls,
}

impl Model for UnsignedSum {
    ghost use Rattle.std.specs.Prelude.{pos};
    ghost use Rattle.column_sums.specs.SumState.{SumState};

    ghost Value = { SumState };

    ghost view = { λ s. record { value = pos s.value; calls = s.calls.runs; additions = s.calls.additions } };
}

impl UnsignedSum {
    /// Returns the sum of no runs, which is 0.
    pub fn new() -> UnsignedSum
        ensures { result ≡ record { value = pos 0; calls = []; additions = 0 } }
    {
        UnsignedSum {
            value: 0,
            calls: Calls::new(),
        }
    }

    /// Returns the sum so far.
    pub fn value(&self) -> u64
        ensures { pos result ≡ self.now.value }
    {
        self.value
    }

    /// Adds `value` as often as the run has rows, all at once. False means that the result left the
    /// range of `u64`, and the sum is unchanged.
    #[inline]
    pub fn add_run(&mut self, value: u64, len: usize) -> bool
        ensures fits { result ≡ is_within UnsignedRange (self.old.value +ℤ pos value *ℤ pos len) }
        ensures added { result ≡ true → self.new.value ≡ self.old.value +ℤ pos value *ℤ pos len }
        ensures unchanged { result ≡ false → self.new.value ≡ self.old.value }
        ensures calls { self.new.calls ≡ self.old.calls ++ (pos value, len) ∷ [] }
        ensures additions { self.new.additions ≡ self.old.additions + 1 }
    {
        self.calls = self.calls.and_unsigned(&value, &len).and_addition();
        match u64::try_from(sum_with(self.value, value, len)) {
            Ok(sum) => {
                self.value = sum;
                true
            }
            Err(_) => false,
        }
    }
}

impl RunSum<u64> for UnsignedSum {
    ghost state = { λ sum. sum };

    #[inline(always)]
    fn empty() -> UnsignedSum {
        UnsignedSum::new()
    }

    #[inline(always)]
    fn total(&self) -> SumValue {
        SumValue::Unsigned(self.value)
    }

    #[inline(always)]
    fn add(&mut self, value: u64, len: usize) -> bool {
        self.add_run(value, len)
    }

    #[inline(always)]
    fn lane_added(lanes: u64, value: Option<u64>, len: usize, is_short: bool) -> u64
        requires few { len < 2 ^ 31 }
        requires short { is_short ≡ true → IfSome (option_map pos value) (IsSized UnsignedRange (2 ^ 31 - 1)) }
        requires addable { IsAddable UnsignedRange (pos lanes) (option_map pos value) len }
        ensures { pos result ≡ lanes_with (pos lanes) (option_map pos value) len }
    {
        known_sum(lanes, value.unwrap_or(0), len, is_short)
    }

    #[inline(always)]
    fn list(&mut self, value: Option<u64>, len: usize)
        ensures { self.new ≡ with_listed self.old (option_map pos value) len }
    {
        if let Some(number) = value {
            self.calls = self.calls.and_unsigned(&number, &len);
        }
    }

    #[inline(always)]
    fn add_lanes(&mut self, lanes: u64)
        requires { is_within UnsignedRange (self.old.value +ℤ pos lanes) ≡ true }
        ensures { self.new ≡ with_lanes self.old (pos lanes) }
    {
        *self = UnsignedSum {
            value: self.value + lanes,
            calls: self.calls.and_addition(),
        };
    }

    #[inline(always)]
    fn stays_within(&self, size: u64, rows: u32) -> bool {
        let furthest = reach_of(size, rows) + u128::from(self.value);
        rows < 1 << 31 && furthest <= u128::from(u64::MAX)
    }
}

// The sum and `len` times the value, in 64 bits. The casts let several rows be multiplied at once.
#[inline(always)]
fn known_sum(sum: u64, value: u64, len: usize, is_short: bool) -> u64
    requires few { len < 2 ^ 31 }
    requires short { is_short ≡ true → value < 2 ^ 32 }
    requires fits { sum + value * len < 2 ^ 64 }
    ensures { result ≡ sum + value * len }
{
    if is_short {
        sum + u64::from(value as u32) * u64::from(len as u32)
    } else {
        sum + value * u64::from(len as u32)
    }
}

// The sum and `len` times the value. The greatest is 2^128 - 2^64, which fits.
#[inline]
fn sum_with(sum: u64, value: u64, len: usize) -> u128
    ensures { result ≡ sum + value * len }
{
    u128::from(sum) + u128::from(value) * len as u128
}
