//! A sum of signed numbers.
ghost use Rattle.std.specs.Prelude.{◌≡◌, ◌+◌, ◌-◌, ◌≤◌, ◌<◌, ◌^◌, ◌+ℤ◌, ◌*ℤ◌, pos, [], ◌∷◌, ◌++◌, true, false, FitsSigned, IfSome, MatchOption, option_map};
ghost use Rattle.std.specs.Int.{w32};
ghost use Rattle.column_sums.specs.Room.{HasRoom};
ghost use Rattle.column_sums.specs.Reach.{IsSized};
ghost use Rattle.column_sums.specs.SumRange.{SignedRange, is_within};
ghost use Rattle.column_sums.specs.SumState.{IsAddable, lanes_with, with_lanes, with_listed};

use crate::answer::SumValue;
use crate::calls::Calls;
use crate::run_sum::{RunSum, reach_of};
use std::marker::Model;

// No value of 32 bits is further from 0.
const FURTHEST: usize = 1 << 31;

/// Adds numbers in the range of `i64`, one run at a time.
///
/// A contract sees a record: `value`, the sum so far; `calls`, the runs that it was given, each value with its number
/// of rows; and `additions`, how often anything was added to it. The list and the number take no bytes and no time.
#[derive(Drop)]
pub struct SignedSum {
    value: i64,
    // So many rows of values of 32 bits can be added before one has to ask whether the sum leaves the range.
    room: usize,
    calls: Calls,
}

impl Model for SignedSum {
    ghost use Rattle.column_sums.specs.Room.{HasRoom};
    ghost use Rattle.column_sums.specs.SumState.{SumState};

    ghost Value = { SumState };

    ghost view = { λ s. record { value = s.value; calls = s.calls.runs; additions = s.calls.additions } };

    ghost invariant = { λ s. HasRoom s.value s.room };
}

impl SignedSum {
    /// Returns the sum of no runs, which is 0.
    pub fn new() -> SignedSum
        ensures { result ≡ record { value = pos 0; calls = []; additions = 0 } }
    {
        SignedSum {
            value: 0,
            room: 0,
            calls: Calls::new(),
        }
    }

    /// Returns the sum so far.
    pub fn value(&self) -> i64
        ensures { result ≡ self.now.value }
    {
        self.value
    }

    /// Adds `value` as often as the run has rows, all at once. False means that the result left the
    /// range of `i64`, and the sum is unchanged.
    #[inline]
    pub fn add_run(&mut self, value: i64, len: usize) -> bool
        ensures fits { result ≡ is_within SignedRange (self.old.value +ℤ value *ℤ pos len) }
        ensures added { result ≡ true → self.new.value ≡ self.old.value +ℤ value *ℤ pos len }
        ensures unchanged { result ≡ false → self.new.value ≡ self.old.value }
        ensures calls { self.new.calls ≡ self.old.calls ++ (value, len) ∷ [] }
        ensures additions { self.new.additions ≡ self.old.additions + 1 }
    {
        self.calls = self.calls.and_signed(&value, &len).and_addition();
        if has_32_bits(value) && len <= self.room {
            self.value = short_sum(self.value, self.room, value, len);
            self.room -= len;
            return true;
        }
        match wide_sum(self.value, value, len) {
            Some(sum) => {
                self.value = sum;
                self.room = room_for(value, sum);
                true
            }
            None => false,
        }
    }
}

impl RunSum<i64> for SignedSum {
    ghost state = { λ sum. sum };

    #[inline(always)]
    fn empty() -> SignedSum {
        SignedSum::new()
    }

    #[inline(always)]
    fn total(&self) -> SumValue {
        SumValue::Signed(self.value)
    }

    #[inline(always)]
    fn add(&mut self, value: i64, len: usize) -> bool {
        self.add_run(value, len)
    }

    #[inline(always)]
    fn lane_added(lanes: i64, value: Option<i64>, len: usize, is_short: bool) -> i64
        requires few { len < 2 ^ 31 }
        requires short { is_short ≡ true → IfSome (option_map (λ n. n) value) (IsSized SignedRange (2 ^ 31 - 1)) }
        requires addable { IsAddable SignedRange lanes (option_map (λ n. n) value) len }
        ensures { result ≡ lanes_with lanes (option_map (λ n. n) value) len }
    {
        known_sum(lanes, value.unwrap_or(0), len, is_short)
    }

    #[inline(always)]
    fn list(&mut self, value: Option<i64>, len: usize)
        ensures { self.new ≡ with_listed self.old (option_map (λ n. n) value) len }
    {
        if let Some(number) = value {
            self.calls = self.calls.and_signed(&number, &len);
        }
    }

    #[inline(always)]
    fn add_lanes(&mut self, lanes: i64)
        requires { is_within SignedRange (self.old.value +ℤ lanes) ≡ true }
        ensures { self.new ≡ with_lanes self.old lanes }
    {
        *self = SignedSum {
            value: sum_of(self.value, lanes),
            room: 0,
            calls: self.calls.and_addition(),
        };
    }

    #[inline(always)]
    fn stays_within(&self, size: u64, rows: u32) -> bool {
        let furthest = reach_of(size, rows) + u128::from(self.value.unsigned_abs());
        rows < 1 << 31 && furthest <= (1 << 63) - 1
    }
}

// The sum and `len` times the value, in 64 bits.
#[inline(always)]
fn known_sum(sum: i64, value: i64, len: usize, is_short: bool) -> i64
    requires few { len < 2 ^ 31 }
    requires short { is_short ≡ true → FitsSigned w32 value }
    requires fits { is_within SignedRange (sum +ℤ value *ℤ pos len) ≡ true }
    requires product { is_within SignedRange (value *ℤ pos len) ≡ true }
    ensures { result ≡ sum +ℤ value *ℤ pos len }
{
    sum_of(sum, known_product(value, len, is_short))
}

// Two numbers together, in 64 bits.
#[inline(always)]
fn sum_of(sum: i64, more: i64) -> i64
    requires { is_within SignedRange (sum +ℤ more) ≡ true }
    ensures sum { result ≡ sum +ℤ more }
    ensures room { HasRoom result 0 }
{
    sum + more
}

// A number of rows times the value, in 64 bits. The casts let several rows be multiplied at once.
#[inline(always)]
fn known_product(value: i64, len: usize, is_short: bool) -> i64
    requires few { len < 2 ^ 31 }
    requires short { is_short ≡ true → FitsSigned w32 value }
    requires product { is_within SignedRange (value *ℤ pos len) ≡ true }
    ensures { result ≡ value *ℤ pos len }
{
    if is_short {
        i64::from(value as i32) * i64::from(len as i32)
    } else {
        value * i64::from(len as u32)
    }
}

// Does the value have 32 bits? The compiler knows it of a type that has no more.
#[inline(always)]
fn has_32_bits(value: i64) -> bool
    ensures { result ≡ true → FitsSigned w32 value }
{
    i32::try_from(value).is_ok()
}

// The sum and `len` times a value of 32 bits, where there is room for `len` rows.
#[inline(always)]
fn short_sum(sum: i64, room: usize, value: i64, len: usize) -> i64
    requires short { FitsSigned w32 value }
    requires room { HasRoom sum room }
    requires enough { len ≤ room }
    ensures sum { result ≡ sum +ℤ value *ℤ pos len }
    ensures within { is_within SignedRange (sum +ℤ value *ℤ pos len) ≡ true }
    ensures left { HasRoom (sum +ℤ value *ℤ pos len) (room - len) }
{
    sum + value * len as i64
}

// How many rows of values of 32 bits leave a sum in the range. The answer is 0 after a value that has more bits, since
// such values most often come together.
#[inline(always)]
fn room_for(value: i64, sum: i64) -> usize
    ensures { HasRoom sum result }
{
    if !has_32_bits(value) {
        return 0;
    }
    let left = if sum < 0 {
        sum - i64::MIN
    } else {
        i64::MAX - sum
    };
    left as usize / FURTHEST
}

// The sum and `len` times the value, where that is in the range, by 128 bits: a product may leave 64 bits where the sum
// is in the range. A call, since the loop around it is a third slower if this is inlined.
#[inline(never)]
fn wide_sum(sum: i64, value: i64, len: usize) -> Option<i64>
    ensures { MatchOption result (is_within SignedRange (sum +ℤ value *ℤ pos len) ≡ false) (λ wide. wide ≡
        sum +ℤ value *ℤ pos len) }
{
    i64::try_from(sum_with(sum, value, len)).ok()
}

// The sum and `len` times the value. The least is -2^127, which fits.
#[inline]
fn sum_with(sum: i64, value: i64, len: usize) -> i128
    ensures { result ≡ sum +ℤ value *ℤ pos len }
{
    i128::from(sum) + i128::from(value) * len as i128
}
