//! Sums of groups.
ghost use Rattle.std.specs.Prelude.{◌≡◌, ◌+◌, ◌*◌, ◌+ℤ◌, ◌*ℤ◌, ◌^◌, ◌<◌, ◌++◌, ℤ, pos, List, Option, length, option_map, replicate, FitsSigned};
ghost use Rattle.std.specs.Int.{w128};
ghost use Rattle.column_base.specs.declared.dtype.PType.TheVariants.{I64, U64};
ghost use Rattle.column_base.specs.Types.{HasNumber};
ghost use Rattle.runend_pairs.specs.Sums.{sum_of, IsSignedTotal, IsUnsignedTotal};

use crate::folds::Fold;
use column_core::{NativePType, UnsignedPType};
use column_sums::SignedPType;

// The sum of the signed numbers so far, in a type that holds the sum of any number of rows, and whether there is a
// number.
#[derive(Drop)]
pub(crate) struct SignedTotal {
    total: i128,
    some: bool,
}

impl<T: SignedPType> Fold<T, i64> for SignedTotal {
    ghost keeps = { λ rows kept. IsSignedTotal rows kept.total kept.some };

    ghost answer_of = { sum_of };

    ghost gives = { HasNumber I64 };

    fn start() -> SignedTotal {
        SignedTotal {
            total: 0,
            some: false,
        }
    }

    fn add(&mut self, value: Option<T>, rows: usize)
        ensures { (before : List (Option ℤ)) → 0 < rows → length before + rows < 2 ^ 64 →
            IsSignedTotal before self.old.total self.old.some →
            IsSignedTotal (before ++ replicate rows (option_map T.number value)) self.new.total self.new.some }
    {
        if let Some(number) = value {
            self.total = signed_more(self.total, number.to_i64(), rows);
            self.some = true;
        }
    }

    fn finish(&self) -> Option<Option<i64>> {
        if self.some {
            match i64::narrow(self.total) {
                Some(sum) => Some(Some(sum)),
                None => None,
            }
        } else {
            Some(None)
        }
    }
}

/// Returns the total after `rows` more rows of a number, where it fits 128 bits.
#[inline(always)]
pub(crate) fn signed_more(total: i128, number: i64, rows: usize) -> i128
    ensures { FitsSigned w128 (total +ℤ number *ℤ pos rows) → result ≡ total +ℤ number *ℤ pos rows }
{
    match total.checked_add(signed_rows(number, rows)) {
        Some(sum) => sum,
        None => total,
    }
}

// The sum of `rows` rows of a number.
#[inline(always)]
fn signed_rows(number: i64, rows: usize) -> i128
    ensures { result ≡ number *ℤ pos rows }
{
    i128::from(number) * i128::from(rows as u64)
}

// The same for unsigned numbers.
#[derive(Drop)]
pub(crate) struct UnsignedTotal {
    total: u128,
    some: bool,
}

impl<T: UnsignedPType> Fold<T, u64> for UnsignedTotal {
    ghost keeps = { λ rows kept. IsUnsignedTotal rows kept.total kept.some };

    ghost answer_of = { sum_of };

    ghost gives = { HasNumber U64 };

    fn start() -> UnsignedTotal {
        UnsignedTotal {
            total: 0,
            some: false,
        }
    }

    fn add(&mut self, value: Option<T>, rows: usize)
        ensures { (before : List (Option ℤ)) → 0 < rows → length before + rows < 2 ^ 64 →
            IsUnsignedTotal before self.old.total self.old.some →
            IsUnsignedTotal (before ++ replicate rows (option_map T.number value)) self.new.total self.new.some }
    {
        if let Some(number) = value {
            self.total = unsigned_more(self.total, number.to_u64(), rows);
            self.some = true;
        }
    }

    fn finish(&self) -> Option<Option<u64>> {
        if self.some {
            match u64::try_from(self.total) {
                Ok(sum) => Some(Some(sum)),
                Err(_) => None,
            }
        } else {
            Some(None)
        }
    }
}

/// Returns the total after `rows` more rows of a number, where it fits 128 bits.
#[inline(always)]
pub(crate) fn unsigned_more(total: u128, number: u64, rows: usize) -> u128
    ensures { total + number * rows < 2 ^ 128 → result ≡ total + number * rows }
{
    match total.checked_add(unsigned_rows(number, rows)) {
        Some(sum) => sum,
        None => total,
    }
}

// The sum of `rows` rows of a number.
#[inline(always)]
fn unsigned_rows(number: u64, rows: usize) -> u128
    ensures { result ≡ number * rows }
{
    u128::from(number) * u128::from(rows as u64)
}
