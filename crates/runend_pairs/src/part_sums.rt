//! What runs of numbers add to a sum, in three numbers of 128 bits.
ghost use Rattle.std.specs.Prelude.{◌≡◌, ◌+◌, ◌^◌, ◌<◌, ◌++◌, ℤ, List, [], Option, length, map, option_map, replicate};
ghost use Rattle.std.specs.Int.{int_max, int_min};
ghost use Rattle.column_base.specs.ValidityForm.{flags};
ghost use Rattle.column_base.specs.Validity.{form_of, validity_flags};
ghost use Rattle.runend_windows.specs.Ends.{ends_of};
ghost use Rattle.runend_pairs.specs.Groups.{shown_numbers, AreValueRuns};
ghost use Rattle.runend_pairs.specs.SumParts.{AreSignedParts, AreUnsignedParts};

use crate::sums::{signed_more, unsigned_more};
use crate::values::ValueRuns;
use column_core::{NativePType, UnsignedPType};
use column_sums::SignedPType;
use std::alloc::Allocator;

/// Holds what rows of signed numbers add to a sum: their total, and the least and the greatest of their partial sums,
/// one of which is the 0 before the first row.
#[derive(Debug, Clone, Copy, Drop, PartialEq, Eq)]
pub struct SignedParts {
    /// Holds the sum of all rows that are not null.
    pub total: i128,
    /// Holds the least partial sum: 0 or less.
    pub least: i128,
    /// Holds the greatest partial sum: 0 or more.
    pub greatest: i128,
}

/// Holds what rows of unsigned numbers add to a sum: their total, which is also the greatest of their partial sums. The
/// least is the 0 before the first row.
#[derive(Debug, Clone, Copy, Drop, PartialEq, Eq)]
pub struct UnsignedParts {
    /// Holds the sum of all rows that are not null.
    pub total: u128,
}

/// Keeps what rows of numbers add to a sum.
pub(crate) trait PartSum<T: NativePType>: Drop {
    // This is kept of these rows.
    ghost keeps: { List (Option ℤ) → Self → Type 0 };

    /// Returns what is kept of no rows.
    fn start() -> Self
        ensures { keeps [] result };

    /// Adds `rows` rows, each of this value.
    fn add(&mut self, value: Option<T>, rows: usize)
        ensures { (before : List (Option ℤ)) → length before + rows < 2 ^ 64 → keeps before self.old →
            keeps (before ++ replicate rows (option_map T.number value)) self.new };
}

/// Returns what the rows of runs add to a sum. Takes a step for each run.
pub(crate) fn parts_in_runs<T: NativePType, P: PartSum<T>, A: Allocator>(
    values: &ValueRuns<'_, T, A>,
) -> P
    requires runs { AreValueRuns values.now.ends.now (length values.now.items.now) (form_of values.now.validity.now) }
    ensures { P.keeps (shown_numbers (ends_of values.now.ends.now) (map T.number values.now.items.now)
        (validity_flags values.now.validity.now (length values.now.items.now))) result }
{
    let count = values.ends.len();
    let mut parts = P::start();
    let mut row = 0;
    for run in 0..count {
        let end = values.end(run);
        parts.add(values.value(run), end - row);
        row = end;
    }
    parts
}

impl<T: SignedPType> PartSum<T> for SignedParts {
    ghost keeps = { λ rows kept. AreSignedParts rows kept.total kept.least kept.greatest };

    fn start() -> SignedParts {
        SignedParts {
            total: 0,
            least: 0,
            greatest: 0,
        }
    }

    fn add(&mut self, value: Option<T>, rows: usize)
        ensures { (before : List (Option ℤ)) → length before + rows < 2 ^ 64 →
            AreSignedParts before self.old.total self.old.least self.old.greatest →
            AreSignedParts (before ++ replicate rows (option_map T.number value))
            self.new.total self.new.least self.new.greatest }
    {
        if let Some(number) = value {
            let total = signed_more(self.total, number.to_i64(), rows);
            self.total = total;
            self.least = lesser(self.least, total);
            self.greatest = greater(self.greatest, total);
        }
    }
}

impl<T: UnsignedPType> PartSum<T> for UnsignedParts {
    ghost keeps = { λ rows kept. AreUnsignedParts rows kept.total };

    fn start() -> UnsignedParts {
        UnsignedParts { total: 0 }
    }

    fn add(&mut self, value: Option<T>, rows: usize)
        ensures { (before : List (Option ℤ)) → length before + rows < 2 ^ 64 →
            AreUnsignedParts before self.old.total →
            AreUnsignedParts (before ++ replicate rows (option_map T.number value)) self.new.total }
    {
        if let Some(number) = value {
            self.total = unsigned_more(self.total, number.to_u64(), rows);
        }
    }
}

// The lesser of two sums.
#[inline(always)]
fn lesser(left: i128, right: i128) -> i128
    ensures { result ≡ int_min left right }
{
    left.min(right)
}

// The greater of two sums.
#[inline(always)]
fn greater(left: i128, right: i128) -> i128
    ensures { result ≡ int_max left right }
{
    left.max(right)
}
