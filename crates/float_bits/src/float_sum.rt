//! The exact sum of the rows so far, and its rounding.
ghost use Rattle.std.specs.Prelude.{◌≡◌, ◌+◌, ◌^◌, ◌<◌, ◌≤◌};
ghost use Rattle.float_bits.specs.declared.formats.FloatFormat.TheVariants.{F64};
ghost use Rattle.float_bits.specs.Format.{sign_bit};
ghost use Rattle.float_bits.specs.Number.{size};
ghost use Rattle.float_bits.specs.Held.{IsFinite};
ghost use Rattle.float_bits.specs.Sum.{IsRoundedSum};
ghost use Rattle.float_bits.specs.Tally.{joined, no_rows, row_of, times, with_infinities, with_minus, with_minus_infinities, with_minus_zeros, with_nans, with_plus};

use crate::rounding::round_difference;
use crate::wide_natural::WideNatural;
use std::marker::Model;

// What 1 in the exponent's field counts for, and the sign.
pub(crate) const EXPONENT_UNIT: u64 = 1 << 52;

pub(crate) const SIGN_BIT: u64 = 1 << 63;

pub(crate) const INFINITY: u64 = 0x7ff0_0000_0000_0000;

const QUIET_NAN: u64 = 0x7ff8_0000_0000_0000;

/// Holds the sum of rows of floats of 64 bits, before it is rounded. It takes 2,272 bytes, however many rows it has.
///
/// A contract sees the tally of its rows: the exact sums of the positive and of the negative ones, and how many are
/// NaNs, infinities and -0.0.
#[derive(Drop)]
pub struct FloatSum {
    plus: WideNatural,
    minus: WideNatural,
    rows: u64,
    nans: u64,
    infinities: u64,
    minus_infinities: u64,
    minus_zeros: u64,
}

impl Model for FloatSum {
    ghost use Rattle.float_bits.specs.Tally.{Tally, tally};
    ghost use Rattle.float_bits.specs.Held.{IsWithinRows};

    ghost Value = { Tally };

    ghost view = { λ s. tally s.rows s.plus s.minus s.nans s.infinities s.minus_infinities s.minus_zeros };

    ghost invariant = { λ s. IsWithinRows s.rows s.plus s.minus s.nans s.infinities s.minus_infinities s.minus_zeros };
}

impl FloatSum {
    /// Returns the sum of no rows.
    pub fn new() -> FloatSum
        ensures { result ≡ no_rows }
    {
        FloatSum {
            plus: WideNatural::zero(),
            minus: WideNatural::zero(),
            rows: 0,
            nans: 0,
            infinities: 0,
            minus_infinities: 0,
            minus_zeros: 0,
        }
    }

    /// Returns how many rows were added.
    pub fn rows(&self) -> u64
        ensures { result ≡ self.now.rows }
    {
        self.rows
    }

    /// Adds a run: this many rows of the float with these bits.
    pub fn add_run(&mut self, bits: u64, rows: u64)
        requires { self.old.rows + rows < 2 ^ 64 }
        ensures { self.new ≡ joined self.old (times rows (row_of bits)) }
    {
        if bits % SIGN_BIT < INFINITY {
            self.add_finite(bits, rows);
        } else if bits == INFINITY {
            self.add_infinities(rows);
        } else if bits == SIGN_BIT + INFINITY {
            self.add_minus_infinities(rows);
        } else {
            self.add_nans(rows);
        }
    }

    fn add_finite(&mut self, bits: u64, rows: u64)
        requires finite { IsFinite bits }
        requires rows { self.old.rows + rows < 2 ^ 64 }
        ensures { self.new ≡ joined self.old (times rows (row_of bits)) }
    {
        if bits < SIGN_BIT {
            self.add_plus(bits, rows);
        } else if bits == SIGN_BIT {
            self.add_minus_zeros(rows);
        } else {
            self.add_minus(bits, rows);
        }
    }

    fn add_plus(&mut self, bits: u64, rows: u64)
        requires finite { IsFinite bits }
        requires rows { self.old.rows + rows < 2 ^ 64 }
        ensures { self.new ≡ with_plus self.old rows (size F64 bits) }
    {
        self.rows += rows;
        self.plus.add_size(bits, rows);
    }

    fn add_minus(&mut self, bits: u64, rows: u64)
        requires finite { IsFinite bits }
        requires rows { self.old.rows + rows < 2 ^ 64 }
        ensures { self.new ≡ with_minus self.old rows (size F64 bits) }
    {
        self.rows += rows;
        self.minus.add_size(bits, rows);
    }

    fn add_nans(&mut self, rows: u64)
        requires { self.old.rows + rows < 2 ^ 64 }
        ensures { self.new ≡ with_nans self.old rows }
    {
        self.rows += rows;
        self.nans += rows;
    }

    fn add_infinities(&mut self, rows: u64)
        requires { self.old.rows + rows < 2 ^ 64 }
        ensures { self.new ≡ with_infinities self.old rows }
    {
        self.rows += rows;
        self.infinities += rows;
    }

    fn add_minus_infinities(&mut self, rows: u64)
        requires { self.old.rows + rows < 2 ^ 64 }
        ensures { self.new ≡ with_minus_infinities self.old rows }
    {
        self.rows += rows;
        self.minus_infinities += rows;
    }

    fn add_minus_zeros(&mut self, rows: u64)
        requires { self.old.rows + rows < 2 ^ 64 }
        ensures { self.new ≡ with_minus_zeros self.old rows }
    {
        self.rows += rows;
        self.minus_zeros += rows;
    }

    /// Adds the rows of another sum, for example of a further chunk.
    pub fn join(&mut self, other: &FloatSum)
        requires { self.old.rows + other.now.rows < 2 ^ 64 }
        ensures { self.new ≡ joined self.old other.now }
    {
        self.plus.add(&other.plus);
        self.minus.add(&other.minus);
        self.rows += other.rows;
        self.nans += other.nans;
        self.infinities += other.infinities;
        self.minus_infinities += other.minus_infinities;
        self.minus_zeros += other.minus_zeros;
    }

    /// Returns the bits of the float that is nearest to the exact sum, at a tie the even one. By IEEE 754 a sum with a
    /// NaN or with both infinities is a NaN, one with an infinity is that infinity, and one past the finite floats by
    /// half a step is an infinity too. A sum that is 0 is -0.0 where all rows are, and 0.0 without rows.
    pub fn rounded(&self) -> u64
        ensures { IsRoundedSum self.now result }
    {
        if self.nans > 0 {
            return QUIET_NAN;
        }
        if self.infinities > 0 {
            if self.minus_infinities > 0 {
                return QUIET_NAN;
            }
            return INFINITY;
        }
        if self.minus_infinities > 0 {
            return SIGN_BIT + INFINITY;
        }
        let (is_negative, size) = round_difference(&self.plus.digits(), &self.minus.digits());
        if is_negative {
            return SIGN_BIT + size;
        }
        if size > 0 {
            return size;
        }
        zero_of(self.rows, self.minus_zeros)
    }
}

// Returns the bits of the zero that these rows add up to.
fn zero_of(rows: u64, minus_zeros: u64) -> u64
    ensures minus_zero { (0 < rows) × (minus_zeros ≡ rows) → result ≡ sign_bit F64 }
    ensures zero { ¬ ((0 < rows) × (minus_zeros ≡ rows)) → result ≡ 0 }
{
    if rows > 0 && minus_zeros == rows {
        return SIGN_BIT;
    }
    0
}
