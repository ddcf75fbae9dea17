//! Decimals at one scale written at another, one by one.
ghost use Rattle.std.specs.Prelude.{◌≡◌, ◌^◌, ◌<◌, ℤ, min, pos, unsigned_abs, FitsSigned, IfErr, IfOk};
ghost use Rattle.std.specs.Int.{w128};
ghost use Rattle.column_base.specs.Number.{Narrows};
ghost use Rattle.runend_decimals.specs.Rescaling.{misfit_at, stored_by, IsMisfit, IsRescaling, IsValueHeld, IsValueMisfit};
ghost use Rattle.runend_decimals.specs.Scales.{places_more, rescaled_by, IsHeldBy, IsSameBy};

use crate::fault::RescaleError;
use crate::powers::PowerOfTen;

/// Writes decimals at one scale as integers at another.
#[derive(Clone, Copy, Drop)]
pub(crate) struct Rescaling {
    /// Has the places that the first scale has more.
    pub(crate) dropped: PowerOfTen,
    /// Has the places that the other scale has more.
    pub(crate) added: PowerOfTen,
}

/// Says why a decimal is not one of the other scale.
#[derive(Clone, Copy, Drop)]
pub(crate) enum Misfit {
    Inexact,
    Overflow,
}

/// Says which integers a column has, and as what items it stores them.
pub(crate) trait Limits<Z: Copy + Drop> {
    // Whether the column has an integer.
    ghost has: { Self → ℤ → Type 0 };

    // The integer that an item is.
    ghost integer: { Z → ℤ };

    /// Returns the item that is an integer, or `None` exactly where the column does not have it.
    fn hold(&self, number: i128) -> Option<Z>
        ensures { Narrows integer (has self.now) number result };

    /// Returns the item that is 0.
    fn blank() -> Z
        ensures { integer result ≡ pos 0 };
}

impl Rescaling {
    /// Returns how decimals at a scale are written at another.
    pub(crate) fn between(from: i8, to: i8) -> Rescaling
        ensures valid { IsRescaling result }
        ensures dropped { result.dropped.places ≡ places_more from to }
        ensures added { result.added.places ≡ places_more to from }
    {
        Rescaling {
            dropped: PowerOfTen::between(from, to),
            added: PowerOfTen::between(to, from),
        }
    }

    /// Returns the integer at the other scale of the decimal that this one is.
    #[inline]
    fn apply(self, number: i128) -> Result<i128, Misfit>
        requires { IsRescaling self }
        ensures exact { IfOk result (λ scaled. IsSameBy self.dropped.places self.added.places number scaled) }
        ensures scaled { IfOk result (λ scaled. scaled ≡ rescaled_by self.dropped.places self.added.places number) }
        ensures misfit { IfErr result (IsMisfit self.dropped.places self.added.places (FitsSigned w128) number) }
    {
        let Some(quotient) = self.dropped.divide(number) else {
            return Err(Misfit::Inexact);
        };
        match self.added.multiply(quotient) {
            Some(scaled) => Ok(scaled),
            None => Err(Misfit::Overflow),
        }
    }

    /// Returns the item of a decimal, or the item of 0 for null.
    #[inline]
    pub(crate) fn item<Z: Copy + Drop, L: Limits<Z>>(
        self,
        value: Option<i128>,
        limits: &L,
    ) -> Result<Z, Misfit>
        requires valid { IsRescaling self }
        requires small { (n : ℤ) → L.has limits.now n → FitsSigned w128 n }
        ensures item { IfOk result (λ item.
            L.integer item ≡ stored_by self.dropped.places self.added.places value) }
        ensures held { IfOk result (λ item.
            IsValueHeld self.dropped.places self.added.places (L.has limits.now) value) }
        ensures misfit { IfErr result
            (IsValueMisfit self.dropped.places self.added.places (L.has limits.now) value) }
    {
        match value {
            Some(number) => self.held(number, limits),
            None => Ok(L::blank()),
        }
    }

    // Returns the item of a decimal.
    #[inline]
    fn held<Z: Copy + Drop, L: Limits<Z>>(self, number: i128, limits: &L) -> Result<Z, Misfit>
        requires valid { IsRescaling self }
        requires small { (n : ℤ) → L.has limits.now n → FitsSigned w128 n }
        ensures item { IfOk result (λ item.
            L.integer item ≡ rescaled_by self.dropped.places self.added.places number) }
        ensures held { IfOk result (λ item.
            IsHeldBy self.dropped.places self.added.places (L.has limits.now) number) }
        ensures misfit { IfErr result
            (IsMisfit self.dropped.places self.added.places (L.has limits.now) number) }
    {
        match self.apply(number) {
            Ok(scaled) => limits.hold(scaled).ok_or(Misfit::Overflow),
            Err(misfit) => Err(misfit),
        }
    }
}

impl Misfit {
    /// Returns the error of a row whose decimal is not one of the other scale.
    pub(crate) fn at(self, row: usize) -> RescaleError
        ensures { result ≡ misfit_at self row }
    {
        match self {
            Misfit::Inexact => RescaleError::Inexact { row },
            Misfit::Overflow => RescaleError::Overflow { row },
        }
    }
}

/// Limits integers to a number of decimal digits, and stores them as they are.
#[derive(Drop)]
pub(crate) struct Digits {
    /// Holds 10 to the power of the number of digits.
    limit: u128,
}

impl Digits {
    /// Returns the limit of a precision; from a precision of 38 on it is the limit of 38 digits.
    pub(crate) fn of(precision: u8) -> Digits
        ensures { result.limit ≡ 10 ^ min precision 38 }
    {
        Digits {
            limit: 10u128.pow(u32::from(precision.min(38))),
        }
    }
}

impl Limits<i128> for Digits {
    ghost has = { λ digits n. unsigned_abs n < digits.limit };

    ghost integer = { λ item. item };

    fn hold(&self, number: i128) -> Option<i128> {
        if number.unsigned_abs() < self.limit {
            Some(number)
        } else {
            None
        }
    }

    fn blank() -> i128 {
        0
    }
}
