//! Powers of ten.
ghost use Rattle.std.specs.Prelude.{◌≡◌, ◌^◌, ◌<ℤ◌, ◌*ℤ◌, ℤ, pos, int_div, FitsSigned, IfNone, IfSome, SomeIff};
ghost use Rattle.std.specs.Int.{w128};
ghost use Rattle.runend_decimals.specs.Rescaling.{IsPowerOfTen};
ghost use Rattle.runend_decimals.specs.Scales.{places_more};

/// Holds 10 to the power of a number of places, with its value where an `i128` has it.
#[derive(Clone, Copy, Drop)]
pub(crate) struct PowerOfTen {
    pub(crate) places: u32,
    pub(crate) value: Option<i128>,
}

impl PowerOfTen {
    /// Returns 10 to the power of the places that a scale has more than another, and 1 where it has none more.
    pub(crate) fn between(scale: i8, other: i8) -> PowerOfTen
        ensures power { IsPowerOfTen result }
        ensures places { result.places ≡ places_more scale other }
    {
        if other < scale {
            PowerOfTen::of(u32::from(scale.abs_diff(other)))
        } else {
            PowerOfTen::of(0)
        }
    }

    // Returns 10 to the power of a number of places.
    fn of(places: u32) -> PowerOfTen
        ensures power { IsPowerOfTen result }
        ensures places { result.places ≡ places }
    {
        PowerOfTen {
            places,
            value: 10i128.checked_pow(places),
        }
    }

    /// Returns a number divided by the power, `None` where a rest is left.
    #[inline]
    pub(crate) fn divide(self, number: i128) -> Option<i128>
        requires { IsPowerOfTen self }
        ensures quotient { IfSome result (λ quotient. quotient ≡ int_div number (pos (10 ^ self.places))) }
        ensures exact { IfSome result (λ quotient. quotient *ℤ pos (10 ^ self.places) ≡ number) }
        ensures rest { IfNone result ((quotient : ℤ) → ¬ (quotient *ℤ pos (10 ^ self.places) ≡ number)) }
    {
        match self.value {
            Some(power) => divided(number, power),
            None if number == 0 => Some(0),
            None => None,
        }
    }

    /// Returns a number times the power, where an `i128` has it.
    #[inline]
    pub(crate) fn multiply(self, number: i128) -> Option<i128>
        requires { IsPowerOfTen self }
        ensures { SomeIff result (FitsSigned w128 (number *ℤ pos (10 ^ self.places)))
            (number *ℤ pos (10 ^ self.places)) }
    {
        match self.value {
            Some(power) => number.checked_mul(power),
            None if number == 0 => Some(0),
            None => None,
        }
    }
}

// Returns a quotient, `None` where a rest is left.
#[inline]
fn divided(number: i128, power: i128) -> Option<i128>
    requires { pos 0 <ℤ power }
    ensures quotient { IfSome result (λ quotient. quotient ≡ int_div number power) }
    ensures exact { IfSome result (λ quotient. quotient *ℤ power ≡ number) }
    ensures rest { IfNone result ((quotient : ℤ) → ¬ (quotient *ℤ power ≡ number)) }
{
    if number % power == 0 {
        Some(number / power)
    } else {
        None
    }
}
