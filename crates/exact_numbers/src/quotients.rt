//! How often a divisor goes into a number, where both are products of powers.
ghost use Rattle.std.specs.Prelude.{◌≡◌, ◌*◌, ◌^◌, ◌≤◌, length, MatchBool};
ghost use Rattle.exact_numbers.specs.Quotients.{dividend_of, divisor_of, IsFound, IsQuotient, IsRoomFor};
ghost use Rattle.float_bits.specs.Places.{AreBelow, base, value};

use crate::digits::{digits_of, divide_times, multiply_times, number_of};

/// Holds a number by its digits and by powers of ten and of two: digits * 10^tens * 2^doublings, divided by
/// 10^tenths * 2^halvings.
#[derive(Clone, Copy)]
pub(crate) struct Ratio {
    pub(crate) digits: u128,
    pub(crate) tens: u32,
    pub(crate) doublings: u32,
    pub(crate) tenths: u32,
    pub(crate) halvings: u32,
}

/// Holds the whole part of a ratio, and says whether the ratio has no other part.
#[derive(Clone, Copy)]
pub(crate) struct Quotient {
    pub(crate) whole: u128,
    pub(crate) is_exact: bool,
}

impl Ratio {
    /// Returns the whole part, `None` where it has more than 128 bits.
    pub(crate) fn quotient(self) -> Option<Quotient>
        requires { IsRoomFor self }
        ensures { IsFound (dividend_of self) (divisor_of self) result }
    {
        let mut digits = digits_of(self.digits);
        if !multiply_powers(&mut digits, self.tens, self.doublings) {
            return None;
        }
        let is_exact = divide_powers(&mut digits, self.halvings, self.tenths);
        match number_of(&digits) {
            Some(whole) => Some(Quotient { whole, is_exact }),
            None => None,
        }
    }
}

// Multiplies a number by these powers of ten and of two, and returns whether there is room for it.
fn multiply_powers(digits: &mut [u64], tens: u32, doublings: u32) -> bool
    requires { AreBelow base digits.old }
    ensures digits { AreBelow base digits.new }
    ensures value { MatchBool result (value digits.new ≡ value digits.old * 10 ^ tens * 2 ^ doublings)
        (base ^ length digits.old ≤ value digits.old * 10 ^ tens * 2 ^ doublings) }
{
    if multiply_times(digits, 10, tens) {
        multiply_times(digits, 2, doublings)
    } else {
        false
    }
}

// Divides a number by these powers of two and of ten, and returns whether no rest is left.
fn divide_powers(digits: &mut [u64], halvings: u32, tenths: u32) -> bool
    requires { AreBelow base digits.old }
    ensures digits { AreBelow base digits.new }
    ensures quotient { IsQuotient (value digits.old) (2 ^ halvings * 10 ^ tenths) (value digits.new) result }
{
    let is_halved = divide_times(digits, 2, halvings);
    let is_divided = divide_times(digits, 10, tenths);
    is_halved && is_divided
}
