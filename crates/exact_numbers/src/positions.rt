//! Where a number is among the integers of a type.
ghost use Rattle.std.specs.Prelude.{◌≡◌, ◌<◌, ◌<ℤ◌, ◌≤ℤ◌, ℕ, ℤ, pos, neg_ℤ, false, true, FitsSigned, Some};
ghost use Rattle.std.specs.Int.{w128};
ghost use Rattle.std.specs.Ordering.{int_cmp};
ghost use Rattle.exact_numbers.specs.Positions.{order_at, IsAmongWide, IsWithin, NamesWithin};
ghost use Rattle.exact_numbers.specs.Quotients.{IsFound};

use crate::quotients::Quotient;
use std::cmp::Ordering;

/// Says where a number is among the integers of a type.
#[derive(Clone, Copy, Debug, PartialEq, Eq, Drop)]
pub(crate) enum Position {
    /// Equals this one.
    At(i128),
    /// Lies above this one, and below the next.
    Between(i128),
    /// Lies below all.
    BelowAll,
    /// Lies above all.
    AboveAll,
    /// Has no place, since it is not a number.
    Nowhere,
}

// Holds 2^127, which is past the greatest integer of 128 bits, and as far from 0 as the least.
const LIMIT: u128 = 1 << 127;

impl Position {
    /// Returns where a number with this sign is among the integers of 128 bits, by how often a divisor goes into it.
    pub(crate) fn of_quotient(is_negative: bool, quotient: Option<Quotient>) -> Position
        ensures { (number divisor : ℕ) → 0 < divisor → IsFound number divisor quotient →
            IsAmongWide is_negative number divisor result }
    {
        match quotient {
            Some(quotient) if is_negative => Position::below_zero(quotient),
            Some(quotient) => Position::from_zero(quotient),
            None if is_negative => Position::BelowAll,
            None => Position::AboveAll,
        }
    }

    // Returns where a number is that is not negative.
    fn from_zero(quotient: Quotient) -> Position
        ensures { (number divisor : ℕ) → IsFound number divisor (Some quotient) →
            IsAmongWide false number divisor result }
    {
        if quotient.whole >= LIMIT {
            return Position::AboveAll;
        }
        let whole = quotient.whole as i128;
        if quotient.is_exact {
            Position::At(whole)
        } else {
            Position::Between(whole)
        }
    }

    // Returns where a number is that is negative, or 0.
    fn below_zero(quotient: Quotient) -> Position
        ensures { (number divisor : ℕ) → IsFound number divisor (Some quotient) →
            IsAmongWide true number divisor result }
    {
        if quotient.is_exact {
            return Position::at_negative(quotient.whole);
        }
        if quotient.whole >= LIMIT {
            return Position::BelowAll;
        }
        Position::Between(-1 - quotient.whole as i128)
    }

    // Returns where the integer of this size is that is negative, or 0.
    fn at_negative(size: u128) -> Position
        ensures { (row : ℤ) → FitsSigned w128 row → Some (int_cmp row (neg_ℤ (pos size))) ≡ order_at result row }
    {
        if size == 0 {
            return Position::At(0);
        }
        if size > LIMIT {
            return Position::BelowAll;
        }
        Position::At(-1 - (size - 1) as i128)
    }

    /// Returns the order of an integer and the number that is here, and none where it is not a number.
    pub(crate) fn order(self, row: i128) -> Option<Ordering>
        ensures { result ≡ order_at self row }
    {
        match self {
            Position::At(number) => Some(row.cmp(&number)),
            Position::Between(number) if row > number => Some(Ordering::Greater),
            Position::Between(_) | Position::AboveAll => Some(Ordering::Less),
            Position::BelowAll => Some(Ordering::Greater),
            Position::Nowhere => None,
        }
    }

    /// Returns where a number is among the integers of a range, given where it is among those of 128 bits.
    pub(crate) fn within(self, least: i128, greatest: i128) -> Position
        requires { least ≤ℤ greatest }
        ensures order { (row : ℤ) → IsWithin least greatest row → order_at result row ≡ order_at self row }
        ensures names { NamesWithin least greatest result }
    {
        match self {
            Position::At(number) => within_or(number, least, greatest, self),
            Position::Between(number) => within_or(number, least, greatest, self),
            _ => self,
        }
    }
}

// Returns a position at this integer, or right above it, where the range has the integer, else that it is below or
// above all of the range.
fn within_or(number: i128, least: i128, greatest: i128, position: Position) -> Position
    requires { least ≤ℤ greatest }
    ensures low { number <ℤ least → result ≡ Position.BelowAll }
    ensures high { least ≤ℤ number → greatest <ℤ number → result ≡ Position.AboveAll }
    ensures same { IsWithin least greatest number → result ≡ position }
{
    if number < least {
        return Position::BelowAll;
    }
    if number > greatest {
        return Position::AboveAll;
    }
    position
}
