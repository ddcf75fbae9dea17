//! Where decimals of any scale are among those of another.
ghost use Rattle.std.specs.Prelude.{◌≡◌, ◌≤◌, ℤ, FitsSigned};
ghost use Rattle.std.specs.Int.{w128};
ghost use Rattle.exact_numbers.specs.Exact.{exact_cmp, exact_decimal, zeros_after};
ghost use Rattle.exact_numbers.specs.Positions.{order_at};

use crate::positions::Position;
use crate::quotients::Ratio;

/// Returns where a decimal is among the integers of 128 bits that decimals of another scale are.
pub(crate) fn decimal_position(digits: i128, own: i8, scale: i8) -> Position
    ensures { (row : ℤ) → FitsSigned w128 row →
        exact_cmp (exact_decimal scale row) (exact_decimal own digits) ≡ order_at result row }
{
    let zeros = zeros_after(own);
    let wanted = zeros_after(scale);
    let ratio = Ratio {
        digits: digits.unsigned_abs(),
        tens: zeros.saturating_sub(wanted),
        doublings: 0,
        tenths: wanted.saturating_sub(zeros),
        halvings: 0,
    };
    Position::of_quotient(digits < 0, ratio.quotient())
}

/// Returns how many zeros follow the digits of a decimal in units of 10^-127.
pub(crate) fn zeros_after(scale: i8) -> u32
    ensures zeros { result ≡ zeros_after scale }
    ensures few { result ≤ 255 }
{
    u32::from(i8::MAX.abs_diff(scale))
}
