//! A sum of decimals to which runs are added.
ghost use Rattle.std.specs.Prelude.{◌≡◌, ◌+ℤ◌, ◌-ℤ◌, ◌*ℤ◌, ◌<ℤ◌, ◌≤ℤ◌, ◌-◌, ◌^◌, pos, FitsSigned, IfErr, IfNone, IfOk, IfSome, SomeIff};
ghost use Rattle.std.specs.Int.{w128};
ghost use Rattle.runend_decimals.specs.Digits.{HasDigits};
ghost use Rattle.runend_decimals.specs.Totals.{with_rows as sum_with, IsHeld, IsLeftAfter};

use crate::sums::DecimalSum;

// The greatest integer of 38 digits.
const GREATEST: u128 = 99_999_999_999_999_999_999_999_999_999_999_999_999;

/// Returns a sum after one more run: `rows` rows of one decimal or of nulls. Refused, where it has more digits than 38,
/// with how many of these rows the sum holds.
#[inline]
pub(crate) fn with_rows(
    sum: DecimalSum,
    value: Option<i128>,
    rows: usize,
) -> Result<DecimalSum, usize>
    requires { HasDigits 38 sum.sum }
    ensures sum { IfOk result (λ next. next ≡ sum_with sum value rows) }
    ensures within { IfOk result (λ next. HasDigits 38 next.sum) }
    ensures left { IfErr result (IsLeftAfter sum.sum value rows) }
{
    let Some(number) = value else {
        return Ok(sum);
    };
    match with_run(sum.sum, number, rows) {
        Some(next) => Ok(DecimalSum {
            sum: next,
            is_empty: false,
        }),
        None => Err(held_rows(sum.sum, number, rows)),
    }
}

// Returns a sum with a run more, by one product: as many rows as given of one number. `None` where it has more digits
// than 38. The product may have more than the new sum, and more than an `i128` holds, where sum and number have
// different signs.
#[inline]
fn with_run(sum: i128, number: i128, rows: usize) -> Option<i128>
    requires { HasDigits 38 sum }
    ensures sum { IfSome result (λ next. next ≡ sum +ℤ number *ℤ pos rows) }
    ensures within { IfSome result (HasDigits 38) }
    ensures leaves { IfNone result (¬ HasDigits 38 (sum +ℤ number *ℤ pos rows)) }
{
    let way = number.unsigned_abs().checked_mul(rows as u128)?;
    let next = moved(sum, number, way)?;
    if next.unsigned_abs() <= GREATEST {
        Some(next)
    } else {
        None
    }
}

// Returns a sum moved a way to the side of a number, where an `i128` holds it.
#[inline]
fn moved(sum: i128, number: i128, way: u128) -> Option<i128>
    ensures down { number <ℤ pos 0 → SomeIff result (FitsSigned w128 (sum -ℤ pos way)) (sum -ℤ pos way) }
    ensures up { pos 0 ≤ℤ number → SomeIff result (FitsSigned w128 (sum +ℤ pos way)) (sum +ℤ pos way) }
{
    if number < 0 {
        sum.checked_sub_unsigned(way)
    } else {
        sum.checked_add_unsigned(way)
    }
}

// Returns how many rows of one number a sum holds, where it does not hold as many as given.
fn held_rows(sum: i128, number: i128, rows: usize) -> usize
    requires held { HasDigits 38 sum }
    requires leaves { ¬ HasDigits 38 (sum +ℤ number *ℤ pos rows) }
    ensures { IsHeld sum number rows result }
{
    (room_toward(sum, number) / number.unsigned_abs()) as usize
}

// Returns how far a sum can go to the side of a number.
fn room_toward(sum: i128, number: i128) -> u128
    requires { HasDigits 38 sum }
    ensures down { number <ℤ pos 0 → pos result ≡ sum +ℤ pos (10 ^ 38 - 1) }
    ensures up { pos 0 ≤ℤ number → pos result ≡ pos (10 ^ 38 - 1) -ℤ sum }
{
    if (sum < 0) == (number < 0) {
        GREATEST - sum.unsigned_abs()
    } else {
        GREATEST + sum.unsigned_abs()
    }
}
