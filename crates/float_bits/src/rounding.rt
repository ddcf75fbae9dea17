//! Digits rounded to a float.
ghost use Rattle.std.specs.Prelude.{◌≡◌, ℕ, ◌+◌, ◌*◌, ◌^◌, ◌<◌, ◌≤◌, ◌↔◌, length, slice_index, take, IsTrue};
ghost use Rattle.float_bits.specs.Nearest.{IsNearest, distance};
ghost use Rattle.float_bits.specs.Places.{AreBelow, base, value};
ghost use Rattle.float_bits.specs.Window.{IsCut};

use crate::bins::subtract;
use crate::float_sum::{EXPONENT_UNIT, INFINITY};

const BASE: u128 = 1 << 32;

/// Returns whether the first number is below the second, and the bits of the float that is nearest to their distance,
/// at a tie the even one.
pub(crate) fn round_difference(left: &[u128; 68], right: &[u128; 68]) -> (bool, u64)
    requires left { AreBelow base left.now }
    requires right { AreBelow base right.now }
    ensures is_negative { IsTrue result.0 ↔ (value left.now < value right.now) }
    ensures size { IsNearest (distance (value left.now) (value right.now)) result.1 }
{
    let mut above = *left;
    if subtract(&mut above, right) == 0 {
        return (false, round(&above));
    }
    let mut below = *right;
    let _ = subtract(&mut below, left);
    (true, round(&below))
}

// Returns the bits of the float that is nearest to a number, at a tie the even one: infinity's past the finite floats.
fn round(digits: &[u128]) -> u64
    requires digits { AreBelow base digits.now }
    requires places { length digits.now ≡ 68 }
    ensures { IsNearest (value digits.now) result }
{
    let place = window_place(digits);
    let is_inexact = has_digits(digits, place);
    let window = digits[place] + BASE * (digits[place + 1] + BASE * digits[place + 2]);
    round_window(window, place as u64, is_inexact)
}

// Returns the lowest of the three places from the highest digit down, or the lowest of all.
fn window_place(digits: &[u128]) -> usize
    requires { length digits.now ≡ 68 }
    ensures place { result ≤ 65 }
    ensures value { value digits.now ≡ value (take (result + 3) digits.now) }
    ensures highest { 0 < result → 0 < slice_index digits.now (result + 2) }
{
    let mut place = 65;
    while place > 0 && digits[place + 2] == 0 {
        place -= 1;
    }
    place
}

// Returns whether a digit before this place is not 0.
fn has_digits(digits: &[u128], end: usize) -> bool
    requires { end ≤ length digits.now }
    ensures { IsTrue result ↔ (0 < value (take end digits.now)) }
{
    let mut found = false;
    for place in 0..end {
        if digits[place] != 0 {
            found = true;
        }
    }
    found
}

// Returns the bits of the float that is nearest to a number, by its window of three digits, the places after these, and
// whether there is anything in them.
fn round_window(window: u128, places: u64, is_inexact: bool) -> u64
    requires window { window < 2 ^ 96 }
    requires places { places ≤ 65 }
    requires high { 0 < places → 2 ^ 64 ≤ window }
    ensures { (rest : ℕ) → rest < base ^ places → (IsTrue is_inexact ↔ (0 < rest)) →
        IsNearest (window * base ^ places + rest) result }
{
    if window < 1 << 53 {
        return window as u64;
    }
    let cut = cut_window(window);
    let doublings = 32 * places + cut.digits;
    if doublings > 2045 {
        return INFINITY;
    }
    let bits = doublings * EXPONENT_UNIT + cut.kept;
    if cut.lost < cut.half {
        return bits;
    }
    if cut.lost > cut.half || is_inexact {
        return bits + 1;
    }
    bits + cut.kept % 2
}

// A window cut after its 53 highest binary digits: those, the number of the other digits, what they count for, and half
// of what 1 in the kept ones counts for.
#[derive(Clone, Copy)]
struct Cut {
    kept: u64,
    digits: u64,
    lost: u128,
    half: u128,
}

// Cuts a window of more than 53 binary digits.
fn cut_window(window: u128) -> Cut
    requires low { 2 ^ 53 ≤ window }
    requires high { window < 2 ^ 96 }
    ensures { IsCut window result.kept result.digits result.lost result.half }
{
    let digits = digits_past(window);
    let unit = 1u128 << digits;
    Cut {
        kept: (window / unit) as u64,
        digits,
        lost: window % unit,
        half: unit / 2,
    }
}

// Returns how many binary digits a window has past 53.
fn digits_past(window: u128) -> u64
    requires low { 2 ^ 53 ≤ window }
    requires high { window < 2 ^ 96 }
    ensures some { 0 < result }
    ensures few { result ≤ 43 }
    ensures low { 2 ^ 52 * 2 ^ result ≤ window }
    ensures high { window < 2 ^ 53 * 2 ^ result }
{
    75 - u64::from(window.leading_zeros())
}
