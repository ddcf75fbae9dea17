//! Natural numbers by digits below 2^32, the lowest first.
ghost use Rattle.std.specs.Prelude.{◌≡◌, ◌+◌, ◌*◌, ◌^◌, ◌<◌, ◌≤◌, length, IsTrue, MatchBool, SomeIff};
ghost use Rattle.exact_numbers.specs.Quotients.{IsQuotient};
ghost use Rattle.float_bits.specs.Places.{AreBelow, base, value};

const BASE: u64 = 1 << 32;

/// Returns a number of 128 bits, with room for 512 more.
pub(crate) fn digits_of(number: u128) -> [u64; 20]
    ensures value { value result ≡ number }
    ensures digits { AreBelow base result }
{
    let low = (number % WORD) as u64;
    let high = (number / WORD) as u64;
    let mut digits = [0; 20];
    digits[0] = low % BASE;
    digits[1] = low / BASE;
    digits[2] = high % BASE;
    digits[3] = high / BASE;
    digits
}

const WORD: u128 = 1 << 64;

/// Returns the number where 128 bits have it.
pub(crate) fn number_of(digits: &[u64]) -> Option<u128>
    requires { AreBelow base digits.now }
    ensures { SomeIff result (value digits.now < 2 ^ 128) (value digits.now) }
{
    let mut number: u128 = 0;
    let mut place = digits.len();
    while place > 0 {
        place -= 1;
        if number >= MOST {
            return None;
        }
        number = number * (BASE as u128) + digits[place] as u128;
    }
    Some(number)
}

// Holds the least number that is past 128 bits with a digit more.
const MOST: u128 = 1 << 96;

/// Multiplies a number by a factor, as often as said, and returns whether there is room for it; else the digits are
/// any.
pub(crate) fn multiply_times(digits: &mut [u64], factor: u64, times: u32) -> bool
    requires digits { AreBelow base digits.old }
    requires some { 0 < factor }
    requires digit { factor < base }
    ensures digits { AreBelow base digits.new }
    ensures value { MatchBool result (value digits.new ≡ value digits.old * factor ^ times)
        (base ^ length digits.old ≤ value digits.old * factor ^ times) }
{
    for _time in 0..times {
        if multiply(digits, factor) > 0 {
            return false;
        }
    }
    true
}

/// Divides a number by a divisor, as often as said, and returns whether no rest is left at any time.
pub(crate) fn divide_times(digits: &mut [u64], divisor: u64, times: u32) -> bool
    requires digits { AreBelow base digits.old }
    requires some { 0 < divisor }
    requires digit { divisor < base }
    ensures digits { AreBelow base digits.new }
    ensures quotient { IsQuotient (value digits.old) (divisor ^ times) (value digits.new) result }
{
    let mut is_exact = true;
    for _time in 0..times {
        let rest = divide(digits, divisor);
        is_exact = is_exact && rest == 0;
    }
    is_exact
}

// Multiplies a number by one digit, and returns what the highest place carries.
fn multiply(digits: &mut [u64], factor: u64) -> u64
    requires digits { AreBelow base digits.old }
    requires digit { factor < base }
    ensures value { value digits.new + result * base ^ length digits.old ≡ value digits.old * factor }
    ensures digits { AreBelow base digits.new }
{
    let mut carried: u64 = 0;
    for digit in digits.iter_mut() {
        let product = *digit * factor + carried;
        *digit = product % BASE;
        carried = product / BASE;
    }
    carried
}

// Divides a number by one digit, from the highest place on, and returns the rest.
fn divide(digits: &mut [u64], divisor: u64) -> u64
    requires digits { AreBelow base digits.old }
    requires some { 0 < divisor }
    requires digit { divisor < base }
    ensures value { value digits.new * divisor + result ≡ value digits.old }
    ensures rest { result < divisor }
    ensures digits { AreBelow base digits.new }
{
    let mut rest: u64 = 0;
    let mut place = digits.len();
    while place > 0 {
        place -= 1;
        let number = rest * BASE + digits[place];
        digits[place] = number / divisor;
        rest = number % divisor;
    }
    rest
}
