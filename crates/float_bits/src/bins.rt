//! Natural numbers in bins: the bin at a place counts for 2^32 to the power of the place, and may hold more than one
//! digit.
ghost use Rattle.std.specs.Prelude.{◌≡◌, ℕ, ◌+◌, ◌*◌, ◌^◌, ◌<◌, ◌≤◌, length, slice_index, slice_set};
ghost use Rattle.float_bits.specs.Places.{AreBelow, base, places, value};

const BASE: u128 = 1 << 32;

const WORD: u128 = 1 << 64;

/// Adds a product that is doubled this many times: to two bins, each by less than 2^96.
pub(crate) fn add_product(bins: &mut [u128], digits: u64, times: u64, doublings: u64)
    requires digits { digits < 2 ^ 53 }
    requires doublings { doublings ≤ 2045 }
    requires places { length bins.old ≡ places }
    requires room { AreBelow (2 ^ 127) bins.old }
    ensures value { value bins.new ≡ value bins.old + times * (digits * 2 ^ doublings) }
    ensures bins { (k : ℕ) → slice_index bins.new k < slice_index bins.old k + 2 ^ 96 }
{
    let product = u128::from(digits) * u128::from(times);
    let place = (doublings / 32) as usize;
    let shift = doublings % 32;
    add_at(bins, place, (product % WORD) << shift);
    add_at(bins, place + 2, (product / WORD) << shift);
}

// Adds to the bin at a place.
fn add_at(bins: &mut [u128], place: usize, amount: u128)
    requires place { place < length bins.old }
    requires room { slice_index bins.old place + amount < 2 ^ 128 }
    ensures value { value bins.new ≡ value bins.old + amount * base ^ place }
    ensures bins { bins.new ≡ slice_set bins.old place (slice_index bins.old place + amount) }
{
    bins[place] += amount;
}

/// Adds bin by bin.
pub(crate) fn add_bins(bins: &mut [u128], others: &[u128])
    requires length { length bins.old ≡ length others.now }
    requires bins { AreBelow (2 ^ 126) bins.old }
    requires others { AreBelow (2 ^ 126) others.now }
    ensures value { value bins.new ≡ value bins.old + value others.now }
    ensures bins { AreBelow (2 ^ 127) bins.new }
{
    for place in 0..bins.len() {
        bins[place] += others[place];
    }
}

/// Carries, so that each bin holds a digit. The number is unchanged, since there is room for it.
pub(crate) fn settle(bins: &mut [u128])
    requires bins { AreBelow (2 ^ 127) bins.old }
    requires room { value bins.old < base ^ length bins.old }
    ensures value { value bins.new ≡ value bins.old }
    ensures digits { AreBelow base bins.new }
{
    let _ = carry(bins);
}

// Carries, so that each bin holds a digit, and returns what the last one carries.
fn carry(bins: &mut [u128]) -> u128
    requires { AreBelow (2 ^ 127) bins.old }
    ensures value { value bins.new + result * base ^ length bins.old ≡ value bins.old }
    ensures digits { AreBelow base bins.new }
{
    let mut carried: u128 = 0;
    for bin in bins.iter_mut() {
        let sum = *bin + carried;
        *bin = sum % BASE;
        carried = sum / BASE;
    }
    carried
}

/// Subtracts digits from digits, and returns what the last place borrows: 1 where the second number is larger, else 0.
pub(crate) fn subtract(digits: &mut [u128], others: &[u128]) -> u128
    requires length { length digits.old ≡ length others.now }
    requires digits { AreBelow base digits.old }
    requires others { AreBelow base others.now }
    ensures value { value digits.new + value others.now ≡ value digits.old + result * base ^ length digits.old }
    ensures digits { AreBelow base digits.new }
    ensures borrowed { result ≤ 1 }
{
    let mut borrowed: u128 = 0;
    for place in 0..digits.len() {
        let digit = digits[place];
        let other = others[place] + borrowed;
        if other <= digit {
            digits[place] = digit - other;
            borrowed = 0;
        } else {
            digits[place] = digit + BASE - other;
            borrowed = 1;
        }
    }
    borrowed
}
