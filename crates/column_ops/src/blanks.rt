//! One item put in place of others where bits are 0, a word of 64 bits at a time.
ghost use Rattle.std.specs.Prelude.{◌≡◌, ◌≢◌, ℕ, ◌+◌, ◌*◌, ◌/◌, ◌%◌, ◌≤◌, ◌<◌, length, slice_index, slice_index_or};
ghost use Rattle.std.specs.Int.{bit_at};

/// Writes the item at each place whose bit is 0. A word of ones costs one comparison, since nulls are few.
#[inline(always)]
pub(crate) fn put_at_zeros<T: Copy + Drop>(items: &mut [T], words: &[u64], item: T)
    requires { length items.old ≤ length words.now * 64 }
    ensures len { length items.new ≡ length items.old }
    ensures put { (k : ℕ) → k < length items.old → bit_at (slice_index words.now (k / 64)) (k % 64) ≡ 0 →
        slice_index_or items.new k item ≡ item }
    ensures kept { (k : ℕ) → k < length items.old → bit_at (slice_index words.now (k / 64)) (k % 64) ≡ 1 →
        slice_index_or items.new k item ≡ slice_index_or items.old k item }
{
    for index in 0..items.len().div_ceil(64) {
        put_at_ones(items, index * 64, !words[index], item);
    }
}

// The item at each place, from `start` on, whose bit is 1.
#[inline(always)]
fn put_at_ones<T: Copy + Drop>(items: &mut [T], start: usize, ones: u64, item: T)
    requires { start ≤ length items.old }
    ensures len { length items.new ≡ length items.old }
    ensures put { (j : ℕ) → j < 64 → bit_at ones j ≡ 1 → slice_index_or items.new (start + j) item ≡ item }
    ensures kept { (j : ℕ) → j < 64 → bit_at ones j ≡ 0 → slice_index_or items.new (start + j) item ≡
        slice_index_or items.old (start + j) item }
    ensures before { (k : ℕ) → k < start → slice_index_or items.new k item ≡ slice_index_or items.old k item }
    ensures behind { (k : ℕ) → start + 64 ≤ k → slice_index_or items.new k item ≡ slice_index_or items.old k item }
{
    let mut left = ones;
    while left != 0 {
        put_within(items, start, left.trailing_zeros() as usize, item);
        left &= left - 1;
    }
}

// The item `lane` places after `start`, where there is one: the last word has bits after the last item.
#[inline(always)]
fn put_within<T: Copy + Drop>(items: &mut [T], start: usize, lane: usize, item: T)
    requires { start ≤ length items.old }
    ensures len { length items.new ≡ length items.old }
    ensures here { slice_index_or items.new (start + lane) item ≡ item }
    ensures others { (k : ℕ) → k ≢ start + lane → slice_index_or items.new k item ≡ slice_index_or items.old k item }
{
    if lane < items.len() - start {
        items[start + lane] = item;
    }
}
