//! Orders and comparisons that no column asks for, against the numbers that Python's `struct` reads from the same bits,
//! sorted by Python. NaNs are placed by `totalOrder` of IEEE 754: minus before all numbers, plus after them, by their
//! payloads.
use float_bits::{FloatFormat, compare_total, is_equal, is_less};
use std::cmp::Ordering;

// The bits of a float, and the place of its number among those of its list: both zeros have one, and a NaN has none.
type Pattern = (u64, Option<u8>);

// Ascending in the total order.
static SORTED_64: [Pattern; 22] = [
    (0xffff_ffff_ffff_ffff, None),
    (0xfff8_0000_0000_0001, None),
    (0xfff8_0000_0000_0000, None),
    (0xfff0_0000_0000_0001, None),
    (0xfff0_0000_0000_0000, Some(0)),
    (0xffef_ffff_ffff_ffff, Some(1)),
    (0xc004_0000_0000_0000, Some(2)),
    (0xbff0_0000_0000_0000, Some(3)),
    (0x8010_0000_0000_0000, Some(4)),
    (0x8000_0000_0000_0001, Some(5)),
    (0x8000_0000_0000_0000, Some(6)),
    (0x0000_0000_0000_0000, Some(6)),
    (0x0000_0000_0000_0001, Some(7)),
    (0x0010_0000_0000_0000, Some(8)),
    (0x3fb9_9999_9999_999a, Some(9)),
    (0x3ff0_0000_0000_0000, Some(10)),
    (0x3ff0_0000_0000_0001, Some(11)),
    (0x7e37_e43c_8800_759c, Some(12)),
    (0x7ff0_0000_0000_0000, Some(13)),
    (0x7ff0_0000_0000_0001, None),
    (0x7ff8_0000_0000_0000, None),
    (0x7fff_ffff_ffff_ffff, None),
];

// Ascending in the total order.
static SORTED_32: [Pattern; 15] = [
    (0xffff_ffff, None),
    (0xffc0_0000, None),
    (0xff80_0001, None),
    (0xff80_0000, Some(0)),
    (0xc060_0000, Some(1)),
    (0x8000_0001, Some(2)),
    (0x8000_0000, Some(3)),
    (0x0000_0000, Some(3)),
    (0x0000_0001, Some(4)),
    (0x3f00_0000, Some(5)),
    (0x3f80_0000, Some(6)),
    (0x7f80_0000, Some(7)),
    (0x7f80_0001, None),
    (0x7fc0_0000, None),
    (0x7fff_ffff, None),
];

// Ascending in the total order.
static SORTED_16: [Pattern; 16] = [
    (0xffff, None),
    (0xfe00, None),
    (0xfc01, None),
    (0xfc00, Some(0)),
    (0xfbff, Some(1)),
    (0x8001, Some(2)),
    (0x8000, Some(3)),
    (0x0000, Some(3)),
    (0x0001, Some(4)),
    (0x3c00, Some(5)),
    (0x3e00, Some(6)),
    (0x7bff, Some(7)),
    (0x7c00, Some(8)),
    (0x7c01, None),
    (0x7e00, None),
    (0x7fff, None),
];

// Returns whether patterns ascend in the total order.
fn ascend(format: FloatFormat, patterns: &[Pattern]) -> bool {
    let sign_bit = format.sign_bit();
    let mut ascending = true;
    for pair in patterns.windows(2) {
        if pair[0].0 / 2 >= sign_bit || pair[1].0 / 2 >= sign_bit {
            return false;
        }
        let order = compare_total(format, pair[0].0, pair[1].0);
        ascending = ascending && order == Ordering::Less;
    }
    ascending
}

#[test]
fn patterns_are_in_the_total_order(rt: HostRuntime) {
    let all = ascend(FloatFormat::F64, &SORTED_64)
        && ascend(FloatFormat::F32, &SORTED_32)
        && ascend(FloatFormat::F16, &SORTED_16);
    assert!(rt; all);
}

// Returns whether two floats compare as their numbers do.
fn compares(format: FloatFormat, left: &Pattern, right: &Pattern) -> bool {
    let sign_bit = format.sign_bit();
    if left.0 / 2 >= sign_bit || right.0 / 2 >= sign_bit {
        return false;
    }
    let (is_below, is_same) = match (left.1, right.1) {
        (Some(one), Some(other)) => (one < other, one == other),
        _ => (false, false),
    };
    is_less(format, left.0, right.0) == is_below && is_equal(format, left.0, right.0) == is_same
}

// Returns whether a float compares with each of these as their numbers do.
fn compares_with(format: FloatFormat, left: &Pattern, patterns: &[Pattern]) -> bool {
    patterns.iter().all(|right| compares(format, left, right))
}

// Returns whether each two of these floats compare as their numbers do.
fn all_compare(format: FloatFormat, patterns: &[Pattern]) -> bool {
    patterns
        .iter()
        .all(|left| compares_with(format, left, patterns))
}

#[test]
fn floats_compare_as_in_python(rt: HostRuntime) {
    let all = all_compare(FloatFormat::F64, &SORTED_64)
        && all_compare(FloatFormat::F32, &SORTED_32)
        && all_compare(FloatFormat::F16, &SORTED_16);
    assert!(rt; all);
}
