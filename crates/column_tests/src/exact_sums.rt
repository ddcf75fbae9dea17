//! Sums of chunks that are joined, which no line of vectors asks for. Python's `fractions` adds the values of the runs
//! exactly and divides once, which rounds correctly. NaNs, infinities and sums of 0 are by the rules of IEEE 754,
//! written out there.
use float_bits::FloatSum;

// The bits of each case's sum, and how many runs it has.
static CASES: [(u64, usize); 18] = [
    (0x4340_0000_0000_0000, 2),
    (0x4340_0000_0000_0002, 2),
    (0x7ff0_0000_0000_0000, 2),
    (0x7fef_ffff_ffff_ffff, 2),
    (0x7fef_ffff_ffff_ffff, 2),
    (0x00d0_0000_0000_0000, 2),
    (0x7ff0_0000_0000_0000, 2),
    (0x3fb9_999b_842c_5712, 2),
    (0x0000_0000_0000_0000, 2),
    (0xc010_0000_0000_0000, 2),
    (0x8000_0000_0000_0000, 2),
    (0x0000_0000_0000_0000, 2),
    (0x0000_0000_0000_0000, 0),
    (0x7ff0_0000_0000_0000, 2),
    (0xfff0_0000_0000_0000, 2),
    (0x7ff8_0000_0000_0000, 2),
    (0x7ff8_0000_0000_0000, 2),
    (0x7ff8_0000_0000_0000, 2),
];

// The runs of all cases: the bits of a float, and how many rows have it.
static RUNS: [(u64, u64); 34] = [
    (0x4340_0000_0000_0000, 1),
    (0x3ff0_0000_0000_0000, 1),
    (0x4340_0000_0000_0000, 1),
    (0x3ff0_0000_0000_0000, 3),
    (0x7fef_ffff_ffff_ffff, 1),
    (0x7c90_0000_0000_0000, 1),
    (0x7fef_ffff_ffff_ffff, 1),
    (0x7c80_0000_0000_0000, 1),
    (0x7fef_ffff_ffff_ffff, 2),
    (0xffef_ffff_ffff_ffff, 1),
    (0x0000_0000_0000_0001, 18446744073709551614),
    (0x0000_0000_0000_0001, 1),
    (0x7fef_ffff_ffff_ffff, 1),
    (0x7fef_ffff_ffff_ffff, 18446744073709551614),
    (0x3fb9_9999_9999_999a, 12345678901),
    (0xbfd3_3333_3333_3333, 4115226300),
    (0x3ff8_0000_0000_0000, 4),
    (0xbff8_0000_0000_0000, 4),
    (0xbff8_0000_0000_0000, 2),
    (0xbff0_0000_0000_0000, 1),
    (0x8000_0000_0000_0000, 1),
    (0x8000_0000_0000_0000, 2),
    (0x8000_0000_0000_0000, 3),
    (0x0000_0000_0000_0000, 1),
    (0x3ff0_0000_0000_0000, 5),
    (0x7ff0_0000_0000_0000, 1),
    (0x3ff0_0000_0000_0000, 5),
    (0xfff0_0000_0000_0000, 2),
    (0x7ff0_0000_0000_0000, 1),
    (0xfff0_0000_0000_0000, 1),
    (0x3ff0_0000_0000_0000, 1),
    (0xfff8_0000_0000_0001, 2),
    (0x7ff0_0000_0000_0001, 1),
    (0x3ff0_0000_0000_0000, 1),
];

// Adds the runs from `start` on, `count` of them.
fn sum_of(start: usize, count: usize) -> FloatSum {
    let mut sum = FloatSum::new();
    for run in RUNS.iter().skip(start).take(count) {
        if run.1 <= u64::MAX - sum.rows() {
            sum.add_run(run.0, run.1);
        }
    }
    sum
}

// Returns whether the sum of a case is the expected one, in two chunks.
fn is_exact(start: usize, case: (u64, usize)) -> bool {
    let (expected, count) = case;
    let first = count / 2;
    let mut chunks = sum_of(start, first);
    let rest = sum_of(start.wrapping_add(first), count - first);
    if rest.rows() > u64::MAX - chunks.rows() {
        return false;
    }
    chunks.join(&rest);
    chunks.rounded() == expected
}

#[test]
fn chunks_are_joined_and_rounded_once(rt: HostRuntime) {
    let mut start: usize = 0;
    let mut are_exact = true;
    for case in CASES.iter() {
        are_exact = are_exact && is_exact(start, *case);
        start = start.wrapping_add(case.1);
    }
    assert!(rt; are_exact);
}
