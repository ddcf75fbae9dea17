//! Times counted in other units. Python made the table: `fractions.Fraction(value * unit, other)` is whole, or it is
//! not.
use logical_types::{read_format, recount};

// A number, the format of its type, another format, and the number that counts the same time in it.
static COUNTED: [(i64, &str, &str, Option<i64>); 22] = [
    (0, "tss:", "tsn:", Some(0)),
    (-1, "tss:", "tsm:", Some(-1_000)),
    (1_500, "tsm:", "tss:", None),
    (-2_000, "tsm:", "tss:", Some(-2)),
    (
        9_223_372_036,
        "tss:",
        "tsn:",
        Some(9_223_372_036_000_000_000),
    ),
    (9_223_372_037, "tss:", "tsn:", None),
    (-9_223_372_037, "tss:", "tsn:", None),
    (
        9_223_372_036_854_775_807,
        "tsn:",
        "tsn:UTC",
        Some(9_223_372_036_854_775_807),
    ),
    (
        -9_223_372_036_854_775_808,
        "tsu:",
        "tsu:",
        Some(-9_223_372_036_854_775_808),
    ),
    (-9_223_372_036_854_775_808, "tsu:", "tsn:", None),
    (20_454, "tdD", "tdm", Some(1_767_225_600_000)),
    (20_454, "tdD", "tss:", Some(1_767_225_600)),
    (1_767_225_601, "tss:", "tdD", None),
    (-86_400, "tss:", "tdD", Some(-1)),
    (2_147_483_647, "tdD", "tsm:", Some(185_542_587_100_800_000)),
    (185_542_587_187_200_000, "tsm:", "tdD", None),
    (86_399, "tts", "ttn", Some(86_399_000_000_000)),
    (2_147_483_648_000, "ttu", "ttm", None),
    (7, "tDu", "tDn", Some(7_000)),
    (7, "tDu", "tsn:", None),
    (7, "i", "i", None),
    (7, "tts", "tDs", None),
];

// Returns whether a line of the table is answered as it says.
fn is_counted(line: &(i64, &str, &str, Option<i64>)) -> bool {
    let (value, from, to, expected) = *line;
    match (read_format(from), read_format(to)) {
        (Some(one), Some(other)) => recount(value, one.logical(), other.logical()) == expected,
        _ => false,
    }
}

#[test]
fn times_are_counted_as_in_python(rt: HostRuntime) {
    assert!(rt; COUNTED.iter().all(is_counted));
}
