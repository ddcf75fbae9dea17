//! Format strings, as the specification of Arrow's C data interface has them.
use column_base::{DType, DecimalDType, Nullability, PType};
use logical_types::{
    Annotation, DecimalWidth, LogicalType, Operation, TimeUnit, push_format, read_format,
};
use std::alloc::Allocator;

// Each as it is written.
static WRITTEN: [&str; 34] = [
    "c",
    "C",
    "s",
    "S",
    "i",
    "I",
    "l",
    "L",
    "e",
    "f",
    "g",
    "tdD",
    "tdm",
    "tts",
    "ttm",
    "ttu",
    "ttn",
    "tDs",
    "tDm",
    "tDu",
    "tDn",
    "tss:",
    "tsm:",
    "tsu:",
    "tsn:",
    "tss:UTC",
    "tsm:Europe/Berlin",
    "tsu:+02:00",
    "tsn:UTC,x",
    "d:1,0",
    "d:38,-128",
    "d:38,127",
    "d:9,2,32",
    "d:18,-3,64",
];

// None of these names a type that is served.
static REFUSED: [&str; 40] = [
    "",
    "b",
    "u",
    "z",
    "n",
    "td",
    "tdX",
    "tdDD",
    "tt",
    "ttx",
    "tts:",
    "ts",
    "tss",
    "tsx:",
    "tss;",
    "Tss:",
    "tD",
    "tDx",
    "tDs:",
    "tiM",
    "+r",
    "w:4",
    "cc",
    "d",
    "d:",
    "d:5",
    "d:5,",
    "d:,2",
    "d:0,0",
    "d:39,0",
    "d:10,2,32",
    "d:19,2,64",
    "d:5,2,",
    "d:5,2,256",
    "d:5,128",
    "d:5,-129",
    "d:+5,2",
    "d:5,+2",
    "d: 5,2",
    "d:5,2,128,128",
];

// Returns whether a type and zone are written as `expected`, which is read as these.
fn is_written_as<A: Allocator + Copy>(alloc: A, written: Annotation<'_>, expected: &str) -> bool {
    let mut text = String::new(alloc);
    let is_done = push_format(&mut text, written).is_ok() && text.as_str() == expected;
    match read_format(expected) {
        Some(read) => {
            is_done && read.logical() == written.logical() && read.zone() == written.zone()
        }
        None => false,
    }
}

// Returns whether a format is written as `expected` once it was read.
fn is_written<A: Allocator + Copy>(alloc: A, format: &str, expected: &str) -> bool {
    match read_format(format) {
        Some(annotation) => is_written_as(alloc, annotation, expected),
        None => false,
    }
}

#[test]
fn formats_are_read_and_written(rt: HostRuntime) {
    let alloc = rt.alloc();
    assert!(rt;
        WRITTEN
            .iter()
            .all(|format| is_written(alloc, format, format))
    );
}

#[test]
fn other_spellings_are_written_in_one(rt: HostRuntime) {
    let alloc = rt.alloc();
    let spelled = is_written(alloc, "d:5,2,128", "d:5,2")
        && is_written(alloc, "d:005,-02", "d:5,-2");
    assert!(rt; spelled);
}

#[test]
fn other_formats_are_refused(rt: HostRuntime) {
    assert!(rt; REFUSED.iter().all(|format| read_format(format).is_none()));
}

// A type, a zone, and the format that names both, or `None` where none does.
static MADE: [(LogicalType, &str, Option<&str>); 5] = [
    (
        LogicalType::Timestamp(TimeUnit::Second),
        "UTC",
        Some("tss:UTC"),
    ),
    (LogicalType::Timestamp(TimeUnit::Second), "", Some("tss:")),
    (LogicalType::Integer(PType::U8), "", Some("C")),
    (LogicalType::Integer(PType::U8), "UTC", None),
    (LogicalType::Duration(TimeUnit::Second), "UTC", None),
];

// The precision of decimals with two digits after the point, their width, a zone, and the format that names all.
static DECIMALS: [(u8, DecimalWidth, &str, Option<&str>); 7] = [
    (9, DecimalWidth::Bits32, "", Some("d:9,2,32")),
    (10, DecimalWidth::Bits32, "", None),
    (18, DecimalWidth::Bits64, "", Some("d:18,2,64")),
    (19, DecimalWidth::Bits64, "", None),
    (39, DecimalWidth::Bits128, "", None),
    (0, DecimalWidth::Bits128, "", None),
    (9, DecimalWidth::Bits32, "UTC", None),
];

// Returns whether a type and a zone are made where a format names them, and written as that.
fn is_made<A: Allocator + Copy>(
    alloc: A,
    logical: LogicalType,
    zone: &str,
    format: Option<&str>,
) -> bool {
    match (Annotation::try_new(logical, zone), format) {
        (Some(made), Some(expected)) => is_written_as(alloc, made, expected),
        (None, None) => true,
        _ => false,
    }
}

#[test]
fn only_types_that_a_format_names_are_made(rt: HostRuntime) {
    let alloc = rt.alloc();
    for line in &MADE {
        assert!(rt; is_made(alloc, line.0, line.1, line.2));
    }
    for line in &DECIMALS {
        let decimal = DecimalDType {
            precision: line.0,
            scale: 2,
        };
        let logical = LogicalType::Decimal(decimal, line.1);
        assert!(rt; is_made(alloc, logical, line.2, line.3));
    }
}

// A format, and the integers in which its type is stored.
static STORED: [(&str, PType); 9] = [
    ("tdD", PType::I32),
    ("tts", PType::I32),
    ("ttm", PType::I32),
    ("tdm", PType::I64),
    ("ttu", PType::I64),
    ("tsn:", PType::I64),
    ("tDs", PType::I64),
    ("e", PType::I16),
    ("C", PType::U8),
];

// Returns whether a format's type is stored in the integers that its line has.
fn is_stored(line: &(&str, PType)) -> bool {
    let (format, ptype) = *line;
    match read_format(format) {
        Some(found) => {
            found.logical().storage(Nullability::Nullable)
                == DType::Primitive(ptype, Nullability::Nullable)
        }
        None => false,
    }
}

#[test]
fn types_are_stored_as_arrow_stores_them(rt: HostRuntime) {
    assert!(rt; STORED.iter().all(is_stored));
}

// A format, and the type of a sum of its rows, or `None` where there is none.
static SUMMED: [(&str, Option<LogicalType>); 7] = [
    ("C", Some(LogicalType::Integer(PType::U64))),
    ("s", Some(LogicalType::Integer(PType::I64))),
    ("tDm", Some(LogicalType::Duration(TimeUnit::Millisecond))),
    ("tdD", None),
    ("tss:", None),
    ("g", None),
    ("d:3,1", None),
];

// Returns whether the sum of a format's type is of the type that its line has.
fn is_summed(line: &(&str, Option<LogicalType>)) -> bool {
    let (format, expected) = *line;
    match read_format(format) {
        Some(found) => found.logical().answer(Operation::Sum) == expected,
        None => false,
    }
}

#[test]
fn only_integers_and_durations_have_sums(rt: HostRuntime) {
    assert!(rt; SUMMED.iter().all(is_summed));
}

// Two formats, and whether rows of them are compared.
static COMPARED: [(&str, &str, bool); 5] = [
    ("tsu:UTC", "tsu:Asia/Tokyo", true),
    ("tdD", "tdD", true),
    ("tsu:", "tsu:UTC", false),
    ("tsu:", "tsm:", false),
    ("tdD", "i", false),
];

// Returns whether rows of two formats are compared where their line says so.
fn are_compared(line: &(&str, &str, bool)) -> bool {
    let (left, right, expected) = *line;
    match (read_format(left), read_format(right)) {
        (Some(one), Some(other)) => Annotation::is_compared_with(one, other) == expected,
        _ => false,
    }
}

#[test]
fn one_unit_is_compared(rt: HostRuntime) {
    assert!(rt; COMPARED.iter().all(are_compared));
}

#[test]
fn other_operations_keep_the_type(rt: HostRuntime) {
    let day = LogicalType::Timestamp(TimeUnit::Second);
    let kept = [
        Operation::Slice,
        Operation::Take,
        Operation::Filter,
        Operation::FillNull,
        Operation::Append,
        Operation::Least,
        Operation::Greatest,
    ];
    assert!(rt;
        kept.iter()
            .all(|operation| day.answer(*operation) == Some(day))
    );
}
