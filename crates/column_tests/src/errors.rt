//! The texts of errors.
use column_base::{VortexError, VortexResult};
use std::alloc::Global;

// An error of each kind, in the order of their numbers, and its text.
static TEXTS: [(VortexError, &str); 21] = [
    (VortexError::EndsNotUnsigned, "EndsNotUnsigned"),
    (
        VortexError::LengthsDiffer { ends: 2, values: 3 },
        "LengthsDiffer",
    ),
    (
        VortexError::NoRunsWindow {
            offset: 0,
            length: 1,
        },
        "NoRunsWindow",
    ),
    (VortexError::EndsNotStrict { run: 1 }, "EndsNotStrict"),
    (VortexError::WindowOverflow, "WindowOverflow"),
    (
        VortexError::FirstEndBelowOffset { end: 1, offset: 2 },
        "FirstEndBelowOffset",
    ),
    (
        VortexError::LastEndBelowWindow {
            end: 3,
            required: 4,
        },
        "LastEndBelowWindow",
    ),
    (
        VortexError::OutOfBounds {
            index: -1,
            length: 2,
        },
        "OutOfBounds",
    ),
    (
        VortexError::BadRange {
            start: 2,
            stop: 1,
            length: 5,
        },
        "BadRange",
    ),
    (VortexError::MaskLength { mask: 1, length: 2 }, "MaskLength"),
    (
        VortexError::ColumnLength { left: 1, right: 2 },
        "ColumnLength",
    ),
    (VortexError::TypeMismatch, "TypeMismatch"),
    (VortexError::Unsupported, "Unsupported"),
    (VortexError::CastOutOfRange, "CastOutOfRange"),
    (VortexError::NullNotAllowed, "NullNotAllowed"),
    (VortexError::NullFill, "NullFill"),
    (VortexError::BadMetadata, "BadMetadata"),
    (VortexError::EndsTypeNumber { number: 9 }, "EndsTypeNumber"),
    (
        VortexError::RunCount {
            stated: 4,
            found: 3,
        },
        "RunCount",
    ),
    (VortexError::OnlyPrimitive, "OnlyPrimitive"),
    (VortexError::OutOfMemory, "OutOfMemory"),
];

// Is the error shown as this text?
fn is_shown(alloc: Global, error: VortexError, text: &str) -> VortexResult<bool> {
    let shown = format!(in alloc; "{error}")?;
    let is_due = shown.as_str() == text;
    drop(shown);
    Ok(is_due)
}

#[test]
fn each_error_is_shown_as_its_name(rt: HostRuntime) {
    let alloc = rt.alloc();
    assert!(rt;
        TEXTS
            .iter()
            .all(|line| is_shown(alloc, line.0, line.1) == Ok(true))
    );
}
