//! The one error type of all columns.
ghost use Rattle.std.specs.Prelude.{◌≡◌};
ghost use Rattle.column_base.specs.declared.error.VortexError.TheVariants.{OutOfMemory};

use std::alloc::{AllocError, AllocFailed};
use thiserror::Error;

/// Holds the answer of a call that may be refused.
pub type VortexResult<T> = Result<T, VortexError>;

/// Says why a call was refused. Each variant has a number, from 1 in the order below, which is
/// given in parentheses; its text is its name. Lengths, offsets and ends count rows, and runs are
/// counted from 0.
#[derive(Clone, Copy, Debug, PartialEq, Eq, Error)]
pub enum VortexError {
    /// Says that the ends are not a plain non-nullable column of an unsigned type (1).
    #[error("EndsNotUnsigned")]
    EndsNotUnsigned,
    /// Says that there is not one value for each run (2).
    #[error("LengthsDiffer")]
    LengthsDiffer {
        ends: usize,
        values: usize,
    },
    /// Says that the column has no runs, but the offset or the length is not 0 (3).
    #[error("NoRunsWindow")]
    NoRunsWindow {
        offset: usize,
        length: usize,
    },
    /// Has the first run whose end is not above the end before it (4).
    #[error("EndsNotStrict")]
    EndsNotStrict {
        run: usize,
    },
    /// Says that offset and length add up to 2^64 or more (5).
    #[error("WindowOverflow")]
    WindowOverflow,
    /// Says that the first run ends before the window begins (6).
    #[error("FirstEndBelowOffset")]
    FirstEndBelowOffset {
        end: usize,
        offset: usize,
    },
    /// Says that the last run ends before the window does, which ends at `required` (7).
    #[error("LastEndBelowWindow")]
    LastEndBelowWindow {
        end: usize,
        required: usize,
    },
    /// Has an index that is negative, or not below the length that it is compared with (8).
    #[error("OutOfBounds")]
    OutOfBounds {
        index: i128,
        length: usize,
    },
    /// Has a range that begins after its stop, or stops after the length (9).
    #[error("BadRange")]
    BadRange {
        start: usize,
        stop: usize,
        length: usize,
    },
    /// Says that a mask is of another number of rows than the column (10).
    #[error("MaskLength")]
    MaskLength {
        mask: usize,
        length: usize,
    },
    /// Says that two columns which belong together differ in length (11).
    #[error("ColumnLength")]
    ColumnLength {
        left: usize,
        right: usize,
    },
    /// Says that a type is not the one that is asked for (12).
    #[error("TypeMismatch")]
    TypeMismatch,
    /// Says that the call does not serve columns of this type (13).
    #[error("Unsupported")]
    Unsupported,
    /// Says that the type that is cast to does not have the number (14).
    #[error("CastOutOfRange")]
    CastOutOfRange,
    /// Says that there is a null where the type has none (15).
    #[error("NullNotAllowed")]
    NullNotAllowed,
    /// Says that nulls are to be filled with null (16).
    #[error("NullFill")]
    NullFill,
    /// Says that bytes are not a metadata record or a message (17).
    #[error("BadMetadata")]
    BadMetadata,
    /// Says that a metadata record has an unknown number for the type of the ends (18).
    #[error("EndsTypeNumber")]
    EndsTypeNumber {
        number: u64,
    },
    /// Says that a metadata record states another number of runs than there are (19).
    #[error("RunCount")]
    RunCount {
        stated: u64,
        found: usize,
    },
    /// Says that only a plain column of integers can be encoded (20).
    #[error("OnlyPrimitive")]
    OnlyPrimitive,
    /// Says that a growth of memory was refused (21).
    #[error("OutOfMemory")]
    OutOfMemory,
}

impl VortexError {
    ghost use Rattle.std.specs.Prelude.{◌≡◌};
    ghost use Rattle.column_base.specs.Error.{number_of};

    /// Returns the error's number, from 1 to 21 in the order of the variants.
    pub fn number(self) -> u8
        ensures { result ≡ number_of self }
    {
        match self {
            VortexError::EndsNotUnsigned => 1,
            VortexError::LengthsDiffer { .. } => 2,
            VortexError::NoRunsWindow { .. } => 3,
            VortexError::EndsNotStrict { .. } => 4,
            VortexError::WindowOverflow => 5,
            VortexError::FirstEndBelowOffset { .. } => 6,
            VortexError::LastEndBelowWindow { .. } => 7,
            VortexError::OutOfBounds { .. } => 8,
            VortexError::BadRange { .. } => 9,
            VortexError::MaskLength { .. } => 10,
            VortexError::ColumnLength { .. } => 11,
            VortexError::TypeMismatch => 12,
            VortexError::Unsupported => 13,
            VortexError::CastOutOfRange => 14,
            VortexError::NullNotAllowed => 15,
            VortexError::NullFill => 16,
            VortexError::BadMetadata => 17,
            VortexError::EndsTypeNumber { .. } => 18,
            VortexError::RunCount { .. } => 19,
            VortexError::OnlyPrimitive => 20,
            VortexError::OutOfMemory => 21,
        }
    }
}

impl From<AllocError> for VortexError {
    ghost from_gives = { λ _ e. e ≡ OutOfMemory };

    fn from(_error: AllocError) -> VortexError {
        VortexError::OutOfMemory
    }
}

impl<T: Drop> From<AllocFailed<T>> for VortexError {
    ghost from_gives = { λ _ e. e ≡ OutOfMemory };

    fn from(_error: AllocFailed<T>) -> VortexError {
        VortexError::OutOfMemory
    }
}
