//! The types.
ghost use Rattle.std.specs.Prelude.{◌≡◌};
ghost use Rattle.logical_types.specs.Formats.{most_digits};

use column_base::{DecimalDType, PType};
use float_bits::FloatFormat;

/// Says what a number of times, timestamps and durations counts.
#[derive(Clone, Copy, Debug, PartialEq, Eq)]
pub enum TimeUnit {
    Second,
    Millisecond,
    Microsecond,
    Nanosecond,
}

/// Says what a number of dates counts, from 1970-01-01 on.
#[derive(Clone, Copy, Debug, PartialEq, Eq)]
pub enum DateUnit {
    Day,
    Millisecond,
}

/// Says how wide the decimals of another library are. Here each has 128 bits.
#[derive(Clone, Copy, Debug, PartialEq, Eq)]
pub enum DecimalWidth {
    Bits32,
    Bits64,
    Bits128,
}

/// Says what the numbers of a column mean.
#[derive(Clone, Copy, Debug, PartialEq, Eq)]
pub enum LogicalType {
    /// Means the integers themselves.
    Integer(PType),
    /// Means floating-point numbers, stored by their keys in the total order (`float_bits`).
    Float(FloatFormat),
    /// Means days of the calendar.
    Date(DateUnit),
    /// Means times of a day, counted from midnight.
    TimeOfDay(TimeUnit),
    /// Means points in time, counted from 1970-01-01 00:00: in UTC where there is a zone, else by an unknown clock.
    Timestamp(TimeUnit),
    /// Means lengths of time.
    Duration(TimeUnit),
    /// Means decimals.
    Decimal(DecimalDType, DecimalWidth),
}

impl DecimalWidth {
    // Returns how many digits a decimal of this width may have.
    pub(crate) fn most_digits(self) -> u8
        ensures { result ≡ most_digits self }
    {
        match self {
            DecimalWidth::Bits32 => 9,
            DecimalWidth::Bits64 => 18,
            DecimalWidth::Bits128 => 38,
        }
    }
}
