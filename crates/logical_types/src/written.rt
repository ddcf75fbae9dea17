//! The format strings of Arrow's C data interface, written.
ghost use Rattle.std.specs.Prelude.{◌≡◌, ◌++◌, [], OnErr, OnOk};
ghost use Rattle.std.specs.String.{string_bytes};
ghost use Rattle.logical_types.specs.Formats.{IsReadAs, date_format, duration_format, float_format, format_of, integer_format, time_format, timestamp_format, written_ending};
ghost use Rattle.logical_types.specs.declared.types.LogicalType.TheVariants.{Decimal};

use crate::annotation::Annotation;
use crate::types::{DateUnit, DecimalWidth, LogicalType, TimeUnit};
use column_base::{DecimalDType, PType};
use float_bits::FloatFormat;
use std::alloc::{AllocError, Allocator};

/// Appends the format string of a type to the text, with the zone of timestamps: `read_format` reads that string as
/// this type and zone. Refused only for memory, and then the text stays as it was.
pub fn push_format<A: Allocator + Copy>(
    text: &mut String<A>,
    annotation: Annotation<'_>,
) -> Result<(), AllocError>
    ensures written { OnOk result (string_bytes text.new ≡
        string_bytes text.old ++ format_of annotation.entry.logical annotation.entry.zone.now) }
    ensures read { IsReadAs (format_of annotation.entry.logical annotation.entry.zone.now) annotation.entry.logical
        annotation.entry.zone.now }
    ensures kept { OnErr result (string_bytes text.new ≡ string_bytes text.old) }
{
    match annotation.logical {
        LogicalType::Integer(ptype) => text.push_str(integer_format(ptype)),
        LogicalType::Float(format) => text.push_str(float_format(format)),
        LogicalType::Date(unit) => text.push_str(date_format(unit)),
        LogicalType::TimeOfDay(unit) => text.push_str(time_format(unit)),
        LogicalType::Timestamp(unit) => {
            let clock = timestamp_format(unit);
            let zone = annotation.zone;
            let word = format!(in *text.allocator(); "{clock}:{zone}")?;
            text.push_str(word.as_str())
        }
        LogicalType::Duration(unit) => text.push_str(duration_format(unit)),
        LogicalType::Decimal(decimal, width) => push_decimal(text, decimal, width),
    }
}

// Puts the format string of decimals after the text.
fn push_decimal<A: Allocator + Copy>(
    text: &mut String<A>,
    decimal: DecimalDType,
    width: DecimalWidth,
) -> Result<(), AllocError>
    ensures written { OnOk result (string_bytes text.new ≡
        string_bytes text.old ++ format_of (Decimal decimal width) []) }
    ensures kept { OnErr result (string_bytes text.new ≡ string_bytes text.old) }
{
    let precision = decimal.precision;
    let scale = decimal.scale;
    let ending = ending(width);
    let word = format!(in *text.allocator(); "d:{precision},{scale}{ending}")?;
    text.push_str(word.as_str())
}

fn ending(width: DecimalWidth) -> &'static str
    ensures { result.now ≡ written_ending width }
{
    match width {
        DecimalWidth::Bits32 => ",32",
        DecimalWidth::Bits64 => ",64",
        DecimalWidth::Bits128 => "",
    }
}

fn integer_format(ptype: PType) -> &'static str
    ensures { result.now ≡ integer_format ptype }
{
    match ptype {
        PType::U8 => "C",
        PType::U16 => "S",
        PType::U32 => "I",
        PType::U64 => "L",
        PType::I8 => "c",
        PType::I16 => "s",
        PType::I32 => "i",
        PType::I64 => "l",
    }
}

fn float_format(format: FloatFormat) -> &'static str
    ensures { result.now ≡ float_format format }
{
    match format {
        FloatFormat::F16 => "e",
        FloatFormat::F32 => "f",
        FloatFormat::F64 => "g",
    }
}

fn date_format(unit: DateUnit) -> &'static str
    ensures { result.now ≡ date_format unit }
{
    match unit {
        DateUnit::Day => "tdD",
        DateUnit::Millisecond => "tdm",
    }
}

fn time_format(unit: TimeUnit) -> &'static str
    ensures { result.now ≡ time_format unit }
{
    match unit {
        TimeUnit::Second => "tts",
        TimeUnit::Millisecond => "ttm",
        TimeUnit::Microsecond => "ttu",
        TimeUnit::Nanosecond => "ttn",
    }
}

// Returns what comes before the colon of a timestamp's format.
fn timestamp_format(unit: TimeUnit) -> &'static str
    ensures { result.now ≡ timestamp_format unit }
{
    match unit {
        TimeUnit::Second => "tss",
        TimeUnit::Millisecond => "tsm",
        TimeUnit::Microsecond => "tsu",
        TimeUnit::Nanosecond => "tsn",
    }
}

fn duration_format(unit: TimeUnit) -> &'static str
    ensures { result.now ≡ duration_format unit }
{
    match unit {
        TimeUnit::Second => "tDs",
        TimeUnit::Millisecond => "tDm",
        TimeUnit::Microsecond => "tDu",
        TimeUnit::Nanosecond => "tDn",
    }
}
