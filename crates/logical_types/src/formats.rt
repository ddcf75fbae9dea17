//! The format strings of Arrow's C data interface, read.
ghost use Rattle.std.specs.Prelude.{◌≡◌, ◌≢◌, ◌++◌, ℕ, List, [], IfNone, IfSome, MatchOption, codes};
ghost use Rattle.column_base.specs.declared.dtype.DecimalDType.{DecimalDType};
ghost use Rattle.column_base.specs.declared.dtype.PType.{PType};
ghost use Rattle.float_bits.specs.declared.formats.FloatFormat.{FloatFormat};
ghost use Rattle.logical_types.specs.declared.types.DateUnit.{DateUnit};
ghost use Rattle.logical_types.specs.declared.types.DecimalWidth.{DecimalWidth};
ghost use Rattle.logical_types.specs.declared.types.LogicalType.{LogicalType};
ghost use Rattle.logical_types.specs.declared.types.TimeUnit.{TimeUnit};
ghost use Rattle.logical_types.specs.Formats.{HasNoComma, IsEnding, Names, SpellsDecimal, date_format, duration_format, float_format, integer_format, time_format, timestamp_format, width_format};

use crate::annotation::Annotation;
use crate::numbers::{read_number, read_whole_number};
use crate::types::{DateUnit, DecimalWidth, LogicalType, TimeUnit};
use column_base::{DecimalDType, PType};
use float_bits::FloatFormat;

/// Returns the type that a format string names, and its zone. `None` for every other text: those of types that are not
/// served, as texts, lists and intervals, and those that name no type.
pub fn read_format(format: &str) -> Option<Annotation<'_>>
    ensures found { IfSome result (λ found. Names format.now found.logical found.zone.now) }
    ensures none { IfNone result ((t : LogicalType) (zone : List ℕ) → ¬ Names format.now t zone) }
{
    let Some((kind, rest)) = format.split_once(':') else {
        let logical = read_word(format)?;
        return Some(Annotation { logical, zone: "" });
    };
    if kind == "d" {
        let (decimal, width) = read_decimal(rest)?;
        let logical = LogicalType::Decimal(decimal, width);
        return Some(Annotation { logical, zone: "" });
    }
    let unit = read_timestamp(kind)?;
    let logical = LogicalType::Timestamp(unit);
    Some(Annotation {
        logical,
        zone: rest,
    })
}

// Returns the type that a word without a colon names.
fn read_word(word: &str) -> Option<LogicalType>
    ensures found { IfSome result (λ t. Names word.now t []) }
    ensures integers { IfNone result ((t : PType) → word.now ≢ integer_format t) }
    ensures floats { IfNone result ((f : FloatFormat) → word.now ≢ float_format f) }
    ensures dates { IfNone result ((u : DateUnit) → word.now ≢ date_format u) }
    ensures times { IfNone result ((u : TimeUnit) → word.now ≢ time_format u) }
    ensures durations { IfNone result ((u : TimeUnit) → word.now ≢ duration_format u) }
{
    if let Some(ptype) = read_integer(word) {
        return Some(LogicalType::Integer(ptype));
    }
    if let Some(format) = read_float(word) {
        return Some(LogicalType::Float(format));
    }
    if let Some(unit) = read_date(word) {
        return Some(LogicalType::Date(unit));
    }
    if let Some(unit) = read_time(word) {
        return Some(LogicalType::TimeOfDay(unit));
    }
    match read_duration(word) {
        Some(unit) => Some(LogicalType::Duration(unit)),
        None => None,
    }
}

fn read_integer(word: &str) -> Option<PType>
    ensures { MatchOption result ((t : PType) → word.now ≢ integer_format t) (λ t. word.now ≡ integer_format t) }
{
    match word {
        "C" => Some(PType::U8),
        "S" => Some(PType::U16),
        "I" => Some(PType::U32),
        "L" => Some(PType::U64),
        "c" => Some(PType::I8),
        "s" => Some(PType::I16),
        "i" => Some(PType::I32),
        "l" => Some(PType::I64),
        _ => None,
    }
}

fn read_float(word: &str) -> Option<FloatFormat>
    ensures { MatchOption result ((f : FloatFormat) → word.now ≢ float_format f) (λ f. word.now ≡ float_format f) }
{
    match word {
        "e" => Some(FloatFormat::F16),
        "f" => Some(FloatFormat::F32),
        "g" => Some(FloatFormat::F64),
        _ => None,
    }
}

fn read_date(word: &str) -> Option<DateUnit>
    ensures { MatchOption result ((u : DateUnit) → word.now ≢ date_format u) (λ u. word.now ≡ date_format u) }
{
    match word {
        "tdD" => Some(DateUnit::Day),
        "tdm" => Some(DateUnit::Millisecond),
        _ => None,
    }
}

fn read_time(word: &str) -> Option<TimeUnit>
    ensures { MatchOption result ((u : TimeUnit) → word.now ≢ time_format u) (λ u. word.now ≡ time_format u) }
{
    match word {
        "tts" => Some(TimeUnit::Second),
        "ttm" => Some(TimeUnit::Millisecond),
        "ttu" => Some(TimeUnit::Microsecond),
        "ttn" => Some(TimeUnit::Nanosecond),
        _ => None,
    }
}

fn read_duration(word: &str) -> Option<TimeUnit>
    ensures { MatchOption result ((u : TimeUnit) → word.now ≢ duration_format u) (λ u. word.now ≡ duration_format u) }
{
    match word {
        "tDs" => Some(TimeUnit::Second),
        "tDm" => Some(TimeUnit::Millisecond),
        "tDu" => Some(TimeUnit::Microsecond),
        "tDn" => Some(TimeUnit::Nanosecond),
        _ => None,
    }
}

// Returns the unit of timestamps that what comes before the colon names.
fn read_timestamp(word: &str) -> Option<TimeUnit>
    ensures { MatchOption result ((u : TimeUnit) → word.now ≢ timestamp_format u) (λ u.
        word.now ≡ timestamp_format u) }
{
    match word {
        "tss" => Some(TimeUnit::Second),
        "tsm" => Some(TimeUnit::Millisecond),
        "tsu" => Some(TimeUnit::Microsecond),
        "tsn" => Some(TimeUnit::Nanosecond),
        _ => None,
    }
}

// Returns the decimals that what comes after `d:` names.
fn read_decimal(word: &str) -> Option<(DecimalDType, DecimalWidth)>
    ensures found { IfSome result (λ found. SpellsDecimal word.now found.0 found.1) }
    ensures none { IfNone result ((d : DecimalDType) (w : DecimalWidth) → ¬ SpellsDecimal word.now d w) }
{
    let (digits, rest) = word.split_once(',')?;
    let (places, width) = read_places(rest)?;
    let precision = read_number(digits)?;
    let scale = read_whole_number(places)?;
    if precision == 0 || precision > width.most_digits() {
        return None;
    }
    Some((DecimalDType { precision, scale }, width))
}

// Returns the word before the width, or the whole one, and the width.
fn read_places(word: &str) -> Option<(&str, DecimalWidth)>
    ensures found { IfSome result (λ found.
        (ending : List ℕ) × (word.now ≡ found.0.now ++ ending) × IsEnding ending found.1) }
    ensures before { IfSome result (λ found. HasNoComma found.0.now) }
    ensures none { IfNone result ((places ending : List ℕ) (w : DecimalWidth) →
        HasNoComma places → IsEnding ending w → word.now ≢ places ++ ending) }
{
    match word.split_once(',') {
        None => Some((word, DecimalWidth::Bits128)),
        Some((places, bits)) => {
            let width = read_width(bits)?;
            Some((places, width))
        }
    }
}

fn read_width(word: &str) -> Option<DecimalWidth>
    ensures { MatchOption result ((w : DecimalWidth) → word.now ≢ width_format w) (λ w. word.now ≡ width_format w) }
{
    match word {
        "32" => Some(DecimalWidth::Bits32),
        "64" => Some(DecimalWidth::Bits64),
        "128" => Some(DecimalWidth::Bits128),
        _ => None,
    }
}
