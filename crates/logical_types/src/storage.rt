//! How the values of a logical type are stored.
ghost use Rattle.std.specs.Prelude.{◌≡◌};
ghost use Rattle.logical_types.specs.Storage.{key_type, storage_of, time_type};

use crate::types::{DateUnit, LogicalType, TimeUnit};
use column_base::{DType, Nullability, PType};
use float_bits::FloatFormat;

impl LogicalType {
    /// Returns the type of a column of these values: what Arrow stores them in, 128 bits for each decimal, and for
    /// floats the signed integers that are as wide.
    pub fn storage(self, nullability: Nullability) -> DType
        ensures { result ≡ storage_of self nullability }
    {
        match self {
            LogicalType::Integer(ptype) => DType::Primitive(ptype, nullability),
            LogicalType::Float(format) => DType::Primitive(keys_of(format), nullability),
            LogicalType::Date(DateUnit::Day) => DType::Primitive(PType::I32, nullability),
            LogicalType::Date(DateUnit::Millisecond) => DType::Primitive(PType::I64, nullability),
            LogicalType::TimeOfDay(unit) => DType::Primitive(times_of(unit), nullability),
            LogicalType::Timestamp(_) => DType::Primitive(PType::I64, nullability),
            LogicalType::Duration(_) => DType::Primitive(PType::I64, nullability),
            LogicalType::Decimal(decimal, _) => DType::Decimal(decimal, nullability),
        }
    }
}

// Returns the type of the keys of floats.
fn keys_of(format: FloatFormat) -> PType
    ensures { result ≡ key_type format }
{
    match format {
        FloatFormat::F16 => PType::I16,
        FloatFormat::F32 => PType::I32,
        FloatFormat::F64 => PType::I64,
    }
}

// Returns the type of the times of a day.
fn times_of(unit: TimeUnit) -> PType
    ensures { result ≡ time_type unit }
{
    match unit {
        TimeUnit::Second | TimeUnit::Millisecond => PType::I32,
        TimeUnit::Microsecond | TimeUnit::Nanosecond => PType::I64,
    }
}
