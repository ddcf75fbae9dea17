//! What the rows of a column are worked as.
ghost use Rattle.std.specs.Prelude.{◌≡◌, Some, if◌then◌else◌};
ghost use Rattle.logical_types.specs.Storage.{key_type};
ghost use Rattle.logical_types.specs.Units.{counted_type};
ghost use Rattle.typed_columns.specs.Typed.{typed_of};
ghost use Rattle.typed_kernels.specs.Served.{is_stored_in, meaning, served, times_or, IsServed};

use column_core::{DType, PType};
use column_floats::key_type;
use float_bits::FloatFormat;
use logical_types::{DateUnit, LogicalType, TimeUnit, read_format};
use std::alloc::Allocator;
use typed_columns::TypedColumn;

/// Says what the rows of a column are worked as.
#[derive(Clone, Copy, Debug, PartialEq, Eq, Drop)]
pub enum Served {
    /// Works them as they are stored.
    Stored,
    /// Works them as floats of this format, which are stored by their keys.
    Floats(FloatFormat),
    /// Works them as dates, as times of a day, as timestamps or as lengths of time.
    Times(LogicalType),
}

impl Served {
    /// Returns what the rows of a column are worked as: floats or times exactly where its format names them, and the
    /// rows are the integers that they are stored in; else what is stored, also under formats of other types, and of
    /// none.
    pub fn of<A: Allocator + Copy>(column: &TypedColumn<A>) -> Served
        ensures served { result ≡ served (typed_of column.now) }
        ensures exactly { IsServed (typed_of column.now) result }
    {
        match read_format(column.format.as_str()) {
            Some(annotation) => meaning(annotation.logical(), column.array.dtype()),
            None => Served::Stored,
        }
    }
}

// Returns what rows of a type are worked as under a format of a logical type.
fn meaning(logical: LogicalType, dtype: DType) -> Served
    ensures { result ≡ meaning (Some logical) dtype }
{
    match logical {
        LogicalType::Integer(_) | LogicalType::Decimal(_, _) => Served::Stored,
        LogicalType::Float(format) => floats_or(format, dtype),
        _ => times_or(logical, dtype),
    }
}

// Returns that rows of a type are floats, where it is the type of their keys.
fn floats_or(format: FloatFormat, dtype: DType) -> Served
    ensures { result ≡ (if is_stored_in (key_type format) dtype then Served.Floats format else Served.Stored) }
{
    if is_stored_in(key_type(format), dtype) {
        Served::Floats(format)
    } else {
        Served::Stored
    }
}

// Returns that rows of a type are times of a logical type, where it is the one that these are stored in.
fn times_or(logical: LogicalType, dtype: DType) -> Served
    ensures { result ≡ times_or logical dtype }
{
    if is_stored_in(counted_type(logical), dtype) {
        Served::Times(logical)
    } else {
        Served::Stored
    }
}

// Returns the type of the integers that times are stored in, and of 64 bits for other types.
fn counted_type(logical: LogicalType) -> PType
    ensures { result ≡ counted_type logical }
{
    match logical {
        LogicalType::Date(DateUnit::Day) => PType::I32,
        LogicalType::TimeOfDay(TimeUnit::Second | TimeUnit::Millisecond) => PType::I32,
        _ => PType::I64,
    }
}

// Returns whether a type is one of signed integers of 16, 32 or 64 bits, and this one.
fn is_stored_in(ptype: PType, dtype: DType) -> bool
    ensures { result ≡ is_stored_in ptype dtype }
{
    match (ptype, dtype) {
        (PType::I16, DType::Primitive(PType::I16, _)) => true,
        (PType::I32, DType::Primitive(PType::I32, _)) => true,
        (PType::I64, DType::Primitive(PType::I64, _)) => true,
        _ => false,
    }
}
