//! Times counted in other units.
ghost use Rattle.std.specs.Prelude.{◌≡◌, ◌≢◌, ◌<ℤ◌, ◌*ℤ◌, ℤ, pos, MatchOption, SomeIff, if◌then◌else◌};
ghost use Rattle.column_base.specs.Types.{HasNumber};
ghost use Rattle.column_base.specs.declared.dtype.PType.TheVariants as PType;
ghost use Rattle.logical_types.specs.Units.{IsSameTime, counted_type, kind_of, nanoseconds, unit_nanoseconds};

use crate::types::{DateUnit, LogicalType, TimeUnit};
use column_base::NativePType;

/// Names a kind of times: a time can be counted anew in a type of its kind.
#[derive(Clone, Copy, Debug, PartialEq, Eq)]
pub enum TimeKind {
    /// Means points in time: dates, and timestamps.
    Instant,
    TimeOfDay,
    Duration,
}

/// Returns the number that counts the same time in another type: dates and timestamps, times of a day, and durations
/// are each of a kind. Nothing is rounded. `None` where the types are of two kinds, or of none, where no integer counts
/// the time, as half a second in seconds, and where its number does not fit the integers that the type is stored in.
pub fn recount(value: i64, from: LogicalType, to: LogicalType) -> Option<i64>
    ensures { MatchOption result ((answer : ℤ) → ¬ IsSameTime from to value answer) (λ answer.
        IsSameTime from to value answer) }
{
    if kind_of(from)? != kind_of(to)? {
        return None;
    }
    let answer = counted_by(value, tick_of(from), tick_of(to))?;
    fitted(answer, to)
}

// Returns the only number of units of `to` that are as long as `value` units of `from`, or `None` where none is.
fn counted_by(value: i64, from: i64, to: i64) -> Option<i128>
    requires { pos 0 <ℤ to }
    ensures { MatchOption result ((answer : ℤ) → answer *ℤ to ≢ value *ℤ from) (λ answer.
        answer *ℤ to ≡ value *ℤ from) }
{
    quotient(i128::from(value) * i128::from(from), i128::from(to))
}

// Returns the only number that makes `product` when it is multiplied by `divisor`, or `None` where none does.
fn quotient(product: i128, divisor: i128) -> Option<i128>
    requires { pos 0 <ℤ divisor }
    ensures { MatchOption result ((answer : ℤ) → answer *ℤ divisor ≢ product) (λ answer. answer *ℤ divisor ≡ product) }
{
    if product % divisor == 0 {
        Some(product / divisor)
    } else {
        None
    }
}

// Returns what the times of a type are of, or `None` for a type that counts no time.
fn kind_of(logical: LogicalType) -> Option<TimeKind>
    ensures { result ≡ kind_of logical }
{
    match logical {
        LogicalType::Date(_) | LogicalType::Timestamp(_) => Some(TimeKind::Instant),
        LogicalType::TimeOfDay(_) => Some(TimeKind::TimeOfDay),
        LogicalType::Duration(_) => Some(TimeKind::Duration),
        _ => None,
    }
}

// Returns a number where the integers that a type of times is stored in have it.
fn fitted(number: i128, logical: LogicalType) -> Option<i64>
    ensures { SomeIff result (HasNumber (counted_type logical) number) number }
{
    if is_narrow(logical) {
        match i32::narrow(number) {
            Some(fitting) => Some(i64::from(fitting)),
            None => None,
        }
    } else {
        i64::narrow(number)
    }
}

// Returns whether times of a type are stored in 32 bits; in 64 those that are not, and where the type counts no time.
fn is_narrow(logical: LogicalType) -> bool
    ensures { counted_type logical ≡ (if result then PType.I32 else PType.I64) }
{
    match logical {
        LogicalType::Date(DateUnit::Day) => true,
        LogicalType::Date(DateUnit::Millisecond) => false,
        LogicalType::TimeOfDay(TimeUnit::Second) => true,
        LogicalType::TimeOfDay(TimeUnit::Millisecond) => true,
        LogicalType::TimeOfDay(TimeUnit::Microsecond) => false,
        LogicalType::TimeOfDay(TimeUnit::Nanosecond) => false,
        _ => false,
    }
}

// Returns how many nanoseconds a count of 1 means; 1 where the type counts no time.
fn tick_of(logical: LogicalType) -> i64
    ensures { result ≡ pos (nanoseconds logical) }
{
    match logical {
        LogicalType::Date(DateUnit::Day) => 86_400_000_000_000,
        LogicalType::Date(DateUnit::Millisecond) => 1_000_000,
        LogicalType::TimeOfDay(unit) => nanoseconds(unit),
        LogicalType::Timestamp(unit) => nanoseconds(unit),
        LogicalType::Duration(unit) => nanoseconds(unit),
        _ => 1,
    }
}

// Returns how many nanoseconds a unit has.
fn nanoseconds(unit: TimeUnit) -> i64
    ensures { result ≡ pos (unit_nanoseconds unit) }
{
    match unit {
        TimeUnit::Second => 1_000_000_000,
        TimeUnit::Millisecond => 1_000_000,
        TimeUnit::Microsecond => 1_000,
        TimeUnit::Nanosecond => 1,
    }
}
