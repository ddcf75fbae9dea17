//! What travels with a column: a type that a format names, and the zone of timestamps.
ghost use Rattle.std.specs.Prelude.{◌≡◌, ◌↔◌, IfNone, IfSome, IsTrue};
ghost use Rattle.logical_types.specs.Formats.{IsNamed, IsNamed-prop};

use crate::types::LogicalType;

/// Travels with a column: what its numbers mean, and, for timestamps, their zone. A format names each.
#[derive(Clone, Copy)]
pub struct Annotation<'a> {
    pub(crate) logical: LogicalType,
    // Names the zone of timestamps; empty where they have none, and for all other types.
    pub(crate) zone: &'a str,
    pub ghost named: { IsNamed logical zone.now } by { IsNamed-prop logical zone.now },
}

impl<'a> Annotation<'a> {
    /// Returns the type with this zone, which is empty where there is none. `None` where no format names them: for a
    /// zone of a type other than timestamps, and for decimals without a digit, or of more digits than their width has
    /// room for (9, 18 and 38 digits in 32, 64 and 128 bits).
    pub fn try_new(logical: LogicalType, zone: &'a str) -> Option<Annotation<'a>>
        ensures made { IfSome result (λ made. (made.logical ≡ logical) × (made.zone.now ≡ zone.now)) }
        ensures none { IfNone result (¬ IsNamed logical zone.now) }
    {
        if is_named(logical, zone) {
            Some(Annotation { logical, zone })
        } else {
            None
        }
    }

    /// Returns what the numbers mean.
    pub fn logical(self) -> LogicalType
        ensures { result ≡ self.entry.logical }
    {
        self.logical
    }

    /// Returns the zone of timestamps; an empty text where they have none, and for all other types.
    pub fn zone(self) -> &'a str
        ensures { result.now ≡ self.entry.zone.now }
    {
        self.zone
    }
}

// Returns whether a format names the type with this zone.
fn is_named(logical: LogicalType, zone: &str) -> bool
    ensures { IsTrue result ↔ IsNamed logical zone.now }
{
    match logical {
        LogicalType::Timestamp(_) => true,
        LogicalType::Decimal(decimal, width) => {
            zone.is_empty() && 0 < decimal.precision && decimal.precision <= width.most_digits()
        }
        _ => zone.is_empty(),
    }
}
