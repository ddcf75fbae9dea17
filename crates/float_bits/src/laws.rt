//! Laws of all patterns. Each function here does nothing: its clause is the law.
ghost use Rattle.float_bits.specs.Laws.{CanonicalPatternsTellValues, TotalKeysAreOrdered};

/// Proves that keys are in the order of their patterns, and that no two patterns have the same key.
pub fn total_keys_are_ordered()
    ensures { TotalKeysAreOrdered }
{}

/// Proves that two patterns have the same value exactly where their canonical patterns are equal.
pub fn canonical_patterns_tell_values()
    ensures { CanonicalPatternsTellValues }
{}
