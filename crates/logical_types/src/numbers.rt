//! The numbers in a format of decimals.
ghost use Rattle.std.specs.Prelude.{◌≡◌, ℕ, ℤ, FitsSigned, MatchOption, ◌<◌, ◌^◌};
ghost use Rattle.std.specs.Int.{w8};
ghost use Rattle.logical_types.specs.Numbers.{IsNumberOf, IsWholeNumberOf};

/// Returns the number of a word of decimal digits; zeros may lead. `None` for another word, and for 256 and more.
pub(crate) fn read_number(word: &str) -> Option<u8>
    ensures { MatchOption result ((n : ℕ) → n < 2 ^ 8 → ¬ IsNumberOf word.now n) (λ n. IsNumberOf word.now n) }
{
    // The library's numbers may have a plus before them, and these may not.
    if word.starts_with('+') {
        return None;
    }
    word.parse::<u8>().ok()
}

/// Returns the number of a word of decimal digits that a minus may lead. `None` for another word, and for a number that
/// does not fit.
pub(crate) fn read_whole_number(word: &str) -> Option<i8>
    ensures { MatchOption result ((n : ℤ) → FitsSigned w8 n → ¬ IsWholeNumberOf word.now n) (λ n.
        IsWholeNumberOf word.now n) }
{
    // Nor may these.
    if word.starts_with('+') {
        return None;
    }
    word.parse::<i8>().ok()
}
