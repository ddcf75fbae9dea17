//! Integers as words.
ghost use Rattle.std.specs.Prelude.{◌<◌, ◌^◌, FitsSigned};
ghost use Rattle.std.specs.Int.{w128};
ghost use Rattle.std.specs.Option.{SomeIff};
ghost use Rattle.std.specs.Str.Parse.{IsNumeral, digits_value};
ghost use Rattle.column_words.specs.Numbers.{IsWholeNumber, whole_number};

/// Returns the number of a word of decimal digits, or `None` where the word is anything else or the number is 2^64 or
/// more. Zeros may lead.
pub fn parse_count(word: &str) -> Option<usize>
    ensures { SomeIff result (IsNumeral 10 word.now × (digits_value 10 word.now < 2 ^ 64)) (digits_value 10 word.now) }
{
    // The library's numbers may have a plus before them, and these may not.
    if word.starts_with('+') {
        return None;
    }
    word.parse::<usize>().ok()
}

/// Returns the number of a word of decimal digits with or without a minus before them, or `None` where the word is
/// anything else or the number is below -2^127, or 2^127 or more. Zeros may lead.
pub fn parse_integer(word: &str) -> Option<i128>
    ensures { SomeIff result (IsWholeNumber word.now ×
        FitsSigned w128 (whole_number word.now)) (whole_number word.now) }
{
    // Nor may these.
    if word.starts_with('+') {
        return None;
    }
    word.parse::<i128>().ok()
}
