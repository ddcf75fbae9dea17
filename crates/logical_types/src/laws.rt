//! Laws of all formats. Each function here does nothing: its clause is the law.
ghost use Rattle.logical_types.specs.Laws.{NamesAreUnique, OnlyNamedAreRead, WrittenFormatsAreRead};

/// Proves that a word is a format of at most one type and zone.
pub fn names_are_unique()
    ensures { NamesAreUnique }
{}

/// Proves that what is written of a type and a zone is read as these, and that no other type and zone has a format.
pub fn written_formats_are_read()
    ensures read { WrittenFormatsAreRead }
    ensures only { OnlyNamedAreRead }
{}
