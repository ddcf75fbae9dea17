//! Types of rows as words: a name, followed by a question mark where rows may be null.
ghost use Rattle.std.specs.Prelude.{◌≡◌, ◌≢◌, ◌++◌, ℕ, List, MatchOption, OnErr, OnOk, codes};
ghost use Rattle.std.specs.String.{string_bytes};
ghost use Rattle.column_base.specs.declared.dtype.PType.{PType};
ghost use Rattle.column_base.specs.declared.dtype.Nullability.{Nullability};
ghost use Rattle.column_words.specs.Types.{marked, ptype_name, type_name};

use column_base::{Nullability, PType};
use std::alloc::{AllocError, Allocator};

/// Returns the type of rows that a word names: a type of numbers, followed by a question mark where rows may be null.
pub fn parse_type(word: &str) -> Option<(PType, Nullability)>
    ensures { MatchOption result ((ptype : PType) (nullability : Nullability) →
        word.now ≢ type_name ptype nullability) (λ named. word.now ≡ type_name named.0 named.1) }
{
    let (name, nullability) = split_mark(word);
    Some((parse_ptype(name)?, nullability))
}

/// Returns the word before its question mark, or the word itself where it has none at its end, and whether rows of such
/// a type may be null.
pub fn split_mark(word: &str) -> (&str, Nullability)
    ensures whole { word.now ≡ marked result.0.now result.1 }
    ensures unmarked { result.1 ≡ Nullability.NonNullable → (front : List ℕ) → word.now ≢ front ++ codes "?" }
{
    match word.strip_suffix('?') {
        Some(name) => (name, Nullability::Nullable),
        None => (word, Nullability::NonNullable),
    }
}

/// Returns the type of numbers that a word names, as `u8`.
pub fn parse_ptype(word: &str) -> Option<PType>
    ensures { MatchOption result ((ptype : PType) → word.now ≢ ptype_name ptype) (λ ptype. word.now ≡
        ptype_name ptype) }
{
    match word {
        "u8" => Some(PType::U8),
        "u16" => Some(PType::U16),
        "u32" => Some(PType::U32),
        "u64" => Some(PType::U64),
        "i8" => Some(PType::I8),
        "i16" => Some(PType::I16),
        "i32" => Some(PType::I32),
        "i64" => Some(PType::I64),
        _ => None,
    }
}

/// Returns the name of a type of numbers.
pub fn name_of(ptype: PType) -> &'static str
    ensures { result.now ≡ ptype_name ptype }
{
    match ptype {
        PType::U8 => "u8",
        PType::U16 => "u16",
        PType::U32 => "u32",
        PType::U64 => "u64",
        PType::I8 => "i8",
        PType::I16 => "i16",
        PType::I32 => "i32",
        PType::I64 => "i64",
    }
}

/// Appends the name of a type to the text, and a question mark where rows may be null. Where memory is refused, the
/// text stays as it was.
pub fn push_marked<A: Allocator + Copy>(
    text: &mut String<A>,
    name: &str,
    nullability: Nullability,
) -> Result<(), AllocError>
    ensures written { OnOk result (string_bytes text.new ≡ string_bytes text.old ++ marked name.now nullability) }
    ensures kept { OnErr result (string_bytes text.new ≡ string_bytes text.old) }
{
    match nullability {
        Nullability::NonNullable => text.push_str(name),
        Nullability::Nullable => {
            let marked = format!(in *text.allocator(); "{name}?")?;
            text.push_str(marked.as_str())
        }
    }
}
