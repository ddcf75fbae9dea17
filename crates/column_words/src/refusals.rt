//! Refusals as words.
ghost use Rattle.std.specs.Prelude.{◌≡◌, ◌++◌, IfOk, OnErr, OnOk};
ghost use Rattle.std.specs.String.{string_bytes};
ghost use Rattle.column_words.specs.Refusals.{behind_spaces, field_words, refusal_text};

use column_base::VortexError;
use std::alloc::{AllocError, Allocator};

/// Appends `refused`, the error's number and its fields in order to the text, separated by spaces. Where memory is
/// refused, the text stays as it was.
pub fn push_refusal_words<A: Allocator + Copy>(
    text: &mut String<A>,
    error: VortexError,
) -> Result<(), AllocError>
    ensures written { OnOk result (string_bytes text.new ≡ string_bytes text.old ++ refusal_text error) }
    ensures kept { OnErr result (string_bytes text.new ≡ string_bytes text.old) }
{
    let words = refusal_words(*text.allocator(), error)?;
    text.push_str(words.as_str())
}

// Returns the text of a refusal.
fn refusal_words<A: Allocator + Copy>(alloc: A, error: VortexError) -> Result<String<A>, AllocError>
    ensures { IfOk result (λ words. string_bytes words ≡ refusal_text error) }
{
    let number = error.number();
    let mut words = format!(in alloc; "refused {number}")?;
    push_fields(&mut words, error)?;
    Ok(words)
}

// The fields of the error in order, each as a word after a space.
fn push_fields<A: Allocator + Copy>(
    text: &mut String<A>,
    error: VortexError,
) -> Result<(), AllocError>
    ensures { OnOk result (string_bytes text.new ≡ string_bytes text.old ++ behind_spaces (field_words error)) }
{
    match error {
        VortexError::EndsNotStrict { run } => write!(text, " {run}"),
        VortexError::OutOfBounds { index, length } => write!(text, " {index} {length}"),
        VortexError::BadRange {
            start,
            stop,
            length,
        } => write!(text, " {start} {stop} {length}"),
        VortexError::EndsTypeNumber { number } => write!(text, " {number}"),
        VortexError::RunCount { stated, found } => write!(text, " {stated} {found}"),
        VortexError::LengthsDiffer {
            ends: first,
            values: second,
        }
        | VortexError::NoRunsWindow {
            offset: first,
            length: second,
        }
        | VortexError::FirstEndBelowOffset {
            end: first,
            offset: second,
        }
        | VortexError::LastEndBelowWindow {
            end: first,
            required: second,
        }
        | VortexError::MaskLength {
            mask: first,
            length: second,
        }
        | VortexError::ColumnLength {
            left: first,
            right: second,
        } => write!(text, " {first} {second}"),
        _ => Ok(()),
    }
}
