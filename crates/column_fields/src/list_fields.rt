//! What a message of lists ends with.
ghost use Rattle.std.specs.Prelude.{◌≡◌, ℕ, ◌^◌, ◌<◌, List, ◌++◌, length, IfSome, IfNone, IfOk, IfErr};
ghost use Rattle.column_fields.specs.ListFields.{list_fields, AreNoListFields};
ghost use Rattle.column_fields.specs.Sizes.{IsPast};

use crate::fields::{read_bytes, read_last_bytes};
use crate::sizes::{bytes_key_size, size_of_total};
use column_base::VortexResult;

/// Holds the messages of the elements of all lists, of the offsets, and of the sizes.
#[derive(Clone, Copy)]
pub struct ListFields<'a> {
    pub elements: &'a [u8],
    pub offsets: &'a [u8],
    pub sizes: &'a [u8],
}

/// Returns how many bytes the fields have, given the numbers of bytes of the messages. Refused as `OutOfMemory` exactly
/// where the answer does not fit `usize`.
pub fn list_fields_size(elements: usize, offsets: usize, sizes: usize) -> VortexResult<usize>
    ensures size { IfOk result (λ size. (e o s : List ℕ) → length e ≡ elements → length o ≡ offsets →
        length s ≡ sizes → size ≡ length (list_fields e o s)) }
    ensures past { IfErr result (λ error. (e o s : List ℕ) → length e ≡ elements → length o ≡ offsets →
        length s ≡ sizes → IsPast (length (list_fields e o s)) error) }
{
    let keys = bytes_key_size(17, elements)
        + bytes_key_size(18, offsets)
        + bytes_key_size(19, sizes);
    match size_of_total(keys as u128 + elements as u128 + offsets as u128 + sizes as u128) {
        Ok(size) => Ok(size),
        Err(error) => Err(error),
    }
}

/// Returns the fields that the bytes are.
pub fn read_list_fields(bytes: &[u8]) -> Option<ListFields<'_>>
    ensures found { IfSome result (λ f. bytes.now ≡ list_fields f.elements.now f.offsets.now f.sizes.now) }
    ensures small { IfSome result (λ f. (length f.elements.now < 2 ^ 64) × (length f.offsets.now < 2 ^ 64) ×
        (length f.sizes.now < 2 ^ 64)) }
    ensures none { IfNone result (AreNoListFields bytes.now) }
{
    let (elements, after_elements) = read_bytes(bytes, 17)?;
    let (offsets, after_offsets) = read_bytes(after_elements, 18)?;
    let sizes = read_last_bytes(after_offsets, 19)?;
    Some(ListFields {
        elements,
        offsets,
        sizes,
    })
}
