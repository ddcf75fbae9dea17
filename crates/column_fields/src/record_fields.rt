//! The fields of a record.
ghost use Rattle.std.specs.Prelude.{◌≡◌, ◌≤◌, ◌<◌, length, drop, IfSome, IfNone};
ghost use Rattle.column_fields.specs.Spelling.{BeginsWithNone};
ghost use Rattle.column_fields.specs.RecordFields.{SpellsField, IsPayload, BeginsWithField, BeginsWithPayload};

use crate::varint::read_varint;

/// Holds the number of a field, and the value that it carries, unless it carries bytes.
#[derive(Clone, Copy)]
pub(crate) struct FieldValue {
    pub(crate) number: u64,
    pub(crate) value: Option<u64>,
}

/// Returns the field at the front, and the bytes after it.
#[tactic(auto, using(crate::proofs::Payloads::no_key, crate::proofs::Payloads::no_large_key, crate::proofs::Payloads::no_zero_number, crate::proofs::Payloads::no_other_known, crate::proofs::Payloads::no_payload, crate::proofs::Payloads::found_field))]
pub(crate) fn read_field(bytes: &[u8]) -> Option<(FieldValue, &[u8])>
    ensures found { IfSome result (λ r. BeginsWithField bytes.now r.0.number r.0.value r.1.now) }
    ensures none { IfNone result (BeginsWithNone SpellsField bytes.now) }
{
    let (key, rest) = read_varint(bytes)?;
    let number = key / 8;
    let wire = key % 8;
    if key > u64::from(u32::MAX) || number == 0 || (number <= 3 && wire != 0) {
        return None;
    }
    let (value, rest) = read_payload(rest, wire)?;
    Some((FieldValue { number, value }, rest))
}

/// Returns the value that the payload at the front carries, and the bytes after it.
#[tactic(auto, using(crate::proofs::Payloads::found_varint, crate::proofs::Payloads::found_eight, crate::proofs::Payloads::found_four, crate::proofs::Payloads::found_delimited, crate::proofs::Payloads::no_varint, crate::proofs::Payloads::no_eight, crate::proofs::Payloads::no_four, crate::proofs::Payloads::no_count, crate::proofs::Payloads::no_delimited, crate::proofs::Payloads::no_other))]
fn read_payload(bytes: &[u8], wire: u64) -> Option<(Option<u64>, &[u8])>
    ensures found { IfSome result (λ r. BeginsWithPayload wire bytes.now r.0 r.1.now) }
    ensures none { IfNone result (BeginsWithNone (IsPayload wire) bytes.now) }
{
    match wire {
        0 => {
            let (number, rest) = read_varint(bytes)?;
            Some((Some(number), rest))
        }
        1 => {
            let rest = skip(bytes, 8)?;
            Some((None, rest))
        }
        2 => {
            let (count, rest) = read_varint(bytes)?;
            let rest = skip(rest, count)?;
            Some((None, rest))
        }
        5 => {
            let rest = skip(bytes, 4)?;
            Some((None, rest))
        }
        // 3 and 4 bracket a group, and 6 and 7 are nothing.
        _ => None,
    }
}

/// Returns the bytes after the first `count`.
fn skip(bytes: &[u8], count: u64) -> Option<&[u8]>
    ensures found { IfSome result (λ rest. (count ≤ length bytes.now) × (rest.now ≡ drop count bytes.now)) }
    ensures none { IfNone result (length bytes.now < count) }
{
    if (bytes.len() as u64) < count {
        return None;
    }
    Some(&bytes[count as usize..])
}
