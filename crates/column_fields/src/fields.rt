//! Fields of a message, in their one spelling.
ghost use Rattle.std.specs.Prelude.{◌≡◌, ◌≢◌, ◌+◌, ◌*◌, ◌^◌, ◌<◌, ◌≤◌, ◌++◌, length, IfSome, IfNone, OnOk, IsOkUnless};
ghost use Rattle.column_fields.specs.Varint.{varint};
ghost use Rattle.column_fields.specs.Field.{number_field, bytes_field, HasNoNumberField, HasNoConstantField, HasNoBytesField, IsNoBytesField};
ghost use Rattle.column_fields.specs.Kept.{StaysInFront};
ghost use Rattle.column_fields.specs.Room.{UsesRoom};

use crate::varint::read_shortest;
use bytes::BufMut;
use column_base::{VortexError, VortexResult};

/// Writes the shortest varint of a number at the end. Refused only as `OutOfMemory`.
#[inline(always)]
pub fn put_varint<W: BufMut>(out: &mut W, number: u64) -> VortexResult<()>
    ensures ok { OnOk result (W.written out.new ≡ W.written out.old ++ varint number) }
    ensures room { UsesRoom result (W.spare out.old) (W.spare out.new) (length (varint number)) }
    ensures kept { StaysInFront (W.written out.old) (W.written out.new) }
    ensures only { IsOkUnless result VortexError.OutOfMemory }
{
    let mut rest = number;
    while rest >= 128 {
        out.put_u8((rest % 128 + 128) as u8)?;
        rest /= 128;
    }
    out.put_u8(rest as u8)?;
    Ok(())
}

/// Writes a field with a number. Refused only as `OutOfMemory`.
pub fn put_number<W: BufMut>(out: &mut W, field: u64, number: u64) -> VortexResult<()>
    requires { field < 32 }
    ensures ok { OnOk result (W.written out.new ≡ W.written out.old ++ number_field field number) }
    ensures room { UsesRoom result (W.spare out.old) (W.spare out.new) (length (number_field field number)) }
    ensures kept { StaysInFront (W.written out.old) (W.written out.new) }
    ensures only { IsOkUnless result VortexError.OutOfMemory }
{
    put_varint(out, field * 8)?;
    put_varint(out, number)?;
    Ok(())
}

/// Writes the key and the length of a field of `count` bytes, which the caller appends. Refused only as `OutOfMemory`.
pub fn put_bytes_key<W: BufMut>(out: &mut W, field: u64, count: usize) -> VortexResult<()>
    requires { field < 32 }
    ensures ok { OnOk result (W.written out.new ≡ W.written out.old ++ (varint (field * 8 + 2) ++ varint count)) }
    ensures room { UsesRoom result (W.spare out.old) (W.spare out.new)
        (length (varint (field * 8 + 2) ++ varint count)) }
    ensures kept { StaysInFront (W.written out.old) (W.written out.new) }
    ensures only { IsOkUnless result VortexError.OutOfMemory }
{
    put_varint(out, field * 8 + 2)?;
    put_varint(out, count as u64)?;
    Ok(())
}

/// Writes a field with bytes. Refused only as `OutOfMemory`.
pub fn put_bytes<W: BufMut>(out: &mut W, field: u64, content: &[u8]) -> VortexResult<()>
    requires { field < 32 }
    ensures ok { OnOk result (W.written out.new ≡ W.written out.old ++ bytes_field field content.now) }
    ensures room { UsesRoom result (W.spare out.old) (W.spare out.new) (length (bytes_field field content.now)) }
    ensures kept { StaysInFront (W.written out.old) (W.written out.new) }
    ensures only { IsOkUnless result VortexError.OutOfMemory }
{
    put_bytes_key(out, field, content.len())?;
    out.put_slice(content)?;
    Ok(())
}

/// Returns the number of the field at the front, if it has that field number, and the bytes after it.
pub fn read_number(bytes: &[u8], field: u64) -> Option<(u64, &[u8])>
    requires { field < 32 }
    ensures found { IfSome result (λ r. bytes.now ≡ number_field field r.0 ++ r.1.now) }
    ensures small { IfSome result (λ r. r.0 < 2 ^ 64) }
    ensures none { IfNone result (HasNoNumberField field bytes.now) }
{
    let (key, rest) = read_shortest(bytes)?;
    if key != field * 8 {
        return None;
    }
    let (number, rest) = read_shortest(rest)?;
    Some((number, rest))
}

/// Returns the bytes after the field at the front, if it is that field with that number.
pub fn read_constant(bytes: &[u8], field: u64, number: u64) -> Option<&[u8]>
    requires { field < 32 }
    ensures found { IfSome result (λ rest. bytes.now ≡ number_field field number ++ rest.now) }
    ensures none { IfNone result (HasNoConstantField field number bytes.now) }
{
    let (found, rest) = read_number(bytes, field)?;
    if found != number {
        return None;
    }
    Some(rest)
}

/// Returns the bytes in the field at the front, if it has that field number, and the bytes after it.
pub fn read_bytes(bytes: &[u8], field: u64) -> Option<(&[u8], &[u8])>
    requires { field < 32 }
    ensures found { IfSome result (λ r. bytes.now ≡ bytes_field field r.0.now ++ r.1.now) }
    ensures small { IfSome result (λ r. length r.0.now < 2 ^ 64) }
    ensures none { IfNone result (HasNoBytesField field bytes.now) }
{
    let (key, rest) = read_shortest(bytes)?;
    if key != field * 8 + 2 {
        return None;
    }
    let (count, rest) = read_shortest(rest)?;
    if count > rest.len() as u64 {
        return None;
    }
    let (content, rest) = rest.split_at(count as usize);
    Some((content, rest))
}

/// Returns the bytes in the field that the bytes are, if it has that field number and nothing comes after it.
pub fn read_last_bytes(bytes: &[u8], field: u64) -> Option<&[u8]>
    requires { field < 32 }
    ensures found { IfSome result (λ content. bytes.now ≡ bytes_field field content.now) }
    ensures small { IfSome result (λ content. length content.now < 2 ^ 64) }
    ensures none { IfNone result (IsNoBytesField field bytes.now) }
{
    let (content, rest) = read_bytes(bytes, field)?;
    if rest.len() != 0 {
        return None;
    }
    Some(content)
}
