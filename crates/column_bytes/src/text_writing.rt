//! Texts or bytes, written.
ghost use Rattle.std.specs.Prelude.{◌≡◌, ◌+◌, ◌^◌, ◌<◌, ◌++◌, [], length, slice_index_or, sum, OnOk, IfOk, IfErr, IsOkUnless};
ghost use Rattle.column_core.specs.VarBinForm.{AreVarBins};
ghost use Rattle.column_fields.specs.Kept.{StaysInFront};
ghost use Rattle.column_fields.specs.Room.{UsesRoom, UsesCountedRoom};
ghost use Rattle.column_fields.specs.Sizes.{IsPast};
ghost use Rattle.column_bytes.specs.Texts.{AreTexts, shown_rows, sizes_bytes, text_bytes, text_fields, text_sizes};

use bytes::BufMut;
use column_base::{VortexError, VortexResult};
use column_core::{ScalarView, VarBinViewArray};
use column_fields::{
    bytes_key_size, put_bytes_key, put_validity, put_varint, size_of_total, validity_size,
    varint_size,
};
use std::alloc::Allocator;

// The greatest number of a `usize`.
const MOST: u128 = usize::MAX as u128;

/// Appends which rows are null, how many bytes each row shows, and these bytes. Refused only as `OutOfMemory`, where
/// the buffer has less room or the number of bytes does not fit `usize`; what it held stays in front also then.
pub fn put_text_fields<A: Allocator, W: BufMut>(
    out: &mut W,
    array: &VarBinViewArray<A>,
) -> VortexResult<()>
    ensures ok { OnOk result (W.written out.new ≡ W.written out.old ++
        text_fields array.now.validity (text_sizes array.now) (text_bytes array.now)) }
    ensures room { UsesCountedRoom result (W.spare out.old) (W.spare out.new)
        (length (text_fields array.now.validity (text_sizes array.now) (text_bytes array.now))) }
    ensures stored { OnOk result (AreTexts array.now) }
    ensures kept { StaysInFront (W.written out.old) (W.written out.new) }
    ensures only { IsOkUnless result VortexError.OutOfMemory }
{
    let (sizes, content) = count(array)?;
    put_validity(out, array.validity())?;
    put_bytes_key(out, 12, sizes)?;
    put_sizes(out, array)?;
    put_bytes_key(out, 13, content)?;
    put_shown(out, array)?;
    Ok(())
}

/// Returns how many bytes these fields have. Refused as `OutOfMemory` exactly where their number does not fit `usize`.
pub fn text_fields_size<A: Allocator>(array: &VarBinViewArray<A>) -> VortexResult<usize>
    ensures size { IfOk result (λ size. size ≡
        length (text_fields array.now.validity (text_sizes array.now) (text_bytes array.now))) }
    ensures stored { OnOk result (AreTexts array.now) }
    ensures past { IfErr result (λ error. IsPast
        (length (text_fields array.now.validity (text_sizes array.now) (text_bytes array.now))) error) }
{
    match count(array) {
        Ok((sizes, content)) => {
            let keys = bytes_key_size(12, sizes) + bytes_key_size(13, content);
            let head = validity_size(array.validity()) + keys;
            match size_of_total(head as u128 + sizes as u128 + content as u128) {
                Ok(size) => Ok(size),
                Err(error) => Err(error),
            }
        }
        Err(error) => Err(error),
    }
}

// How many bytes the sizes of all rows have, and how many bytes the rows show together. Refused as `OutOfMemory` where
// a number does not fit `usize`.
fn count<A: Allocator>(array: &VarBinViewArray<A>) -> VortexResult<(usize, usize)>
    ensures sizes { IfOk result (λ r. r.0 ≡ length (sizes_bytes (text_sizes array.now))) }
    ensures content { IfOk result (λ r. r.1 ≡ sum (text_sizes array.now)) }
    ensures are { AreVarBins array.now }
    ensures rows { length array.now.views < 2 ^ 64 }
    ensures past { IfErr result
        (λ error. IsPast (length (sizes_bytes (text_sizes array.now)) + sum (text_sizes array.now)) error) }
{
    let (sizes, content) = measure(array);
    if sizes > MOST || content > MOST {
        return Err(VortexError::OutOfMemory);
    }
    Ok((sizes as usize, content as usize))
}

// The same, also where a number does not fit `usize`.
fn measure<A: Allocator>(array: &VarBinViewArray<A>) -> (u128, u128)
    ensures sizes { result.0 ≡ length (sizes_bytes (text_sizes array.now)) }
    ensures content { result.1 ≡ sum (text_sizes array.now) }
    ensures are { AreVarBins array.now }
    ensures rows { length array.now.views < 2 ^ 64 }
{
    let mut sizes = 0;
    let mut content = 0;
    for row in 0..array.views().len() {
        let size = shown(array, row).len();
        sizes += varint_size(size as u64) as u128;
        content += size as u128;
    }
    (sizes, content)
}

// Writes how many bytes each row shows at the end.
fn put_sizes<A: Allocator, W: BufMut>(out: &mut W, array: &VarBinViewArray<A>) -> VortexResult<()>
    ensures ok { OnOk result (W.written out.new ≡ W.written out.old ++ sizes_bytes (text_sizes array.now)) }
    ensures room { UsesRoom result (W.spare out.old) (W.spare out.new) (length (sizes_bytes (text_sizes array.now))) }
    ensures kept { StaysInFront (W.written out.old) (W.written out.new) }
    ensures only { IsOkUnless result VortexError.OutOfMemory }
{
    for row in 0..array.views().len() {
        put_varint(out, shown(array, row).len() as u64)?;
    }
    Ok(())
}

// Writes the bytes that the rows show at the end.
fn put_shown<A: Allocator, W: BufMut>(out: &mut W, array: &VarBinViewArray<A>) -> VortexResult<()>
    ensures ok { OnOk result (W.written out.new ≡ W.written out.old ++ text_bytes array.now) }
    ensures room { UsesRoom result (W.spare out.old) (W.spare out.new) (length (text_bytes array.now)) }
    ensures kept { StaysInFront (W.written out.old) (W.written out.new) }
    ensures only { IsOkUnless result VortexError.OutOfMemory }
{
    for row in 0..array.len() {
        out.put_slice(shown(array, row))?;
    }
    Ok(())
}

// The bytes that a row shows, none where it is null.
fn shown<A: Allocator>(array: &VarBinViewArray<A>, row: usize) -> &[u8]
    requires { row < length array.now.views }
    ensures { result.now ≡ slice_index_or (shown_rows array.now) row [] }
{
    match array.get(row) {
        ScalarView::Utf8(text) => text.as_bytes(),
        ScalarView::Binary(bytes) => bytes,
        _ => &[],
    }
}
