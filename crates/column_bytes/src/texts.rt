//! Flat columns of texts or of bytes.
ghost use Rattle.std.specs.Prelude.{◌≡◌, ◌++◌, length, ℕ, OnOk, IfOk, IfErr, IsErrOf, IsOkUnless};
ghost use Rattle.column_core.specs.Leaf.{OfVarBins};
ghost use Rattle.runend_array.specs.Array.{column_of};
ghost use Rattle.runend_array.specs.Column.{OfLeaf};
ghost use Rattle.column_fields.specs.Kept.{StaysInFront};
ghost use Rattle.column_fields.specs.Room.{UsesCountedRoom};
ghost use Rattle.column_fields.specs.Refusal.{IsBadOrMemory};
ghost use Rattle.column_bytes.specs.Texts.{AreTexts};
ghost use Rattle.column_bytes.specs.Bytes.{column_bytes, varbin_number};
ghost use Rattle.column_bytes.specs.Read.{IsBody, IsNoBody};

use crate::kinds::number_of_kind;
use crate::text_reading::read_text_fields;
use crate::text_writing::put_text_fields;
use bytes::BufMut;
use column_base::{VortexError, VortexResult};
use column_core::{VarBinKind, VarBinViewArray};
use column_fields::{Header, put_header};
use runend_array::ArrayRef;
use std::alloc::Allocator;

/// Writes a flat column of texts or of bytes at the end. Refused only as `OutOfMemory`.
pub(crate) fn put_texts<A: Allocator, W: BufMut>(
    out: &mut W,
    array: &VarBinViewArray<A>,
) -> VortexResult<()>
    ensures ok { OnOk result (W.written out.new ≡ W.written out.old ++ column_bytes (OfLeaf (OfVarBins array.now))) }
    ensures room { UsesCountedRoom result (W.spare out.old) (W.spare out.new)
        (length (column_bytes (OfLeaf (OfVarBins array.now)))) }
    ensures stored { OnOk result (AreTexts array.now) }
    ensures kept { StaysInFront (W.written out.old) (W.written out.new) }
    ensures only { IsOkUnless result VortexError.OutOfMemory }
{
    put_header(
        out,
        Header {
            kind: number_of_kind(array.dtype()),
            form: 1,
            rows: array.len() as u64,
        },
    )?;
    put_text_fields(out, array)?;
    Ok(())
}

/// Returns the flat column of `rows` texts, or bytes, after its header. Refused as `BadMetadata` exactly where there is
/// none, else only as `OutOfMemory`.
pub(crate) fn read_texts<A: Allocator + Copy>(
    alloc: A,
    kind: VarBinKind,
    rows: usize,
    bytes: &[u8],
) -> VortexResult<ArrayRef<A>>
    ensures found { IfOk result (λ array. IsBody 0 (varbin_number kind) 1 rows bytes.now (column_of array)) }
    ensures bad { IsErrOf result VortexError.BadMetadata → (levels : ℕ) →
        IsNoBody levels (varbin_number kind) 1 rows bytes.now }
    ensures only { IfErr result IsBadOrMemory }
{
    match read_text_fields(alloc, kind, rows, bytes) {
        Ok(texts) => Ok(ArrayRef::VarBinView(texts)),
        Err(error) => Err(error),
    }
}
