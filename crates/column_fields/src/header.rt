//! What each message begins with.
ghost use Rattle.std.specs.Prelude.{◌≡◌, ◌^◌, ◌<◌, ◌++◌, length, IfSome, IfNone, OnOk, IsOkUnless};
ghost use Rattle.column_fields.specs.Header.{header_bytes, HasNoHeader};
ghost use Rattle.column_fields.specs.Kept.{StaysInFront};
ghost use Rattle.column_fields.specs.Room.{UsesRoom};

use crate::fields::{put_number, read_constant, read_number};
use bytes::BufMut;
use column_base::{VortexError, VortexResult};

/// Holds the number of the type of the rows, the number of the form, and how many rows there are.
#[derive(Clone, Copy)]
pub struct Header {
    pub kind: u64,
    pub form: u64,
    pub rows: u64,
}

/// Writes a header at the end. Refused only as `OutOfMemory`.
pub fn put_header<W: BufMut>(out: &mut W, stated: Header) -> VortexResult<()>
    ensures ok { OnOk result (W.written out.new ≡
        W.written out.old ++ header_bytes stated.kind stated.form stated.rows) }
    ensures room { UsesRoom result (W.spare out.old) (W.spare out.new)
        (length (header_bytes stated.kind stated.form stated.rows)) }
    ensures kept { StaysInFront (W.written out.old) (W.written out.new) }
    ensures only { IsOkUnless result VortexError.OutOfMemory }
{
    put_number(out, 1, 1)?;
    put_number(out, 2, stated.kind)?;
    put_number(out, 3, stated.form)?;
    put_number(out, 4, stated.rows)?;
    Ok(())
}

/// Returns the header at the front, and the bytes after it.
pub fn read_header(bytes: &[u8]) -> Option<(Header, &[u8])>
    ensures found { IfSome result (λ r. bytes.now ≡ header_bytes r.0.kind r.0.form r.0.rows ++ r.1.now) }
    ensures small { IfSome result (λ r. (r.0.kind < 2 ^ 64) × (r.0.form < 2 ^ 64) × (r.0.rows < 2 ^ 64)) }
    ensures none { IfNone result (HasNoHeader bytes.now) }
{
    let after_version = read_constant(bytes, 1, 1)?;
    let (kind, after_kind) = read_number(after_version, 2)?;
    let (form, after_form) = read_number(after_kind, 3)?;
    let (rows, rest) = read_number(after_form, 4)?;
    Some((Header { kind, form, rows }, rest))
}
