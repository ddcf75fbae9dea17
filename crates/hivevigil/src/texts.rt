//! Calls that make flat columns of texts and bytes.
ghost use Rattle.std.specs.Prelude.{◌≡◌, ◌≢◌, ◌-◌, [], IsSomeAnd, length, pos};
ghost use Rattle.c_columns.specs.Bits.{validity_by};
ghost use Rattle.c_columns.specs.Ending.{EndsUnless};
ghost use Rattle.c_columns.specs.Handle.{array_in, format_in};
ghost use Rattle.c_columns.specs.Kinds.{varbin_kind_by};
ghost use Rattle.c_columns.specs.Makers.{AreTextsOf, TextsFault};

use c_columns::commands::answer;
use c_columns::error_fields::ErrorFields;
use c_columns::handle::Handle;
use c_columns::kinds::varbin_kind;
use c_columns::texts::texts;
use std::alloc::Global;

/// Returns the flat column of texts, or of bytes where `binary` is not 0, whose row i is the bytes from offset i up to
/// offset i + 1. Nulls are told as to `hv_u8`. Refused as `texts::texts` says.
#[unsafe(no_mangle)]
pub extern "C" fn hv_texts(
    alloc: Global,
    binary: u8,
    offsets: &[i32],
    bytes: &[u8],
    nulls: u8,
    bits: &[u8],
    first: usize,
    out: &mut Handle,
    error: &mut ErrorFields,
) -> i32
    ensures made { result ≡ pos 0
        → IsSomeAnd (array_in out.new.column) (λ c. AreTextsOf (varbin_kind_by binary) offsets.now bytes.now
        (validity_by nulls bits.now first (length offsets.now - 1)) c) }
    ensures untyped { result ≡ pos 0 → format_in out.new.column ≡ [] }
    ensures kept { result ≢ pos 0 → out.new.column ≡ out.old.column }
    ensures ended { EndsUnless (TextsFault
        (varbin_kind_by binary) offsets.now bytes.now nulls bits.now first) result error.new }
{
    answer(
        texts(
            alloc,
            varbin_kind(binary),
            offsets,
            bytes,
            nulls,
            bits,
            first,
        ),
        out,
        error,
    )
}

/// Returns the flat column of texts, or of bytes where `binary` is not 0, whose row i is the bytes from offset i up to
/// offset i + 1. Nulls are told as to `hv_u8`. Refused as `texts::texts` says.
#[unsafe(no_mangle)]
pub extern "C" fn hv_large_texts(
    alloc: Global,
    binary: u8,
    offsets: &[i64],
    bytes: &[u8],
    nulls: u8,
    bits: &[u8],
    first: usize,
    out: &mut Handle,
    error: &mut ErrorFields,
) -> i32
    ensures made { result ≡ pos 0
        → IsSomeAnd (array_in out.new.column) (λ c. AreTextsOf (varbin_kind_by binary) offsets.now bytes.now
        (validity_by nulls bits.now first (length offsets.now - 1)) c) }
    ensures untyped { result ≡ pos 0 → format_in out.new.column ≡ [] }
    ensures kept { result ≢ pos 0 → out.new.column ≡ out.old.column }
    ensures ended { EndsUnless (TextsFault
        (varbin_kind_by binary) offsets.now bytes.now nulls bits.now first) result error.new }
{
    answer(
        texts(
            alloc,
            varbin_kind(binary),
            offsets,
            bytes,
            nulls,
            bits,
            first,
        ),
        out,
        error,
    )
}
