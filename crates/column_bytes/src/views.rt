//! Views of rows whose bytes come one after the other.
ghost use Rattle.std.specs.Prelude.{◌≡◌, ◌^◌, ◌<◌, ◌≤◌, length, vec_capacity, IfOk, IfErr, IsErrOf, IsTrue, IsFalse};
ghost use Rattle.std.specs.Bool.{OnTrue, OnFalse};
ghost use Rattle.column_base.specs.Validity.{form_of, validity_flags};
ghost use Rattle.column_base.specs.ValidityForm.{HasLength};
ghost use Rattle.column_core.specs.Optionals.{AreBlankAtNulls};
ghost use Rattle.column_fields.specs.Refusal.{IsBadOrMemory};
ghost use Rattle.column_bytes.specs.TextReading.{AreRowsOf, AreNoRowsOf, AreViewsOf, AreNoViewsOf};
ghost use Rattle.column_bytes.specs.Texts.{sizes_in};

use column_base::{Validity, VortexError, VortexResult};
use column_core::View;
use column_fields::read_shortest;
use std::alloc::Allocator;

/// Returns the views of rows whose bytes come one after the other, from the bytes of their sizes; all rows together
/// have `total` bytes, and a null row has none. Refused as `BadMetadata` exactly where the bytes are not the sizes of
/// such rows, else only as `OutOfMemory`.
pub(crate) fn read_views<A: Allocator + Copy>(
    alloc: A,
    validity: &Validity<A>,
    rows: usize,
    sizes: &[u8],
    total: usize,
) -> VortexResult<Vec<View, A>>
    requires { HasLength (form_of validity.now) rows }
    ensures found { IfOk result (λ views. AreRowsOf (form_of validity.now) rows total sizes.now views.items) }
    ensures bad { IsErrOf result VortexError.BadMetadata →
        AreNoRowsOf (form_of validity.now) rows total sizes.now }
    ensures only { IfErr result IsBadOrMemory }
{
    let views = load_views(alloc, rows, sizes, total)?;
    if !is_empty_at_nulls(validity, &views) {
        return Err(VortexError::BadMetadata);
    }
    Ok(views)
}

// The views of `rows` rows whose bytes come one after the other, from the bytes of their sizes; all rows together have
// `total` bytes. Takes memory only where there are at least as many bytes as rows.
fn load_views<A: Allocator>(
    alloc: A,
    rows: usize,
    sizes: &[u8],
    total: usize,
) -> VortexResult<Vec<View, A>>
    ensures found { IfOk result (λ views. AreViewsOf rows total sizes.now views.items) }
    ensures memory { IfOk result (λ views. vec_capacity views ≤ length sizes.now) }
    ensures bad { IsErrOf result VortexError.BadMetadata → AreNoViewsOf rows total sizes.now }
    ensures only { IfErr result IsBadOrMemory }
{
    if sizes.len() < rows {
        return Err(VortexError::BadMetadata);
    }
    let mut views = Vec::with_capacity(alloc, rows)?;
    let mut rest = sizes;
    let mut start = 0usize;
    for _row in 0..rows {
        let Some((number, after)) = read_shortest(rest) else {
            return Err(VortexError::BadMetadata);
        };
        let size = number as usize;
        if size > total - start {
            return Err(VortexError::BadMetadata);
        }
        views.push_reserved(View {
            buffer: 0,
            start,
            size,
        });
        rest = after;
        start += size;
    }
    if rest.len() != 0 || start != total {
        return Err(VortexError::BadMetadata);
    }
    Ok(views)
}

// Has each null row a view of no bytes?
fn is_empty_at_nulls<A: Allocator>(validity: &Validity<A>, views: &[View]) -> bool
    requires { HasLength (form_of validity.now) (length views.now) }
    ensures yes { let count = length views.now in
        OnTrue result (AreBlankAtNulls 0 (sizes_in views.now) (validity_flags validity.now count)) }
    ensures no { let count = length views.now in
        OnFalse result (¬ AreBlankAtNulls 0 (sizes_in views.now) (validity_flags validity.now count)) }
{
    for row in 0..views.len() {
        if views[row].size != 0 && !validity.is_valid(row) {
            return false;
        }
    }
    true
}
