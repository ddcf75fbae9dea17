//! What a message of stored rows ends with: which rows are null, and the items.
ghost use Rattle.std.specs.Prelude.{◌≡◌, ◌^◌, ◌<◌, length, IfOk, IfErr, IsErrOf};
ghost use Rattle.column_base.specs.Validity.{form_of};
ghost use Rattle.column_base.specs.ValidityForm.{HasLength};
ghost use Rattle.column_fields.specs.FlatFields.{flat_fields, AreNoFlatFields};
ghost use Rattle.column_fields.specs.Refusal.{IsBadOrMemory};

use crate::fields::read_last_bytes;
use crate::validity::read_validity;
use column_base::{Validity, VortexError, VortexResult};
use std::alloc::Allocator;

/// Returns the validity of `rows` rows and the bytes of the items, which the bytes consist of. Refused as `BadMetadata`
/// exactly where they consist of anything else, else only as `OutOfMemory`.
pub fn read_flat_fields<A: Allocator + Copy>(
    alloc: A,
    bytes: &[u8],
    rows: usize,
) -> VortexResult<(Validity<A>, &[u8])>
    ensures found { IfOk result (λ r. bytes.now ≡ flat_fields (form_of r.0) r.1.now) }
    ensures counted { IfOk result (λ r. HasLength (form_of r.0) rows) }
    ensures small { IfOk result (λ r. length r.1.now < 2 ^ 64) }
    ensures bad { IsErrOf result VortexError.BadMetadata → AreNoFlatFields rows bytes.now }
    ensures only { IfErr result IsBadOrMemory }
{
    let (validity, rest) = read_validity(alloc, bytes, rows)?;
    match read_last_bytes(rest, 7) {
        Some(items) => Ok((validity, items)),
        None => {
            drop(validity);
            Err(VortexError::BadMetadata)
        }
    }
}
