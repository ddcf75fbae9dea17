//! Constants of lists, which are null, read.
ghost use Rattle.std.specs.Prelude.{IfOk, IfSome, IfNone, IsErrOf, IsOkUnless};
ghost use Rattle.column_bytes.specs.Read.{IsScalarIn, HasNoScalarIn, IsNullOfLists, IsNullOfNoLists};

use column_base::{DType, ElementDType, Nullability, VortexError, VortexResult};
use column_core::Scalar;
use column_fields::{read_bytes, read_constant, read_element_type};
use std::alloc::Allocator;

/// Returns null, of the type of lists that the bytes name. Refused as `BadMetadata` exactly where they name none.
pub(crate) fn read_null_list<A: Allocator>(bytes: &[u8]) -> VortexResult<Scalar<A>>
    ensures found { IfOk result (λ scalar. IsScalarIn 13 bytes.now scalar) }
    ensures bad { IsErrOf result VortexError.BadMetadata → HasNoScalarIn 13 bytes.now }
    ensures only { IsOkUnless result VortexError.BadMetadata }
{
    let Some(element) = read_element(bytes) else {
        return Err(VortexError::BadMetadata);
    };
    let dtype = DType::List(element, Nullability::Nullable);
    Ok(Scalar::try_new(dtype, None).unwrap())
}

// The type of the elements of lists, after the fields of null.
pub(crate) fn read_element(bytes: &[u8]) -> Option<ElementDType>
    ensures found { IfSome result (λ element. IsNullOfLists bytes.now element) }
    ensures none { IfNone result (IsNullOfNoLists bytes.now) }
{
    let after_validity = read_constant(bytes, 5, 3)?;
    let (items, rest) = read_bytes(after_validity, 7)?;
    if items.len() != 0 {
        return None;
    }
    read_element_type(rest)
}
