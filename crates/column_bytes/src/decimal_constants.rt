//! Constants of decimals, read.
ghost use Rattle.std.specs.Prelude.{◌≡◌, [], ℤ, IfOk, IfErr, IsErrOf, IsOkUnless};
ghost use Rattle.column_fields.specs.DecimalBytes.{decimal_bytes};
ghost use Rattle.column_fields.specs.Refusal.{IsBadOrMemory};
ghost use Rattle.column_bytes.specs.Read.{IsScalarIn, HasNoScalarIn, IsDecimalOf, IsNullDecimal};

use column_base::{DType, DecimalDType, Nullability, Validity, VortexError, VortexResult};
use column_core::{Scalar, ScalarValue};
use column_fields::{DECIMAL_SIZE, load_decimal, read_decimal_fields};
use std::alloc::Allocator;

/// Returns the decimal, or the null, that the bytes hold. Refused as `BadMetadata` exactly where they hold none, else
/// only as `OutOfMemory`.
pub(crate) fn read_decimal<A: Allocator + Copy>(alloc: A, bytes: &[u8]) -> VortexResult<Scalar<A>>
    ensures found { IfOk result (λ scalar. IsScalarIn 10 bytes.now scalar) }
    ensures bad { IsErrOf result VortexError.BadMetadata → HasNoScalarIn 10 bytes.now }
    ensures only { IfErr result IsBadOrMemory }
{
    let (validity, decimal, items) = read_decimal_fields(alloc, bytes, 0)?;
    match validity {
        Validity::NonNullable => some_decimal(decimal, Nullability::NonNullable, items),
        Validity::AllValid => some_decimal(decimal, Nullability::Nullable, items),
        Validity::AllInvalid => null_decimal(decimal, items),
        Validity::Bits(bits) => {
            drop(bits);
            Err(VortexError::BadMetadata)
        }
    }
}

// The decimal that these bytes hold.
fn some_decimal<A: Allocator>(
    decimal: DecimalDType,
    nullability: Nullability,
    bytes: &[u8],
) -> VortexResult<Scalar<A>>
    ensures found { IfOk result (λ scalar. IsDecimalOf decimal nullability bytes.now scalar) }
    ensures bad { IsErrOf result VortexError.BadMetadata → (z : ℤ) → decimal_bytes z ≡ bytes.now → ⊥ }
    ensures only { IsOkUnless result VortexError.BadMetadata }
{
    if bytes.len() != DECIMAL_SIZE {
        return Err(VortexError::BadMetadata);
    }
    let value = ScalarValue::Decimal(load_decimal(bytes));
    Ok(Scalar::try_new(DType::Decimal(decimal, nullability), Some(value)).unwrap())
}

// The null that these bytes hold.
fn null_decimal<A: Allocator>(decimal: DecimalDType, bytes: &[u8]) -> VortexResult<Scalar<A>>
    ensures found { IfOk result (λ scalar. IsNullDecimal decimal bytes.now scalar) }
    ensures bad { IsErrOf result VortexError.BadMetadata → ¬ (bytes.now ≡ []) }
    ensures only { IsOkUnless result VortexError.BadMetadata }
{
    if bytes.len() != 0 {
        return Err(VortexError::BadMetadata);
    }
    let dtype = DType::Decimal(decimal, Nullability::Nullable);
    Ok(Scalar::try_new(dtype, None).unwrap())
}
