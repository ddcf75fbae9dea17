//! The fields that name the type of the elements of lists.
ghost use Rattle.std.specs.Prelude.{◌≡◌, ◌++◌, length, IfSome, IfNone, OnOk, IsOkUnless};
ghost use Rattle.column_fields.specs.ElementFields.{element_type, numbered_type, nullability_number, IsElementType, IsNoElementType, IsNoNumberedType, HasNoNullability};
ghost use Rattle.column_fields.specs.Kept.{StaysInFront};
ghost use Rattle.column_fields.specs.Room.{UsesRoom};

use crate::decimal_fields::{put_decimal_type, read_decimal_type};
use crate::fields::{put_number, read_number};
use crate::types::{number_of_type, type_of_number};
use bytes::BufMut;
use column_base::{ElementDType, Nullability, VortexError, VortexResult};

/// Writes the type of the elements at the end. Refused only as `OutOfMemory`.
pub fn put_element_type<W: BufMut>(out: &mut W, element: ElementDType) -> VortexResult<()>
    ensures ok { OnOk result (W.written out.new ≡ W.written out.old ++ element_type element) }
    ensures room { UsesRoom result (W.spare out.old) (W.spare out.new) (length (element_type element)) }
    ensures typed { IsElementType element }
    ensures kept { StaysInFront (W.written out.old) (W.written out.new) }
    ensures only { IsOkUnless result VortexError.OutOfMemory }
{
    match element {
        ElementDType::Bool(nullability) => put_numbered_type(out, 9, nullability),
        ElementDType::Primitive(ptype, nullability) => {
            put_numbered_type(out, number_of_type(ptype), nullability)
        }
        ElementDType::Decimal(decimal, nullability) => {
            put_decimal_type(out, decimal)?;
            put_numbered_type(out, 10, nullability)
        }
        ElementDType::Utf8(nullability) => put_numbered_type(out, 11, nullability),
        ElementDType::Binary(nullability) => put_numbered_type(out, 12, nullability),
    }
}

// Writes the number of a type, and whether it has a null.
fn put_numbered_type<W: BufMut>(
    out: &mut W,
    number: u64,
    nullability: Nullability,
) -> VortexResult<()>
    ensures ok { OnOk result (W.written out.new ≡ W.written out.old ++ numbered_type number nullability) }
    ensures room { UsesRoom result (W.spare out.old) (W.spare out.new) (length (numbered_type number nullability)) }
    ensures kept { StaysInFront (W.written out.old) (W.written out.new) }
    ensures only { IsOkUnless result VortexError.OutOfMemory }
{
    put_number(out, 20, number)?;
    put_number(out, 21, number_of_nullability(nullability))?;
    Ok(())
}

/// Returns the type of elements that the bytes are.
pub fn read_element_type(bytes: &[u8]) -> Option<ElementDType>
    ensures found { IfSome result (λ element. bytes.now ≡ element_type element) }
    ensures typed { IfSome result (λ element. IsElementType element) }
    ensures none { IfNone result (IsNoElementType bytes.now) }
{
    let Some((decimal, rest)) = read_decimal_type(bytes) else {
        let (number, nullability) = read_numbered_type(bytes)?;
        return plain_element(number, nullability);
    };
    let (number, nullability) = read_numbered_type(rest)?;
    if number != 10 {
        return None;
    }
    Some(ElementDType::Decimal(decimal, nullability))
}

// The number of a type and whether it has a null, which the bytes are.
fn read_numbered_type(bytes: &[u8]) -> Option<(u64, Nullability)>
    ensures found { IfSome result (λ r. bytes.now ≡ numbered_type r.0 r.1) }
    ensures none { IfNone result (IsNoNumberedType bytes.now) }
{
    let (number, after_number) = read_number(bytes, 20)?;
    let (told, rest) = read_number(after_number, 21)?;
    let nullability = nullability_of_number(told)?;
    if rest.len() != 0 {
        return None;
    }
    Some((number, nullability))
}

// The type with that number, unless it is one of decimals.
fn plain_element(number: u64, nullability: Nullability) -> Option<ElementDType>
    ensures found { IfSome result (λ element. element_type element ≡ numbered_type number nullability) }
    ensures typed { IfSome result (λ element. IsElementType element) }
    ensures none { IfNone result (IsNoElementType (numbered_type number nullability)) }
{
    match number {
        9 => Some(ElementDType::Bool(nullability)),
        11 => Some(ElementDType::Utf8(nullability)),
        12 => Some(ElementDType::Binary(nullability)),
        _ => match type_of_number(number) {
            Some(ptype) => Some(ElementDType::Primitive(ptype, nullability)),
            None => None,
        },
    }
}

fn number_of_nullability(nullability: Nullability) -> u64
    ensures { result ≡ nullability_number nullability }
{
    match nullability {
        Nullability::NonNullable => 1,
        Nullability::Nullable => 2,
    }
}

fn nullability_of_number(number: u64) -> Option<Nullability>
    ensures found { IfSome result (λ n. nullability_number n ≡ number) }
    ensures none { IfNone result (HasNoNullability number) }
{
    match number {
        1 => Some(Nullability::NonNullable),
        2 => Some(Nullability::Nullable),
        _ => None,
    }
}
