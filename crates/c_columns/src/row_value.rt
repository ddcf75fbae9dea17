//! One value of a row, as C reads and writes it.
ghost use Rattle.std.specs.Prelude.{◌≡◌, ◌<◌, ◌≤◌, ◌⊎◌, ◌↔◌, drop, length, take, IfOk, IfErr, MatchResult, OnOk, Some, OnErr};
ghost use Rattle.std.specs.Str.{IsUtf8};
ghost use Rattle.column_base.specs.declared.dtype.DType.{DType};
ghost use Rattle.column_core.specs.Value.{Text};
ghost use Rattle.column_core.specs.Scalar.{flat_of, IsOwnedOf};
ghost use Rattle.column_core.specs.ScalarView.{sees};
ghost use Rattle.runend_array.specs.Array.{dtype_of};
ghost use Rattle.c_columns.specs.Ending.{IsShortOr};
ghost use Rattle.c_columns.specs.Makers.{ConstantFault};
ghost use Rattle.c_columns.specs.Values.{IsPassed, IsPassedIn, IsRoomFault, IsRoomThere, TellsView, scalar_in, value_in};

use crate::pairs::{Pair, number_of, pair_of};
use column_core::{DType, Nullability, Scalar, ScalarValue, ScalarView, VortexError, VortexResult};
use runend_array::ArrayRef;
use std::alloc::Global;

/// Holds a value, by `kind`: 0 null; 1 the number `as_unsigned`; 2 the number `as_signed`; 3 `truth`, false where it is
/// 0; 4 the decimal whose high 64 bits are `as_signed` and whose low 64 bits are `as_unsigned`; 5 a text and 6 bytes,
/// in a separate buffer; 7 the float of 64 bits whose bits are `as_unsigned`; 8 a decimal in the bits of 4, with
/// `scale` of its digits after the point. Rows are answered by the kinds up to 7, whose `scale` is 0.
#[repr(C)]
#[derive(Clone, Copy)]
pub struct RowValue {
    pub as_unsigned: u64,
    pub as_signed: i64,
    pub kind: u8,
    pub truth: u8,
    pub scale: i8,
}

/// Returns what a view shows, for C. A text or bytes go to the front of `text`, and `as_unsigned` says how many bytes
/// they have. Refused as `ColumnLength`, with that number and the room, where they do not fit.
pub fn row_value_of(view: ScalarView<'_, Global>, text: &mut [u8]) -> VortexResult<RowValue>
    ensures told { IfOk result (λ value. TellsView value text.new view.entry) }
    ensures room { IfErr result (λ error. IsRoomFault (sees view.entry) (length text.old) error) }
    ensures fits { IfOk result (λ _. IsRoomThere (sees view.entry) (length text.old)) }
    ensures kept { OnErr result (text.new ≡ text.old) }
    ensures len { length text.new ≡ length text.old }
{
    match view {
        ScalarView::Null => Ok(row_value(0, 0, 0, 0)),
        ScalarView::Unsigned(number) => Ok(row_value(1, number, 0, 0)),
        ScalarView::Signed(number) => Ok(row_value(2, 0, number, 0)),
        ScalarView::Bool(truth) => Ok(row_value(3, 0, 0, truth as u8)),
        ScalarView::Decimal(number) => {
            let pair = pair_of(number);
            Ok(row_value(4, pair.low, pair.high, 0))
        }
        ScalarView::Utf8(string) => Ok(row_value(5, put_bytes(string.as_bytes(), text)?, 0, 0)),
        ScalarView::Binary(bytes) => Ok(row_value(6, put_bytes(bytes, text)?, 0, 0)),
        ScalarView::List { .. } => Err(VortexError::Unsupported),
    }
}

/// Tests that a text or bytes that a view shows fit this room. Refused as `row_value_of` is with this room.
pub fn check_room_of(view: ScalarView<'_, Global>, room: usize) -> VortexResult<()>
    ensures room { IfErr result (λ error. IsRoomFault (sees view.entry) room error) }
    ensures fits { IfOk result (λ _. IsRoomThere (sees view.entry) room) }
{
    match view {
        ScalarView::Utf8(string) => check_enough(string.as_bytes().len(), room),
        ScalarView::Binary(bytes) => check_enough(bytes.len(), room),
        ScalarView::List { .. } => Err(VortexError::Unsupported),
        _ => Ok(()),
    }
}

// Returns whether the bytes have room. Refused as `ColumnLength`, with their number and the room.
fn check_enough(size: usize, room: usize) -> VortexResult<()>
    ensures { MatchResult result (λ _. size ≤ room)
        (λ error. (error ≡ VortexError.ColumnLength size room) × (room < size)) }
{
    if room < size {
        return Err(VortexError::ColumnLength {
            left: size,
            right: room,
        });
    }
    Ok(())
}

/// Returns null.
pub fn null() -> RowValue
    ensures { result.kind ≡ 0 }
{
    row_value(0, 0, 0, 0)
}

/// Copies bytes to the front of `room`, and returns how many they are; the bytes after them stay. Refused as
/// `ColumnLength`, with that number and the room, where they do not all fit.
pub fn put_bytes(bytes: &[u8], room: &mut [u8]) -> VortexResult<u64>
    ensures put { IfOk result (λ size. (size ≡ length bytes.now) × (take size room.new ≡ bytes.now)) }
    ensures after { IfOk result (λ size. drop size room.new ≡ drop size room.old) }
    ensures fits { IfOk result (λ _. length bytes.now ≤ length room.old) }
    ensures refused { IfErr result
        (λ error. (error ≡ VortexError.ColumnLength (length bytes.now) (length room.old))
        × (length room.old < length bytes.now)) }
    ensures kept { OnErr result (room.new ≡ room.old) }
    ensures len { length room.new ≡ length room.old }
{
    let size = bytes.len();
    check_enough(size, room.len())?;
    room[..size].copy_from_slice(bytes);
    Ok(size as u64)
}

/// Returns the scalar that C passes, of the type of a column, nullable only for null. `text` has the bytes of a text.
/// Refused as `TypeMismatch` where it is not a value of the type, or the bytes are not UTF-8.
pub fn scalar_of(
    alloc: Global,
    array: &ArrayRef<Global>,
    value: &RowValue,
    text: &[u8],
) -> VortexResult<Scalar<Global>>
    ensures scalar { IfOk result (λ scalar. scalar ≡ scalar_in (dtype_of array.now) value.now.kind value.now text.now) }
    ensures accepted { IfOk result (λ _. IsPassed (dtype_of array.now) value.now.kind value.now text.now) }
    ensures refused { IfErr result
        (λ error. (error ≡ VortexError.OutOfMemory)
        ⊎ ((error ≡ VortexError.TypeMismatch) × (¬ IsPassed (dtype_of array.now) value.now.kind value.now text.now))) }
{
    if value.kind == 0 {
        return Scalar::try_new(array.dtype().with_nullability(Nullability::Nullable), None);
    }
    let given = value_of(alloc, value, text)?;
    Scalar::try_new(
        array.dtype().with_nullability(Nullability::NonNullable),
        Some(given),
    )
}

/// Returns the scalar of this type that C passes. `text` has the bytes of a text. Refused as `NullNotAllowed` for null
/// in a type without null, and as `TypeMismatch` where it is not a value of the type, or the bytes are not UTF-8.
#[tactic(auto, using(crate::proofs::Passed::null_refused, crate::proofs::Passed::value_refused, crate::proofs::Passed::given_refused, crate::proofs::Passed::null_served, crate::proofs::Passed::value_served))]
pub fn scalar_of_type(
    alloc: Global,
    dtype: DType,
    value: &RowValue,
    text: &[u8],
) -> VortexResult<Scalar<Global>>
    ensures scalar { IfOk result
        (λ scalar. scalar ≡ record { dtype = dtype; value = value_in value.now.kind value.now text.now }) }
    ensures refused { IfErr result (λ error. IsShortOr (ConstantFault dtype value.now text.now) error) }
    ensures served { OnOk result ((error : VortexError) → ¬ (ConstantFault dtype value.now text.now error)) }
{
    if value.kind == 0 {
        return Scalar::try_new(dtype, None);
    }
    let given = value_of(alloc, value, text)?;
    Scalar::try_new(dtype, Some(given))
}

// The value that is passed, which is not null.
#[tactic(auto, using(crate::proofs::Passed::unsigned_passed, crate::proofs::Passed::signed_passed, crate::proofs::Passed::truth_passed, crate::proofs::Passed::decimal_passed, crate::proofs::Passed::text_passed, crate::proofs::Passed::bytes_passed, crate::proofs::Passed::not_text_passed))]
fn value_of(alloc: Global, value: &RowValue, text: &[u8]) -> VortexResult<ScalarValue<Global>>
    ensures value { IfOk result (λ owned. value_in value.now.kind value.now text.now ≡ Some (flat_of owned)) }
    ensures of_type { IfOk result
        (λ owned. (t : DType) → IsOwnedOf t owned ↔ IsPassedIn t value.now.kind value.now text.now) }
    ensures refused { IfErr result
        (λ error. (error ≡ VortexError.OutOfMemory)
        ⊎ ((error ≡ VortexError.TypeMismatch) × ((t : DType) → ¬ IsPassedIn t value.now.kind value.now text.now))) }
{
    match value.kind {
        1 => Ok(ScalarValue::Unsigned(value.as_unsigned)),
        2 => Ok(ScalarValue::Signed(value.as_signed)),
        3 => Ok(ScalarValue::Bool(value.truth != 0)),
        4 => Ok(ScalarValue::Decimal(number_of(Pair {
            low: value.as_unsigned,
            high: value.as_signed,
        }))),
        5 => text_of(alloc, text),
        6 => Ok(ScalarValue::Binary(Vec::from_slice(alloc, text)?)),
        _ => Err(VortexError::TypeMismatch),
    }
}

fn text_of(alloc: Global, text: &[u8]) -> VortexResult<ScalarValue<Global>>
    ensures value { IfOk result (λ owned. flat_of owned ≡ Text text.now) }
    ensures text { IfOk result (λ _. IsUtf8 text.now) }
    ensures refused { IfErr result
        (λ error. (error ≡ VortexError.OutOfMemory) ⊎ ((error ≡ VortexError.TypeMismatch) × (¬ IsUtf8 text.now))) }
{
    match str::from_utf8(text) {
        Ok(string) => Ok(ScalarValue::Utf8(String::from_str(alloc, string)?)),
        Err(_) => Err(VortexError::TypeMismatch),
    }
}

fn row_value(kind: u8, as_unsigned: u64, as_signed: i64, truth: u8) -> RowValue
    ensures { (result.kind ≡ kind) × (result.as_unsigned ≡ as_unsigned) × (result.as_signed ≡ as_signed)
        × (result.truth ≡ truth) }
{
    RowValue {
        as_unsigned,
        as_signed,
        kind,
        truth,
        scale: 0,
    }
}
