//! The decoders of runs that are given by their parts, with each request for memory refused in turn.
ghost use Rattle.std.specs.Prelude.{◌≡◌, IfOk, length};
ghost use Rattle.column_core.specs.PrimitiveForm.{primitive_dtype};
ghost use Rattle.runend_windows.specs.Ends.{IsEndsType};

use crate::columns::{context, ends_column, full_context, nullable};
use crate::parts::{bits, three_lists, three_texts};
use crate::shown::are_shown;
use refusing::{Calls, are_answered_in_turn};
use runend_windows::validate_ends;
use std::alloc::Allocator;
use std::test::Fail;
use vortex_runend::compress::{
    runend_decode_decimal, runend_decode_listview, runend_decode_primitive,
    runend_decode_typed_primitive, runend_decode_varbinview,
};
use vortex_runend::decompress_bool::runend_decode_typed_bool;
use vortex_runend::{
    ArrayRef, BitBuffer, BitBufferMut, DecimalArray, DecimalDType, ExecutionCtx, Mask, Nullability,
    PrimitiveArray, UnsignedPType, Validity, VortexResult, trimmed_ends_iter,
};

// Where three runs end. Among the rows 1 to 8 one is in the first run, three are in the second and four in the last.
// The first has none of the rows from 2 on.
const THREE_ENDS: [u8; 3] = [2, 5, 10];

// Where four runs end. The rows 1 to 8 show each of them.
const FOUR_ENDS: [u8; 4] = [2, 5, 7, 10];

// These ends with values.
fn with_ends<E: UnsignedPType, V: Drop, A: Allocator + Copy>(
    alloc: A,
    ends: &[E],
    values: VortexResult<V>,
) -> VortexResult<(PrimitiveArray<A>, V)>
    ensures { IfOk result (λ parts. IsEndsType (primitive_dtype parts.0)) }
{
    let values = values?;
    match ends_column(alloc, ends) {
        Ok(ends) => Ok((ends, values)),
        Err(error) => {
            drop(values);
            Err(error)
        }
    }
}

// Null, 1, 2 and null, with another number stored under null.
fn numbers<A: Allocator + Copy>(ctx: &mut ExecutionCtx<A>) -> VortexResult<ArrayRef<A>> {
    let alloc = *ctx.allocator();
    let values = nullable(alloc, &[77i32, 1, 2, 77], &[false, true, true, false]);
    let (ends, values) = with_ends(alloc, &FOUR_ENDS, values)?;
    match validate_ends(&ends, values.len(), 1, 8) {
        Ok(()) => runend_decode_primitive(ends, values, 1, 8, ctx),
        Err(error) => {
            drop(ends);
            drop(values);
            Err(error)
        }
    }
}

// 123.45, null over a stored number, and -123.00.
fn three_decimals<A: Allocator + Copy>(alloc: A) -> VortexResult<DecimalArray<A>> {
    let decimal = DecimalDType {
        precision: 10,
        scale: 2,
    };
    let flags = bits(alloc, &[true, false, true])?;
    match Vec::from_slice(alloc, &[12345i128, 77, -12300]) {
        Ok(numbers) => DecimalArray::try_new(numbers, decimal, Validity::Bits(flags)),
        Err(error) => {
            drop(flags);
            Err(error.into())
        }
    }
}

fn decimals<A: Allocator + Copy>(ctx: &mut ExecutionCtx<A>) -> VortexResult<ArrayRef<A>> {
    let alloc = *ctx.allocator();
    let (ends, values) = with_ends(alloc, &[2u32, 5, 10], three_decimals(alloc))?;
    match validate_ends(&ends, values.len(), 0, 10) {
        Ok(()) => runend_decode_decimal(ends, values, 0, 10, ctx),
        Err(error) => {
            drop(ends);
            drop(values);
            Err(error)
        }
    }
}

// "first", null and "last", in one buffer.
fn words<A: Allocator + Copy>(ctx: &mut ExecutionCtx<A>) -> VortexResult<ArrayRef<A>> {
    let alloc = *ctx.allocator();
    let values = three_texts(alloc);
    let (ends, values) = with_ends(alloc, &[2u8, 5, 9], values)?;
    match validate_ends(&ends, values.len(), 1, 7) {
        Ok(()) => runend_decode_varbinview(ends, values, 1, 7, ctx),
        Err(error) => {
            drop(ends);
            drop(values);
            Err(error)
        }
    }
}

// The lists 1 2, null and 4 5 6.
fn lists<A: Allocator + Copy>(ctx: &mut ExecutionCtx<A>) -> VortexResult<ArrayRef<A>> {
    let alloc = *ctx.allocator();
    let (ends, values) = with_ends(alloc, &[2u8, 5, 6], three_lists(ctx))?;
    match validate_ends(&ends, values.len(), 0, 6) {
        Ok(()) => {
            let lists = runend_decode_listview(ends, values, 0, 6, ctx)?;
            Ok(ArrayRef::ListView(Box::new(alloc, lists)?))
        }
        Err(error) => {
            drop(ends);
            drop(values);
            Err(error)
        }
    }
}

struct Parts {}

impl Calls for Parts {
    fn are_answered<A: Allocator + Copy>(alloc: A) -> VortexResult<bool> {
        let mut ctx = context(alloc);
        let (null, one, two) = (None::<i64>, Some(1i64), Some(2i64));
        let numbers = are_shown(
            numbers(&mut ctx),
            &[null, one, one, one, two, two, null, null],
        );
        let (first, null, last) = (Some(12345i128), None, Some(-12300i128));
        let decimals = are_shown(
            decimals(&mut ctx),
            &[first, first, null, null, null, last, last, last, last, last],
        );
        let (first, null, last) = (Some("first"), None, Some("last"));
        let words = are_shown(
            words(&mut ctx),
            &[first, null, null, null, last, last, last],
        );
        let (first, null, last) = (
            Some([1i64, 2].as_slice()),
            None,
            Some([4i64, 5, 6].as_slice()),
        );
        let lists = are_shown(lists(&mut ctx), &[first, first, null, null, null, last]);
        Ok(numbers? && decimals? && words? && lists?)
    }
}

#[test]
fn parts_are_decoded(rt: HostRuntime) -> Result<(), Fail> {
    assert!(rt; are_answered_in_turn::<Parts>(rt.alloc()));
    Ok(())
}

// Do the texts that were made lie in the one buffer of the values?
fn are_in_one_buffer<A: Allocator + Copy>(made: VortexResult<ArrayRef<A>>) -> VortexResult<bool> {
    let array = made?;
    let are_kept = match &array {
        ArrayRef::VarBinView(flat) => match flat.buffers() {
            [buffer] => buffer.as_slice() == b"firstlast".as_slice(),
            _ => false,
        },
        _ => false,
    };
    drop(array);
    Ok(are_kept)
}

#[test]
fn decoded_texts_keep_their_buffer(rt: HostRuntime) -> Result<(), Fail> {
    let made = words(&mut context(rt.alloc()));
    assert!(rt; are_in_one_buffer(made)?);
    Ok(())
}

// Numbers by ends from an iterator, null in the first run and in the last.
fn typed_numbers<A: Allocator + Copy>(ctx: &mut ExecutionCtx<A>) -> VortexResult<ArrayRef<A>> {
    let alloc = *ctx.allocator();
    let mask = Mask::from_indices(alloc, 4, &[1, 2])?;
    let ends = trimmed_ends_iter(&FOUR_ENDS, 1, 8);
    let nullable = Nullability::Nullable;
    let rows = runend_decode_typed_primitive(ends, &[77i32, 1, 2, 77], mask, nullable, 8, ctx)?;
    Ok(ArrayRef::Primitive(rows))
}

// The bits true, false, true.
fn three_bits<A: Allocator + Copy>(alloc: A) -> VortexResult<BitBuffer<A>>
    ensures { IfOk result (λ bits. length bits ≡ 3) }
{
    let mut bits = BitBufferMut::full(alloc, true, 3)?;
    bits.fill_range(1, 2, false);
    Ok(bits.freeze())
}

// Booleans by ends from an iterator: false in the second run, true in the third. No row is in the first.
fn typed_truths<A: Allocator + Copy>(ctx: &mut ExecutionCtx<A>) -> VortexResult<ArrayRef<A>> {
    let values = three_bits(*ctx.allocator())?;
    let ends = trimmed_ends_iter(&THREE_ENDS, 2, 6);
    let (all, required) = (Mask::AllTrue(3), Nullability::NonNullable);
    let rows = runend_decode_typed_bool(ends, &values, all, required, 6, ctx);
    drop(values);
    rows
}

// The threshold from which booleans are filled before is 0 runs in the one context, and 32 in the other.
struct TypedValues {}

impl Calls for TypedValues {
    fn are_answered<A: Allocator + Copy>(alloc: A) -> VortexResult<bool> {
        let (mut filled, mut appended) = (context(alloc), full_context(alloc));
        let (null, one, two) = (None, Some(1i64), Some(2i64));
        let rows = [null, one, one, one, two, two, null, null];
        let numbers = are_shown(typed_numbers(&mut filled), &rows);
        let (yes, no) = (Some(true), Some(false));
        let rows = [no, no, no, yes, yes, yes];
        let before = are_shown(typed_truths(&mut filled), &rows);
        let behind = are_shown(typed_truths(&mut appended), &rows);
        Ok(numbers? && before? && behind?)
    }
}

#[test]
fn values_are_decoded_by_ends_from_an_iterator(rt: HostRuntime) -> Result<(), Fail> {
    assert!(rt; are_answered_in_turn::<TypedValues>(rt.alloc()));
    Ok(())
}
