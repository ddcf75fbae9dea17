//! What makers and commands refuse of arguments that no call of C can be given: flags of another number of rows, views
//! past a buffer, a scalar of another width, casts to lists.
use crate::columns::{both, full_context, required, run_column};
use crate::parts::bits;
use bytes::Bytes;
use std::alloc::Global;
use std::test::Fail;
use vortex_runend::compute::CompareOperator;
use vortex_runend::{
    ArrayRef, DType, ElementDType, ExecutionCtx, Nullability, PType, PrimitiveArray,
    PrimitiveValues, Scalar, ScalarValue, Validity, VarBinKind, VarBinViewArray, View, VortexError,
    VortexResult, arrays,
};

// Three numbers and two flags.
fn numbers_with_few_flags(alloc: Global) -> VortexResult<()> {
    let flags = bits(alloc, &[true, false])?;
    match Vec::from_slice(alloc, &[1u8, 2, 3]) {
        Ok(items) => {
            let made = PrimitiveArray::try_new(
                PrimitiveValues::from_vec(items),
                Validity::Bits(flags),
            );
            made.map(drop)
        }
        Err(error) => {
            drop(flags);
            Err(error.into())
        }
    }
}

// Texts in one buffer of three bytes: the first two, and two from the third on.
fn texts_past_a_buffer(alloc: Global) -> VortexResult<()> {
    let view = |start, size| View {
        buffer: 0,
        start,
        size,
    };
    let mut buffers = Vec::with_capacity(alloc, 1)?;
    let bytes = Bytes::copy_from_slice(alloc, b"abc")?;
    buffers.push_reserved(bytes);
    match Vec::from_slice(alloc, &[view(0, 2), view(2, 2)]) {
        Ok(views) => {
            let made = VarBinViewArray::try_new(
                views,
                buffers,
                VarBinKind::Utf8,
                Validity::NonNullable,
            );
            made.map(drop)
        }
        Err(error) => {
            drop(buffers);
            Err(error.into())
        }
    }
}

// Two rows of 64 bits in one run.
fn rows(ctx: &mut ExecutionCtx<Global>) -> VortexResult<ArrayRef<Global>> {
    let alloc = *ctx.allocator();
    run_column(required(alloc, &[2u8]), required(alloc, &[7i64]), 0, 2, ctx)
}

// A comparison of these with a number of 32 bits.
fn compared_with_another_width(ctx: &mut ExecutionCtx<Global>) -> VortexResult<()> {
    let dtype = DType::Primitive(PType::I32, Nullability::NonNullable);
    let (rows, value) = both(
        rows(ctx),
        Scalar::try_new(dtype, Some(ScalarValue::Signed(7))),
    )?;
    let compared = arrays::compare_scalar(&rows, CompareOperator::Eq, &value, ctx);
    drop(value);
    drop(rows);
    compared.map(drop)
}

// A cast of these to lists.
fn cast_to_lists(ctx: &mut ExecutionCtx<Global>) -> VortexResult<()> {
    let rows = rows(ctx)?;
    let element = ElementDType::Primitive(PType::I64, Nullability::NonNullable);
    let cast = arrays::cast(&rows, DType::List(element, Nullability::NonNullable), ctx);
    drop(rows);
    cast.map(drop)
}

#[test]
fn what_does_not_fit_is_refused(rt: HostRuntime) -> Result<(), Fail> {
    let alloc = rt.alloc();
    let mut ctx = full_context(alloc);
    let refused = [
        numbers_with_few_flags(alloc),
        texts_past_a_buffer(alloc),
        compared_with_another_width(&mut ctx),
        cast_to_lists(&mut ctx),
    ];
    let due = [
        Err(VortexError::ColumnLength { left: 3, right: 2 }),
        Err(VortexError::OutOfBounds {
            index: 1,
            length: 2,
        }),
        Err(VortexError::TypeMismatch),
        Err(VortexError::Unsupported),
    ];
    assert!(rt; refused == due);
    Ok(())
}
