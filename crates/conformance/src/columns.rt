//! Contexts, columns made of slices, and the rows that they are compared with.
ghost use Rattle.std.specs.Prelude.{IfOk};
ghost use Rattle.column_core.specs.PrimitiveForm.{primitive_dtype};
ghost use Rattle.runend_windows.specs.Ends.{IsEndsType};

use crate::parts::bits;
use std::alloc::Allocator;
use vortex_runend::{
    ArrayRef, ExecutionCtx, NativePType, PrimitiveArray, RunEnd, ScalarView, UnsignedPType,
    Validity, VortexResult, VortexSession, initialize,
};

/// Returns a context in which no kernel is registered.
pub(crate) fn context<A: Allocator + Copy>(alloc: A) -> ExecutionCtx<A> {
    ExecutionCtx::new(VortexSession::empty(), alloc)
}

/// Returns a context in which all kernels are registered, with the library's thresholds.
pub(crate) fn full_context<A: Allocator + Copy>(alloc: A) -> ExecutionCtx<A> {
    let mut session = VortexSession::empty();
    initialize(&mut session);
    ExecutionCtx::new(session, alloc)
}

/// Returns a column of a type without null.
pub(crate) fn required<T: NativePType, A: Allocator + Copy>(
    alloc: A,
    items: &[T],
) -> VortexResult<PrimitiveArray<A>> {
    let items = Vec::from_slice(alloc, items)?;
    PrimitiveArray::try_new(T::wrap(items), Validity::NonNullable)
}

/// Returns a column with a bit for each row, null where the flag is false.
pub(crate) fn nullable<T: NativePType, A: Allocator + Copy>(
    alloc: A,
    items: &[T],
    flags: &[bool],
) -> VortexResult<PrimitiveArray<A>> {
    let flags = bits(alloc, flags)?;
    match Vec::from_slice(alloc, items) {
        Ok(items) => PrimitiveArray::try_new(T::wrap(items), Validity::Bits(flags)),
        Err(error) => {
            drop(flags);
            Err(error.into())
        }
    }
}

/// Returns a column of ends.
pub(crate) fn ends_column<T: UnsignedPType, A: Allocator + Copy>(
    alloc: A,
    items: &[T],
) -> VortexResult<PrimitiveArray<A>>
    ensures { IfOk result (λ ends. IsEndsType (primitive_dtype ends)) }
{
    let ends = Vec::from_slice(alloc, items)?;
    Ok(PrimitiveArray::new_unchecked(T::wrap(ends), Validity::NonNullable))
}

/// Runs of these ends and values, `length` rows from row `offset` on, as a column of any form.
pub(crate) fn run_column<A: Allocator + Copy>(
    ends: VortexResult<PrimitiveArray<A>>,
    values: VortexResult<PrimitiveArray<A>>,
    offset: usize,
    length: usize,
    ctx: &mut ExecutionCtx<A>,
) -> VortexResult<ArrayRef<A>> {
    let (ends, values) = both(ends, values)?;
    let (ends, values) = (ArrayRef::Primitive(ends), ArrayRef::Primitive(values));
    let runs = RunEnd::try_new_offset_length(ends, values, offset, length, ctx)?;
    ArrayRef::of_runs(*ctx.allocator(), runs)
}

/// Returns both, or the first refusal.
pub(crate) fn both<L: Drop, R: Drop>(
    left: VortexResult<L>,
    right: VortexResult<R>,
) -> VortexResult<(L, R)> {
    match left {
        Ok(left) => match right {
            Ok(right) => Ok((left, right)),
            Err(error) => {
                drop(left);
                Err(error)
            }
        },
        Err(error) => {
            drop(right);
            Err(error)
        }
    }
}

/// Returns whether the rows are these, of a signed type.
pub(crate) fn are_rows<A: Allocator + Copy>(array: &ArrayRef<A>, rows: &[Option<i64>]) -> bool {
    for index in 0..rows.len() {
        match array.scalar_at(index) {
            Ok(ScalarView::Null) if rows[index].is_none() => {}
            Ok(ScalarView::Signed(number)) if rows[index] == Some(number) => {}
            _ => return false,
        }
    }
    array.len() == rows.len()
}
