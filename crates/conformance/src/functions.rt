//! Kernels that no command makes: the ends of kept runs, and functions of rows, with each request for memory refused in
//! turn.
use crate::columns::{are_rows, context, full_context, required, run_column};
use crate::shown::are_shown;
use refusing::{Calls, are_answered_in_turn};
use std::alloc::Allocator;
use std::test::Fail;
use vortex_runend::compute::{filter_run_end_primitive, map_rows, map_rows_bool};
use vortex_runend::{
    ArrayRef, BitBuffer, BitBufferMut, DType, ExecutionCtx, Mask, NativePType, Nullability, PType,
    VortexResult,
};

// Every other of 112 rows, from the first on.
fn every_other<A: Allocator + Copy>(alloc: A) -> VortexResult<BitBuffer<A>> {
    let mut mask = BitBufferMut::with_capacity(alloc, 112)?;
    for row in 0..112usize {
        mask.append(row % 2 == 0)?;
    }
    Ok(mask.freeze())
}

// The ends of runs of 32 rows from row 16 on; every other row is selected.
struct KeptRuns {}

impl Calls for KeptRuns {
    fn are_answered<A: Allocator + Copy>(alloc: A) -> VortexResult<bool> {
        let mask = every_other(alloc)?;
        if mask.len() != 112 {
            return Ok(false);
        }
        let mut ctx = context(alloc);
        let kept = filter_run_end_primitive(&[32u8, 64, 96, 128], 16, 112, &mask, &mut ctx);
        drop(mask);
        let (ends, kept) = kept?;
        let are_ends = u8::slice_of(ends.values()) == Some([8u8, 24, 40, 56].as_slice());
        drop(ends);
        let are_kept = matches!(&kept, Mask::AllTrue(4));
        drop(kept);
        Ok(are_ends && are_kept)
    }
}

#[test]
fn ends_of_kept_runs_count_selected_rows(rt: HostRuntime) -> Result<(), Fail> {
    assert!(rt; are_answered_in_turn::<KeptRuns>(rt.alloc()));
    Ok(())
}

// Three rows of 7, after a run of 300 that is hidden.
fn rows_of_seven<A: Allocator + Copy>(ctx: &mut ExecutionCtx<A>) -> VortexResult<ArrayRef<A>> {
    let alloc = *ctx.allocator();
    run_column(
        required(alloc, &[2u32, 5]),
        required(alloc, &[300i32, 7]),
        2,
        3,
        ctx,
    )
}

// Is it twice each of these rows, of a type with null, and in runs where it should be?
fn are_doubled<A: Allocator + Copy>(
    in_runs: bool,
    ctx: &mut ExecutionCtx<A>,
) -> VortexResult<bool> {
    let column = rows_of_seven(ctx)?;
    let double = |row: Option<i32>| row.map(|number| 2 * i64::from(number));
    let wide = map_rows(&column, &double, ctx);
    drop(column);
    let wide = wide?;
    let dtype = DType::Primitive(PType::I64, Nullability::Nullable);
    let is_due = matches!(&wide, ArrayRef::RunEnd(_)) == in_runs
        && wide.dtype() == dtype
        && are_rows(&wide, &[Some(14), Some(14), Some(14)]);
    drop(wide);
    Ok(is_due)
}

// Which of them are small?
fn small<A: Allocator + Copy>(ctx: &mut ExecutionCtx<A>) -> VortexResult<ArrayRef<A>> {
    let column = rows_of_seven(ctx)?;
    let is_small = |row: Option<i32>| row.map(|number| number < 10);
    let small = map_rows_bool(&column, &is_small, ctx);
    drop(column);
    small
}

// By the kernel of scalar functions, which keeps runs, and without it row by row.
struct Mapped {}

impl Calls for Mapped {
    fn are_answered<A: Allocator + Copy>(alloc: A) -> VortexResult<bool> {
        let (mut full, mut empty) = (full_context(alloc), context(alloc));
        let are_small = are_shown(small(&mut full), &[Some(true), Some(true), Some(true)]);
        let in_runs = are_doubled(true, &mut full);
        let row_by_row = are_doubled(false, &mut empty);
        Ok(are_small? && in_runs? && row_by_row?)
    }
}

#[test]
fn functions_are_asked_for_visible_rows(rt: HostRuntime) -> Result<(), Fail> {
    assert!(rt; are_answered_in_turn::<Mapped>(rt.alloc()));
    Ok(())
}
