//! Filters of runs and of a constant, with the kernels and without. The rows are counted by hand, and the expected
//! forms are those that the calls of `arrays` name.
use crate::columns::{are_rows, context, full_context, required, run_column};
use crate::parts::bits;
use std::alloc::Global;
use std::test::Fail;
use vortex_runend::arrays::filter;
use vortex_runend::{
    ArrayRef, ConstantArray, DType, ExecutionCtx, Mask, Nullability, PType, Scalar, ScalarValue,
    VortexResult,
};

#[derive(Clone, Copy, PartialEq, Eq)]
enum Form {
    Flat,
    Constant,
    Runs,
}

fn form_of(column: &ArrayRef<Global>) -> Form {
    match column {
        ArrayRef::RunEnd(_) => Form::Runs,
        ArrayRef::Constant(_) => Form::Constant,
        _ => Form::Flat,
    }
}

// Sixty rows in three runs.
fn three_runs(ctx: &mut ExecutionCtx<Global>) -> VortexResult<ArrayRef<Global>> {
    let alloc = *ctx.allocator();
    let ends = required(alloc, &[20u8, 40, 60]);
    let values = required(alloc, &[4i64, 7, 9]);
    run_column(ends, values, 0, 60, ctx)
}

fn sixty_ones() -> VortexResult<ArrayRef<Global>> {
    let integers = DType::Primitive(PType::I64, Nullability::NonNullable);
    let one = Scalar::try_new(integers, Some(ScalarValue::Signed(1)))?;
    Ok(ArrayRef::Constant(ConstantArray::new(one, 60)))
}

// A flag for each row, false for the first and the last.
fn inner_rows() -> [bool; 60] {
    let mut flags = [true; 60];
    flags[0] = false;
    flags[59] = false;
    flags
}

// Nineteen rows of the first value, twenty of the second, and nineteen of the third.
fn rows_of(first: i64, second: i64, third: i64) -> [Option<i64>; 58] {
    let mut rows = [Some(second); 58];
    for row in 0..19 {
        rows[row] = Some(first);
        rows[row + 39] = Some(third);
    }
    rows
}

// Does the column without its first and its last row have these rows, in this form?
fn is_filtered(
    column: VortexResult<ArrayRef<Global>>,
    form: Form,
    rows: &[Option<i64>],
    ctx: &mut ExecutionCtx<Global>,
) -> VortexResult<bool> {
    let column = column?;
    let flags = bits(*ctx.allocator(), &inner_rows());
    let mask = match flags {
        Ok(flags) => Mask::from_buffer(flags),
        Err(error) => {
            drop(column);
            return Err(error);
        }
    };
    let kept = filter(&column, &mask, ctx);
    drop(column);
    drop(mask);
    let kept = kept?;
    let is_due = form_of(&kept) == form && kept.len() == rows.len() && are_rows(&kept, rows);
    drop(kept);
    Ok(is_due)
}

#[test]
fn kernels_leave_runs_and_constants_as_they_are(rt: HostRuntime) -> Result<(), Fail> {
    let mut ctx = full_context(rt.alloc());
    let runs = three_runs(&mut ctx);
    assert!(rt; is_filtered(runs, Form::Runs, &rows_of(4, 7, 9), &mut ctx) == Ok(true));
    assert!(rt; is_filtered(sixty_ones(), Form::Constant, &rows_of(1, 1, 1), &mut ctx) == Ok(true));
    Ok(())
}

#[test]
fn without_kernels_runs_are_flat_and_constants_stay(rt: HostRuntime) -> Result<(), Fail> {
    let mut ctx = context(rt.alloc());
    let runs = three_runs(&mut ctx);
    assert!(rt; is_filtered(runs, Form::Flat, &rows_of(4, 7, 9), &mut ctx) == Ok(true));
    assert!(rt; is_filtered(sixty_ones(), Form::Constant, &rows_of(1, 1, 1), &mut ctx) == Ok(true));
    Ok(())
}
