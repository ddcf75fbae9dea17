//! The library as a program calls it. The README and `docs/CALLING.md` show these lines.
use crate::columns::{are_rows, both, full_context};
use column_bytes::{
    is_message, is_typed_message, message_size, read_column, read_typed, typed_size, write_column,
    write_typed,
};
use std::alloc::Global;
use std::test::Fail;
use vortex_runend::compute::{CompareOperator, fill_null, slice, sum};
use vortex_runend::{
    Answer, ArrayRef, BitBufferMut, Command, DType, ExecutionCtx, Kernel, Nullability, PType,
    PrimitiveArray, PrimitiveValues, RunEnd, RunEndArray, RunEndArrayExt, RunEndArraySlotsExt,
    RunEndProbe, Scalar, ScalarValue, ScalarView, SumAnswer, SumValue, Validity, VortexError,
    VortexResult, VortexSession, arrays, deserialize, execute, initialize, serialize,
};

const THIRTY_FIVE: SumAnswer = SumAnswer {
    sum: Some(SumValue::Signed(35)),
    is_empty: false,
};

// Rows 4, 4, null, null and 9, as a flat column of i64.
fn rows_with_null(alloc: Global) -> VortexResult<PrimitiveArray<Global>> {
    let numbers = Vec::from_slice(alloc, &[4i64, 4, 0, 0, 9])?;
    let mut valid = BitBufferMut::with_capacity(alloc, 5)?;
    valid.append_n(true, 2)?;
    valid.append_n(false, 2)?;
    valid.append(true)?;
    PrimitiveArray::try_new(
        PrimitiveValues::from_vec(numbers),
        Validity::from_bits(valid.freeze()),
    )
}

// Rows 4, 4, null, null and 9, in runs.
fn runs_with_null(
    alloc: Global,
    ctx: &mut ExecutionCtx<Global>,
) -> VortexResult<RunEndArray<Global>> {
    RunEnd::encode(ArrayRef::Primitive(rows_with_null(alloc)?), ctx)
}

// The same as an array of any form.
fn array_with_null(
    alloc: Global,
    ctx: &mut ExecutionCtx<Global>,
) -> VortexResult<ArrayRef<Global>> {
    let runs = runs_with_null(alloc, ctx)?;
    ArrayRef::of_runs(alloc, runs)
}

#[test]
fn rows_are_encoded_summed_and_sliced(rt: HostRuntime) -> Result<(), Fail> {
    let mut session = VortexSession::empty();
    initialize(&mut session);
    let mut ctx = ExecutionCtx::new(session, rt.alloc());

    let rows = Vec::from_slice(rt.alloc(), &[4i64, 4, 4, 7, 7, 9])?;
    let rows = PrimitiveArray::try_new(PrimitiveValues::from_vec(rows), Validity::NonNullable)?;
    let runs = RunEnd::encode(ArrayRef::Primitive(rows), &mut ctx)?;
    let total = sum(&runs, &mut ctx);
    let part = slice(&runs, 2..5, &mut ctx);
    drop(runs);

    let part = part?;
    let are_sliced = are_rows(&part, &[Some(4), Some(7), Some(7)]);
    drop(part);
    assert!(rt; total == Ok(THIRTY_FIVE) && are_sliced);
    Ok(())
}

// The rows of a run column with 0 in place of each null.
fn filled_with_zero(
    runs: &RunEndArray<Global>,
    ctx: &mut ExecutionCtx<Global>,
) -> VortexResult<ArrayRef<Global>> {
    let dtype = DType::Primitive(PType::I64, Nullability::NonNullable);
    let zero = Scalar::try_new(dtype, Some(ScalarValue::Signed(0)))?;
    fill_null(runs, &zero, ctx)
}

#[test]
fn nulls_are_filled_by_a_kernel(rt: HostRuntime) -> Result<(), Fail> {
    let mut ctx = full_context(rt.alloc());
    let runs = runs_with_null(rt.alloc(), &mut ctx)?;
    let filled = filled_with_zero(&runs, &mut ctx);
    drop(runs);
    let filled = filled?;
    let are_filled = are_rows(&filled, &[Some(4), Some(4), Some(0), Some(0), Some(9)]);
    drop(filled);
    assert!(rt; are_filled);
    Ok(())
}

// The sum of an array of any form, with 0 in place of each null.
fn sum_with_zero(
    column: &ArrayRef<Global>,
    ctx: &mut ExecutionCtx<Global>,
) -> VortexResult<SumAnswer> {
    let dtype = DType::Primitive(PType::I64, Nullability::NonNullable);
    let zero = Scalar::try_new(dtype, Some(ScalarValue::Signed(0)))?;
    let present = arrays::fill_null(column, &zero, ctx)?;
    let total = arrays::sum(&present, ctx);
    drop(present);
    total
}

#[test]
fn operations_serve_arrays_of_any_form(rt: HostRuntime) -> Result<(), Fail> {
    let mut ctx = full_context(rt.alloc());
    let (flat, runs) = both(
        rows_with_null(rt.alloc()),
        array_with_null(rt.alloc(), &mut ctx),
    )?;
    let flat = ArrayRef::Primitive(flat);
    let of_flat = sum_with_zero(&flat, &mut ctx);
    let of_runs = sum_with_zero(&runs, &mut ctx);
    let beside = arrays::compare(&flat, CompareOperator::Eq, &runs, &mut ctx);
    drop(flat);
    drop(runs);

    let total = SumAnswer {
        sum: Some(SumValue::Signed(17)),
        is_empty: false,
    };
    let beside = beside?;
    let equal = beside.scalar_at(1).map(truth_of);
    let null = beside.scalar_at(2).map(truth_of);
    drop(beside);
    assert!(rt; of_flat == Ok(total) && of_runs == Ok(total));
    assert!(rt; equal == Ok(Some(true)) && null == Ok(None));
    Ok(())
}

// The boolean in a row, or `None` for null.
fn truth_of(row: ScalarView<'_, Global>) -> Option<bool> {
    match row {
        ScalarView::Bool(truth) => Some(truth),
        _ => None,
    }
}

#[test]
fn commands_are_run_as_a_list(rt: HostRuntime) -> Result<(), Fail> {
    let mut ctx = full_context(rt.alloc());
    let runs = runs_with_null(rt.alloc(), &mut ctx)?;
    let mut column = ArrayRef::of_runs(rt.alloc(), runs)?;

    let commands = vec![in rt.alloc(); Command::Slice(1..5), Command::At(9), Command::Sum]?;
    let answers = execute(&mut column, &commands, &mut ctx);
    drop(commands);

    let are_left = are_rows(&column, &[Some(4), None, None, Some(9)]);
    drop(column);
    let answers = answers?;
    let refusal = VortexError::OutOfBounds {
        index: 9,
        length: 4,
    };
    let total = SumAnswer {
        sum: Some(SumValue::Signed(13)),
        is_empty: false,
    };
    let due = [Answer::Done, Answer::Refused(refusal), Answer::Sum(total)];
    let are_due = answers.as_slice() == due.as_slice();
    drop(answers);
    assert!(rt; are_left && are_due);
    Ok(())
}

// The number in a row, or `None` for null.
fn number_of(row: ScalarView<'_, Global>) -> Option<i64> {
    match row {
        ScalarView::Signed(number) => Some(number),
        _ => None,
    }
}

#[test]
fn rows_are_read(rt: HostRuntime) -> Result<(), Fail> {
    let mut ctx = full_context(rt.alloc());
    let runs = runs_with_null(rt.alloc(), &mut ctx)?;
    let probe = RunEndProbe::new(&runs);
    let last = probe.execute_scalar(4).map(number_of);
    let null = probe.execute_scalar(2).map(number_of);
    drop(runs);
    assert!(rt; last == Ok(Some(9)) && null == Ok(None));
    Ok(())
}

// Cuts the rows from `start` to `stop` out of a column.
fn cut(
    column: &mut ArrayRef<Global>,
    start: usize,
    stop: usize,
    ctx: &mut ExecutionCtx<Global>,
) -> VortexResult<()> {
    let commands = vec![in *ctx.allocator(); Command::Slice(start..stop)]?;
    let answers = execute(column, &commands, ctx);
    drop(commands);
    drop(answers?);
    Ok(())
}

#[test]
fn a_session_decides_the_form_alone(rt: HostRuntime) -> Result<(), Fail> {
    let mut session = VortexSession::empty();
    session.register(Kernel::Slice);
    let mut ctx = ExecutionCtx::new(session, rt.alloc());
    let mut column = array_with_null(rt.alloc(), &mut ctx)?;

    let is_cut = cut(&mut column, 1, 5, &mut ctx).is_ok();
    let is_in_runs = matches!(&column, ArrayRef::RunEnd(_));

    *ctx.session_mut() = VortexSession::empty();
    let is_cut_again = cut(&mut column, 0, 2, &mut ctx).is_ok();
    let is_flat = matches!(&column, ArrayRef::Primitive(_));
    let are_kept = are_rows(&column, &[Some(4), None]);
    drop(column);
    assert!(rt; is_cut && is_in_runs && is_cut_again && is_flat && are_kept);
    Ok(())
}

// The runs that their record and copies of their slots are read back as.
fn recorded(
    runs: &RunEndArray<Global>,
    ctx: &mut ExecutionCtx<Global>,
) -> VortexResult<RunEndArray<Global>> {
    let record = serialize(runs, ctx)?;
    let ends = runs.ends().try_clone(ctx)?;
    let values = runs.values().try_clone(ctx)?;
    deserialize(runs.dtype(), runs.len(), &record, ends, values, ctx)
}

#[test]
fn a_record_is_written_and_read(rt: HostRuntime) -> Result<(), Fail> {
    let mut ctx = full_context(rt.alloc());
    let runs = runs_with_null(rt.alloc(), &mut ctx)?;
    let read = recorded(&runs, &mut ctx);
    drop(runs);
    let column = ArrayRef::of_runs(rt.alloc(), read?)?;
    let are_read = are_rows(&column, &[Some(4), Some(4), None, None, Some(9)]);
    drop(column);
    assert!(rt; are_read);
    Ok(())
}

#[test]
fn a_column_is_kept_as_bytes(rt: HostRuntime) -> Result<(), Fail> {
    let mut ctx = full_context(rt.alloc());
    let column = array_with_null(rt.alloc(), &mut ctx)?;
    let size = message_size(&column);
    let bytes = write_column(rt.alloc(), &column);
    drop(column);

    // 17 bytes of fields before the values, 2 of their key and length, 13 of their fields before items of 26.
    let bytes = bytes?;
    let are_so_many = size == Ok(58) && bytes.len() == 58;
    let is_kept = is_message(&bytes);
    let kept = read_column(rt.alloc(), &bytes)?;
    let are_kept = are_rows(&kept, &[Some(4), Some(4), None, None, Some(9)]);
    drop(kept);
    assert!(rt; are_so_many && is_kept && are_kept);
    Ok(())
}

#[test]
fn a_column_of_bytes_keeps_its_logical_type(rt: HostRuntime) -> Result<(), Fail> {
    let mut ctx = full_context(rt.alloc());
    let column = array_with_null(rt.alloc(), &mut ctx)?;
    let size = typed_size("tdD", &column);
    let bytes = write_typed(rt.alloc(), "tdD", &column);
    let plain = write_typed(rt.alloc(), "", &column);
    drop(column);

    // Before the 58 bytes of the column: 2 of the version, 3 and 3 of the name, 3 of the key and length of the column.
    let bytes = bytes?;
    let plain = plain?;
    let are_so_many = size == Ok(69) && bytes.len() == 69 && plain.len() == 58;
    let are_apart = is_typed_message(&bytes) && !is_message(&bytes) && is_message(&plain);
    let (format, kept) = read_typed(rt.alloc(), &bytes)?;
    let are_kept = format == "tdD" && are_rows(&kept, &[Some(4), Some(4), None, None, Some(9)]);
    drop(kept);
    assert!(rt; are_so_many && are_apart && are_kept);
    Ok(())
}
