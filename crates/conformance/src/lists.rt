//! Lists of several commands on one column, in runs and flat, with all kernels and with none, and with each request for
//! memory refused in turn. No call of C runs a list. Answers and rows were worked out by hand, from the plain rows.
use crate::columns::{both, context, full_context, nullable, required, run_column};
use crate::list_steps::{Due, Step, are_due, command_of, shows};
use refusing::{Calls, are_answered_in_turn};
use std::alloc::Allocator;
use std::test::Fail;
use vortex_runend::compute::CompareOperator;
use vortex_runend::{
    ArrayRef, Command, DType, ExecutionCtx, Nullability, PType, SumValue, VortexError,
    VortexResult, execute,
};

// A list, what each of its commands is due on the rows 8 4 4 4 null null 9 9 9, and the rows that it leaves: numbers,
// or 1 and 0 for true and false.
#[derive(Clone, Copy)]
struct Case<'a> {
    steps: &'a [Step<'a>],
    due: &'a [Due],
    rows: &'a [Option<i64>],
}

const OF_U8: DType = DType::Primitive(PType::U8, Nullability::NonNullable);

const OF_I8: DType = DType::Primitive(PType::I8, Nullability::NonNullable);

const CUT_AND_FILTERED: Case = Case {
    steps: &[
        Step::Slice(2, 8),
        Step::At(6),
        Step::Sum,
        Step::Filter(&[true, false, true, false, true, true]),
        Step::MinMax,
    ],
    due: &[
        Due::Done,
        Due::Refused(VortexError::OutOfBounds {
            index: 6,
            length: 6,
        }),
        Due::Sum(SumValue::Signed(26)),
        Due::Done,
        Due::MinMax(4, 9),
    ],
    rows: &[Some(4), None, Some(9), Some(9)],
};

const REFUSED_AND_TAKEN: Case = Case {
    steps: &[
        Step::Filter(&[true, true]),
        Step::Slice(3, 2),
        Step::IsConstant,
        Step::Take(&[8, 0, 9]),
        Step::Take(&[8, 0, 3]),
        Step::IsSorted(false),
    ],
    due: &[
        Due::Refused(VortexError::MaskLength { mask: 2, length: 9 }),
        Due::Refused(VortexError::BadRange {
            start: 3,
            stop: 2,
            length: 9,
        }),
        Due::Bool(false),
        Due::Refused(VortexError::OutOfBounds {
            index: 9,
            length: 9,
        }),
        Due::Done,
        Due::Bool(false),
    ],
    rows: &[Some(9), Some(8), Some(4)],
};

const FILLED_AND_CAST: Case = Case {
    steps: &[
        Step::Cast(OF_I8),
        Step::Fill(5),
        Step::Encode,
        Step::Cast(OF_U8),
        Step::Sum,
        Step::Slice(4, 9),
        Step::IsSorted(false),
        Step::IsSorted(true),
        Step::Decode,
    ],
    due: &[
        Due::Refused(VortexError::NullNotAllowed),
        Due::Done,
        Due::Done,
        Due::Done,
        Due::Sum(SumValue::Unsigned(57)),
        Due::Done,
        Due::Bool(true),
        Due::Bool(false),
        Due::Done,
    ],
    rows: &[Some(5), Some(5), Some(9), Some(9), Some(9)],
};

const COMPARED: Case = Case {
    steps: &[
        Step::At(4),
        Step::At(0),
        Step::CompareWith(CompareOperator::Gt, 4),
        Step::Sum,
        Step::Encode,
        Step::MinMax,
        Step::CompareWith(CompareOperator::Eq, 1),
    ],
    due: &[
        Due::Value(None),
        Due::Value(Some(8)),
        Due::Done,
        Due::Refused(VortexError::Unsupported),
        Due::Refused(VortexError::OnlyPrimitive),
        Due::MinMax(0, 1),
        Due::Refused(VortexError::TypeMismatch),
    ],
    rows: &[
        Some(1),
        Some(0),
        Some(0),
        Some(0),
        None,
        None,
        Some(1),
        Some(1),
        Some(1),
    ],
};

const COMPARED_BESIDE: Case = Case {
    steps: &[
        Step::CompareBeside(CompareOperator::Eq, &[8, 4]),
        Step::Slice(0, 6),
        Step::CompareBeside(CompareOperator::Lte, &[8, 5, 4, 3, 0, 9]),
        Step::IsConstant,
    ],
    due: &[
        Due::Refused(VortexError::ColumnLength { left: 9, right: 2 }),
        Due::Done,
        Due::Done,
        Due::Bool(false),
    ],
    rows: &[Some(1), Some(1), Some(1), Some(0), None, None],
};

const LOOKED_UP: Case = Case {
    steps: &[
        Step::Slice(1, 6),
        Step::Codes(&[10, 20, 30, 40]),
        Step::Codes(&[10, 20, 30, 40, 50]),
        Step::Sum,
        Step::IsSorted(false),
    ],
    due: &[
        Due::Done,
        Due::Refused(VortexError::OutOfBounds {
            index: 4,
            length: 4,
        }),
        Due::Done,
        Due::Sum(SumValue::Signed(150)),
        Due::Bool(false),
    ],
    rows: &[Some(50), Some(50), Some(50), None, None],
};

const EMPTIED: Case = Case {
    steps: &[
        Step::Take(&[]),
        Step::Sum,
        Step::MinMax,
        Step::IsConstant,
        Step::At(0),
        Step::Encode,
        Step::Decode,
    ],
    due: &[
        Due::Done,
        Due::EmptySum,
        Due::NoMinMax,
        Due::Bool(true),
        Due::Refused(VortexError::OutOfBounds {
            index: 0,
            length: 0,
        }),
        Due::Done,
        Due::Done,
    ],
    rows: &[],
};

const ALL_NULL: Case = Case {
    steps: &[
        Step::Slice(4, 6),
        Step::IsConstant,
        Step::Encode,
        Step::Sum,
        Step::Fill(3),
        Step::IsConstant,
        Step::At(1),
    ],
    due: &[
        Due::Done,
        Due::Bool(true),
        Due::Done,
        Due::EmptySum,
        Due::Done,
        Due::Bool(true),
        Due::Value(Some(3)),
    ],
    rows: &[Some(3), Some(3)],
};

const CASES: [Case; 8] = [
    CUT_AND_FILTERED,
    REFUSED_AND_TAKEN,
    FILLED_AND_CAST,
    COMPARED,
    COMPARED_BESIDE,
    LOOKED_UP,
    EMPTIED,
    ALL_NULL,
];

// The rows 8 4 4 4 null null 9 9 9, in runs that hide a row before them and one after.
fn in_runs<A: Allocator + Copy>(ctx: &mut ExecutionCtx<A>) -> VortexResult<ArrayRef<A>> {
    let alloc = *ctx.allocator();
    let ends = required(alloc, &[2u8, 5, 7, 10, 11]);
    let values = nullable(
        alloc,
        &[8i64, 4, 0, 9, -3],
        &[true, true, false, true, true],
    );
    run_column(ends, values, 1, 9, ctx)
}

// What a case does on a column: are the answers and the rows left those that are due? A command that is refused for
// memory makes the whole refused.
fn is_case<A: Allocator + Copy>(
    case: Case<'_>,
    mut column: ArrayRef<A>,
    ctx: &mut ExecutionCtx<A>,
) -> VortexResult<bool> {
    let commands = commands_of(case.steps, ctx);
    let commands = match commands {
        Ok(commands) => commands,
        Err(error) => {
            drop(column);
            return Err(error);
        }
    };
    let answers = execute(&mut column, &commands, ctx);
    drop(commands);
    let are_left = shows(&column, case.rows);
    drop(column);
    let answers = answers?;
    let are_answered = are_due(&answers, case.due);
    drop(answers);
    Ok(are_answered? && are_left)
}

// The commands of a list.
fn commands_of<A: Allocator + Copy>(
    steps: &[Step<'_>],
    ctx: &mut ExecutionCtx<A>,
) -> VortexResult<Vec<Command<A>, A>> {
    let mut commands = Vec::with_capacity(*ctx.allocator(), steps.len())?;
    for step in steps {
        commands.push(command_of(step, ctx)?)?;
    }
    Ok(commands)
}

// Are all lists answered so on the column, as it is and flat?
fn are_cases<A: Allocator + Copy>(ctx: &mut ExecutionCtx<A>) -> VortexResult<bool> {
    for case in CASES {
        let runs = in_runs(ctx)?;
        let flat = runs.canonicalize(ctx);
        let of_runs = is_case(case, runs, ctx);
        let (of_runs, flat) = both(of_runs, flat)?;
        if !of_runs || !is_case(case, flat, ctx)? {
            return Ok(false);
        }
    }
    Ok(true)
}

#[test]
fn lists_are_answered_by_all_kernels(rt: HostRuntime) -> Result<(), Fail> {
    assert!(rt; are_cases(&mut full_context(rt.alloc())) == Ok(true));
    Ok(())
}

#[test]
fn lists_are_answered_by_no_kernel(rt: HostRuntime) -> Result<(), Fail> {
    assert!(rt; are_cases(&mut context(rt.alloc())) == Ok(true));
    Ok(())
}

// The longest of the lists, by all kernels.
struct OneList {}

impl Calls for OneList {
    fn are_answered<A: Allocator + Copy>(alloc: A) -> VortexResult<bool> {
        let mut ctx = full_context(alloc);
        let column = in_runs(&mut ctx)?;
        is_case(FILLED_AND_CAST, column, &mut ctx)
    }
}

#[test]
fn a_list_is_refused_at_each_request(rt: HostRuntime) -> Result<(), Fail> {
    assert!(rt; are_answered_in_turn::<OneList>(rt.alloc()));
    Ok(())
}
