//! Tables as a program in Rattle makes them: the refusals of `try_new`, which no call of C makes, and the lines of
//! `docs/CALLING.md`. What tables answer is asked of the library for C (`examples/c`), also of runs of more rows than
//! fit into memory, and with each request for memory refused in turn.
use crate::columns::{are_rows, both, full_context, required};
use std::alloc::{Allocator, Global};
use std::test::Fail;
use tables::{Asked, GroupFold, KeyOrder, RowOrder, Table, TableError, TypedColumn};
use vortex_runend::compute::CompareOperator;
use vortex_runend::{
    ArrayRef, DType, ExecutionCtx, Nullability, PType, Scalar, ScalarValue, VortexResult,
};

// The names of columns, and the numbers in each.
type Given<'a> = (&'a [&'a str], &'a [&'a [i64]]);

fn names_of<A: Allocator + Copy>(alloc: A, words: &[&str]) -> VortexResult<Vec<String<A>, A>> {
    let mut names = Vec::with_capacity(alloc, words.len())?;
    for word in words {
        names.push(String::from_str(alloc, word)?)?;
    }
    Ok(names)
}

fn columns_of<A: Allocator + Copy>(
    alloc: A,
    all: &[&[i64]],
) -> VortexResult<Vec<TypedColumn<A>, A>> {
    let mut columns = Vec::with_capacity(alloc, all.len())?;
    for numbers in all {
        columns.push(TypedColumn {
            format: String::new(alloc),
            array: ArrayRef::Primitive(required(alloc, *numbers)?),
        })?;
    }
    Ok(columns)
}

fn table_of<A: Allocator + Copy>(
    alloc: A,
    given: Given<'_>,
    rows: usize,
) -> Result<Table<A>, TableError> {
    let (names, columns) = both(names_of(alloc, given.0), columns_of(alloc, given.1))?;
    Table::try_new(names, columns, rows)
}

// Why columns under these names are refused.
fn fault_of(alloc: Global, given: Given<'_>, rows: usize) -> Option<TableError> {
    match table_of(alloc, given, rows) {
        Ok(made) => {
            drop(made);
            None
        }
        Err(error) => Some(error),
    }
}

const FAULTS: [(Given<'static>, usize, Option<TableError>); 6] = [
    ((&[], &[]), 5, None),
    (
        (&["a"], &[]),
        0,
        Some(TableError::NameCount {
            names: 1,
            columns: 0,
        }),
    ),
    (
        (&["a", "a"], &[&[1, 2], &[5], &[1, 2]]),
        2,
        Some(TableError::NameCount {
            names: 2,
            columns: 3,
        }),
    ),
    (
        (&["a", "a", "b"], &[&[1, 2], &[1, 2], &[5]]),
        2,
        Some(TableError::RowCount {
            column: 2,
            rows: 1,
            wanted: 2,
        }),
    ),
    (
        (&["a", "a"], &[&[1, 2], &[1, 2]]),
        3,
        Some(TableError::RowCount {
            column: 0,
            rows: 2,
            wanted: 3,
        }),
    ),
    (
        (&["a", "b", "b"], &[&[1, 2], &[1, 2], &[1, 2]]),
        2,
        Some(TableError::RepeatedName {
            earlier: 1,
            name: 2,
        }),
    ),
];

#[test]
fn columns_that_make_no_table_are_refused(rt: HostRuntime) -> Result<(), Fail> {
    for (given, rows, fault) in FAULTS {
        assert!(rt; fault_of(rt.alloc(), given, rows) == fault);
    }
    Ok(())
}

// Prices and counts of six rows.
const SIX: Given<'static> = (
    &["price", "count"],
    &[&[4, 4, 4, 7, 7, 2], &[1, 2, 3, 4, 5, 6]],
);

// Are these the counts?
fn are_counts<A: Allocator + Copy>(table: &Table<A>, counts: &[Option<i64>]) -> bool {
    match table.column("count") {
        Some(column) => are_rows(&column.array, counts),
        None => false,
    }
}

// The lines of `docs/CALLING.md`: the count of the first row whose price is above four.
fn is_first_above(
    names: Vec<String<Global>, Global>,
    columns: Vec<TypedColumn<Global>, Global>,
    four: &Scalar<Global>,
    ctx: &mut ExecutionCtx<Global>,
) -> Result<bool, TableError> {
    let table = Table::try_new(names, columns, 6)?;
    let above = table.filter_by("price", CompareOperator::Gt, four, ctx);
    drop(table);
    let above = above?;
    let first = above.slice(0..1, ctx);
    drop(above);
    let first = first?;
    let is_fourth = are_counts(&first, &[Some(4)]);
    drop(first);
    Ok(is_fourth)
}

#[test]
fn a_table_is_filtered_by_a_column_and_cut(rt: HostRuntime) -> Result<(), Fail> {
    let integers = DType::Primitive(PType::I64, Nullability::NonNullable);
    let four = Scalar::try_new(integers, Some(ScalarValue::Signed(4)))?;
    let (names, columns) = both(names_of(rt.alloc(), SIX.0), columns_of(rt.alloc(), SIX.1))?;
    let answer = is_first_above(names, columns, &four, &mut full_context(rt.alloc()));
    drop(four);
    assert!(rt; answer == Ok(true));
    Ok(())
}

// The lines of `docs/CALLING.md`: by the price, from the highest on.
fn from_the_highest_on(
    alloc: Global,
    price: String<Global>,
) -> VortexResult<Vec<KeyOrder<Global>, Global>> {
    let falling = RowOrder {
        descending: true,
        nulls_last: true,
    };
    let mut keys = Vec::new(alloc);
    keys.push(KeyOrder {
        name: price,
        order: falling,
    })?;
    Ok(keys)
}

fn are_falling(
    table: &Table<Global>,
    price: String<Global>,
    ctx: &mut ExecutionCtx<Global>,
) -> Result<bool, TableError> {
    let keys = from_the_highest_on(*ctx.allocator(), price)?;
    let sorted = table.sort(&keys, ctx);
    drop(keys);
    let sorted = sorted?;
    let in_order = [Some(4), Some(5), Some(1), Some(2), Some(3), Some(6)];
    let are_due = are_counts(&sorted, &in_order);
    drop(sorted);
    Ok(are_due)
}

#[test]
fn a_table_is_sorted_from_the_highest_price_on(rt: HostRuntime) -> Result<(), Fail> {
    let mut ctx = full_context(rt.alloc());
    let price = String::from_str(rt.alloc(), "price")?;
    let answer = match table_of(rt.alloc(), SIX, 6) {
        Ok(six) => {
            let answer = are_falling(&six, price, &mut ctx);
            drop(six);
            answer
        }
        Err(error) => {
            drop(price);
            Err(error)
        }
    };
    assert!(rt; answer == Ok(true));
    Ok(())
}

// The lines of `docs/CALLING.md`: the sum of the counts in each group.
fn sums_of_counts(
    alloc: Global,
    total: String<Global>,
    count: String<Global>,
) -> VortexResult<Vec<Asked<Global>, Global>> {
    let mut asked = Vec::new(alloc);
    asked.push(Asked {
        name: total,
        column: count,
        fold: GroupFold::Sum,
    })?;
    Ok(asked)
}

fn have_totals(
    table: &Table<Global>,
    names: &[String<Global>],
    asked: &[Asked<Global>],
    ctx: &mut ExecutionCtx<Global>,
) -> Result<bool, TableError> {
    let totals = table.group_by(names, asked, ctx)?;
    let are_due = match (totals.column("price"), totals.column("total")) {
        (Some(price), Some(total)) => {
            are_rows(&price.array, &[Some(4), Some(7), Some(2)])
                && are_rows(&total.array, &[Some(6), Some(9), Some(6)])
        }
        _ => false,
    };
    drop(totals);
    Ok(are_due)
}

#[test]
fn counts_are_added_up_by_price(rt: HostRuntime) -> Result<(), Fail> {
    let mut ctx = full_context(rt.alloc());
    let names = names_of(rt.alloc(), &["price"])?;
    let total = String::from_str(rt.alloc(), "total")?;
    let count = String::from_str(rt.alloc(), "count")?;
    let asked = sums_of_counts(rt.alloc(), total, count)?;
    let answer = match table_of(rt.alloc(), SIX, 6) {
        Ok(six) => {
            let answer = have_totals(&six, &names, &asked, &mut ctx);
            drop(six);
            answer
        }
        Err(error) => Err(error),
    };
    drop(asked);
    drop(names);
    assert!(rt; answer == Ok(true));
    Ok(())
}
