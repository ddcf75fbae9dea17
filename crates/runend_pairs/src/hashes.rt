//! A hash of the rows of a column, by its runs.
ghost use Rattle.std.specs.Prelude.{◌≡◌, Some, length, fold, IfOk, IsErrOf};
ghost use Rattle.column_core.specs.FlatColumn.{leaf_of};
ghost use Rattle.column_core.specs.Kinds.{list_fault};
ghost use Rattle.column_core.specs.Leaf.{leaf_rows, single_rows};
ghost use Rattle.column_core.specs.PrimitiveForm.{primitive_dtype};
ghost use Rattle.column_core.specs.Refusal.{IsRefusedBy};
ghost use Rattle.column_core.specs.ScalarView.{sees};
ghost use Rattle.runend_array.specs.Array.{dtype_of, rows};
ghost use Rattle.runend_windows.specs.Ends.{IsEndsType, ends_of};
ghost use Rattle.runend_pairs.specs.Hashes.{row_writes, run_writes, EqualRowsEqualHashes, IsHashOf};

use crate::runs::stop_in;
use column_core::{FlatColumn, PrimitiveArray, ScalarView, VortexError, VortexResult};
use runend_array::{ArrayRef, ExecutionCtx};
use runend_builder::row_runs;
use std::alloc::Allocator;
use std::hash::{DefaultHasher, Hash, Hasher};

/// Returns a hash of the rows of a column of any form; all columns with these rows have the same. It is the
/// SipHash-1-3, with keys 0, of the ends and the values of the only tight exact cover of the rows. Takes a step for
/// each run; a flat column is encoded first. Refused as `Unsupported` exactly for lists, and else only as
/// `OutOfMemory`.
pub fn hash<A: Allocator + Copy>(
    column: &ArrayRef<A>,
    ctx: &mut ExecutionCtx<A>,
) -> VortexResult<u64>
    ensures hash { IfOk result (λ hash. IsHashOf (rows column.now) hash) }
    ensures refused { IsRefusedBy (list_fault (dtype_of column.now)) result }
    ensures first { (error : VortexError) → list_fault (dtype_of column.now) ≡ Some error → IsErrOf result error }
    ensures session { ctx.new ≡ ctx.old }
{
    let (ends, values) = row_runs(*ctx.allocator(), column)?;
    let mut state = DefaultHasher::new();
    write_runs(&ends, &values, &mut state);
    drop(values);
    drop(ends);
    let hash = state.finish();
    Ok(hash)
}

/// Proves that rows have one hash: columns that show the same rows, in whatever forms, have the same. For caches and
/// joins: a look-up by the hash misses no equal column.
pub fn equal_rows_equal_hashes()
    ensures { EqualRowsEqualHashes }
{}

// Gives the ends and the values of runs to a hasher.
fn write_runs<H: Hasher, A: Allocator + Copy>(
    ends: &PrimitiveArray<A>,
    values: &FlatColumn<A>,
    state: &mut H,
)
    requires plain { IsEndsType (primitive_dtype ends.now) }
    requires paired { length (leaf_rows (leaf_of values.now)) ≡ length (ends_of ends.now) }
    ensures { state.new ≡ fold H.write state.old (run_writes (ends_of ends.now) (single_rows (leaf_of values.now))) }
{
    let count = values.len();
    for run in 0..count {
        let end = stop_in(ends, run, 0);
        state.write_u64(end as u64);
        write_row(&values.get(run), state);
    }
}

// Gives a row to a hasher, its kind first.
fn write_row<H: Hasher, A: Allocator>(row: &ScalarView<'_, A>, state: &mut H)
    ensures { state.new ≡ fold H.write state.old (row_writes (sees row.now)) }
{
    match row {
        ScalarView::Null => state.write_u8(0),
        ScalarView::Bool(truth) => {
            state.write_u8(1);
            truth.hash(state);
        }
        ScalarView::Unsigned(number) => {
            state.write_u8(2);
            state.write_i128(i128::from(*number));
        }
        ScalarView::Signed(number) => {
            state.write_u8(2);
            state.write_i128(i128::from(*number));
        }
        ScalarView::Decimal(number) => {
            state.write_u8(3);
            state.write_i128(*number);
        }
        ScalarView::Utf8(text) => {
            state.write_u8(4);
            text.hash(state);
        }
        ScalarView::Binary(bytes) => {
            state.write_u8(5);
            bytes.hash(state);
        }
        ScalarView::List { .. } => state.write_u8(6),
    }
}
