//! The columns of a table, with their formats, and the same work on each of them.
ghost use Rattle.std.specs.Prelude.{◌≡◌, ◌^◌, ◌<◌, All, IfOk, IsOkUnless, MatchOption, length, map, slice_range};
ghost use Rattle.column_base.specs.Mask.{mask_bits};
ghost use Rattle.column_ops.specs.Filter.{filter_rows as selected_rows};
ghost use Rattle.runend_array.specs.Array.{dtype_of, rows};
ghost use Rattle.row_stretches.specs.Stretches.{IsWithin, stretch_places, stretch_rows};
ghost use Rattle.tables.specs.TableFaults.{IsFirstUneven};
ghost use Rattle.tables.specs.Tables.{AreEven};
ghost use Rattle.typed_columns.specs.Typed.{typed_of};

use column_core::{Mask, VortexError, VortexResult};
use row_stretches::{Stretch, rows_in};
use runend_array::{ArrayRef, ExecutionCtx};
use runend_column::{filter_rows, slice_rows};
use std::alloc::Allocator;
use typed_columns::TypedColumn;

/// Returns the first column that has not `wanted` rows, and how many it has.
pub(crate) fn first_uneven<A: Allocator + Copy>(
    columns: &[TypedColumn<A>],
    wanted: usize,
) -> Option<(usize, usize)>
    ensures { MatchOption result (AreEven (map typed_of columns.now) wanted)
        (λ found. IsFirstUneven (map typed_of columns.now) wanted found.0 found.1) }
{
    for place in 0..columns.len() {
        let count = columns[place].array.len();
        if count != wanted {
            return Some((place, count));
        }
    }
    None
}

/// Returns copies of columns, equal in form and under the same formats. Refused only as `OutOfMemory`.
pub(crate) fn copies_of_each<A: Allocator + Copy>(
    columns: &[TypedColumn<A>],
    ctx: &mut ExecutionCtx<A>,
) -> VortexResult<Vec<TypedColumn<A>, A>>
    ensures only { IsOkUnless result VortexError.OutOfMemory }
    ensures same { IfOk result (λ made. map typed_of made.items ≡ map typed_of columns.now) }
    ensures session { ctx.new ≡ ctx.old }
{
    let mut copies = Vec::with_capacity(*ctx.allocator(), columns.len())?;
    for column in columns {
        let copy = column.try_clone(ctx)?;
        copies.push_reserved(copy);
    }
    Ok(copies)
}

/// Returns the rows of these stretches of each column, under the same formats. Refused only as `OutOfMemory`.
pub(crate) fn stretches_of_each<A: Allocator + Copy>(
    columns: &[TypedColumn<A>],
    count: usize,
    order: &[Stretch],
    ctx: &mut ExecutionCtx<A>,
) -> VortexResult<Vec<TypedColumn<A>, A>>
    requires even { AreEven (map typed_of columns.now) count }
    requires within { All (IsWithin count) order.now }
    requires small { length (stretch_places order.now) < 2 ^ 64 }
    ensures only { IsOkUnless result VortexError.OutOfMemory }
    ensures rows { IfOk result (λ made. map (λ column. rows column.array) made.items ≡
        map (λ column. stretch_rows (rows column.array) order.now) columns.now) }
    ensures dtypes { IfOk result (λ made. map (λ column. dtype_of column.array) made.items ≡
        map (λ column. dtype_of column.array) columns.now) }
    ensures formats { IfOk result (λ made. map (λ column. (typed_of column).format) made.items ≡
        map (λ column. (typed_of column).format) columns.now) }
    ensures session { ctx.new ≡ ctx.old }
{
    let mut kept = Vec::with_capacity(*ctx.allocator(), columns.len())?;
    for column in columns {
        let array = rows_in(&column.array, order, ctx)?;
        let part = TypedColumn::with_format(*ctx.allocator(), array, column.format.as_str())?;
        kept.push_reserved(part);
    }
    Ok(kept)
}

/// Returns the rows of each column at which a mask with a bit for each row is true, in order, under the same formats.
/// Refused only as `OutOfMemory`.
pub(crate) fn selected_of_each<A: Allocator + Copy>(
    columns: &[TypedColumn<A>],
    count: usize,
    mask: &Mask<A>,
    ctx: &mut ExecutionCtx<A>,
) -> VortexResult<Vec<TypedColumn<A>, A>>
    requires even { AreEven (map typed_of columns.now) count }
    requires fits { length (mask_bits mask.now) ≡ count }
    ensures only { IsOkUnless result VortexError.OutOfMemory }
    ensures rows { IfOk result (λ made. map (λ column. rows column.array) made.items ≡
        map (λ column. selected_rows (mask_bits mask.now) (rows column.array)) columns.now) }
    ensures dtypes { IfOk result (λ made. map (λ column. dtype_of column.array) made.items ≡
        map (λ column. dtype_of column.array) columns.now) }
    ensures formats { IfOk result (λ made. map (λ column. (typed_of column).format) made.items ≡
        map (λ column. (typed_of column).format) columns.now) }
    ensures session { ctx.new ≡ ctx.old }
{
    let mut kept = Vec::with_capacity(*ctx.allocator(), columns.len())?;
    for column in columns {
        let array = selected(&column.array, mask, ctx)?;
        let part = TypedColumn::with_format(*ctx.allocator(), array, column.format.as_str())?;
        kept.push_reserved(part);
    }
    Ok(kept)
}

/// Returns the rows of each column from `start` to `stop` - 1, under the same formats. Refused only as `OutOfMemory`.
pub(crate) fn part_of_each<A: Allocator + Copy>(
    columns: &[TypedColumn<A>],
    count: usize,
    part: Stretch,
    ctx: &mut ExecutionCtx<A>,
) -> VortexResult<Vec<TypedColumn<A>, A>>
    requires even { AreEven (map typed_of columns.now) count }
    requires within { IsWithin count part }
    ensures only { IsOkUnless result VortexError.OutOfMemory }
    ensures rows { IfOk result (λ made. map (λ column. rows column.array) made.items ≡
        map (λ column. slice_range (rows column.array) part.start part.stop) columns.now) }
    ensures dtypes { IfOk result (λ made. map (λ column. dtype_of column.array) made.items ≡
        map (λ column. dtype_of column.array) columns.now) }
    ensures formats { IfOk result (λ made. map (λ column. (typed_of column).format) made.items ≡
        map (λ column. (typed_of column).format) columns.now) }
    ensures session { ctx.new ≡ ctx.old }
{
    let mut kept = Vec::with_capacity(*ctx.allocator(), columns.len())?;
    for column in columns {
        let array = part_of(&column.array, part, ctx)?;
        let part = TypedColumn::with_format(*ctx.allocator(), array, column.format.as_str())?;
        kept.push_reserved(part);
    }
    Ok(kept)
}

// The rows of a stretch of a column, in buffers that are shared where they can be: runs stay runs, and a constant one.
fn part_of<A: Allocator + Copy>(
    array: &ArrayRef<A>,
    part: Stretch,
    ctx: &mut ExecutionCtx<A>,
) -> VortexResult<ArrayRef<A>>
    requires within { IsWithin (length (rows array.now)) part }
    ensures only { IsOkUnless result VortexError.OutOfMemory }
    ensures rows { IfOk result (λ made. rows made ≡ slice_range (rows array.now) part.start part.stop) }
    ensures dtype { IfOk result (λ made. dtype_of made ≡ dtype_of array.now) }
    ensures session { ctx.new ≡ ctx.old }
{
    match array {
        ArrayRef::RunEnd(runs) => runend_column::slice(runs, part.start..part.stop, ctx),
        _ => slice_rows(array, part.start..part.stop, ctx),
    }
}

// The rows of a column at which the mask is true: a constant stays one, and runs are walked.
fn selected<A: Allocator + Copy>(
    array: &ArrayRef<A>,
    mask: &Mask<A>,
    ctx: &mut ExecutionCtx<A>,
) -> VortexResult<ArrayRef<A>>
    requires fits { length (mask_bits mask.now) ≡ length (rows array.now) }
    ensures only { IsOkUnless result VortexError.OutOfMemory }
    ensures rows { IfOk result (λ made. rows made ≡ selected_rows (mask_bits mask.now) (rows array.now)) }
    ensures dtype { IfOk result (λ made. dtype_of made ≡ dtype_of array.now) }
    ensures session { ctx.new ≡ ctx.old }
{
    match array {
        ArrayRef::Constant(constant) => {
            let kept = constant.repeated(*ctx.allocator(), mask.true_count())?;
            Ok(ArrayRef::Constant(kept))
        }
        ArrayRef::RunEnd(runs) => runend_select::filter(runs, mask, ctx),
        _ => filter_rows(array, mask, ctx),
    }
}
