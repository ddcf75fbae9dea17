//! The row of each column at each of some indices, which become positions once, for all columns.
ghost use Rattle.std.specs.Prelude.{◌≡◌, None, IfOk, IsOkUnless, length, map};
ghost use Rattle.column_base.specs.Types.{nullability_of, with_nullability as dtype_with};
ghost use Rattle.column_base.specs.Validity.{form_of, validity_flags};
ghost use Rattle.column_base.specs.ValidityForm.{HasLength, nullability_in};
ghost use Rattle.column_core.specs.Optionals.{optionals};
ghost use Rattle.column_core.specs.PrimitiveForm.{optional_numbers, primitive_dtype};
ghost use Rattle.column_ops.specs.Nullable.{either_nullable, take_dtype};
ghost use Rattle.column_ops.specs.Take.{ArePositions, position_numbers, take_fault, take_rows as rows_at_indices};
ghost use Rattle.runend_array.specs.Array.{dtype_of, rows};
ghost use Rattle.tables.specs.Tables.{AreEven};
ghost use Rattle.typed_columns.specs.Typed.{typed_of};

use column_core::{PrimitiveArray, Validity, VortexError, VortexResult};
use column_ops::positions_of;
use runend_array::{ArrayRef, ExecutionCtx};
use runend_column::take_values;
use runend_select::take_indices_unchecked;
use std::alloc::Allocator;
use typed_columns::TypedColumn;

/// Returns the row of each column at each index, null at a null index, under the same formats, where each valid index
/// is that of one of `count` rows. Refused only as `OutOfMemory`. Takes 8 bytes an index until it returns.
pub(crate) fn taken_of_each<A: Allocator + Copy>(
    columns: &[TypedColumn<A>],
    count: usize,
    indices: &PrimitiveArray<A>,
    ctx: &mut ExecutionCtx<A>,
) -> VortexResult<Vec<TypedColumn<A>, A>>
    requires even { AreEven (map typed_of columns.now) count }
    requires within { take_fault (optional_numbers indices.now) count ≡ None }
    ensures only { IsOkUnless result VortexError.OutOfMemory }
    ensures rows { IfOk result (λ made. map (λ column. rows column.array) made.items ≡
        map (λ column. rows_at_indices (rows column.array) (optional_numbers indices.now)) columns.now) }
    ensures dtypes { IfOk result (λ made. map (λ column. dtype_of column.array) made.items ≡
        map (λ column. take_dtype (dtype_of column.array) (primitive_dtype indices.now)) columns.now) }
    ensures formats { IfOk result (λ made. map (λ column. (typed_of column).format) made.items ≡
        map (λ column. (typed_of column).format) columns.now) }
    ensures session { ctx.new ≡ ctx.old }
{
    let (positions, places) = positions_of(*ctx.allocator(), indices, count)?;
    let taken = each_at(columns, count, positions.as_slice(), &places, ctx);
    drop(positions);
    drop(places);
    taken
}

// The row of each column at each position, null at a null one, under the same formats. Refused only as `OutOfMemory`.
fn each_at<A: Allocator + Copy>(
    columns: &[TypedColumn<A>],
    count: usize,
    positions: &[u64],
    places: &Validity<A>,
    ctx: &mut ExecutionCtx<A>,
) -> VortexResult<Vec<TypedColumn<A>, A>>
    requires even { AreEven (map typed_of columns.now) count }
    requires counted { HasLength (form_of places.now) (length positions.now) }
    requires within { ArePositions (optionals positions.now (validity_flags places.now (length positions.now))) count }
    ensures only { IsOkUnless result VortexError.OutOfMemory }
    ensures rows { IfOk result (λ made. map (λ column. rows column.array) made.items ≡
        map (λ column. rows_at_indices (rows column.array) (position_numbers (optionals positions.now
        (validity_flags places.now (length positions.now))))) columns.now) }
    ensures dtypes { IfOk result (λ made. map (λ column. dtype_of column.array) made.items ≡
        map (λ column. dtype_with (dtype_of column.array) (either_nullable (nullability_of (dtype_of column.array))
        (nullability_in (form_of places.now)))) columns.now) }
    ensures formats { IfOk result (λ made. map (λ column. (typed_of column).format) made.items ≡
        map (λ column. (typed_of column).format) columns.now) }
    ensures session { ctx.new ≡ ctx.old }
{
    let mut kept = Vec::with_capacity(*ctx.allocator(), columns.len())?;
    for column in columns {
        let array = rows_at(&column.array, positions, places, ctx)?;
        let part = TypedColumn::with_format(*ctx.allocator(), array, column.format.as_str())?;
        kept.push_reserved(part);
    }
    Ok(kept)
}

// The row of a column at each position, null at a null one: of runs by their runs, else flat. Refused only as
// `OutOfMemory`.
fn rows_at<A: Allocator + Copy>(
    column: &ArrayRef<A>,
    positions: &[u64],
    places: &Validity<A>,
    ctx: &mut ExecutionCtx<A>,
) -> VortexResult<ArrayRef<A>>
    requires counted { HasLength (form_of places.now) (length positions.now) }
    requires within { ArePositions (optionals positions.now (validity_flags places.now (length positions.now)))
        (length (rows column.now)) }
    ensures only { IsOkUnless result VortexError.OutOfMemory }
    ensures rows { IfOk result (λ taken. rows taken ≡ rows_at_indices (rows column.now)
        (position_numbers (optionals positions.now (validity_flags places.now (length positions.now))))) }
    ensures dtype { IfOk result (λ taken. dtype_of taken ≡ dtype_with (dtype_of column.now)
        (either_nullable (nullability_of (dtype_of column.now)) (nullability_in (form_of places.now)))) }
    ensures session { ctx.new ≡ ctx.old }
{
    match column {
        ArrayRef::RunEnd(runs) => take_indices_unchecked(runs, positions, places, ctx),
        _ => flat_rows_at(*ctx.allocator(), column, positions, places),
    }
}

// The row of a column at each position, null at a null one, flat. Refused only as `OutOfMemory`.
fn flat_rows_at<A: Allocator + Copy>(
    alloc: A,
    column: &ArrayRef<A>,
    positions: &[u64],
    places: &Validity<A>,
) -> VortexResult<ArrayRef<A>>
    requires counted { HasLength (form_of places.now) (length positions.now) }
    requires within { ArePositions (optionals positions.now (validity_flags places.now (length positions.now)))
        (length (rows column.now)) }
    ensures only { IsOkUnless result VortexError.OutOfMemory }
    ensures rows { IfOk result (λ taken. rows taken ≡ rows_at_indices (rows column.now)
        (position_numbers (optionals positions.now (validity_flags places.now (length positions.now))))) }
    ensures dtype { IfOk result (λ taken. dtype_of taken ≡ dtype_with (dtype_of column.now)
        (either_nullable (nullability_of (dtype_of column.now)) (nullability_in (form_of places.now)))) }
{
    let taken = take_values(alloc, column, positions, places)?;
    taken.into_array(alloc)
}
