//! Which rows are not null, as masks in runs.
ghost use Rattle.std.specs.Prelude.{◌≡◌, ◌↔◌, ◌&&◌, ◌<◌, IfOk, IsOkUnless, IsTrue, None, is_none, is_some, length, map, slice_index_or, true};
ghost use Rattle.column_core.specs.ScalarView.{sees};
ghost use Rattle.row_stretches.specs.Masks.{truths_of};
ghost use Rattle.runend_array.specs.Array.{column_of, dtype_of, rows};
ghost use Rattle.runend_column.specs.ListParts.{same_flags};
ghost use Rattle.runend_pairs.specs.NullCounts.{null_rows};
ghost use Rattle.runend_pairs.specs.Zipped.{zip_rows};
ghost use Rattle.tables.specs.Tables.{AreEven};
ghost use Rattle.tables.specs.WithoutNull.{valid_places};
ghost use Rattle.typed_columns.specs.Typed.{typed_of};

use column_core::{
    BitBufferMut, BoolArray, DType, Nullability, Scalar, ScalarValue, ScalarView, Validity,
    VortexError, VortexResult, is_list_type,
};
use runend_array::{ArrayRef, ConstantArray, ExecutionCtx};
use runend_pairs::{BooleanOperator, boolean, is_valid, null_count};
use std::alloc::Allocator;
use typed_columns::TypedColumn;

/// Returns whether none of these columns of `count` rows is null, at each place, in booleans without null. Refused only
/// as `OutOfMemory`.
pub(crate) fn mask_of_valid<A: Allocator + Copy>(
    columns: &[TypedColumn<A>],
    count: usize,
    ctx: &mut ExecutionCtx<A>,
) -> VortexResult<ArrayRef<A>>
    requires even { AreEven (map typed_of columns.now) count }
    ensures only { IsOkUnless result VortexError.OutOfMemory }
    ensures truths { IfOk result (λ mask. truths_of (rows mask) ≡
        valid_places (map (λ column. rows column.array) columns.now) count) }
    ensures dtype { IfOk result (λ mask. dtype_of mask ≡ DType.Bool Nullability.NonNullable) }
    ensures session { ctx.new ≡ ctx.old }
{
    let mut mask = all_true(count);
    for column in columns {
        let both = valid_too(mask, &column.array, ctx)?;
        mask = both;
    }
    Ok(mask)
}

// Whether a mask is true and a column is not null, at each place.
fn valid_too<A: Allocator + Copy>(
    mask: ArrayRef<A>,
    column: &ArrayRef<A>,
    ctx: &mut ExecutionCtx<A>,
) -> VortexResult<ArrayRef<A>>
    requires truths { dtype_of mask ≡ DType.Bool Nullability.NonNullable }
    requires even { length (rows mask) ≡ length (rows column.now) }
    ensures only { IsOkUnless result VortexError.OutOfMemory }
    ensures truths { IfOk result (λ both. truths_of (rows both) ≡
        zip_rows (λ left right. left && right) (truths_of (rows mask)) (map is_some (rows column.now))) }
    ensures dtype { IfOk result (λ both. dtype_of both ≡ DType.Bool Nullability.NonNullable) }
    ensures session { ctx.new ≡ ctx.old }
{
    if has_no_null(column) {
        return Ok(mask);
    }
    let both = and_valid(&mask, column, ctx);
    drop(mask);
    both
}

// Whether no row of a column is null.
fn has_no_null<A: Allocator + Copy>(column: &ArrayRef<A>) -> bool
    ensures { IsTrue result ↔ (null_rows (rows column.now) ≡ 0) }
{
    null_count(column) == 0
}

// The same, of a column that is null somewhere.
fn and_valid<A: Allocator + Copy>(
    mask: &ArrayRef<A>,
    column: &ArrayRef<A>,
    ctx: &mut ExecutionCtx<A>,
) -> VortexResult<ArrayRef<A>>
    requires truths { dtype_of mask.now ≡ DType.Bool Nullability.NonNullable }
    requires even { length (rows mask.now) ≡ length (rows column.now) }
    ensures only { IsOkUnless result VortexError.OutOfMemory }
    ensures truths { IfOk result (λ both. truths_of (rows both) ≡
        zip_rows (λ left right. left && right) (truths_of (rows mask.now)) (map is_some (rows column.now))) }
    ensures dtype { IfOk result (λ both. dtype_of both ≡ DType.Bool Nullability.NonNullable) }
    ensures session { ctx.new ≡ ctx.old }
{
    let valid = valid_rows(column, ctx)?;
    let both = boolean(mask, BooleanOperator::And, &valid, ctx);
    drop(valid);
    both
}

// Whether each row of a column of any kind is not null, in booleans without null.
fn valid_rows<A: Allocator + Copy>(
    column: &ArrayRef<A>,
    ctx: &mut ExecutionCtx<A>,
) -> VortexResult<ArrayRef<A>>
    ensures only { IsOkUnless result VortexError.OutOfMemory }
    ensures truths { IfOk result (λ valid. truths_of (rows valid) ≡ map is_some (rows column.now)) }
    ensures dtype { IfOk result (λ valid. dtype_of valid ≡ DType.Bool Nullability.NonNullable) }
    ensures session { ctx.new ≡ ctx.old }
{
    if is_list_type(column.dtype()) {
        return valid_lists(*ctx.allocator(), column);
    }
    is_valid(column, ctx)
}

// The same of lists, of which each is looked at.
fn valid_lists<A: Allocator + Copy>(alloc: A, column: &ArrayRef<A>) -> VortexResult<ArrayRef<A>>
    ensures only { IsOkUnless result VortexError.OutOfMemory }
    ensures truths { IfOk result (λ valid. truths_of (rows valid) ≡ map is_some (rows column.now)) }
    ensures dtype { IfOk result (λ valid. dtype_of valid ≡ DType.Bool Nullability.NonNullable) }
{
    let count = column.len();
    let mut bits = BitBufferMut::with_capacity(alloc, count)?;
    for row in 0..count {
        bits.append(is_there(column, row))?;
    }
    let truths = BoolArray::new_unchecked(bits.freeze(), Validity::NonNullable);
    Ok(ArrayRef::Bool(truths))
}

// Whether a row is not null.
fn is_there<A: Allocator + Copy>(column: &ArrayRef<A>, row: usize) -> bool
    requires { row < length (rows column.now) }
    ensures { result ≡ is_some (slice_index_or (rows column.now) row None) }
{
    match column.scalar_at(row) {
        Ok(view) if is_null_view(&view) => false,
        _ => true,
    }
}

// Whether a view is one of null.
fn is_null_view<A: Allocator>(view: &ScalarView<'_, A>) -> bool
    ensures { result ≡ is_none (sees view.now) }
{
    match view {
        ScalarView::Null => true,
        _ => false,
    }
}

// True in each of `count` rows. Takes no memory.
fn all_true<A: Allocator>(count: usize) -> ArrayRef<A>
    ensures { column_of result ≡ same_flags true count }
{
    let dtype = DType::Bool(Nullability::NonNullable);
    let scalar = Scalar::try_new(dtype, Some(ScalarValue::Bool(true))).unwrap();
    ArrayRef::Constant(ConstantArray::new(scalar, count))
}
