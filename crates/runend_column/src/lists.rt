//! Lists over elements, by offsets and sizes, and the parts of a column of lists.
ghost use Rattle.std.specs.Prelude.{◌≡◌, ◌⊎◌, IfErr, IfOk, IsOkUnless};
ghost use Rattle.column_base.specs.Validity.{form_of};
ghost use Rattle.column_core.specs.Refusal.{IsRefusedBy};
ghost use Rattle.runend_array.specs.Array.{column_of, validity_of, IsRowValidity};
ghost use Rattle.runend_array.specs.Lists.{ByRows};
ghost use Rattle.runend_column.specs.ListParts.{AreElementsOf, AreFlagsOf, AreListsOver, AreOffsetsOf, AreSizesOf, IsIndexOf, ListsOverFault, no_lists_fault};

use crate::flags::flags_of;
use runend_array::{
    ArrayRef, Canonical, ExecutionCtx, ListViewArray, NativePType, PrimitiveArray, RowValidity,
    Validity, VortexError, VortexResult, array_of,
};
use std::alloc::Allocator;
use std::rc::Rc;

/// Returns the lists whose row i has `sizes[i]` elements, from element `offsets[i]` on, and is null where the validity
/// says so. Shares the elements, and copies offsets and sizes. Refused as `Unsupported` unless the elements are flat,
/// then as `ColumnLength`, with the number of offsets first, where there are more or fewer sizes, or where the validity
/// is of another number of rows, then as `OutOfBounds`, with the row and the number of elements, for the first valid
/// row that does not lie within the elements; else only for memory.
#[tactic(auto, using(crate::proofs::ListParts::lists_made, crate::proofs::ListParts::parts_refused, crate::proofs::ListParts::no_elements))]
pub fn lists_over<A: Allocator + Copy>(
    elements: &ArrayRef<A>,
    offsets: &[u64],
    sizes: &[u64],
    validity: Validity<A>,
    ctx: &mut ExecutionCtx<A>,
) -> VortexResult<ArrayRef<A>>
    ensures made { IfOk result
        (λ made. AreListsOver (column_of elements.now) offsets.now sizes.now (form_of validity) (column_of made)) }
    ensures refused { IfErr result
        (λ error. (error ≡ VortexError.OutOfMemory)
        ⊎ ListsOverFault (column_of elements.now) offsets.now sizes.now (form_of validity) error) }
    ensures session { ctx.new ≡ ctx.old }
{
    let alloc = *ctx.allocator();
    let Some(flat) = elements.flat_view() else {
        drop(validity);
        return Err(VortexError::Unsupported);
    };
    let elements = Rc::new(alloc, flat.try_clone(alloc)?)?;
    let offsets = match index_column(alloc, offsets) {
        Ok(offsets) => offsets,
        Err(error) => {
            drop(elements);
            drop(validity);
            return Err(error);
        }
    };
    let sizes = match index_column(alloc, sizes) {
        Ok(sizes) => sizes,
        Err(error) => {
            drop(offsets);
            drop(elements);
            drop(validity);
            return Err(error);
        }
    };
    let lists = ListViewArray::try_new(elements, offsets, sizes, by_rows(validity), ctx)?;
    Canonical::List(lists).into_array(alloc)
}

/// Returns the elements of all lists, as a flat column that shares them. Refused as `Unsupported` unless the column has
/// the form of lists, else only for memory.
pub fn list_elements<A: Allocator + Copy>(
    array: &ArrayRef<A>,
    ctx: &mut ExecutionCtx<A>,
) -> VortexResult<ArrayRef<A>>
    ensures made { IfOk result (λ made. AreElementsOf (column_of array.now) (column_of made)) }
    ensures refused { IsRefusedBy (no_lists_fault (column_of array.now)) result }
    ensures session { ctx.new ≡ ctx.old }
{
    match array {
        ArrayRef::ListView(lists) => {
            let elements = lists.elements().view().try_clone(*ctx.allocator())?;
            Ok(array_of(elements))
        }
        _ => Err(VortexError::Unsupported),
    }
}

/// Returns where the elements of each list start: numbers of u64, flat or in runs, shared. Refused as `list_elements`.
pub fn list_offsets<A: Allocator + Copy>(
    array: &ArrayRef<A>,
    ctx: &mut ExecutionCtx<A>,
) -> VortexResult<ArrayRef<A>>
    ensures made { IfOk result (λ made. AreOffsetsOf (column_of array.now) (column_of made)) }
    ensures refused { IsRefusedBy (no_lists_fault (column_of array.now)) result }
    ensures session { ctx.new ≡ ctx.old }
{
    match array {
        ArrayRef::ListView(lists) => lists.offsets().try_clone(ctx),
        _ => Err(VortexError::Unsupported),
    }
}

/// Returns how many elements each list has: numbers of u64, flat or in runs, shared. Refused as `list_elements`.
pub fn list_sizes<A: Allocator + Copy>(
    array: &ArrayRef<A>,
    ctx: &mut ExecutionCtx<A>,
) -> VortexResult<ArrayRef<A>>
    ensures made { IfOk result (λ made. AreSizesOf (column_of array.now) (column_of made)) }
    ensures refused { IsRefusedBy (no_lists_fault (column_of array.now)) result }
    ensures session { ctx.new ≡ ctx.old }
{
    match array {
        ArrayRef::ListView(lists) => lists.sizes().try_clone(ctx),
        _ => Err(VortexError::Unsupported),
    }
}

/// Returns whether each list is valid, as booleans without null: one for all rows where they are alike, else flat or in
/// runs, shared. Refused as `list_elements`.
pub fn list_validity<A: Allocator + Copy>(
    array: &ArrayRef<A>,
    ctx: &mut ExecutionCtx<A>,
) -> VortexResult<ArrayRef<A>>
    ensures made { IfOk result (λ made. AreFlagsOf (column_of array.now) (column_of made)) }
    ensures refused { IsRefusedBy (no_lists_fault (column_of array.now)) result }
    ensures session { ctx.new ≡ ctx.old }
{
    match array {
        ArrayRef::ListView(lists) => flags_of(lists.validity(), lists.len(), ctx),
        _ => Err(VortexError::Unsupported),
    }
}

// Offsets or sizes as a flat column. Refused only for memory.
#[tactic(auto, using(crate::proofs::ListParts::index_of_numbers))]
fn index_column<A: Allocator + Copy>(alloc: A, numbers: &[u64]) -> VortexResult<ArrayRef<A>>
    ensures index { IfOk result (λ column. IsIndexOf numbers.now (column_of column)) }
    ensures only { IsOkUnless result VortexError.OutOfMemory }
{
    let values = u64::wrap(Vec::from_slice(alloc, numbers)?);
    let array = PrimitiveArray::new_unchecked(values, Validity::NonNullable);
    Ok(ArrayRef::Primitive(array))
}

// A validity that is held row by row.
fn by_rows<A: Allocator>(validity: Validity<A>) -> RowValidity<A>
    ensures form { validity_of result ≡ ByRows (form_of validity) }
    ensures plain { IsRowValidity result }
{
    match validity {
        Validity::NonNullable => RowValidity::NonNullable,
        Validity::AllValid => RowValidity::AllValid,
        Validity::AllInvalid => RowValidity::AllInvalid,
        Validity::Bits(bits) => RowValidity::Bits(bits),
    }
}
