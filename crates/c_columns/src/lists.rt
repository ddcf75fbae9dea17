//! Columns of lists of what C passes, and what columns of lists consist of.
ghost use Rattle.std.specs.Prelude.{◌≡◌, [], length, IfErr, IfOk, OnOk};
ghost use Rattle.column_core.specs.Refusal.{IsRefusedBy};
ghost use Rattle.runend_array.specs.Array.{column_of};
ghost use Rattle.runend_column.specs.ListParts.{AreElementsOf, AreFlagsOf, AreOffsetsOf, AreSizesOf, no_lists_fault};
ghost use Rattle.typed_columns.specs.Typed.{format_of};
ghost use Rattle.c_columns.specs.Bits.{validity_by};
ghost use Rattle.c_columns.specs.Ending.{IsShortOr};
ghost use Rattle.c_columns.specs.Lists.{ArePassedLists, PassedListsFault};

use crate::bits::validity_of;
use crate::flat::{Boxed, boxed};
use crate::sessions::plain_context;
use column_core::{VortexError, VortexResult};
use runend_array::ArrayRef;
use runend_column::{list_elements, list_offsets, list_sizes, list_validity, lists_over};
use std::alloc::Global;

/// Returns the lists whose row i has `sizes[i]` elements, from element `offsets[i]` on. Refused as `validity_of`
/// refuses, and then as `lists_over` refuses.
#[tactic(auto, using(crate::proofs::ListsPassed::bits_refused, crate::proofs::ListsPassed::parts_refused))]
pub fn lists(
    alloc: Global,
    elements: &ArrayRef<Global>,
    offsets: &[u64],
    sizes: &[u64],
    nulls: u8,
    bits: &[u8],
    first: usize,
) -> VortexResult<Boxed>
    ensures made { IfOk result (λ made. ArePassedLists offsets.now sizes.now
        (validity_by nulls bits.now first (length offsets.now)) elements.now made.value.array) }
    ensures untyped { IfOk result (λ made. format_of made.value ≡ []) }
    ensures refused { IfErr result
        (λ error. IsShortOr (PassedListsFault offsets.now sizes.now nulls bits.now first elements.now) error) }
    ensures served { OnOk result ((error : VortexError)
        → ¬ (PassedListsFault offsets.now sizes.now nulls bits.now first elements.now error)) }
{
    let validity = validity_of(alloc, nulls, bits, first, offsets.len())?;
    let mut ctx = plain_context(alloc);
    let lists = lists_over(elements, offsets, sizes, validity, &mut ctx)?;
    boxed(alloc, lists)
}

/// Returns the elements of all lists. Refused as `Unsupported` unless the column has the form of lists.
pub fn elements_of(alloc: Global, array: &ArrayRef<Global>) -> VortexResult<Boxed>
    ensures made { IfOk result (λ made. AreElementsOf (column_of array.now) (column_of made.value.array)) }
    ensures untyped { IfOk result (λ made. format_of made.value ≡ []) }
    ensures refused { IsRefusedBy (no_lists_fault (column_of array.now)) result }
{
    let elements = list_elements(array, &mut plain_context(alloc))?;
    boxed(alloc, elements)
}

/// Returns where the elements of each list start. Refused as `elements_of` is.
pub fn offsets_of(alloc: Global, array: &ArrayRef<Global>) -> VortexResult<Boxed>
    ensures made { IfOk result (λ made. AreOffsetsOf (column_of array.now) (column_of made.value.array)) }
    ensures untyped { IfOk result (λ made. format_of made.value ≡ []) }
    ensures refused { IsRefusedBy (no_lists_fault (column_of array.now)) result }
{
    let offsets = list_offsets(array, &mut plain_context(alloc))?;
    boxed(alloc, offsets)
}

/// Returns how many elements each list has. Refused as `elements_of` is.
pub fn sizes_of(alloc: Global, array: &ArrayRef<Global>) -> VortexResult<Boxed>
    ensures made { IfOk result (λ made. AreSizesOf (column_of array.now) (column_of made.value.array)) }
    ensures untyped { IfOk result (λ made. format_of made.value ≡ []) }
    ensures refused { IsRefusedBy (no_lists_fault (column_of array.now)) result }
{
    let sizes = list_sizes(array, &mut plain_context(alloc))?;
    boxed(alloc, sizes)
}

/// Returns whether each list is valid, as booleans. Refused as `elements_of` is.
pub fn flags_of(alloc: Global, array: &ArrayRef<Global>) -> VortexResult<Boxed>
    ensures made { IfOk result (λ made. AreFlagsOf (column_of array.now) (column_of made.value.array)) }
    ensures untyped { IfOk result (λ made. format_of made.value ≡ []) }
    ensures refused { IsRefusedBy (no_lists_fault (column_of array.now)) result }
{
    let flags = list_validity(array, &mut plain_context(alloc))?;
    boxed(alloc, flags)
}
