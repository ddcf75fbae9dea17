//! Calls that make columns of lists and take them apart.
ghost use Rattle.std.specs.Prelude.{◌≡◌, ◌≢◌, [], length, pos};
ghost use Rattle.runend_array.specs.Array.{column_of};
ghost use Rattle.runend_column.specs.ListParts.{AreElementsOf, AreFlagsOf, AreOffsetsOf, AreSizesOf, no_lists_fault};
ghost use Rattle.c_columns.specs.Bits.{validity_by};
ghost use Rattle.c_columns.specs.Ending.{EndsOnHeldUnless, WhereBoth};
ghost use Rattle.c_columns.specs.Handle.{array_in, format_in};
ghost use Rattle.c_columns.specs.Lists.{ArePassedLists, PassedListsFault};
ghost use Rattle.c_columns.specs.ReadFaults.{EndsOnWindow};

use c_columns::commands::answer;
use c_columns::error_fields::{ErrorFields, NO_COLUMN};
use c_columns::handle::Handle;
use c_columns::lists;
use std::alloc::Global;

/// Returns the lists of which row i has `sizes[i]` of the elements, from element `offsets[i]` on. The elements are
/// shared, and stay. Nulls are told as to `hv_u8`. Refused as `lists::lists` says.
#[tactic(auto, using(crate::proofs::PartEndings::held_unless_empty, crate::proofs::PartEndings::held_unless_done, crate::proofs::PartEndings::held_unless_refused))]
#[unsafe(no_mangle)]
pub extern "C" fn hv_lists(
    alloc: Global,
    elements: &mut Handle,
    offsets: &[u64],
    sizes: &[u64],
    nulls: u8,
    bits: &[u8],
    first: usize,
    out: &mut Handle,
    error: &mut ErrorFields,
) -> i32
    ensures same { elements.new.column ≡ elements.old.column }
    ensures made { result ≡ pos 0 → WhereBoth (ArePassedLists offsets.now sizes.now
        (validity_by nulls bits.now first (length offsets.now))) (array_in elements.old.column)
        (array_in out.new.column) }
    ensures untyped { result ≡ pos 0 → format_in out.new.column ≡ [] }
    ensures kept { result ≢ pos 0 → out.new.column ≡ out.old.column }
    ensures ended { EndsOnHeldUnless (PassedListsFault offsets.now sizes.now nulls bits.now first)
        (array_in elements.old.column) result error.new }
{
    let Some(held) = elements.take(alloc) else {
        return NO_COLUMN;
    };
    let outcome = lists::lists(alloc, &held.array, offsets, sizes, nulls, bits, first);
    elements.put(held);
    answer(outcome, out, error)
}

/// Returns the elements of all lists. Refused as `Unsupported` unless the column lies as lists.
#[tactic(auto, using(crate::proofs::ReadEndings::window_empty, crate::proofs::ReadEndings::window_done, crate::proofs::ReadEndings::window_refused))]
#[unsafe(no_mangle)]
pub extern "C" fn hv_list_elements(
    alloc: Global,
    column: &mut Handle,
    out: &mut Handle,
    error: &mut ErrorFields,
) -> i32
    ensures same { column.new.column ≡ column.old.column }
    ensures made { result ≡ pos 0
        → WhereBoth (λ c d. AreElementsOf (column_of c) (column_of d)) (array_in column.old.column)
        (array_in out.new.column) }
    ensures untyped { result ≡ pos 0 → format_in out.new.column ≡ [] }
    ensures kept { result ≢ pos 0 → out.new.column ≡ out.old.column }
    ensures ended { EndsOnWindow no_lists_fault (array_in column.old.column) result error.new }
{
    let Some(held) = column.take(alloc) else {
        return NO_COLUMN;
    };
    let outcome = lists::elements_of(alloc, &held.array);
    column.put(held);
    answer(outcome, out, error)
}

/// Where the elements of each list start, u64 numbers. Refused as `hv_list_elements`.
#[tactic(auto, using(crate::proofs::ReadEndings::window_empty, crate::proofs::ReadEndings::window_done, crate::proofs::ReadEndings::window_refused))]
#[unsafe(no_mangle)]
pub extern "C" fn hv_list_offsets(
    alloc: Global,
    column: &mut Handle,
    out: &mut Handle,
    error: &mut ErrorFields,
) -> i32
    ensures same { column.new.column ≡ column.old.column }
    ensures made { result ≡ pos 0
        → WhereBoth (λ c d. AreOffsetsOf (column_of c) (column_of d)) (array_in column.old.column)
        (array_in out.new.column) }
    ensures untyped { result ≡ pos 0 → format_in out.new.column ≡ [] }
    ensures kept { result ≢ pos 0 → out.new.column ≡ out.old.column }
    ensures ended { EndsOnWindow no_lists_fault (array_in column.old.column) result error.new }
{
    let Some(held) = column.take(alloc) else {
        return NO_COLUMN;
    };
    let outcome = lists::offsets_of(alloc, &held.array);
    column.put(held);
    answer(outcome, out, error)
}

/// Returns how many elements each list has, u64 numbers. Refused as `hv_list_elements`.
#[tactic(auto, using(crate::proofs::ReadEndings::window_empty, crate::proofs::ReadEndings::window_done, crate::proofs::ReadEndings::window_refused))]
#[unsafe(no_mangle)]
pub extern "C" fn hv_list_sizes(
    alloc: Global,
    column: &mut Handle,
    out: &mut Handle,
    error: &mut ErrorFields,
) -> i32
    ensures same { column.new.column ≡ column.old.column }
    ensures made { result ≡ pos 0
        → WhereBoth (λ c d. AreSizesOf (column_of c) (column_of d)) (array_in column.old.column)
        (array_in out.new.column) }
    ensures untyped { result ≡ pos 0 → format_in out.new.column ≡ [] }
    ensures kept { result ≢ pos 0 → out.new.column ≡ out.old.column }
    ensures ended { EndsOnWindow no_lists_fault (array_in column.old.column) result error.new }
{
    let Some(held) = column.take(alloc) else {
        return NO_COLUMN;
    };
    let outcome = lists::sizes_of(alloc, &held.array);
    column.put(held);
    answer(outcome, out, error)
}

/// Returns whether each list is valid, as booleans. Refused as `hv_list_elements`.
#[tactic(auto, using(crate::proofs::ReadEndings::window_empty, crate::proofs::ReadEndings::window_done, crate::proofs::ReadEndings::window_refused))]
#[unsafe(no_mangle)]
pub extern "C" fn hv_list_validity(
    alloc: Global,
    column: &mut Handle,
    out: &mut Handle,
    error: &mut ErrorFields,
) -> i32
    ensures same { column.new.column ≡ column.old.column }
    ensures made { result ≡ pos 0
        → WhereBoth (λ c d. AreFlagsOf (column_of c) (column_of d)) (array_in column.old.column)
        (array_in out.new.column) }
    ensures untyped { result ≡ pos 0 → format_in out.new.column ≡ [] }
    ensures kept { result ≢ pos 0 → out.new.column ≡ out.old.column }
    ensures ended { EndsOnWindow no_lists_fault (array_in column.old.column) result error.new }
{
    let Some(held) = column.take(alloc) else {
        return NO_COLUMN;
    };
    let outcome = lists::flags_of(alloc, &held.array);
    column.put(held);
    answer(outcome, out, error)
}
