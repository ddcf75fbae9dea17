//! Rows of two columns chosen by a mask, and the call on three handles.
ghost use Rattle.std.specs.Prelude.{◌≡◌, ◌≢◌, IfOk, IsOkUnless, pos};
ghost use Rattle.column_core.specs.Refusal.{IsRefusedBy};
ghost use Rattle.typed_columns.specs.Typed.{format_of};
ghost use Rattle.c_columns.specs.Handle.{array_in, format_in};
ghost use Rattle.c_kernels.specs.Chosen.{choice_fault_of, AreChosenOf, EndsOnThree, IsChosen, IsCommonFormat};

use c_columns::commands::answer;
use c_columns::error_fields::{ErrorFields, NO_COLUMN};
use c_columns::flat::{Boxed, boxed, boxed_like};
use c_columns::handle::Handle;
use c_columns::sessions::plain_context;
use column_core::{VortexError, VortexResult};
use runend_array::ArrayRef;
use runend_pairs::if_else;
use std::alloc::Global;
use typed_columns::TypedColumn;

/// Puts the left row where the mask is true, the right one where it is false, and null where it is null, into a handle,
/// under the format that both columns have, or none, and returns 0. Else returns the number of an error, and leaves
/// that handle: 22 for an empty handle, else as `chosen` is refused.
pub fn choose_handles(
    alloc: Global,
    mask: &mut Handle,
    left: &mut Handle,
    right: &mut Handle,
    out: &mut Handle,
    error: &mut ErrorFields,
) -> i32
    ensures same { mask.new.column ≡ mask.old.column }
    ensures same_left { left.new.column ≡ left.old.column }
    ensures same_right { right.new.column ≡ right.old.column }
    ensures made { result ≡ pos 0 →
        AreChosenOf (array_in mask.old.column) (array_in left.old.column) (array_in right.old.column)
        (array_in out.new.column) }
    ensures typed { result ≡ pos 0 →
        IsCommonFormat (format_in left.old.column) (format_in right.old.column) (format_in out.new.column) }
    ensures kept { result ≢ pos 0 → out.new.column ≡ out.old.column }
    ensures ended { EndsOnThree (array_in mask.old.column) (array_in left.old.column)
        (array_in right.old.column) result error.new }
{
    let Some(lent) = mask.take(alloc) else {
        return NO_COLUMN;
    };
    let Some(held) = left.take(alloc) else {
        mask.put(lent);
        return NO_COLUMN;
    };
    let Some(other) = right.take(alloc) else {
        mask.put(lent);
        left.put(held);
        return NO_COLUMN;
    };
    let outcome = chosen(alloc, &lent.array, &held, &other);
    mask.put(lent);
    left.put(held);
    right.put(other);
    answer(outcome, out, error)
}

/// Returns the left row where the mask is true, the right one where it is false, and null where it is null, under the
/// format that both columns have, or none. Refused as `if_else` of `runend_pairs` refuses, and for memory.
pub fn chosen(
    alloc: Global,
    mask: &ArrayRef<Global>,
    left: &TypedColumn<Global>,
    right: &TypedColumn<Global>,
) -> VortexResult<Boxed>
    ensures made { IfOk result (λ made. IsChosen mask.now left.now.array right.now.array made.value.array) }
    ensures typed { IfOk result
        (λ made. IsCommonFormat (format_of left.now) (format_of right.now) (format_of made.value)) }
    ensures refused { IsRefusedBy (choice_fault_of mask.now left.now.array right.now.array) result }
{
    let mut ctx = plain_context(alloc);
    let rows = if_else(mask, &left.array, &right.array, &mut ctx)?;
    boxed_like_both(alloc, rows, left, right)
}

// Puts rows of two columns on the heap, under the format that both have, or without one where they have two.
fn boxed_like_both(
    alloc: Global,
    rows: ArrayRef<Global>,
    left: &TypedColumn<Global>,
    right: &TypedColumn<Global>,
) -> VortexResult<Boxed>
    ensures only { IsOkUnless result VortexError.OutOfMemory }
    ensures column { IfOk result (λ made. made.value.array ≡ rows) }
    ensures typed { IfOk result
        (λ made. IsCommonFormat (format_of left.now) (format_of right.now) (format_of made.value)) }
{
    if left.format.as_str() == right.format.as_str() {
        boxed_like(alloc, rows, left)
    } else {
        boxed(alloc, rows)
    }
}
