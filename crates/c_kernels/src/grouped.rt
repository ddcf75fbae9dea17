//! Groups of two columns, on the heap.
ghost use Rattle.std.specs.Prelude.{◌≡◌, Err, Some, IfErr, IfOk, IsOkUnless};
ghost use Rattle.runend_pairs.specs.GroupFaults.{IsGroupRefusal};
ghost use Rattle.typed_columns.specs.Typed.{format_of};
ghost use Rattle.c_kernels.specs.Grouped.{answer_format, group_fault, large_in, AreGroups};

use c_columns::flat::{Boxed, boxed, boxed_like};
use c_columns::sessions::plain_context;
use column_core::{VortexError, VortexResult};
use runend_array::{ArrayRef, array_of};
use runend_pairs::{GroupError, GroupFold, Groups, fold_by};
use std::alloc::Global;
use typed_columns::TypedColumn;

/// Holds the key and the answer of each group, as two columns on the heap.
#[derive(Drop)]
pub struct BoxedGroups {
    pub keys: Boxed,
    pub answers: Boxed,
}

/// Returns the keys of the groups of rows with equal neighbouring keys, under the format of the keys, and the answer
/// for the values in each, under the format of the values where the answer is one of them. Both are flat. Refused as
/// `fold_by` refuses, and for memory.
pub fn groups_of(
    alloc: Global,
    fold: GroupFold,
    keys: &TypedColumn<Global>,
    values: &TypedColumn<Global>,
) -> Result<BoxedGroups, GroupError>
    ensures made { IfOk result (λ made. AreGroups fold keys.now.array values.now.array
        made.keys.value.array made.answers.value.array) }
    ensures typed { IfOk result (λ made. format_of made.keys.value ≡ format_of keys.now) }
    ensures typed_answers { IfOk result
        (λ made. format_of made.answers.value ≡ answer_format fold (format_of values.now)) }
    ensures refused { IfErr result (IsGroupRefusal (group_fault keys.now.array values.now.array)
        (large_in fold keys.now.array values.now.array)) }
    ensures first { (error : VortexError) → group_fault keys.now.array values.now.array ≡ Some error →
        result ≡ Err (GroupError.Refused error) }
{
    let folded = fold_by(&keys.array, &values.array, fold, &mut plain_context(alloc))?;
    let Groups {
        ends,
        keys: group_keys,
        answers,
    } = folded;
    drop(ends);
    let group_keys = match boxed_like(alloc, array_of(group_keys), keys) {
        Ok(group_keys) => group_keys,
        Err(error) => {
            drop(answers);
            return Err(GroupError::Refused(error));
        }
    };
    let answers = match boxed_answers(alloc, fold, ArrayRef::Primitive(answers), values) {
        Ok(answers) => answers,
        Err(error) => {
            drop(group_keys);
            return Err(GroupError::Refused(error));
        }
    };
    Ok(BoxedGroups {
        keys: group_keys,
        answers,
    })
}

// Puts the answers on the heap: rows of the values keep the format of the values, and sums and counts have none.
fn boxed_answers(
    alloc: Global,
    fold: GroupFold,
    answers: ArrayRef<Global>,
    values: &TypedColumn<Global>,
) -> VortexResult<Boxed>
    ensures only { IsOkUnless result VortexError.OutOfMemory }
    ensures column { IfOk result (λ made. made.value.array ≡ answers) }
    ensures typed { IfOk result (λ made. format_of made.value ≡ answer_format fold (format_of values.now)) }
{
    match fold {
        GroupFold::Sum => boxed(alloc, answers),
        GroupFold::Rows => boxed(alloc, answers),
        GroupFold::Count => boxed(alloc, answers),
        GroupFold::Least => boxed_like(alloc, answers, values),
        GroupFold::Greatest => boxed_like(alloc, answers, values),
        GroupFold::First => boxed_like(alloc, answers, values),
        GroupFold::Last => boxed_like(alloc, answers, values),
    }
}
