//! The answers for the rows from the first one up to the end of each run, along the runs of a column.
ghost use Rattle.std.specs.Prelude.{◌≡◌, length, map, IfErr, IfOk};
ghost use Rattle.column_base.specs.declared.dtype.DType.TheVariants as column;
ghost use Rattle.column_base.specs.declared.dtype.Nullability.TheVariants.{Nullable};
ghost use Rattle.column_base.specs.ValidityForm.{flags};
ghost use Rattle.column_base.specs.Validity.{form_of, validity_flags};
ghost use Rattle.column_core.specs.Computed.{IsComputed};
ghost use Rattle.column_core.specs.PrimitiveForm.{optional_numbers, primitive_dtype};
ghost use Rattle.runend_windows.specs.Ends.{ends_of};
ghost use Rattle.runend_pairs.specs.Groups.{shown_numbers, AreValueRuns};
ghost use Rattle.runend_pairs.specs.Totals.{AreRunningAnswers, IsRunningRefusal};

use crate::folds::{Fold, answer_column, room_for, stored_for};
use crate::total_fault::TotalError;
use crate::values::ValueRuns;
use column_core::{BitBufferMut, NativePType, PrimitiveArray};
use std::alloc::Allocator;

/// Returns for each run the answer for the rows up to its end, as a column that has null. Takes a step for each run.
/// Refused with the first run whose answer is not given, and as `OutOfMemory`.
pub(crate) fn fold_running<T: NativePType, N: NativePType, S: Fold<T, N>, A: Allocator + Copy>(
    alloc: A,
    values: &ValueRuns<'_, T, A>,
) -> Result<PrimitiveArray<A>, TotalError>
    requires runs { AreValueRuns values.now.ends.now (length values.now.items.now) (form_of values.now.validity.now) }
    ensures answers { IfOk result (λ answers. AreRunningAnswers S.answer_of (ends_of values.now.ends.now)
        (shown_numbers (ends_of values.now.ends.now) (map T.number values.now.items.now)
        (validity_flags values.now.validity.now (length values.now.items.now))) (optional_numbers answers)) }
    ensures dtype { IfOk result (λ answers. primitive_dtype answers ≡ column.Primitive N.PTYPE Nullable) }
    ensures computed { IfOk result (λ answers. IsComputed answers) }
    ensures refused { IfErr result (IsRunningRefusal S.gives S.answer_of (ends_of values.now.ends.now)
        (shown_numbers (ends_of values.now.ends.now) (map T.number values.now.items.now)
        (validity_flags values.now.validity.now (length values.now.items.now)))) }
{
    let count = values.ends.len();
    let mut items = room_for(alloc, count)?;
    let mut flags = BitBufferMut::with_capacity(alloc, count)?;
    let mut fold = S::start();
    let mut row = 0;
    for run in 0..count {
        let end = values.end(run);
        fold.add(values.value(run), end - row);
        let Some(answer) = fold.finish() else {
            return Err(TotalError::Overflow { run });
        };
        flags.append(answer.is_some())?;
        items.push_reserved(stored_for(answer));
        row = end;
    }
    Ok(answer_column(items, flags))
}
