//! Rows folded group by group, along the runs of a column.
ghost use Rattle.std.specs.Prelude.{◌≡◌, ◌+◌, ◌^◌, ◌<◌, ◌≤◌, ◌++◌, ℤ, List, [], Option, None, Some, false, pos, if◌then◌else◌, is_some, length, map, option_map, replicate, slice_range, vec_capacity, IfErr, IfOk, IsOkUnless};
ghost use Rattle.column_base.specs.declared.dtype.Nullability.TheVariants.{Nullable};
ghost use Rattle.column_base.specs.declared.dtype.DType.TheVariants as column;
ghost use Rattle.column_base.specs.ValidityForm.{flags};
ghost use Rattle.column_base.specs.Validity.{form_of, validity_flags};
ghost use Rattle.column_core.specs.Computed.{IsComputed};
ghost use Rattle.column_core.specs.Optionals.{optionals, AreBlankAtNulls};
ghost use Rattle.column_core.specs.PrimitiveForm.{optional_numbers, primitive_dtype};
ghost use Rattle.runend_windows.specs.Ends.{ends_of};
ghost use Rattle.runend_windows.specs.Window.{last_end, run_at};
ghost use Rattle.runend_pairs.specs.GroupFaults.{IsFoldRefusal};
ghost use Rattle.runend_pairs.specs.Groups.{shown_numbers, AreGroupAnswers, AreValueRuns, AreWholeRuns, IsAnswerOf};

use crate::ends::{end_of, run_after};
use crate::group_fault::GroupError;
use crate::values::ValueRuns;
use column_core::{BitBufferMut, NativePType, PrimitiveArray, Validity, VortexError, VortexResult};
use std::alloc::Allocator;

/// Keeps what an answer needs to know of the rows of a group, and gives the answer.
pub(crate) trait Fold<T: NativePType, N: NativePType>: Drop {
    // This is kept of these rows.
    ghost keeps: { List (Option ℤ) → Self → Type 0 };

    // The answer for a group of these rows.
    ghost answer_of: { List (Option ℤ) → Option ℤ };

    // The numbers that are given as answers. A group with another answer is refused.
    ghost gives: { ℤ → Type 0 };

    /// Returns what is kept of no rows.
    fn start() -> Self
        ensures { keeps [] result };

    /// Adds `rows` rows, each of this value.
    fn add(&mut self, value: Option<T>, rows: usize)
        ensures { (before : List (Option ℤ)) → 0 < rows → length before + rows < 2 ^ 64 →
            keeps before self.old → keeps (before ++ replicate rows (option_map T.number value)) self.new };

    /// Returns the answer, or `None` where it is a number that is not given as an answer.
    fn finish(&self) -> Option<Option<N>>
        ensures { (rows : List (Option ℤ)) → keeps rows self.now →
            IsAnswerOf N.number gives (answer_of rows) result };
}

/// Returns the answer for each group, as a column that has null. Each group ends before one of these rows, and the last
/// one at the last row. Takes a step for each group and for each run. Refused with the first group whose answer is not
/// given, and as `OutOfMemory`.
pub(crate) fn fold_groups<T: NativePType, N: NativePType, S: Fold<T, N>, A: Allocator + Copy>(
    alloc: A,
    groups: &PrimitiveArray<A>,
    values: &ValueRuns<'_, T, A>,
) -> Result<PrimitiveArray<A>, GroupError>
    requires groups { AreWholeRuns groups.now }
    requires runs { AreValueRuns values.now.ends.now (length values.now.items.now) (form_of values.now.validity.now) }
    requires whole { last_end (ends_of groups.now) ≡ last_end (ends_of values.now.ends.now) }
    ensures answers { IfOk result (λ answers. AreGroupAnswers S.answer_of (ends_of groups.now)
        (shown_numbers (ends_of values.now.ends.now) (map T.number values.now.items.now)
        (validity_flags values.now.validity.now (length values.now.items.now))) (optional_numbers answers)) }
    ensures dtype { IfOk result (λ answers. primitive_dtype answers ≡ column.Primitive N.PTYPE Nullable) }
    ensures computed { IfOk result (λ answers. IsComputed answers) }
    ensures refused { IfErr result (IsFoldRefusal S.gives S.answer_of (ends_of groups.now)
        (shown_numbers (ends_of values.now.ends.now) (map T.number values.now.items.now)
        (validity_flags values.now.validity.now (length values.now.items.now)))) }
{
    let count = groups.len();
    let mut items = room_for(alloc, count)?;
    let mut flags = BitBufferMut::with_capacity(alloc, count)?;
    let mut run = 0;
    let mut row = 0;
    for group in 0..count {
        let stop = end_of(groups, group);
        let (fold, next) = fold_between::<T, N, S, A>(values, run, row, stop);
        let Some(answer) = fold.finish() else {
            return Err(GroupError::SumOverflow { group });
        };
        flags.append(answer.is_some())?;
        items.push_reserved(stored_for(answer));
        run = next;
        row = stop;
    }
    Ok(answer_column(items, flags))
}

/// Returns no items, and room for `count` items. Refused only as `OutOfMemory`.
pub(crate) fn room_for<N: NativePType, A: Allocator>(
    alloc: A,
    count: usize,
) -> VortexResult<Vec<N, A>>
    ensures only { IsOkUnless result VortexError.OutOfMemory }
    ensures empty { IfOk result (λ items. items.items ≡ []) }
    ensures room { IfOk result (λ items. count ≤ vec_capacity items) }
{
    Ok(Vec::with_capacity(alloc, count)?)
}

/// Returns the item that a column stores for an answer: 0 for null.
#[inline]
pub(crate) fn stored_for<N: NativePType>(answer: Option<N>) -> N
    ensures shown { (if is_some answer then Some (N.number result) else None) ≡ option_map N.number answer }
    ensures blank { is_some answer ≡ false → N.number result ≡ pos 0 }
{
    match answer {
        Some(number) => number,
        None => N::default(),
    }
}

/// Returns the column of answers, null where the flag is false, in a type that has null.
pub(crate) fn answer_column<N: NativePType, A: Allocator + Copy>(
    items: Vec<N, A>,
    flags: BitBufferMut<A>,
) -> PrimitiveArray<A>
    requires paired { length flags ≡ length items.items }
    requires blank { AreBlankAtNulls (pos 0) (map N.number items.items) flags }
    ensures shown { optional_numbers result ≡ optionals (map N.number items.items) flags }
    ensures dtype { primitive_dtype result ≡ column.Primitive N.PTYPE Nullable }
    ensures computed { IsComputed result }
{
    let validity = Validity::from_bits(flags.freeze());
    PrimitiveArray::new_unchecked(N::wrap(items), validity)
}

// What is kept of the rows from `start` to before `stop`, where the row `start` is in the run `first`; and the run of
// the row `stop`.
fn fold_between<T: NativePType, N: NativePType, S: Fold<T, N>, A: Allocator>(
    values: &ValueRuns<'_, T, A>,
    first: usize,
    start: usize,
    stop: usize,
) -> (S, usize)
    requires runs { AreValueRuns values.now.ends.now (length values.now.items.now) (form_of values.now.validity.now) }
    requires ordered { start ≤ stop }
    requires within { stop ≤ last_end (ends_of values.now.ends.now) }
    requires here { first ≡ run_at (ends_of values.now.ends.now) start }
    ensures kept { S.keeps (slice_range (shown_numbers (ends_of values.now.ends.now) (map T.number values.now.items.now)
        (validity_flags values.now.validity.now (length values.now.items.now))) start stop) result.0 }
    ensures next { result.1 ≡ run_at (ends_of values.now.ends.now) stop }
{
    let mut fold = S::start();
    let mut run = first;
    let mut row = start;
    while row < stop {
        let end = values.end(run);
        let reached = end.min(stop);
        fold.add(values.value(run), reached - row);
        run = run_after(run, end, reached);
        row = reached;
    }
    (fold, run)
}
