//! Groups of integers of any type, and the answer for each.
ghost use Rattle.std.specs.Prelude.{◌≡◌, ◌≢◌, length, map, IfErr, IfOk};
ghost use Rattle.column_base.specs.declared.dtype.DType.TheVariants as column;
ghost use Rattle.column_base.specs.declared.dtype.Nullability.TheVariants.{Nullable};
ghost use Rattle.column_base.specs.declared.dtype.PType.TheVariants.{I64, U64};
ghost use Rattle.column_core.specs.Computed.{IsComputed};
ghost use Rattle.column_core.specs.PrimitiveForm.{optional_numbers, primitive_dtype};
ghost use Rattle.runend_windows.specs.Ends.{ends_of};
ghost use Rattle.runend_windows.specs.Window.{last_end, run_rows};
ghost use Rattle.runend_pairs.specs.GroupAnswers.{answer_of, answer_ptype, IsGiven};
ghost use Rattle.runend_pairs.specs.GroupFaults.{IsFoldRefusal};
ghost use Rattle.runend_pairs.specs.Groups.{AreGroupAnswers, AreWholeRuns};
ghost use Rattle.runend_pairs.specs.Sums.{sum_ptype};
ghost use Rattle.runend_pairs.specs.declared.group_fold.GroupFold.TheVariants.{Sum};

use crate::counts::{RowCount, ValidCount};
use crate::extremes::{Greatest, Least};
use crate::folds::{Fold, fold_groups};
use crate::group_fault::GroupError;
use crate::group_fold::GroupFold;
use crate::places::{First, Last};
use crate::sums::{SignedTotal, UnsignedTotal};
use crate::values::ValueRuns;
use column_core::{NativePType, PrimitiveArray, PrimitiveValues as Values, UnsignedPType};
use column_sums::SignedPType;
use std::alloc::Allocator;

/// Returns the answer for each group of the rows of these runs. Each group ends before one of these rows. Refused, if
/// sums are asked for, with the first group whose sum does not fit 64 bits, and as `OutOfMemory`.
pub(crate) fn fold_numbers<A: Allocator + Copy>(
    alloc: A,
    groups: &PrimitiveArray<A>,
    ends: &PrimitiveArray<A>,
    numbers: &PrimitiveArray<A>,
    fold: GroupFold,
) -> Result<PrimitiveArray<A>, GroupError>
    requires groups { AreWholeRuns groups.now }
    requires whole { last_end (ends_of groups.now) ≡ last_end (ends_of ends.now) }
    requires runs { AreWholeRuns ends.now }
    requires paired { length (optional_numbers numbers.now) ≡ length (ends_of ends.now) }
    ensures answers { IfOk result (λ answers. AreGroupAnswers (answer_of fold) (ends_of groups.now)
        (run_rows (ends_of ends.now) (optional_numbers numbers.now) 0 (last_end (ends_of ends.now)))
        (optional_numbers answers)) }
    ensures dtype { IfOk result (λ answers. primitive_dtype answers ≡
        column.Primitive (answer_ptype fold (primitive_dtype numbers.now)) Nullable) }
    ensures computed { IfOk result (λ answers. IsComputed answers) }
    ensures refused { IfErr result (IsFoldRefusal (IsGiven fold (primitive_dtype numbers.now)) (answer_of fold)
        (ends_of groups.now)
        (run_rows (ends_of ends.now) (optional_numbers numbers.now) 0 (last_end (ends_of ends.now)))) }
{
    match numbers.values() {
        Values::I8(items) => fold_signed(alloc, groups, ends, items.as_slice(), numbers, fold),
        Values::I16(items) => fold_signed(alloc, groups, ends, items.as_slice(), numbers, fold),
        Values::I32(items) => fold_signed(alloc, groups, ends, items.as_slice(), numbers, fold),
        Values::I64(items) => fold_signed(alloc, groups, ends, items.as_slice(), numbers, fold),
        Values::U8(items) => fold_unsigned(alloc, groups, ends, items.as_slice(), numbers, fold),
        Values::U16(items) => fold_unsigned(alloc, groups, ends, items.as_slice(), numbers, fold),
        Values::U32(items) => fold_unsigned(alloc, groups, ends, items.as_slice(), numbers, fold),
        Values::U64(items) => fold_unsigned(alloc, groups, ends, items.as_slice(), numbers, fold),
    }
}

// The same for items of a signed type, null where the numbers are.
fn fold_signed<T: SignedPType, A: Allocator + Copy>(
    alloc: A,
    groups: &PrimitiveArray<A>,
    ends: &PrimitiveArray<A>,
    items: &[T],
    numbers: &PrimitiveArray<A>,
    fold: GroupFold,
) -> Result<PrimitiveArray<A>, GroupError>
    requires groups { AreWholeRuns groups.now }
    requires whole { last_end (ends_of groups.now) ≡ last_end (ends_of ends.now) }
    requires runs { AreWholeRuns ends.now }
    requires paired { length (optional_numbers numbers.now) ≡ length (ends_of ends.now) }
    requires stored { map T.number items.now ≡ numbers.now.numbers }
    requires typed { sum_ptype numbers.now.ptype ≡ I64 }
    requires own { numbers.now.ptype ≡ T.PTYPE }
    ensures answers { IfOk result (λ answers. AreGroupAnswers (answer_of fold) (ends_of groups.now)
        (run_rows (ends_of ends.now) (optional_numbers numbers.now) 0 (last_end (ends_of ends.now)))
        (optional_numbers answers)) }
    ensures dtype { IfOk result (λ answers. primitive_dtype answers ≡
        column.Primitive (answer_ptype fold (primitive_dtype numbers.now)) Nullable) }
    ensures computed { IfOk result (λ answers. IsComputed answers) }
    ensures refused { IfErr result (IsFoldRefusal (IsGiven fold (primitive_dtype numbers.now)) (answer_of fold)
        (ends_of groups.now)
        (run_rows (ends_of ends.now) (optional_numbers numbers.now) 0 (last_end (ends_of ends.now)))) }
{
    match fold {
        GroupFold::Sum => fold_items::<T, i64, SignedTotal, A>(alloc, groups, ends, items, numbers),
        _ => fold_native(alloc, groups, ends, items, numbers, fold),
    }
}

// The same for items of an unsigned type.
fn fold_unsigned<T: UnsignedPType, A: Allocator + Copy>(
    alloc: A,
    groups: &PrimitiveArray<A>,
    ends: &PrimitiveArray<A>,
    items: &[T],
    numbers: &PrimitiveArray<A>,
    fold: GroupFold,
) -> Result<PrimitiveArray<A>, GroupError>
    requires groups { AreWholeRuns groups.now }
    requires whole { last_end (ends_of groups.now) ≡ last_end (ends_of ends.now) }
    requires runs { AreWholeRuns ends.now }
    requires paired { length (optional_numbers numbers.now) ≡ length (ends_of ends.now) }
    requires stored { map T.number items.now ≡ numbers.now.numbers }
    requires typed { sum_ptype numbers.now.ptype ≡ U64 }
    requires own { numbers.now.ptype ≡ T.PTYPE }
    ensures answers { IfOk result (λ answers. AreGroupAnswers (answer_of fold) (ends_of groups.now)
        (run_rows (ends_of ends.now) (optional_numbers numbers.now) 0 (last_end (ends_of ends.now)))
        (optional_numbers answers)) }
    ensures dtype { IfOk result (λ answers. primitive_dtype answers ≡
        column.Primitive (answer_ptype fold (primitive_dtype numbers.now)) Nullable) }
    ensures computed { IfOk result (λ answers. IsComputed answers) }
    ensures refused { IfErr result (IsFoldRefusal (IsGiven fold (primitive_dtype numbers.now)) (answer_of fold)
        (ends_of groups.now)
        (run_rows (ends_of ends.now) (optional_numbers numbers.now) 0 (last_end (ends_of ends.now)))) }
{
    match fold {
        GroupFold::Sum => fold_items::<T, u64, UnsignedTotal, A>(
            alloc, groups, ends, items, numbers,
        ),
        _ => fold_native(alloc, groups, ends, items, numbers, fold),
    }
}

// The same for items of any type, for an answer that does not depend on a sign.
fn fold_native<T: NativePType, A: Allocator + Copy>(
    alloc: A,
    groups: &PrimitiveArray<A>,
    ends: &PrimitiveArray<A>,
    items: &[T],
    numbers: &PrimitiveArray<A>,
    fold: GroupFold,
) -> Result<PrimitiveArray<A>, GroupError>
    requires groups { AreWholeRuns groups.now }
    requires whole { last_end (ends_of groups.now) ≡ last_end (ends_of ends.now) }
    requires runs { AreWholeRuns ends.now }
    requires paired { length (optional_numbers numbers.now) ≡ length (ends_of ends.now) }
    requires stored { map T.number items.now ≡ numbers.now.numbers }
    requires own { numbers.now.ptype ≡ T.PTYPE }
    requires other { fold ≢ Sum }
    ensures answers { IfOk result (λ answers. AreGroupAnswers (answer_of fold) (ends_of groups.now)
        (run_rows (ends_of ends.now) (optional_numbers numbers.now) 0 (last_end (ends_of ends.now)))
        (optional_numbers answers)) }
    ensures dtype { IfOk result (λ answers. primitive_dtype answers ≡
        column.Primitive (answer_ptype fold (primitive_dtype numbers.now)) Nullable) }
    ensures computed { IfOk result (λ answers. IsComputed answers) }
    ensures refused { IfErr result (IsFoldRefusal (IsGiven fold (primitive_dtype numbers.now)) (answer_of fold)
        (ends_of groups.now)
        (run_rows (ends_of ends.now) (optional_numbers numbers.now) 0 (last_end (ends_of ends.now)))) }
{
    match fold {
        GroupFold::Sum => unreachable!(),
        GroupFold::Rows => fold_items::<T, u64, RowCount, A>(alloc, groups, ends, items, numbers),
        GroupFold::Count => fold_items::<T, u64, ValidCount, A>(
            alloc, groups, ends, items, numbers,
        ),
        GroupFold::Least => fold_items::<T, T, Least<T>, A>(alloc, groups, ends, items, numbers),
        GroupFold::Greatest => fold_items::<T, T, Greatest<T>, A>(
            alloc, groups, ends, items, numbers,
        ),
        GroupFold::First => fold_items::<T, T, First<T>, A>(alloc, groups, ends, items, numbers),
        GroupFold::Last => fold_items::<T, T, Last<T>, A>(alloc, groups, ends, items, numbers),
    }
}

// The answers of the fold `S`, for items that are null where the numbers are.
fn fold_items<T: NativePType, N: NativePType, S: Fold<T, N>, A: Allocator + Copy>(
    alloc: A,
    groups: &PrimitiveArray<A>,
    ends: &PrimitiveArray<A>,
    items: &[T],
    numbers: &PrimitiveArray<A>,
) -> Result<PrimitiveArray<A>, GroupError>
    requires groups { AreWholeRuns groups.now }
    requires whole { last_end (ends_of groups.now) ≡ last_end (ends_of ends.now) }
    requires runs { AreWholeRuns ends.now }
    requires paired { length (optional_numbers numbers.now) ≡ length (ends_of ends.now) }
    requires stored { map T.number items.now ≡ numbers.now.numbers }
    ensures answers { IfOk result (λ answers. AreGroupAnswers S.answer_of (ends_of groups.now)
        (run_rows (ends_of ends.now) (optional_numbers numbers.now) 0 (last_end (ends_of ends.now)))
        (optional_numbers answers)) }
    ensures dtype { IfOk result (λ answers. primitive_dtype answers ≡ column.Primitive N.PTYPE Nullable) }
    ensures computed { IfOk result (λ answers. IsComputed answers) }
    ensures refused { IfErr result (IsFoldRefusal S.gives S.answer_of (ends_of groups.now)
        (run_rows (ends_of ends.now) (optional_numbers numbers.now) 0 (last_end (ends_of ends.now)))) }
{
    let runs = ValueRuns {
        ends,
        items,
        validity: numbers.validity(),
    };
    fold_groups::<T, N, S, A>(alloc, groups, &runs)
}
