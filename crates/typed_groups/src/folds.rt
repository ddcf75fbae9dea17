//! How many rows groups have, and what is answered of their integers, as they are stored.
ghost use Rattle.std.specs.Prelude.{◌≡◌, ℕ, ℤ, List, Option, IfErr, IfOk, length, map, true};
ghost use Rattle.column_base.specs.declared.dtype.DType.TheVariants as types;
ghost use Rattle.column_base.specs.declared.dtype.Nullability.TheVariants.{Nullable};
ghost use Rattle.column_base.specs.declared.dtype.PType.TheVariants.{U64};
ghost use Rattle.column_core.specs.Kinds.{is_numbers};
ghost use Rattle.column_core.specs.PrimitiveForm.{optional_numbers, primitive_dtype};
ghost use Rattle.column_sums.specs.SumAnswer.{number_in};
ghost use Rattle.runend_array.specs.Array.{column_of, dtype_of, rows};
ghost use Rattle.runend_pairs.specs.GroupAnswers.{IsGiven, answer_of, answer_ptype, row_count_of};
ghost use Rattle.runend_pairs.specs.GroupFaults.{IsFirstLarge, IsFoldRefusal};
ghost use Rattle.runend_pairs.specs.Groups.{AreGroupAnswers};
ghost use Rattle.row_groups.specs.Groups.{AreEndsOf};
ghost use Rattle.typed_groups.specs.Zeros.{zeros_of};

use column_core::{DType, Nullability, PType, PrimitiveArray, Scalar, ScalarValue, VortexError};
use column_fields::values_fit;
use row_groups::fold_groups;
use runend_array::{ArrayRef, ConstantArray, ExecutionCtx};
use runend_pairs::{GroupError, GroupFold};
use std::alloc::Allocator;

/// Returns how many rows each of the groups that end before these rows has, of rows of any type. Refused only as
/// `Refused(OutOfMemory)`.
pub(crate) fn counted_rows<A: Allocator + Copy>(
    array: &ArrayRef<A>,
    ends: &[u64],
    ctx: &mut ExecutionCtx<A>,
) -> Result<ArrayRef<A>, GroupError>
    requires { AreEndsOf (length (rows array.now)) ends.now }
    ensures answers { IfOk result (λ made. AreGroupAnswers row_count_of ends.now (map number_in (rows array.now))
        (map number_in (rows made))) }
    ensures counted { IfOk result (λ made. length (rows made) ≡ length ends.now) }
    ensures dtype { IfOk result (λ made. dtype_of made ≡ types.Primitive U64 Nullable) }
    ensures only { IfErr result (λ error. error ≡ GroupError.Refused VortexError.OutOfMemory) }
    ensures session { ctx.new ≡ ctx.old }
{
    let counts = row_counts(ends, array.len(), ctx)?;
    Ok(array_of_numbers(counts))
}

/// Returns what is answered of the integers of each of the groups that end before these rows. Refused as `SumOverflow`
/// with the first group whose sum does not fit 64 bits, and else only as `Refused(OutOfMemory)`.
pub(crate) fn folded_numbers<A: Allocator + Copy>(
    array: &ArrayRef<A>,
    ends: &[u64],
    fold: GroupFold,
    ctx: &mut ExecutionCtx<A>,
) -> Result<ArrayRef<A>, GroupError>
    requires ends { AreEndsOf (length (rows array.now)) ends.now }
    requires numbers { is_numbers (dtype_of array.now) ≡ true }
    ensures answers { IfOk result (λ made. AreGroupAnswers (answer_of fold) ends.now (map number_in (rows array.now))
        (map number_in (rows made))) }
    ensures counted { IfOk result (λ made. length (rows made) ≡ length ends.now) }
    ensures dtype { IfOk result (λ made. dtype_of made ≡
        types.Primitive (answer_ptype fold (dtype_of array.now)) Nullable) }
    ensures fits { IfOk result (λ made. (group : ℕ) → ¬ IsFirstLarge (IsGiven fold (dtype_of array.now))
        (answer_of fold) ends.now (map number_in (rows array.now)) group) }
    ensures refused { IfErr result (IsFoldRefusal (IsGiven fold (dtype_of array.now)) (answer_of fold) ends.now
        (map number_in (rows array.now))) }
    ensures session { ctx.new ≡ ctx.old }
{
    let answers = fold_groups(ends, array, fold, ctx)?;
    // An answer fits its type, so where there are answers no sum was too large.
    values_fit(answers.values());
    Ok(array_of_numbers(answers))
}

// How many rows each group has: those of a constant of as many rows, which are integers.
fn row_counts<A: Allocator + Copy>(
    ends: &[u64],
    count: usize,
    ctx: &mut ExecutionCtx<A>,
) -> Result<PrimitiveArray<A>, GroupError>
    requires ends { AreEndsOf count ends.now }
    ensures answers { (all : List (Option ℤ)) → length all ≡ count →
        IfOk result (λ counts. AreGroupAnswers row_count_of ends.now all (optional_numbers counts)) }
    ensures dtype { IfOk result (λ counts. primitive_dtype counts ≡ types.Primitive U64 Nullable) }
    ensures only { IfErr result (λ error. error ≡ GroupError.Refused VortexError.OutOfMemory) }
    ensures session { ctx.new ≡ ctx.old }
{
    let column = zeros(count);
    let counts = fold_groups(ends, &column, GroupFold::Rows, ctx);
    drop(column);
    counts
}

// Numbers as an array.
fn array_of_numbers<A: Allocator>(numbers: PrimitiveArray<A>) -> ArrayRef<A>
    ensures rows { map number_in (rows result) ≡ optional_numbers numbers }
    ensures dtype { dtype_of result ≡ primitive_dtype numbers }
{
    ArrayRef::Primitive(numbers)
}

// Zero in each of `count` rows. Takes no memory.
fn zeros<A: Allocator>(count: usize) -> ArrayRef<A>
    ensures { column_of result ≡ zeros_of count }
{
    let dtype = DType::Primitive(PType::U64, Nullability::NonNullable);
    let scalar = Scalar::try_new(dtype, Some(ScalarValue::Unsigned(0))).unwrap();
    ArrayRef::Constant(ConstantArray::new(scalar, count))
}
