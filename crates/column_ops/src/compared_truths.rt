//! Columns of booleans that a comparison writes, and which of its answers are valid.
ghost use Rattle.std.specs.Prelude.{◌≡◌, ◌<◌, ◌++◌, ◌∷◌, [], All, length, replicate, true, false, is_some, option_map, unwrap_or, IfOk, OnOk, IsOkUnless};
ghost use Rattle.column_base.specs.Validity.{form_of, validity_flags};
ghost use Rattle.column_base.specs.ValidityForm.{AllNull, HasLength, IsNormal, flags, nullability_in};
ghost use Rattle.column_base.specs.declared.dtype.DType.TheVariants as column;
ghost use Rattle.column_base.specs.declared.dtype.Nullability.TheVariants.{NonNullable, Nullable};
ghost use Rattle.column_core.specs.BoolForm.{bool_dtype, optional_truths};
ghost use Rattle.column_core.specs.Optionals.{optionals, AreBlankAtNulls};
ghost use Rattle.column_core.specs.ScalarView.{sees};
ghost use Rattle.column_core.specs.Value.{Single, Truth};
ghost use Rattle.column_ops.specs.Comparing.{compared, either_nullability, IsStoredComparison};

use crate::compared_views::compare_views;
use crate::operator::CompareOperator;
use column_core::{
    BitBufferMut, BoolArray, Nullability, ScalarView, Validity, VortexError, VortexResult,
};
use std::alloc::Allocator;

/// Returns whether the operator holds of the two rows, and `None` where one is null.
pub(crate) fn truth_of<A: Allocator>(
    operator: CompareOperator,
    left: &ScalarView<'_, A>,
    right: &ScalarView<'_, A>,
) -> Option<bool>
    ensures { option_map (λ truth. Single (Truth truth)) result ≡ compared operator (sees left.now) (sees right.now) }
{
    match (left, right) {
        (ScalarView::Null, _) => None,
        (_, ScalarView::Null) => None,
        (left, right) => Some(operator.holds(compare_views(left, right))),
    }
}

/// Writes one more optional boolean: its bit, false for null, and whether it is not null. Refused
/// only as `OutOfMemory`, and then a bit may be written without its flag.
pub(crate) fn push_truth<A: Allocator + Copy>(
    bits: &mut BitBufferMut<A>,
    flags: &mut BitBufferMut<A>,
    truth: Option<bool>,
) -> VortexResult<()>
    ensures bits { OnOk result (bits.new ≡ bits.old ++ unwrap_or truth false ∷ []) }
    ensures flags { OnOk result (flags.new ≡ flags.old ++ is_some truth ∷ []) }
    ensures only { IsOkUnless result VortexError.OutOfMemory }
{
    bits.append(truth.unwrap_or(false))?;
    flags.append(truth.is_some())
}

/// Returns the column of these bits, null where the flag is false. Takes no memory.
pub(crate) fn column_of_truths<A: Allocator + Copy>(
    bits: BitBufferMut<A>,
    flags: BitBufferMut<A>,
    nullability: Nullability,
) -> BoolArray<A>
    requires paired { length flags ≡ length bits }
    requires blank { AreBlankAtNulls false bits flags }
    requires typed { nullability ≡ NonNullable → All (λ flag. flag ≡ true) flags }
    ensures truths { optional_truths result ≡ optionals bits flags }
    ensures dtype { bool_dtype result ≡ column.Bool nullability }
    ensures stored { IsStoredComparison result }
{
    match nullability {
        Nullability::NonNullable => BoolArray::new_unchecked(bits.freeze(), Validity::NonNullable),
        Nullability::Nullable => {
            let validity = Validity::from_bits(flags.freeze());
            BoolArray::new_unchecked(bits.freeze(), validity)
        }
    }
}

/// Returns which answers are valid, given which rows are valid, for rows that are compared with a value of a type of
/// that nullability. Refused only as `OutOfMemory`.
pub(crate) fn validity_of_answers<A: Allocator + Copy>(
    alloc: A,
    rows: &Validity<A>,
    count: usize,
    nullability: Nullability,
) -> VortexResult<Validity<A>>
    requires { HasLength (form_of rows.now) count }
    ensures only { IsOkUnless result VortexError.OutOfMemory }
    ensures flags { IfOk result (λ validity. validity_flags validity count ≡ validity_flags rows.now count) }
    ensures fits { IfOk result (λ validity. HasLength (form_of validity) count) }
    ensures normal { IfOk result (λ validity. IsNormal (form_of validity)) }
    ensures some { IfOk result (λ validity. form_of validity ≡ AllNull → 0 < count) }
    ensures nullability { IfOk result (λ validity. nullability_in (form_of validity) ≡
        either_nullability (nullability_in (form_of rows.now)) nullability) }
{
    match (rows, nullability) {
        (Validity::NonNullable, Nullability::Nullable) => Ok(Validity::AllValid),
        _ => rows.slice(alloc, 0..count),
    }
}

/// Returns the validity of `count` answers that are all null. Takes no memory.
pub(crate) fn validity_of_nulls<A: Allocator>(count: usize) -> Validity<A>
    ensures flags { validity_flags result count ≡ replicate count false }
    ensures fits { HasLength (form_of result) count }
    ensures normal { IsNormal (form_of result) }
    ensures some { form_of result ≡ AllNull → 0 < count }
    ensures nullability { nullability_in (form_of result) ≡ Nullable }
{
    if count == 0 {
        Validity::AllValid
    } else {
        Validity::AllInvalid
    }
}
