//! One of the two rows at each place: the first that is not null, the lesser, or the greater.
ghost use Rattle.std.specs.Prelude.{◌≡◌, if◌then◌else◌, None, Some, length, IfOk, IsErrOf, IsOkUnless};
ghost use Rattle.column_base.specs.declared.dtype.Nullability.{Nullability};
ghost use Rattle.column_base.specs.declared.dtype.Nullability.TheVariants.{NonNullable};
ghost use Rattle.column_base.specs.declared.dtype.DType.TheVariants as column;
ghost use Rattle.column_base.specs.Types.{nullability_of, with_nullability};
ghost use Rattle.column_core.specs.Refusal.{IsRefusedBy};
ghost use Rattle.column_core.specs.ScalarView.{sees};
ghost use Rattle.runend_array.specs.Array.{column_of, dtype_of, rows};
ghost use Rattle.runend_pairs.specs.Faults.{pick_fault, AreOfKind, ArePicked};
ghost use Rattle.runend_pairs.specs.Operations.{extreme_dtype, first_valid, first_valid_dtype, greater, lesser, picked, IsLeftOf, IsNeverNull, IsOfKind};
ghost use Rattle.runend_pairs.specs.Zipped.{are_constant, zip_rows, IsAnswerColumn};

use crate::booleans::truth_in;
use crate::columns::{both_null, either_null, zip_columns};
use crate::fault::{fault_of_pick, only_refused};
use crate::pairs::Pairwise;
use crate::stored::{Decimals, Integers, Stored, Truths};
use column_core::{DType, Nullability, PType, ScalarView, VortexError, VortexResult};
use column_ops::compare_views;
use runend_array::{ArrayRef, ExecutionCtx};
use std::alloc::Allocator;

/// Returns the left row at each place, or the right one where the left one is null. The type has null where both types
/// have it. Where both columns are constants and have a row, the answer is a constant, else the run column of the only
/// tight exact cover of the answers. Takes a step for each run of either column; a constant is one run.
///
/// Refused as `Unsupported` where either column is not of integers, decimals or booleans, then as `TypeMismatch` where
/// their types differ (as those of decimals of two scales or precisions do), then as `ColumnLength` where they differ
/// in rows, and else only as `OutOfMemory`.
pub fn coalesce<A: Allocator + Copy>(
    left: &ArrayRef<A>,
    right: &ArrayRef<A>,
    ctx: &mut ExecutionCtx<A>,
) -> VortexResult<ArrayRef<A>>
    ensures answers { IfOk result (λ answers. IsAnswerColumn (are_constant (column_of left.now) (column_of right.now))
        (zip_rows first_valid (rows left.now) (rows right.now))
        (first_valid_dtype (dtype_of left.now) (dtype_of right.now)) (column_of answers)) }
    ensures refused { IsRefusedBy (pick_fault (dtype_of left.now) (dtype_of right.now) (length (rows left.now))
        (length (rows right.now))) result }
    ensures first { (error : VortexError) → pick_fault (dtype_of left.now) (dtype_of right.now)
        (length (rows left.now)) (length (rows right.now)) ≡ Some error → IsErrOf result error }
    ensures session { ctx.new ≡ ctx.old }
{
    if let Some(error) = fault_of_pick(left.dtype(), right.dtype(), left.len(), right.len()) {
        return Err(error);
    }
    let nullability = both_null(left.dtype(), right.dtype());
    pick(
        *ctx.allocator(),
        left,
        PickRule::FirstValid,
        right,
        nullability,
    )
}

/// Returns the lesser of the two rows at each place, null where either is null. The type has null where either type has
/// it. Has the forms of answers, the cost and the refusals of `coalesce`.
pub fn least_of<A: Allocator + Copy>(
    left: &ArrayRef<A>,
    right: &ArrayRef<A>,
    ctx: &mut ExecutionCtx<A>,
) -> VortexResult<ArrayRef<A>>
    ensures answers { IfOk result (λ answers. IsAnswerColumn (are_constant (column_of left.now) (column_of right.now))
        (zip_rows lesser (rows left.now) (rows right.now))
        (extreme_dtype (dtype_of left.now) (dtype_of right.now)) (column_of answers)) }
    ensures refused { IsRefusedBy (pick_fault (dtype_of left.now) (dtype_of right.now) (length (rows left.now))
        (length (rows right.now))) result }
    ensures first { (error : VortexError) → pick_fault (dtype_of left.now) (dtype_of right.now)
        (length (rows left.now)) (length (rows right.now)) ≡ Some error → IsErrOf result error }
    ensures session { ctx.new ≡ ctx.old }
{
    if let Some(error) = fault_of_pick(left.dtype(), right.dtype(), left.len(), right.len()) {
        return Err(error);
    }
    let nullability = either_null(left.dtype(), right.dtype());
    pick(*ctx.allocator(), left, PickRule::Lesser, right, nullability)
}

/// Returns the greater of the two rows at each place, null where either is null, as `least_of` returns the lesser one.
pub fn greatest_of<A: Allocator + Copy>(
    left: &ArrayRef<A>,
    right: &ArrayRef<A>,
    ctx: &mut ExecutionCtx<A>,
) -> VortexResult<ArrayRef<A>>
    ensures answers { IfOk result (λ answers. IsAnswerColumn (are_constant (column_of left.now) (column_of right.now))
        (zip_rows greater (rows left.now) (rows right.now))
        (extreme_dtype (dtype_of left.now) (dtype_of right.now)) (column_of answers)) }
    ensures refused { IsRefusedBy (pick_fault (dtype_of left.now) (dtype_of right.now) (length (rows left.now))
        (length (rows right.now))) result }
    ensures first { (error : VortexError) → pick_fault (dtype_of left.now) (dtype_of right.now)
        (length (rows left.now)) (length (rows right.now)) ≡ Some error → IsErrOf result error }
    ensures session { ctx.new ≡ ctx.old }
{
    if let Some(error) = fault_of_pick(left.dtype(), right.dtype(), left.len(), right.len()) {
        return Err(error);
    }
    let nullability = either_null(left.dtype(), right.dtype());
    pick(
        *ctx.allocator(),
        left,
        PickRule::Greater,
        right,
        nullability,
    )
}

/// Says which of two rows is picked.
#[derive(Clone, Copy, Drop)]
pub(crate) enum PickRule {
    /// Picks the left row, or the right one where the left one is null.
    FirstValid,
    /// Picks the lesser row, null where either is null.
    Lesser,
    /// Picks the greater row, null where either is null.
    Greater,
    /// Picks the right row where the left one is true, else null.
    WhereTrue,
    /// Picks the right row where the left one is false, else null.
    WhereFalse,
}

/// Returns the row that a rule picks at each place, in the type of the right column, with null or without. Refused only
/// as `OutOfMemory`.
pub(crate) fn pick<A: Allocator + Copy>(
    alloc: A,
    left: &ArrayRef<A>,
    rule: PickRule,
    right: &ArrayRef<A>,
    nullability: Nullability,
) -> VortexResult<ArrayRef<A>>
    requires picked { ArePicked rule (dtype_of left.now) (dtype_of right.now) (length (rows left.now))
        (length (rows right.now)) }
    requires filled { nullability ≡ NonNullable → IsNeverNull (nullability_of (dtype_of left.now))
        (nullability_of (dtype_of right.now)) (picked rule) }
    ensures only { IsOkUnless result VortexError.OutOfMemory }
    ensures answers { IfOk result (λ answers. IsAnswerColumn (are_constant (column_of left.now) (column_of right.now))
        (zip_rows (picked rule) (rows left.now) (rows right.now)) (with_nullability (dtype_of right.now) nullability)
        (column_of answers)) }
{
    match right.dtype() {
        DType::Bool(_) => {
            pick_as::<bool, Truths, A>(alloc, left, rule, right, &Truths, nullability)
        }
        DType::Primitive(ptype, _) => {
            pick_integers(alloc, ptype, left, rule, right, nullability)
        }
        DType::Decimal(decimal, _) => {
            let stored = Decimals { decimal };
            pick_as::<i128, Decimals, A>(alloc, left, rule, right, &stored, nullability)
        }
        _ => unreachable!(),
    }
}

// The same for integers of a native type.
fn pick_integers<A: Allocator + Copy>(
    alloc: A,
    ptype: PType,
    left: &ArrayRef<A>,
    rule: PickRule,
    right: &ArrayRef<A>,
    nullability: Nullability,
) -> VortexResult<ArrayRef<A>>
    requires kind { AreOfKind rule (λ nullability. column.Primitive ptype nullability) (dtype_of left.now)
        (dtype_of right.now) (length (rows left.now)) (length (rows right.now)) }
    requires filled { nullability ≡ NonNullable → IsNeverNull (nullability_of (dtype_of left.now))
        (nullability_of (dtype_of right.now)) (picked rule) }
    ensures only { IsOkUnless result VortexError.OutOfMemory }
    ensures answers { IfOk result (λ answers. IsAnswerColumn (are_constant (column_of left.now) (column_of right.now))
        (zip_rows (picked rule) (rows left.now) (rows right.now)) (column.Primitive ptype nullability)
        (column_of answers)) }
{
    match ptype {
        PType::U8 => pick_as::<u8, Integers, A>(alloc, left, rule, right, &Integers, nullability),
        PType::U16 => pick_as::<u16, Integers, A>(alloc, left, rule, right, &Integers, nullability),
        PType::U32 => pick_as::<u32, Integers, A>(alloc, left, rule, right, &Integers, nullability),
        PType::U64 => pick_as::<u64, Integers, A>(alloc, left, rule, right, &Integers, nullability),
        PType::I8 => pick_as::<i8, Integers, A>(alloc, left, rule, right, &Integers, nullability),
        PType::I16 => pick_as::<i16, Integers, A>(alloc, left, rule, right, &Integers, nullability),
        PType::I32 => pick_as::<i32, Integers, A>(alloc, left, rule, right, &Integers, nullability),
        PType::I64 => pick_as::<i64, Integers, A>(alloc, left, rule, right, &Integers, nullability),
    }
}

// The same for rows that are stored as items of a native type.
fn pick_as<Z: Copy + Drop, K: Stored<Z>, A: Allocator + Copy>(
    alloc: A,
    left: &ArrayRef<A>,
    rule: PickRule,
    right: &ArrayRef<A>,
    stored: &K,
    nullability: Nullability,
) -> VortexResult<ArrayRef<A>>
    requires kind { AreOfKind rule (K.dtype_in stored.now) (dtype_of left.now) (dtype_of right.now)
        (length (rows left.now)) (length (rows right.now)) }
    requires filled { nullability ≡ NonNullable → IsNeverNull (nullability_of (dtype_of left.now))
        (nullability_of (dtype_of right.now)) (picked rule) }
    ensures only { IsOkUnless result VortexError.OutOfMemory }
    ensures answers { IfOk result (λ answers. IsAnswerColumn (are_constant (column_of left.now) (column_of right.now))
        (zip_rows (picked rule) (rows left.now) (rows right.now)) (K.dtype_in stored.now nullability)
        (column_of answers)) }
{
    let picking = Picking { rule, stored };
    let made = zip_columns::<Z, K, Picking<'_, K>, A>(
        alloc,
        left,
        &picking,
        right,
        stored,
        nullability,
    );
    only_refused(made)
}

/// Picks rows that are stored in one way.
#[derive(Drop)]
struct Picking<'a, K> {
    rule: PickRule,
    stored: &'a K,
}

impl<Z: Copy + Drop, K: Stored<Z>> Pairwise<Z, K> for Picking<'_, K> {
    ghost takes = { λ picking left right. IsLeftOf picking.rule (K.dtype_in picking.stored.now) left
        × IsOfKind (K.dtype_in picking.stored.now) right };

    ghost answer_of = { λ picking. picked picking.rule };

    ghost has = { λ picking answer. Unit {0} };

    fn answer<A: Allocator>(
        &self,
        left: &ScalarView<'_, A>,
        right: &ScalarView<'_, A>,
    ) -> Option<Option<Z>> {
        match self.rule {
            PickRule::FirstValid => match left {
                ScalarView::Null => Some(self.stored.of_view(right)),
                _ => Some(self.stored.of_view(left)),
            },
            PickRule::Lesser => {
                if is_lesser(left, right) {
                    Some(self.stored.of_view(left))
                } else {
                    Some(self.stored.of_view(right))
                }
            }
            PickRule::Greater => {
                if is_greater(left, right) {
                    Some(self.stored.of_view(left))
                } else {
                    Some(self.stored.of_view(right))
                }
            }
            PickRule::WhereTrue => match truth_in(left) {
                Some(true) => Some(self.stored.of_view(right)),
                _ => Some(None),
            },
            PickRule::WhereFalse => match truth_in(left) {
                Some(false) => Some(self.stored.of_view(right)),
                _ => Some(None),
            },
        }
    }
}

// Whether the left of two rows is the lesser one, or null, or equal to the right one.
fn is_lesser<A: Allocator>(left: &ScalarView<'_, A>, right: &ScalarView<'_, A>) -> bool
    ensures { (if result then sees left.now else sees right.now) ≡ lesser (sees left.now) (sees right.now) }
{
    match (left, right) {
        (ScalarView::Null, _) => true,
        (_, ScalarView::Null) => false,
        (left, right) => compare_views(left, right).is_le(),
    }
}

// Whether the left of two rows is the greater one, or null, or equal to a right one that is not null.
fn is_greater<A: Allocator>(left: &ScalarView<'_, A>, right: &ScalarView<'_, A>) -> bool
    ensures { (if result then sees left.now else sees right.now) ≡ greater (sees left.now) (sees right.now) }
{
    match (left, right) {
        (ScalarView::Null, _) => true,
        (_, ScalarView::Null) => false,
        (left, right) => compare_views(left, right).is_ge(),
    }
}
