//! Two columns of any form that an operation works row by row, and the column of the answers.
ghost use Rattle.std.specs.Prelude.{◌≡◌, All, IfErr, IfOk, IsOkUnless, IsSome, List, Option, length, map, true};
ghost use Rattle.std.specs.List.Sorted.{IsStrictlyIncreasing};
ghost use Rattle.column_base.specs.declared.dtype.Nullability.TheVariants.{NonNullable};
ghost use Rattle.column_base.specs.Types.{nullability_of};
ghost use Rattle.column_core.specs.FlatColumn.{leaf_of};
ghost use Rattle.column_core.specs.Leaf.{leaf_dtype};
ghost use Rattle.column_core.specs.Optionals.{AreBlankAtNulls};
ghost use Rattle.column_core.specs.Value.{IsLists, Value};
ghost use Rattle.column_ops.specs.Comparing.{compare_dtype, either_nullability};
ghost use Rattle.runend_array.specs.Array.{column_of, dtype_of, rows};
ghost use Rattle.runend_encode.specs.Encoding.{IsRowEncoding};
ghost use Rattle.runend_windows.specs.Cover.{IsTightCover};
ghost use Rattle.runend_pairs.specs.Answers.{rows_of_items};
ghost use Rattle.runend_pairs.specs.Faults.{AreSingle, IsZipRefusal};
ghost use Rattle.runend_pairs.specs.Operations.{both_nullability, IsNeverNull};
ghost use Rattle.runend_pairs.specs.Runs.{rows_in, AreColumnRuns};
ghost use Rattle.runend_pairs.specs.Zipped.{are_constant, is_constant, zip_rows, AllHave, IsAnswerColumn, IsOneRow};

use crate::answers::AnswerRuns;
use crate::fault::{ZipError, only_refused};
use crate::pairs::{Pairwise, zip_runs};
use crate::runs::ColumnRuns;
use crate::stored::{Stored, Truths};
use column_core::{
    DType, FlatColumn, Nullability, PrimitiveArray, Scalar, VortexError, VortexResult,
};
use runend_array::{ArrayRef, ConstantArray, RunEnd, array_of};
use runend_encode::least_ends;
use std::alloc::Allocator;

/// Says how answers are stored.
#[derive(Clone, Copy, Drop)]
pub(crate) struct AnswerForm {
    /// Counts the answers.
    pub(crate) count: usize,
    /// Says whether their type has null.
    pub(crate) nullability: Nullability,
    /// Says whether they are stored as one value.
    pub(crate) is_constant: bool,
}

/// Returns the answers of an operation for the two rows at each place. Where both columns are constants and have a row,
/// the answer is a constant, else the run column of the encoding of the answers. Refused with the first row whose
/// answer does not fit the type of the answers, and as `OutOfMemory`.
pub(crate) fn zip_columns<Z: Copy + Drop, K: Stored<Z>, O: Pairwise<Z, K>, A: Allocator + Copy>(
    alloc: A,
    left: &ArrayRef<A>,
    operation: &O,
    right: &ArrayRef<A>,
    stored: &K,
    nullability: Nullability,
) -> Result<ArrayRef<A>, ZipError>
    requires left { ¬ IsLists (dtype_of left.now) }
    requires right { ¬ IsLists (dtype_of right.now) }
    requires taken { O.takes operation.now (dtype_of left.now) (dtype_of right.now) }
    requires counted { length (rows left.now) ≡ length (rows right.now) }
    requires filled { nullability ≡ NonNullable → IsNeverNull (nullability_of (dtype_of left.now))
        (nullability_of (dtype_of right.now)) (O.answer_of operation.now) }
    ensures answers { IfOk result (λ answers. IsAnswerColumn (are_constant (column_of left.now) (column_of right.now))
        (zip_rows (O.answer_of operation.now) (rows left.now) (rows right.now))
        (K.dtype_in stored.now nullability)
        (column_of answers)) }
    ensures had { IfOk result (λ answers. AllHave (O.has operation.now)
        (zip_rows (O.answer_of operation.now) (rows left.now) (rows right.now))) }
    ensures refused { IfErr result (IsZipRefusal (O.has operation.now)
        (zip_rows (O.answer_of operation.now) (rows left.now) (rows right.now))) }
{
    let count = left.len();
    let left_runs = ColumnRuns::of(alloc, left)?;
    let right_runs = match ColumnRuns::of(alloc, right) {
        Ok(right_runs) => right_runs,
        Err(error) => {
            drop(left_runs);
            return Err(ZipError::Refused(error));
        }
    };
    let form = AnswerForm {
        count,
        nullability,
        is_constant: are_constants(left, right),
    };
    let answers = zip_shown::<Z, K, O, A>(alloc, &left_runs, operation, &right_runs, stored, form);
    drop(right_runs);
    drop(left_runs);
    answers
}

/// Returns the answers of an operation for each row of a column, given to it twice. Where the column is a constant and
/// has a row, the answer is a constant, else the run column of the encoding of the answers. Refused as `zip_columns`
/// is.
pub(crate) fn map_column<Z: Copy + Drop, K: Stored<Z>, O: Pairwise<Z, K>, A: Allocator + Copy>(
    alloc: A,
    column: &ArrayRef<A>,
    operation: &O,
    stored: &K,
    nullability: Nullability,
) -> Result<ArrayRef<A>, ZipError>
    requires single { ¬ IsLists (dtype_of column.now) }
    requires taken { O.takes operation.now (dtype_of column.now) (dtype_of column.now) }
    requires filled { nullability ≡ NonNullable → IsNeverNull (nullability_of (dtype_of column.now))
        (nullability_of (dtype_of column.now)) (O.answer_of operation.now) }
    ensures answers { IfOk result (λ answers. IsAnswerColumn (is_constant (column_of column.now))
        (zip_rows (O.answer_of operation.now) (rows column.now) (rows column.now))
        (K.dtype_in stored.now nullability)
        (column_of answers)) }
    ensures refused { IfErr result (IsZipRefusal (O.has operation.now)
        (zip_rows (O.answer_of operation.now) (rows column.now) (rows column.now))) }
{
    let count = column.len();
    let runs = ColumnRuns::of(alloc, column)?;
    let form = AnswerForm {
        count,
        nullability,
        is_constant: is_filled_constant(column),
    };
    let answers = zip_shown::<Z, K, O, A>(alloc, &runs, operation, &runs, stored, form);
    drop(runs);
    answers
}

/// Returns the answers of an operation that answers any two rows with a boolean, or with null only where a row is null.
/// Refused only as `OutOfMemory`.
pub(crate) fn zip_truths<O: Pairwise<bool, Truths>, A: Allocator + Copy>(
    alloc: A,
    left: &ArrayRef<A>,
    operation: &O,
    right: &ArrayRef<A>,
) -> VortexResult<ArrayRef<A>>
    requires single { AreSingle (dtype_of left.now) (dtype_of right.now) (length (rows left.now))
        (length (rows right.now)) }
    requires taken { O.takes operation.now (dtype_of left.now) (dtype_of right.now) }
    requires strict { (a b : Option Value) → IsSome a → IsSome b → IsSome (O.answer_of operation.now a b) }
    requires total { (answer : Option Value) → O.has operation.now answer }
    ensures only { IsOkUnless result VortexError.OutOfMemory }
    ensures answers { IfOk result (λ answers. IsAnswerColumn (are_constant (column_of left.now) (column_of right.now))
        (zip_rows (O.answer_of operation.now) (rows left.now) (rows right.now))
        (compare_dtype (dtype_of left.now) (dtype_of right.now)) (column_of answers)) }
{
    let nullability = either_null(left.dtype(), right.dtype());
    let made = zip_columns::<bool, Truths, O, A>(
        alloc,
        left,
        operation,
        right,
        &Truths,
        nullability,
    );
    only_refused(made)
}

/// Returns the answers of an operation that answers any row, given to it twice, with a boolean of a type with null or
/// without. Refused only as `OutOfMemory`.
pub(crate) fn map_truths<O: Pairwise<bool, Truths>, A: Allocator + Copy>(
    alloc: A,
    column: &ArrayRef<A>,
    operation: &O,
    nullability: Nullability,
) -> VortexResult<ArrayRef<A>>
    requires single { ¬ IsLists (dtype_of column.now) }
    requires taken { O.takes operation.now (dtype_of column.now) (dtype_of column.now) }
    requires filled { nullability ≡ NonNullable → IsNeverNull (nullability_of (dtype_of column.now))
        (nullability_of (dtype_of column.now)) (O.answer_of operation.now) }
    requires total { (answer : Option Value) → O.has operation.now answer }
    ensures only { IsOkUnless result VortexError.OutOfMemory }
    ensures answers { IfOk result (λ answers. IsAnswerColumn (is_constant (column_of column.now))
        (zip_rows (O.answer_of operation.now) (rows column.now) (rows column.now)) (DType.Bool nullability)
        (column_of answers)) }
{
    let made = map_column::<bool, Truths, O, A>(alloc, column, operation, &Truths, nullability);
    only_refused(made)
}

// The answers of an operation for the two rows at each place, for rows in runs.
fn zip_shown<Z: Copy + Drop, K: Stored<Z>, O: Pairwise<Z, K>, A: Allocator + Copy>(
    alloc: A,
    left: &ColumnRuns<A>,
    operation: &O,
    right: &ColumnRuns<A>,
    stored: &K,
    form: AnswerForm,
) -> Result<ArrayRef<A>, ZipError>
    requires left { AreColumnRuns left.now.ends left.now.offset (leaf_of left.now.values) form.count }
    requires right { AreColumnRuns right.now.ends right.now.offset (leaf_of right.now.values) form.count }
    requires taken { O.takes operation.now (leaf_dtype (leaf_of left.now.values))
        (leaf_dtype (leaf_of right.now.values)) }
    requires filled { form.nullability ≡ NonNullable →
        IsNeverNull (nullability_of (leaf_dtype (leaf_of left.now.values)))
        (nullability_of (leaf_dtype (leaf_of right.now.values))) (O.answer_of operation.now) }
    requires one { form.is_constant ≡ true → IsOneRow form.count (zip_rows (O.answer_of operation.now)
        (rows_in left.now.ends left.now.offset (leaf_of left.now.values) form.count)
        (rows_in right.now.ends right.now.offset (leaf_of right.now.values) form.count)) }
    ensures answers { IfOk result (λ answers. IsAnswerColumn form.is_constant (zip_rows (O.answer_of operation.now)
        (rows_in left.now.ends left.now.offset (leaf_of left.now.values) form.count)
        (rows_in right.now.ends right.now.offset (leaf_of right.now.values) form.count))
        (K.dtype_in stored.now form.nullability) (column_of answers)) }
    ensures had { IfOk result (λ answers. AllHave (O.has operation.now) (zip_rows (O.answer_of operation.now)
        (rows_in left.now.ends left.now.offset (leaf_of left.now.values) form.count)
        (rows_in right.now.ends right.now.offset (leaf_of right.now.values) form.count))) }
    ensures refused { IfErr result (IsZipRefusal (O.has operation.now) (zip_rows (O.answer_of operation.now)
        (rows_in left.now.ends left.now.offset (leaf_of left.now.values) form.count)
        (rows_in right.now.ends right.now.offset (leaf_of right.now.values) form.count))) }
{
    let runs = zip_runs::<Z, K, O, A>(alloc, left, operation, right, form.count)?;
    let (ends, values) = encoding_of::<Z, K, A>(alloc, runs, stored, form.nullability)?;
    let answers = column_over(alloc, ends, values, form.count, form.is_constant)?;
    Ok(answers)
}

/// Returns the nullability of answers that have null where either column has it.
pub(crate) fn either_null(left: DType, right: DType) -> Nullability
    ensures { result ≡ either_nullability (nullability_of left) (nullability_of right) }
{
    match left.nullability() {
        Nullability::NonNullable => right.nullability(),
        Nullability::Nullable => Nullability::Nullable,
    }
}

/// Returns the nullability of answers that have null only where both columns have it.
pub(crate) fn both_null(left: DType, right: DType) -> Nullability
    ensures { result ≡ both_nullability (nullability_of left) (nullability_of right) }
{
    match left.nullability() {
        Nullability::NonNullable => Nullability::NonNullable,
        Nullability::Nullable => right.nullability(),
    }
}

// Whether both columns are constants that have a row.
fn are_constants<A: Allocator + Copy>(left: &ArrayRef<A>, right: &ArrayRef<A>) -> bool
    ensures { result ≡ are_constant (column_of left.now) (column_of right.now) }
{
    is_filled_constant(left) && is_filled_constant(right)
}

// Whether a column is a constant that has a row.
fn is_filled_constant<A: Allocator + Copy>(array: &ArrayRef<A>) -> bool
    ensures { result ≡ is_constant (column_of array.now) }
{
    match array {
        ArrayRef::Constant(constant) => constant.len() != 0,
        _ => false,
    }
}

// The ends and the values of the encoding that these runs are. Refused only as `OutOfMemory`.
fn encoding_of<Z: Copy + Drop, K: Stored<Z>, A: Allocator + Copy>(
    alloc: A,
    runs: AnswerRuns<Z, A>,
    stored: &K,
    nullability: Nullability,
) -> VortexResult<(PrimitiveArray<A>, FlatColumn<A>)>
    requires increasing { IsStrictlyIncreasing runs.ends.items }
    requires paired { length runs.flags ≡ length runs.items.items }
    requires blank { AreBlankAtNulls K.blank_value (map K.shown runs.items.items) runs.flags }
    requires filled { nullability ≡ NonNullable → All (λ flag. flag ≡ true) runs.flags }
    ensures only { IsOkUnless result VortexError.OutOfMemory }
    ensures encoding { (rows : List (Option Value)) → IsTightCover rows runs.ends.items
        (rows_of_items K.shown runs.items.items runs.flags) → IfOk result (λ parts.
        IsRowEncoding rows (K.dtype_in stored.now nullability) parts.0 (leaf_of parts.1)) }
{
    let AnswerRuns {
        ends,
        items,
        flags,
        last: _,
        reached: _,
    } = runs;
    let least = least_ends(alloc, ends.as_slice());
    drop(ends);
    let ends = match least {
        Ok(ends) => ends,
        Err(error) => {
            drop(flags);
            drop(items);
            return Err(error);
        }
    };
    let values = match stored.column(alloc, items, flags.freeze(), nullability) {
        Ok(values) => values,
        Err(error) => {
            drop(ends);
            return Err(error);
        }
    };
    Ok((ends, values))
}

// The column that these ends and values encode: a constant if `constant` asks for it, which needs a row and all rows
// equal, else the run column. Refused only as `OutOfMemory`.
fn column_over<A: Allocator + Copy>(
    alloc: A,
    ends: PrimitiveArray<A>,
    values: FlatColumn<A>,
    count: usize,
    constant: bool,
) -> VortexResult<ArrayRef<A>>
    requires single { ¬ IsLists (leaf_dtype (leaf_of values)) }
    requires encoding { IsRowEncoding (rows_in ends 0 (leaf_of values) count) (leaf_dtype (leaf_of values))
        ends (leaf_of values) }
    requires one { constant ≡ true → IsOneRow count (rows_in ends 0 (leaf_of values) count) }
    ensures only { IsOkUnless result VortexError.OutOfMemory }
    ensures column { IfOk result (λ answers. IsAnswerColumn constant (rows_in ends 0 (leaf_of values) count)
        (leaf_dtype (leaf_of values)) (column_of answers)) }
{
    if constant {
        let scalar = Scalar::of_view(alloc, values.dtype(), values.get(0));
        drop(values);
        drop(ends);
        let scalar = scalar?;
        return Ok(ArrayRef::Constant(ConstantArray::new(scalar, count)));
    }
    let runs = RunEnd::new_unchecked(ArrayRef::Primitive(ends), array_of(values), 0, count);
    let answers = ArrayRef::of_runs(alloc, runs)?;
    Ok(answers)
}
