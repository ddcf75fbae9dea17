//! Why answers are refused.
ghost use Rattle.std.specs.Prelude.{◌≡◌, IfErr, IsOkUnless, Ok};
ghost use Rattle.column_ops.specs.CompareFault.{length_fault};
ghost use Rattle.runend_pairs.specs.Faults.{boolean_fault, choice_fault, is_picked, is_truths, numeric_fault, pick_fault, truth_fault};
ghost use Rattle.runend_pairs.specs.declared.fault.ZipError.TheVariants.{Refused};

use column_core::{DType, VortexError, VortexResult, is_number_type, is_same_kind};
use thiserror::Error;

/// Says why answers are refused. Rows are counted from 0.
#[derive(Clone, Copy, Debug, Drop, PartialEq, Eq, Error)]
pub enum ZipError {
    /// Says that the columns do not go together, or that a growth of memory was refused.
    #[error("refused")]
    Refused(VortexError),
    /// Has the first row whose answer does not fit the type of the answers.
    #[error("Overflow")]
    Overflow { row: usize },
}

impl From<VortexError> for ZipError {
    ghost from_gives = { λ error given. given ≡ Refused error };

    fn from(error: VortexError) -> ZipError {
        ZipError::Refused(error)
    }
}

/// Returns why two columns of these types and numbers of rows are not added, subtracted or multiplied: `Unsupported`
/// where either is not of integers, `TypeMismatch` where they are of two native types, then `ColumnLength` where they
/// differ in rows.
pub(crate) fn fault_of_numeric(
    left: DType,
    right: DType,
    left_count: usize,
    right_count: usize,
) -> Option<VortexError>
    ensures { result ≡ numeric_fault left right left_count right_count }
{
    if !(is_number_type(left) && is_number_type(right)) {
        return Some(VortexError::Unsupported);
    }
    if !is_same_kind(left, right) {
        return Some(VortexError::TypeMismatch);
    }
    fault_of_lengths(left_count, right_count)
}

/// Returns why two columns of these types and numbers of rows are not connected: `Unsupported` where either is not of
/// booleans, then `ColumnLength` where they differ in rows.
pub(crate) fn fault_of_boolean(
    left: DType,
    right: DType,
    left_count: usize,
    right_count: usize,
) -> Option<VortexError>
    ensures { result ≡ boolean_fault left right left_count right_count }
{
    if !(is_truth_type(left) && is_truth_type(right)) {
        return Some(VortexError::Unsupported);
    }
    fault_of_lengths(left_count, right_count)
}

/// Returns why rows are not picked from two columns of these types and numbers of rows: `Unsupported` where either is
/// not of integers, decimals or booleans, `TypeMismatch` where their types differ, then `ColumnLength` where they
/// differ in rows.
pub(crate) fn fault_of_pick(
    left: DType,
    right: DType,
    left_count: usize,
    right_count: usize,
) -> Option<VortexError>
    ensures { result ≡ pick_fault left right left_count right_count }
{
    if !(is_picked_type(left) && is_picked_type(right)) {
        return Some(VortexError::Unsupported);
    }
    if !is_same_kind(left, right) {
        return Some(VortexError::TypeMismatch);
    }
    fault_of_lengths(left_count, right_count)
}

/// Returns why a mask does not choose rows of two columns, given the types and the numbers of rows of the mask, the
/// left and the right column: `Unsupported` where the mask is not of booleans, then what `fault_of_pick` returns for
/// the columns, then `ColumnLength` where the mask and the left column differ in rows.
pub(crate) fn fault_of_choice(
    types: (DType, DType, DType),
    counts: (usize, usize, usize),
) -> Option<VortexError>
    ensures { result ≡ choice_fault types.0 types.1 types.2 counts.0 counts.1 counts.2 }
{
    if !is_truth_type(types.0) {
        return Some(VortexError::Unsupported);
    }
    if let Some(error) = fault_of_pick(types.1, types.2, counts.1, counts.2) {
        return Some(error);
    }
    fault_of_lengths(counts.0, counts.1)
}

// Whether it is a type of integers, decimals or booleans.
fn is_picked_type(dtype: DType) -> bool
    ensures { result ≡ is_picked dtype }
{
    match dtype {
        DType::Primitive(_, _) | DType::Decimal(_, _) | DType::Bool(_) => true,
        DType::Utf8(_) | DType::Binary(_) | DType::List(_, _) => false,
    }
}

/// Returns `Unsupported` where a column is not of booleans.
pub(crate) fn fault_of_truths(dtype: DType) -> Option<VortexError>
    ensures { result ≡ truth_fault dtype }
{
    if is_truth_type(dtype) {
        None
    } else {
        Some(VortexError::Unsupported)
    }
}

// Whether it is the type of booleans.
fn is_truth_type(dtype: DType) -> bool
    ensures { result ≡ is_truths dtype }
{
    match dtype {
        DType::Bool(_) => true,
        _ => false,
    }
}

/// Returns `ColumnLength` where two numbers of rows differ.
pub(crate) fn fault_of_lengths(left: usize, right: usize) -> Option<VortexError>
    ensures { result ≡ length_fault left right }
{
    if left == right {
        None
    } else {
        Some(VortexError::ColumnLength { left, right })
    }
}

/// Returns an answer that is not refused for a row.
pub(crate) fn only_refused<T: Drop>(answer: Result<T, ZipError>) -> VortexResult<T>
    requires { IfErr answer (λ error. error ≡ Refused VortexError.OutOfMemory) }
    ensures only { IsOkUnless result VortexError.OutOfMemory }
    ensures same { (value : T) → result ≡ Ok value → answer ≡ Ok value }
{
    match answer {
        Ok(value) => Ok(value),
        Err(ZipError::Refused(error)) => Err(error),
        Err(ZipError::Overflow { .. }) => unreachable!(),
    }
}
