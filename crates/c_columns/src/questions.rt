//! Questions about a column, which copy none of it.
ghost use Rattle.std.specs.Prelude.{◌≡◌, ◌≢◌, length, None, Some, Err, IfOk, IfErr, OnErr};
ghost use Rattle.std.specs.Global.{Global};
ghost use Rattle.column_core.specs.Refusal.{IsRefusedBy};
ghost use Rattle.column_ops.specs.OrderFacts as order;
ghost use Rattle.runend_array.specs.Array.{column_of, dtype_of, rows};
ghost use Rattle.runend_array.specs.declared.session.Kernel.TheVariants as kernel;
ghost use Rattle.runend_commands.specs.declared.command.Command.TheVariants.{At, MinMax, IsConstant, IsSorted};
ghost use Rattle.runend_commands.specs.Meaning.{plain};
ghost use Rattle.column_core.specs.Kinds.{list_fault};
ghost use Rattle.runend_commands.specs.Refusal.{refusal};
ghost use Rattle.c_columns.specs.Flags.{Tells, byte_of as byte_of_truth};
ghost use Rattle.c_columns.specs.Sessions.{IsReadInPlaceIn};
ghost use Rattle.runend_commands.specs.Extremes.{HasBytes};
ghost use Rattle.c_columns.specs.Values.{IsExtremeOf, IsShownAt, side_in};
ghost use Rattle.c_columns.specs.Ending.{IsExtremeFault, IsLookUpFault};

use crate::row_value::{self, RowValue, row_value_of};
use crate::sessions::{Session, context};
use column_core::{DType, VortexError, VortexResult, fault_of_lists};
use runend_array::ArrayRef;
use runend_commands::compute;
use std::alloc::Global;
use std::cmp::Ordering;

/// Returns whether all rows are equal, as a byte. Refused as the command is, and never for memory where the rows are
/// read in place.
#[tactic(auto, using(crate::proofs::Left::tells_of))]
pub fn is_constant(alloc: Global, session: &Session, array: &ArrayRef<Global>) -> VortexResult<u8>
    ensures told { IfOk result (λ truth. Tells truth (order.IsConstant (rows array.now))) }
    ensures refused { IsRefusedBy (refusal {A = Global} (plain array.now) IsConstant) result }
    ensures memory { IsReadInPlaceIn session.now kernel.IsConstant (column_of array.now)
        → result ≢ Err VortexError.OutOfMemory }
{
    let mut ctx = context(alloc, session);
    let truth = compute::is_constant(array, &mut ctx)?;
    Ok(byte_of(truth))
}

/// Returns whether the rows are sorted, as a byte. Refused as the command is, and never for memory where the
/// rows are read in place.
#[tactic(auto, using(crate::proofs::Left::tells_of))]
pub fn is_sorted(
    alloc: Global,
    session: &Session,
    array: &ArrayRef<Global>,
    strict: bool,
) -> VortexResult<u8>
    ensures told { IfOk result (λ truth. Tells truth (order.IsSorted strict (rows array.now))) }
    ensures refused { IsRefusedBy (refusal {A = Global} (plain array.now) (IsSorted strict)) result }
    ensures memory { IsReadInPlaceIn session.now kernel.IsSorted (column_of array.now)
        → result ≢ Err VortexError.OutOfMemory }
{
    let mut ctx = context(alloc, session);
    let truth = compute::is_sorted(array, strict, &mut ctx)?;
    Ok(byte_of(truth))
}

/// Returns the least or the greatest row that is not null, or null where all are. A text or bytes go to the front of
/// `text`. Refused as the command is, and as `row_value_of` is; except for texts and bytes never for memory where the
/// rows are read in place.
#[tactic(auto, using(crate::proofs::Extremes::refused_extreme, crate::proofs::Told::extreme_short, crate::proofs::Told::none_told))]
pub fn extreme_of(
    alloc: Global,
    session: &Session,
    array: &ArrayRef<Global>,
    greatest: bool,
    text: &mut [u8],
) -> VortexResult<RowValue>
    ensures told { IfOk result (λ value. IsExtremeOf greatest (plain array.now) text.new value) }
    ensures accepted { IfOk result (λ _. refusal {A = Global} (plain array.now) MinMax ≡ None) }
    ensures refused { IfErr result (λ error. IsExtremeFault greatest (plain array.now) (length text.old) error) }
    ensures kept { OnErr result (text.new ≡ text.old) }
    ensures len { length text.new ≡ length text.old }
    ensures memory { ¬ HasBytes (dtype_of array.now) → IsReadInPlaceIn session.now kernel.MinMax (column_of array.now)
        → result ≢ Err VortexError.OutOfMemory }
{
    let mut ctx = context(alloc, session);
    match compute::extreme(array, side_of(greatest), &mut ctx)? {
        Some(scalar) => {
            let found = row_value_of(scalar.view(), text);
            drop(scalar);
            found
        }
        None => Ok(row_value::null()),
    }
}

// The side that the greatest row is furthest to, or the least.
fn side_of(greatest: bool) -> Ordering
    ensures { result ≡ side_in greatest }
{
    if greatest {
        Ordering::Greater
    } else {
        Ordering::Less
    }
}

/// Returns the row at `row`, which takes no memory. A text or bytes go to the front of `text`. Refused as the look-up
/// of a row is, and then as `row_value_of` is.
#[tactic(auto, using(crate::proofs::LookUps::refused_lists, crate::proofs::LookUps::outside_fault, crate::proofs::LookUps::room_fault, crate::proofs::LookUps::no_fault, crate::proofs::Told::row_told))]
pub fn row_at(array: &ArrayRef<Global>, row: usize, text: &mut [u8]) -> VortexResult<RowValue>
    ensures shown { IfOk result (λ value. IsShownAt row array.now text.new value) }
    ensures accepted { IfOk result (λ _. refusal {A = Global} (plain array.now) (At row) ≡ None) }
    ensures refused { IfErr result (λ error. IsLookUpFault (plain array.now) row (length text.old) error) }
    ensures kept { OnErr result (text.new ≡ text.old) }
    ensures len { length text.new ≡ length text.old }
{
    check_no_lists(array.dtype())?;
    let view = array.scalar_at(row)?;
    row_value_of(view, text)
}

// Refused as `Unsupported` for lists.
fn check_no_lists(dtype: DType) -> VortexResult<()>
    ensures ok { IfOk result (λ _. list_fault dtype ≡ None) }
    ensures err { IfErr result (λ error. list_fault dtype ≡ Some error) }
{
    match fault_of_lists(dtype) {
        Some(error) => Err(error),
        None => Ok(()),
    }
}

/// Returns 1 for true, 0 for false.
pub(crate) fn byte_of(truth: bool) -> u8
    ensures { result ≡ byte_of_truth truth }
{
    truth as u8
}
