//! Running totals of a column, on the heap.
ghost use Rattle.std.specs.Prelude.{◌≡◌, [], Err, Some, IfErr, IfOk};
ghost use Rattle.runend_array.specs.Array.{dtype_of, rows};
ghost use Rattle.runend_pairs.specs.GroupFaults.{numbers_fault};
ghost use Rattle.runend_pairs.specs.Totals.{IsTotalRefusal};
ghost use Rattle.typed_columns.specs.Typed.{format_of};
ghost use Rattle.c_kernels.specs.Totals.{AreTotals};

use c_columns::flat::{Boxed, boxed};
use c_columns::sessions::plain_context;
use column_core::VortexError;
use runend_array::ArrayRef;
use runend_pairs::{RunningTotals, TotalError, running_totals};
use std::alloc::Global;

/// Holds the ends of runs and the total at the end of each, as two columns on the heap.
#[derive(Drop)]
pub struct BoxedTotals {
    pub ends: Boxed,
    pub totals: Boxed,
}

/// Returns where each run of equal neighbouring rows ends, and the sum of all rows before its end, both flat. Refused
/// as `running_totals` refuses: with `Unsupported` before any memory is taken.
pub fn totals_of(alloc: Global, array: &ArrayRef<Global>) -> Result<BoxedTotals, TotalError>
    ensures made { IfOk result (λ made. AreTotals array.now made.ends.value.array made.totals.value.array) }
    ensures untyped { IfOk result (λ made. format_of made.ends.value ≡ []) }
    ensures untyped_totals { IfOk result (λ made. format_of made.totals.value ≡ []) }
    ensures refused { IfErr result (IsTotalRefusal (dtype_of array.now) (rows array.now)) }
    ensures first { (error : VortexError) → numbers_fault (dtype_of array.now) ≡ Some error →
        result ≡ Err (TotalError.Refused error) }
{
    let RunningTotals { ends, totals } = running_totals(array, &mut plain_context(alloc))?;
    let ends = match boxed(alloc, ArrayRef::Primitive(ends)) {
        Ok(ends) => ends,
        Err(error) => {
            drop(totals);
            return Err(TotalError::Refused(error));
        }
    };
    let totals = match boxed(alloc, ArrayRef::Primitive(totals)) {
        Ok(totals) => totals,
        Err(error) => {
            drop(ends);
            return Err(TotalError::Refused(error));
        }
    };
    Ok(BoxedTotals { ends, totals })
}
