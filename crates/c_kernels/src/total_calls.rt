//! The running totals of the column of a handle.
ghost use Rattle.std.specs.Prelude.{◌≡◌, ◌≢◌, [], IfErr, IfOk, Some, pos};
ghost use Rattle.typed_columns.specs.Typed.{format_of};
ghost use Rattle.c_columns.specs.Ending.{WhereAll};
ghost use Rattle.c_columns.specs.Handle.{array_in, format_in};
ghost use Rattle.c_kernels.specs.Totals.{AreTotals, EndsOnTotals, IsTotalError};

use crate::totals::{BoxedTotals, totals_of};
use c_columns::error_fields::{ErrorFields, NO_COLUMN, refuse};
use c_columns::handle::Handle;
use column_core::VortexError;
use runend_pairs::TotalError;
use std::alloc::Global;

/// Puts the ends of the runs of the column of a handle into one handle, the sum of all rows before each end into
/// another, and returns 0. Else returns the number of an error, and leaves both: 22 for an empty handle, then as
/// `totals_of` is refused, with 14 and the run in the first field for a total that does not fit 64 bits.
#[tactic(auto, using(crate::proofs::TotalEndings::empty, crate::proofs::TotalEndings::totals_ends, crate::proofs::TotalEndings::totals_made))]
pub fn totals_handle(
    alloc: Global,
    column: &mut Handle,
    out_ends: &mut Handle,
    out_totals: &mut Handle,
    error: &mut ErrorFields,
) -> i32
    ensures same { column.new.column ≡ column.old.column }
    ensures made { result ≡ pos 0 →
        WhereAll AreTotals (array_in column.old.column) (array_in out_ends.new.column)
        (array_in out_totals.new.column) }
    ensures untyped { result ≡ pos 0 → format_in out_ends.new.column ≡ [] }
    ensures untyped_totals { result ≡ pos 0 → format_in out_totals.new.column ≡ [] }
    ensures kept { result ≢ pos 0 → out_ends.new.column ≡ out_ends.old.column }
    ensures kept_totals { result ≢ pos 0 → out_totals.new.column ≡ out_totals.old.column }
    ensures ended { EndsOnTotals (array_in column.old.column) result error.new }
{
    let Some(held) = column.take(alloc) else {
        return NO_COLUMN;
    };
    let outcome = totals_of(alloc, &held.array);
    column.put(held);
    put_totals(outcome, out_ends, out_totals, error)
}

// Puts both columns into their handles and returns 0, or returns the number of a refusal and writes its fields.
#[tactic(auto, using(c_columns::proofs::Held::array_some, c_columns::proofs::Held::format_some))]
fn put_totals(
    outcome: Result<BoxedTotals, TotalError>,
    out_ends: &mut Handle,
    out_totals: &mut Handle,
    error: &mut ErrorFields,
) -> i32
    ensures ok { IfOk outcome (λ made. (result ≡ pos 0) × (out_ends.new.column ≡ Some made.ends.value)
        × (out_totals.new.column ≡ Some made.totals.value)) }
    ensures arrays { IfOk outcome (λ made. (array_in out_ends.new.column ≡ Some made.ends.value.array)
        × (array_in out_totals.new.column ≡ Some made.totals.value.array)) }
    ensures formats { IfOk outcome (λ made. (format_in out_ends.new.column ≡ format_of made.ends.value)
        × (format_in out_totals.new.column ≡ format_of made.totals.value)) }
    ensures err { IfErr outcome (λ why. (result ≢ pos 0) × IsTotalError why result error.new
        × (out_ends.new.column ≡ out_ends.old.column) × (out_totals.new.column ≡ out_totals.old.column)) }
{
    match outcome {
        Ok(made) => {
            out_ends.put(made.ends);
            out_totals.put(made.totals);
            0
        }
        Err(TotalError::Refused(why)) => refuse(why, error),
        Err(TotalError::Overflow { run }) => {
            *error = ErrorFields {
                first: run as u64,
                second: 0,
                third: 0,
            };
            i32::from(VortexError::CastOutOfRange.number())
        }
    }
}
