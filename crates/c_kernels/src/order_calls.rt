//! The calls on the columns of handles that put rows in another order, or count them.
ghost use Rattle.std.specs.Prelude.{◌≡◌, ◌≢◌, [], IfErr, IfOk, Some, pos};
ghost use Rattle.typed_columns.specs.Typed.{format_of};
ghost use Rattle.c_columns.specs.Ending.{IsRefusedAs, WhereAll, WhereBoth};
ghost use Rattle.c_columns.specs.Handle.{array_in, format_in};
ghost use Rattle.c_kernels.specs.Ordered.{AreCounted, AreReversed, AreSorted, EndsOnOrder};

use crate::counted::{BoxedCounts, count_values};
use crate::reordered::{reversed, sorted};
use c_columns::commands::answer;
use c_columns::error_fields::{ErrorFields, NO_COLUMN, refuse};
use c_columns::handle::Handle;
use column_core::VortexResult;
use std::alloc::Global;

/// Puts the rows of the column of a handle in reverse order into another handle, and returns 0. Else returns the number
/// of an error, and leaves that handle: 22 for an empty handle, else as `reversed` is refused.
#[tactic(auto, using(crate::proofs::OrderEndings::order_empty, crate::proofs::OrderEndings::order_ends, crate::proofs::FloatEndings::column_made))]
pub fn reverse_handle(
    alloc: Global,
    column: &mut Handle,
    out: &mut Handle,
    error: &mut ErrorFields,
) -> i32
    ensures same { column.new.column ≡ column.old.column }
    ensures made { result ≡ pos 0 → WhereBoth AreReversed (array_in column.old.column) (array_in out.new.column) }
    ensures typed { result ≡ pos 0 → format_in out.new.column ≡ format_in column.old.column }
    ensures kept { result ≢ pos 0 → out.new.column ≡ out.old.column }
    ensures ended { EndsOnOrder (array_in column.old.column) result error.new }
{
    let Some(held) = column.take(alloc) else {
        return NO_COLUMN;
    };
    let outcome = reversed(alloc, &held);
    column.put(held);
    answer(outcome, out, error)
}

/// Puts the rows of the column of a handle in order into another handle, and returns 0. Else returns the number of an
/// error, and leaves that handle: 22 for an empty handle, else as `sorted` is refused.
#[tactic(auto, using(crate::proofs::OrderEndings::order_empty, crate::proofs::OrderEndings::order_ends, crate::proofs::FloatEndings::column_made))]
pub fn sort_handle(
    alloc: Global,
    column: &mut Handle,
    out: &mut Handle,
    error: &mut ErrorFields,
) -> i32
    ensures same { column.new.column ≡ column.old.column }
    ensures made { result ≡ pos 0 → WhereBoth AreSorted (array_in column.old.column) (array_in out.new.column) }
    ensures typed { result ≡ pos 0 → format_in out.new.column ≡ format_in column.old.column }
    ensures kept { result ≢ pos 0 → out.new.column ≡ out.old.column }
    ensures ended { EndsOnOrder (array_in column.old.column) result error.new }
{
    let Some(held) = column.take(alloc) else {
        return NO_COLUMN;
    };
    let outcome = sorted(alloc, &held);
    column.put(held);
    answer(outcome, out, error)
}

/// Puts the distinct rows of the column of a handle into one handle, how many rows are equal to each into another, and
/// returns 0. Else returns the number of an error, and leaves both: 22 for an empty handle, else as `count_values` is
/// refused.
#[tactic(auto, using(crate::proofs::OrderEndings::order_empty, crate::proofs::OrderEndings::counts_ends, crate::proofs::OrderEndings::counts_made))]
pub fn count_handle(
    alloc: Global,
    column: &mut Handle,
    out_values: &mut Handle,
    out_counts: &mut Handle,
    error: &mut ErrorFields,
) -> i32
    ensures same { column.new.column ≡ column.old.column }
    ensures made { result ≡ pos 0 →
        WhereAll AreCounted (array_in column.old.column) (array_in out_values.new.column)
        (array_in out_counts.new.column) }
    ensures typed { result ≡ pos 0 → format_in out_values.new.column ≡ format_in column.old.column }
    ensures untyped { result ≡ pos 0 → format_in out_counts.new.column ≡ [] }
    ensures kept { result ≢ pos 0 → out_values.new.column ≡ out_values.old.column }
    ensures kept_counts { result ≢ pos 0 → out_counts.new.column ≡ out_counts.old.column }
    ensures ended { EndsOnOrder (array_in column.old.column) result error.new }
{
    let Some(held) = column.take(alloc) else {
        return NO_COLUMN;
    };
    let outcome = count_values(alloc, &held);
    column.put(held);
    put_counts(outcome, out_values, out_counts, error)
}

// Puts both columns into their handles and returns 0, or returns the number of an error and writes its fields.
#[tactic(auto, using(c_columns::proofs::Held::array_some, c_columns::proofs::Held::format_some))]
fn put_counts(
    outcome: VortexResult<BoxedCounts>,
    out_values: &mut Handle,
    out_counts: &mut Handle,
    error: &mut ErrorFields,
) -> i32
    ensures ok { IfOk outcome (λ made. (result ≡ pos 0) × (out_values.new.column ≡ Some made.values.value)
        × (out_counts.new.column ≡ Some made.counts.value)) }
    ensures arrays { IfOk outcome (λ made. (array_in out_values.new.column ≡ Some made.values.value.array)
        × (array_in out_counts.new.column ≡ Some made.counts.value.array)) }
    ensures formats { IfOk outcome (λ made. (format_in out_values.new.column ≡ format_of made.values.value)
        × (format_in out_counts.new.column ≡ format_of made.counts.value)) }
    ensures err { IfErr outcome (λ why. (result ≢ pos 0) × IsRefusedAs why result error.new
        × (out_values.new.column ≡ out_values.old.column) × (out_counts.new.column ≡ out_counts.old.column)) }
{
    match outcome {
        Ok(made) => {
            out_values.put(made.values);
            out_counts.put(made.counts);
            0
        }
        Err(why) => refuse(why, error),
    }
}
