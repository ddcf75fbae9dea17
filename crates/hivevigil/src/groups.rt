//! The calls that answer by runs of equal rows: of another column, and of the column itself.
ghost use Rattle.std.specs.Prelude.{◌≡◌, ◌≢◌, [], IsSomeAnd, MatchOption, pos};
ghost use Rattle.c_columns.specs.Ending.{WhereAll};
ghost use Rattle.c_columns.specs.Handle.{array_in, format_in};
ghost use Rattle.c_kernels.specs.Grouped.{answer_format, fold_numbered, AreMade, EndsOnGroups};
ghost use Rattle.c_kernels.specs.Totals.{AreTotals, EndsOnTotals};

use c_columns::error_fields::ErrorFields;
use c_columns::handle::Handle;
use c_kernels::{fold_handles, totals_handle};
use std::alloc::Global;

/// Makes the keys of the groups of rows with equal neighbouring keys, and what the fold of this number answers of the
/// values in each, both flat. Refused as `Unsupported` where keys are lists or values are not integers, then as
/// `ColumnLength`; with 14 and the group for a sum that does not fit 64 bits. Returns 23 for a number of no fold.
#[unsafe(no_mangle)]
pub extern "C" fn hv_fold_by(
    alloc: Global,
    keys: &mut Handle,
    values: &mut Handle,
    fold: u8,
    out_keys: &mut Handle,
    out_answers: &mut Handle,
    error: &mut ErrorFields,
) -> i32
    ensures same { keys.new.column ≡ keys.old.column }
    ensures same_values { values.new.column ≡ values.old.column }
    ensures made { result ≡ pos 0 → IsSomeAnd (fold_numbered fold)
        (λ fold. AreMade fold (array_in keys.old.column) (array_in values.old.column) (array_in out_keys.new.column)
        (array_in out_answers.new.column)) }
    ensures typed { result ≡ pos 0 → format_in out_keys.new.column ≡ format_in keys.old.column }
    ensures typed_answers { result ≡ pos 0 → IsSomeAnd (fold_numbered fold)
        (λ fold. format_in out_answers.new.column ≡ answer_format fold (format_in values.old.column)) }
    ensures kept { result ≢ pos 0 → out_keys.new.column ≡ out_keys.old.column }
    ensures kept_answers { result ≢ pos 0 → out_answers.new.column ≡ out_answers.old.column }
    ensures ended { MatchOption (fold_numbered fold) (result ≡ pos 23)
        (λ fold. EndsOnGroups fold (array_in keys.old.column) (array_in values.old.column) result error.new) }
{
    fold_handles(alloc, keys, values, fold, out_keys, out_answers, error)
}

/// Makes the ends of the runs of equal neighbouring rows, and the sum of all rows before each end, in `i64` or `u64`,
/// null where all of them are null, both flat. Refused as `Unsupported` where the rows are not integers, and then never
/// for memory; with 14 and the run for the first total that does not fit 64 bits. Returns 22 for an empty handle.
#[unsafe(no_mangle)]
pub extern "C" fn hv_running_totals(
    alloc: Global,
    column: &mut Handle,
    out_ends: &mut Handle,
    out_totals: &mut Handle,
    error: &mut ErrorFields,
) -> i32
    ensures same { column.new.column ≡ column.old.column }
    ensures made { result ≡ pos 0 →
        WhereAll AreTotals (array_in column.old.column) (array_in out_ends.new.column)
        (array_in out_totals.new.column) }
    ensures untyped { result ≡ pos 0 → format_in out_ends.new.column ≡ [] }
    ensures untyped_totals { result ≡ pos 0 → format_in out_totals.new.column ≡ [] }
    ensures kept { result ≢ pos 0 → out_ends.new.column ≡ out_ends.old.column }
    ensures kept_totals { result ≢ pos 0 → out_totals.new.column ≡ out_totals.old.column }
    ensures ended { EndsOnTotals (array_in column.old.column) result error.new }
{
    totals_handle(alloc, column, out_ends, out_totals, error)
}
