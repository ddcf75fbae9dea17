//! Calls that put the rows of a column in another order, and count them by value.
ghost use Rattle.std.specs.Prelude.{◌≡◌, ◌≢◌, [], pos};
ghost use Rattle.c_columns.specs.Ending.{WhereAll, WhereBoth};
ghost use Rattle.c_columns.specs.Handle.{array_in, format_in};
ghost use Rattle.c_kernels.specs.Ordered.{AreCounted, AreReversed, AreSorted, EndsOnOrder};

use c_columns::error_fields::ErrorFields;
use c_columns::handle::Handle;
use c_kernels::{count_handle, reverse_handle, sort_handle};
use std::alloc::Global;

/// Makes the rows in reverse order, of any type but lists: a constant stays one, and any other column becomes runs, as
/// few as possible. Refused as `Unsupported` exactly for lists, before any memory is taken.
#[unsafe(no_mangle)]
pub extern "C" fn hv_reverse(
    alloc: Global,
    column: &mut Handle,
    out: &mut Handle,
    error: &mut ErrorFields,
) -> i32
    ensures same { column.new.column ≡ column.old.column }
    ensures made { result ≡ pos 0 → WhereBoth AreReversed (array_in column.old.column) (array_in out.new.column) }
    ensures typed { result ≡ pos 0 → format_in out.new.column ≡ format_in column.old.column }
    ensures kept { result ≢ pos 0 → out.new.column ≡ out.old.column }
    ensures ended { EndsOnOrder (array_in column.old.column) result error.new }
{
    reverse_handle(alloc, column, out, error)
}

/// Makes the rows in order, null first, of any type but lists: a constant stays one, and any other column becomes runs,
/// one for each distinct row. Refused as `Unsupported` exactly for lists, before any memory is taken.
#[unsafe(no_mangle)]
pub extern "C" fn hv_sort(
    alloc: Global,
    column: &mut Handle,
    out: &mut Handle,
    error: &mut ErrorFields,
) -> i32
    ensures same { column.new.column ≡ column.old.column }
    ensures made { result ≡ pos 0 → WhereBoth AreSorted (array_in column.old.column) (array_in out.new.column) }
    ensures typed { result ≡ pos 0 → format_in out.new.column ≡ format_in column.old.column }
    ensures kept { result ≢ pos 0 → out.new.column ≡ out.old.column }
    ensures ended { EndsOnOrder (array_in column.old.column) result error.new }
{
    sort_handle(alloc, column, out, error)
}

/// Makes the distinct rows in order, null first, and how many rows are equal to each, both flat. Refused as
/// `Unsupported` exactly for lists, before any memory is taken.
#[unsafe(no_mangle)]
pub extern "C" fn hv_value_counts(
    alloc: Global,
    column: &mut Handle,
    out_values: &mut Handle,
    out_counts: &mut Handle,
    error: &mut ErrorFields,
) -> i32
    ensures same { column.new.column ≡ column.old.column }
    ensures made { result ≡ pos 0 →
        WhereAll AreCounted (array_in column.old.column) (array_in out_values.new.column)
        (array_in out_counts.new.column) }
    ensures typed { result ≡ pos 0 → format_in out_values.new.column ≡ format_in column.old.column }
    ensures untyped { result ≡ pos 0 → format_in out_counts.new.column ≡ [] }
    ensures kept { result ≢ pos 0 → out_values.new.column ≡ out_values.old.column }
    ensures kept_counts { result ≢ pos 0 → out_counts.new.column ≡ out_counts.old.column }
    ensures ended { EndsOnOrder (array_in column.old.column) result error.new }
{
    count_handle(alloc, column, out_values, out_counts, error)
}
