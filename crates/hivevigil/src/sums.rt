//! The calls that report what a column adds to a sum, and how many rows are null.
ghost use Rattle.std.specs.Prelude.{◌≡◌, ◌≢◌, IsSomeAnd, MatchOption, pos};
ghost use Rattle.runend_array.specs.Array.{rows};
ghost use Rattle.runend_pairs.specs.NullCounts.{null_rows};
ghost use Rattle.c_columns.specs.Handle.{array_in};
ghost use Rattle.c_kernels.specs.SumParts.{ArePartsShown, EndsOnParts};

use c_columns::error_fields::ErrorFields;
use c_columns::handle::Handle;
use c_columns::pairs::Pair;
use c_kernels::{nulls_in_handle, sum_parts_in_handle};
use std::alloc::Global;

/// Writes what the rows add to a sum: their total, and the least and the greatest sum on the way, one of which is the 0
/// before the first row. Refused as `Unsupported` exactly unless the rows are integers, before any memory is taken.
#[unsafe(no_mangle)]
pub extern "C" fn hv_sum_parts(
    alloc: Global,
    column: &mut Handle,
    total: &mut Pair,
    least: &mut Pair,
    greatest: &mut Pair,
    error: &mut ErrorFields,
) -> i32
    ensures same { column.new.column ≡ column.old.column }
    ensures shown { result ≡ pos 0 →
        IsSomeAnd (array_in column.old.column) (λ c. ArePartsShown c total.new least.new greatest.new) }
    ensures kept_total { result ≢ pos 0 → total.new ≡ total.old }
    ensures kept_least { result ≢ pos 0 → least.new ≡ least.old }
    ensures kept_greatest { result ≢ pos 0 → greatest.new ≡ greatest.old }
    ensures ended { EndsOnParts (array_in column.old.column) result error.new }
{
    sum_parts_in_handle(alloc, column, total, least, greatest, error)
}

/// Returns how many rows are null; 0 of no column. Takes no memory.
#[unsafe(no_mangle)]
pub extern "C" fn hv_null_count(alloc: Global, column: &mut Handle) -> usize
    ensures same { column.new.column ≡ column.old.column }
    ensures counted { MatchOption (array_in column.old.column) (result ≡ 0) (λ c. result ≡ null_rows (rows c)) }
{
    nulls_in_handle(alloc, column)
}
