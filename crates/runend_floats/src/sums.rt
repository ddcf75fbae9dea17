//! The exact sum of a column of floats.
ghost use Rattle.std.specs.Prelude.{◌≡◌, ◌+◌, ◌^◌, ◌<◌, IfOk, IfSome, IsErrOf, false, length, map, replicate, true};
ghost use Rattle.column_core.specs.PrimitiveForm.{optional_numbers};
ghost use Rattle.column_core.specs.Refusal.{IsRefusedBy};
ghost use Rattle.column_sums.specs.SumAnswer.{number_in};
ghost use Rattle.float_bits.specs.Tally.{joined, row_of, tally_of};
ghost use Rattle.runend_array.specs.Array.{dtype_of, rows};
ghost use Rattle.runend_windows.specs.Ends.{ends_of};
ghost use Rattle.runend_windows.specs.Window.{last_end, run_rows};
ghost use Rattle.column_floats.specs.FloatRows.{bits_of_key, doubles_of};
ghost use Rattle.column_floats.specs.Formats.{IsKey, floats_fault, format_of, format_of_width, holds_keys, is_doubles, is_floats};
ghost use Rattle.runend_floats.specs.Runs.{AreWholeRuns};
ghost use Rattle.runend_floats.specs.Sums.{row_in, tally_of_keys};

use crate::ends::end_of;
use column_core::{FlatColumn, PrimitiveArray, VortexError, VortexResult};
use column_floats::{FloatFormat, format_of_column, key_at};
use float_bits::{FloatSum, from_total_key, round_float};
use runend_array::{ArrayRef, ExecutionCtx};
use runend_builder::row_runs;
use std::alloc::Allocator;

/// Returns the exact sum of a column of floats of any format and form. It may be joined with the sums of further
/// chunks, and is rounded once, to 64 bits, by `rounded`. Rows that are null add nothing; a run is added at once.
/// Refused as `TypeMismatch` exactly where the column is not of `i16`, `i32` or `i64`, before any memory is taken, else
/// only as `OutOfMemory`.
pub fn sum_floats<A: Allocator + Copy>(
    column: &ArrayRef<A>,
    ctx: &mut ExecutionCtx<A>,
) -> VortexResult<FloatSum>
    ensures refused { IsRefusedBy (floats_fault (dtype_of column.now)) result }
    ensures first { is_floats (dtype_of column.now) ≡ false → IsErrOf result VortexError.TypeMismatch }
    ensures sum { IfOk result (λ sum. sum ≡
        tally_of_keys (format_of (dtype_of column.now)) (map number_in (rows column.now))) }
    ensures doubles { is_doubles (dtype_of column.now) ≡ true → IfOk result (λ sum. sum ≡
        tally_of (doubles_of (map number_in (rows column.now)))) }
    ensures session { ctx.new ≡ ctx.old }
{
    let format = format_of_column(column.dtype())?;
    let (ends, values) = row_runs(*ctx.allocator(), column)?;
    match values {
        FlatColumn::Primitive(keys) => {
            let sum = sum_runs(format, &ends, &keys);
            drop(keys);
            drop(ends);
            Ok(sum)
        }
        _ => unreachable!(),
    }
}

// Returns the sum of the rows that these runs of keys of a format show.
fn sum_runs<A: Allocator>(
    format: FloatFormat,
    ends: &PrimitiveArray<A>,
    keys: &PrimitiveArray<A>,
) -> FloatSum
    requires native { holds_keys keys.now.ptype ≡ true }
    requires format { format ≡ format_of_width keys.now.ptype }
    requires runs { AreWholeRuns ends.now }
    requires paired { length (optional_numbers keys.now) ≡ length (ends_of ends.now) }
    ensures { result ≡ tally_of_keys format (run_rows (ends_of ends.now) (optional_numbers keys.now) 0
        (last_end (ends_of ends.now))) }
{
    let mut sum = FloatSum::new();
    let mut row = 0;
    for run in 0..ends.len() {
        let end = end_of(ends, run);
        add_rows(&mut sum, format, key_at(keys, run), end - row);
        row = end;
    }
    sum
}

// Adds this many rows of the float that has this key, or of null.
#[inline]
fn add_rows(sum: &mut FloatSum, format: FloatFormat, key: Option<i64>, rows: usize)
    requires fits { IfSome key (IsKey format) }
    requires few { sum.old.rows + rows < 2 ^ 64 }
    ensures { sum.new ≡ joined sum.old (tally_of_keys format (replicate rows key)) }
{
    if let Some(key) = key {
        sum.add_run(double_of(format, key), rows as u64);
    }
}

// Returns the bits of the float of 64 bits that the float with this key is: there is one, which is then the nearest.
#[inline]
fn double_of(format: FloatFormat, key: i64) -> u64
    requires { IsKey format key }
    ensures { row_of result ≡ row_in format (bits_of_key format key) }
{
    let bits = from_total_key(format, key);
    match format {
        FloatFormat::F64 => bits,
        _ => round_float(format, FloatFormat::F64, bits),
    }
}
