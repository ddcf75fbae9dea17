//! The least and the greatest float of a column.
ghost use Rattle.std.specs.Prelude.{◌≡◌, ⊤, IfOk, IsErrOf, IsOkUnless, MatchOption, false, map, true};
ghost use Rattle.column_core.specs.Refusal.{IsRefusedBy};
ghost use Rattle.column_sums.specs.SumAnswer.{number_in};
ghost use Rattle.float_bits.specs.Number.{IsNan};
ghost use Rattle.runend_array.specs.Array.{dtype_of, rows};
ghost use Rattle.column_floats.specs.Extremes.{AreEnds, AreExtremes, AreKeysIn, NoneCounts};
ghost use Rattle.column_floats.specs.Formats.{floats_fault, format_of, is_floats};

use column_core::{FlatColumn, VortexError, VortexResult};
use column_floats::{EveryKey, KeyRange, KeyTest, extremes_of, floats_of_keys, format_of_column};
use runend_array::{ArrayRef, ExecutionCtx};
use runend_builder::row_runs;
use std::alloc::Allocator;

/// Returns the bits of the least and of the greatest number of a column of floats of any form, or `None` where each row
/// is null or a NaN. Among equal numbers, which only zeros can be with other bits, -0.0 is the lesser. Looks at each
/// run once. Refused as `TypeMismatch` exactly where the column is not of `i16`, `i32` or `i64`, before any memory is
/// taken, else only as `OutOfMemory`.
pub fn min_max_numbers<A: Allocator + Copy>(
    column: &ArrayRef<A>,
    ctx: &mut ExecutionCtx<A>,
) -> VortexResult<Option<(u64, u64)>>
    ensures refused { IsRefusedBy (floats_fault (dtype_of column.now)) result }
    ensures first { is_floats (dtype_of column.now) ≡ false → IsErrOf result VortexError.TypeMismatch }
    ensures extremes { IfOk result (λ found. let format = format_of (dtype_of column.now) in
        let keys = map number_in (rows column.now) in
        MatchOption found (NoneCounts (λ bits. ¬ IsNan format bits) format keys)
        (λ ends. AreExtremes (λ bits. ¬ IsNan format bits) format keys ends.0 ends.1)) }
    ensures session { ctx.new ≡ ctx.old }
{
    let format = format_of_column(column.dtype())?;
    let test = KeyRange::of_numbers(format);
    let found = extreme_keys(column, &test, ctx)?;
    Ok(floats_of_keys(format, found))
}

/// Returns the bits of the first and of the last float of a column of floats of any form in the total order of IEEE
/// 754, in which NaNs are below and above all numbers, by their signs, or `None` where each row is null. Costs and
/// refuses the same as `min_max_numbers`.
pub fn min_max_total<A: Allocator + Copy>(
    column: &ArrayRef<A>,
    ctx: &mut ExecutionCtx<A>,
) -> VortexResult<Option<(u64, u64)>>
    ensures refused { IsRefusedBy (floats_fault (dtype_of column.now)) result }
    ensures first { is_floats (dtype_of column.now) ≡ false → IsErrOf result VortexError.TypeMismatch }
    ensures extremes { IfOk result (λ found. let format = format_of (dtype_of column.now) in
        let keys = map number_in (rows column.now) in
        MatchOption found (NoneCounts (λ bits. ⊤) format keys)
        (λ ends. AreExtremes (λ bits. ⊤) format keys ends.0 ends.1)) }
    ensures session { ctx.new ≡ ctx.old }
{
    let format = format_of_column(column.dtype())?;
    let found = extreme_keys(column, &EveryKey, ctx)?;
    Ok(floats_of_keys(format, found))
}

// Returns the least and the greatest of the keys that pass the test, or `None` where none does. Refused only as
// `OutOfMemory`.
fn extreme_keys<T: KeyTest, A: Allocator + Copy>(
    column: &ArrayRef<A>,
    test: &T,
    ctx: &mut ExecutionCtx<A>,
) -> VortexResult<Option<(i64, i64)>>
    requires { is_floats (dtype_of column.now) ≡ true }
    ensures only { IsOkUnless result VortexError.OutOfMemory }
    ensures ends { IfOk result (AreEnds (T.passes test.now) (map number_in (rows column.now))) }
    ensures fits { IfOk result (λ found. AreKeysIn (format_of (dtype_of column.now)) found) }
    ensures session { ctx.new ≡ ctx.old }
{
    let (_ends, values) = row_runs(*ctx.allocator(), column)?;
    match values {
        FlatColumn::Primitive(keys) => {
            let extremes = extremes_of(&keys, test);
            drop(keys);
            drop(_ends);
            Ok(extremes)
        }
        _ => unreachable!(),
    }
}
