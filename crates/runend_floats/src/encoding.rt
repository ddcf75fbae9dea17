//! Floats encoded: from columns of their bits to runs of their keys.
ghost use Rattle.std.specs.Prelude.{◌≡◌, ◌<◌, ℕ, IfOk, IsErrOf, IsOkUnless, false, length, map, true};
ghost use Rattle.column_core.specs.Leaf.{OfNumbers, single_rows};
ghost use Rattle.column_core.specs.PrimitiveForm.{primitive_dtype};
ghost use Rattle.column_core.specs.FlatColumn.{leaf_of};
ghost use Rattle.column_core.specs.Refusal.{IsRefusedBy};
ghost use Rattle.runend_array.specs.Array.{dtype_of, rows};
ghost use Rattle.runend_encode.specs.Encoding.{IsRowEncoding};
ghost use Rattle.runend_builder.specs.Encoded.{IsEncodedRows};
ghost use Rattle.runend_windows.specs.Ends.{IsEndsType, ends_of};
ghost use Rattle.runend_windows.specs.Visible.{HasRow};
ghost use Rattle.runend_windows.specs.Window.{IsWindow, run_rows};
ghost use Rattle.column_floats.specs.FloatRows.{key_row};
ghost use Rattle.column_floats.specs.Formats.{bits_fault, format_of, format_of_width, holds_bits, is_bits, keys_dtype};
ghost use Rattle.column_floats.specs.Patterns.{stored_key};

use column_core::{FlatColumn, PrimitiveArray, VortexError, VortexResult};
use column_floats::{FloatPatterns, holds_bits, keys_of};
use runend_array::{ArrayRef, ExecutionCtx, RunEnd, RunEndArray, array_of};
use runend_builder::row_runs;
use runend_encode::encode_runs;
use std::alloc::Allocator;

/// Returns the floats whose bits are the rows of a `u16`, `u32` or `u64` column of any form, stored by their keys: the
/// run column of the only tight exact cover, with ends of the least unsigned type and flat keys of `i16`, `i32` or
/// `i64`, null where the row is. Looks at the runs of the column, and not at its rows, where it is a run column or a
/// constant. Refused as `TypeMismatch` exactly for another type, before any memory is taken, else only as
/// `OutOfMemory`.
pub fn encode_floats<A: Allocator + Copy>(
    bits: &ArrayRef<A>,
    patterns: FloatPatterns,
    ctx: &mut ExecutionCtx<A>,
) -> VortexResult<RunEndArray<A>>
    ensures refused { IsRefusedBy (bits_fault (dtype_of bits.now)) result }
    ensures first { is_bits (dtype_of bits.now) ≡ false → IsErrOf result VortexError.TypeMismatch }
    ensures encoded { IfOk result (λ runs. IsEncodedRows
        (map (key_row (stored_key patterns (format_of (dtype_of bits.now)))) (rows bits.now))
        (keys_dtype (dtype_of bits.now)) runs) }
    ensures session { ctx.new ≡ ctx.old }
{
    if !holds_bits(bits.dtype()) {
        return Err(VortexError::TypeMismatch);
    }
    let (ends, keys) = key_runs(*ctx.allocator(), bits, patterns)?;
    Ok(RunEnd::new_unchecked(ArrayRef::Primitive(ends), array_of(keys), 0, bits.len()))
}

// Returns the ends and the keys of that encoding. Refused only as `OutOfMemory`.
fn key_runs<A: Allocator + Copy>(
    alloc: A,
    bits: &ArrayRef<A>,
    patterns: FloatPatterns,
) -> VortexResult<(PrimitiveArray<A>, FlatColumn<A>)>
    requires { is_bits (dtype_of bits.now) ≡ true }
    ensures only { IsOkUnless result VortexError.OutOfMemory }
    ensures encoding { IfOk result (λ parts. IsRowEncoding
        (map (key_row (stored_key patterns (format_of (dtype_of bits.now)))) (rows bits.now))
        (keys_dtype (dtype_of bits.now)) parts.0 (leaf_of parts.1)) }
{
    let (ends, values) = row_runs(alloc, bits)?;
    match values {
        FlatColumn::Primitive(numbers) => {
            let parts = keyed_runs(alloc, &ends, &numbers, patterns, bits.len());
            drop(numbers);
            drop(ends);
            parts
        }
        _ => unreachable!(),
    }
}

// Returns the ends and the keys of the encoding of the rows that these runs of bits show, each run at least one.
// Refused only as `OutOfMemory`.
fn keyed_runs<A: Allocator + Copy>(
    alloc: A,
    ends: &PrimitiveArray<A>,
    bits: &PrimitiveArray<A>,
    patterns: FloatPatterns,
    count: usize,
) -> VortexResult<(PrimitiveArray<A>, FlatColumn<A>)>
    requires plain { IsEndsType (primitive_dtype ends.now) }
    requires window { IsWindow (ends_of ends.now) 0 count }
    requires paired { length (single_rows (OfNumbers bits.now)) ≡ length (ends_of ends.now) }
    requires shown { (run : ℕ) → run < length (ends_of ends.now) → HasRow (ends_of ends.now) 0 count run }
    requires native { holds_bits bits.now.ptype ≡ true }
    ensures only { IsOkUnless result VortexError.OutOfMemory }
    ensures encoding { IfOk result (λ parts. IsRowEncoding (run_rows (ends_of ends.now)
        (map (key_row (stored_key patterns (format_of_width bits.now.ptype))) (single_rows (OfNumbers bits.now)))
        0 count) (keys_dtype (primitive_dtype bits.now)) parts.0 (leaf_of parts.1)) }
{
    let keys = keys_of(alloc, bits, patterns)?;
    let keys = FlatColumn::Primitive(keys);
    let parts = encode_runs(alloc, ends, &keys, 0, count);
    drop(keys);
    parts
}
