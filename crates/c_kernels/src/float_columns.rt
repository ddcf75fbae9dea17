//! Columns that are made of columns of floats or of their bits, on the heap.
ghost use Rattle.std.specs.Prelude.{◌≡◌, [], IfOk, IsErrOf, IsOkUnless, Some};
ghost use Rattle.column_core.specs.Refusal.{IsRefusedBy};
ghost use Rattle.column_floats.specs.Formats.{bits_fault, constant_fault, floats_fault};
ghost use Rattle.runend_array.specs.Array.{column_of, dtype_of};
ghost use Rattle.runend_array.specs.Column.{column_of_runs};
ghost use Rattle.typed_columns.specs.Typed.{format_of};
ghost use Rattle.c_kernels.specs.Floats.{AreBitsOf, AreComparedBy, AreFloatsOf, patterns_by};

use c_columns::flat::{Boxed, boxed};
use c_columns::sessions::plain_context;
use column_core::{VortexError, VortexResult};
use column_ops::CompareOperator;
use runend_array::{ArrayRef, RunEndArray};
use runend_floats::{FloatPatterns, compare_numbers, compare_total, decode_floats, encode_floats};
use std::alloc::Global;

/// Returns the floats whose bits the rows are, as the run column of their keys, with one pattern for each value where
/// they are to be canonical. Refused as `TypeMismatch` exactly unless the type is `u16`, `u32` or `u64`, before any
/// memory is taken, else only as `OutOfMemory`.
#[tactic(auto, using(crate::proofs::FloatEndings::no_bits))]
pub fn encoded(alloc: Global, bits: &ArrayRef<Global>, is_canonical: bool) -> VortexResult<Boxed>
    ensures made { IfOk result (λ made. AreFloatsOf is_canonical bits.now made.value.array) }
    ensures untyped { IfOk result (λ made. format_of made.value ≡ []) }
    ensures refused { IsRefusedBy (bits_fault (dtype_of bits.now)) result }
    ensures first { (error : VortexError) → bits_fault (dtype_of bits.now) ≡ Some error → IsErrOf result error }
{
    let patterns = patterns_of(is_canonical);
    let runs = encode_floats(bits, patterns, &mut plain_context(alloc))?;
    boxed_runs(alloc, runs)
}

/// Returns the bits of the floats, flat, null where the row is. Refused as `TypeMismatch` exactly unless the type is
/// `i16`, `i32` or `i64`, before any memory is taken, else only as `OutOfMemory`.
#[tactic(auto, using(crate::proofs::FloatEndings::no_floats))]
pub fn decoded(alloc: Global, floats: &ArrayRef<Global>) -> VortexResult<Boxed>
    ensures made { IfOk result (λ made. AreBitsOf floats.now made.value.array) }
    ensures untyped { IfOk result (λ made. format_of made.value ≡ []) }
    ensures refused { IsRefusedBy (floats_fault (dtype_of floats.now)) result }
    ensures first { (error : VortexError) → floats_fault (dtype_of floats.now) ≡ Some error → IsErrOf result error }
{
    let bits = decode_floats(floats, &mut plain_context(alloc))?;
    boxed(alloc, ArrayRef::Primitive(bits))
}

/// Returns for each float whether it compares so with the one with these bits, in runs: as numbers by IEEE 754, or else
/// in its total order. Refused as `TypeMismatch` unless the type is `i16`, `i32` or `i64`, then as `CastOutOfRange`
/// where the format has fewer bits, both before any memory is taken, else only as `OutOfMemory`.
pub fn compared(
    alloc: Global,
    floats: &ArrayRef<Global>,
    operator: CompareOperator,
    bits: u64,
    is_ieee: bool,
) -> VortexResult<Boxed>
    ensures made { IfOk result (λ made. AreComparedBy is_ieee operator bits floats.now made.value.array) }
    ensures untyped { IfOk result (λ made. format_of made.value ≡ []) }
    ensures refused { IsRefusedBy (constant_fault (dtype_of floats.now) bits) result }
    ensures first { (error : VortexError) → constant_fault (dtype_of floats.now) bits ≡ Some error →
        IsErrOf result error }
{
    let mut ctx = plain_context(alloc);
    if is_ieee {
        boxed_runs(alloc, compare_numbers(floats, operator, bits, &mut ctx)?)
    } else {
        boxed_runs(alloc, compare_total(floats, operator, bits, &mut ctx)?)
    }
}

/// Puts a run column on the heap. Refused only as `OutOfMemory`.
pub(crate) fn boxed_runs(alloc: Global, runs: RunEndArray<Global>) -> VortexResult<Boxed>
    ensures only { IsOkUnless result VortexError.OutOfMemory }
    ensures form { IfOk result (λ made. column_of made.value.array ≡ column_of_runs runs) }
    ensures untyped { IfOk result (λ made. format_of made.value ≡ []) }
{
    boxed(alloc, ArrayRef::of_runs(alloc, runs)?)
}

// Which patterns are stored.
fn patterns_of(is_canonical: bool) -> FloatPatterns
    ensures { result ≡ patterns_by is_canonical }
{
    if is_canonical {
        FloatPatterns::Canonical
    } else {
        FloatPatterns::Exact
    }
}
