//! The columns that lines list.
ghost use Rattle.std.specs.Prelude.{◌≡◌, ◌⊎◌, ℕ, List, IfOk, IfSome, IsOkUnless, MatchResult};
ghost use Rattle.std.specs.Iterator.{AlwaysYields, IsFinite};
ghost use Rattle.runend_array.specs.Array.{column_of, dtype_of};
ghost use Rattle.runend_array.specs.Column.{AreParts, column_of_runs, runs_of};
ghost use Rattle.runend_array.specs.Fault.{PartsFault};
ghost use Rattle.runend_script.specs.Lengthened.{ListsArray};
ghost use Rattle.runend_script.specs.Listed.{AreRunsOf, IsFlatOf};
ghost use Rattle.runend_script.specs.Rows.{stored_ptype};

use crate::command::{RowWords, RunsLine, SLASH};
use crate::values::read_values;
use column_base::{DType, Nullability, VortexError, VortexResult};
use std::alloc::Allocator;
use vortex_runend::{ArrayRef, ExecutionCtx, PrimitiveArray, RunEnd};

/// Returns the flat column of the rows that the words mean, or `None` exactly where a word does not mean a row.
pub fn plain_of<'a, I: Iterator<Item = &'a str> + Drop, A: Allocator + Copy>(
    alloc: A,
    reading: RowWords,
    nullability: Nullability,
    words: I,
) -> VortexResult<Option<ArrayRef<A>>>
    requires can { I.can_next words }
    requires finite { IsFinite (I.remaining words) }
    ensures only { IsOkUnless result VortexError.OutOfMemory }
    ensures flat { IfOk result (λ made. IfSome made (λ array. IsFlatOf (stored_ptype reading) (column_of array))) }
    ensures typed { IfOk result (λ made. IfSome made (λ array.
        dtype_of array ≡ DType.Primitive (stored_ptype reading) nullability)) }
    ensures rows { (taken : List (List ℕ)) → AlwaysYields I.next_gives (λ word. word.now) words taken →
        IfOk result (ListsArray reading nullability taken) }
{
    let Some(listed) = read_values(alloc, reading, nullability, words)? else {
        return Ok(None);
    };
    let array = PrimitiveArray::new_unchecked(listed.numbers, listed.validity);
    Ok(Some(ArrayRef::Primitive(array)))
}

/// Returns the run column of the line, or `None` where a word of it does not mean an end or a row. Refused as
/// `try_new_offset_length` is, and as `OutOfMemory`.
pub fn runs_of_line<A: Allocator + Copy>(
    line: RunsLine<'_>,
    ctx: &mut ExecutionCtx<A>,
) -> VortexResult<Option<ArrayRef<A>>>
    ensures runs { IfOk result (λ made. IfSome made
        (λ array. AreRunsOf line.entry.ptype line.entry.ends_ptype line.entry.offset line.entry.length
        (column_of array))) }
    ensures session { ctx.new ≡ ctx.old }
{
    let alloc = *ctx.allocator();
    let words = line.ends.take_while(|word| *word != SLASH);
    let ends_words = RowWords::Integers(line.ends_ptype);
    let Some(ends) = plain_of(alloc, ends_words, Nullability::NonNullable, words)? else {
        return Ok(None);
    };
    let values_words = RowWords::Integers(line.ptype);
    match plain_of(alloc, values_words, line.nullability, line.values) {
        Ok(Some(values)) => {
            let array = runs_of_parts(ends, values, line.offset, line.length, ctx)?;
            Ok(Some(array))
        }
        Ok(None) => {
            drop(ends);
            Ok(None)
        }
        Err(error) => {
            drop(ends);
            Err(error)
        }
    }
}

// The run column of these parts. Refused as `try_new_offset_length` is, and as `OutOfMemory`.
fn runs_of_parts<A: Allocator + Copy>(
    ends: ArrayRef<A>,
    values: ArrayRef<A>,
    offset: usize,
    length: usize,
    ctx: &mut ExecutionCtx<A>,
) -> VortexResult<ArrayRef<A>>
    ensures parts { MatchResult result
        (λ array. AreParts (column_of ends) (column_of values) offset length ×
        (column_of array ≡ column_of_runs (runs_of (column_of ends) (column_of values) offset length)))
        (λ error. (error ≡ VortexError.OutOfMemory) ⊎ PartsFault (column_of ends)
        (column_of values) offset length error) }
    ensures session { ctx.new ≡ ctx.old }
{
    let runs = RunEnd::try_new_offset_length(ends, values, offset, length, ctx)?;
    ArrayRef::of_runs(*ctx.allocator(), runs)
}
