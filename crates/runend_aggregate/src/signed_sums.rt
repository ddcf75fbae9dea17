//! Sums of signed numbers over the visible runs: the types of ends and of values are matched here.
ghost use Rattle.std.specs.Prelude.{◌≡◌, ◌+◌, ◌++◌, ◌≤◌, length, map, pos};
ghost use Rattle.column_core.specs.Leaf.{OfNumbers};
ghost use Rattle.column_sums.specs.RunSum.{calls_of, rows_of_runs, valid_runs};
ghost use Rattle.column_sums.specs.SumAnswer.{answer_of, number_in};
ghost use Rattle.column_sums.specs.SumRange.{SignedRange};
ghost use Rattle.runend_array.specs.Array.{dtype_of, rows};
ghost use Rattle.runend_array.specs.Column.{AreRuns, OfLeaf, column_dtype};
ghost use Rattle.runend_aggregate.specs.ShownRuns.{visible_runs};
ghost use Rattle.runend_aggregate.specs.SignOf.{IsSignedType, IsUnsignedType};

use crate::visible;
use crate::visible_sums::{sum_items, sum_numbers};
use column_base::match_each_unsigned;
use column_core::{PrimitiveArray, PrimitiveValues, UnsignedPType};
use column_sums::{Numbers, SignedSum, SumAnswer};
use runend_array::{ArrayRef, RunEndArray, RunEndArrayExt, RunEndArraySlotsExt};
use std::alloc::Allocator;

/// Returns the sum of the rows of a column of signed numbers, by adding each visible run that is not null, up to and
/// with the first that leaves the range of `i64`.
pub(crate) fn sum_signed_visible<A: Allocator + Copy>(
    array: &RunEndArray<A>,
    sum: &mut SignedSum,
) -> SumAnswer
    requires signed { IsSignedType (column_dtype array.now.values) }
    requires zero { sum.old.value ≡ pos 0 }
    ensures answer { result ≡ answer_of SignedRange (rows_of_runs (visible_runs array.now)) }
    ensures calls { sum.new.calls ≡ sum.old.calls ++ calls_of SignedRange (visible_runs array.now) }
    ensures few { length sum.new.calls ≤ length sum.old.calls + length (valid_runs (visible_runs array.now)) }
    ensures additions { sum.new.additions ≤ sum.old.additions + length (valid_runs (visible_runs array.now)) }
    ensures valid { AreRuns array.now }
{
    let ends = visible::plain_ends(array);
    match_each_unsigned!(ends.values(), items => sum_over(array, items.as_slice(), sum))
}

// The sum of the rows, over these ends.
fn sum_over<E: UnsignedPType, A: Allocator + Copy>(
    array: &RunEndArray<A>,
    ends: &[E],
    sum: &mut SignedSum,
) -> SumAnswer
    requires ends { map E.natural ends.now ≡ array.now.ends }
    requires signed { IsSignedType (column_dtype array.now.values) }
    requires zero { sum.old.value ≡ pos 0 }
    ensures answer { result ≡ answer_of SignedRange (rows_of_runs (visible_runs array.now)) }
    ensures calls { sum.new.calls ≡ sum.old.calls ++ calls_of SignedRange (visible_runs array.now) }
    ensures few { length sum.new.calls ≤ length sum.old.calls + length (valid_runs (visible_runs array.now)) }
    ensures additions { sum.new.additions ≤ sum.old.additions + length (valid_runs (visible_runs array.now)) }
{
    match array.values() {
        ArrayRef::Primitive(values) => sum_values(array, ends, values, sum),
        values => sum_numbers(array, ends, &SignedRows { values }, sum),
    }
}

// The sum of the rows, of these flat values.
fn sum_values<E: UnsignedPType, A: Allocator + Copy>(
    array: &RunEndArray<A>,
    ends: &[E],
    values: &PrimitiveArray<A>,
    sum: &mut SignedSum,
) -> SumAnswer
    requires ends { map E.natural ends.now ≡ array.now.ends }
    requires values { OfLeaf (OfNumbers values.now) ≡ array.now.values }
    requires signed { IsSignedType (column_dtype array.now.values) }
    requires zero { sum.old.value ≡ pos 0 }
    ensures answer { result ≡ answer_of SignedRange (rows_of_runs (visible_runs array.now)) }
    ensures calls { sum.new.calls ≡ sum.old.calls ++ calls_of SignedRange (visible_runs array.now) }
    ensures few { length sum.new.calls ≤ length sum.old.calls + length (valid_runs (visible_runs array.now)) }
    ensures additions { sum.new.additions ≤ sum.old.additions + length (valid_runs (visible_runs array.now)) }
{
    let validity = values.validity();
    match values.values() {
        PrimitiveValues::I8(items) => sum_items(array, ends, items.as_slice(), validity, sum),
        PrimitiveValues::I16(items) => sum_items(array, ends, items.as_slice(), validity, sum),
        PrimitiveValues::I32(items) => sum_items(array, ends, items.as_slice(), validity, sum),
        PrimitiveValues::I64(items) => sum_items(array, ends, items.as_slice(), validity, sum),
        _ => unreachable!(),
    }
}

// The numbers of values of any form, each looked up as a row.
#[derive(Drop)]
struct SignedRows<'a, A: Allocator> {
    values: &'a ArrayRef<A>,
    ghost signed: { ¬ IsUnsignedType (dtype_of values.now) },
}

impl<'a, A: Allocator + Copy> Numbers<i64> for SignedRows<'a, A> {
    ghost numbers = { λ own. map number_in (rows own.values.now) };

    fn number(&self, index: usize) -> Option<i64> {
        visible::signed_in(self.values, index)
    }
}
