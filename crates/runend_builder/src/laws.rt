//! Laws of columns that are cut into chunks: what an operation answers for joined rows follows from what it answers for
//! the parts. An engine that runs kernels chunk by chunk, on one machine or on many, rests on these. They are stated of
//! lists of rows, only over the definitions of the operations, so they hold of columns of any form.
//!
//! Each function here does nothing: its clause is the law.
ghost use Rattle.runend_builder.specs.Encodings.{EncodingOfJoined};
ghost use Rattle.runend_builder.specs.Orders.{ConstantOfJoined, ExtremesOfJoined, SortedOfJoined};
ghost use Rattle.runend_builder.specs.Rows.{CastOfJoined, CodesOfJoined, ComparisonOfJoined, FillOfJoined, FilterOfJoined, SliceOfJoined, TakeOfParts};
ghost use Rattle.runend_builder.specs.Sums.{SumFromAnySum, SumFromThreeNumbers, SumOfJoined, SumOfJoinedNaturals, ThreeNumbersOfJoined};

/// Proves that a filter of joined rows by joined masks, each as long as its part, is the joined filtered parts.
pub fn filter_of_joined()
    ensures { FilterOfJoined }
{}

/// Proves that a slice of joined rows is what the range cuts from the first part, followed by what it cuts from the
/// second.
pub fn slice_of_joined()
    ensures { SliceOfJoined }
{}

/// Proves that filled joined rows are the joined filled parts.
pub fn fill_of_joined()
    ensures { FillOfJoined }
{}

/// Proves that a cast of joined rows, which keeps the rows, is refused as the first part that is refused.
pub fn cast_of_joined()
    ensures { CastOfJoined }
{}

/// Proves that joined codes are looked up as the parts are, and are refused as the first part that is refused.
pub fn codes_of_joined()
    ensures { CodesOfJoined }
{}

/// Proves that joined rows compared with a constant are the joined compared parts.
pub fn comparison_of_joined()
    ensures { ComparisonOfJoined }
{}

/// Proves that rows taken by joined indices are the joined takes of the parts of the indices.
pub fn take_of_parts()
    ensures { TakeOfParts }
{}

/// Proves that the sum of joined rows is the sum of the first part, to which the rows of the second are added: null
/// where the first part's sum is null. No joined row is valid exactly where no row of either part is.
pub fn sum_of_joined()
    ensures { SumOfJoined }
{}

/// Proves that rows which are added to a sum keep it in the range exactly where the sum plus each partial sum of these
/// rows is in the range, and that they then add their total to it.
pub fn sum_from_any_sum()
    ensures { SumFromAnySum }
{}

/// Proves that rows which are added to a sum keep it in the range exactly where the sum plus the least and the sum plus
/// the greatest of their partial sums are in the range, or where no row is valid. So three numbers have to be known of
/// a part that overflows by itself, or that comes after others: its total, and the least and the greatest of its
/// partial sums.
pub fn sum_from_three_numbers()
    ensures { SumFromThreeNumbers }
{}

/// Proves that the total of joined rows is the sum of both totals, and that the least of their partial sums is the
/// lesser of the first part's least and of the second part's least moved by the first part's total; and the greatest
/// likewise. Where one part has no valid row, the partial sums are those of the other part.
pub fn three_numbers_of_joined()
    ensures { ThreeNumbersOfJoined }
{}

/// Proves that the sum of joined rows, none of which is negative, is the sum of the parts' sums: null where either of
/// them is null, or where both together are past the range.
pub fn sum_of_joined_naturals()
    ensures { SumOfJoinedNaturals }
{}

/// Proves that the least and the greatest of joined rows are the lesser and the greater of those of the parts, and
/// those of one part where the other's rows are all null.
pub fn extremes_of_joined()
    ensures { ExtremesOfJoined }
{}

/// Proves that joined rows are constant exactly where both parts are, and their first rows are equal.
pub fn constant_of_joined()
    ensures { ConstantOfJoined }
{}

/// Proves that joined rows are sorted exactly where both parts are, and the last row of the first part may come before
/// the first row of the second one.
pub fn sorted_of_joined()
    ensures { SortedOfJoined }
{}

/// Proves that the encoding of joined rows is the encoding of the first part followed by that of the second, whose ends
/// are moved by the rows of the first; where the two runs at the seam have equal values, the first of them goes, and
/// the second begins where it began.
pub fn encoding_of_joined()
    ensures { EncodingOfJoined }
{}
