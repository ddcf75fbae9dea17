//! Laws of encodings; of rows that are sliced, taken and filled; of what a run column holds in addition to its slots;
//! of commands over chunks and over what was read from a message; of native types; and of encodings that are decoded.
//! The laws of rows are proved of every list of optional values, so of integers too. Those of filter, of strategies of
//! a take, of commands, of sums, of the record, of bytes and of joined rows are in the crates below.
//!
//! An encoding of a list is its tight exact cover: no run is empty, none can be joined with the next, and none is
//! hidden. Except for the last three, each function here does nothing: its clause is the law.
ghost use Rattle.std.specs.Prelude.{◌≡◌, IfOk, IsOkUnless};
ghost use Rattle.column_base.specs.Number.{IsNumbered, Narrows};
ghost use Rattle.column_base.specs.Types.{HasNumber};
ghost use Rattle.runend_array.specs.Array.{column_of, dtype_of, rows};
ghost use Rattle.runend_array.specs.Encoding.{IsPlainNumbers};
ghost use Rattle.vortex_runend.specs.Chunks.{ChunksAgree};
ghost use Rattle.vortex_runend.specs.Laws.{DecodingAnEncoding, EqualListsEqualEncodings, NeighboursDiffer, NoCoverIsShorter, SliceOfSlice, TakeOfTake, FillThenSlice, TightCoverIsUnique, EqualDataHashEqually, ReadRunsAsWritten};

pub use column_bytes::laws::{
    equal_bytes_equal_rows, equal_rows_equal_bytes, read_takes_few_bytes, written_is_a_message,
};
pub use column_fields::record_laws::{spelling_is_unique, write_then_read};
pub use runend_aggregate::laws::{sum_in_four_runs, sum_of_four_runs};
pub use runend_aggregate::{sum_signed_runs, sum_unsigned_runs};
use runend_array::{ArrayRef, ExecutionCtx, NativePType, RunEnd, VortexError, VortexResult};
pub use runend_builder::laws::{
    cast_of_joined, codes_of_joined, comparison_of_joined, constant_of_joined, encoding_of_joined,
    extremes_of_joined, fill_of_joined, filter_of_joined, slice_of_joined, sorted_of_joined,
    sum_from_any_sum, sum_from_three_numbers, sum_of_joined, sum_of_joined_naturals, take_of_parts,
    three_numbers_of_joined,
};
pub use runend_commands::laws::runs_agree;
pub use runend_select::laws::filter_is_take;
pub use runend_select::strategy_laws::{
    merge_of_six_indices, physical_indices_by_halves, physical_indices_by_table,
    search_of_four_indices, search_of_six_indices, sort_of_four_indices, strategies_agree,
};
pub use runend_windows::laws::{
    first_past_of_524288_runs, first_past_of_four_runs, first_past_of_one_run,
};
use std::alloc::Allocator;

/// Proves that a list has one encoding: two tight exact covers of it have equal ends and equal values.
/// For compressors: whichever way an encoder goes about it, the runs that it finds are the same.
pub fn tight_cover_is_unique()
    ensures { TightCoverIsUnique }
{}

/// Proves that no cover of a list has fewer runs than its encoding, whatever rows that cover hides and wherever it
/// starts.
/// For compressors: no other choice of runs stores the list in fewer.
pub fn no_cover_is_shorter()
    ensures { NoCoverIsShorter }
{}

/// Proves that two lists are equal exactly where their encodings have equal ends and equal values.
/// For compressors and group-by: lists can be compared by their encodings, with no decoding.
pub fn equal_lists_equal_encodings()
    ensures { EqualListsEqualEncodings }
{}

/// Proves that the values of neighbouring runs of an encoding differ, null being equal to null.
/// For group-by: each run begins a new group, so groups of neighbouring rows are the runs.
pub fn neighbours_differ()
    ensures { NeighboursDiffer }
{}

/// Proves that the encoding of a list decodes to the list.
/// For compressors: encoding loses no row, no order of rows and no null.
pub fn decoding_an_encoding()
    ensures { DecodingAnEncoding }
{}

/// Proves that a slice of a slice is the slice at the added positions, and that it is in range too.
/// For scanners: a range of a range needs no column in between.
pub fn slice_of_slice()
    ensures { SliceOfSlice }
{}

/// Proves that a take of a take is one take by the composed indices: the indices of the first take at the places that
/// the second names. Where no index of the first is out of bounds, no composed index is.
/// For dictionary cascades: codes into codes are folded once, and the rows are read once.
pub fn take_of_take()
    ensures { TakeOfTake }
{}

/// Proves that a range of filled rows is the filled range, refused exactly where the range is.
/// For time-series stores: gaps can be filled before a window is cut or after it.
pub fn fill_then_slice()
    ensures { FillThenSlice }
{}

/// Proves that a list of filters, comparisons with a constant, casts, fills, looked-up codes, encodings and decodings,
/// done on two parts of a column, leaves two parts of what it leaves of the whole column, whatever the forms, kernels
/// and thresholds. A mask of the whole is the mask of the first part followed by that of the second. The laws of joined
/// rows say how a sum, a least and a greatest row, and whether rows are constant or sorted, follow from those of the
/// parts.
/// For engines that run chunk by chunk: the answer over the chunks is the answer over the column.
pub fn chunks_agree<A: Allocator>()
    ensures { ChunksAgree A }
{}

/// Proves that `RunEndData::array_eq` is equality of offsets, and that data which it finds equal hash equally:
/// `array_hash` makes the same writes for both, whichever hasher it is given.
/// For caches: looking data up by its hash misses none that is equal.
pub fn equal_data_hash_equally()
    ensures { EqualDataHashEqually }
{}

/// Proves that a list of commands on a column, and the same list on what was read from its message, have the same
/// answers and leave the same rows, where no answer is `OutOfMemory`, whatever the kernels and thresholds of either.
/// For file writers and servers: it does not matter on which side of a file or a wire a command is done.
pub fn read_runs_as_written<A: Allocator>()
    ensures { ReadRunsAsWritten A }
{}

/// Proves of every native type that values are equal, and ordered, as their numbers are, that a number has at most one
/// value, and that the default is 0. For generic code: what is proved of numbers holds of the items of a buffer.
pub fn native_values_are_numbers<T: NativePType>()
    ensures { IsNumbered T.eq T.cmp T.is_default T.number }
{}

/// Widens a value of any native type: returns its number. For generic code.
pub fn widen_gives_the_number<T: NativePType>(value: T) -> i128
    ensures { result ≡ T.number value }
{
    value.widen()
}

/// Narrows a number to any native type: returns its value, or `None` exactly where the type does not have the number.
/// For generic code.
pub fn narrow_is_exact<T: NativePType>(number: i128) -> Option<T>
    ensures { Narrows T.number (HasNumber T.PTYPE) number result }
{
    T::narrow(number)
}

/// Encodes a plain column of integers, of any of the eight types, and decodes the runs: returns a column with the same
/// rows and type. Refused only as `OutOfMemory`. For compressors.
pub fn encode_then_decode<A: Allocator + Copy>(
    array: ArrayRef<A>,
    ctx: &mut ExecutionCtx<A>,
) -> VortexResult<ArrayRef<A>>
    requires { IsPlainNumbers (column_of array) }
    ensures only { IsOkUnless result VortexError.OutOfMemory }
    ensures rows { IfOk result (λ decoded. rows decoded ≡ rows array) }
    ensures dtype { IfOk result (λ decoded. dtype_of decoded ≡ dtype_of array) }
    ensures session { ctx.new ≡ ctx.old }
{
    let runs = RunEnd::encode(array, ctx)?;
    let encoded = ArrayRef::of_runs(*ctx.allocator(), runs)?;
    let decoded = encoded.canonicalize(ctx);
    drop(encoded);
    decoded
}
