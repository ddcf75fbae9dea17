//! How many bytes the messages of columns of lists have, counted without writing them.
ghost use Rattle.std.specs.Prelude.{◌≡◌, ◌^◌, ◌<◌, ◌≤◌, ◌⊎◌, length, OnOk, IfOk, IfErr, IsErrOf};
ghost use Rattle.column_core.specs.FlatColumn.{leaf_of};
ghost use Rattle.column_fields.specs.ListFields.{list_fields};
ghost use Rattle.column_fields.specs.Sizes.{IsPast};
ghost use Rattle.runend_array.specs.Array.{column_of, validity_of, IsRowValidity};
ghost use Rattle.runend_array.specs.Column.{OfLeaf, OfLists, IsIndex, IsPlainIndex, IsPlainTruths, column_of_runs, index_of, runs_validity};
ghost use Rattle.runend_array.specs.Lists.{lists_depth};
ghost use Rattle.column_bytes.specs.Bytes.{column_bytes, leaf_message, index_message, lists_body, row_validity_field};
ghost use Rattle.column_bytes.specs.Read.{IsWritable, IsUnsupportedOrMemory};
ghost use Rattle.column_bytes.specs.Stored.{IsStored, IsStoredLeaf, IsStoredIndex, IsStoredValidity};

use crate::flat_sizes::{decimals_size, numbers_size, texts_size, truths_size};
use crate::lists::{LISTS, levels_of};
use crate::runs::runs_size;
use column_base::{VortexError, VortexResult};
use column_core::FlatColumn;
use column_fields::{
    Header, bit_validity_size, bytes_key_size, header_size, list_fields_size, number_size,
    size_of_total,
};
use runend_array::{ArrayRef, ListViewArray, RowValidity, RunEndArray, RunEndArraySlotsExt};
use std::alloc::Allocator;

/// Returns how many bytes the message of a column of lists has. Refused as `Unsupported` exactly where its offsets, its
/// sizes or its validity are in runs and fewer than two levels are left, and as `OutOfMemory` where the number of bytes
/// does not fit `usize`.
pub(crate) fn lists_size<A: Allocator + Copy>(
    lists: &ListViewArray<A>,
    levels: usize,
) -> VortexResult<usize>
    ensures size { IfOk result (λ size. size ≡ length (column_bytes (OfLists lists.now))) }
    ensures writable { OnOk result (IsWritable levels (OfLists lists.now)) }
    ensures deep { IsErrOf result VortexError.Unsupported → levels < lists_depth lists.now }
    ensures exact { levels < lists_depth lists.now → IsErrOf result VortexError.Unsupported }
    ensures refused { IsErrOf result VortexError.Unsupported → ¬ IsWritable levels (OfLists lists.now) }
    ensures past { IsErrOf result VortexError.OutOfMemory → 2 ^ 64 ≤ length (column_bytes (OfLists lists.now)) }
    ensures only { IfErr result IsUnsupportedOrMemory }
{
    if levels_of(lists) > levels {
        return Err(VortexError::Unsupported);
    }
    match message_of_lists(lists) {
        Ok(size) => Ok(size),
        Err(error) => Err(error),
    }
}

// The same, however many levels it has.
fn message_of_lists<A: Allocator + Copy>(lists: &ListViewArray<A>) -> VortexResult<usize>
    ensures size { IfOk result (λ size. size ≡ length (column_bytes (OfLists lists.now))) }
    ensures stored { OnOk result (IsStored (OfLists lists.now)) }
    ensures past { IfErr result (λ error. IsPast (length (column_bytes (OfLists lists.now))) error) }
{
    let header = header_size(Header {
        kind: LISTS,
        form: 4,
        rows: lists.len() as u64,
    });
    match row_validity_size(lists.validity()) {
        Ok(validity) => match parts_size(lists) {
            Ok(parts) => match size_of_total(header as u128 + validity as u128 + parts as u128) {
                Ok(size) => Ok(size),
                Err(error) => Err(error),
            },
            Err(error) => Err(error),
        },
        Err(error) => Err(error),
    }
}

// How many bytes the fields have that say which lists are valid.
#[tactic(auto, unfolding(column_fields::specs::Validity::validity_field))]
fn row_validity_size<A: Allocator + Copy>(validity: &RowValidity<A>) -> VortexResult<usize>
    requires { IsRowValidity validity.now }
    ensures size { IfOk result (λ size. size ≡ length (row_validity_field (validity_of validity.now))) }
    ensures stored { OnOk result (IsStoredValidity (validity_of validity.now)) }
    ensures past { IfErr result (λ error. IsPast (length (row_validity_field (validity_of validity.now))) error) }
{
    match validity {
        RowValidity::NonNullable => Ok(number_size(5, 1)),
        RowValidity::AllValid => Ok(number_size(5, 2)),
        RowValidity::AllInvalid => Ok(number_size(5, 3)),
        RowValidity::Bits(bits) => Ok(bit_validity_size(bits)),
        RowValidity::Runs(runs) => run_validity_size(runs),
    }
}

// The same where runs of booleans say it.
fn run_validity_size<A: Allocator + Copy>(runs: &RunEndArray<A>) -> VortexResult<usize>
    requires { IsPlainTruths runs.now.values }
    ensures size { IfOk result (λ size. size ≡ length (row_validity_field (runs_validity runs.now))) }
    ensures stored { OnOk result (IsStoredValidity (runs_validity runs.now)) }
    ensures past { IfErr result (λ error. IsPast (length (row_validity_field (runs_validity runs.now))) error) }
{
    match flat_runs_size(runs) {
        Ok(flags) => {
            let keys = number_size(5, 5) + bytes_key_size(16, flags);
            match size_of_total(keys as u128 + flags as u128) {
                Ok(size) => Ok(size),
                Err(error) => Err(error),
            }
        }
        Err(error) => Err(error),
    }
}

// How many bytes the fields of elements, offsets and sizes have.
fn parts_size<A: Allocator + Copy>(lists: &ListViewArray<A>) -> VortexResult<usize>
    ensures size { IfOk result (λ size. size ≡ length (list_fields (leaf_message lists.now.elements)
        (index_message lists.now.offsets) (index_message lists.now.sizes))) }
    ensures elements { OnOk result (IsStoredLeaf lists.now.elements) }
    ensures offsets { OnOk result (IsStoredIndex lists.now.offsets) }
    ensures sizes { OnOk result (IsStoredIndex lists.now.sizes) }
    ensures past { IfErr result (λ error. IsPast (length (list_fields (leaf_message lists.now.elements)
        (index_message lists.now.offsets) (index_message lists.now.sizes))) error) }
{
    match elements_size(lists.elements()) {
        Ok(elements) => match index_size(lists.offsets()) {
            Ok(offsets) => match index_size(lists.sizes()) {
                Ok(sizes) => match list_fields_size(elements, offsets, sizes) {
                    Ok(size) => Ok(size),
                    Err(error) => Err(error),
                },
                Err(error) => Err(error),
            },
            Err(error) => Err(error),
        },
        Err(error) => Err(error),
    }
}

/// Returns how many bytes the message of the elements has. Refused as `OutOfMemory` exactly where their number does not
/// fit `usize`.
pub(crate) fn elements_size<A: Allocator>(column: &FlatColumn<A>) -> VortexResult<usize>
    ensures size { IfOk result (λ size. size ≡ length (column_bytes (OfLeaf (leaf_of column.now)))) }
    ensures stored { OnOk result (IsStoredLeaf (leaf_of column.now)) }
    ensures past { IfErr result (λ error. IsPast (length (column_bytes (OfLeaf (leaf_of column.now)))) error) }
{
    match column {
        FlatColumn::Primitive(numbers) => numbers_size(numbers),
        FlatColumn::Bool(truths) => truths_size(truths),
        FlatColumn::Decimal(decimals) => decimals_size(decimals),
        FlatColumn::VarBinView(texts) => texts_size(texts),
    }
}

/// Returns the same for the message of offsets or of sizes.
pub(crate) fn index_size<A: Allocator + Copy>(index: &ArrayRef<A>) -> VortexResult<usize>
    requires { IsIndex (column_of index.now) }
    ensures size { IfOk result (λ size. size ≡ length (column_bytes (column_of index.now))) }
    ensures same { column_bytes (column_of index.now) ≡ index_message (index_of (column_of index.now)) }
    ensures stored { OnOk result (IsStored (column_of index.now)) }
    ensures past { IfErr result (λ error. IsPast (length (column_bytes (column_of index.now))) error) }
{
    match index {
        ArrayRef::Primitive(numbers) => numbers_size(numbers),
        ArrayRef::RunEnd(runs) => flat_runs_size(runs),
        _ => unreachable!(),
    }
}

/// Returns the same for the message of runs over flat integers or booleans.
pub(crate) fn flat_runs_size<A: Allocator + Copy>(runs: &RunEndArray<A>) -> VortexResult<usize>
    requires { IsPlainIndex runs.now.values ⊎ IsPlainTruths runs.now.values }
    ensures size { IfOk result (λ size. size ≡ length (column_bytes (column_of_runs runs.now))) }
    ensures values { IsStored runs.now.values }
    ensures stored { OnOk result (IsStored (column_of_runs runs.now)) }
    ensures past { IfErr result (λ error. IsPast (length (column_bytes (column_of_runs runs.now))) error) }
{
    match run_values_size(runs.values()) {
        Ok(values) => match runs_size(runs, values) {
            Ok(size) => Ok(size),
            Err(error) => Err(error),
        },
        Err(error) => Err(error),
    }
}

/// Returns the same for the message of their values.
pub(crate) fn run_values_size<A: Allocator>(values: &ArrayRef<A>) -> VortexResult<usize>
    requires { IsPlainIndex (column_of values.now) ⊎ IsPlainTruths (column_of values.now) }
    ensures size { IfOk result (λ size. size ≡ length (column_bytes (column_of values.now))) }
    ensures stored { IsStored (column_of values.now) }
    ensures past { IfErr result (λ error. IsPast (length (column_bytes (column_of values.now))) error) }
{
    match values {
        ArrayRef::Primitive(numbers) => numbers_size(numbers),
        ArrayRef::Bool(truths) => truths_size(truths),
        _ => unreachable!(),
    }
}
