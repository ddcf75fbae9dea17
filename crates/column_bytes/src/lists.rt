//! Columns of lists, written.
ghost use Rattle.std.specs.Prelude.{◌≡◌, ◌<◌, ◌⊎◌, ◌++◌, length, IsTrue, OnOk, IfErr, IsErrOf, IsOkUnless};
ghost use Rattle.column_core.specs.FlatColumn.{leaf_of};
ghost use Rattle.column_fields.specs.Field.{bytes_field};
ghost use Rattle.column_fields.specs.Kept.{StaysInFront};
ghost use Rattle.column_fields.specs.Room.{UsesCountedRoom};
ghost use Rattle.column_fields.specs.ListFields.{list_fields};
ghost use Rattle.runend_array.specs.Array.{column_of, validity_of, IsRowValidity};
ghost use Rattle.runend_array.specs.Column.{OfLeaf, OfLists, IsIndex, IsPlainIndex, IsPlainTruths, index_of, column_of_runs, runs_validity};
ghost use Rattle.runend_array.specs.Lists.{index_depth, lists_depth};
ghost use Rattle.column_bytes.specs.Bytes.{column_bytes, leaf_message, index_message, row_validity_field};
ghost use Rattle.column_bytes.specs.Read.{IsWritable, IsUnsupportedOrMemory};
ghost use Rattle.column_bytes.specs.Stored.{IsStored, IsStoredLeaf, IsStoredIndex, IsStoredValidity};

use crate::flat::{put_decimal_rows, put_numbers, put_truths};
use crate::list_sizes::{elements_size, flat_runs_size, index_size, run_values_size};
use crate::runs::put_runs;
use crate::texts::put_texts;
use bytes::BufMut;
use column_base::{VortexError, VortexResult};
use column_core::FlatColumn;
use column_fields::{Header, put_bit_validity, put_bytes_key, put_header, put_number};
use runend_array::{ArrayRef, ListViewArray, RowValidity, RunEndArray, RunEndArraySlotsExt};
use std::alloc::Allocator;

/// Numbers the type of lists.
pub(crate) const LISTS: u64 = 13;

/// Writes a column of lists at the end. Refused as `Unsupported` exactly where its offsets, its sizes or its validity
/// are in runs and fewer than two levels are left, else only as `OutOfMemory`.
pub(crate) fn put_lists<A: Allocator + Copy, W: BufMut>(
    out: &mut W,
    lists: &ListViewArray<A>,
    levels: usize,
) -> VortexResult<()>
    ensures ok { OnOk result (W.written out.new ≡ W.written out.old ++ column_bytes (OfLists lists.now)) }
    ensures room { UsesCountedRoom result (W.spare out.old) (W.spare out.new)
        (length (column_bytes (OfLists lists.now))) }
    ensures writable { OnOk result (IsWritable levels (OfLists lists.now)) }
    ensures deep { IsErrOf result VortexError.Unsupported → levels < lists_depth lists.now }
    ensures exact { levels < lists_depth lists.now → IsErrOf result VortexError.Unsupported }
    ensures refused { IsErrOf result VortexError.Unsupported → ¬ IsWritable levels (OfLists lists.now) }
    ensures kept { StaysInFront (W.written out.old) (W.written out.new) }
    ensures only { IfErr result IsUnsupportedOrMemory }
{
    if levels_of(lists) > levels {
        return Err(VortexError::Unsupported);
    }
    put_header(
        out,
        Header {
            kind: LISTS,
            form: 4,
            rows: lists.len() as u64,
        },
    )?;
    put_row_validity(out, lists.validity())?;
    put_parts(out, lists)?;
    Ok(())
}

/// Returns a bound of the levels of runs: 2 where offsets, sizes or validity are in runs.
pub(crate) fn levels_of<A: Allocator + Copy>(lists: &ListViewArray<A>) -> usize
    ensures { result ≡ lists_depth lists.now }
{
    if is_in_runs(lists.offsets()) || is_in_runs(lists.sizes()) {
        return 2;
    }
    match lists.validity() {
        RowValidity::Runs(_) => 2,
        _ => 0,
    }
}

fn is_in_runs<A: Allocator>(array: &ArrayRef<A>) -> bool
    requires { IsIndex (column_of array.now) }
    ensures runs { IsTrue result → index_depth (index_of (column_of array.now)) ≡ 2 }
    ensures flat { ¬ IsTrue result → index_depth (index_of (column_of array.now)) ≡ 0 }
{
    match array {
        ArrayRef::RunEnd(_) => true,
        _ => false,
    }
}

// Writes the fields that say which lists are valid.
#[tactic(auto, unfolding(column_fields::specs::Validity::validity_field))]
fn put_row_validity<A: Allocator + Copy, W: BufMut>(
    out: &mut W,
    validity: &RowValidity<A>,
) -> VortexResult<()>
    requires { IsRowValidity validity.now }
    ensures ok { OnOk result (W.written out.new ≡ W.written out.old ++ row_validity_field (validity_of validity.now)) }
    ensures room { UsesCountedRoom result (W.spare out.old) (W.spare out.new)
        (length (row_validity_field (validity_of validity.now))) }
    ensures stored { OnOk result (IsStoredValidity (validity_of validity.now)) }
    ensures kept { StaysInFront (W.written out.old) (W.written out.new) }
    ensures only { IsOkUnless result VortexError.OutOfMemory }
{
    match validity {
        RowValidity::NonNullable => put_number(out, 5, 1),
        RowValidity::AllValid => put_number(out, 5, 2),
        RowValidity::AllInvalid => put_number(out, 5, 3),
        RowValidity::Bits(bits) => put_bit_validity(out, bits),
        RowValidity::Runs(runs) => put_run_validity(out, runs),
    }
}

// Writes that the validity is in runs of booleans, and their message.
fn put_run_validity<A: Allocator + Copy, W: BufMut>(
    out: &mut W,
    runs: &RunEndArray<A>,
) -> VortexResult<()>
    requires { IsPlainTruths runs.now.values }
    ensures ok { OnOk result (W.written out.new ≡ W.written out.old ++ row_validity_field (runs_validity runs.now)) }
    ensures room { UsesCountedRoom result (W.spare out.old) (W.spare out.new)
        (length (row_validity_field (runs_validity runs.now))) }
    ensures stored { OnOk result (IsStoredValidity (runs_validity runs.now)) }
    ensures kept { StaysInFront (W.written out.old) (W.written out.new) }
    ensures only { IsOkUnless result VortexError.OutOfMemory }
{
    let flags = flat_runs_size(runs)?;
    put_number(out, 5, 5)?;
    put_bytes_key(out, 16, flags)?;
    put_flat_runs(out, runs)?;
    Ok(())
}

// Writes elements, offsets and sizes, each as a message of its own.
fn put_parts<A: Allocator + Copy, W: BufMut>(
    out: &mut W,
    lists: &ListViewArray<A>,
) -> VortexResult<()>
    ensures ok { OnOk result (W.written out.new ≡ W.written out.old ++ list_fields (leaf_message lists.now.elements)
        (index_message lists.now.offsets) (index_message lists.now.sizes)) }
    ensures room { UsesCountedRoom result (W.spare out.old) (W.spare out.new)
        (length (list_fields (leaf_message lists.now.elements) (index_message lists.now.offsets)
        (index_message lists.now.sizes))) }
    ensures elements { OnOk result (IsStoredLeaf lists.now.elements) }
    ensures offsets { OnOk result (IsStoredIndex lists.now.offsets) }
    ensures sizes { OnOk result (IsStoredIndex lists.now.sizes) }
    ensures kept { StaysInFront (W.written out.old) (W.written out.new) }
    ensures only { IsOkUnless result VortexError.OutOfMemory }
{
    let elements = elements_size(lists.elements())?;
    put_bytes_key(out, 17, elements)?;
    put_elements(out, lists.elements())?;
    put_index_field(out, 18, lists.offsets())?;
    put_index_field(out, 19, lists.sizes())?;
    Ok(())
}

// Writes the message of the elements at the end.
fn put_elements<A: Allocator, W: BufMut>(out: &mut W, column: &FlatColumn<A>) -> VortexResult<()>
    ensures ok { OnOk result (W.written out.new ≡ W.written out.old ++ column_bytes (OfLeaf (leaf_of column.now))) }
    ensures room { UsesCountedRoom result (W.spare out.old) (W.spare out.new)
        (length (column_bytes (OfLeaf (leaf_of column.now)))) }
    ensures stored { OnOk result (IsStoredLeaf (leaf_of column.now)) }
    ensures kept { StaysInFront (W.written out.old) (W.written out.new) }
    ensures only { IsOkUnless result VortexError.OutOfMemory }
{
    match column {
        FlatColumn::Primitive(numbers) => put_numbers(out, numbers),
        FlatColumn::Bool(truths) => put_truths(out, truths),
        FlatColumn::Decimal(decimals) => put_decimal_rows(out, decimals),
        FlatColumn::VarBinView(texts) => put_texts(out, texts),
    }
}

// Writes the field of the message of offsets or of sizes at the end.
fn put_index_field<A: Allocator + Copy, W: BufMut>(
    out: &mut W,
    field: u64,
    index: &ArrayRef<A>,
) -> VortexResult<()>
    requires field { field < 32 }
    requires index { IsIndex (column_of index.now) }
    ensures ok { OnOk result (W.written out.new ≡ W.written out.old ++
        bytes_field field (column_bytes (column_of index.now))) }
    ensures room { UsesCountedRoom result (W.spare out.old) (W.spare out.new)
        (length (bytes_field field (column_bytes (column_of index.now)))) }
    ensures same { column_bytes (column_of index.now) ≡ index_message (index_of (column_of index.now)) }
    ensures stored { OnOk result (IsStored (column_of index.now)) }
    ensures kept { StaysInFront (W.written out.old) (W.written out.new) }
    ensures only { IsOkUnless result VortexError.OutOfMemory }
{
    let count = index_size(index)?;
    put_bytes_key(out, field, count)?;
    put_index(out, index)?;
    Ok(())
}

// Writes the message of offsets or of sizes at the end.
fn put_index<A: Allocator + Copy, W: BufMut>(out: &mut W, index: &ArrayRef<A>) -> VortexResult<()>
    requires { IsIndex (column_of index.now) }
    ensures ok { OnOk result (W.written out.new ≡ W.written out.old ++ column_bytes (column_of index.now)) }
    ensures room { UsesCountedRoom result (W.spare out.old) (W.spare out.new)
        (length (column_bytes (column_of index.now))) }
    ensures kept { StaysInFront (W.written out.old) (W.written out.new) }
    ensures only { IsOkUnless result VortexError.OutOfMemory }
{
    match index {
        ArrayRef::Primitive(numbers) => put_numbers(out, numbers),
        ArrayRef::RunEnd(runs) => put_flat_runs(out, runs),
        _ => unreachable!(),
    }
}

// Writes the message of runs over flat integers or booleans at the end.
fn put_flat_runs<A: Allocator + Copy, W: BufMut>(
    out: &mut W,
    runs: &RunEndArray<A>,
) -> VortexResult<()>
    requires { IsPlainIndex runs.now.values ⊎ IsPlainTruths runs.now.values }
    ensures ok { OnOk result (W.written out.new ≡ W.written out.old ++ column_bytes (column_of_runs runs.now)) }
    ensures room { UsesCountedRoom result (W.spare out.old) (W.spare out.new)
        (length (column_bytes (column_of_runs runs.now))) }
    ensures kept { StaysInFront (W.written out.old) (W.written out.new) }
    ensures only { IsOkUnless result VortexError.OutOfMemory }
{
    let values = run_values_size(runs.values())?;
    put_runs(out, runs, values)?;
    put_run_values(out, runs.values())?;
    Ok(())
}

// Writes the message of flat integers or booleans, which are values of runs, at the end.
fn put_run_values<A: Allocator + Copy, W: BufMut>(
    out: &mut W,
    values: &ArrayRef<A>,
) -> VortexResult<()>
    requires { IsPlainIndex (column_of values.now) ⊎ IsPlainTruths (column_of values.now) }
    ensures ok { OnOk result (W.written out.new ≡ W.written out.old ++ column_bytes (column_of values.now)) }
    ensures room { UsesCountedRoom result (W.spare out.old) (W.spare out.new)
        (length (column_bytes (column_of values.now))) }
    ensures kept { StaysInFront (W.written out.old) (W.written out.new) }
    ensures only { IsOkUnless result VortexError.OutOfMemory }
{
    match values {
        ArrayRef::Primitive(numbers) => put_numbers(out, numbers),
        ArrayRef::Bool(truths) => put_truths(out, truths),
        _ => unreachable!(),
    }
}
