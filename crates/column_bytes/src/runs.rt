//! Run columns over values that are read and written by themselves.
ghost use Rattle.std.specs.Prelude.{◌≡◌, ◌+◌, ◌<◌, ◌++◌, ◌↔◌, IsTrue, length, true, slice_index, OnOk, IfOk, IfErr, IsErrOf, IsOkUnless};
ghost use Rattle.column_core.specs.PrimitiveForm.{primitive_dtype};
ghost use Rattle.runend_windows.specs.Ends.{IsEndsType, ends_of};
ghost use Rattle.runend_array.specs.Array.{column_of, dtype_of};
ghost use Rattle.runend_array.specs.Column.{OfRuns, AreRuns, column_dtype, column_of_runs, runs_with};
ghost use Rattle.runend_windows.specs.Window.{IsWindow};
ghost use Rattle.column_fields.specs.Kept.{StaysInFront};
ghost use Rattle.column_fields.specs.Lengths.{AreEndsOf, HasNoEndsOf, Rises};
ghost use Rattle.column_fields.specs.Refusal.{IsBadOrMemory};
ghost use Rattle.column_fields.specs.Room.{UsesCountedRoom};
ghost use Rattle.column_fields.specs.Sizes.{IsPast};
ghost use Rattle.column_bytes.specs.Bytes.{column_bytes, kind_number};
ghost use Rattle.column_bytes.specs.Read.{AreRunsOf, AreNoRunsOf, IsEndsColumn};

use crate::kinds::number_of_kind;
use bytes::BufMut;
use column_base::{PType, Validity, VortexError, VortexResult};
use column_core::PrimitiveArray;
use column_fields::{
    Header, RunFields, header_size, load_ends, put_header, put_run_fields, run_fields_size,
    size_of_total,
};
use runend_array::{ArrayRef, RunEnd, RunEndArray, RunEndArrayExt, RunEndArraySlotsExt};
use runend_windows::last_end_of;
use std::alloc::Allocator;

/// Appends a run column, except for the message of its values, which has `values` bytes and has to come next. Refused
/// only as `OutOfMemory`.
pub(crate) fn put_runs<A: Allocator + Copy, W: BufMut>(
    out: &mut W,
    runs: &RunEndArray<A>,
    values: usize,
) -> VortexResult<()>
    requires { values ≡ length (column_bytes runs.now.values) }
    ensures ok { OnOk result (W.written out.new ++ column_bytes runs.now.values ≡
        W.written out.old ++ column_bytes (column_of_runs runs.now)) }
    ensures room { UsesCountedRoom result (W.spare out.old + values) (W.spare out.new)
        (length (column_bytes (column_of_runs runs.now))) }
    ensures fit { OnOk result (AreEndsOf runs.now.ends_type runs.now.ends) }
    ensures runs { AreRuns runs.now }
    ensures kept { StaysInFront (W.written out.old) (W.written out.new) }
    ensures only { IsOkUnless result VortexError.OutOfMemory }
{
    let ArrayRef::Primitive(ends) = runs.ends() else {
        unreachable!()
    };
    put_header(out, header_of(runs))?;
    put_run_fields(
        out,
        runs.offset() as u64,
        ends.ptype(),
        ends.values(),
        values,
    )?;
    Ok(())
}

/// Returns how many bytes the message of a run column has, given the number of bytes of the message of its values.
/// Refused as `OutOfMemory` exactly where the answer does not fit `usize`.
pub(crate) fn runs_size<A: Allocator + Copy>(
    runs: &RunEndArray<A>,
    values: usize,
) -> VortexResult<usize>
    requires { values ≡ length (column_bytes runs.now.values) }
    ensures size { IfOk result (λ size. size ≡ length (column_bytes (column_of_runs runs.now))) }
    ensures fit { AreEndsOf runs.now.ends_type runs.now.ends }
    ensures runs { AreRuns runs.now }
    ensures past { IfErr result (λ error. IsPast (length (column_bytes (column_of_runs runs.now))) error) }
{
    let ArrayRef::Primitive(ends) = runs.ends() else {
        unreachable!()
    };
    let header = header_size(header_of(runs));
    match run_fields_size(runs.offset() as u64, ends.ptype(), ends.values(), values) {
        Ok(fields) => size_of_total(header as u128 + fields as u128),
        Err(error) => Err(error),
    }
}

// The header of a run column.
fn header_of<A: Allocator + Copy>(runs: &RunEndArray<A>) -> Header
    ensures kind { result.kind ≡ kind_number (column_dtype runs.now.values) }
    ensures form { result.form ≡ 2 }
    ensures rows { result.rows ≡ runs.now.count }
{
    Header {
        kind: number_of_kind(runs.dtype()),
        form: 2,
        rows: runs.len() as u64,
    }
}

/// Returns the run column after this header, with these fields and values. Refused as `BadMetadata` exactly where they
/// make none, else only as `OutOfMemory`.
pub(crate) fn read_runs<A: Allocator + Copy>(
    alloc: A,
    header: Header,
    fields: RunFields<'_>,
    values: ArrayRef<A>,
) -> VortexResult<ArrayRef<A>>
    ensures found { IfOk result (λ array. AreRunsOf header.kind header.rows fields.entry.offset
        fields.entry.ends_type fields.entry.lengths.now (column_of values) (column_of array)) }
    ensures bad { IsErrOf result VortexError.BadMetadata → AreNoRunsOf header.kind header.rows fields.entry.offset
        fields.entry.ends_type fields.entry.lengths.now (column_of values) }
    ensures only { IfErr result IsBadOrMemory }
{
    let runs = read_run_array(alloc, header, fields, values)?;
    ArrayRef::of_runs(alloc, runs)
}

/// Returns the same run column, not as an array.
pub(crate) fn read_run_array<A: Allocator + Copy>(
    alloc: A,
    header: Header,
    fields: RunFields<'_>,
    values: ArrayRef<A>,
) -> VortexResult<RunEndArray<A>>
    ensures found { IfOk result (λ runs. AreRunsOf header.kind header.rows fields.entry.offset
        fields.entry.ends_type fields.entry.lengths.now (column_of values) (column_of_runs runs)) }
    ensures bad { IsErrOf result VortexError.BadMetadata → AreNoRunsOf header.kind header.rows fields.entry.offset
        fields.entry.ends_type fields.entry.lengths.now (column_of values) }
    ensures only { IfErr result IsBadOrMemory }
{
    match read_ends(alloc, fields.ends_type, fields.lengths) {
        Ok(ends) => {
            let (offset, rows) = (fields.offset as usize, header.rows as usize);
            match join_runs(header.kind, ends, values, offset, rows) {
                Ok(runs) => Ok(runs),
                Err(error) => Err(error),
            }
        }
        Err(error) => {
            drop(values);
            Err(error)
        }
    }
}

// The ends, of that type, of runs with these lengths.
fn read_ends<A: Allocator + Copy>(
    alloc: A,
    ends_type: PType,
    lengths: &[u8],
) -> VortexResult<PrimitiveArray<A>>
    ensures found { IfOk result (λ ends. IsEndsColumn ends_type lengths.now ends) }
    ensures bad { IsErrOf result VortexError.BadMetadata → HasNoEndsOf ends_type lengths.now }
    ensures only { IfErr result IsBadOrMemory }
{
    match load_ends(alloc, ends_type, lengths) {
        Ok(values) => Ok(PrimitiveArray::new_unchecked(values, Validity::NonNullable)),
        Err(error) => Err(error),
    }
}

// The run column of these parts, if the values are of the kind that is stated.
fn join_runs<A: Allocator + Copy>(
    kind: u64,
    ends: PrimitiveArray<A>,
    values: ArrayRef<A>,
    offset: usize,
    rows: usize,
) -> VortexResult<RunEndArray<A>>
    requires plain { IsEndsType (primitive_dtype ends) }
    requires rising { Rises true 0 (ends_of ends) }
    ensures form { IfOk result
        (λ runs. column_of_runs runs ≡ OfRuns ends.ptype (ends_of ends) (column_of values) offset rows) }
    ensures runs { OnOk result (AreRuns (runs_with ends.ptype (ends_of ends) (column_of values) offset rows)) }
    ensures kind { OnOk result (kind_number (dtype_of values) ≡ kind) }
    ensures bad { IsErrOf result VortexError.BadMetadata → kind_number (dtype_of values) ≡ kind
        → ¬ AreRuns (runs_with ends.ptype (ends_of ends) (column_of values) offset rows) }
    ensures only { IsOkUnless result VortexError.BadMetadata }
{
    if number_of_kind(values.dtype()) != kind {
        drop(values);
        drop(ends);
        return Err(VortexError::BadMetadata);
    }
    if !are_runs(&ends, values.len(), offset, rows) {
        drop(values);
        drop(ends);
        return Err(VortexError::BadMetadata);
    }
    Ok(RunEnd::new_unchecked(ArrayRef::Primitive(ends), values, offset, rows))
}

// Do ends that rise and this number of values make runs that show `rows` rows from `offset` on? Looks only at the first
// and the last end.
fn are_runs<A: Allocator>(
    ends: &PrimitiveArray<A>,
    values: usize,
    offset: usize,
    rows: usize,
) -> bool
    requires plain { IsEndsType (primitive_dtype ends.now) }
    requires rising { Rises true 0 (ends_of ends.now) }
    ensures { IsTrue result ↔ (IsWindow (ends_of ends.now) offset rows × (values ≡ length (ends_of ends.now))) }
{
    if ends.len() != values {
        return false;
    }
    if values == 0 {
        return offset == 0 && rows == 0;
    }
    let Some(stop) = offset.checked_add(rows) else {
        return false;
    };
    if rows == 0 {
        return true;
    }
    if first_end(ends) < offset as u128 {
        return false;
    }
    stop <= last_end_of(ends)
}

// The end of the first run.
fn first_end<A: Allocator>(ends: &PrimitiveArray<A>) -> u128
    requires { 0 < length ends.now.numbers }
    ensures { result ≡ slice_index (ends_of ends.now) 0 }
{
    ends.values().get(0).unsigned_abs()
}
