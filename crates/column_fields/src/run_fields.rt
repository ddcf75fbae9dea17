//! What a message of runs ends with.
ghost use Rattle.std.specs.Prelude.{◌≡◌, ℕ, ◌+◌, ◌^◌, ◌<◌, List, ◌++◌, length, map, unsigned_abs, IfSome, IfNone, IfOk, IfErr, OnOk, IsOkUnless};
ghost use Rattle.column_base.specs.Numbers.{numbers, ptype_of};
ghost use Rattle.column_base.specs.Types.{IsUnsigned};
ghost use Rattle.column_fields.specs.Kept.{StaysInFront};
ghost use Rattle.column_fields.specs.Lengths.{lengths_bytes, AreEndsOf};
ghost use Rattle.column_fields.specs.Room.{UsesCountedRoom};
ghost use Rattle.column_fields.specs.RunFields.{run_fields, AreNoRunFields};
ghost use Rattle.column_fields.specs.Sizes.{IsPast};

use crate::fields::{put_bytes_key, put_number, read_bytes, read_last_bytes, read_number};
use crate::length_sizes::lengths_size;
use crate::lengths::put_lengths_field;
use crate::sizes::{bytes_key_size, number_size, size_of_total};
use crate::types::{number_of_type, type_of_number};
use bytes::BufMut;
use column_base::{PType, PrimitiveValues, VortexError, VortexResult};
use std::alloc::Allocator;

/// Holds the row at which the column begins, the type of the ends, the run lengths, and the message of the values.
#[derive(Clone, Copy)]
pub struct RunFields<'a> {
    pub offset: u64,
    pub ends_type: PType,
    pub lengths: &'a [u8],
    pub values: &'a [u8],
}

/// Appends the fields, except for the message of the values, which has `values` bytes and has to come next. Refused
/// only as `OutOfMemory`.
pub fn put_run_fields<A: Allocator, W: BufMut>(
    out: &mut W,
    offset: u64,
    ends_type: PType,
    ends: &PrimitiveValues<A>,
    values: usize,
) -> VortexResult<()>
    requires { IsUnsigned (ptype_of ends.now) }
    ensures ok { OnOk result ((message : List ℕ) → length message ≡ values →
        W.written out.new ++ message ≡ W.written out.old ++
        run_fields offset ends_type (lengths_bytes 0 (map unsigned_abs (numbers ends.now))) message) }
    ensures room { (message : List ℕ) → length message ≡ values →
        UsesCountedRoom result (W.spare out.old + values) (W.spare out.new)
        (length (run_fields offset ends_type (lengths_bytes 0 (map unsigned_abs (numbers ends.now))) message)) }
    ensures fit { OnOk result (AreEndsOf (ptype_of ends.now) (map unsigned_abs (numbers ends.now))) }
    ensures kept { StaysInFront (W.written out.old) (W.written out.new) }
    ensures only { IsOkUnless result VortexError.OutOfMemory }
{
    put_number(out, 8, offset)?;
    put_number(out, 9, number_of_type(ends_type))?;
    put_lengths_field(out, 10, ends)?;
    put_bytes_key(out, 11, values)?;
    Ok(())
}

/// Returns how many bytes the fields have, given the number of bytes of the message of the values. Refused as
/// `OutOfMemory` exactly where the answer does not fit `usize`.
pub fn run_fields_size<A: Allocator>(
    offset: u64,
    ends_type: PType,
    ends: &PrimitiveValues<A>,
    values: usize,
) -> VortexResult<usize>
    requires { IsUnsigned (ptype_of ends.now) }
    ensures size { IfOk result (λ size. (message : List ℕ) → length message ≡ values → size ≡
        length (run_fields offset ends_type (lengths_bytes 0 (map unsigned_abs (numbers ends.now))) message)) }
    ensures fit { AreEndsOf (ptype_of ends.now) (map unsigned_abs (numbers ends.now)) }
    ensures past { IfErr result (λ error. (message : List ℕ) → length message ≡ values → IsPast
        (length (run_fields offset ends_type (lengths_bytes 0 (map unsigned_abs (numbers ends.now))) message)) error) }
{
    match lengths_size(ends) {
        Ok(lengths) => {
            let numbers = number_size(8, offset) + number_size(9, number_of_type(ends_type));
            let keys = bytes_key_size(10, lengths) + bytes_key_size(11, values);
            match size_of_total((numbers + keys) as u128 + lengths as u128 + values as u128) {
                Ok(size) => Ok(size),
                Err(error) => Err(error),
            }
        }
        Err(error) => Err(error),
    }
}

/// Returns the fields that the bytes are.
pub fn read_run_fields(bytes: &[u8]) -> Option<RunFields<'_>>
    ensures found { IfSome result (λ f. bytes.now ≡ run_fields f.offset f.ends_type f.lengths.now f.values.now) }
    ensures small { IfSome result (λ f. (f.offset < 2 ^ 64) × (length f.lengths.now < 2 ^ 64) ×
        (length f.values.now < 2 ^ 64)) }
    ensures none { IfNone result (AreNoRunFields bytes.now) }
{
    let (offset, after_offset) = read_number(bytes, 8)?;
    let (number, after_type) = read_number(after_offset, 9)?;
    let ends_type = type_of_number(number)?;
    let (lengths, after_lengths) = read_bytes(after_type, 10)?;
    let values = read_last_bytes(after_lengths, 11)?;
    Some(RunFields {
        offset,
        ends_type,
        lengths,
        values,
    })
}
