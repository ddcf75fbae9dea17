//! The record, read and written.
ghost use Rattle.std.specs.Prelude.{◌≡◌, ◌≢◌, ◌≤◌, ℕ, ◌==◌, if◌then◌else◌, unwrap_or, Some, IfSome, IfNone, ◌↔◌, IfOk, IsOkUnless, vec_len, vec_capacity};
ghost use Rattle.column_base.specs.declared.error.VortexError.TheVariants.{OutOfMemory, BadMetadata, EndsTypeNumber};
ghost use Rattle.column_base.specs.Types.{IsUnsigned};
ghost use Rattle.column_fields.specs.Spelling.{Appends, HasLength, FitsBehind};
ghost use Rattle.column_fields.specs.RecordFields.{SpellsNumbers, IsNoRecord};
ghost use Rattle.column_fields.specs.WrittenRecord.{IsWrittenField};

use crate::record_fields::{FieldValue, read_field};
use crate::varint::{push_varint, varint_len};
use column_base::{PType, VortexError, VortexResult};
use std::alloc::Allocator;

/// Holds what a record says of a run column apart from its ends and values.
#[derive(Clone, Copy, Debug, Default, PartialEq, Eq)]
pub struct RunEndMetadata {
    /// Names the type of the ends: 0 u8, 1 u16, 2 u32, 3 u64.
    pub ends_ptype: i32,
    /// Counts the runs.
    pub num_runs: u64,
    /// Counts the rows from the start of the first run to the first row of the column.
    pub offset: u64,
}

impl RunEndMetadata {
    ghost use Rattle.column_fields.specs.EndsType.{ends_type_number, IsEndsTypeNumber};
    ghost use Rattle.column_fields.specs.RecordFields.{IsRecord, Means, StatesUnknownEndsType};
    ghost use Rattle.column_fields.specs.WrittenRecord.{IsWritten};

    /// Returns the type of the ends, which is unsigned.
    pub fn ends_ptype(&self) -> PType
        requires { IsEndsTypeNumber self.now.ends_ptype }
        ensures number { ends_type_number result ≡ Some self.now.ends_ptype }
        ensures unsigned { IsUnsigned result }
    {
        match self.ends_ptype {
            0 => PType::U8,
            1 => PType::U16,
            2 => PType::U32,
            3 => PType::U64,
            _ => unreachable!(),
        }
    }

    /// Sets the type of the ends to an unsigned type; runs and offset stay.
    pub fn set_ends_ptype(&mut self, ptype: PType)
        requires { IsUnsigned ptype }
        ensures number { ends_type_number ptype ≡ Some self.new.ends_ptype }
        ensures known { IsEndsTypeNumber self.new.ends_ptype }
        ensures rest { self.new ≡ record self.old { ends_ptype = self.new.ends_ptype } }
    {
        self.ends_ptype = match ptype {
            PType::U8 => 0,
            PType::U16 => 1,
            PType::U32 => 2,
            PType::U64 => 3,
            _ => unreachable!(),
        };
    }

    /// Returns the record that the bytes spell: the last field of each number 1, 2 and 3 counts, an absent one is 0,
    /// and other fields are skipped. Refused as `BadMetadata` where the bytes do not spell fields, and else as
    /// `EndsTypeNumber` where the last number for the type of the ends is above 3. Takes no memory.
    pub fn decode(bytes: &[u8]) -> VortexResult<RunEndMetadata>
        ensures ok { (m : RunEndMetadata) → (result ≡ Ok m) ↔ Means bytes.now m }
        ensures known { IfOk result (λ m. IsEndsTypeNumber m.ends_ptype) }
        ensures number { (n : ℕ) → (result ≡ Err (EndsTypeNumber n)) ↔ StatesUnknownEndsType bytes.now n }
        ensures bad { (result ≡ Err BadMetadata) ↔ ¬ IsRecord bytes.now }
        ensures memory { result ≢ Err OutOfMemory }
    {
        let Some(numbers) = read_numbers(bytes) else {
            return Err(VortexError::BadMetadata);
        };
        if numbers.ends_type > 3 {
            return Err(VortexError::EndsTypeNumber {
                number: numbers.ends_type,
            });
        }
        Ok(RunEndMetadata {
            ends_ptype: numbers.ends_type as i32,
            num_runs: numbers.runs,
            offset: numbers.offset,
        })
    }

    /// Returns the written form: the fields that are not 0, in order, each number in the least number of bytes. Refused
    /// only for memory.
    pub fn encode_to_vec<A: Allocator>(&self, alloc: A) -> VortexResult<Vec<u8, A>>
        requires { IsEndsTypeNumber self.now.ends_ptype }
        ensures written { IfOk result (λ bytes. IsWritten bytes.items self.now) }
        ensures means { IfOk result (λ bytes. Means bytes.items self.now) }
        ensures only { IsOkUnless result OutOfMemory }
    {
        let ends_type = self.ends_ptype as u64;
        let capacity = field_len(1, ends_type)
            + field_len(2, self.num_runs)
            + field_len(3, self.offset);
        let mut out = Vec::with_capacity(alloc, capacity)?;
        push_field(&mut out, 1, ends_type);
        push_field(&mut out, 2, self.num_runs);
        push_field(&mut out, 3, self.offset);
        Ok(out)
    }
}

/// Holds the last value of each field so far.
#[derive(Clone, Copy)]
struct Numbers {
    ends_type: u64,
    runs: u64,
    offset: u64,
}

/// Returns the last values of the fields that the bytes spell.
#[tactic(auto, using(crate::proofs::Records::started, crate::proofs::Records::field_shorter, crate::proofs::Records::one_more_field, crate::proofs::Records::all_read, crate::proofs::Records::stuck))]
fn read_numbers(bytes: &[u8]) -> Option<Numbers>
    ensures found { IfSome result (λ n. SpellsNumbers bytes.now n.ends_type n.runs n.offset) }
    ensures none { IfNone result (IsNoRecord bytes.now) }
{
    let mut rest = bytes;
    let mut ends_type = 0;
    let mut runs = 0;
    let mut offset = 0;
    while !rest.is_empty() {
        let (field, after) = read_field(rest)?;
        ends_type = latest(ends_type, 1, field);
        runs = latest(runs, 2, field);
        offset = latest(offset, 3, field);
        rest = after;
    }
    Some(Numbers {
        ends_type,
        runs,
        offset,
    })
}

/// Returns the value of the field if it has that number, else the value before.
fn latest(before: u64, number: u64, field: FieldValue) -> u64
    ensures { result ≡ (if field.number == number then unwrap_or field.value 0 else before) }
{
    if field.number == number {
        field.value.unwrap_or(0)
    } else {
        before
    }
}

/// Returns how many bytes a field with that number has when it is written.
fn field_len(number: u64, value: u64) -> usize
    requires { number ≤ 3 }
    ensures exact { HasLength (IsWrittenField number) value result }
    ensures most { result ≤ 20 }
{
    if value == 0 {
        return 0;
    }
    varint_len(number * 8) + varint_len(value)
}

/// Writes a field with that number at the end, or nothing if its value is 0. There is room for it.
fn push_field<A: Allocator>(out: &mut Vec<u8, A>, number: u64, value: u64)
    requires number { number ≤ 3 }
    requires room { FitsBehind (IsWrittenField number) (vec_len out.old) (vec_capacity out.old) value }
    ensures written { Appends (IsWrittenField number) out.old.items value out.new.items }
    ensures capacity { vec_capacity out.new ≡ vec_capacity out.old }
{
    if value != 0 {
        push_varint(out, number * 8);
        push_varint(out, value);
    }
}
