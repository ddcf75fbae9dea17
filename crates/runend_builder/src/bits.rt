//! Bits that grow, a byte for each, and are packed at last.
ghost use Rattle.std.specs.Prelude.{◌≡◌, ◌+◌, ◌-◌, ◌/◌, ◌≤◌, ◌++◌, IfOk, IsOkUnless, OnErr, OnOk, drop, length, replicate, vec_capacity, vec_len};
ghost use Rattle.column_base.specs.Validity.{form_of};
ghost use Rattle.column_base.specs.ValidityForm.{HasLength, flags as flags_in};
ghost use Rattle.column_base.specs.Words.{first_bits, IsWordOf};

use column_core::{BitBuffer, BitBufferMut, Validity, VortexError, VortexResult};
use std::alloc::Allocator;

/// Appends a flag for each of `count` rows from row `start` on, which says whether it is not null. Refused only as
/// `OutOfMemory`, and then the flags stay as they are.
pub(crate) fn append_flags<A: Allocator>(
    flags: &mut Vec<bool, A>,
    validity: &Validity<A>,
    start: usize,
    count: usize,
) -> VortexResult<()>
    requires within { start ≤ count }
    requires counted { HasLength (form_of validity.now) count }
    ensures only { IsOkUnless result VortexError.OutOfMemory }
    ensures flags { OnOk result (flags.new.items ≡
        flags.old.items ++ drop start (flags_in (form_of validity.now) count)) }
    ensures kept { OnErr result (flags.new.items ≡ flags.old.items) }
{
    match validity {
        Validity::NonNullable => append_copies(flags, true, count - start),
        Validity::AllValid => append_copies(flags, true, count - start),
        Validity::AllInvalid => append_copies(flags, false, count - start),
        Validity::Bits(bits) => append_bits(flags, bits, start),
    }
}

// Appends `count` copies of a flag. Refused only as `OutOfMemory`, and then the flags stay as they are.
fn append_copies<A: Allocator>(
    flags: &mut Vec<bool, A>,
    flag: bool,
    count: usize,
) -> VortexResult<()>
    ensures only { IsOkUnless result VortexError.OutOfMemory }
    ensures flags { OnOk result (flags.new.items ≡ flags.old.items ++ replicate count flag) }
    ensures kept { OnErr result (flags.new.items ≡ flags.old.items) }
{
    flags.reserve(count)?;
    flags.resize(flags.len() + count, flag)?;
    Ok(())
}

/// Appends the bits from bit `start` on. Refused only as `OutOfMemory`, and then the others stay as they are.
pub(crate) fn append_bits<A: Allocator>(
    grown: &mut Vec<bool, A>,
    bits: &BitBuffer<A>,
    start: usize,
) -> VortexResult<()>
    requires { start ≤ length bits.now }
    ensures only { IsOkUnless result VortexError.OutOfMemory }
    ensures bits { OnOk result (grown.new.items ≡ grown.old.items ++ drop start bits.now) }
    ensures kept { OnErr result (grown.new.items ≡ grown.old.items) }
{
    grown.reserve(bits.len() - start)?;
    push_bits(grown, bits, start);
    Ok(())
}

/// Returns the bits, 64 to a word. Refused only as `OutOfMemory`.
pub(crate) fn packed<A: Allocator + Copy>(alloc: A, bits: &[bool]) -> VortexResult<BitBuffer<A>>
    ensures only { IsOkUnless result VortexError.OutOfMemory }
    ensures bits { IfOk result (λ buffer. buffer ≡ bits.now) }
{
    let words = words_of(alloc, bits)?;
    Ok(BitBufferMut::from_words(words, bits.len()).freeze())
}

// The words that hold the bits.
fn words_of<A: Allocator + Copy>(alloc: A, bits: &[bool]) -> VortexResult<Vec<u64, A>>
    ensures only { IsOkUnless result VortexError.OutOfMemory }
    ensures len { IfOk result (λ words. length words.items ≡ (length bits.now + 63) / 64) }
    ensures bits { IfOk result (λ words. first_bits (length bits.now) words.items ≡ bits.now) }
{
    let mut words = Vec::with_capacity(alloc, bits.len().div_ceil(64))?;
    for chunk in bits.chunks(64) {
        words.push(word_of(chunk))?;
    }
    Ok(words)
}

// Up to 64 bits as a word, with 0 after them.
#[inline(always)]
fn word_of(bits: &[bool]) -> u64
    requires { length bits.now ≤ 64 }
    ensures { IsWordOf result bits.now }
{
    let mut word = 0;
    for index in 0..bits.len() {
        word |= u64::from(bits[index]) << index;
    }
    word
}

// The same where there is room.
fn push_bits<A: Allocator>(grown: &mut Vec<bool, A>, bits: &BitBuffer<A>, start: usize)
    requires within { start ≤ length bits.now }
    requires room { vec_len grown.old + (length bits.now - start) ≤ vec_capacity grown.old }
    ensures { grown.new.items ≡ grown.old.items ++ drop start bits.now }
{
    for row in start..bits.len() {
        grown.push_reserved(bits.value(row));
    }
}
