//! Bits as words of 64, and whether rows and room are there.
ghost use Rattle.std.specs.Prelude.{◌≡◌, ℕ, ◌+◌, ◌/◌, ◌<◌, ◌≤◌, length, replicate, IfOk, OnErr};
ghost use Rattle.std.specs.Int.{bit_at};
ghost use Rattle.column_base.specs.Words.{IsClearedFrom, Packs, one_if};
ghost use Rattle.c_columns.specs.ReadFaults.{IsRefusedOnlyBy, past_fault, room_fault, words_fault};

use column_core::{BitBuffer, VortexError, VortexResult};
use std::alloc::Global;

/// Tests that there are `count` rows from `start` on. Refused as `BadRange`, with the stop that is asked for, or 2^64 -
/// 1 where that does not fit `usize`.
pub fn check_range(start: usize, count: usize, length: usize) -> VortexResult<()>
    ensures there { IfOk result (λ _. start + count ≤ length) }
    ensures refused { IsRefusedOnlyBy (past_fault start count length) result }
{
    if start > length || count > length - start {
        return Err(VortexError::BadRange {
            start,
            stop: start.saturating_add(count),
            length,
        });
    }
    Ok(())
}

/// Tests that the room is exactly what is needed. Refused as `ColumnLength`, with the number that is needed and the
/// room.
pub fn check_room(needed: usize, room: usize) -> VortexResult<()>
    ensures there { IfOk result (λ _. needed ≡ room) }
    ensures refused { IsRefusedOnlyBy (room_fault needed room) result }
{
    if needed != room {
        return Err(VortexError::ColumnLength {
            left: needed,
            right: room,
        });
    }
    Ok(())
}

/// Writes the words of these bits. Refused as `ColumnLength` for another number of words.
pub fn put_bits(bits: &BitBuffer<Global>, words: &mut [u64]) -> VortexResult<()>
    ensures packed { IfOk result (λ _. Packs words.new bits.now) }
    ensures refused { IsRefusedOnlyBy (words_fault (length bits.now) (length words.old)) result }
    ensures kept { OnErr result (words.new ≡ words.old) }
    ensures len { length words.new ≡ length words.old }
{
    let stored = bits.words();
    check_room(stored.len(), words.len())?;
    words.copy_from_slice(stored);
    Ok(())
}

/// Writes the words of `count` bits that are all the same. Refused as `ColumnLength` for another number of words.
pub fn put_same(bit: bool, count: usize, words: &mut [u64]) -> VortexResult<()>
    ensures packed { IfOk result (λ _. Packs words.new (replicate count bit)) }
    ensures refused { IsRefusedOnlyBy (words_fault count (length words.old)) result }
    ensures kept { OnErr result (words.new ≡ words.old) }
    ensures len { length words.new ≡ length words.old }
{
    check_room(count.div_ceil(64), words.len())?;
    words.fill(splat(bit));
    clear_from(words, count);
    Ok(())
}

// 64 times the same bit.
fn splat(bit: bool) -> u64
    ensures { (j : ℕ) → j < 64 → bit_at result j ≡ one_if bit }
{
    if bit { u64::MAX } else { 0 }
}

// Makes each bit from `count` on 0. The last word has bit `count - 1`.
fn clear_from(words: &mut [u64], count: usize)
    requires { length words.old ≡ (count + 63) / 64 }
    ensures { IsClearedFrom words.old words.new count }
{
    let used = count % 64;
    if used != 0 {
        words[count / 64] &= u64::MAX >> (64 - used);
    }
}
