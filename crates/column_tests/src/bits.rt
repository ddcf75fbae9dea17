//! Bits, masks and validities, with each request for memory refused in turn.
ghost use Rattle.std.specs.Prelude.{◌≡◌, IfOk, length};

use crate::parts::bits;
use column_base::{BitBuffer, BitBufferMut, Mask, Validity, VortexResult};
use refusing::{Calls, are_answered_in_turn};
use std::alloc::Allocator;
use std::test::Fail;

// A false bit and 69 true ones; six of these are cleared and the last three cut off.
fn sixty_seven_bits<A: Allocator + Copy>(alloc: A) -> VortexResult<BitBuffer<A>>
    ensures { IfOk result (λ bits. length bits ≡ 67) }
{
    let mut bits = BitBufferMut::with_capacity(alloc, 1)?;
    bits.append(false)?;
    bits.append_n(true, 69)?;
    bits.fill_range(60, 66, false);
    bits.truncate(67);
    Ok(bits.freeze())
}

// 2^60 - 2, and the bit of number 66.
const WORDS: [u64; 2] = [1_152_921_504_606_846_974, 4];

// The bits 58, 59 and 66 are the first, second and ninth from bit 58 on.
const LAST_WORD: [u64; 1] = [259];

// Copied, and the end of the copy cut out.
struct Written {}

impl Calls for Written {
    fn are_answered<A: Allocator + Copy>(alloc: A) -> VortexResult<bool> {
        let bits = sixty_seven_bits(alloc)?;
        let copy = bits.try_clone(alloc);
        drop(bits);
        let copy = copy?;
        let is_copied = copy.words() == WORDS.as_slice() && copy.count_range(59, 67) == 2;
        let end = copy.slice(alloc, 58..67);
        drop(copy);
        let end = end?;
        let is_cut = end.words() == LAST_WORD.as_slice() && end.len() == 9;
        drop(end);
        Ok(is_copied && is_cut)
    }
}

#[test]
fn bits_are_appended_filled_cut_copied_and_sliced(rt: HostRuntime) -> Result<(), Fail> {
    assert!(rt; are_answered_in_turn::<Written>(rt.alloc()));
    Ok(())
}

// The words of 65 true bits.
const TWO_WORDS: [u64; 2] = [18_446_744_073_709_551_615, 1];

// 128 true bits, counted between places on both sides of a word's end, and again with ten of them cleared there.
struct Counted {}

impl Calls for Counted {
    fn are_answered<A: Allocator + Copy>(alloc: A) -> VortexResult<bool> {
        let bits = BitBufferMut::full(alloc, true, 128)?.freeze();
        let counts = (
            bits.count_range(0, 0),
            bits.count_range(63, 65),
            bits.count_range(1, 127),
        );
        drop(bits);
        let mut bits = BitBufferMut::full(alloc, true, 128)?;
        bits.fill_range(60, 70, false);
        let bits = bits.freeze();
        let left = bits.true_count();
        drop(bits);
        let bits = BitBufferMut::full(alloc, true, 65)?.freeze();
        let are_words = bits.words() == TWO_WORDS.as_slice();
        drop(bits);
        Ok(counts == (0, 2, 126) && left == 118 && are_words)
    }
}

#[test]
fn bits_are_counted_across_words(rt: HostRuntime) -> Result<(), Fail> {
    assert!(rt; are_answered_in_turn::<Counted>(rt.alloc()));
    Ok(())
}

// The numbers of the true bits, of 65 that are filled and then cleared but for both ends.
struct Numbered {}

impl Calls for Numbered {
    fn are_answered<A: Allocator + Copy>(alloc: A) -> VortexResult<bool> {
        let mut bits = BitBufferMut::full(alloc, true, 65)?;
        bits.fill_range(1, 64, false);
        let bits = bits.freeze();
        let indices: Result<Vec<usize, A>, _> = bits.set_indices().collect(alloc);
        drop(bits);
        let indices = indices?;
        let are_ends = indices.as_slice() == [0, 64].as_slice();
        drop(indices);
        Ok(are_ends)
    }
}

#[test]
fn true_bits_have_indices(rt: HostRuntime) -> Result<(), Fail> {
    assert!(rt; are_answered_in_turn::<Numbered>(rt.alloc()));
    Ok(())
}

// The rows 1 and 3 of four, and their mask copied.
fn is_mask_copied<A: Allocator + Copy>(alloc: A) -> VortexResult<bool> {
    let mask = Mask::from_indices(alloc, 4, &[1, 3])?;
    let copy = mask.try_clone(alloc);
    drop(mask);
    let copy = copy?;
    let is_copied = copy.len() == 4 && copy.true_count() == 2;
    drop(copy);
    Ok(is_copied)
}

// Three rows, the last two of them valid, and the validity of the first two copied.
fn is_validity_cut<A: Allocator + Copy>(alloc: A) -> VortexResult<bool> {
    let validity = Validity::from_bits(bits(alloc, &[false, true, true])?);
    if validity.len() != Some(3) {
        return Ok(false);
    }
    let part = validity.slice(alloc, 0..2);
    drop(validity);
    let part = part?;
    let copy = part.try_clone(alloc);
    drop(part);
    let copy = copy?;
    let is_half = matches!(&copy, Validity::Bits(bits) if bits.true_count() == 1);
    drop(copy);
    Ok(is_half)
}

struct Masks {}

impl Calls for Masks {
    fn are_answered<A: Allocator + Copy>(alloc: A) -> VortexResult<bool> {
        Ok(is_mask_copied(alloc)? && is_validity_cut(alloc)?)
    }
}

#[test]
fn masks_and_validities_are_copied(rt: HostRuntime) -> Result<(), Fail> {
    assert!(rt; are_answered_in_turn::<Masks>(rt.alloc()));
    Ok(())
}
