//! Ends in the least width that holds them.
ghost use Rattle.std.specs.Prelude.{◌≡◌, pos, All, IfOk, IsOkUnless, map};
ghost use Rattle.std.specs.List.Sorted.{IsStrictlyIncreasing};
ghost use Rattle.column_base.specs.Numbers.{numbers, ptype_of};
ghost use Rattle.column_base.specs.Types.{HasNumber, IsLeastFor};
ghost use Rattle.runend_windows.specs.Window.{last_end};

use column_core::{NativePType, PrimitiveValues, VortexError, VortexResult};
use std::alloc::Allocator;

/// Returns the ends as numbers of the least unsigned type that holds the last of them. Refused only as `OutOfMemory`.
pub fn narrowed<A: Allocator + Copy>(alloc: A, ends: &[u64]) -> VortexResult<PrimitiveValues<A>>
    requires { IsStrictlyIncreasing ends.now }
    ensures only { IsOkUnless result VortexError.OutOfMemory }
    ensures shows { IfOk result (λ values. numbers values ≡ map (λ end. pos end) ends.now) }
    ensures least { IfOk result (λ values. IsLeastFor (last_end ends.now) (ptype_of values)) }
{
    let last = last_of(ends);
    if last <= u64::from(u8::MAX) {
        stored_as::<u8, A>(alloc, ends)
    } else if last <= u64::from(u16::MAX) {
        stored_as::<u16, A>(alloc, ends)
    } else if last <= u64::from(u32::MAX) {
        stored_as::<u32, A>(alloc, ends)
    } else {
        stored_as::<u64, A>(alloc, ends)
    }
}

fn last_of(ends: &[u64]) -> u64
    ensures { result ≡ last_end ends.now }
{
    match ends.last() {
        None => 0,
        Some(end) => *end,
    }
}

// A type of ends: what an end is cast to.
trait EndsType: NativePType {
    fn of_end(end: u64) -> Self
        requires { HasNumber Self.PTYPE (pos end) }
        ensures { Self.number result ≡ pos end };
}

impl EndsType for u8 {
    fn of_end(end: u64) -> u8 {
        end as u8
    }
}

impl EndsType for u16 {
    fn of_end(end: u64) -> u16 {
        end as u16
    }
}

impl EndsType for u32 {
    fn of_end(end: u64) -> u32 {
        end as u32
    }
}

impl EndsType for u64 {
    fn of_end(end: u64) -> u64 {
        end
    }
}

fn stored_as<T: EndsType, A: Allocator + Copy>(
    alloc: A,
    ends: &[u64],
) -> VortexResult<PrimitiveValues<A>>
    requires { All (λ end. HasNumber T.PTYPE (pos end)) ends.now }
    ensures only { IsOkUnless result VortexError.OutOfMemory }
    ensures shows { IfOk result (λ values. numbers values ≡ map (λ end. pos end) ends.now) }
    ensures typed { IfOk result (λ values. ptype_of values ≡ T.PTYPE) }
{
    Ok(T::wrap(narrow_all(alloc, ends)?))
}

fn narrow_all<T: EndsType, A: Allocator>(alloc: A, ends: &[u64]) -> VortexResult<Vec<T, A>>
    requires { All (λ end. HasNumber T.PTYPE (pos end)) ends.now }
    ensures only { IsOkUnless result VortexError.OutOfMemory }
    ensures shows { IfOk result (λ items. map T.number items.items ≡ map (λ end. pos end) ends.now) }
{
    let mut items = Vec::with_capacity(alloc, ends.len())?;
    for end in ends {
        items.push_reserved(T::of_end(*end));
    }
    Ok(items)
}
