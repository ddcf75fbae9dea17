//! Whether parts make a run column, or which fault comes first.
ghost use Rattle.std.specs.Prelude.{◌≡◌, ℕ, ◌+◌, ◌-◌, ◌<◌, ◌≤◌, length, map, slice_index, IfSome, IfNone, MatchOption, MatchResult, unsigned_abs};
ghost use Rattle.std.specs.List.Sorted.{IsStrictlyIncreasing};
ghost use Rattle.column_base.specs.Numbers.{numbers, ptype_of};
ghost use Rattle.column_base.specs.Types.{IsUnsigned};
ghost use Rattle.column_core.specs.PrimitiveForm.{primitive_dtype};
ghost use Rattle.runend_windows.specs.Window.{IsWindow};
ghost use Rattle.runend_windows.specs.Ends.{IsEndsType, ends_of};
ghost use Rattle.runend_windows.specs.WindowFault.{IsFirstFall, WindowFault};

use column_base::match_each_unsigned;
use column_core::{PrimitiveArray, PrimitiveValues, UnsignedPType, VortexError, VortexResult};
use std::alloc::Allocator;

/// Tests that these ends, with `values` values, make runs that show `count` rows from `offset` on. Refused by the first
/// fault. Takes no memory.
pub fn validate_ends<A: Allocator>(
    ends: &PrimitiveArray<A>,
    values: usize,
    offset: usize,
    count: usize,
) -> VortexResult<()>
    requires { IsEndsType (primitive_dtype ends.now) }
    ensures { MatchResult result
        (λ _. IsWindow (ends_of ends.now) offset count × (values ≡ length (ends_of ends.now)))
        (λ error. WindowFault (ends_of ends.now) values offset count error) }
{
    validate_among(ends.values(), values, offset, count)
}

// The first run whose end is not above the end before it.
fn first_fall<E: UnsignedPType>(ends: &[E]) -> Option<usize>
    ensures { MatchOption result (IsStrictlyIncreasing (map E.natural ends.now)) (λ run.
        IsFirstFall (map E.natural ends.now) run) }
{
    for run in 1..ends.len() {
        if ends[run].to_u64() <= ends[run - 1].to_u64() {
            return Some(run);
        }
    }
    None
}

// Tests that the ends, with `values` values, make runs that show `count` rows from `offset` on; else the first fault.
fn validate_window<E: UnsignedPType>(
    ends: &[E],
    values: usize,
    offset: usize,
    count: usize,
) -> VortexResult<()>
    ensures { MatchResult result
        (λ _. IsWindow (map E.natural ends.now) offset count × (values ≡ length (map E.natural ends.now)))
        (λ error. WindowFault (map E.natural ends.now) values offset count error) }
{
    if ends.len() != values {
        return Err(VortexError::LengthsDiffer {
            ends: ends.len(),
            values,
        });
    }
    if ends.is_empty() {
        if offset != 0 || count != 0 {
            return Err(VortexError::NoRunsWindow {
                offset,
                length: count,
            });
        }
        return Ok(());
    }
    if let Some(run) = first_fall(ends) {
        return Err(VortexError::EndsNotStrict { run });
    }
    let Some(required) = offset.checked_add(count) else {
        return Err(VortexError::WindowOverflow);
    };
    if count == 0 {
        return Ok(());
    }
    let first = ends[0].to_u64() as usize;
    if first < offset {
        return Err(VortexError::FirstEndBelowOffset { end: first, offset });
    }
    let last = ends[ends.len() - 1].to_u64() as usize;
    if last < required {
        return Err(VortexError::LastEndBelowWindow {
            end: last,
            required,
        });
    }
    Ok(())
}

#[tactic(auto, using(crate::proofs::Ends::ends_stored))]
fn validate_among<A: Allocator>(
    ends: &PrimitiveValues<A>,
    values: usize,
    offset: usize,
    count: usize,
) -> VortexResult<()>
    requires { IsUnsigned (ptype_of ends.now) }
    ensures { let places = map unsigned_abs (numbers ends.now) in
        MatchResult result
        (λ _. IsWindow places offset count × (values ≡ length places))
        (λ error. WindowFault places values offset count error) }
{
    match_each_unsigned!(ends, items => validate_window(items.as_slice(), values, offset, count))
}
