//! Lengths of 64 runs in one step, where each is one byte.
ghost use Rattle.std.specs.Prelude.{◌≡◌, ◌↔◌, ◌<◌, All, IsTrue, length, map, min};
ghost use Rattle.column_fields.specs.Lengths.{lengths_from};

use crate::stored::StoredEnd;
use std::simd::prelude::*;

/// Returns a byte for each of 64 runs that begin there: how many rows the run has, or 255 where it has more.
#[inline(always)]
pub(crate) fn length_bytes<E: StoredEnd>(start: E, ends: &[E]) -> [u8; 64]
    requires { length ends.now ≡ 64 }
    ensures { result ≡ map (λ rows. min rows 255) (lengths_from (E.natural start) (map E.natural ends.now)) }
{
    let mut bytes = [0; 64];
    let mut begin = start;
    for run in 0..64 {
        let stop = ends[run];
        bytes[run] = E::length(begin, stop).end().min(255) as u8;
        begin = stop;
    }
    bytes
}

/// Returns whether each of the bytes is a varint by itself: it has no bit of 128.
#[inline(always)]
pub(crate) fn are_varints(bytes: &[u8; 64]) -> bool
    ensures { IsTrue result ↔ All (λ byte. byte < 128) bytes.now }
{
    u8x64::from_slice(&bytes[..])
        .simd_ge(u8x64::splat(128))
        .to_bitmask()
        == 0
}
