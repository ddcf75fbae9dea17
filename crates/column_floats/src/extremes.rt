//! The least and the greatest key of a flat column.
ghost use Rattle.std.specs.Prelude.{◌≡◌, ◌∷◌, ◌++◌, ℤ, [], List, Option, None, IfSome, true};
ghost use Rattle.column_core.specs.PrimitiveForm.{optional_numbers};
ghost use Rattle.float_bits.specs.declared.formats.FloatFormat.{FloatFormat};
ghost use Rattle.column_floats.specs.Extremes.{AreEnds, AreKeysIn, HaveKeys, IsExtendedBy};
ghost use Rattle.column_floats.specs.Formats.{IsKey, format_of_width, holds_keys};

use crate::key_tests::KeyTest;
use crate::keys::key_at;
use column_core::PrimitiveArray;
use float_bits::{FloatFormat, from_total_key};
use std::alloc::Allocator;

/// Returns the least and the greatest of the keys that pass the test, or `None` where none does.
pub fn extremes_of<T: KeyTest, A: Allocator>(
    keys: &PrimitiveArray<A>,
    test: &T,
) -> Option<(i64, i64)>
    requires { holds_keys keys.now.ptype ≡ true }
    ensures ends { AreEnds (T.passes test.now) (optional_numbers keys.now) result }
    ensures fits { AreKeysIn (format_of_width keys.now.ptype) result }
{
    let mut found = None;
    for row in 0..keys.len() {
        found = with_row(found, key_at(keys, row), test);
    }
    found
}

// Returns the extremes so far with one more row.
#[inline]
fn with_row<T: KeyTest>(found: Option<(i64, i64)>, key: Option<i64>, test: &T) -> Option<(i64, i64)>
    ensures ends { (keys : List (Option ℤ)) → AreEnds (T.passes test.now) keys found →
        AreEnds (T.passes test.now) (keys ++ key ∷ []) result }
    ensures fits { (format : FloatFormat) → AreKeysIn format found → IfSome key (IsKey format) →
        AreKeysIn format result }
{
    match key {
        Some(key) if test.test(key) => Some(extended(found, key)),
        _ => found,
    }
}

// Returns the extremes so far with one more key.
#[inline]
fn extended(found: Option<(i64, i64)>, key: i64) -> (i64, i64)
    ensures first { found ≡ None → (result.0 ≡ key) × (result.1 ≡ key) }
    ensures next { IfSome found (λ ends. IsExtendedBy ends.0 ends.1 key result.0 result.1) }
{
    match found {
        Some((least, greatest)) => (least.min(key), greatest.max(key)),
        None => (key, key),
    }
}

/// Returns the bits of the floats that have these keys.
pub fn floats_of_keys(format: FloatFormat, found: Option<(i64, i64)>) -> Option<(u64, u64)>
    requires { AreKeysIn format found }
    ensures { HaveKeys format result found }
{
    match found {
        Some((least, greatest)) => Some((
            from_total_key(format, least),
            from_total_key(format, greatest),
        )),
        None => None,
    }
}
