//! Flat columns of keys tested.
ghost use Rattle.std.specs.Prelude.{◌≡◌, IfOk, IsOkUnless, map, true};
ghost use Rattle.column_base.specs.declared.dtype.DType.TheVariants as types;
ghost use Rattle.column_base.specs.ValidityForm.{nullability_in};
ghost use Rattle.column_core.specs.BoolForm.{bool_dtype};
ghost use Rattle.column_core.specs.Leaf.{OfTruths, single_rows};
ghost use Rattle.column_core.specs.PrimitiveForm.{optional_numbers};
ghost use Rattle.column_ops.specs.Comparing.{is_held};
ghost use Rattle.column_floats.specs.Comparisons.{tested_row};
ghost use Rattle.column_floats.specs.Formats.{holds_keys};

use crate::key_tests::KeyTest;
use crate::keys::key_at;
use column_core::{BitBuffer, BitBufferMut, BoolArray, PrimitiveArray, VortexError, VortexResult};
use std::alloc::Allocator;

/// Returns for each key whether it passes the test, null for null. Refused only as `OutOfMemory`.
pub fn tested_keys<T: KeyTest, A: Allocator + Copy>(
    alloc: A,
    keys: &PrimitiveArray<A>,
    test: &T,
) -> VortexResult<BoolArray<A>>
    requires { holds_keys keys.now.ptype ≡ true }
    ensures only { IsOkUnless result VortexError.OutOfMemory }
    ensures rows { IfOk result (λ truths. single_rows (OfTruths truths) ≡
        map (tested_row (T.passes test.now)) (optional_numbers keys.now)) }
    ensures dtype { IfOk result (λ truths. bool_dtype truths ≡ types.Bool (nullability_in keys.now.validity)) }
{
    let validity = keys.validity().try_clone(alloc)?;
    let bits = tested_bits(alloc, keys, test)?;
    Ok(BoolArray::new_unchecked(bits, validity))
}

// Returns a bit for each key: whether it passes the test, and false for null. Refused only as `OutOfMemory`.
fn tested_bits<T: KeyTest, A: Allocator + Copy>(
    alloc: A,
    keys: &PrimitiveArray<A>,
    test: &T,
) -> VortexResult<BitBuffer<A>>
    requires { holds_keys keys.now.ptype ≡ true }
    ensures only { IsOkUnless result VortexError.OutOfMemory }
    ensures bits { IfOk result (λ bits. bits ≡ map (is_held (T.passes test.now)) (optional_numbers keys.now)) }
{
    let mut bits = BitBufferMut::with_capacity(alloc, keys.len())?;
    for row in 0..keys.len() {
        bits.append(passes(key_at(keys, row), test))?;
    }
    Ok(bits.freeze())
}

// Returns whether a key passes the test, and false for null.
#[inline]
fn passes<T: KeyTest>(key: Option<i64>, test: &T) -> bool
    ensures { result ≡ is_held (T.passes test.now) key }
{
    match key {
        Some(key) => test.test(key),
        None => false,
    }
}
