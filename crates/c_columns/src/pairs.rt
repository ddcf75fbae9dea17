//! Numbers of 128 bits as pairs of 64 bits, since none of that width crosses to C.
ghost use Rattle.std.specs.Prelude.{◌≡◌, map, take, length, IfOk, IsOkUnless};
ghost use Rattle.c_columns.specs.Pairs.{number_in};

use column_core::{VortexError, VortexResult};
use std::alloc::Global;

/// Holds the number `high` times 2^64 plus `low`: on a little-endian machine the 16 bytes of an
/// Arrow decimal128.
#[repr(C)]
#[derive(Clone, Copy)]
pub struct Pair {
    pub low: u64,
    pub high: i64,
}

/// Holds 2^64.
const UNIT: i128 = 18_446_744_073_709_551_616;

/// Returns the number that a pair holds.
pub fn number_of(pair: Pair) -> i128
    ensures { result ≡ number_in pair }
{
    i128::from(pair.high) * UNIT + i128::from(pair.low)
}

/// Returns the pair that holds a number.
pub fn pair_of(number: i128) -> Pair
    ensures { number ≡ number_in result }
{
    Pair {
        low: number.rem_euclid(UNIT) as u64,
        high: number.div_euclid(UNIT) as i64,
    }
}

/// Returns the numbers of these pairs. Refused only for memory.
pub fn numbers_of(alloc: Global, pairs: &[Pair]) -> VortexResult<Vec<i128>>
    ensures numbers { IfOk result (λ numbers. numbers.items ≡ map number_in pairs.now) }
    ensures only { IsOkUnless result VortexError.OutOfMemory }
{
    let mut numbers = Vec::with_capacity(alloc, pairs.len())?;
    for pair in pairs {
        numbers.push(number_of(*pair))?;
    }
    Ok(numbers)
}
