//! Numbers are those of their types, which no program has to look at: the loops do nothing, and are none in what is
//! built. Their clauses are what is known.
ghost use Rattle.std.specs.Prelude.{map, All, FitsSigned};
ghost use Rattle.std.specs.Int.{w128};
ghost use Rattle.column_base.specs.Numbers.{numbers, ptype_of};
ghost use Rattle.column_base.specs.Types.{HasNumber};

use column_base::{NativePType, PrimitiveValues, match_each_native};
use std::alloc::Allocator;

/// Proves that each number of a buffer is a number of its type.
#[tactic(auto, using(crate::proofs::SizeLaws::same_numbers))]
pub fn values_fit<A: Allocator>(values: &PrimitiveValues<A>)
    ensures { All (λ n. HasNumber (ptype_of values.now) n) (numbers values.now) }
{
    match_each_native!(values, items => all_fit(items.as_slice()))
}

fn all_fit<T: Fitting>(items: &[T])
    ensures { All (λ n. HasNumber T.PTYPE n) (map T.number items.now) }
{
    for item in items {
        item.fits();
    }
}

/// Proves that each of these integers fits 128 bits.
pub fn decimals_fit(numbers: &[i128])
    ensures { All (λ n. FitsSigned w128 n) numbers.now }
{
    for number in numbers {
        decimal_fits(*number);
    }
}

fn decimal_fits(number: i128)
    ensures { FitsSigned w128 number }
{}

/// Says that a native number is a number of its type.
trait Fitting: NativePType {
    /// Proves that this number fits its type, and does nothing.
    fn fits(self)
        ensures { HasNumber Self.PTYPE (Self.number self) };
}

impl Fitting for u8 {
    fn fits(self) {}
}

impl Fitting for u16 {
    fn fits(self) {}
}

impl Fitting for u32 {
    fn fits(self) {}
}

impl Fitting for u64 {
    fn fits(self) {}
}

impl Fitting for i8 {
    fn fits(self) {}
}

impl Fitting for i16 {
    fn fits(self) {}
}

impl Fitting for i32 {
    fn fits(self) {}
}

impl Fitting for i64 {
    fn fits(self) {}
}
