//! A natural number that is wide enough for the sizes of 2^64 floats.
ghost use Rattle.std.specs.Prelude.{◌≡◌, ◌+◌, ◌*◌, ◌^◌, ◌<◌, ◌≤◌, length};
ghost use Rattle.float_bits.specs.declared.formats.FloatFormat.TheVariants.{F64};
ghost use Rattle.float_bits.specs.Number.{size};
ghost use Rattle.float_bits.specs.Held.{IsFinite};
ghost use Rattle.float_bits.specs.Places.{AreBelow, base, capacity, value};

use crate::bins::{add_bins, add_product, settle};
use crate::decoding::decode;
use crate::formats::FloatFormat;
use std::marker::Model;

// How many sizes are added before bins are settled.
const MOST_ADDITIONS: u64 = 1 << 28;

/// Holds a natural number in 68 bins, each of which counts for 2^32 of the one before it. A bin may hold more than a
/// digit, so that adding carries nothing, until it is settled.
#[derive(Drop)]
pub(crate) struct WideNatural {
    bins: [u128; 68],
    additions: u64,
}

impl Model for WideNatural {
    ghost use Rattle.std.specs.Prelude.{ℕ};
    ghost use Rattle.float_bits.specs.Held.{IsHeld};
    ghost use Rattle.float_bits.specs.Places.{value};

    ghost Value = { ℕ };

    ghost view = { λ w. value w.bins };

    ghost invariant = { λ w. IsHeld w.bins w.additions };
}

impl WideNatural {
    /// Returns 0.
    pub(crate) fn zero() -> WideNatural
        ensures { result ≡ 0 }
    {
        WideNatural {
            bins: [0; 68],
            additions: 0,
        }
    }

    /// Adds the size of a finite float, in units of the smallest positive one, this many times.
    pub(crate) fn add_size(&mut self, bits: u64, times: u64)
        requires finite { IsFinite bits }
        requires room { self.old + times * size F64 bits < capacity }
        ensures { self.new ≡ self.old + times * size F64 bits }
    {
        let size = decode(FloatFormat::F64, bits);
        self.additions = make_room(&mut self.bins, self.additions) + 1;
        add_product(&mut self.bins, size.digits, times, size.doublings);
    }

    /// Adds another number.
    pub(crate) fn add(&mut self, other: &WideNatural)
        requires { self.old + other.now < capacity }
        ensures { self.new ≡ self.old + other.now }
    {
        add_bins(&mut self.bins, &other.bins);
        settle(&mut self.bins);
        self.additions = 0;
    }

    /// Returns the digits of the number, each below 2^32, the lowest first.
    pub(crate) fn digits(&self) -> [u128; 68]
        ensures value { value result ≡ self.now }
        ensures digits { AreBelow base result }
    {
        let mut digits = self.bins;
        settle(&mut digits);
        digits
    }
}

// Settles bins that as many sizes were added to as they have room for, and returns how many were added since.
fn make_room(bins: &mut [u128], additions: u64) -> u64
    requires few { additions ≤ 2 ^ 28 }
    requires bins { AreBelow ((additions + 1) * 2 ^ 96) bins.old }
    requires room { value bins.old < base ^ length bins.old }
    ensures few { result < 2 ^ 28 }
    ensures bins { AreBelow ((result + 1) * 2 ^ 96) bins.new }
    ensures value { value bins.new ≡ value bins.old }
{
    if additions < MOST_ADDITIONS {
        return additions;
    }
    settle(bins);
    0
}
