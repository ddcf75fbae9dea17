//! The types of items, and in which of two types each is summed.
ghost use Rattle.std.specs.Prelude.{◌≡◌};
ghost use Rattle.column_sums.specs.Reach.{IsSized};
ghost use Rattle.column_sums.specs.SumRange.{sum_range};

use column_core::NativePType;

// The size that numbers of 31 bits and a sign have at most.
const SHORT_SIZE: u64 = (1 << 31) - 1;

/// Says that numbers of a type are summed in the type `V`: signed ones in `i64`, unsigned ones in `u64`.
pub trait SummedIn<V: NativePType>: NativePType {
    /// Returns the number in the type of its sums.
    fn to_summed(self) -> V
        ensures { V.number result ≡ Self.number self };

    /// Returns a size that the number does not exceed: one for all numbers of a type of up to 32 bits.
    fn size(self) -> u64
        ensures { IsSized (sum_range V.PTYPE) result (Self.number self) };
}

impl SummedIn<i64> for i8 {
    #[inline(always)]
    fn to_summed(self) -> i64 {
        i64::from(self)
    }

    #[inline(always)]
    fn size(self) -> u64 {
        SHORT_SIZE
    }
}

impl SummedIn<i64> for i16 {
    #[inline(always)]
    fn to_summed(self) -> i64 {
        i64::from(self)
    }

    #[inline(always)]
    fn size(self) -> u64 {
        SHORT_SIZE
    }
}

impl SummedIn<i64> for i32 {
    #[inline(always)]
    fn to_summed(self) -> i64 {
        i64::from(self)
    }

    #[inline(always)]
    fn size(self) -> u64 {
        SHORT_SIZE
    }
}

impl SummedIn<i64> for i64 {
    #[inline(always)]
    fn to_summed(self) -> i64 {
        self
    }

    // (the least number is one further from 0 than the greatest)
    #[inline(always)]
    fn size(self) -> u64 {
        let size = if self < 0 { -(self + 1) } else { self };
        size as u64
    }
}

impl SummedIn<u64> for u8 {
    #[inline(always)]
    fn to_summed(self) -> u64 {
        u64::from(self)
    }

    #[inline(always)]
    fn size(self) -> u64 {
        u64::from(u8::MAX)
    }
}

impl SummedIn<u64> for u16 {
    #[inline(always)]
    fn to_summed(self) -> u64 {
        u64::from(self)
    }

    #[inline(always)]
    fn size(self) -> u64 {
        u64::from(u16::MAX)
    }
}

impl SummedIn<u64> for u32 {
    #[inline(always)]
    fn to_summed(self) -> u64 {
        u64::from(self)
    }

    #[inline(always)]
    fn size(self) -> u64 {
        u64::from(u32::MAX)
    }
}

impl SummedIn<u64> for u64 {
    #[inline(always)]
    fn to_summed(self) -> u64 {
        self
    }

    #[inline(always)]
    fn size(self) -> u64 {
        self
    }
}
