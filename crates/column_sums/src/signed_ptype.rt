//! What the four signed types have in common.
ghost use Rattle.std.specs.Prelude.{◌≡◌};

use column_core::NativePType;

/// Says that a type is one of the four signed ones.
pub trait SignedPType: NativePType {
    /// Returns the value as an `i64`, which has the numbers of all four types.
    fn to_i64(self) -> i64
        ensures { result ≡ Self.number self };
}

impl SignedPType for i8 {
    #[inline]
    fn to_i64(self) -> i64 {
        i64::from(self)
    }
}

impl SignedPType for i16 {
    #[inline]
    fn to_i64(self) -> i64 {
        i64::from(self)
    }
}

impl SignedPType for i32 {
    #[inline]
    fn to_i64(self) -> i64 {
        i64::from(self)
    }
}

impl SignedPType for i64 {
    #[inline]
    fn to_i64(self) -> i64 {
        self
    }
}
