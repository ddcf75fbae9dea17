//! Native numbers as bytes, the lowest first.
ghost use Rattle.std.specs.Prelude.{◌≡◌, ◌++◌, ◌+◌, ◌-◌, ◌≤◌, length, map, max, pos, All, OnOk, IsOkUnless};
ghost use Rattle.column_fields.specs.Kept.{StaysInFront};
ghost use Rattle.column_fields.specs.Room.{UsesRoom};
ghost use Rattle.column_fields.specs.NumberBytes.{number_bytes, numbers_bytes, size_of};
ghost use Rattle.column_base.specs.Number.{Narrows};
ghost use Rattle.column_base.specs.Types.{HasNumber};
ghost use Rattle.column_fields.specs.Varint.{varint};

use bytes::BufMut;
use column_base::{NativePType, UnsignedPType, VortexError, VortexResult};

/// Says how a native number is stored as bytes.
pub(crate) trait StoredNumber: NativePType {
    /// Returns how many bytes it has.
    fn size() -> usize
        ensures { result ≡ size_of Self.PTYPE };

    /// Writes it at the end.
    fn put<W: BufMut>(self, out: &mut W) -> VortexResult<()>
        ensures fits { HasNumber Self.PTYPE (Self.number self) }
        ensures ok { OnOk result
            (W.written out.new ≡ W.written out.old ++ number_bytes Self.PTYPE (Self.number self)) }
        ensures room { UsesRoom result (W.spare out.old) (W.spare out.new)
            (length (number_bytes Self.PTYPE (Self.number self))) }
        ensures kept { StaysInFront (W.written out.old) (W.written out.new) }
        ensures only { IsOkUnless result VortexError.OutOfMemory };

    /// Writes eight of them at the end, in one step.
    fn put_eight<W: BufMut>(out: &mut W, items: &[Self]) -> VortexResult<()>
        requires { length items.now ≡ 8 }
        ensures fits { All (λ n. HasNumber Self.PTYPE n) (map Self.number items.now) }
        ensures ok { OnOk result
            (W.written out.new ≡ W.written out.old ++ numbers_bytes Self.PTYPE (map Self.number items.now)) }
        ensures room { UsesRoom result (W.spare out.old) (W.spare out.new)
            (length (numbers_bytes Self.PTYPE (map Self.number items.now))) }
        ensures kept { StaysInFront (W.written out.old) (W.written out.new) }
        ensures only { IsOkUnless result VortexError.OutOfMemory };

    /// Returns the number of these bytes.
    fn load(bytes: &[u8]) -> Self
        requires { length bytes.now ≡ size_of Self.PTYPE }
        ensures shows { number_bytes Self.PTYPE (Self.number result) ≡ bytes.now }
        ensures fits { HasNumber Self.PTYPE (Self.number result) };
}

// The bytes of each of eight numbers.
macro_rules! bytes_of_eight {
    ($items:ident) => {
        [
            $items[0].to_le_bytes(),
            $items[1].to_le_bytes(),
            $items[2].to_le_bytes(),
            $items[3].to_le_bytes(),
            $items[4].to_le_bytes(),
            $items[5].to_le_bytes(),
            $items[6].to_le_bytes(),
            $items[7].to_le_bytes(),
        ]
    };
}

/// Says how the end of a run is stored, by its type.
pub(crate) trait StoredEnd: UnsignedPType {
    /// Returns the end as a `u64`. It is a number of its own type too.
    fn end(self) -> u64
        ensures value { result ≡ Self.natural self }
        ensures fits { HasNumber Self.PTYPE (pos (Self.natural self)) };

    /// Returns how many rows a run has that begins and ends there. The end is a number of its own type too.
    fn length(start: Self, end: Self) -> Self
        ensures rows { Self.natural result ≡ Self.natural end - Self.natural start }
        ensures fits { HasNumber Self.PTYPE (pos (Self.natural end)) };

    /// Returns the greater of both.
    fn greater(self, other: Self) -> Self
        ensures { Self.natural result ≡ max (Self.natural self) (Self.natural other) };

    /// Returns how many bytes after its first the varint has of the length of a run from `start` to `end`: one for each
    /// power of 128 that the length reaches. The end is a number of its own type too.
    fn longer(start: Self, end: Self) -> u32
        ensures size { 1 + result ≡ length (varint (Self.natural end - Self.natural start)) }
        ensures most { result ≤ 9 }
        ensures fits { HasNumber Self.PTYPE (pos (Self.natural end)) };

    /// Returns the end of that number, or `None` exactly where the type does not have it.
    fn of_end(end: u64) -> Option<Self>
        ensures { Narrows Self.number (HasNumber Self.PTYPE) (pos end) result };
}

impl StoredEnd for u8 {
    fn end(self) -> u64 {
        u64::from(self)
    }

    #[inline(always)]
    fn length(start: u8, end: u8) -> u8 {
        end.saturating_sub(start)
    }

    #[inline(always)]
    fn greater(self, other: u8) -> u8 {
        self.max(other)
    }

    #[inline(always)]
    fn longer(start: u8, end: u8) -> u32 {
        u32::from(end.saturating_sub(start) >= 128)
    }

    fn of_end(end: u64) -> Option<u8> {
        u8::try_from(end).ok()
    }
}

impl StoredEnd for u16 {
    fn end(self) -> u64 {
        u64::from(self)
    }

    #[inline(always)]
    fn length(start: u16, end: u16) -> u16 {
        end.saturating_sub(start)
    }

    #[inline(always)]
    fn greater(self, other: u16) -> u16 {
        self.max(other)
    }

    #[inline(always)]
    fn longer(start: u16, end: u16) -> u32 {
        let length = end.saturating_sub(start);
        u32::from(length >= 128) + u32::from(length >= 16_384)
    }

    fn of_end(end: u64) -> Option<u16> {
        u16::try_from(end).ok()
    }
}

impl StoredEnd for u32 {
    fn end(self) -> u64 {
        u64::from(self)
    }

    #[inline(always)]
    fn length(start: u32, end: u32) -> u32 {
        end.saturating_sub(start)
    }

    #[inline(always)]
    fn greater(self, other: u32) -> u32 {
        self.max(other)
    }

    #[inline(always)]
    fn longer(start: u32, end: u32) -> u32 {
        let length = end.saturating_sub(start);
        u32::from(length >= 128)
            + u32::from(length >= 16_384)
            + u32::from(length >= 2_097_152)
            + u32::from(length >= 268_435_456)
    }

    fn of_end(end: u64) -> Option<u32> {
        u32::try_from(end).ok()
    }
}

impl StoredEnd for u64 {
    fn end(self) -> u64 {
        self
    }

    #[inline(always)]
    fn length(start: u64, end: u64) -> u64 {
        end.saturating_sub(start)
    }

    #[inline(always)]
    fn greater(self, other: u64) -> u64 {
        self.max(other)
    }

    #[inline(always)]
    fn longer(start: u64, end: u64) -> u32 {
        let bits = 64 - end.saturating_sub(start).leading_zeros();
        // One for each seven bits after the first seven: up to 64 bits that is this, which divides by nothing.
        bits * 9 / 64
    }

    fn of_end(end: u64) -> Option<u64> {
        Some(end)
    }
}

impl StoredNumber for u8 {
    fn size() -> usize {
        1
    }

    fn put<W: BufMut>(self, out: &mut W) -> VortexResult<()> {
        out.put_slice(&self.to_le_bytes())?;
        Ok(())
    }

    fn put_eight<W: BufMut>(out: &mut W, items: &[u8]) -> VortexResult<()> {
        out.put_slice(items)?;
        Ok(())
    }

    fn load(bytes: &[u8]) -> u8 {
        u8::from_le_bytes([bytes[0]])
    }
}

impl StoredNumber for u16 {
    fn size() -> usize {
        2
    }

    fn put<W: BufMut>(self, out: &mut W) -> VortexResult<()> {
        out.put_slice(&self.to_le_bytes())?;
        Ok(())
    }

    fn put_eight<W: BufMut>(out: &mut W, items: &[u16]) -> VortexResult<()> {
        let bytes = bytes_of_eight!(items);
        out.put_slice(bytes.as_flattened())?;
        Ok(())
    }

    fn load(bytes: &[u8]) -> u16 {
        u16::from_le_bytes([bytes[0], bytes[1]])
    }
}

impl StoredNumber for u32 {
    fn size() -> usize {
        4
    }

    fn put<W: BufMut>(self, out: &mut W) -> VortexResult<()> {
        out.put_slice(&self.to_le_bytes())?;
        Ok(())
    }

    fn put_eight<W: BufMut>(out: &mut W, items: &[u32]) -> VortexResult<()> {
        let bytes = bytes_of_eight!(items);
        out.put_slice(bytes.as_flattened())?;
        Ok(())
    }

    fn load(bytes: &[u8]) -> u32 {
        u32::from_le_bytes([bytes[0], bytes[1], bytes[2], bytes[3]])
    }
}

impl StoredNumber for u64 {
    fn size() -> usize {
        8
    }

    fn put<W: BufMut>(self, out: &mut W) -> VortexResult<()> {
        out.put_slice(&self.to_le_bytes())?;
        Ok(())
    }

    fn put_eight<W: BufMut>(out: &mut W, items: &[u64]) -> VortexResult<()> {
        let bytes = bytes_of_eight!(items);
        out.put_slice(bytes.as_flattened())?;
        Ok(())
    }

    fn load(bytes: &[u8]) -> u64 {
        u64::from_le_bytes([
            bytes[0], bytes[1], bytes[2], bytes[3], bytes[4], bytes[5], bytes[6], bytes[7],
        ])
    }
}

impl StoredNumber for i8 {
    fn size() -> usize {
        1
    }

    fn put<W: BufMut>(self, out: &mut W) -> VortexResult<()> {
        out.put_slice(&self.to_le_bytes())?;
        Ok(())
    }

    fn put_eight<W: BufMut>(out: &mut W, items: &[i8]) -> VortexResult<()> {
        let bytes = bytes_of_eight!(items);
        out.put_slice(bytes.as_flattened())?;
        Ok(())
    }

    fn load(bytes: &[u8]) -> i8 {
        i8::from_le_bytes([bytes[0]])
    }
}

impl StoredNumber for i16 {
    fn size() -> usize {
        2
    }

    fn put<W: BufMut>(self, out: &mut W) -> VortexResult<()> {
        out.put_slice(&self.to_le_bytes())?;
        Ok(())
    }

    fn put_eight<W: BufMut>(out: &mut W, items: &[i16]) -> VortexResult<()> {
        let bytes = bytes_of_eight!(items);
        out.put_slice(bytes.as_flattened())?;
        Ok(())
    }

    fn load(bytes: &[u8]) -> i16 {
        i16::from_le_bytes([bytes[0], bytes[1]])
    }
}

impl StoredNumber for i32 {
    fn size() -> usize {
        4
    }

    fn put<W: BufMut>(self, out: &mut W) -> VortexResult<()> {
        out.put_slice(&self.to_le_bytes())?;
        Ok(())
    }

    fn put_eight<W: BufMut>(out: &mut W, items: &[i32]) -> VortexResult<()> {
        let bytes = bytes_of_eight!(items);
        out.put_slice(bytes.as_flattened())?;
        Ok(())
    }

    fn load(bytes: &[u8]) -> i32 {
        i32::from_le_bytes([bytes[0], bytes[1], bytes[2], bytes[3]])
    }
}

impl StoredNumber for i64 {
    fn size() -> usize {
        8
    }

    fn put<W: BufMut>(self, out: &mut W) -> VortexResult<()> {
        out.put_slice(&self.to_le_bytes())?;
        Ok(())
    }

    fn put_eight<W: BufMut>(out: &mut W, items: &[i64]) -> VortexResult<()> {
        let bytes = bytes_of_eight!(items);
        out.put_slice(bytes.as_flattened())?;
        Ok(())
    }

    fn load(bytes: &[u8]) -> i64 {
        i64::from_le_bytes([
            bytes[0], bytes[1], bytes[2], bytes[3], bytes[4], bytes[5], bytes[6], bytes[7],
        ])
    }
}
