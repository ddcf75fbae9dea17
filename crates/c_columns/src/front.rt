//! The front of a caller's bytes, to which is written in place.
ghost use Rattle.std.specs.Prelude.{◌≡◌, ◌-◌, length};
ghost use Rattle.c_columns.specs.Front.{front_written};

use bytes::BufMut;
use std::alloc::AllocError;

/// Lends a caller's bytes, and counts how many at the front are written.
#[derive(Drop)]
pub(crate) struct Front<'a> {
    room: &'a mut [u8],
    count: usize,
}

impl<'a> Front<'a> {
    /// Lends these bytes, of which none is written yet.
    pub(crate) fn new(room: &'a mut [u8]) -> Front<'a>
        ensures same_bytes { result.room.ghost_name ≡ room.entry.ghost_name }
        ensures room { result.room.now ≡ room.old }
        ensures count { result.count ≡ 0 }
    {
        Front { room, count: 0 }
    }

    // How many more bytes it takes.
    fn spare(&self) -> usize
        ensures { result ≡ length self.now.room.now - self.now.count }
    {
        self.room.len().saturating_sub(self.count)
    }
}

// No clause of a `Cursor` over the bytes says that it stays with the bytes that it was made of.
impl BufMut for Front<'_> {
    ghost written = { front_written };

    ghost spare = { λ front. length front.room.now - front.count };

    fn reserve(&mut self, additional: usize) -> Result<(), AllocError> {
        if additional <= self.spare() {
            Ok(())
        } else {
            Err(AllocError)
        }
    }

    // Most slices are of a size that the compiler knows.
    #[inline(always)]
    fn put_slice(&mut self, src: &[u8]) -> Result<(), AllocError> {
        if src.is_empty() {
            return Ok(());
        }
        if self.spare() < src.len() {
            return Err(AllocError);
        }
        let end = self.count + src.len();
        self.room[self.count..end].copy_from_slice(src);
        self.count = end;
        Ok(())
    }

    #[inline(always)]
    fn put_u8(&mut self, n: u8) -> Result<(), AllocError> {
        if self.count >= self.room.len() {
            return Err(AllocError);
        }
        self.room[self.count] = n;
        self.count += 1;
        Ok(())
    }
}
