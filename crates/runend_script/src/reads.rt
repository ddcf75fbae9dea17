//! A reader that is read a limited number of times.
ghost use Rattle.std.specs.Prelude.{◌≡◌, ◌+◌, ◌<◌, length};
ghost use Rattle.std.specs.Io.{ReadsAtMost};
ghost use Rattle.std.specs.Io.KnownBytes.{ReadConsumes};

use std::io;
use std::io::Read;

/// Limits how often a reader is read.
pub const MAX_READS: u64 = 1 << 20;

/// Sets how many bytes are asked for at a time.
pub const BLOCK_BYTES: usize = 1 << 16;

/// Lends a reader, and counts how many reads of it are left. It is read only by `read`.
#[derive(Drop)]
pub struct LimitedReads<'a, R: Read> {
    reader: &'a mut R,
    left: u64,
}

impl<'a, R: Read> LimitedReads<'a, R> {
    /// Returns the reader, with 1,048,576 reads left.
    pub fn new(reader: &'a mut R) -> LimitedReads<'a, R>
        ensures same_reader { result.reader.ghost_name ≡ reader.entry.ghost_name }
        ensures reader { result.reader.now ≡ reader.old }
        ensures left { result.left ≡ MAX_READS }
    {
        LimitedReads {
            reader,
            left: MAX_READS,
        }
    }

    /// Returns how many reads are left.
    pub fn left(&self) -> u64
        ensures { result ≡ self.now.left }
    {
        self.left
    }

    /// Returns one read into the block of 65,536 bytes, which takes one of the reads that are left.
    pub fn read(&mut self, block: &mut [u8]) -> io::Result<usize>
        requires left { 0 < self.old.left }
        requires block { length block.old ≡ BLOCK_BYTES }
        ensures same_reader { self.new.reader.ghost_name ≡ self.old.reader.ghost_name }
        ensures left { self.new.left + 1 ≡ self.old.left }
        ensures block { length block.new ≡ BLOCK_BYTES }
        ensures bound { ReadsAtMost result block.new }
        ensures bytes { ReadConsumes (R.remaining self.old.reader.now) (R.remaining self.new.reader.now) result
            block.new }
    {
        self.left -= 1;
        self.reader.read(block)
    }
}
