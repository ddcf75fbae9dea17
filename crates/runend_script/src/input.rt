//! Input that is read whole.
ghost use Rattle.std.specs.Prelude.{◌≡◌, ◌≤◌, IfOk, OnOk, vec_len};
ghost use Rattle.std.specs.Io.KnownBytes.{Consumes, IsAtEnd};
ghost use Rattle.runend_script.specs.Reads.{IsReadWithin};
ghost use Rattle.runend_script.specs.declared.input.Failure.TheVariants.{OutOfMemory};

use crate::reads::{BLOCK_BYTES, LimitedReads};
use std::alloc::{AllocError, Allocator};
use std::io::Read;
use thiserror::Error;

/// Says why a script has no answer. The text is what the program prints.
#[derive(Clone, Copy, Debug, PartialEq, Eq, Error)]
pub enum Failure {
    /// Says that a growth of memory was refused.
    #[error("out of memory")]
    OutOfMemory,
    /// Says that a read failed, or that the input did not end.
    #[error("cannot read input")]
    CannotRead,
}

impl From<AllocError> for Failure {
    ghost from_gives = { λ _ e. e ≡ OutOfMemory };

    fn from(_error: AllocError) -> Failure {
        Failure::OutOfMemory
    }
}

/// Returns all that is left of the input, by as many reads of 65,536 bytes as are left. Refused as `CannotRead` where a
/// read fails, or where the input does not end within them, and as `OutOfMemory`.
#[tactic(auto, using(crate::proofs::KnownInput::consumes_none, crate::proofs::KnownInput::consumes_more, crate::proofs::KnownInput::consumes_end, crate::proofs::CountedReads::none_read, crate::proofs::CountedReads::read_again, crate::proofs::CountedReads::within))]
pub fn read_input<R: Read, A: Allocator + Copy>(
    alloc: A,
    input: &mut LimitedReads<'_, R>,
) -> Result<Vec<u8, A>, Failure>
    ensures bytes { IfOk result (λ all. Consumes (R.remaining input.old.reader.now)
        (R.remaining input.new.reader.now) all.items) }
    ensures end { OnOk result (IsAtEnd (R.remaining input.new.reader.now)) }
    ensures left { input.new.left ≤ input.old.left }
    ensures reads { IsReadWithin R.remaining input.old.left BLOCK_BYTES input.old.reader.now input.new.reader.now }
    ensures same_reader { input.new.reader.ghost_name ≡ input.old.reader.ghost_name }
{
    let mut all = Vec::new(alloc);
    let mut block = empty_block(alloc)?;
    while input.left() > 0 {
        match input.read(&mut block) {
            Ok(0) => return Ok(all),
            Ok(n) => all.extend_from_slice(&block[..n])?,
            Err(_) => return Err(Failure::CannotRead),
        }
    }
    Err(Failure::CannotRead)
}

// Room for one block. It lies on the heap, since it is large for a stack.
fn empty_block<A: Allocator + Copy>(alloc: A) -> Result<Vec<u8, A>, AllocError>
    ensures { IfOk result (λ block. vec_len block ≡ BLOCK_BYTES) }
{
    vec![in alloc; 0u8; BLOCK_BYTES]
}
