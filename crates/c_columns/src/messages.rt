//! Columns with their formats as messages, and columns of messages.
ghost use Rattle.std.specs.Prelude.{◌≡◌, drop, length, IfErr, IfOk, OnErr, OnOk};
ghost use Rattle.typed_columns.specs.Typed.{typed_of};
ghost use Rattle.c_columns.specs.Flags.{Tells};
ghost use Rattle.c_columns.specs.Messages.{AreMessage, HasMessage, IsColumnOfMessage, IsMessageAtFront, IsUnreadable, MessageFault, ReadFault, SizeFault, message_of};

use crate::flat::{Boxed, boxed_under};
use crate::front::Front;
use crate::questions::byte_of;
use column_bytes::{is_typed_message, put_typed, read_typed, typed_size};
use column_core::{VortexError, VortexResult};
use std::alloc::Global;
use typed_columns::TypedColumn;

/// Returns how many bytes the message of a column under its format has. Takes no memory. Refused as `Unsupported`
/// exactly where there are more than 16 levels of runs, and else as `OutOfMemory` exactly where the message has 2^64
/// bytes or more.
#[tactic(auto, using(crate::proofs::MessageEndings::size_served))]
pub fn message_size(column: &TypedColumn<Global>) -> VortexResult<usize>
    ensures told { IfOk result (λ size. HasMessage (typed_of column.now) size) }
    ensures refused { IfErr result (λ error. SizeFault (typed_of column.now) error) }
    ensures served { OnOk result ((error : VortexError) → ¬ (SizeFault (typed_of column.now) error)) }
{
    match typed_size(column.format.as_str(), &column.array) {
        Ok(size) => Ok(size),
        Err(error) => Err(error),
    }
}

/// Writes the message of a column under its format to the front of `room`, and returns how many bytes it has; the bytes
/// after it stay. Takes no memory. Refused as `message_size` is, and else exactly where the message does not fit, as
/// `ColumnLength`, with its number of bytes and the room. Where it is refused, `room` is as it was.
#[tactic(auto, using(crate::proofs::MessageEndings::no_room))]
pub fn put_message(column: &TypedColumn<Global>, room: &mut [u8]) -> VortexResult<usize>
    ensures put { IfOk result (λ size. IsMessageAtFront (typed_of column.now) size room.new) }
    ensures after { IfOk result (λ size. drop size room.new ≡ drop size room.old) }
    ensures refused { IfErr result (λ error. MessageFault (length room.old) (typed_of column.now) error) }
    ensures served { OnOk result ((error : VortexError) →
        ¬ (MessageFault (length room.old) (typed_of column.now) error)) }
    ensures kept { OnErr result (room.new ≡ room.old) }
    ensures len { length room.new ≡ length room.old }
{
    let size = message_size(column)?;
    if room.len() < size {
        return Err(VortexError::ColumnLength {
            left: size,
            right: room.len(),
        });
    }
    fill(&mut room[..size], column)?;
    Ok(size)
}

/// Returns the column that the bytes are the message of, on the heap, under its format. Refused as `BadMetadata`
/// exactly where they are not the message of a column, else only as `OutOfMemory`.
#[tactic(auto, using(crate::proofs::MessageEndings::read_served, crate::proofs::MessageEndings::column_made))]
pub fn column_of_message(alloc: Global, bytes: &[u8]) -> VortexResult<Boxed>
    ensures made { IfOk result (λ made. IsColumnOfMessage bytes.now made.value) }
    ensures refused { IfErr result (λ error. ReadFault bytes.now error) }
    ensures served { OnOk result ((error : VortexError) → ¬ (IsUnreadable bytes.now error)) }
{
    match read_typed(alloc, bytes) {
        Ok((format, array)) => boxed_under(alloc, array, format),
        Err(error) => Err(error),
    }
}

/// Returns 1 where the bytes are the message of a column, with or without a format, else 0. Takes no memory.
#[tactic(auto, using(crate::proofs::MessageEndings::message_told))]
pub fn is_message(bytes: &[u8]) -> u8
    ensures { Tells result (AreMessage bytes.now) }
{
    byte_of(is_typed_message(bytes))
}

// Fills a room of its size with the message of a column. Never refused.
fn fill(room: &mut [u8], column: &TypedColumn<Global>) -> VortexResult<()>
    requires { HasMessage (typed_of column.now) (length room.old) }
    ensures filled { OnOk result (room.new ≡ message_of (typed_of column.now)) }
    ensures never { OnErr result ⊥ }
{
    let mut front = Front::new(room);
    put_typed(&mut front, column.format.as_str(), &column.array)?;
    Ok(())
}
