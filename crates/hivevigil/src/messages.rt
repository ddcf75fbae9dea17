//! Calls that write columns as messages, and read messages.
ghost use Rattle.std.specs.Prelude.{◌≡◌, ◌≢◌, IsSomeAnd, drop, length, pos};
ghost use Rattle.typed_columns.specs.Typed.{typed_of};
ghost use Rattle.c_columns.specs.Flags.{Tells};
ghost use Rattle.c_columns.specs.Messages.{AreMessage, EndsOnReading, EndsOnSize, EndsOnWrite, HasMessage, IsColumnOfMessage, IsMessageAtFront};

use c_columns::commands::answer;
use c_columns::error_fields::{ErrorFields, NO_COLUMN, write_answer};
use c_columns::handle::Handle;
use c_columns::messages;
use std::alloc::Global;

/// Writes how many bytes the message of a column under its format has to `size`. Takes no memory. Refused as
/// `Unsupported` exactly where there are more than 16 levels of runs, and else as `OutOfMemory` exactly where the
/// message has 2^64 bytes or more.
#[tactic(auto, using(c_columns::proofs::MessageEndings::size_empty, c_columns::proofs::MessageEndings::size_done, c_columns::proofs::MessageEndings::size_ended))]
#[unsafe(no_mangle)]
pub extern "C" fn hv_write_size(
    alloc: Global,
    column: &mut Handle,
    size: &mut usize,
    error: &mut ErrorFields,
) -> i32
    ensures same { column.new.column ≡ column.old.column }
    ensures told { result ≡ pos 0 → IsSomeAnd column.old.column (λ c. HasMessage (typed_of c) size.new) }
    ensures kept { result ≢ pos 0 → size.new ≡ size.old }
    ensures ended { EndsOnSize column.old.column result error.new }
{
    let Some(held) = column.take(alloc) else {
        return NO_COLUMN;
    };
    let outcome = messages::message_size(&held);
    column.put(held);
    write_answer(outcome, size, error)
}

/// Writes the message of a column under its format: its bytes go to the front of `bytes`, and `size` says how many they
/// are; those after them stay. Takes no memory. Refused as `hv_write_size` is; else answers 11, with their number and
/// the room, exactly where they have no room there. Where it is refused, `bytes` is as it was.
#[tactic(auto, using(c_columns::proofs::MessageEndings::write_empty, c_columns::proofs::MessageEndings::write_done, c_columns::proofs::MessageEndings::write_refused))]
#[unsafe(no_mangle)]
pub extern "C" fn hv_write(
    alloc: Global,
    column: &mut Handle,
    bytes: &mut [u8],
    size: &mut usize,
    error: &mut ErrorFields,
) -> i32
    ensures same { column.new.column ≡ column.old.column }
    ensures told { result ≡ pos 0
        → IsSomeAnd column.old.column (λ c. IsMessageAtFront (typed_of c) size.new bytes.new) }
    ensures after { result ≡ pos 0 → drop size.new bytes.new ≡ drop size.new bytes.old }
    ensures kept { result ≢ pos 0 → bytes.new ≡ bytes.old }
    ensures kept_size { result ≢ pos 0 → size.new ≡ size.old }
    ensures ended { EndsOnWrite (length bytes.old) column.old.column result error.new }
{
    let Some(held) = column.take(alloc) else {
        return NO_COLUMN;
    };
    let outcome = messages::put_message(&held, bytes);
    column.put(held);
    write_answer(outcome, size, error)
}

/// Makes the column of which the bytes are the message, under its format. Refused as `BadMetadata` exactly where they
/// are the message of no column, else as `OutOfMemory` only.
#[tactic(auto, using(c_columns::proofs::MessageEndings::read_done, c_columns::proofs::MessageEndings::read_refused))]
#[unsafe(no_mangle)]
pub extern "C" fn hv_read_column(
    alloc: Global,
    bytes: &[u8],
    out: &mut Handle,
    error: &mut ErrorFields,
) -> i32
    ensures made { result ≡ pos 0 → IsSomeAnd out.new.column (IsColumnOfMessage bytes.now) }
    ensures kept { result ≢ pos 0 → out.new.column ≡ out.old.column }
    ensures ended { EndsOnReading bytes.now result error.new }
{
    answer(messages::column_of_message(alloc, bytes), out, error)
}

/// Writes 1 to `truth` where the bytes are the message of a column, with or without a format, else 0. Takes no memory,
/// and is never refused.
#[unsafe(no_mangle)]
pub extern "C" fn hv_is_message(bytes: &[u8], truth: &mut u8, error: &mut ErrorFields) -> i32
    ensures told { Tells truth.new (AreMessage bytes.now) }
    ensures served { result ≡ pos 0 }
    ensures kept { error.new ≡ error.old }
{
    let _ = error;
    *truth = messages::is_message(bytes);
    0
}
