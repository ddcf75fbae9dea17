//! Reads a whole script, and writes its answers or the reason why there are none.
ghost use Rattle.std.specs.Prelude.{◌≡◌, ◌⊎◌};
ghost use Rattle.runend_script.specs.Reads.{IsReadWithin};

use crate::input::{Failure, read_input};
use crate::output::{Status, print, report};
use crate::reads::LimitedReads;
use crate::scripts::answer_script;
use std::alloc::Allocator;
use std::io::{Read, Write};
use std::str;
use vortex_runend::ExecutionCtx;

/// Reads a script by at most 1,048,576 reads of 65,536 bytes, runs it, and writes its answers. Returns a status: 0
/// where each line was answered; 2 after a line that is not a command, or where the input is not UTF-8; 3 where memory
/// was refused, a read failed, a write failed or the input did not end within the reads. Where memory is refused to a
/// line, the answers of the lines before it are written first.
pub fn serve<R: Read, W: Write, E: Write, A: Allocator + Copy>(
    input: &mut R,
    out: &mut W,
    err: &mut E,
    ctx: &mut ExecutionCtx<A>,
) -> u8
    ensures status { (result ≡ 0) ⊎ (result ≡ 2) ⊎ (result ≡ 3) }
    ensures reads { IsReadWithin R.remaining 1048576 65536 input.old input.new }
{
    let mut reads = LimitedReads::new(input);
    let status = match read_input(*ctx.allocator(), &mut reads) {
        Ok(bytes) => answer(&bytes, out, err, ctx),
        Err(failure) => report(err, failure),
    };
    status as u8
}

// Runs the script of these bytes, and writes its answers: where memory is refused those of the lines before.
fn answer<W: Write, E: Write, A: Allocator + Copy>(
    bytes: &[u8],
    out: &mut W,
    err: &mut E,
    ctx: &mut ExecutionCtx<A>,
) -> Status {
    let Ok(text) = str::from_utf8(bytes) else {
        return print(out, "not UTF-8\n", Status::BadInput);
    };
    let mut answers = String::new(*ctx.allocator());
    let status = match answer_script(text, &mut answers, ctx) {
        Ok(false) => print(out, answers.as_str(), Status::Done),
        Ok(true) => print(out, answers.as_str(), Status::BadInput),
        Err(_) => {
            let _printed = print(out, answers.as_str(), Status::Failed);
            report(err, Failure::OutOfMemory)
        }
    };
    drop(answers);
    status
}
