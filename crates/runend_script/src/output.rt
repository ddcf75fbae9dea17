//! Output, and how a program ends.
ghost use Rattle.std.specs.Prelude.{◌≡◌, ◌≢◌, ◌⊎◌, OnOk};
ghost use Rattle.std.specs.Io.KnownBytes.{Appends};

use crate::input::Failure;
use std::io;
use std::io::Write;

/// Says how the program ends. The number is its exit status.
#[derive(Clone, Copy, Debug, PartialEq, Eq)]
pub enum Status {
    /// Says that each line was answered.
    Done = 0,
    /// Says that a line was not a command, or the input was not a text.
    BadInput = 2,
    /// Says that the script has no answer, or that the answer could not be written.
    Failed = 3,
}

/// Writes the text, and returns the status, or `Failed` where the text cannot be written.
pub fn print<W: Write>(out: &mut W, text: &str, status: Status) -> Status
    ensures status { (result ≡ status) ⊎ (result ≡ Status.Failed) }
    ensures written { result ≢ Status.Failed → Appends (W.contents out.old) (W.contents out.new) text.now }
{
    match write_text(out, text) {
        Ok(()) => status,
        Err(_) => Status::Failed,
    }
}

fn write_text<W: Write>(out: &mut W, text: &str) -> io::Result<()>
    ensures { OnOk result (Appends (W.contents out.old) (W.contents out.new) text.now) }
{
    out.write_all(text.as_bytes())?;
    out.flush()
}

/// Writes the failure as a line, where that can be done, and returns `Failed`.
pub fn report<E: Write>(err: &mut E, failure: Failure) -> Status
    ensures { result ≡ Status.Failed }
{
    let _ = writeln!(err, "{failure}");
    Status::Failed
}
