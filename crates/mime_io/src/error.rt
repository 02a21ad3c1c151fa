//! The errors of a run.

ghost use Rattle.std.specs.Prelude.{◌≡◌, Some};
ghost use Rattle.mime_io.specs.Stops.{stop_text};

use std::fmt;

/// The reason why an input isn't read.
#[derive(Clone, Copy, PartialEq, Eq, Debug)]
pub enum ReadError {
    /// A read failed, whatever the cause.
    Read,
    /// Memory ran out.
    NoMemory,
}

/// The reason why a run stops before its end.
#[derive(Clone, Copy, PartialEq, Eq, Debug)]
pub enum RunError {
    /// A read failed, whatever the cause.
    Read,
    /// A write or a flush failed, whatever the cause.
    Write,
    /// The source has more than 1,048,576 bytes.
    TooLong,
    /// Memory ran out.
    NoMemory,
}

impl RunError {
    /// Returns the text that the error prints.
    fn text(self) -> &'static str
        ensures { result.now ≡ stop_text self }
    {
        match self {
            RunError::Read => "read",
            RunError::Write => "write",
            RunError::TooLong => "too long",
            RunError::NoMemory => "no memory",
        }
    }
}

/// Prints the error in one word or two: `TooLong` prints `too long`. A width and a precision are ignored.
impl fmt::Display for RunError {
    ghost output = { λ error. Some (stop_text error) };

    ghost styled_output = { λ error spec. Some (stop_text error) };

    fn fmt<W: fmt::Write>(&self, f: &mut fmt::Formatter<W>) -> fmt::Result {
        f.write_str(self.text())
    }
}
