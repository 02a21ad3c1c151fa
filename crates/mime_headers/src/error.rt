//! The errors of a run.

ghost use Rattle.std.specs.Prelude.{Some};
ghost use Rattle.mime_headers.specs.Program.{head_error_text};

use crate::field::Name;
use mime_io::RunError;
use std::fmt;

/// The reason why a run stops before its end.
#[derive(Clone, Copy, PartialEq, Eq, Debug)]
pub enum HeadError {
    /// The source or the sink fails, the source has more than 1,048,576 bytes, or memory runs out.
    Run(RunError),
    /// The input has no head, as of a request, a response or a mail. If a line has one of the two fields in plain sight, the first such
    /// line: its number, counted from 1, and the field's name.
    NoHead(Option<(usize, Name)>),
}

/// Prints the error in a few words: `NoHead(Some((10, Name::Accept)))` prints `no head, but line 10 has
/// Accept`. A width and a precision are ignored.
impl fmt::Display for HeadError {
    ghost output = { λ error. Some (head_error_text error) };

    fn fmt<W: fmt::Write>(&self, f: &mut fmt::Formatter<W>) -> fmt::Result {
        match self {
            HeadError::Run(error) => write!(f, "{error}"),
            HeadError::NoHead(None) => f.write_str("no head"),
            HeadError::NoHead(Some((number, name))) => {
                write!(f, "no head, but line {number} has {name}")
            }
        }
    }
}
