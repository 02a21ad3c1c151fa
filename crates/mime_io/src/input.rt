//! The input: all bytes of a source up to a limit, and their lines.

ghost use Rattle.std.specs.Prelude.{◌≡◌, ◌≢◌, [], ◌<◌, ◌≤◌, ◌∷◌, ◌==◌, ◌+◌, length, true, IfOk, IfSome, MatchOption};
ghost use Rattle.std.specs.List.{position_or_len};
ghost use Rattle.std.specs.Io.KnownBytes.{Consumes, IsAtEnd};
ghost use Rattle.mime_io.specs.Stops.{limit};
ghost use Rattle.mime_io.specs.Lines.{lines_of};

use crate::device::Source;
use crate::error::ReadError;
use mime_search::{Class, first_stop};
use std::alloc::Global;

/// The maximum length of an input, in bytes.
pub const LIMIT: usize = 1_048_576;

/// The maximum number of bytes that one read requests.
const AT_ONCE: usize = 8192;

/// Reads a source to its end or to one byte past the limit, and returns all bytes read. If the result is longer than
/// the limit, the source may have more bytes.
///
/// # Errors
/// Returns `Read` if the source fails, and `NoMemory` if memory runs out.
pub fn read_past_limit<S: Source>(alloc: Global, source: &mut S) -> Result<Vec<u8>, ReadError>
    ensures bytes { IfOk result (λ input. Consumes (S.left source.old) (S.left source.new) input.items) }
    ensures end { IfOk result (λ input. length input.items ≤ limit → IsAtEnd (S.left source.new)) }
    ensures limit { IfOk result (λ input. length input.items ≤ limit + 1) }
    // The source fails exactly if the result is `Read`.
    ensures read { result ≡ Err ReadError.Read → S.has_failed source.new ≡ true }
    ensures unfailed { result ≢ Err ReadError.Read → S.has_failed source.new ≡ S.has_failed source.old }
{
    let mut input = Vec::new(alloc);
    let mut block = [0u8; AT_ONCE];
    while input.len() <= LIMIT {
        let room = (LIMIT + 1 - input.len()).min(AT_ONCE);
        let Ok(count) = source.read(&mut block[..room]) else {
            return Err(ReadError::Read);
        };
        if count == 0 {
            return Ok(input);
        }
        let Ok(()) = input.extend_from_slice(&block[..count]) else {
            return Err(ReadError::NoMemory);
        };
    }
    Ok(input)
}

/// Returns the position of an input's first line feed, or the input's length if there is none.
fn line_end(input: &[u8]) -> usize
    ensures line { result ≡ position_or_len (λ byte. byte == 10) input.now }
    ensures within { result ≤ length input.now }
{
    first_stop(input, 0, &Class::of(b'\n', b'\n'))
}

/// Returns the first line of an input and the rest after its line feed, or `None` if the input is empty.
pub fn first_line(input: &[u8]) -> Option<(&[u8], &[u8])>
    ensures lines { MatchOption result (lines_of input.now ≡ []) (λ cut. lines_of input.now ≡ cut.0.now ∷ lines_of cut.1.now) }
    ensures shorter { IfSome result (λ cut. length cut.1.now < length input.now) }
{
    if input.is_empty() {
        return None;
    }
    let end = line_end(input);
    let next = (end + 1).min(input.len());
    Some((&input[..end], &input[next..]))
}
