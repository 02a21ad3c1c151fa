//! One run of the program, from a source to a sink.

ghost use Rattle.std.specs.Prelude.{◌≡◌, ◌≢◌, ℕ, List, ◌≤◌, ◌+◌, length, true, OnOk, IfErr};
ghost use Rattle.std.specs.Io.KnownBytes.{Consumes, Appends, IsAtEnd};
ghost use Rattle.mime_io.specs.Stops.{limit};
ghost use Rattle.mime_lines.specs.Report.{IsReportOf};

use crate::mode::Mode;
use crate::report::report_of;
use mime_io::{LIMIT, ReadError, RunError, Sink, Source, read_past_limit, write_report};
use std::alloc::Global;

/// Reads a source to its end, and then writes the report on its bytes to a sink. For `a/b` the report is the three
/// lines `ok a/b`, `type a` and `subtype b` in [`Mode::Parts`], and only `ok a/b` in [`Mode::List`].
///
/// # Errors
/// Returns `Read` if the source fails, `Write` if the sink fails, `TooLong` if the source has more than 1,048,576 bytes, and `NoMemory` if
/// memory runs out, whichever happens first. A failed call isn't repeated. Unless the error is `Write`, nothing has been written.
pub fn run<S: Source, T: Sink>(
    alloc: Global,
    source: &mut S,
    sink: &mut T,
    mode: Mode,
) -> Result<(), RunError>
    // A run that succeeds has read bytes to the end of the source, and no more than the limit. It has written the report on these bytes and
    // nothing else, and has flushed the sink. This also holds for a source or a sink that doesn't say which bytes it has.
    ensures whole { OnOk result ((bytes : List ℕ) × (text : List ℕ)
        × Consumes (S.left source.old) (S.left source.new) bytes × (length bytes ≤ limit)
        × IsReportOf mode bytes text × Appends (T.held sink.old) (T.held sink.new) text) }
    ensures end { OnOk result (IsAtEnd (S.left source.new)) }
    ensures flushed { OnOk result (T.IsFlushed sink.new) }
    // The source fails exactly if the result is `Read`, and the sink exactly if the result is `Write`.
    ensures read { result ≡ Err RunError.Read → S.has_failed source.new ≡ true }
    ensures write { result ≡ Err RunError.Write → T.has_failed sink.new ≡ true }
    ensures source_unfailed { result ≢ Err RunError.Read → S.has_failed source.new ≡ S.has_failed source.old }
    ensures sink_unfailed { result ≢ Err RunError.Write → T.has_failed sink.new ≡ T.has_failed sink.old }
    // If the result is `TooLong`, the source had one byte more than the limit.
    ensures too_long { result ≡ Err RunError.TooLong
        → (bytes : List ℕ) × Consumes (S.left source.old) (S.left source.new) bytes × (length bytes ≡ limit + 1) }
    // Nothing is written before the report is complete.
    ensures untouched { IfErr result (λ error. error ≢ RunError.Write → sink.new ≡ sink.old) }
{
    let input = match read_past_limit(alloc, source) {
        Ok(input) => input,
        Err(ReadError::Read) => return Err(RunError::Read),
        Err(ReadError::NoMemory) => return Err(RunError::NoMemory),
    };
    if input.len() > LIMIT {
        return Err(RunError::TooLong);
    }
    let Ok(report) = report_of(alloc, input.as_slice(), mode) else {
        return Err(RunError::NoMemory);
    };
    write_report(sink, report.as_str().as_bytes()).map_err(|_| RunError::Write)
}
