//! One run of the program, from a source to a sink.

ghost use Rattle.std.specs.Prelude.{◌≡◌, ◌≢◌, ℕ, List, ◌≤◌, ◌+◌, [], length, map, true, Option, OnOk, IfOk, IfErr};
ghost use Rattle.std.specs.Io.KnownBytes.{Consumes, Appends, IsAtEnd};
ghost use Rattle.mime_io.specs.Stops.{limit};
ghost use Rattle.mime_headers.specs.{Field.first_seen, Head.heads_of, Report.IsReportOf, Report.findings_read, Report.lines_read};
ghost use Rattle.mime_headers.specs.declared.field.Name.{Name};

use crate::error::HeadError;
use crate::report::{Verdict, report_of};
use mime::Mime;
use mime_io::{Failed, LIMIT, ReadError, RunError, Sink, Source, read_past_limit, write_report};
use std::alloc::{AllocError, Global};

/// Reads a source to its end, or to one byte past the limit. Then writes the report on the source's heads and on the offers to a sink, and
/// returns the verdict.
///
/// # Errors
/// Returns `NoHead` if the source has no head. Otherwise returns `Run` of `Read` if the source fails, of `Write` if the sink fails, of
/// `TooLong` if the source has more than 1,048,576 bytes and no head ends within the first 1,048,576, and of `NoMemory` if memory runs out.
/// A call that failed isn't repeated. A part of the report may have been written only if the error is `Write`.
pub fn run<S: Source, T: Sink>(
    alloc: Global,
    source: &mut S,
    sink: &mut T,
    offers: &[Mime],
) -> Result<Verdict, HeadError>
    // A run that succeeds has read bytes to the end of the source, or to one byte past the limit. It has written and flushed the report on
    // these bytes and on the offers, and has written nothing else. The verdict is the report's. This also holds for a source or a sink that
    // doesn't say which bytes it has.
    ensures whole { IfOk result (λ verdict. (bytes : List ℕ) × (text : List ℕ)
        × Consumes (S.left source.old) (S.left source.new) bytes × (length bytes ≤ limit + 1)
        × (length bytes ≤ limit → IsAtEnd (S.left source.new))
        × IsReportOf (map (λ offer. offer.media) offers.now) bytes text verdict × Appends (T.held sink.old) (T.held sink.new) text) }
    ensures flushed { OnOk result (T.IsFlushed sink.new) }
    // If the result is `Read`, the source has failed. If it is `Write`, the sink has failed. Otherwise, neither has failed in this run.
    ensures read { result ≡ Err (HeadError.Run RunError.Read) → S.has_failed source.new ≡ true }
    ensures write { result ≡ Err (HeadError.Run RunError.Write) → T.has_failed sink.new ≡ true }
    ensures source_unfailed { result ≢ Err (HeadError.Run RunError.Read) → S.has_failed source.new ≡ S.has_failed source.old }
    ensures sink_unfailed { result ≢ Err (HeadError.Run RunError.Write) → T.has_failed sink.new ≡ T.has_failed sink.old }
    // If the result is `NoHead`, the run has read all bytes, and they have no head. The error names the first line with a field in plain
    // sight.
    ensures no_head { (line : Option (ℕ × Name)) → result ≡ Err (HeadError.NoHead line)
        → (bytes : List ℕ) × Consumes (S.left source.old) (S.left source.new) bytes × (length bytes ≤ limit) × IsAtEnd (S.left source.new)
        × (heads_of (findings_read bytes) ≡ []) × (line ≡ first_seen 1 (lines_read bytes)) }
    // If the result is `TooLong`, the run has read one byte more than the limit, and no head ends within the limit.
    ensures too_long { result ≡ Err (HeadError.Run RunError.TooLong) → (bytes : List ℕ)
        × Consumes (S.left source.old) (S.left source.new) bytes
        × (length bytes ≡ limit + 1) × (heads_of (findings_read bytes) ≡ []) }
    // An error other than `Write` leaves the sink unchanged.
    ensures untouched { IfErr result (λ error. error ≢ HeadError.Run RunError.Write → sink.new ≡ sink.old) }
{
    let input = match read_past_limit(alloc, source) {
        Ok(input) => input,
        Err(ReadError::Read) => return Err(HeadError::Run(RunError::Read)),
        Err(ReadError::NoMemory) => return Err(HeadError::Run(RunError::NoMemory)),
    };
    let is_long = input.len() > LIMIT;
    let (report, verdict) = match report_of(alloc, input, offers) {
        Ok(Ok(answer)) => answer,
        Ok(Err(_)) if is_long => return Err(HeadError::Run(RunError::TooLong)),
        Ok(Err(line)) => return Err(HeadError::NoHead(line)),
        Err(AllocError) => return Err(HeadError::Run(RunError::NoMemory)),
    };
    match write_report(sink, report.as_slice()) {
        Ok(()) => Ok(verdict),
        Err(Failed) => Err(HeadError::Run(RunError::Write)),
    }
}
