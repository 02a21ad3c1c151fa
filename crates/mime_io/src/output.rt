//! The output: a report that is written whole.

ghost use Rattle.std.specs.Prelude.{◌≡◌, true, OnOk, OnErr};
ghost use Rattle.std.specs.Io.KnownBytes.{Appends};

use crate::device::{Failed, Sink};

/// Writes a report to a sink, and flushes the sink.
///
/// # Errors
/// Returns `Failed` if the sink fails. A failed call isn't repeated.
pub fn write_report<T: Sink>(sink: &mut T, report: &[u8]) -> Result<(), Failed>
    ensures bytes { OnOk result (Appends (T.held sink.old) (T.held sink.new) report.now) }
    ensures flushed { OnOk result (T.IsFlushed sink.new) }
    // The sink fails exactly if the result is an error.
    ensures unfailed { OnOk result (T.has_failed sink.new ≡ T.has_failed sink.old) }
    ensures failed { OnErr result (T.has_failed sink.new ≡ true) }
{
    sink.write_all(report)?;
    sink.flush()
}
