//! The report on an input, line by line.

ghost use Rattle.std.specs.Prelude.{◌≡◌, ◌++◌, OnOk, IfOk, string_bytes};
ghost use Rattle.mime.specs.Values.{suffix_of};
ghost use Rattle.mime_io.specs.Lines.{row};
ghost use Rattle.mime_lines.specs.Inner.{Adds};
ghost use Rattle.mime_lines.specs.Report.{suffix_row, param_rows, value_rows};
ghost use Rattle.mime_lines.specs.Report.{ReportsText, ReportsLine, IsReportOf};

use crate::mode::Mode;
use mime::{Bad, Mime, MimeIter, ParseError};
use mime_io::first_line;
use std::alloc::{AllocError, Global};

/// Returns the report on an input. Each line is checked for valid UTF-8 on its own.
pub(crate) fn report_of(alloc: Global, input: &[u8], mode: Mode) -> Result<String, AllocError>
    ensures { IfOk result (λ report. IsReportOf mode input.now (string_bytes report)) }
{
    let mut report = String::new(alloc);
    let mut rest = input;
    while let Some((line, more)) = first_line(rest) {
        push_line(alloc, &mut report, line, mode)?;
        rest = more;
    }
    Ok(report)
}

/// Adds the report on a line to `report`.
fn push_line(alloc: Global, report: &mut String, line: &[u8], mode: Mode) -> Result<(), AllocError>
    ensures { OnOk result (Adds (ReportsLine mode line.now) (string_bytes report.old) (string_bytes report.new)) }
{
    match str::from_utf8(line) {
        Ok(text) => push_text(alloc, report, text, mode),
        Err(_) => push_row(report, "not text", ""),
    }
}

/// Adds the report on a line of valid UTF-8 to `report`.
#[inline(always)]
fn push_text(alloc: Global, report: &mut String, text: &str, mode: Mode) -> Result<(), AllocError>
    ensures { OnOk result (Adds (ReportsLine mode text.now) (string_bytes report.old) (string_bytes report.new)) }
{
    match mode {
        Mode::Parts => push_reading(alloc, report, text),
        Mode::List => push_items(alloc, report, text),
    }
}

/// Adds to `report` the rows of the media type that a string is read as, or a row with the string's fault. This function
/// isn't inlined: within the loop over the lines, the scanner's loops would be slower.
#[inline(never)]
fn push_reading(alloc: Global, report: &mut String, text: &str) -> Result<(), AllocError>
    ensures { OnOk result (Adds (ReportsText Mode.Parts text.now) (string_bytes report.old) (string_bytes report.new)) }
{
    match Mime::from_str(alloc, text) {
        Ok(mime) => push_value(report, &mime),
        Err(error) => match error.fault() {
            ParseError::NoMemory => Err(AllocError),
            _ => writeln!(report, "bad {error}"),
        },
    }
}

/// Adds a row for each item of a string to `report`.
fn push_items(alloc: Global, report: &mut String, text: &str) -> Result<(), AllocError>
    ensures { OnOk result (Adds (ReportsText Mode.List text.now) (string_bytes report.old) (string_bytes report.new)) }
{
    for item in MimeIter::new(alloc, text) {
        let added = match &item {
            Ok(mime) => push_row(report, "ok ", mime.as_str()),
            Err(Bad::Piece(piece)) => push_row(report, "bad ", piece),
            Err(Bad::NoMemory) => Err(AllocError),
        };
        added?;
    }
    Ok(())
}

/// Adds the rows of a media type to `report`.
fn push_value(report: &mut String, mime: &Mime) -> Result<(), AllocError>
    ensures { OnOk result (string_bytes report.new ≡ string_bytes report.old ++ value_rows mime.now.media) }
{
    push_row(report, "ok ", mime.as_str())?;
    push_row(report, "type ", mime.type_().as_str())?;
    push_row(report, "subtype ", mime.subtype().as_str())?;
    push_suffix(report, mime)?;
    push_params(report, mime)
}

/// Adds the row of a media type's suffix, if any, to `report`.
fn push_suffix(report: &mut String, mime: &Mime) -> Result<(), AllocError>
    ensures { OnOk result (string_bytes report.new ≡ string_bytes report.old ++ suffix_row (suffix_of mime.now.media)) }
{
    match mime.suffix() {
        Some(suffix) => push_row(report, "suffix ", suffix.as_str()),
        None => Ok(()),
    }
}

/// Adds a row for each parameter of a media type to `report`.
fn push_params(report: &mut String, mime: &Mime) -> Result<(), AllocError>
    ensures { OnOk result (string_bytes report.new ≡ string_bytes report.old ++ param_rows mime.now.media.pairs) }
{
    for (name, value) in mime.params() {
        report.push_str("param ")?;
        report.push_str(name.as_str())?;
        push_row(report, "=", value.as_str())?;
    }
    Ok(())
}

/// Adds a row to `report`: a label, a string and a line feed.
#[inline(always)]
fn push_row(report: &mut String, label: &str, text: &str) -> Result<(), AllocError>
    ensures { OnOk result (string_bytes report.new ≡ string_bytes report.old ++ row label.now text.now) }
{
    report.push_str(label)?;
    report.push_str(text)?;
    report.push('\n')
}
