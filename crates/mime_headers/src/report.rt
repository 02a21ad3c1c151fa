//! The report on heads.

ghost use Rattle.std.specs.Prelude.{◌≡◌, ◌++◌, ℕ, Bool, List, [], Err, Ok, Option, None, Some, map, flat_map, OnOk, IfOk, MatchOption};
ghost use Rattle.std.specs.Prelude.{MatchResult};
ghost use Rattle.std.specs.Prelude.{option_map, slice_get, unwrap_or, vec_items, ◌&&◌, ◌==◌, if◌then◌else◌, length, codes, ◌+◌};
ghost use Rattle.std.specs.{List.FoldsTo, List.enumerate_from};
ghost use Rattle.mime.specs.Values.{MediaType};
ghost use Rattle.mime_http.specs.Ranking.{IsRanking};
ghost use Rattle.mime_headers.specs.Field.{first_seen};
ghost use Rattle.mime_headers.specs.Head.{heads_of};
ghost use Rattle.mime_headers.specs.Inner.{finding_now, head_now, medias, ranges_now, state_now};
ghost use Rattle.mime_headers.specs.{Field.field_of, Inner.field_now};
ghost use Rattle.mime_headers.specs.Report as Spec;

use crate::field::{Field, Name, field_of, first_seen, seen, values_of};
use crate::head::{Finding, Head, findings_in};
use crate::line::{Made, begins, plain_lines, without_escapes};
use crate::shown::without_controls;
use crate::start::{Kind, split_word};
use mime::Mime;
use mime_http::{
    FieldError, RankedOffer, boundary, content_type, first_entry, has_quoted_weight,
    has_valid_weight, lacked, rank_offers, trimmed, unescape, weight_of,
};
use mime_io::LIMIT;
use std::alloc::{AllocError, Global};

/// A verdict on an input and on the offers.
#[derive(Clone, Copy, PartialEq, Eq, Debug)]
pub enum Verdict {
    /// Each `Content-Type` is accepted, each response and each request with a weight weighs more than 0, and so does an offer, unless there
    /// are no offers.
    Acceptable,
    /// A `Content-Type` is rejected; or a response weighs 0 by its request, or a request by its response (RFC 9110, 15.5.16); or there are
    /// offers and each weighs 0, for which a server may reply with 406 (15.5.7). The last request with an `Accept` decides the offers'
    /// weights.
    NotAcceptable,
}

type Ranking = Vec<RankedOffer>;

/// The report and the verdict, or the first line with a field in plain sight if there is no head.
type Answer = Result<(Vec<u8>, Verdict), Option<(usize, Name)>>;

/// What is known after some findings.
#[derive(Drop)]
struct Report {
    text: Vec<u8>,
    /// Whether each `Content-Type` is accepted, and each weight in an exchange is above 0.
    are_good: bool,
    /// Whether an offer is acceptable, or there are no offers, by the last request with an `Accept`.
    choice: Option<bool>,
    /// The number of requests that wait for a response.
    waiting: usize,
    /// The ranges of the request that waits, if one alone does.
    asked: Option<Vec<Mime>>,
    /// The only media type of that request.
    sent: Option<Mime>,
}

impl Report {
    /// Returns what is known before any finding.
    fn new(alloc: Global) -> Report
        ensures { state_now result ≡ Spec.start }
    {
        Report {
            text: Vec::new(alloc),
            are_good: true,
            choice: None,
            waiting: 0,
            asked: None,
            sent: None,
        }
    }
}

/// Returns the text and the verdict of the report on the heads of an input and on offers. If the input has no head, returns the first line
/// with a field in plain sight.
pub(crate) fn report_of(alloc: Global, input: Vec<u8>, offers: &[Mime]) -> Made<Answer>
    ensures { IfOk result (λ answer. MatchResult answer
        (λ found. Spec.IsReportOf (map (λ offer. offer.media) offers.now) (vec_items input) (vec_items found.0) found.1)
        (λ line. (heads_of (Spec.findings_read (vec_items input)) ≡ []) × (line ≡ first_seen 1 (Spec.lines_read (vec_items input))))) }
{
    let is_cut = input.len() > LIMIT;
    let plain = without_escapes(alloc, input)?;
    let lines = plain_lines(alloc, &plain, is_cut)?;
    let findings = findings_in(alloc, &lines, is_cut)?;
    Ok(match report_on(alloc, &findings, offers, is_cut)? {
        Some(found) => Ok(found),
        None => Err(first_seen(&lines)),
    })
}

/// Returns the text and the verdict of the report on findings and on offers, or `None` if there is no head. `is_cut` says whether the input
/// is cut off.
fn report_on(
    alloc: Global,
    findings: &[Finding],
    offers: &[Mime],
    is_cut: bool,
) -> Made<Option<(Vec<u8>, Verdict)>>
    ensures { IfOk result (λ answer. MatchOption answer (heads_of (map finding_now findings.now) ≡ [])
        (λ found. Spec.IsReport (medias offers.now) is_cut (map finding_now findings.now) (vec_items found.0) found.1)) }
{
    let count = head_count(findings);
    if count == 0 {
        return Ok(None);
    }
    let mut report = Report::new(alloc);
    push_findings(&mut report, offers, count > 1, findings)?;
    push_missing(&mut report, offers)?;
    push_shown(
        &mut report.text,
        is_cut,
        b"not read after ",
        b"1048576 bytes",
    )?;
    let verdict = verdict_of(&report);
    Ok(Some((without_controls(alloc, report.text)?, verdict)))
}

/// Returns the number of heads.
fn head_count(findings: &[Finding]) -> usize
    ensures { result ≡ length (heads_of (map finding_now findings.now)) }
{
    let mut count = 0;
    for finding in findings {
        if let Finding::Head(_) = finding {
            count += 1;
        }
    }
    count
}

/// Returns the verdict of a report.
fn verdict_of(report: &Report) -> Verdict
    ensures { result ≡ Spec.verdict_of (state_now report.now) }
{
    if report.are_good && report.choice != Some(false) {
        return Verdict::Acceptable;
    }
    Verdict::NotAcceptable
}

/// Adds the rows of each finding. `many` says whether there are several heads.
fn push_findings(report: &mut Report, offers: &[Mime], many: bool, findings: &[Finding]) -> Made<()>
    ensures { OnOk result (FoldsTo (Spec.AddsFinding (medias offers.now) many) (state_now report.old)
        (map finding_now findings.now) (state_now report.new)) }
{
    for finding in findings {
        push_finding(report, offers, many, finding)?;
    }
    Ok(())
}

/// Adds the rows of a finding. `many` says whether there are several heads.
fn push_finding(report: &mut Report, offers: &[Mime], many: bool, finding: &Finding) -> Made<()>
    ensures { OnOk result
        (Spec.AddsFinding (medias offers.now) many (state_now report.old) (finding_now finding.now) (state_now report.new)) }
{
    match finding {
        Finding::Head(head) => push_head(report, offers, many, head),
        Finding::Stray(line) => push_shown(&mut report.text, true, b"not in a head: ", line),
    }
}

/// Adds the rows of a head. `many` says whether there are several heads.
fn push_head(report: &mut Report, offers: &[Mime], many: bool, head: &Head) -> Made<()>
    ensures { OnOk result (Spec.AddsHead (medias offers.now) many (state_now report.old) (head_now head.now) (state_now report.new)) }
{
    let alloc = *report.text.allocator();
    let only = push_title_and_types(report, many, head)?;
    let accepts = values_of(alloc, Name::Accept, &head.texts)?;
    let ranges = push_accept(&mut report.text, &accepts)?;
    push_weights(report, offers, head.kind, ranges, only)?;
    Ok(())
}

/// Adds the weights by the ranges of a head of this kind, whose only media type is `only`.
fn push_weights(
    report: &mut Report,
    offers: &[Mime],
    kind: Kind,
    ranges: Option<Vec<Mime>>,
    only: Option<Mime>,
) -> Made<()>
    ensures { OnOk result (Spec.AddsWeights kind (medias offers.now) (ranges_now ranges) (option_map (λ mime. mime.media) only)
        (state_now report.old) (state_now report.new)) }
{
    match kind {
        Kind::Fields | Kind::Request => push_request(report, offers, ranges, only),
        Kind::Interim => Ok(()),
        Kind::Final => push_response(report, ranges),
    }
}

/// Adds the rows of a head up to those of `Content-Type` and of a response's weight. Returns the only media type.
fn push_title_and_types(report: &mut Report, many: bool, head: &Head) -> Made<Option<Mime>>
    ensures { IfOk result (λ only. Spec.AddsTypes many (state_now report.old) (head_now head.now) (option_map (λ mime. mime.media) only)
        (state_now report.new)) }
{
    let alloc = *report.text.allocator();
    push_title(&mut report.text, many, head)?;
    let types = values_of(alloc, Name::ContentType, &head.texts)?;
    let last = push_types(&mut report.text, &mut report.are_good, &types)?;
    push_count(
        &mut report.text,
        expects_type(head.kind, head.title()),
        &types,
    )?;
    let only = only_of(types.len(), last);
    push_answer(report, head.kind, only.as_ref())?;
    Ok(only)
}

/// Adds the row of a head's title, if there are several heads, and those of its lines.
fn push_title(text: &mut Vec<u8>, many: bool, head: &Head) -> Made<()>
    ensures { OnOk result (vec_items text.new ≡ vec_items text.old ++ Spec.title_rows many (head_now head.now)) }
{
    push_shown(text, many, b"head ", head.title())?;
    push_remarks(text, &head.texts)?;
    Ok(())
}

/// Returns the last media type if there is one value.
fn only_of(count: usize, last: Option<Mime>) -> Option<Mime>
    ensures { option_map (λ mime. mime.media) result ≡ (if count == 1 then option_map (λ mime. mime.media) last else None) }
{
    if count == 1 {
        return last;
    }
    None
}

/// Adds the weight of a final response's only media type by the request that it answers.
fn push_answer(report: &mut Report, kind: Kind, only: Option<&Mime>) -> Made<()>
    ensures { OnOk result ((answer : List ℕ × Bool) × Spec.IsWeighed (codes "answer ")
        (if Spec.is_final kind then (state_now report.old).asked else None) (option_map (λ mime. mime.now.media) only.entry) answer
        × (state_now report.new ≡ record (state_now report.old) {
          text = vec_items report.old.text ++ answer.0;
          are_good = report.old.are_good && answer.1;
        })) }
{
    if !is_final(kind) {
        return Ok(());
    }
    let (text, good) = (&mut report.text, &mut report.are_good);
    push_weight(text, good, b"answer ", report.asked.as_deref(), only)?;
    Ok(())
}

/// Returns `true` if a head is a response that isn't interim.
fn is_final(kind: Kind) -> bool
    ensures { result ≡ Spec.is_final kind }
{
    matches!(kind, Kind::Final)
}

/// Adds the row which says that an expected `Content-Type` isn't there, or that there is more than one.
fn push_count(text: &mut Vec<u8>, is_expected: bool, types: &[Vec<u8>]) -> Made<()>
    ensures { OnOk result (vec_items text.new ≡ vec_items text.old ++ Spec.count_row is_expected (map vec_items types.now)) }
{
    match types {
        [] => push_shown(text, is_expected, b"no Content-Type", b""),
        [_] => Ok(()),
        _ => push(text, &[b"several Content-Type lines (HTTP allows one)\n"]),
    }
}

/// Returns `true` if a head is a final response with content, by its status.
fn expects_type(kind: Kind, title: &[u8]) -> bool
    ensures { result ≡ Spec.expects_type kind title.now }
{
    let code = split_word(split_word(title).1).0;
    is_final(kind) && code != b"204".as_slice() && code != b"304".as_slice()
}

/// Adds the row of a media type, weighed like an offer by ranges, and sets `good` to `false` if it weighs 0. Without ranges or a media
/// type, adds nothing.
fn push_weight(
    text: &mut Vec<u8>,
    good: &mut bool,
    label: &[u8],
    ranges: Option<&[Mime]>,
    media: Option<&Mime>,
) -> Made<()>
    ensures { OnOk result ((weighed : List ℕ × Bool)
        × Spec.IsWeighed label.now (option_map (λ ranges. medias ranges.now) ranges.entry)
        (option_map (λ mime. mime.now.media) media.entry) weighed
        × (vec_items text.new ≡ vec_items text.old ++ weighed.0) × (good.new ≡ (good.old && weighed.1))) }
{
    let Some(ranges) = ranges else {
        return Ok(());
    };
    let Some(media) = media else {
        return Ok(());
    };
    let ranking = push_offers(text, label, ranges, std::slice::from_ref(media))?;
    *good &= is_acceptable(&ranking);
    Ok(())
}

/// Adds the rows of the offers by a request's ranges, and lets it wait. `only` is its only media type.
fn push_request(
    report: &mut Report,
    offers: &[Mime],
    ranges: Option<Vec<Mime>>,
    only: Option<Mime>,
) -> Made<()>
    ensures { OnOk result (Spec.AddsRequest (medias offers.now) (ranges_now ranges) (option_map (λ mime. mime.media) only)
        (state_now report.old) (state_now report.new)) }
{
    push_choice(report, offers, ranges.as_deref())?;
    wait(report, ranges, only)?;
    Ok(())
}

/// Lets a request with these ranges and this media type wait. It is known only if no other waits.
fn wait(report: &mut Report, ranges: Option<Vec<Mime>>, only: Option<Mime>) -> Made<()>
    ensures { OnOk result (state_now report.new ≡ record (state_now report.old) {
      waiting = report.old.waiting + 1;
      asked = if report.old.waiting == 0 then ranges_now ranges else None;
      sent = if report.old.waiting == 0 then option_map (λ mime. mime.media) only else None;
    }) }
{
    let is_first = report.waiting == 0;
    // There are fewer requests than bytes.
    report.waiting = report.waiting.checked_add(1).ok_or(AllocError)?;
    if is_first {
        report.asked = ranges;
        report.sent = only;
        return Ok(());
    }
    report.asked = None;
    report.sent = None;
    Ok(())
}

/// Adds the weight of the request that a final response answers, by the response's ranges, and ends a wait.
fn push_response(report: &mut Report, ranges: Option<Vec<Mime>>) -> Made<()>
    ensures { OnOk result (Spec.AddsResponse (ranges_now ranges) (state_now report.old) (state_now report.new)) }
{
    let (text, good) = (&mut report.text, &mut report.are_good);
    push_weight(
        text,
        good,
        b"request ",
        ranges.as_deref(),
        report.sent.as_ref(),
    )?;
    report.waiting = report.waiting.saturating_sub(1);
    report.asked = None;
    report.sent = None;
    Ok(())
}

/// Adds `no Accept`, and the rows of the offers by `*/*`, if there are offers and no request has an `Accept` (RFC 9110, 12.5.1).
fn push_missing(report: &mut Report, offers: &[Mime]) -> Made<()>
    ensures { OnOk result (Spec.AddsMissing (medias offers.now) (state_now report.old) (state_now report.new)) }
{
    if offers.is_empty() || report.choice.is_some() {
        return Ok(());
    }
    let text = &mut report.text;
    push(text, &[b"no Accept\n"])?;
    let mut ranges = Vec::new(*text.allocator());
    push_entry(text, &mut ranges, b"*/*")?;
    push_choice(report, offers, Some(&ranges))?;
    Ok(())
}

/// Adds the rows of the lines of `Accept`, and returns their ranges, or `None` if there are no lines.
fn push_accept(text: &mut Vec<u8>, lines: &[Vec<u8>]) -> Made<Option<Vec<Mime>>>
    ensures { IfOk result (λ ranges. Spec.AddsAccept (map vec_items lines.now) (vec_items text.old)
        (vec_items text.new, ranges_now ranges)) }
{
    if lines.is_empty() {
        return Ok(None);
    }
    let before = text.len();
    let mut ranges = Vec::new(*text.allocator());
    push_lines(text, &mut ranges, lines)?;
    let is_empty = before == text.len();
    push_shown(text, is_empty, b"empty Accept", b"")?;
    Ok(Some(ranges))
}

/// Adds the rows of the offers by ranges, if any, and of the best.
fn push_choice(report: &mut Report, offers: &[Mime], ranges: Option<&[Mime]>) -> Made<()>
    ensures { OnOk result (Spec.AddsChoice (medias offers.now) (option_map (λ ranges. medias ranges.now) ranges.entry)
        (state_now report.old)
        (state_now report.new)) }
{
    let Some(ranges) = ranges else {
        return Ok(());
    };
    let text = &mut report.text;
    let ranking = push_offers(text, b"offer ", ranges, offers)?;
    push_best(text, offers, &ranking)?;
    report.choice = Some(is_acceptable(&ranking));
    Ok(())
}

/// Adds the rows of offers, the best first, and returns the ranking.
fn push_offers(text: &mut Vec<u8>, label: &[u8], ranges: &[Mime], offers: &[Mime]) -> Made<Ranking>
    ensures ranking { IfOk result (λ ranking. IsRanking (medias ranges.now) (medias offers.now) (vec_items ranking)) }
    ensures rows { IfOk result (λ ranking. vec_items text.new ≡ vec_items text.old
        ++ Spec.offer_rows label.now (medias ranges.now) (medias offers.now) (vec_items ranking)) }
{
    let ranking = rank_offers(*text.allocator(), ranges, offers)?;
    for one in &ranking {
        push_offer(text, label, ranges, one, nth(offers, one.offer))?;
    }
    Ok(ranking)
}

/// Adds pieces of text.
#[inline(always)]
fn push(text: &mut Vec<u8>, pieces: &[&[u8]]) -> Made<()>
    ensures { OnOk result (vec_items text.new ≡ vec_items text.old ++ flat_map (λ piece. piece.now) pieces.now) }
{
    for piece in pieces {
        text.extend_from_slice(piece)?;
    }
    Ok(())
}

/// Adds a row of a label and bytes, or nothing if `bytes` is `None`.
fn push_if(text: &mut Vec<u8>, label: &[u8], bytes: Option<&[u8]>) -> Made<()>
    ensures { OnOk result (vec_items text.new ≡ vec_items text.old ++ Spec.row_if label.now (option_map (λ bytes. bytes.now) bytes.entry)) }
{
    match bytes {
        Some(bytes) => push(text, &[label, bytes, b"\n"]),
        None => Ok(()),
    }
}

/// Adds a row of a label and bytes if `is_wanted`. A dot replaces each byte that isn't printable ASCII.
fn push_shown(text: &mut Vec<u8>, is_wanted: bool, label: &[u8], bytes: &[u8]) -> Made<()>
    ensures { OnOk result (vec_items text.new ≡ vec_items text.old ++ Spec.row_when is_wanted label.now bytes.now) }
{
    if !is_wanted {
        return Ok(());
    }
    push(text, &[label])?;
    for byte in bytes {
        let is_printable = *byte == b' ' || byte.is_ascii_graphic();
        text.push(if is_printable { *byte } else { b'.' })?;
    }
    push(text, &[b"\n"])
}

/// Adds a row for each line of a head that isn't one of the two fields as it was sent, or may not be.
fn push_remarks(text: &mut Vec<u8>, lines: &[&[u8]]) -> Made<()>
    ensures { OnOk result (vec_items text.new ≡ vec_items text.old
        ++ flat_map (λ line. Spec.remark_of line (field_of line)) (map (λ line. line.now) lines.now)) }
{
    for line in lines {
        push_remark(text, line, field_of(line))?;
    }
    Ok(())
}

/// Adds the row of a line if it isn't one of the two fields as it was sent, or may not be. `field` is the line as a field.
fn push_remark(text: &mut Vec<u8>, line: &[u8], field: Option<Field>) -> Made<()>
    ensures { OnOk result (vec_items text.new ≡ vec_items text.old ++ Spec.remark_of line.now (option_map field_now field.entry)) }
{
    match field {
        None => push_shown(text, seen(line).is_some(), b"not in a head: ", line),
        Some(field) => {
            push_shown(
                text,
                field.is_spaced,
                b"white space before the colon: ",
                line,
            )?;
            let is_wanted = !field.is_spaced && is_altered(field.value);
            push_shown(text, is_wanted, b"perhaps not as sent: ", line)
        }
    }
}

/// Returns `true` if a value ends in these bytes.
fn ends_in(value: &[u8], end: &[u8]) -> bool
    ensures { result ≡ Spec.ends_in value.now end.now }
{
    &value[value.len().saturating_sub(end.len())..] == end
}

/// Returns `true` if a value is as a tool prints it: in quotes, or with what shows a carriage return or a line feed at its end.
fn is_altered(value: &[u8]) -> bool
    ensures { result ≡ Spec.is_altered value.now }
{
    let is_ended = ends_in(value, b"^M") || ends_in(value, b"\\r") || ends_in(value, b"\\n");
    begins(b"'", value) || ends_in(value, b".") || ends_in(value, b"$") || is_ended
}

/// Adds the rows of trimmed values of `Content-Type`, and returns the last media type. Sets `good` to `false` if a value is rejected.
fn push_types(text: &mut Vec<u8>, good: &mut bool, values: &[Vec<u8>]) -> Made<Option<Mime>>
    ensures { IfOk result (λ last. FoldsTo Spec.AddsType (vec_items text.old, good.old, None) (map vec_items values.now)
        (vec_items text.new, good.new, option_map (λ mime. mime.media) last)) }
{
    let mut last = None;
    for value in values {
        let Some(mime) = read(text, b"bad Content-Type ", trimmed(value))? else {
            *good = false;
            continue;
        };
        push_media(text, &mime)?;
        last = Some(mime);
    }
    Ok(last)
}

/// Reads a value of a field. If it is rejected, adds the rows of its fault and returns `None`.
fn read(text: &mut Vec<u8>, label: &[u8], value: &[u8]) -> Made<Option<Mime>>
    ensures { IfOk result (λ found. MatchOption found
        ((error : FieldError) × Spec.HasReading value.now (Err error)
        × (vec_items text.new ≡ vec_items text.old ++ Spec.fault_rows label.now value.now error))
        (λ mime. Spec.HasReading value.now (Ok mime.media) × (vec_items text.new ≡ vec_items text.old))) }
{
    match content_type(*text.allocator(), value) {
        Ok(mime) => Ok(Some(mime)),
        Err(FieldError::NoMemory) => Err(AllocError),
        Err(error) => {
            push_fault(text, label, value, error)?;
            Ok(None)
        }
    }
}

/// Adds the rows of a media type.
fn push_media(text: &mut Vec<u8>, mime: &Mime) -> Made<()>
    ensures { OnOk result ((boundary : Option (List ℕ)) × Spec.BoundaryIs mime.now.media boundary
        × (vec_items text.new ≡ vec_items text.old ++ Spec.media_rows mime.now.media boundary)) }
{
    push_if(text, b"Content-Type ", Some(mime.as_str().as_bytes()))?;
    push_if(text, b"essence ", Some(mime.essence_str().as_bytes()))?;
    let suffix = mime.suffix().map(|suffix| suffix.as_str().as_bytes());
    push_if(text, b"suffix ", suffix)?;
    push_params(text, mime)?;
    let boundary = boundary(*text.allocator(), mime)?;
    push_if(text, b"boundary ", boundary.as_deref())?;
    Ok(())
}

/// Adds the rows of the parameters of a media type.
fn push_params(text: &mut Vec<u8>, mime: &Mime) -> Made<()>
    ensures { OnOk result (vec_items text.new ≡ vec_items text.old ++ Spec.param_rows mime.now.media) }
{
    for (name, value) in mime.params() {
        push(text, &[b"param ", name.as_str().as_bytes(), b"="])?;
        unescape(value.as_str(), text)?;
        text.push(b'\n')?;
    }
    Ok(())
}

/// Adds the rows of a rejected value of a field.
#[tactic(auto, using(std::proofs::Common::append_assoc))]
fn push_fault(text: &mut Vec<u8>, label: &[u8], value: &[u8], error: FieldError) -> Made<()>
    ensures { OnOk result (vec_items text.new ≡ vec_items text.old ++ Spec.fault_rows label.now value.now error) }
{
    let said = format!(in *text.allocator(); "{error}")?;
    push(text, &[label, said.as_bytes(), b"\n"])?;
    push_shown(text, true, b"    ", value)?;
    push_caret(text, value, error.position(value))
}

/// Adds the row with a caret at a position of a value, and the byte there, if there is one.
fn push_caret(text: &mut Vec<u8>, value: &[u8], at: usize) -> Made<()>
    ensures { OnOk result (vec_items text.new ≡ vec_items text.old ++ Spec.caret_row value.now at) }
{
    push(text, &[b"    "])?;
    for _ in 0..at {
        text.push(b' ')?;
    }
    push(text, &[b"^"])?;
    push_byte(text, byte_at(value, at))?;
    push(text, &[b"\n"])
}

/// Returns the byte at a position, or `None` if there is none.
fn byte_at(value: &[u8], at: usize) -> Option<u8>
    ensures { result ≡ slice_get value.now at }
{
    value.get(at).copied()
}

/// Adds a byte, if there is one, as a person reads it, and in hexadecimal. Adds a remark if it is `(`, which begins a comment in mail.
fn push_byte(text: &mut Vec<u8>, byte: Option<u8>) -> Made<()>
    ensures { OnOk result (vec_items text.new ≡ vec_items text.old ++ unwrap_or (option_map Spec.byte_text byte) []) }
{
    let Some(byte) = byte else {
        return Ok(());
    };
    let printed = [b' ', byte];
    let name = match byte {
        b' ' => b" space".as_slice(),
        b'\t' => b" tab",
        _ if byte.is_ascii_graphic() => &printed,
        _ => b"",
    };
    let remark = match byte {
        b'(' => b"): HTTP has no comments".as_slice(),
        _ => b")",
    };
    let number = format!(in *text.allocator(); "{byte:X}")?;
    push(text, &[name, b" (", number.as_bytes(), remark])
}

/// Adds the rows of each entry in lines of `Accept`, and pushes the ranges to `ranges`.
fn push_lines(text: &mut Vec<u8>, ranges: &mut Vec<Mime>, lines: &[Vec<u8>]) -> Made<()>
    ensures { OnOk result (Spec.AddsLines (map vec_items lines.now) (vec_items text.old, medias (vec_items ranges.old))
        (vec_items text.new, medias (vec_items ranges.new))) }
{
    for line in lines {
        let mut left = line.as_slice();
        loop {
            let (entry, rest) = first_entry(left);
            push_entry(text, ranges, trimmed(entry))?;
            let Some(rest) = rest else {
                break;
            };
            left = rest;
        }
    }
    Ok(())
}

/// Adds the rows of an entry that isn't empty, and pushes it to `ranges` if it is a range.
fn push_entry(text: &mut Vec<u8>, ranges: &mut Vec<Mime>, entry: &[u8]) -> Made<()>
    ensures { OnOk result (Spec.AddsEntry (vec_items text.old, medias (vec_items ranges.old)) entry.now
        (vec_items text.new, medias (vec_items ranges.new))) }
{
    if entry.is_empty() {
        return Ok(());
    }
    if let Some(range) = read(text, b"bad Accept ", entry)? {
        push_range(text, entry, &range)?;
        ranges.push(range)?;
    }
    Ok(())
}

/// Adds the row of a range that is read of an entry.
fn push_range(text: &mut Vec<u8>, entry: &[u8], range: &Mime) -> Made<()>
    ensures { OnOk result (vec_items text.new ≡ vec_items text.old ++ Spec.range_row entry.now range.now.media) }
{
    let weight = decimals(weight_of(range));
    push(
        text,
        &[b"Accept ", &weight, b" ", range.as_str().as_bytes()],
    )?;
    if has_plain_weight(entry, range) {
        return push(text, &[b"\n"]);
    }
    let remark = b" (q isn't a weight in HTTP, counted as ";
    push(text, &[remark, &weight, b")\n"])
}

/// Returns `true` if an entry has a weight as RFC 9110 allows it (12.4.2), or none. `range` is what is read of the entry.
#[tactic(auto, unfolding(crate::specs::Report::has_plain_weight))]
fn has_plain_weight(entry: &[u8], range: &Mime) -> bool
    ensures { result ≡ Spec.has_plain_weight entry.now range.now.media }
{
    has_valid_weight(range) && !has_quoted_weight(entry)
}

/// Returns a weight in thousandths as a number with three decimals.
fn decimals(weight: u16) -> [u8; 5]
    ensures { result ≡ Spec.weight_text weight }
{
    let digit = |rest: u16| b'0' + (rest % 10) as u8;
    let (tenth, hundredth) = (digit(weight / 100), digit(weight / 10));
    [
        b'0' + (weight / 1000) as u8,
        b'.',
        tenth,
        hundredth,
        digit(weight),
    ]
}

/// Adds the row of a ranked offer, or nothing if `offer` is `None`.
fn push_offer(
    text: &mut Vec<u8>,
    label: &[u8],
    ranges: &[Mime],
    one: &RankedOffer,
    offer: Option<&Mime>,
) -> Made<()>
    ensures { OnOk result (vec_items text.new ≡ vec_items text.old
        ++ Spec.offer_row label.now (medias ranges.now) one.now (option_map (λ offer. offer.now.media) offer.entry)) }
{
    let Some(offer) = offer else {
        return Ok(());
    };
    let (weight, kept) = (decimals(one.weight), offer.as_str().as_bytes());
    push(text, &[label, &weight, b" ", kept, b" by "])?;
    let decider = decider(ranges, one);
    match decider {
        Some((at, range)) => {
            let number = format!(in *text.allocator(); "{}", at as u128 + 1)?;
            push(text, &[number.as_bytes(), b" ", range.as_str().as_bytes()])?;
        }
        None => push(text, &[b"none"])?,
    }
    push_lacked(text, ranges, decider.map(|decider| decider.1), offer)?;
    push(text, &[b"\n"])
}

/// Returns the range that decides the weight of an offer, with its position, or `None` if none does.
fn decider<'r>(ranges: &'r [Mime], one: &RankedOffer) -> Option<(usize, &'r Mime)>
    ensures { option_map (λ item. (item.0, item.1.now.media)) result ≡ Spec.decider (medias ranges.now) one.now }
{
    let at = one.range?;
    Some((at, ranges.get(at)?))
}

/// Adds each range that would decide the weight of an offer if the offer didn't lack a parameter.
fn push_lacked(text: &mut Vec<u8>, ranges: &[Mime], by: Option<&Mime>, offer: &Mime) -> Made<()>
    ensures { OnOk result (vec_items text.new ≡ vec_items text.old
        ++ flat_map (Spec.lacks_text offer.now.media (option_map (λ range. range.now.media) by.entry))
        (enumerate_from 0 (medias ranges.now))) }
{
    for (at, range) in ranges.iter().enumerate() {
        if let Some((name, value)) = lacked(range, by, offer) {
            push(text, &[b" (lacks ", name.text.as_bytes(), b"="])?;
            unescape(value.text, text)?;
            let number = format!(in *text.allocator(); "{}", at as u128 + 1)?;
            let kept = range.as_str().as_bytes();
            push(text, &[b" of ", number.as_bytes(), b" ", kept, b")"])?;
        }
    }
    Ok(())
}

/// Returns the media type at a position, or `None` if there is none.
fn nth(mimes: &[Mime], at: usize) -> Option<&Mime>
    ensures { option_map (λ mime. mime.now.media) result ≡ slice_get (medias mimes.now) at }
{
    mimes.get(at)
}

/// Returns `true` if the best offer of a ranking weighs more than 0, or the ranking is empty.
fn is_acceptable(ranking: &[RankedOffer]) -> bool
    ensures { (offers : List MediaType) → result ≡ (Spec.best_row offers ranking.now).1 }
{
    ranking.first().is_none_or(|best| best.weight > 0)
}

/// Adds the row of the best offer, or of 406 if none is acceptable, or nothing if there are none.
fn push_best(text: &mut Vec<u8>, offers: &[Mime], ranking: &[RankedOffer]) -> Made<()>
    ensures { OnOk result (vec_items text.new ≡ vec_items text.old ++ (Spec.best_row (medias offers.now) ranking.now).0) }
{
    match ranking.first() {
        None => Ok(()),
        Some(first) if first.weight == 0 => push(text, &[b"406 Not Acceptable\n"]),
        Some(first) => {
            let best = nth(offers, first.offer).map(|best| best.as_str().as_bytes());
            push_if(text, b"best ", best)
        }
    }
}
