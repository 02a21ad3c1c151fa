//! The heads of an input, and the lines in no head that have one of the two fields in plain sight.

ghost use Rattle.std.specs.Prelude.{◌≡◌, [], ◌++◌, ◌==◌, ◌&&◌, ◌||◌, ◌<◌, ◌≤◌, ◌∷◌, if◌then◌else◌, ℕ, List, length, map, option_map};
ghost use Rattle.std.specs.Prelude.{is_none, is_some, IfOk, None, OnOk, Option};
ghost use Rattle.std.specs.{List.filter_map, List.position_or_len, Option.option_or, Str.bytes_eq};
ghost use Rattle.mime_headers.specs.Head.{findings_in, findings_of, head_of, is_end, mark_of_fields};
ghost use Rattle.mime_headers.specs.Line.{mark_before};
ghost use Rattle.mime_headers.specs.Start.{is_start};
ghost use Rattle.mime_headers.specs.Head.{needs_sign_after, own_lines, strays_of, title_of};
ghost use Rattle.mime_headers.specs.Line.{text_with};
ghost use Rattle.mime_headers.specs.declared.start.Kind.{Kind};
ghost use Rattle.mime_headers.specs.Inner.{findings_now, head_now, lines_now};

use crate::field::{field_mark, is_field, seen};
use crate::line::{Made, is_sign, text_with, trim_start};
use crate::start::{Kind, kind_of, kind_within, start_mark};
use std::alloc::Global;

/// A head.
#[derive(Drop)]
pub(crate) struct Head<'a> {
    pub(crate) kind: Kind,
    /// The lines without their mark.
    pub(crate) texts: Vec<&'a [u8]>,
}

impl<'a> Head<'a> {
    /// Returns the first line, or an empty slice if there is none.
    pub(crate) fn title(&self) -> &'a [u8]
        ensures { result.now ≡ title_of (head_now self.now).texts }
    {
        self.texts.first().copied().unwrap_or(&[])
    }
}

/// What a report is on.
#[derive(Drop)]
pub(crate) enum Finding<'a> {
    Head(Head<'a>),
    /// A line in no head that has one of the two fields in plain sight.
    Stray(&'a [u8]),
}

/// Returns `true` if a line ends the head with a mark or, without a mark, if it has nothing after its indentation but at most a sign.
#[tactic(auto, unfolding(crate::specs::Line::begins_sign))]
fn is_end(mark: Option<&[u8]>, line: &[u8]) -> bool
    ensures { result ≡ is_end (option_map (λ mark. mark.now) mark.entry) line.now }
{
    let Some(mark) = mark else {
        return matches!(trim_start(line), [] | [b'<' | b'>'] | [b'<' | b'>', b' ']);
    };
    match text_with(mark, line) {
        Some(text) => text.is_empty(),
        None => !is_sign(mark),
    }
}

/// Returns `true` if a line ends a head or a block, or begins a head. `start` is the mark of the head. `needs_sign` says that only a start
/// line with a sign is one.
fn ends_before(needs_sign: bool, start: Option<&[u8]>, line: &[u8]) -> bool
    ensures { result ≡ (is_end (option_map (λ mark. mark.now) start.entry) line.now
        || is_some (mark_before is_start needs_sign line.now)) }
{
    is_end(start, line) || start_mark(line, needs_sign).is_some()
}

/// Returns the number of lines before the end of a head or a block.
fn count_before_end(needs_sign: bool, start: Option<&[u8]>, lines: &[&[u8]]) -> usize
    ensures len { result ≡ position_or_len (λ it. is_end (option_map (λ mark. mark.now) start.entry) it
        || is_some (mark_before is_start needs_sign it)) (map (λ line. line.now) lines.now) }
    ensures within { result ≤ length lines.now }
{
    for (at, line) in lines.iter().enumerate() {
        if ends_before(needs_sign, start, line) {
            return at;
        }
    }
    lines.len()
}

/// Returns the first line and those after it that are of its head, or of its block. `start` is the mark before a start line in it, if it
/// has one.
#[tactic(auto, using(crate::proofs::LineLists::first_lines))]
fn own_lines<'p, 'a>(
    needs_sign: bool,
    start: Option<&[u8]>,
    lines: &'p [&'a [u8]],
) -> &'p [&'a [u8]]
    ensures own { (line : List ℕ) (more : List (List ℕ)) → map (λ it. it.now) lines.now ≡ line ∷ more
        → map (λ it. it.now) result.now ≡ own_lines needs_sign (option_map (λ mark. mark.now) start.entry) line more }
    ensures some { 0 < length lines.now → 0 < length result.now }
    ensures within { length result.now ≤ length lines.now }
{
    let Some((line, rest)) = lines.split_first() else {
        return lines;
    };
    if start.is_none() && is_end(None, line) {
        return &lines[..1];
    }
    &lines[..count_before_end(needs_sign, start, rest) + 1]
}

/// Returns the mark of lines without a start line, or `None` if they have none of the two fields.
#[tactic(auto, unfolding(crate::specs::Head::mark_of_fields))]
fn mark_of_fields<'a>(lines: &[&'a [u8]]) -> Option<&'a [u8]>
    ensures { option_map (λ mark. mark.now) result ≡ mark_of_fields (map (λ line. line.now) lines.now) }
{
    let mut mark = None;
    for line in lines {
        if is_field(line) {
            return Some(&[]);
        }
        if mark.is_none() {
            mark = field_mark(line);
        }
    }
    mark
}

/// Returns the mark of the head that has these lines, or `None` if there is no such head. `start` is the mark before a start line in the
/// first one, if it has one. `alone` says that no start line is before them.
fn mark_of<'a>(alone: bool, start: Option<&'a [u8]>, lines: &[&'a [u8]]) -> Option<&'a [u8]>
    ensures { option_map (λ mark. mark.now) result ≡ option_or (option_map (λ mark. mark.now) start.entry)
        (if alone then mark_of_fields (map (λ line. line.now) lines.now) else None) }
{
    if start.is_none() && alone {
        return mark_of_fields(lines);
    }
    start
}

/// Returns the kind of a head with a mark that has no start line and no line with a status.
fn kind_by_mark(mark: &[u8]) -> Kind
    ensures { result ≡ (if bytes_eq mark.now (60 ∷ []) then Kind.Final else Kind.Fields) }
{
    if mark == b"<".as_slice() {
        Kind::Final
    } else {
        Kind::Fields
    }
}

/// Returns the head with a mark that has these texts. The lines are all among which it lies, also those without its mark.
fn head_of<'a>(mark: &[u8], lines: &[&[u8]], texts: Vec<&'a [u8]>) -> Head<'a>
    ensures { head_now result ≡ head_of mark.now (map (λ line. line.now) lines.now) (lines_now texts.entry) }
{
    let kind = match kind_of(texts.first().copied().unwrap_or(&[])) {
        Some(kind) => kind,
        None => kind_within(lines).unwrap_or(kind_by_mark(mark)),
    };
    Head { kind, texts }
}

/// Returns the texts of the lines with a mark.
fn texts_with<'a>(alloc: Global, mark: &[u8], lines: &[&'a [u8]]) -> Made<Vec<&'a [u8]>>
    ensures { IfOk result (λ texts. lines_now texts ≡ filter_map (text_with mark.now) (map (λ line. line.now) lines.now)) }
{
    let mut texts = Vec::new(alloc);
    for line in lines {
        if let Some(text) = text_with(mark, line) {
            texts.push(text)?;
        }
    }
    Ok(texts)
}

/// Adds the lines without a mark that have one of the two fields in plain sight.
fn push_strays<'a>(
    findings: &mut Vec<Finding<'a>>,
    mark: Option<&[u8]>,
    lines: &[&'a [u8]],
) -> Made<()>
    ensures { OnOk result (findings_now findings.new ≡ findings_now findings.old
        ++ strays_of (option_map (λ mark. mark.now) mark.entry) (map (λ line. line.now) lines.now)) }
{
    for line in lines {
        let is_own = mark.is_some_and(|mark| text_with(mark, line).is_some());
        if !is_own && seen(line).is_some() {
            findings.push(Finding::Stray(line))?;
        }
    }
    Ok(())
}

/// Adds the findings of lines with a mark. `is_open` says that nothing ends a head there.
fn push_findings<'a>(
    findings: &mut Vec<Finding<'a>>,
    is_open: bool,
    mark: Option<&'a [u8]>,
    lines: &[&'a [u8]],
) -> Made<()>
    ensures { OnOk result (findings_now findings.new ≡ findings_now findings.old
        ++ findings_of is_open (option_map (λ mark. mark.now) mark.entry) (map (λ line. line.now) lines.now)) }
{
    if let Some(mark) = mark {
        if is_open {
            return Ok(());
        }
        let texts = texts_with(*findings.allocator(), mark, lines)?;
        findings.push(Finding::Head(head_of(mark, lines, texts)))?;
    }
    push_strays(findings, mark, lines)
}

/// Returns `true` if an input is cut off and all of its lines that are left are of one head or block.
fn is_open(is_cut: bool, count: usize, all: usize) -> bool
    ensures { result ≡ (is_cut && count == all) }
{
    is_cut && count == all
}

/// Returns `true` if no start line has been found. `start` is the mark before the last one, if there is one.
fn is_still_alone(alone: bool, start: Option<&[u8]>) -> bool
    ensures { result ≡ (alone && is_none (option_map (λ mark. mark.now) start.entry)) }
{
    alone && start.is_none()
}

/// Returns `true` if a later start line needs a sign. `start` is the mark before the last one, if there is one.
fn needs_sign_after(needs_sign: bool, start: Option<&[u8]>) -> bool
    ensures { result ≡ needs_sign_after needs_sign (option_map (λ mark. mark.now) start.entry) }
{
    match start {
        Some(mark) => needs_sign || is_sign(mark),
        None => needs_sign,
    }
}

/// Returns the findings of an input's lines. In an input that is cut off, a head counts only if one of the lines ends it.
pub(crate) fn findings_in<'a>(
    alloc: Global,
    lines: &[&'a [u8]],
    is_cut: bool,
) -> Made<Vec<Finding<'a>>>
    ensures { IfOk result (λ findings. findings_now findings ≡ findings_in is_cut (map (λ line. line.now) lines.now)) }
{
    let mut findings = Vec::new(alloc);
    let mut at = 0;
    // Whether no start line has been found, and whether a start line needs a sign.
    let mut alone = true;
    let mut needs_sign = false;
    while let Some((line, _)) = lines[at..].split_first() {
        let start = start_mark(line, needs_sign);
        needs_sign = needs_sign_after(needs_sign, start);
        let own = own_lines(needs_sign, start, &lines[at..]);
        let is_open = is_open(is_cut, own.len(), lines[at..].len());
        push_findings(&mut findings, is_open, mark_of(alone, start, own), own)?;
        alone = is_still_alone(alone, start);
        at += own.len();
    }
    Ok(findings)
}
