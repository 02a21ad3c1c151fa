//! Tests of the calls that a run makes, and that it succeeds if memory suffices. No clause states these. vectors/ and tools/program test
//! the reports.

use crate::{Device, Mode, RunError, run};
use mime_io::Calls;

const LINE: &[u8] = b"a/b";

const REPORT: &[u8] = b"ok a/b\ntype a\nsubtype b\n";

#[test]
fn makes_these_calls_alone(rt: HostRuntime) {
    let cases: [(&[u8], &[u8], Result<(), RunError>); 5] = [
        (b"rr", b"wf", Ok(())),
        (b"x", b"", Err(RunError::Read)),
        (b"rx", b"", Err(RunError::Read)),
        (b"rr", b"x", Err(RunError::Write)),
        (b"rr", b"wx", Err(RunError::Write)),
    ];
    for (at, (reads, writes, answer)) in cases.iter().enumerate() {
        let mut source = Calls::device(reads, LINE, REPORT);
        let mut sink = Calls::device(writes, LINE, REPORT);
        let got = run(rt.alloc(), &mut source, &mut sink, Mode::Parts);
        assert!(rt; got == *answer, "case {at}: {got:?}");
        let are_made = source.inner.left.is_empty() && sink.inner.left.is_empty();
        assert!(rt; are_made, "case {at}: other calls");
    }
}

#[test]
fn a_report_may_be_longer_than_the_limit(rt: HostRuntime) {
    let line_feeds = [b'\n'; 14_000];
    let mut sink = Calls::device(b"of", LINE, REPORT);
    let got = run(
        rt.alloc(),
        &mut Device::of(line_feeds.as_slice()),
        &mut sink,
        Mode::Parts,
    );
    assert!(rt; got == Ok(()) && sink.inner.left.is_empty(), "{got:?}");
}

/// Runs with a slice of bytes as the sink, which doesn't allocate, between the lines `now` and `end`. tools/refused_requests refuses, in
/// turn, each request for memory between them. Returns `true` if the run writes all of the report, or runs out of memory and writes
/// nothing.
fn fills_slice(rt: &HostRuntime, mode: Mode, input: &[u8], report: &[u8]) -> bool {
    let mut room = [0u8; 256];
    let mut sink = Device::of(room.as_mut_slice());
    let _ = println!(rt; "now");
    let answer = run(rt.alloc(), &mut Device::of(input), &mut sink, mode);
    let _ = println!(rt; "end");
    let count = 256usize.saturating_sub(sink.inner.len());
    let _ = println!(rt; "{answer:?}, {count} of {} bytes", report.len());
    match answer {
        Ok(()) => room.get(..count) == Some(report),
        Err(error) => error == RunError::NoMemory && count == 0,
    }
}

#[test]
fn writes_into_a_slice_all_or_nothing(rt: HostRuntime) {
    let cases: [(Mode, &[u8], &[u8]); 4] = [
        (Mode::Parts, LINE, REPORT),
        (
            Mode::Parts,
            b"TEXT/HTML+XML; Charset=\"UTF-8\" ;q=1\n\xff\ntext/",
            b"ok text/html+xml; charset=\"utf-8\" ;q=1\ntype text\nsubtype html\nsuffix xml\nparam charset=utf-8\n\
              param q=1\nnot text\nbad mime parse error: a subtype was missing behind the slash (/)\n",
        ),
        (
            Mode::List,
            b"application/json, invalid, text/html\ninvalid\n\xff",
            b"ok application/json\nbad invalid\nok text/html\nnot text\n",
        ),
        (Mode::List, b"", b""),
    ];
    for (mode, input, report) in cases {
        assert!(rt; fills_slice(&rt, mode, input, report));
    }
}
