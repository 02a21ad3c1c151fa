//! Tests of the calls that a run makes, which no clause states. The reports on heads are tested by vectors/ and tools/program.

use crate::{HeadError, Verdict, run};
use mime_io::{Calls, RunError};
use std::process::Abort;

const HEAD: &[u8] = b"Accept: a/b\n\n";

const REPORT: &[u8] = b"Accept 1.000 a/b\n";

#[test]
fn makes_these_calls_alone(rt: HostRuntime) {
    let cases: [(&[u8], &[u8], Result<Verdict, HeadError>); 5] = [
        (b"rr", b"wf", Ok(Verdict::Acceptable)),
        (b"x", b"", Err(HeadError::Run(RunError::Read))),
        (b"rx", b"", Err(HeadError::Run(RunError::Read))),
        (b"rr", b"x", Err(HeadError::Run(RunError::Write))),
        (b"rr", b"wx", Err(HeadError::Run(RunError::Write))),
    ];
    for (at, (reads, writes, answer)) in cases.iter().enumerate() {
        let mut source = Calls::device(reads, HEAD, REPORT);
        let mut sink = Calls::device(writes, HEAD, REPORT);
        let got = run(rt.alloc(), &mut source, &mut sink, &[]);
        assert!(rt; got == *answer, "case {at}: {got:?}");
        let are_made = source.inner.left.is_empty() && sink.inner.left.is_empty();
        assert!(rt; are_made, "case {at}: other calls");
    }
}
