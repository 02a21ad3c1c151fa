//! Tests of the calls that reading an input and writing a report make, through a device. No clause states these calls.

use crate::{Calls, Device, Failed, ReadError, read_past_limit, write_report};

const BLOCK: &[u8] = &[b'a'; 8192];

const REPORT: &[u8] = b"ok a/b\n";

/// Returns a device that expects these calls. It has failed before, which stops nothing.
fn device(left: &'static [u8]) -> Device<Calls> {
    let mut device = Calls::device(left, BLOCK, REPORT);
    device.failed = true;
    device
}

#[test]
fn makes_these_calls_alone(rt: HostRuntime) {
    // The result of reading: the input's length and the result of writing the report, or an error.
    let cases: [(&[u8], &[u8], Result<(usize, Result<(), Failed>), ReadError>); 5] = [
        (b"rr", b"wf", Ok((8192, Ok(())))),
        (b"x", b"", Err(ReadError::Read)),
        (b"rx", b"", Err(ReadError::Read)),
        (b"rr", b"x", Ok((8192, Err(Failed)))),
        (b"rr", b"wx", Ok((8192, Err(Failed)))),
    ];
    for (reads, writes, answer) in cases {
        let (mut source, mut sink) = (device(reads), device(writes));
        let got = read_past_limit(rt.alloc(), &mut source).map(|input| (
            input.len(),
            write_report(&mut sink, REPORT),
        ));
        let left = (source.inner.left.len(), sink.inner.left.len());
        assert!(rt; got == answer && left == (0, 0), "{got:?}, {left:?} left");
    }
}
