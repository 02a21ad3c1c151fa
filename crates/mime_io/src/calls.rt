//! Calls that the tests of a program expect.

use crate::device::Device;
use std::io;
use std::io::{Read, Write};

/// A reader or a writer that expects the calls in `left`, a letter each. After any other call it expects `?`, which is no call.
///
/// - `r`: a read that returns `input` or, as the last call, the end
/// - `w`: a write of the whole `report`
/// - `o`: another write
/// - `f`: a flush
/// - `x`: a call of any kind that fails
#[derive(Drop)]
pub struct Calls {
    /// The calls that are still expected.
    pub left: &'static [u8],
    input: &'static [u8],
    report: &'static [u8],
}

impl Calls {
    /// Returns a device that expects these calls.
    pub fn device(
        left: &'static [u8],
        input: &'static [u8],
        report: &'static [u8],
    ) -> Device<Calls> {
        Device::of(Calls {
            left,
            input,
            report,
        })
    }

    /// Removes the next expected call if it is `call` or `x`. Succeeds only if it is `call`.
    fn take(&mut self, call: u8) -> io::Result<()> {
        let (next, left) = self.left.split_first().unwrap_or((&b'?', b""));
        self.left = if *next == call || *next == b'x' {
            left
        } else {
            b"?"
        };
        if *next == call {
            return Ok(());
        }
        Err(io::Error::from(io::ErrorKind::StorageFull))
    }
}

impl Read for Calls {
    fn read(&mut self, buf: &mut [u8]) -> io::Result<usize> {
        if self.take(b'r').is_err() {
            // This is a failure like any other.
            return Err(io::Error::from(io::ErrorKind::Interrupted));
        }
        let mut bytes = if self.left.is_empty() {
            b""
        } else {
            self.input
        };
        bytes.read(buf)
    }
}

impl Write for Calls {
    fn write(&mut self, buf: &[u8]) -> io::Result<usize> {
        let call = if buf == self.report { b'w' } else { b'o' };
        self.take(call).map(|()| buf.len())
    }

    fn flush(&mut self) -> io::Result<()> {
        self.take(b'f')
    }
}
