//! Sources from which a program reads, sinks to which it writes, and devices, which are sources or sinks.

ghost use Rattle.std.specs.Prelude.{◌≡◌, List, ℕ, Bool, false, true, Option, Ok, IsErr, MatchResult, OnOk, OnErr, ⊤};
ghost use Rattle.std.specs.Io.{ReadsAtMost};
ghost use Rattle.std.specs.Io.KnownBytes.{ReadConsumes, Appends, Keeps};

use std::io;
use std::io::{Read, Write};

/// The failure of a read, a write or a flush, such as a write to a full disk. The cause isn't reported.
#[derive(Clone, Copy, PartialEq, Eq, Debug)]
pub struct Failed;

/// Something to read from, such as a [`Device`] over standard input.
pub trait Source {
    /// The bytes that are left to read, or `None` if the source doesn't say.
    ghost left: { Self → Option (List ℕ) };
    /// Whether a call has failed.
    ghost has_failed: { Self → Bool };

    /// Reads bytes into the start of a buffer, and returns the number of bytes read. The result 3 means that the
    /// buffer's first 3 bytes are new. The result 0 means the end of the source, unless the buffer is empty.
    fn read(&mut self, buf: &mut [u8]) -> Result<usize, Failed>
        ensures bound { ReadsAtMost result buf.new }
        ensures bytes { ReadConsumes (left self.old) (left self.new) result buf.new }
        // A failure sets this flag, and nothing else changes it.
        ensures failed { OnErr result (has_failed self.new ≡ true) }
        ensures unfailed { OnOk result (has_failed self.new ≡ has_failed self.old) };
}

/// Something to write to, such as a [`Device`] over standard output.
pub trait Sink {
    /// The bytes that the sink holds, or `None` if the sink doesn't say.
    ghost held: { Self → Option (List ℕ) };
    /// Whether a call has failed.
    ghost has_failed: { Self → Bool };
    /// Whether everything that was written is flushed. By default, this is always true.
    ghost IsFlushed: { Self → Type 0 } = { λ _. ⊤ };

    /// Writes all of the bytes. After a failure, the number of bytes written is unspecified.
    fn write_all(&mut self, bytes: &[u8]) -> Result<(), Failed>
        ensures bytes { OnOk result (Appends (held self.old) (held self.new) bytes.now) }
        // A failure sets this flag, and nothing else changes it.
        ensures failed { OnErr result (has_failed self.new ≡ true) }
        ensures unfailed { OnOk result (has_failed self.new ≡ has_failed self.old) };

    /// Flushes the sink: bytes that are still buffered reach their destination.
    fn flush(&mut self) -> Result<(), Failed>
        ensures bytes { Keeps (held self.old) (held self.new) }
        // No other clause says that everything is flushed.
        ensures flushed { OnOk result (IsFlushed self.new) }
        // A failure sets this flag, and nothing else changes it.
        ensures failed { OnErr result (has_failed self.new ≡ true) }
        ensures unfailed { OnOk result (has_failed self.new ≡ has_failed self.old) };
}

/// An adapter that makes a reader a source, and a writer a sink. Each method calls the method of `inner` with the same
/// name. For example, `Device::of(rt.stdin())` reads standard input.
#[derive(Drop)]
pub struct Device<T> {
    /// The reader or writer.
    pub inner: T,
    /// Whether a call has failed. An error sets this flag, and no call clears it.
    pub failed: bool,
}

impl<T> Device<T> {
    /// Returns a device over a reader or a writer, of which no call has failed.
    pub fn of(inner: T) -> Device<T>
        ensures inner { result.inner ≡ inner }
        ensures failed { result.failed ≡ false }
    {
        Device {
            inner,
            failed: false,
        }
    }

    /// Returns `answer`, the result of a call of `inner`, without an error's cause. An error sets the flag `failed`.
    fn flagged<V>(&mut self, answer: io::Result<V>) -> Result<V, Failed>
        ensures inner { self.new.inner ≡ self.old.inner }
        ensures answer { MatchResult answer (λ value. result ≡ Ok value) (λ _. IsErr result) }
        ensures failed { OnErr answer (self.new.failed ≡ true) }
        ensures unfailed { OnOk answer (self.new.failed ≡ self.old.failed) }
    {
        match answer {
            Ok(value) => Ok(value),
            Err(_) => {
                self.failed = true;
                Err(Failed)
            }
        }
    }
}

impl<T: Read> Source for Device<T> {
    ghost left = { λ device. T.remaining device.inner };

    ghost has_failed = { λ device. device.failed };

    fn read(&mut self, buf: &mut [u8]) -> Result<usize, Failed> {
        let answer = self.inner.read(buf);
        self.flagged(answer)
    }
}

impl<T: Write> Sink for Device<T> {
    ghost held = { λ device. T.contents device.inner };

    ghost has_failed = { λ device. device.failed };

    fn write_all(&mut self, bytes: &[u8]) -> Result<(), Failed> {
        let answer = self.inner.write_all(bytes);
        self.flagged(answer)
    }

    fn flush(&mut self) -> Result<(), Failed> {
        let answer = self.inner.flush();
        self.flagged(answer)
    }
}
