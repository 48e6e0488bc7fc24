//! Readers and writers whose calls and failures are counted.
ghost use Rattle.std.specs.Prelude.{◌≡◌, ◌+◌, ◌<◌, is_err, if◌then◌else◌, OnOk, OnErr, true};
ghost use Rattle.std.specs.Io.{ReadsAtMost, WritesAtMost};
ghost use Rattle.std.specs.Io.KnownBytes.{ReadConsumes, WriteAppends, Keeps};
ghost use Rattle.text_io.specs.Counted.{greatest, one_more, writes_none};
ghost use Rattle.text_io.specs.Counted.{counted_inner, calls_of, failures_of};

use std::io;
use std::io::{ErrorKind, Read, Write};

/// Passes calls on to a reader or a writer, and counts them and those that fail. Both counts stay
/// at
/// `u64::MAX`, and a call past so many fails by itself, so no reader is endless.
#[derive(Drop)]
pub struct Counted<T> {
    inner: T,
    calls: u64,
    failures: u64,
}

impl<T> Counted<T> {
    /// Nothing is called yet.
    pub fn new(inner: T) -> Counted<T>
        ensures inner { counted_inner result ≡ inner }
        ensures calls { calls_of result ≡ 0 }
        ensures failures { failures_of result ≡ 0 }
    {
        Counted {
            inner,
            calls: 0,
            failures: 0,
        }
    }

    /// How many calls answered `Err`, or took nothing of a slice that was not empty.
    pub fn failures(&self) -> u64
        ensures { result ≡ failures_of self.now }
    {
        self.failures
    }

    /// The reader or the writer inside.
    pub fn inner(&self) -> &T
        ensures { result.now ≡ counted_inner self.now }
    {
        &self.inner
    }

    /// Counts a call, and fails where no more can be counted.
    fn count_call(&mut self) -> io::Result<()>
        ensures inner { counted_inner self.new ≡ counted_inner self.old }
        ensures calls { calls_of self.new ≡ one_more (calls_of self.old) }
        ensures failures { failures_of self.new
            ≡ (if is_err result then one_more (failures_of self.old) else failures_of self.old) }
        ensures past { OnOk result (calls_of self.old < greatest) }
        ensures refused { OnErr result (calls_of self.old ≡ greatest) }
    {
        if self.calls == u64::MAX {
            self.count_failure();
            return Err(io::Error::from(ErrorKind::Other));
        }
        self.calls += 1;
        Ok(())
    }

    fn count_failure(&mut self)
        ensures { self.new ≡ record self.old { failures = one_more (failures_of self.old) } }
    {
        self.failures = self.failures.saturating_add(1);
    }
}

impl<R: Read> Read for Counted<R> {
    ghost remaining = { λ c. R.remaining c.inner };

    fn read(&mut self, buf: &mut [u8]) -> io::Result<usize>
        ensures bound { ReadsAtMost result buf.new }
        ensures bytes { ReadConsumes (R.remaining (counted_inner self.old))
            (R.remaining (counted_inner self.new)) result buf.new }
        ensures calls { calls_of self.new ≡ one_more (calls_of self.old) }
        ensures failures { failures_of self.new
            ≡ (if is_err result then one_more (failures_of self.old) else failures_of self.old) }
        ensures past { OnOk result (calls_of self.old < greatest) }
    {
        self.count_call()?;
        let outcome = self.inner.read(buf);
        if outcome.is_err() {
            self.count_failure();
        }
        outcome
    }
}

impl<W: Write> Write for Counted<W> {
    ghost contents = { λ c. W.contents c.inner };

    fn write(&mut self, buf: &[u8]) -> io::Result<usize>
        ensures bound { WritesAtMost result buf.now }
        ensures bytes { WriteAppends (W.contents (counted_inner self.old))
            (W.contents (counted_inner self.new)) result buf.now }
        ensures calls { calls_of self.new ≡ one_more (calls_of self.old) }
        ensures failures { failures_of self.new
            ≡ (if writes_none result buf.now then one_more (failures_of self.old) else
            failures_of self.old) }
        ensures past { OnOk result (calls_of self.old < greatest) }
    {
        self.count_call()?;
        let outcome = self.inner.write(buf);
        let failed = match &outcome {
            Ok(n) => *n == 0 && !buf.is_empty(),
            Err(_) => true,
        };
        if failed {
            self.count_failure();
        }
        outcome
    }

    fn flush(&mut self) -> io::Result<()>
        ensures bytes { Keeps (W.contents (counted_inner self.old))
            (W.contents (counted_inner self.new)) }
        ensures calls { calls_of self.new ≡ one_more (calls_of self.old) }
        ensures failures { failures_of self.new
            ≡ (if is_err result then one_more (failures_of self.old) else failures_of self.old) }
        ensures past { OnOk result (calls_of self.old < greatest) }
    {
        self.count_call()?;
        let outcome = self.inner.flush();
        if outcome.is_err() {
            self.count_failure();
        }
        outcome
    }
}
