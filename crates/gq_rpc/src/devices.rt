//! Where bytes come from and where they go.
ghost use Rattle.std.specs.Prelude.{◌≡◌, ◌≢◌, ℕ, List, Bool, ◌<◌, Option, IfErr, IsTrue, ◌↔◌, is_none, is_ok, length, ◌||◌, not, false, OnOk, OnErr, ⊤};
ghost use Rattle.std.specs.Io.{ReadsAtMost, WritesAtMost};
ghost use Rattle.std.specs.Io.KnownBytes.{Appends, ReadConsumes, WriteAppends};
ghost use Rattle.std.specs.IoError.{error_kind};
ghost use Rattle.gq_rpc.specs.Devices.{Took, Put, Sent, LastAnswer, is_end, is_failure, reading_of, count_of};
ghost use Rattle.std.specs.Result.{result_ok};

use crate::header::skip;
use std::io;
use std::io::{ErrorKind, Read, Write};
use thiserror::Error;

/// What one read gave.
#[derive(Clone, Copy, Debug, PartialEq, Eq)]
pub enum Reading {
    /// This many bytes, at least one, at the front of the buffer.
    Bytes(usize),
    /// No byte, and none will come.
    End,
    Failed,
}

/// Where bytes come from.
pub trait Source {
    /// The bytes that reads give from here on, where they are known.
    ghost left: { Self → Option (List ℕ) };

    /// A read has failed.
    ghost failed: { Self → Bool };

    /// A read has told the end.
    ghost ended: { Self → Bool };

    /// Reads some bytes into a buffer that is not empty.
    fn read(&mut self, buffer: &mut [u8]) -> Reading
        requires { 0 < length buffer.old }
        ensures took { Took (left self.old) (left self.new) result buffer.new }
        ensures failed_is { failed self.new ≡ (is_failure result || failed self.old) }
        ensures ended_is { ended self.new ≡ (is_end result || ended self.old) };
}

/// Where bytes go.
pub trait Sink {
    /// The bytes that were written, where they are known.
    ghost held: { Self → Option (List ℕ) };

    /// A write has failed.
    ghost failed: { Self → Bool };

    /// Writes some bytes from the front, and answers how many, at least one, or `None` where it fails.
    fn write(&mut self, bytes: &[u8]) -> Option<usize>
        requires { 0 < length bytes.now }
        ensures put { Put (held self.old) (held self.new) result bytes.now }
        ensures failed_is { failed self.new ≡ (is_none result || failed self.old) };
}

/// A reader of std, of whose answers contracts can speak.
pub trait Reader {
    /// The bytes that reads give from here on, where they are known.
    ghost left: { Self → Option (List ℕ) };

    /// A call may answer so many bytes, or an error, and leave the reader like that. That a call did, only the call shows.
    ghost gives: { Self → Option ℕ → Self → Type 0 };

    fn read_some(&mut self, buffer: &mut [u8]) -> io::Result<usize>
        ensures bound { ReadsAtMost result buffer.new }
        ensures bytes { ReadConsumes (left self.old) (left self.new) result buffer.new }
        ensures gave { gives self.old (result_ok result) self.new };
}

impl<R: Read> Reader for R {
    ghost left = { R.remaining };

    ghost gives = { λ _ _ _. ⊤ };

    fn read_some(&mut self, buffer: &mut [u8]) -> io::Result<usize> {
        self.read(buffer)
    }
}

/// A writer of std, of whose answers contracts can speak.
pub trait Writer {
    /// The bytes that were written, where they are known.
    ghost held: { Self → Option (List ℕ) };

    /// A call may answer so many bytes, or an error, and leave the writer like that. That a call did, only the call shows.
    ghost gives: { Self → Option ℕ → Self → Type 0 };

    fn write_some(&mut self, bytes: &[u8]) -> io::Result<usize>
        ensures bound { WritesAtMost result bytes.now }
        ensures bytes { WriteAppends (held self.old) (held self.new) result bytes.now }
        ensures gave { gives self.old (result_ok result) self.new };
}

impl<W: Write> Writer for W {
    ghost held = { W.contents };

    ghost gives = { λ _ _ _. ⊤ };

    fn write_some(&mut self, bytes: &[u8]) -> io::Result<usize> {
        self.write(bytes)
    }
}

/// A reader or a writer of std that tells whether it has failed, and a reader whether it has ended.
#[derive(Drop)]
pub struct Flagged<T: Drop> {
    pub inner: T,
    pub failed: bool,
    pub ended: bool,
}

impl<T: Drop> Flagged<T> {
    pub fn new(inner: T) -> Flagged<T>
        ensures inner { result.inner ≡ inner }
        ensures failed { result.failed ≡ false }
        ensures ended { result.ended ≡ false }
    {
        Flagged {
            inner,
            failed: false,
            ended: false,
        }
    }
}

/// Whether a call did nothing because a signal came.
fn is_interrupted(error: &io::Error) -> bool
    ensures { IsTrue result ↔ (error_kind error.now ≡ ErrorKind.Interrupted) }
{
    error.kind() == ErrorKind::Interrupted
}

/// One read, done again where it was interrupted.
fn read_retrying<R: Reader>(reader: &mut R, buffer: &mut [u8]) -> io::Result<usize>
    ensures bound { ReadsAtMost result buffer.new }
    ensures bytes { ReadConsumes (R.left reader.old) (R.left reader.new) result buffer.new }
    ensures last { LastAnswer R.gives reader.new reading_of (reading_of (result_ok result)) }
    ensures retried { IfErr result (λ e. error_kind e ≢ ErrorKind.Interrupted) }
{
    for _ in 0..u64::MAX {
        match reader.read_some(buffer) {
            Err(error) if is_interrupted(&error) => {}
            answer => return answer,
        }
    }
    Err(io::Error::from(ErrorKind::Other))
}

/// One write, done again where it was interrupted.
fn write_retrying<W: Writer>(writer: &mut W, bytes: &[u8]) -> io::Result<usize>
    ensures bound { WritesAtMost result bytes.now }
    ensures bytes { WriteAppends (W.held writer.old) (W.held writer.new) result bytes.now }
    ensures last { LastAnswer W.gives writer.new count_of (count_of (result_ok result)) }
    ensures retried { IfErr result (λ e. error_kind e ≢ ErrorKind.Interrupted) }
{
    for _ in 0..u64::MAX {
        match writer.write_some(bytes) {
            Err(error) if is_interrupted(&error) => {}
            answer => return answer,
        }
    }
    Err(io::Error::from(ErrorKind::Other))
}

impl<R: Reader + Drop> Source for Flagged<R> {
    ghost left = { λ f. R.left f.inner };

    ghost failed = { λ f. f.failed };

    ghost ended = { λ f. f.ended };

    fn read(&mut self, buffer: &mut [u8]) -> Reading
        requires { 0 < length buffer.old }
        ensures took { Took (R.left self.old.inner) (R.left self.new.inner) result buffer.new }
        ensures failed_is { self.new.failed ≡ (is_failure result || self.old.failed) }
        ensures ended_is { self.new.ended ≡ (is_end result || self.old.ended) }
        ensures answers { LastAnswer R.gives self.new.inner reading_of result }
    {
        match read_retrying(&mut self.inner, buffer) {
            Ok(0) => {
                self.ended = true;
                Reading::End
            }
            Ok(count) => Reading::Bytes(count),
            Err(_) => {
                self.failed = true;
                Reading::Failed
            }
        }
    }
}

impl<W: Writer + Drop> Sink for Flagged<W> {
    ghost held = { λ f. W.held f.inner };

    ghost failed = { λ f. f.failed };

    fn write(&mut self, bytes: &[u8]) -> Option<usize>
        requires { 0 < length bytes.now }
        ensures put { Put (W.held self.old.inner) (W.held self.new.inner) result bytes.now }
        ensures failed_is { self.new.failed ≡ (is_none result || self.old.failed) }
        ensures answers { LastAnswer W.gives self.new.inner count_of result }
    {
        let count = write_retrying(&mut self.inner, bytes).unwrap_or(0);
        if count == 0 {
            self.failed = true;
            return None;
        }
        Some(count)
    }
}

/// The sink failed. It is printed as `Device`.
#[derive(Clone, Copy, Debug, PartialEq, Eq, Error)]
#[error("Device")]
pub struct SinkFailed;

/// Writes all of the bytes, in as many calls as it takes.
pub fn send<K: Sink>(sink: &mut K, bytes: &[u8]) -> Result<(), SinkFailed>
    requires { K.failed sink.old ≡ false }
    ensures ok { OnOk result (Appends (K.held sink.old) (K.held sink.new) bytes.now) }
    ensures err { OnErr result (Sent (K.held sink.old) (K.held sink.new) bytes.now) }
    ensures flag { is_ok result ≡ not (K.failed sink.new) }
{
    let mut rest = bytes;
    'writes: while !rest.is_empty() {
        match sink.write(rest) {
            Some(count) => rest = skip(rest, count),
            None => return Err(SinkFailed),
        }
    }
    Ok(())
}
