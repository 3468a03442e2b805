//! Where a script is read from, and where its output is written to.
//!
//! It is in this crate so that little is left to prove in `uart_play`, the last of the longest
//! chain of crates.

ghost use Rattle.std.specs.Prelude.{◌≡◌, ◌≤◌, ◌||◌, Option, List, ℕ};
ghost use Rattle.std.specs.Prelude.{Bool, false, length, IfOk, IfErr, OnOk, is_err};
ghost use Rattle.std.specs.Io.KnownBytes.{Appends, ReadConsumes, WriteAppends};
ghost use Rattle.uart_language.specs.Streams.{takes_none, is_read_fault, IsReading};
ghost use Rattle.uart_language.specs.Streams.{ConsumesAtMost, IsReadText, WritesFront};

use crate::limits::MOST_READ;
use crate::play_error::PlayError;
use std::alloc::Global;
use std::io::{Read, Write};
use thiserror::Error;

/// The size of the buffer of a read.
const CHUNK: usize = 512;

/// The error of a read or a write.
#[derive(Clone, Copy, Debug, PartialEq, Eq, Error)]
#[error("a read or a write failed")]
pub struct StreamFault;

// These traits are not those of std: beside the bytes, contracts see whether a call has failed.

/// A reader whose contracts state its bytes, if they are known, and whether it has failed.
pub trait Input {
    // The bytes that reads will return from here on, if they are known.
    ghost remaining: { Self → Option (List ℕ) };

    // Whether a read has failed.
    ghost has_failed: { Self → Bool };

    /// Fills the front of the buffer, and returns how many bytes that are.
    ///
    /// `Ok(0)` for a buffer that is not empty is the end of the input.
    fn read(&mut self, buf: &mut [u8]) -> Result<usize, StreamFault>
        ensures bound { IfOk result (λ n. n ≤ length buf.new) }
        ensures bytes { ReadConsumes (remaining self.old) (remaining self.new) result buf.new }
        ensures fault { has_failed self.new ≡ (has_failed self.old || is_err result) };
}

/// A writer whose contracts state its bytes, if they are known, and whether it has failed.
pub trait Output {
    // The bytes that were written, if they are known.
    ghost contents: { Self → Option (List ℕ) };

    // Whether a write has failed: returned an error, or accepted no byte of some.
    ghost has_failed: { Self → Bool };

    /// Writes bytes from the front, and returns how many. If it fails, nothing is written.
    fn write(&mut self, bytes: &[u8]) -> Result<usize, StreamFault>
        // proved: What a reader or a writer of std gives, takes and reports is passed on, and that
        //   it failed is kept
        // on: `Input` and `Output` of `Std`
        ensures bound { IfOk result (λ n. n ≤ length bytes.now) }
        ensures bytes { WriteAppends (contents self.old) (contents self.new) result bytes.now }
        ensures fault { has_failed self.new ≡
            (has_failed self.old || takes_none result bytes.now) };
}

/// A reader or a writer of std.
#[derive(Drop)]
pub struct Std<T> {
    inner: T,
    failed: bool,
}

impl<T> Std<T> {
    ghost use Rattle.uart_language.specs.Streams.{std_inner, std_has_failed};

    /// Returns the reader or writer, which has not failed.
    pub fn new(inner: T) -> Self
        ensures inner { std_inner result ≡ inner }
        ensures works { std_has_failed result ≡ false }
    {
        Std {
            inner,
            failed: false,
        }
    }
}

impl<T: Read> Input for Std<T> {
    ghost use Rattle.uart_language.specs.Streams.{std_inner, std_has_failed};

    ghost remaining = { λ s. T.remaining (std_inner s) };

    ghost has_failed = { λ s. std_has_failed s };

    fn read(&mut self, buf: &mut [u8]) -> Result<usize, StreamFault> {
        match self.inner.read(buf) {
            Ok(count) => Ok(count),
            Err(_) => {
                self.failed = true;
                Err(StreamFault)
            }
        }
    }
}

impl<T: Write> Output for Std<T> {
    ghost use Rattle.uart_language.specs.Streams.{std_inner, std_has_failed};

    ghost contents = { λ s. T.contents (std_inner s) };

    ghost has_failed = { λ s. std_has_failed s };

    fn write(&mut self, bytes: &[u8]) -> Result<usize, StreamFault> {
        match self.inner.write(bytes) {
            Ok(count) => {
                if count == 0 && !bytes.is_empty() {
                    self.failed = true;
                }
                Ok(count)
            }
            Err(_) => {
                self.failed = true;
                Err(StreamFault)
            }
        }
    }
}

/// Reads to the end of the input, or [`MOST_READ`] bytes.
///
/// # Errors
///
/// - `ReadFault` if the reader failed.
/// - `OutOfMemory` if memory for the text could not be allocated.
pub fn read_all<R: Input>(alloc: Global, reader: &mut R) -> Result<Vec<u8>, PlayError>
    // proved: What is read is the reader's bytes up to their end, or the first 65,537 of them. A
    //   read fault comes exactly if the reader failed
    ensures whole { IfOk result (λ text.
        IsReadText (R.remaining reader.old) (R.remaining reader.new) text.items) }
    ensures most { ConsumesAtMost MOST_READ (R.remaining reader.old) (R.remaining reader.new) }
    ensures fault { R.has_failed reader.new ≡ (R.has_failed reader.old || is_read_fault result) }
    ensures kind { IfErr result IsReading }
{
    let mut text = Vec::new(alloc);
    let mut chunk = [0u8; CHUNK];
    while text.len() < MOST_READ {
        let room = (MOST_READ - text.len()).min(CHUNK);
        match reader.read(&mut chunk[..room]) {
            Err(_) => return Err(PlayError::ReadFault),
            Ok(0) => return Ok(text),
            Ok(count) => {
                if text.extend_from_slice(&chunk[..count]).is_err() {
                    return Err(PlayError::OutOfMemory);
                }
            }
        }
    }
    Ok(text)
}

/// Writes all of the bytes.
///
/// # Errors
///
/// [`StreamFault`] if the writer failed, or accepted no byte; a beginning of the bytes may be
/// written.
pub fn write_all<W: Output>(writer: &mut W, bytes: &[u8]) -> Result<(), StreamFault>
    // proved: All of the bytes are written, or the writer failed, and then a beginning of them
    ensures all { OnOk result (Appends (W.contents writer.old) (W.contents writer.new) bytes.now) }
    ensures front { WritesFront (W.contents writer.old) (W.contents writer.new) bytes.now }
    ensures fault { W.has_failed writer.new ≡ (W.has_failed writer.old || is_err result) }
{
    let mut done = 0;
    while done < bytes.len() {
        match writer.write(&bytes[done..]) {
            Err(_) => return Err(StreamFault),
            Ok(0) => return Err(StreamFault),
            Ok(count) => done += count,
        }
    }
    Ok(())
}
