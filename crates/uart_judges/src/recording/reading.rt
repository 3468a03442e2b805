//! A recording that is read as a stream.
ghost use Rattle.std.specs.Prelude.{◌≡◌, ◌==◌, ◌≤◌, [], IfErr, IfOk};
ghost use Rattle.std.specs.List.{position};

use crate::recording::cause::RecordingFault;
use crate::recording::entry::Entry;
use crate::recording::place::Place;
use crate::recording::window::{WINDOW_BYTES, Window};
use std::alloc::{AllocError, Global};
use std::io;
use std::io::{ErrorKind, Read};
use thiserror::Error;

/// Why a recording could not be read any farther.
#[derive(Debug, Drop, Error)]
pub enum RecordingError {
    /// A line is no line of a recording: its number, counted from 1, and what is wrong with it.
    #[error("line {line}: {fault}")]
    Faulty {
        /// The number of the line.
        line: u64,
        /// What is wrong with it.
        fault: RecordingFault,
    },
    /// The reader failed.
    #[error("{0}")]
    Unread(io::Error),
}

/// A recording that is read line by line, in constant memory.
///
/// # Examples
///
/// ```
/// let mut recording = Recording::new(alloc, reader)?;
/// while let Some(entry) = recording.next_entry()? {
///     judge.step(&entry);
/// }
/// ```
#[derive(Drop)]
pub struct Recording<R> {
    reader: R,
    window: Window,
    place: Place,
}

// Returns how long the first line is, if its end is among these bytes.
fn line_length(bytes: &[u8]) -> Option<usize>
    ensures { result ≡ position (λ b. b == 10) bytes.now }
{
    bytes.iter().position(|byte| *byte == b'\n')
}

impl<R: Read + Drop> Recording<R> {
    ghost use Rattle.std.specs.Io.KnownBytes.{Keeps};
    ghost use Rattle.uart_judges.specs.Places.{IsAtLine};
    ghost use Rattle.uart_judges.specs.Streams.{IsFilled, IsNext, ahead};
    ghost use Rattle.uart_judges.specs.Windows.{items};

    /// Returns the recording that this reader gives. Allocates all of its memory.
    ///
    /// # Errors
    ///
    /// `AllocError` if out of memory.
    pub fn new(alloc: Global, reader: R) -> Result<Self, AllocError>
        ensures first { IfOk result (λ recording.
            (recording.place.number ≡ 0) × (recording.place.last ≡ None)) }
        ensures bytes { IfOk result (λ recording. recording.reader ≡ reader) }
        ensures window { IfOk result (λ recording. items recording.window ≡ []) }
    {
        Ok(Recording {
            reader,
            window: Window::new(alloc)?,
            place: Place::new(),
        })
    }

    /// Returns the number of lines that were read.
    pub fn lines(&self) -> u64
        ensures { result ≡ self.now.place.number }
    {
        self.place.number
    }

    // Reads until a whole line is in the window, or as much of it as there is room for, and returns
    // how long that is. `None` if no byte is left.
    fn fill_line(&mut self) -> io::Result<Option<usize>>
        ensures place { self.new.place ≡ self.old.place }
        ensures kept { Keeps (ahead self.old.window (R.remaining self.old.reader))
            (ahead self.new.window (R.remaining self.new.reader)) }
        ensures filled { IfOk result (λ found.
            IsFilled found (items self.new.window) (R.remaining self.new.reader)) }
    {
        'fills: for _ in 0..u64::MAX {
            if let Some(length) = line_length(self.window.as_slice()) {
                return Ok(Some(length));
            }
            self.window.move_to_front();
            if self.window.is_full() {
                return Ok(Some(WINDOW_BYTES));
            }
            match self.window.read_from(&mut self.reader) {
                Ok(0) => {
                    return match self.window.as_slice().len() {
                        0 => Ok(None),
                        length => Ok(Some(length)),
                    };
                }
                Ok(_) => {}
                Err(error) if error.kind() == ErrorKind::Interrupted => {}
                Err(error) => return Err(error),
            }
        }
        Err(io::Error::from(ErrorKind::Interrupted))
    }

    /// Returns the next entry, or `None` at the end. A line that repeats a read is one entry.
    ///
    /// # Errors
    ///
    /// - `Faulty` with the number of the first line that is no line of a recording, and what is
    /// wrong with it.
    /// - `Unread` if the reader failed.
    pub fn next_entry(&mut self) -> Result<Option<Entry>, RecordingError>
        // proved: The lines that are read are those of the reader's bytes, each once and in order,
        //   in whatever pieces these come ([`IsNext`](specs/Streams.antt))
        // on: `Recording::next_entry`
        // proved: A fault has the number of the latest line
        // on: `Recording::next_entry`
        ensures next { IsNext self.old.place (ahead self.old.window (R.remaining self.old.reader))
            result self.new.place (ahead self.new.window (R.remaining self.new.reader)) }
        ensures line { IfErr result (IsAtLine self.new.place.number) }
        ensures onward { self.old.place.number ≤ self.new.place.number }
    {
        'lines: while self.place.number < u64::MAX {
            let Some(length) = self.fill_line().map_err(RecordingError::Unread)? else {
                return Ok(None);
            };
            let found = self.place.read(&self.window.as_slice()[..length]);
            self.window.consume(length + 1);
            match found {
                Ok(Some(entry)) => return Ok(Some(entry)),
                Ok(None) => {}
                Err(fault) => {
                    return Err(RecordingError::Faulty {
                        line: self.place.number,
                        fault,
                    });
                }
            }
        }
        Ok(None)
    }
}
