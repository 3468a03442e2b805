//! The bytes that were read from a reader and are not used yet.
ghost use Rattle.std.specs.Prelude.{◌≡◌, ◌==◌, ◌<◌, ◌≤◌, ◌+◌, [], length, drop, IfOk, OnErr};
ghost use Rattle.uart_judges.specs.declared.recording.window.TheConstants.{WINDOW_BYTES};

use crate::recording::limits::MOST_LINE_BYTES;
use std::alloc::{AllocError, Global};
use std::io;
use std::io::Read;

/// The most bytes that are read ahead: a line of the most bytes, and its end.
pub(crate) const WINDOW_BYTES: usize = MOST_LINE_BYTES + 1;

/// The bytes that were read and are not used yet, which are those from `start` to `end`.
#[derive(Drop)]
pub(crate) struct Window {
    bytes: Vec<u8>,
    start: usize,
    end: usize,
    ghost ordered: { start ≤ end },
    ghost within: { end ≤ WINDOW_BYTES },
    ghost whole: { length bytes.items ≡ WINDOW_BYTES },
}

impl Window {
    ghost use Rattle.std.specs.Io.KnownBytes.{IsAtEnd, Keeps};
    ghost use Rattle.uart_judges.specs.Streams.{ahead};
    ghost use Rattle.uart_judges.specs.Windows.{items, room};

    /// Returns a window without bytes. Allocates all of its memory.
    pub(crate) fn new(alloc: Global) -> Result<Self, AllocError>
        ensures { IfOk result (λ window. items window ≡ []) }
    {
        Ok(Window {
            bytes: vec![in alloc; 0; WINDOW_BYTES]?,
            start: 0,
            end: 0,
        })
    }

    /// Returns the bytes.
    pub(crate) fn as_slice(&self) -> &[u8]
        ensures value { result.now ≡ items self.now }
        ensures fits { length result.now ≤ WINDOW_BYTES }
    {
        &self.bytes[self.start..self.end]
    }

    /// Returns whether there is no room for more bytes, once those that are left are at the front.
    pub(crate) fn is_full(&self) -> bool
        ensures { result ≡ (length (items self.now) == WINDOW_BYTES) }
    {
        self.end - self.start == WINDOW_BYTES
    }

    /// Removes this number of bytes from the front, or all if there are fewer.
    pub(crate) fn consume(&mut self, count: usize)
        ensures { items self.new ≡ drop count (items self.old) }
    {
        self.start += count.min(self.end - self.start);
    }

    /// Moves the bytes to the front, so that there is room behind them.
    pub(crate) fn move_to_front(&mut self)
        ensures items { items self.new ≡ items self.old }
        ensures room { room self.new + length (items self.new) ≡ WINDOW_BYTES }
    {
        let (start, end) = (self.start, self.end);
        self.bytes.copy_within(start..end, 0);
        self.start = 0;
        self.end = end - start;
    }

    /// Reads more bytes behind those that are there. Returns how many: none only if the reader has
    /// none left, or if there is no room.
    ///
    /// # Errors
    ///
    /// The error of the reader. The bytes stay as they are.
    pub(crate) fn read_from<R: Read>(&mut self, reader: &mut R) -> io::Result<usize>
        ensures kept { Keeps (ahead self.old (R.remaining reader.old))
            (ahead self.new (R.remaining reader.new)) }
        ensures items { OnErr result (items self.new ≡ items self.old) }
        ensures end { IfOk result (λ count. count ≡ 0 → 0 < room self.old →
            (items self.new ≡ items self.old) × IsAtEnd (R.remaining reader.new)) }
    {
        let end = self.end;
        let count = reader.read(&mut self.bytes[end..])?;
        self.end = end + count;
        Ok(count)
    }
}
