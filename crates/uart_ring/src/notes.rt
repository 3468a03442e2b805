//! Which errors each received byte came with: a backend that notes them beside the rings.
ghost use Rattle.std.specs.Prelude.{◌≡◌, IfOk, IsOkUnless};
ghost use Rattle.std.specs.Borrow.{Lends, sem};
ghost use Rattle.uart_ring.specs.contracts.notes.ErrorNotes.{the_row};
ghost use Rattle.uart_ring.specs.Notes.{AreNew, NotesErrors, notes_of, with_read, with_write};
ghost use Rattle.uart_ring.specs.Ring.{IsCapacity};

use crate::queue::ByteQueue;
use crate::refused::Refused;
use crate::ring::{RingError, is_capacity};
use bitflags::Flags;
use std::alloc::Global;
use thiserror::Error;
use uart_16550::backend::Backend;
use uart_spec::registers::{FCR, LCR, LSR, offsets};

/// Why no bytes were taken with their errors: more bytes are in the receive ring than errors are
/// noted.
///
/// That is so if the notes have room for fewer bytes than the receive ring, or were made later.
#[derive(Clone, Copy, Debug, PartialEq, Eq, Error)]
#[error("the first {bytes} bytes of the receive ring have no note of their errors")]
pub struct UnnotedError {
    /// So many bytes at the front of the receive ring have no note. `take` takes them.
    pub bytes: usize,
}

/// A backend that notes the errors of each received byte, for
/// [`Uart16550Ring::take_with_errors`](crate::Uart16550Ring::take_with_errors).
///
/// It makes each access that it is asked for over the backend under it, and no other. Rings without
/// it cost what they cost before; with it they take one byte of memory more for each byte of the
/// receive ring.
///
/// LSR shows the errors of the character that is the next to be read, once, to whoever looks: to
/// the handler that serves a line status interrupt, to a pump that looks for room, to a
/// `take_line`. So the errors of a byte are all that LSR has shown since the byte before it was
/// read, and this backend sees each look. Only an overrun that the first look shows, since the
/// notes were made or the receiver was reset, is of no byte: it may be of before.
///
/// # Examples
///
/// ```
/// let noting = ErrorNotes::new(alloc, backend, 256)?;
/// let uart = Uart16550::new_with_backend(noting);
/// ```
#[derive(Drop)]
pub struct ErrorNotes<B> {
    pub(crate) backend: B,
    // The errors of the bytes that were read last. Those of the bytes in the receive ring are the
    // last ones of them, so a `take` need not tell this backend what it took.
    pub(crate) noted: ByteQueue,
    // What was shown since the last byte was read.
    pub(crate) shown: LSR,
    // A dump of the registers reads the divisor latch at the offset of DATA, in the middle of what
    // waits.
    pub(crate) is_latch: bool,
    // A chip keeps an overrun of before a reset of the receiver until somebody looks, and one of
    // before the notes were made. It is at no byte that comes after.
    pub(crate) is_overrun_old: bool,
}

impl<B: Backend> ErrorNotes<B> {
    /// Returns a backend over this one, with room for the errors of so many bytes: as many as the
    /// receive ring has room for. Makes no access.
    ///
    /// Allocates its memory; nothing later allocates.
    ///
    /// # Errors
    ///
    /// - `BadCapacity` if the capacity is 0 or more than
    ///   [`MAX_CAPACITY`](crate::MAX_CAPACITY).
    /// - `OutOfMemory` if memory could not be allocated.
    ///
    /// The backend is returned with the error, unchanged.
    ///
    /// # Examples
    ///
    /// ```
    /// let noting = ErrorNotes::new(alloc, backend, 256)?;
    /// ```
    pub fn new(alloc: Global, backend: B, capacity: usize) -> Result<Self, Refused<B, RingError>>
        // proved: `ErrorNotes` makes each access of the driver over the backend under it, and no
        //   other. At each read of DATA, but for one under DLAB, it notes the line errors that
        //   reads of LSR have shown since the one before, of the last so many bytes. It leaves out
        //   an overrun that the first read of LSR shows since the notes were made or the receiver
        //   was reset: it may be of before
        // on: `ErrorNotes::new`, its `Backend::read` and `Backend::write`
        ensures made { IfOk result (λ notes. AreNew notes backend capacity) }
        // if: the capacity is none that notes may have
        ensures refused { (IsCapacity capacity → ⊥) →
            result ≡ Err (record { given = backend; cause = RingError.BadCapacity }) }
        ensures accepted { IsCapacity capacity →
            IsOkUnless result (record { given = backend; cause = RingError.OutOfMemory }) }
    {
        if !is_capacity(capacity) {
            return Err(Refused {
                given: backend,
                cause: RingError::BadCapacity,
            });
        }
        let Ok(noted) = ByteQueue::with_capacity(alloc, capacity) else {
            return Err(Refused {
                given: backend,
                cause: RingError::OutOfMemory,
            });
        };
        Ok(ErrorNotes {
            backend,
            noted,
            shown: LSR::from_bits_retain(0),
            is_latch: false,
            is_overrun_old: true,
        })
    }

    /// Returns the backend under this one.
    ///
    /// # Examples
    ///
    /// ```
    /// ring.inner().backend().backend().mark(arrival)
    /// ```
    pub fn backend(&self) -> &B
        ensures { result.now ≡ self.now.backend }
    {
        &self.backend
    }

    /// Returns the backend under this one, for accesses by the caller. What such accesses show or
    /// read is not noted.
    ///
    /// # Examples
    ///
    /// ```
    /// ring.inner_mut().backend_mut().backend_mut().next();
    /// ```
    pub fn backend_mut(&mut self) -> &mut B
        ensures* writes_back { sem 𝓛 (Lends (the_row B.row) B.row self.entry result
            (λ backend. record self.old { backend = backend })) }
        ensures value { result.now ≡ self.old.backend }
    {
        &mut self.backend
    }

    // Notes what a read showed.
    #[inline]
    fn note_read(&mut self, offset: usize, answer: u8)
        ensures backend { self.new.backend ≡ self.old.backend }
        ensures noted { notes_of self.new ≡ with_read offset answer (notes_of self.old) }
    {
        if offset == offsets::LSR {
            let told = if self.is_overrun_old {
                LSR::CHARACTER_ERRORS
            } else {
                LSR::LINE_ERRORS
            };
            let line = LSR::from_bits_retain(answer);
            self.shown.insert(line.intersection(told));
            self.is_overrun_old = false;
        } else if offset == offsets::DATA && !self.is_latch {
            self.noted.push_last(self.shown.bits());
            self.shown = LSR::from_bits_retain(0);
        }
    }

    // Notes what a write changes.
    #[inline]
    fn note_write(&mut self, offset: usize, value: u8)
        ensures backend { self.new.backend ≡ self.old.backend }
        ensures noted { notes_of self.new ≡ with_write offset value (notes_of self.old) }
    {
        if offset == offsets::LCR {
            self.is_latch = LCR::from_bits_retain(value).contains(LCR::DLAB);
        } else if offset == offsets::FCR
            && FCR::from_bits_retain(value).contains(FCR::RX_FIFO_RESET)
        {
            self.shown = LSR::from_bits_retain(0);
            self.is_overrun_old = true;
        }
    }
}

impl<B: Backend> Backend for ErrorNotes<B> {
    ghost step = { NotesErrors B.step };

    #[inline]
    fn read(&mut self, register_offset: u8) -> u8 {
        let answer = self.backend.read(register_offset);
        self.note_read(register_offset as usize, answer);
        answer
    }

    #[inline]
    fn write(&mut self, register_offset: u8, value: u8) {
        self.backend.write(register_offset, value);
        self.note_write(register_offset as usize, value);
    }
}
