//! Traits for byte readers and writers, and their implementations for the driver.
//!
//! In Rattle generic code relies on the contracts of these traits. A reader or a writer defines a
//! relation between its state before a call, the bytes of the call, its result, and its state
//! after; each call is in this relation.
ghost use Rattle.std.specs.Prelude.{◌≡◌, ◌≤◌, ℕ, Bool, List, Result, length, drop, IfOk, OnErr};
ghost use Rattle.uart_spec.specs.declared.errors.StalledError.{StalledError};
ghost use Rattle.uart_16550.specs.Driver.{Made};
ghost use Rattle.uart_16550.specs.Io.{Reads, Writes, Flushes, AnswersRead, AnswersWrite, got};

use crate::backend::Backend;
use crate::driver::Uart16550;
use uart_spec::StalledError;
use uart_spec::registers::LSR;

/// Defines the error of a reader or a writer.
pub trait ErrorType {
    /// The error of its calls.
    type Error;
}

/// A reader of bytes.
pub trait Read: ErrorType {
    // From the first state a call with this number of slots may read these bytes, return this, and
    // end in the second state.
    ghost reads: { Self → ℕ → List ℕ → Result ℕ Self.Error → Self → Type 0 };

    /// Reads at least one byte into the slots, waits for it if necessary, and returns how many were
    /// read: 0 only if there are no slots.
    ///
    /// Slots beyond this number are unchanged. If the call fails, all slots are unchanged.
    fn read(&mut self, buf: &mut [u8]) -> Result<usize, Self::Error>
        ensures reads { reads self.old (length buf.old) (got result buf.new) result self.new }
        ensures count { IfOk result (λ count. count ≤ length buf.old) }
        ensures none { IfOk result (λ count. count ≡ 0 → length buf.old ≡ 0) }
        ensures rest { IfOk result (λ count. drop count buf.new ≡ drop count buf.old) }
        ensures err { OnErr result (buf.new ≡ buf.old) };
}

/// A writer of bytes.
pub trait Write: ErrorType {
    // From the first state a call with these bytes may return this and end in the second state.
    ghost writes: { Self → List ℕ → Result ℕ Self.Error → Self → Type 0 };

    // From the first state a flush may return this and end in the second state.
    ghost flushes: { Self → Result (Unit {0}) Self.Error → Self → Type 0 };

    /// Writes at least one byte from the front, waits for room if necessary, and returns how many
    /// were written: 0 only if there are no bytes.
    fn write(&mut self, buf: &[u8]) -> Result<usize, Self::Error>
        ensures writes { writes self.old buf.now result self.new }
        ensures count { IfOk result (λ count. count ≤ length buf.now) }
        ensures none { IfOk result (λ count. count ≡ 0 → length buf.now ≡ 0) };

    /// Waits until everything that was written has been sent.
    fn flush(&mut self) -> Result<(), Self::Error>
        ensures { flushes self.old result self.new };
}

/// A reader that can report whether a read would wait.
pub trait ReadReady: ErrorType {
    // From the first state a call may return this and end in the second state.
    ghost answers_read: { Self → Result Bool Self.Error → Self → Type 0 };

    /// Returns whether a read would find a byte without waiting.
    fn read_ready(&mut self) -> Result<bool, Self::Error>
        ensures { answers_read self.old result self.new };
}

/// A writer that can report whether a write would wait.
pub trait WriteReady: ErrorType {
    // From the first state a call may return this and end in the second state.
    ghost answers_write: { Self → Result Bool Self.Error → Self → Type 0 };

    /// Returns whether a write would find room without waiting.
    fn write_ready(&mut self) -> Result<bool, Self::Error>
        ensures { answers_write self.old result self.new };
}

impl<B: Backend> ErrorType for Uart16550<B> {
    type Error = StalledError;
}

impl<B: Backend> Read for Uart16550<B> {
    ghost reads = { λ old slots bytes answer new. Made B.step (Reads slots bytes answer) old new };

    /// Waits for a byte, at most `spin_limit` polls of LSR, and then receives as `receive_bytes`
    /// does.
    ///
    /// # Errors
    ///
    /// `StalledError`, with `done` 0, after `spin_limit` unsuccessful polls in a row.
    ///
    /// # Examples
    ///
    /// ```
    /// assert_eq!(rt; uart.read(&mut slots[1..]), Ok(1));
    /// ```
    fn read(&mut self, buf: &mut [u8]) -> Result<usize, StalledError> {
        if buf.is_empty() {
            return Ok(0);
        }
        match self.receive_some(buf) {
            Some(count) => Ok(count),
            None => Err(StalledError { done: 0 }),
        }
    }
}

impl<B: Backend> Write for Uart16550<B> {
    ghost writes = { λ old bytes answer new. Made B.step (Writes bytes answer) old new };

    ghost flushes = { λ old answer new. Made B.step (Flushes answer) old new };

    /// Waits for room, at most `spin_limit` checks as `ready_to_send`, and then sends one burst: up
    /// to as many bytes as `fifo_size` says if the FIFO is on, else one.
    ///
    /// # Errors
    ///
    /// `StalledError`, with `done` 0, after `spin_limit` unsuccessful checks in a row.
    ///
    /// # Examples
    ///
    /// ```
    /// match writer.write(&bytes[done..]) {
    ///     Ok(count) => done += count,
    ///     Err(error) => return Err(error),
    /// }
    /// ```
    fn write(&mut self, buf: &[u8]) -> Result<usize, StalledError> {
        if buf.is_empty() {
            return Ok(0);
        }
        match self.send_some(buf) {
            Some(count) => Ok(count),
            None => Err(StalledError { done: 0 }),
        }
    }

    /// Waits until LSR shows `TRANSMITTER_EMPTY`, at most `spin_limit` polls: THR, or the
    /// transmitter FIFO, and the shift register are empty then.
    ///
    /// # Errors
    ///
    /// `StalledError`, with `done` 0, after `spin_limit` unsuccessful polls in a row.
    fn flush(&mut self) -> Result<(), StalledError> {
        if self.wait_for(LSR::TRANSMITTER_EMPTY) {
            Ok(())
        } else {
            Err(StalledError { done: 0 })
        }
    }
}

impl<B: Backend> ReadReady for Uart16550<B> {
    ghost answers_read = { λ old answer new. Made B.step (AnswersRead answer) old new };

    /// Returns whether `ready_to_receive` succeeds. Does not wait, and never fails.
    fn read_ready(&mut self) -> Result<bool, StalledError> {
        Ok(self.ready_to_receive().is_ok())
    }
}

impl<B: Backend> WriteReady for Uart16550<B> {
    ghost answers_write = { λ old answer new. Made B.step (AnswersWrite answer) old new };

    /// Returns whether `ready_to_send` succeeds. Does not wait, and never fails.
    fn write_ready(&mut self) -> Result<bool, StalledError> {
        Ok(self.ready_to_send().is_ok())
    }
}
