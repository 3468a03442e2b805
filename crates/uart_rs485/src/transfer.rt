//! The calls that send, and LSR.
ghost use Rattle.uart_16550.specs.Status.{TakesLsr};
ghost use Rattle.uart_rs485.specs.Bus.{BusDid, OnDriver, SendsBytes, SendsBytesExact, unchanged};

use crate::bus::HalfDuplex;
use crate::errors::{NotSendingError, SendError};
use uart_16550::backend::Backend;
use uart_spec::registers::LSR;

impl<B: Backend> HalfDuplex<B> {
    /// Sends bytes from the front of the slice if there is room, and returns how many, as
    /// `send_bytes` of the driver does: up to as many as the FIFO holds if it is on, else one.
    ///
    /// Does not wait. Call it again with the rest of the slice to send more.
    ///
    /// # Errors
    ///
    /// `NotSendingError` if the direction is not to send. No access was made.
    ///
    /// # Examples
    ///
    /// ```
    /// let sent = bus.send_bytes(bytes)?;
    /// let rest = &bytes[sent..];
    /// ```
    pub fn send_bytes(&mut self, buffer: &[u8]) -> Result<usize, NotSendingError>
        // proved: While the direction is to send, bytes are sent as the driver's calls send them;
        //   else no access is made, and that is the error
        // on: `send_bytes`, `send_bytes_exact`
        ensures { BusDid B.step (SendsBytes buffer.now result) self.old self.new }
    {
        if !self.is_sending {
            return Err(NotSendingError);
        }
        Ok(self.uart.send_bytes(buffer))
    }

    /// Sends all of the bytes, and waits for room before each burst, as `send_bytes_exact` of the
    /// driver does.
    ///
    /// It returns when the last burst is in THR or the FIFO. `flush` waits until all of it has left
    /// the chip.
    ///
    /// # Errors
    ///
    /// - `NotSending` if the direction is not to send. No access was made.
    /// - `Stalled` after `spin_limit` unsuccessful checks in a row. The first `done` bytes were
    ///   written to the chip.
    ///
    /// # Examples
    ///
    /// ```
    /// bus.send_bytes_exact(b"question")?;
    /// ```
    pub fn send_bytes_exact(&mut self, bytes: &[u8]) -> Result<(), SendError>
        ensures { BusDid B.step (SendsBytesExact bytes.now result) self.old self.new }
    {
        if !self.is_sending {
            return Err(SendError::NotSending);
        }
        match self.uart.send_bytes_exact(bytes) {
            Ok(()) => Ok(()),
            Err(stall) => Err(SendError::Stalled(stall)),
        }
    }

    /// Reads LSR, and returns it joined with the error bits that all calls before have cleared in
    /// the chip, as `lsr` of the driver does. Afterwards no error bits are saved.
    ///
    /// # Examples
    ///
    /// ```
    /// let had_errors = bus.lsr().has_error();
    /// ```
    pub fn lsr(&mut self) -> LSR
        ensures { BusDid B.step (OnDriver (TakesLsr result.0) unchanged) self.old self.new }
    {
        self.uart.lsr()
    }
}
