//! The calls that receive. They write no register, and leave the direction.
ghost use Rattle.std.specs.Prelude.{◌≡◌, ◌≤◌, length, take, drop, IfErr};
ghost use Rattle.uart_16550.specs.Driver.{Saving};
ghost use Rattle.uart_16550.specs.Patience.{ReceivesWhile, filled_while};
ghost use Rattle.uart_16550.specs.Receive.{ReadyToReceive, TryReceive, Receives};
ghost use Rattle.uart_16550.specs.Receive.{TryReceiveWithErrors, ReceivesWithErrors};
ghost use Rattle.uart_16550.specs.Receive.{ReceivesExact, filled};
ghost use Rattle.uart_rs485.specs.Bus.{BusDid, BusDidWhile, HearsEcho, OnDriver, unchanged};

use crate::bus::HalfDuplex;
use crate::errors::EchoError;
use uart_16550::backend::Backend;
use uart_16550::{Patience, WaitError};
use uart_spec::{ByteReceiveError, Received, StalledError};

impl<B: Backend> HalfDuplex<B> {
    /// Checks whether a received byte is available, as `ready_to_receive` of the driver does: reads
    /// LSR once.
    ///
    /// Does not wait. The error bits that this clears are saved for the next `lsr`.
    ///
    /// # Errors
    ///
    /// `ByteReceiveError` if no byte is available.
    ///
    /// # Examples
    ///
    /// ```
    /// assert!(rt; bus.ready_to_receive().is_err());
    /// ```
    pub fn ready_to_receive(&mut self) -> Result<(), ByteReceiveError>
        ensures { BusDid B.step (OnDriver (Saving (ReadyToReceive result)) unchanged)
            self.old self.new }
    {
        self.uart.ready_to_receive()
    }

    /// Receives one byte if one is available, as `try_receive_byte` of the driver does.
    ///
    /// Does not wait, in either direction.
    ///
    /// # Errors
    ///
    /// `ByteReceiveError` if no byte is available. RBR was not read then.
    ///
    /// # Examples
    ///
    /// ```
    /// let byte = bus.try_receive_byte().ok();
    /// ```
    pub fn try_receive_byte(&mut self) -> Result<u8, ByteReceiveError>
        ensures { BusDid B.step (OnDriver (Saving (TryReceive result)) unchanged)
            self.old self.new }
    {
        self.uart.try_receive_byte()
    }

    /// Receives bytes while some are available and there are free slots, as `receive_bytes` of the
    /// driver does. Returns how many, and leaves the slots beyond them unchanged.
    ///
    /// Does not wait, in either direction. If the receiver hears what this end sends, these bytes
    /// are among those that are received.
    ///
    /// # Examples
    ///
    /// ```
    /// let count = bus.receive_bytes(&mut slots);
    /// ```
    pub fn receive_bytes(&mut self, buffer: &mut [u8]) -> usize
        ensures made { BusDid B.step (OnDriver (Saving (Receives (length buffer.old)
            (take result buffer.new))) unchanged) self.old self.new }
        ensures count { result ≤ length buffer.old }
        ensures rest { drop result buffer.new ≡ drop result buffer.old }
    {
        self.uart.receive_bytes(buffer)
    }

    /// Receives one byte if one is available, with the errors that LSR showed with it, as
    /// `try_receive_with_errors` of the driver does.
    ///
    /// Does not wait.
    ///
    /// # Errors
    ///
    /// `ByteReceiveError` if no byte is available. RBR was not read then.
    ///
    /// # Examples
    ///
    /// ```
    /// let received = bus.try_receive_with_errors().ok();
    /// ```
    pub fn try_receive_with_errors(&mut self) -> Result<Received, ByteReceiveError>
        ensures { BusDid B.step (OnDriver (Saving (TryReceiveWithErrors result)) unchanged)
            self.old self.new }
    {
        self.uart.try_receive_with_errors()
    }

    /// Receives bytes with their errors while some are available and there are free slots, as
    /// `receive_with_errors` of the driver does.
    ///
    /// Does not wait. A byte that was received while two ends sent at once has mostly an error, and
    /// while no end drives a bus without resistors that hold it there may be errors and breaks.
    ///
    /// # Examples
    ///
    /// ```
    /// let count = bus.receive_with_errors(&mut slots);
    /// ```
    pub fn receive_with_errors(&mut self, slots: &mut [Received]) -> usize
        ensures made { BusDid B.step (OnDriver (Saving (ReceivesWithErrors (length slots.old)
            (take result slots.new))) unchanged) self.old self.new }
        ensures count { result ≤ length slots.old }
        ensures rest { drop result slots.new ≡ drop result slots.old }
    {
        self.uart.receive_with_errors(slots)
    }

    /// Receives a byte into each slot, and waits for each, as `receive_bytes_exact` of the driver
    /// does.
    ///
    /// An answer whose length is known comes so. While the direction is to send, only the echo of
    /// what this end sends comes.
    ///
    /// # Errors
    ///
    /// `StalledError` after `spin_limit` unsuccessful polls in a row: no end sent for so long. The
    /// first `done` slots have the bytes that were received, and the other slots are unchanged.
    ///
    /// # Examples
    ///
    /// ```
    /// let mut answer = [0; 4];
    /// bus.receive_bytes_exact(&mut answer)?;
    /// ```
    pub fn receive_bytes_exact(&mut self, buffer: &mut [u8]) -> Result<(), StalledError>
        ensures made { BusDid B.step (OnDriver (Saving (ReceivesExact (length buffer.old)
            (filled result buffer.new) result)) unchanged) self.old self.new }
        ensures rest { IfErr result (λ e. drop e.done buffer.new ≡ drop e.done buffer.old) }
    {
        self.uart.receive_bytes_exact(buffer)
    }

    /// Receives the echo of what this end sent, where the receiver hears it: waits for each byte as
    /// `receive_bytes_exact` does, and compares it.
    ///
    /// Call it behind each `send_bytes`, with the bytes that were sent. So the receiver never holds
    /// more than a FIFO, and none of the echo is left when the answer comes. The last byte of an
    /// echo shows that the transmitter is empty but for the end of its stop bit.
    ///
    /// # Errors
    ///
    /// - `Differs` if another byte was heard than was sent, which is then the last that was
    ///   received. What follows may be of any end: take it until the bus is silent.
    /// - `Silent` after `spin_limit` unsuccessful polls in a row.
    ///
    /// # Examples
    ///
    /// ```
    /// let count = bus.send_bytes(bytes)?;
    /// bus.receive_echo(&bytes[..count])?;
    /// ```
    pub fn receive_echo(&mut self, sent: &[u8]) -> Result<(), EchoError>
        ensures { BusDid B.step (OnDriver (Saving (HearsEcho sent.now result)) unchanged)
            self.old self.new }
    {
        for (done, &byte) in sent.iter().enumerate() {
            let mut heard = [0];
            let Ok(()) = self.uart.receive_bytes_exact(&mut heard) else {
                return Err(EchoError::Silent { done });
            };
            if heard[0] != byte {
                return Err(EchoError::Differs {
                    done,
                    heard: heard[0],
                });
            }
        }
        Ok(())
    }

    /// Receives a byte into each slot, and waits no longer than the caller wants, as
    /// `receive_bytes_while` of the driver does: `patience` is asked after each poll that fails.
    ///
    /// So a wait for an answer ends at a time, by whatever clock the caller has. It ends after
    /// `spin_limit` unsuccessful polls in a row too.
    ///
    /// # Errors
    ///
    /// `WaitError` if `patience` answered to wait no longer, or after `spin_limit` unsuccessful
    /// polls in a row: `ended_by` tells which. The first `done` slots have the bytes that were
    /// received, and the other slots are unchanged: a further call fills them.
    ///
    /// # Examples
    ///
    /// ```
    /// // The patience ends at a time of a clock that this program has.
    /// bus.receive_bytes_while(&mut answer, &mut deadline)?;
    /// ```
    pub fn receive_bytes_while<P: Patience>(
        &mut self,
        buffer: &mut [u8],
        patience: &mut P,
    ) -> Result<(), WaitError>
        ensures made { BusDidWhile P.answers B.step (λ said. OnDriver (Saving (ReceivesWhile
            (length buffer.old) (filled_while result buffer.new) said result)) unchanged)
            patience.old patience.new self.old self.new }
        ensures rest { IfErr result (λ e. drop e.done buffer.new ≡ drop e.done buffer.old) }
    {
        self.uart.receive_bytes_while(buffer, patience)
    }
}
