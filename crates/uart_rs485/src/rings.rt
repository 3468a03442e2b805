//! Rings at a bus: bytes are queued and served by interrupts, and a timer gives the bus back.
ghost use Rattle.std.specs.Prelude.{◌≡◌, ◌≤◌, ◌<◌, true, length, take, drop, min};
ghost use Rattle.std.specs.Prelude.{IfErr, IfOk, is_ok};
ghost use Rattle.uart_ring.specs.Handle.{Handles};
ghost use Rattle.uart_ring.specs.Notes.{NotesErrors, bytes_of, errors_in, errors_of, unnoted_in};
ghost use Rattle.uart_ring.specs.Receive.{ClearsReceive, TakesBytes};
ghost use Rattle.uart_ring.specs.Ring.{ring_fields};
ghost use Rattle.uart_ring.specs.Status.{TakesLine};
ghost use Rattle.uart_ring.specs.Storm.{Restarts, TriesToHandle};
ghost use Rattle.uart_ring.specs.Transmit.{ClearsTransmit};
ghost use Rattle.uart_rs485.specs.Rings.{OnRings, RingBegins, RingBusDid, RingGivesUp, RingLooks};
ghost use Rattle.uart_rs485.specs.Rings.{RingQueues, RingTriesToFinish, RingTurns};
ghost use Rattle.uart_rs485.specs.Rings.{ring_bus_fields, rings_of, rings_receiving, same};

use crate::direction::Direction;
use crate::errors::{BusyError, NotSendingError};
use uart_16550::backend::Backend;
use uart_ring::{ErrorNotes, Handled, Refused, StuckError, Uart16550Ring, UnnotedError};
use uart_spec::Received;
use uart_spec::registers::{IER, LSR};

/// Rings at a bus on which one end at a time may send, as RS-485 with two wires.
///
/// `start_sending` switches the transceiver to send, `queue` takes bytes, and the interrupt handler
/// sends them, by `handle`. A timer of the program calls `try_finish`, which gives the bus back
/// once all bytes have left the chip. So nothing waits in a loop: no interrupt tells that the
/// transmitter is empty, and the timer asks.
///
/// While the direction is not to send, `queue` takes nothing and returns an error. No call writes a
/// byte or switches the direction otherwise, in whatever order they are made: that is proved, and
/// each byte that is queued is written while the direction is to send.
///
/// Let the timer come when the bytes may have left, and once more each character until `try_finish`
/// succeeds. The delays are the caller's, as with [`HalfDuplex`](crate::HalfDuplex): before the
/// first `queue`, and between the end of the last byte and `try_finish`. `inner` tells how many
/// bytes wait. A receiver that hears itself has as many bytes as were queued: take them by `take`.
///
/// Interrupts are masked during each call, as with the rings themselves. For other calls of the
/// rings take them back by `into_inner`, and give them to `new` again.
///
/// # Examples
///
/// ```
/// bus.start_sending();
/// bus.queue(b"question")?;
/// // In the interrupt handler:
/// let handled = bus.handle(MAX_INTERRUPTS);
/// // In the timer's:
/// let is_over = bus.try_finish().is_ok();
/// ```
#[derive(Drop)]
pub struct HalfDuplexRing<B> {
    pub(crate) ring: Uart16550Ring<B>,
    pub(crate) direction: Direction,
    pub(crate) is_sending: bool,
}

impl<B: Backend> HalfDuplexRing<B> {
    /// Returns rings at a bus that they may drive, with the transceiver switched to receive.
    ///
    /// Makes the accesses of `try_finish`. Does not wait. Initialise the driver before, with the
    /// outputs of [`Direction::receiving`], and enable its interrupts as for the rings.
    ///
    /// # Errors
    ///
    /// `BusyError` if a byte waits in the transmit ring, or the transmitter is not empty. Nothing
    /// was written then, and the rings are returned.
    ///
    /// # Examples
    ///
    /// ```
    /// let mut bus = HalfDuplexRing::new(ring, direction)?;
    /// ```
    pub fn new(
        ring: Uart16550Ring<B>,
        direction: Direction,
    ) -> Result<Self, Refused<Uart16550Ring<B>, BusyError>>
        ensures { RingBegins B.step ring direction result }
    {
        let mut bus = HalfDuplexRing {
            ring,
            direction,
            is_sending: true,
        };
        match bus.try_finish() {
            Ok(()) => Ok(bus),
            Err(cause) => {
                let given = bus.ring;
                Err(Refused { given, cause })
            }
        }
    }

    // Switches the transceiver to send, or to receive.
    fn turn(&mut self, sends: bool)
        ensures { RingBusDid B.step (RingTurns sends) self.old self.new }
    {
        let direction = self.direction;
        let uart = self.ring.inner_mut();
        let outputs = uart.mcr();
        uart.set_modem_control(direction.turned(sends, outputs));
        self.is_sending = sends;
    }

    /// Switches the transceiver to send, as `start_sending` of [`HalfDuplex`](crate::HalfDuplex)
    /// does. From now on bytes may be queued. Does not wait.
    ///
    /// # Examples
    ///
    /// ```
    /// bus.start_sending();
    /// assert!(rt; bus.is_sending());
    /// ```
    pub fn start_sending(&mut self)
        ensures { RingBusDid B.step (RingTurns true) self.old self.new }
    {
        self.turn(true);
    }

    /// Gives the bus back if no byte waits and the transmitter is empty: reads LSR once and, if it
    /// shows `TRANSMITTER_EMPTY`, MCR, and writes that with the line so that the transceiver
    /// receives. This is the call of the program's timer.
    ///
    /// Does not wait. The error bits that the read of LSR clears are saved for `take_line`.
    ///
    /// # Errors
    ///
    /// `BusyError` if a byte waits in the transmit ring, and no access was made; or if the
    /// transmitter is not empty. The direction is as it was.
    ///
    /// # Examples
    ///
    /// ```
    /// let is_over = bus.try_finish().is_ok();
    /// ```
    pub fn try_finish(&mut self) -> Result<(), BusyError>
        // proved: Rings at a bus give it back by a look at LSR and a switch, right behind each
        //   other, if no byte waits
        ensures { RingBusDid B.step (RingTriesToFinish result) self.old self.new }
    {
        // What waits would go out later, when an interrupt is served.
        if self.ring.transmit_len() > 0 || self.ring.urgent().is_some() {
            return Err(BusyError);
        }
        if !self.ring.inner_mut().is_idle() {
            return Err(BusyError);
        }
        self.turn(false);
        Ok(())
    }

    /// Queues bytes from the front of the slice, as `queue` of the rings does, and returns how
    /// many: as many as there is room for. What the chip takes at once is sent.
    ///
    /// # Errors
    ///
    /// `NotSendingError` if the direction is not to send. No access was made.
    ///
    /// # Examples
    ///
    /// ```
    /// let count = bus.queue(bytes)?;
    /// ```
    pub fn queue(&mut self, bytes: &[u8]) -> Result<usize, NotSendingError>
        ensures { RingBusDid B.step (RingQueues bytes.now result) self.old self.new }
    {
        if !self.is_sending {
            return Err(NotSendingError);
        }
        Ok(self.ring.queue(bytes))
    }

    /// Handles the chip's interrupt, as `handle` of the rings does: what waits is sent, and what
    /// came is received.
    ///
    /// # Examples
    ///
    /// ```
    /// let handled = bus.handle(MAX_INTERRUPTS);
    /// ```
    pub fn handle(&mut self, limit: usize) -> Handled
        // proved: The other calls of rings at a bus are those of the rings, and leave the direction
        // on: `HalfDuplexRing::handle`, `HalfDuplexRing::try_handle`, `HalfDuplexRing::restart`,
        //   `HalfDuplexRing::is_idle`, `HalfDuplexRing::take`, `HalfDuplexRing::take_with_errors`,
        //   `HalfDuplexRing::clear_transmit`, `HalfDuplexRing::clear_receive`,
        //   `HalfDuplexRing::take_line`
        ensures { RingBusDid B.step (OnRings (Handles limit result) same) self.old self.new }
    {
        self.ring.handle(limit)
    }

    /// Handles the chip's interrupt and ends a storm, as `try_handle` of the rings does.
    ///
    /// # Errors
    ///
    /// The chip is stuck, for this reason: its interrupts are off until a `restart`.
    ///
    /// # Examples
    ///
    /// ```
    /// let handled = bus.try_handle(4 * MAX_INTERRUPTS, 100)?;
    /// ```
    pub fn try_handle(&mut self, limit: usize, rounds: u32) -> Result<Handled, StuckError>
        ensures { RingBusDid B.step (OnRings (TriesToHandle limit rounds result) same)
            self.old self.new }
    {
        self.ring.try_handle(limit, rounds)
    }

    /// Starts a chip again that is stuck, with these interrupts, as `restart` of the rings does:
    /// what waits is sent.
    ///
    /// # Examples
    ///
    /// ```
    /// bus.restart(IER::DATA_READY.union(IER::RECEIVER_LINE_STATUS));
    /// ```
    pub fn restart(&mut self, interrupts: IER)
        ensures { RingBusDid B.step (OnRings (Restarts interrupts.0) same) self.old self.new }
    {
        self.ring.restart(interrupts);
    }

    /// Returns whether the transmitter is empty, as `is_idle` of the driver does: reads LSR once.
    /// Bytes that wait in the transmit ring are not in the transmitter.
    ///
    /// # Examples
    ///
    /// ```
    /// let is_sent = bus.inner().transmit_len() == 0 && bus.is_idle();
    /// ```
    pub fn is_idle(&mut self) -> bool
        ensures { RingBusDid B.step (RingLooks result) self.old self.new }
    {
        self.ring.inner_mut().is_idle()
    }

    /// Takes received bytes from the receive ring, as `take` of the rings does.
    ///
    /// # Examples
    ///
    /// ```
    /// let count = bus.take(&mut slots);
    /// ```
    pub fn take(&mut self, slots: &mut [u8]) -> usize
        ensures did { RingBusDid B.step (OnRings (TakesBytes (length slots.old)
            (take result slots.new)) same) self.old self.new }
        ensures count { result ≤ length slots.old }
        ensures rest { drop result slots.new ≡ drop result slots.old }
    {
        self.ring.take(slots)
    }

    /// Drops the bytes of the transmit ring, as `clear_transmit` of the rings does, and returns how
    /// many. What is in the chip still goes out. Makes no access.
    ///
    /// # Examples
    ///
    /// ```
    /// let dropped = bus.clear_transmit();
    /// ```
    pub fn clear_transmit(&mut self) -> usize
        ensures { RingBusDid B.step (OnRings (ClearsTransmit result) same) self.old self.new }
    {
        self.ring.clear_transmit()
    }

    /// Drops the bytes of the receive ring, as `clear_receive` of the rings does, and returns how
    /// many: an echo that nobody compares, or what was heard before a question.
    ///
    /// # Examples
    ///
    /// ```
    /// let dropped = bus.clear_receive();
    /// ```
    pub fn clear_receive(&mut self) -> usize
        ensures { RingBusDid B.step (OnRings (ClearsReceive result) same) self.old self.new }
    {
        self.ring.clear_receive()
    }

    /// Reads LSR, and returns it with the line errors that were noted, as `take_line` of the rings
    /// does.
    ///
    /// # Examples
    ///
    /// ```
    /// let had_errors = bus.take_line().has_error();
    /// ```
    pub fn take_line(&mut self) -> LSR
        ensures { RingBusDid B.step (OnRings (TakesLine result.0) same) self.old self.new }
    {
        self.ring.take_line()
    }

    /// Gives the bus back whatever the transmitter does, for one that stays busy: reads LSR and
    /// MCR, and writes that with the line so that the transceiver receives. Then drops the bytes of
    /// the transmit ring, which would else go out when an interrupt is served.
    ///
    /// Returns the rings, and LSR as their `take_line` does, which says what may be cut off beside
    /// the bytes that waited. With `TRANSMITTER_EMPTY` it is nothing; else with `THR_EMPTY` the
    /// last byte; else as many of the last bytes as the FIFO holds, and one more. What is left in
    /// the chip goes on to leave it, and nobody hears it: `new` takes the rings once that is over.
    ///
    /// Does not wait.
    ///
    /// # Examples
    ///
    /// ```
    /// let (ring, status) = bus.give_up();
    /// let is_cut_off = !status.contains(LSR::TRANSMITTER_EMPTY);
    /// ```
    pub fn give_up(self) -> (Uart16550Ring<B>, LSR)
        ensures { RingBusDid B.step (RingGivesUp result.1.0) self
            (rings_receiving result.0 self.direction) }
    {
        let mut bus = self;
        // The look is before the switch: what it shows to be sent was sent in time.
        let status = bus.take_line();
        bus.turn(false);
        bus.clear_transmit();
        (bus.ring, status)
    }

    /// Returns whether the direction is to send. Makes no access.
    ///
    /// # Examples
    ///
    /// ```
    /// assert!(rt; !bus.is_sending());
    /// ```
    pub fn is_sending(&self) -> bool
        ensures { result ≡ (ring_bus_fields self.now).sends }
    {
        self.is_sending
    }

    /// Returns the rings, to read their state. Makes no access.
    ///
    /// # Examples
    ///
    /// ```
    /// let waiting = bus.inner().transmit_len();
    /// ```
    pub fn inner(&self) -> &Uart16550Ring<B>
        ensures { result.now ≡ rings_of self.now }
    {
        &self.ring
    }

    /// Returns the rings. The direction stays as it is, so finish before. Makes no access.
    ///
    /// # Examples
    ///
    /// ```
    /// let ring = bus.into_inner();
    /// ```
    pub fn into_inner(self) -> Uart16550Ring<B>
        ensures { result ≡ rings_of self }
    {
        self.ring
    }
}

impl<B: Backend> HalfDuplexRing<ErrorNotes<B>> {
    /// Takes received bytes from the receive ring, each with its errors, as `take_with_errors` of
    /// the rings does.
    ///
    /// # Errors
    ///
    /// `UnnotedError` if fewer errors are noted than bytes are in the receive ring. Then nothing is
    /// done.
    ///
    /// # Examples
    ///
    /// ```
    /// let count = bus.take_with_errors(&mut slots)?;
    /// ```
    pub fn take_with_errors(&mut self, slots: &mut [Received]) -> Result<usize, UnnotedError>
        ensures did { IfOk result (λ count. RingBusDid (NotesErrors B.step) (OnRings
            (TakesBytes (length slots.old) (bytes_of (take count slots.new))) same)
            self.old self.new) }
        ensures count { IfOk result (λ count. count ≡ min (length slots.old)
            (length (ring_fields (rings_of self.old)).receive.items)) }
        ensures errors { IfOk result (λ count.
            errors_of (take count slots.new) ≡ take count (errors_in (rings_of self.old))) }
        ensures rest { IfOk result (λ count. drop count slots.new ≡ drop count slots.old) }
        // if: the errors of all bytes in the ring are noted
        ensures noted { unnoted_in (rings_of self.old) ≡ 0 → is_ok result ≡ true }
        ensures all_noted { IfOk result (λ count. unnoted_in (rings_of self.old) ≡ 0) }
        ensures refused { IfErr result (λ error.
            (0 < error.bytes) × (error.bytes ≡ unnoted_in (rings_of self.old))
            × (self.new ≡ self.old) × (slots.new ≡ slots.old)) }
    {
        self.ring.take_with_errors(slots)
    }
}
