//! Serving interrupts.
ghost use Rattle.std.specs.Prelude.{◌≤◌};
ghost use Rattle.uart_ring.specs.Ring.{RingDid};
ghost use Rattle.uart_ring.specs.Service.{SendsOnIf, ServesData, ServesInterrupt, ServesLine};
ghost use Rattle.uart_ring.specs.Service.{ServesUpTo, Services};
ghost use Rattle.uart_ring.specs.Handle.{Retriggers, RetriggersUnlessIdle, Handles};

use super::Uart16550Ring;
use bitflags::Flags;
use uart_16550::backend::Backend;
use uart_spec::registers::{InterruptType, LSR};

/// The most interrupts that one call of `service` serves.
// A broken chip can show interrupts without end, and no call may wait.
pub const MAX_INTERRUPTS: usize = 8;

/// Why a call of `handle` ended.
#[derive(Clone, Copy, Debug, PartialEq, Eq)]
pub enum HandleEnd {
    /// ISR showed that no interrupt is pending.
    Idle,
    /// ISR showed an interrupt that has no name, which cannot be served. The interrupts were
    /// triggered again.
    Unknown,
    /// As many interrupts as the limit were served, and the interrupts were triggered again.
    Limit,
}

/// What a call of `handle` did.
#[derive(Clone, Copy, Debug, PartialEq, Eq)]
pub struct Handled {
    /// How many interrupts were served.
    pub served: usize,
    /// Why the call ended.
    pub end: HandleEnd,
}

// What serving interrupts did.
#[derive(Clone, Copy)]
struct Served {
    handled: Handled,
    // A line status has shown room, and nothing was sent behind it.
    has_room: bool,
}

impl<B: Backend> Uart16550Ring<B> {
    // Notes the errors of a line status. Returns whether this sends and LSR shows room.
    fn serve_line(&mut self, sends: bool) -> bool
        ensures { RingDid B.step (ServesLine sends result) self.old self.new }
    {
        let status = self.note_line();
        sends && status.contains(LSR::THR_EMPTY)
    }

    // Receives bytes. Then sends, if a line status has shown room.
    //
    // why: where THR_EMPTY and received data are due together, some chips show a line status, and
    // that read of ISR acknowledges the THR_EMPTY. LSR shows the room all the same. And a THR_EMPTY
    // that got lost is made up for here.
    // why: behind the data, and not at the line status: a burst ahead of the first byte would take
    // time that the receiver may not have.
    fn serve_data(&mut self, has_room: bool)
        ensures { RingDid B.step (ServesData has_room) self.old self.new }
    {
        self.fill_receive_ring();
        self.send_on_if(has_room);
    }

    // Sends, if a line status has shown room.
    fn send_on_if(&mut self, has_room: bool)
        ensures { RingDid B.step (SendsOnIf has_room) self.old self.new }
    {
        if has_room {
            self.send_on();
        }
    }

    // Serves one interrupt. Takes and returns whether a line status has shown room, behind which
    // nothing was sent. Only a handler sends there.
    fn serve(&mut self, interrupt: InterruptType, sends: bool, has_room: bool) -> bool
        ensures { RingDid B.step (ServesInterrupt sends has_room result interrupt)
            self.old self.new }
    {
        match interrupt {
            InterruptType::ReceiverLineStatus => self.serve_line(sends),
            InterruptType::ReceivedDataReady | InterruptType::ReceptionTimeout => {
                self.serve_data(has_room);
                false
            }
            InterruptType::TransmitterHoldingRegisterEmpty => {
                self.pump();
                false
            }
            InterruptType::ModemStatus => {
                self.note_modem();
                has_room
            }
            InterruptType::DmaReceptionEndOfTransfer
            | InterruptType::DmaTransmissionEndOfTransfer => has_room,
        }
    }

    // Serves the interrupts that ISR identifies, at most `limit`. Returns how many, and why it
    // serves no more.
    fn serve_up_to(&mut self, limit: usize, sends: bool) -> Served
        ensures { RingDid B.step (ServesUpTo sends limit result.handled result.has_room)
            self.old self.new }
    {
        let mut has_room = false;
        for served in 0..limit {
            let isr = self.uart.isr();
            let Some(interrupt) = isr.interrupt_type() else {
                let end = if isr.has_pending_interrupt() {
                    HandleEnd::Unknown
                } else {
                    HandleEnd::Idle
                };
                let handled = Handled { served, end };
                return Served { handled, has_room };
            };
            has_room = self.serve(interrupt, sends, has_room);
        }
        // ISR is not read once more to see whether another is pending: a read that shows THR_EMPTY
        // acknowledges it, and an interrupt that is acknowledged and not served never comes again.
        let handled = Handled {
            served: limit,
            end: HandleEnd::Limit,
        };
        Served { handled, has_room }
    }

    /// Serves the interrupts that ISR identifies, until it identifies none or [`MAX_INTERRUPTS`]
    /// were served. Returns how many.
    ///
    /// This is for a program that polls. A handler calls `handle`, or `handle_ports` for several
    /// chips on one line, which also leaves the interrupt line so that the next interrupt is
    /// noticed. `service` does not write IER for that, and its count alone does not tell whether an
    /// interrupt is left: one that has no name may be.
    ///
    /// Does not wait. What it does depends on the interrupt:
    ///
    /// - Received data, or a reception timeout: bytes are moved to the receive ring, up to as many
    ///   as the FIFO holds (`fifo_size` of the driver). If that is full then, receiving is paused:
    ///   `DATA_READY` is disabled, and bytes stay in the chip until a `take` makes room.
    /// - `THR_EMPTY`: bytes of the transmit ring are sent, up to as many as the FIFO holds if it is
    ///   on, else one. If bytes are left in the ring, `THR_EMPTY` stays enabled, else it is
    ///   disabled.
    /// - Line status: the errors are noted for `take_line`.
    /// - Modem status: the changes are noted for `take_modem`.
    /// - End of DMA: nothing.
    ///
    /// With CTS checking no byte is sent while CTS is clear, and no `THR_EMPTY` interrupt is raised
    /// when CTS returns. After such a change, which `take_modem` reports, call `resume_transmit`.
    ///
    /// # Examples
    ///
    /// ```
    /// let served = ring.service();
    /// ```
    pub fn service(&mut self) -> usize
        // proved: If the receive ring is full, the DATA_READY interrupt is disabled and bytes stay
        //   in the chip, until a `take` makes room
        // on: `service`, `handle`, `take`, `is_paused`
        ensures did { RingDid B.step (Services result) self.old self.new }
        ensures count { result ≤ MAX_INTERRUPTS }
    {
        // The number does not tell whether an interrupt without a name is left, and if the line
        // stays high no edge comes. So this call is for programs that poll, and `handle` for
        // handlers.
        self.serve_up_to(MAX_INTERRUPTS, false).handled.served
    }

    /// Makes the chip's interrupt line fall, and rise again if an interrupt is enabled and pending:
    /// reads IER, writes 0, and writes back what it read.
    ///
    /// An interrupt controller that detects edges sees no new edge while the line stays high, so
    /// it would not call the handler again. `handle` retriggers where that is needed. Call this
    /// yourself
    ///
    /// - at the end of a handler of your own that returns before ISR has shown that no interrupt is
    ///   pending;
    /// - after the interrupt was unmasked at a controller that forgets the edges that come while it
    ///   is masked, as an I/O APIC does.
    ///
    /// If `THR_EMPTY` is enabled and the transmitter is empty, the chip raises that interrupt
    /// again.
    ///
    /// Does not wait: makes three accesses.
    ///
    /// # Examples
    ///
    /// ```
    /// ring.retrigger();
    /// ```
    pub fn retrigger(&mut self)
        // proved: `retrigger` reads IER, and writes 0 and then what it read
        ensures { RingDid B.step Retriggers self.old self.new }
    {
        self.uart.retrigger_interrupts();
    }

    // Triggers what is left again, and sends before that, if a line status has shown room.
    fn retrigger_unless_idle(&mut self, has_room: bool, end: HandleEnd)
        ensures { RingDid B.step (RetriggersUnlessIdle has_room end) self.old self.new }
    {
        match end {
            // ISR has shown that none is pending, so the line has been low.
            HandleEnd::Idle => {}
            // The line may still be high, and a controller that detects edges would never call the
            // handler again. At such a controller a broken chip has the handler called without end,
            // so a handler counts these rounds, and then disables the chip's interrupts.
            HandleEnd::Unknown | HandleEnd::Limit => {
                self.send_on_if(has_room);
                self.retrigger();
            }
        }
    }

    /// Handles the chip's interrupt: serves what is pending, as `service` does, but at most `limit`
    /// interrupts. Returns how many it served, and why it ended.
    ///
    /// Call it once each time the interrupt handler runs, whether the interrupt controller detects
    /// levels or edges:
    ///
    /// - If the end is `Idle`, no interrupt is pending, and the line is low. The next interrupt
    ///   makes the line rise.
    /// - Otherwise an interrupt may be left, and `handle` makes the line fall and rise again, as
    ///   `retrigger` does. So the controller calls the handler again.
    ///
    /// At a line status it notes whether LSR shows room. If so, it sends bytes that wait behind the
    /// next received data, though ISR shows no `THR_EMPTY`: where both are due, some chips show a
    /// line status.
    ///
    /// A broken chip may show interrupts for ever, and the controller then calls the handler for
    /// ever. So count the calls in a row that do not end with `Idle`, and after a number of them
    /// disable the chip's interrupts.
    ///
    /// Does not wait: makes at most 35 accesses for each interrupt of the limit, and 3 more. With a
    /// larger `fifo_size` of the driver it is twice that size and 3 in place of the 35.
    ///
    /// # Examples
    ///
    /// ```
    /// let handled = self.ring.handle(4 * MAX_INTERRUPTS);
    /// ```
    pub fn handle(&mut self, limit: usize) -> Handled
        ensures { RingDid B.step (Handles limit result) self.old self.new }
    {
        let round = self.serve_up_to(limit, true);
        self.retrigger_unless_idle(round.has_room, round.handled.end);
        round.handled
    }
}
