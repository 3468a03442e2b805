//! The driver with its direction: what it holds, the constructor, and the calls that switch.
ghost use Rattle.std.specs.Prelude.{true};
ghost use Rattle.uart_16550.specs.Driver.{Saving};
ghost use Rattle.uart_16550.specs.Frame.{ShowsIdle};
ghost use Rattle.uart_16550.specs.Io.{Flushes};
ghost use Rattle.uart_rs485.specs.Bus.{Begins, BusDid, GivesUp, OnDriver, Turns, TriesToFinish};
ghost use Rattle.uart_rs485.specs.Bus.{receiving, unchanged};

use crate::direction::Direction;
use crate::errors::BusyError;
use uart_16550::Uart16550;
use uart_16550::backend::Backend;
use uart_16550::embedded_io::Write;
use uart_ring::Refused;
use uart_spec::StalledError;
use uart_spec::registers::LSR;

/// A driver at a bus on which one end at a time may send, as RS-485 with two wires.
///
/// `start_sending` switches the transceiver to send, and `try_finish` gives the bus back once the
/// transmitter is empty. While the direction is not to send, `send_bytes` and `send_bytes_exact`
/// write nothing and return an error. No call writes a byte or switches the direction otherwise,
/// in whatever order they are made: that is proved.
///
/// The two delays are the caller's, by a clock of its own:
///
/// - Between `start_sending` and the first byte: as long as the transceiver takes to drive the bus,
///   often some microseconds.
/// - Between the end of the last byte and `try_finish`. `flush` and `is_idle` tell when the
///   transmitter is empty. Some chips show that when the last stop bit begins, so wait as long as
///   this bit takes, or two of them: at 9,600 baud 104 microseconds a bit. Most protocols let a
///   remote wait longer than that before it answers.
///
/// No interrupt tells that the transmitter is empty: THR_EMPTY comes while the last byte is still
/// in the shift register. So somebody polls, or waits for the time that the bytes take.
///
/// Whether the receiver hears what this end sends depends on the board. If it does, as many bytes
/// as were sent are received: take them by `receive_echo` between calls that send, before they
/// overrun the receiver. No call drops received bytes.
///
/// Only calls of this type keep the direction, so it lends no driver that could write. For other
/// calls, as `set_frame`, take the driver back by `into_inner`, and give it to `new` again. So set
/// the size of the FIFOs, by `set_fifo_size`, before `new`. The direction is by software: where RTS
/// is the line, flow control by the chip would drive it, so each switch turns that off.
///
/// # Examples
///
/// ```
/// // `wait` is a wait of this program's clock, in microseconds.
/// bus.start_sending();
/// wait(10);
/// bus.send_bytes_exact(b"question")?;
/// bus.flush()?;
/// wait(208);
/// bus.try_finish()?;
/// // The answer, until a time of that clock.
/// bus.receive_bytes_while(&mut answer, &mut deadline)?;
/// ```
// There is no model, as there is none of the driver: clauses speak of the fields through
// `bus_fields` and `driver_of`.
#[derive(Debug, Drop)]
pub struct HalfDuplex<B> {
    pub(crate) uart: Uart16550<B>,
    pub(crate) direction: Direction,
    pub(crate) is_sending: bool,
}

impl<B: Backend> HalfDuplex<B> {
    /// Returns a driver at a bus that it may drive, with the transceiver switched to receive.
    ///
    /// Makes the accesses of `try_finish`, since an `init` or whoever had the port before may have
    /// left the transceiver so that it sends, and may have sent. Does not wait. Initialise the
    /// driver before, with the outputs of [`Direction::receiving`].
    ///
    /// # Errors
    ///
    /// `BusyError` if the transmitter is not empty. Nothing was written then, and the driver is
    /// returned: `flush` it, and try again.
    ///
    /// # Examples
    ///
    /// ```
    /// let mut bus = HalfDuplex::new(uart, direction)?;
    /// ```
    pub fn new(
        uart: Uart16550<B>,
        direction: Direction,
    ) -> Result<Self, Refused<Uart16550<B>, BusyError>>
        // proved: A bus is begun as by a `try_finish`; if the transmitter is not empty, the driver
        //   is returned
        // on: `HalfDuplex::new`
        ensures { Begins B.step uart direction result }
    {
        // Nothing is known of the direction. If it is to send, it may be taken back only while the
        // transmitter is empty.
        let mut bus = HalfDuplex {
            uart,
            direction,
            is_sending: true,
        };
        match bus.try_finish() {
            Ok(()) => Ok(bus),
            Err(cause) => {
                let given = bus.uart;
                Err(Refused { given, cause })
            }
        }
    }

    // Switches the transceiver to send, or to receive.
    fn turn(&mut self, sends: bool)
        ensures { BusDid B.step (Turns sends) self.old self.new }
    {
        let outputs = self.uart.mcr();
        self.uart
            .set_modem_control(self.direction.turned(sends, outputs));
        self.is_sending = sends;
    }

    /// Switches the transceiver to send: reads MCR, and writes it with the line so, as `set_rts` or
    /// `set_dtr` of the driver do. Where the line is RTS, flow control by the chip is off from then
    /// on. From now on bytes may be sent.
    ///
    /// Does not wait. Before the first byte wait as long as the transceiver takes.
    ///
    /// # Examples
    ///
    /// ```
    /// bus.start_sending();
    /// assert!(rt; bus.is_sending());
    /// ```
    pub fn start_sending(&mut self)
        ensures { BusDid B.step (Turns true) self.old self.new }
    {
        self.turn(true);
    }

    /// Gives the bus back if the transmitter is empty: reads LSR once and, if it shows
    /// `TRANSMITTER_EMPTY`, MCR, and writes that with the line so that the transceiver receives.
    ///
    /// Does not wait. The error bits that the read of LSR clears are saved for the next `lsr`. Call
    /// it some time after `is_idle` was true or `flush` returned: some chips show an empty
    /// transmitter while the last stop bit is still on the line.
    ///
    /// # Errors
    ///
    /// `BusyError` if the transmitter is not empty. Nothing was written, and the direction is as it
    /// was.
    ///
    /// # Examples
    ///
    /// ```
    /// bus.try_finish()?;
    /// assert!(rt; !bus.is_sending());
    /// ```
    pub fn try_finish(&mut self) -> Result<(), BusyError>
        // proved: The direction is given back by a look at LSR and a switch, right behind each
        //   other; or the look shows that the transmitter is not empty, and nothing is written
        ensures { BusDid B.step (TriesToFinish result) self.old self.new }
    {
        // The look is part of the call that switches. A look of an earlier call would tell nothing
        // of bytes that were sent after it.
        if !self.uart.is_idle() {
            return Err(BusyError);
        }
        self.turn(false);
        Ok(())
    }

    /// Gives the bus back whatever the transmitter does, for one that stays busy: reads LSR and
    /// MCR, and writes that with the line so that the transceiver receives.
    ///
    /// Returns the driver, and LSR as its `lsr` does, which says what may be cut off. With
    /// `TRANSMITTER_EMPTY` it is nothing; else with `THR_EMPTY` the last byte; else as many of the
    /// last bytes as the FIFO holds, and one more. What is left in the chip goes on to leave it,
    /// and nobody hears it: `new` takes the driver once that is over.
    ///
    /// Does not wait. Afterwards no error bits are saved.
    ///
    /// # Examples
    ///
    /// ```
    /// let (uart, status) = bus.give_up();
    /// let is_cut_off = !status.contains(LSR::TRANSMITTER_EMPTY);
    /// ```
    pub fn give_up(self) -> (Uart16550<B>, LSR)
        ensures { BusDid B.step (GivesUp result.1.0) self (receiving result.0 self.direction) }
    {
        let mut bus = self;
        // The look is before the switch: what it shows to be sent was sent in time.
        let status = bus.uart.lsr();
        bus.turn(false);
        (bus.uart, status)
    }

    /// Returns whether the transmitter is empty, as `is_idle` of the driver does: reads LSR once.
    ///
    /// Does not wait. The error bits that this clears are saved for the next `lsr`.
    ///
    /// # Examples
    ///
    /// ```
    /// assert!(rt; bus.is_idle());
    /// ```
    pub fn is_idle(&mut self) -> bool
        // proved: The other calls are the driver's, and leave the direction
        // on: `is_idle`, `flush`, `ready_to_receive`, `try_receive_byte`, `receive_bytes`,
        //   `try_receive_with_errors`, `receive_with_errors`, `receive_bytes_exact`,
        //   `receive_bytes_while`, `lsr`
        ensures { BusDid B.step (OnDriver (Saving (ShowsIdle result)) unchanged)
            self.old self.new }
    {
        self.uart.is_idle()
    }

    /// Waits until the transmitter is empty, at most `spin_limit` polls of LSR, as `flush` of the
    /// driver does. The direction stays as it is.
    ///
    /// # Errors
    ///
    /// `StalledError`, with `done` 0, after `spin_limit` unsuccessful polls in a row.
    ///
    /// # Examples
    ///
    /// ```
    /// bus.flush()?;
    /// ```
    pub fn flush(&mut self) -> Result<(), StalledError>
        ensures { BusDid B.step (OnDriver (Saving (Flushes result)) unchanged)
            self.old self.new }
    {
        self.uart.flush()
    }
}
