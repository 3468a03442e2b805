//! The calls that change the frame or the outputs to the modem, and that take a port as it is.
ghost use Rattle.std.specs.Prelude.{◌≡◌};
ghost use Rattle.uart_spec.specs.Config.{IsComputable};
ghost use Rattle.uart_16550.specs.Grammar.{Only};
ghost use Rattle.uart_16550.specs.Frame.{frame_writes, with_frame, SetsFrame, ShowsIdle, SetsBreak};
ghost use Rattle.uart_16550.specs.Frame.{SetsControl, SetsOutput, switched};
ghost use Rattle.uart_16550.specs.Attach.{Attaches};
ghost use Rattle.uart_16550.specs.Driver.{Made, Did, Sets};

use super::Uart16550;
use super::init::frame_of;
use crate::backend::Backend;
use bitflags::Flags;
use uart_spec::registers::{DLL, DLM, LCR, LSR, MCR, offsets};
use uart_spec::{AttachError, Config, InvalidDivisorError, calc_divisor};

// Returns LCR with a break or without.
fn break_of(lcr: LCR, on: bool) -> LCR
    ensures { result.0 ≡ switched on LCR.SET_BREAK.0 lcr.0 }
{
    if on {
        lcr.union(LCR::SET_BREAK)
    } else {
        lcr.difference(LCR::SET_BREAK)
    }
}

// Returns MCR with an output asserted or clear.
fn outputs_of(mcr: MCR, output: MCR, on: bool) -> MCR
    ensures { result.0 ≡ switched on output.0 mcr.0 }
{
    if on {
        mcr.union(output)
    } else {
        mcr.difference(output)
    }
}

impl<B: Backend> Uart16550<B> {
    /// Changes the baud rate and the frame to those of this configuration, which must be computable
    /// (`Config::is_computable`), and stores them in the driver's configuration.
    ///
    /// Writes LCR, DLL, DLM and LCR, and nothing else. So the FIFOs, the outputs to the modem and
    /// the interrupts stay as they are, no byte is discarded, and a break ends. Does not wait.
    ///
    /// A character that is on the line meanwhile is corrupted, since its rest has the new rate and
    /// frame: one that goes out, and one that comes in. Bytes that wait in the transmitter are sent
    /// in the new frame. So wait before, until `is_idle` is true or with `flush`.
    ///
    /// While DLAB is set, offsets 0 and 1 are the latch, as in `dll_dlm`, so nothing else may
    /// access the chip. Of the configuration `interrupts`, `fifo_trigger_level` and
    /// `check_cts_before_sending` are not used.
    ///
    /// # Errors
    ///
    /// - `NonInteger` if the divisor is not a whole number: `Config::nearest` finds the nearest.
    /// - `OutOfRange` if it does not fit into the divisor latch.
    ///
    /// No access was made then, and nothing changed.
    ///
    /// # Examples
    ///
    /// ```
    /// uart.flush()?;
    /// uart.set_frame(&Config {
    ///     baud_rate: BaudRate::Baud38400,
    ///     ..Config::DEFAULT
    /// })?;
    /// ```
    pub fn set_frame(&mut self, config: &Config) -> Result<(), InvalidDivisorError>
        // promise: rate and frame are changed by four writes, a break and an output in what was
        //   read of their register, and a port is taken as firmware left it; a refusal changes
        //   nothing
        // with: set_frame, set_break, set_modem_control, attach, switches_change_one_bit.rts
        // shown by: calls_that_change_the_line, the_frame_alone_is_changed, ports_that_are_attached
        // refused: set_frame_leaves_dlab, set_rts_clears_the_other_outputs,
        //   attach_takes_a_port_in_loopback
        requires { IsComputable config.now }
        ensures { Did B.step (SetsFrame config.now result) self.old self.new }
    {
        let baud_rate = config.baud_rate.to_integer();
        let prescaler = config.prescaler_division_factor;
        let divisor = match calc_divisor(config.frequency, baud_rate, prescaler) {
            Ok(divisor) => divisor,
            Err(cause) => return Err(cause),
        };
        self.store_frame(config);
        self.write_frame(divisor, frame_of(config));
        Ok(())
    }

    // Stores the clock, the baud rate and the frame. The other fields of the configuration are for
    // registers that a change of the frame does not write.
    pub(super) fn store_frame(&mut self, config: &Config)
        ensures { Did B.step (Sets (with_frame config.now)) self.old self.new }
    {
        self.config.frequency = config.frequency;
        self.config.prescaler_division_factor = config.prescaler_division_factor;
        self.config.baud_rate = config.baud_rate;
        self.config.data_bits = config.data_bits;
        self.config.extra_stop_bits = config.extra_stop_bits;
        self.config.parity = config.parity;
    }

    // Sets the divisor and the frame.
    pub(super) fn write_frame(&mut self, divisor: u16, frame: LCR)
        ensures { Made B.step (Only (frame_writes divisor frame.0)) self.old self.new }
    {
        // The frame goes in together with DLAB, so that LCR never has a third one in between.
        self.write_register(offsets::LCR, frame.union(LCR::DLAB).bits());
        self.write_register(offsets::DLL, (divisor % 256) as u8);
        self.write_register(offsets::DLM, (divisor / 256) as u8);
        self.write_register(offsets::LCR, frame.bits());
    }

    /// Returns whether the transmitter is empty, both its FIFO and its shift register: whether all
    /// that was sent is on the line. `flush` waits for that.
    ///
    /// Does not wait: reads LSR once. This clears the error bits in the chip; they are saved for
    /// the next `lsr`.
    ///
    /// # Examples
    ///
    /// ```
    /// assert!(rt; uart.is_idle());
    /// ```
    pub fn is_idle(&mut self) -> bool
        // promise: whether all is on the line is told, with the errors kept
        // with: is_idle, ShowsIdle
        // shown by: calls_that_change_the_line, is-idle
        // refused: is_idle_looks_at_the_holding_register
        ensures { Made B.step (ShowsIdle result) self.old self.new }
    {
        self.read_lsr().contains(LSR::TRANSMITTER_EMPTY)
    }

    /// Begins or ends a break: reads LCR, and writes it with `SET_BREAK` set or cleared, the other
    /// bits as they were.
    ///
    /// In a break the line is held at 0, whatever the transmitter sends. So a character that is
    /// going out is lost: wait until `is_idle` is true. The remote sees a break once the line was 0
    /// for a whole character. Does not wait: the caller ends the break after that time.
    ///
    /// # Examples
    ///
    /// ```
    /// uart.set_break(true);
    /// ```
    pub fn set_break(&mut self, on: bool)
        // proved: A break and one output are switched in what was read of their register, the other
        //   bits stay, DLAB and the frame too; each write of MCR has loopback off
        // on: `set_break`, `set_rts`, `set_dtr`, `set_modem_control`;
        //   `laws::switches_change_one_bit`
        ensures { Made B.step (SetsBreak on) self.old self.new }
    {
        let switched = break_of(self.lcr(), on);
        self.write_register(offsets::LCR, switched.bits());
    }

    /// Writes MCR: the outputs to the modem are as these bits say, and loopback is off.
    ///
    /// `OUT_2_INT_ENABLE` gates the interrupt line on a PC, and `init` sets it. So leave it in the
    /// bits if interrupts are used.
    ///
    /// # Examples
    ///
    /// ```
    /// uart.set_modem_control(MCR::DTR.union(MCR::OUT_2_INT_ENABLE));
    /// ```
    pub fn set_modem_control(&mut self, outputs: MCR)
        ensures { Made B.step (SetsControl outputs.0) self.old self.new }
    {
        // In loopback the outputs are inactive at the pins, whatever MCR has, so the remote would
        // not see what was asked for. The driver itself never leaves the chip in loopback.
        self.write_register(offsets::MCR, outputs.difference(MCR::LOOP_BACK).bits());
    }

    /// Asserts or clears RTS: reads MCR, and writes it with this bit so, the other outputs as they
    /// were, and loopback off, as in `set_modem_control`.
    ///
    /// # Examples
    ///
    /// ```
    /// uart.set_rts(false);
    /// ```
    pub fn set_rts(&mut self, on: bool)
        ensures { Made B.step (SetsOutput MCR.RTS.0 on) self.old self.new }
    {
        self.set_output(MCR::RTS, on);
    }

    /// Asserts or clears DTR: reads MCR, and writes it with this bit so, the other outputs as they
    /// were, and loopback off, as in `set_modem_control`.
    ///
    /// # Examples
    ///
    /// ```
    /// uart.set_dtr(false);
    /// ```
    pub fn set_dtr(&mut self, on: bool)
        ensures { Made B.step (SetsOutput MCR.DTR.0 on) self.old self.new }
    {
        self.set_output(MCR::DTR, on);
    }

    // Asserts or clears one output.
    fn set_output(&mut self, output: MCR, on: bool)
        ensures { Made B.step (SetsOutput output.0 on) self.old self.new }
    {
        let switched = outputs_of(self.mcr(), output, on);
        self.set_modem_control(switched);
    }

    /// Takes a port as it was set up, for example by firmware, in place of `init`: finds out
    /// whether the FIFOs are on, and returns the divisor latch, low byte first. It is not 0.
    ///
    /// Reads LCR and MCR, then the divisor latch as `dll_dlm` does, which writes LCR and restores
    /// it, and then ISR. Nothing else is written. The read of ISR acknowledges a `THR_EMPTY`
    /// interrupt. Afterwards `fifo_enabled` is as ISR showed. `config` is not changed, since the
    /// clock of the chip is not known: it does not say what the chip has.
    ///
    /// # Errors
    ///
    /// - `DivisorLatchOpen` if DLAB is set.
    /// - `Loopback` if DLAB is clear, and the chip is in loopback.
    /// - `NoDivisor` if neither is so, and the divisor latch reads as 0: no port is set up there,
    ///   or there is none. So a bus where all registers read as 0 is refused.
    ///
    /// ISR was not read then, so no interrupt was acknowledged, and the driver is unchanged. For
    /// the first two only LCR and MCR were read, and nothing was written. For `NoDivisor` DLAB was
    /// set for the look at the latch, and LCR written back.
    ///
    /// # Examples
    ///
    /// ```
    /// // In place of `init`, on a port that firmware has set up.
    /// let (dll, dlm) = uart.attach()?;
    /// uart.send_bytes_exact(b"hello")?;
    /// ```
    pub fn attach(&mut self) -> Result<(DLL, DLM), AttachError>
        // promise: a port whose divisor is 0 is not taken, and its refusal reads no ISR and leaves
        //   the registers; one of whose divisor a single byte is 0 is taken
        // with: attach, TakesPort.refused, TakesPort.refuses, IsAttached.is_set_up
        // shown by: ports_that_are_attached, a_bus_of_zeros_is_not_attached, attaches
        // refused: attach_takes_a_divisor_of_0, attach_refuses_a_divisor_of_256
        ensures { Did B.step (Attaches result) self.old self.new }
    {
        // LCR comes first, since its DLAB says what other offsets are: on later chips some of its
        // values show further registers in place of MCR and ISR. ISR comes last, after the latch
        // too, since its read may acknowledge an interrupt, and a refusal is to change nothing.
        if self.lcr().contains(LCR::DLAB) {
            return Err(AttachError::DivisorLatchOpen);
        }
        if self.mcr().contains(MCR::LOOP_BACK) {
            return Err(AttachError::Loopback);
        }
        let (dll, dlm) = self.dll_dlm();
        // No port is set up so, and where nothing answers all registers may read as 0.
        if dll == 0 && dlm == 0 {
            return Err(AttachError::NoDivisor);
        }
        self.fifo_enabled = self.isr().fifo_enabled();
        Ok((dll, dlm))
    }
}
