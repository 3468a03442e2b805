//! Whether the chip shows what was written to it.
ghost use Rattle.uart_16550.specs.Configured.{KeepsLine, IsDivisorIfAny, ChecksConfigured};
ghost use Rattle.uart_16550.specs.Configured.{ShowsFrame, ShowsOutputs, ShowsInterrupts};
ghost use Rattle.uart_16550.specs.Configured.{ShowsDivisor, ShowsFifos, ShowsAll};
ghost use Rattle.uart_16550.specs.Driver.{Made, fields};

use super::Uart16550;
use super::init::frame_of;
use crate::backend::Backend;
use bitflags::Flags;
use uart_spec::registers::{IER, LCR, MCR, offsets};
use uart_spec::{ConfigurationError, calc_divisor};

impl<B: Backend> Uart16550<B> {
    // Returns the divisor of the configuration, if it has one.
    fn configured_divisor(&self) -> Option<u16>
        ensures { IsDivisorIfAny (fields self.now).config result }
    {
        if !self.config.is_computable() {
            return None;
        }
        let baud_rate = self.config.baud_rate.to_integer();
        let prescaler = self.config.prescaler_division_factor;
        match calc_divisor(self.config.frequency, baud_rate, prescaler) {
            Ok(divisor) => Some(divisor),
            Err(_cause) => None,
        }
    }

    // Checks the frame. A break is no part of it: `set_break` does not store one.
    fn check_frame(&mut self, expected: LCR) -> Result<(), ConfigurationError>
        ensures { Made B.step (ShowsFrame expected.0 result) self.old self.new }
    {
        let shown = self.lcr();
        if shown.difference(LCR::SET_BREAK) != expected {
            return Err(ConfigurationError::LineControl { expected, shown });
        }
        Ok(())
    }

    // Checks the outputs to the modem.
    fn check_outputs(&mut self, expected: MCR) -> Result<(), ConfigurationError>
        ensures { Made B.step (ShowsOutputs expected.0 result) self.old self.new }
    {
        let shown = self.mcr();
        if shown != expected {
            return Err(ConfigurationError::ModemControl { expected, shown });
        }
        Ok(())
    }

    // Checks the interrupts that are enabled.
    fn check_interrupts(&mut self, expected: IER) -> Result<(), ConfigurationError>
        ensures { Made B.step (ShowsInterrupts expected.0 result) self.old self.new }
    {
        let shown = self.ier();
        if shown != expected {
            return Err(ConfigurationError::Interrupts { expected, shown });
        }
        Ok(())
    }

    // Writes LCR, and checks that the chip took it.
    fn keep_line(&mut self, expected: LCR) -> Result<(), ConfigurationError>
        ensures { Made B.step (KeepsLine expected.0 result) self.old self.new }
    {
        self.write_register(offsets::LCR, expected.bits());
        let shown = self.lcr();
        if shown != expected {
            return Err(ConfigurationError::LineControl { expected, shown });
        }
        Ok(())
    }

    // Checks the divisor latch, and leaves it closed.
    fn check_divisor(&mut self, expected: u16) -> Result<(), ConfigurationError>
        ensures { Made B.step (ShowsDivisor expected result) self.old self.new }
    {
        let lcr = self.lcr();
        // If DLAB was not taken, offset 0 is still the receiver, and a read takes a byte from it.
        if let Err(ignored) = self.keep_line(lcr.union(LCR::DLAB)) {
            self.write_register(offsets::LCR, lcr.bits());
            return Err(ignored);
        }
        let dll = self.read_register(offsets::DLL);
        let dlm = self.read_register(offsets::DLM);
        // While DLAB is still set, neither data nor IER can be reached, so that is told before a
        // wrong divisor.
        self.keep_line(lcr)?;
        let shown = 256 * dlm as u16 + dll as u16;
        if shown != expected {
            return Err(ConfigurationError::Divisor { expected, shown });
        }
        Ok(())
    }

    // Checks whether the FIFOs are on.
    fn check_fifos(&mut self, interrupts: IER) -> Result<(), ConfigurationError>
        ensures { Made B.step (ShowsFifos interrupts.0 result) self.old self.new }
    {
        let expected = self.fifo_enabled;
        // With no interrupt enabled ISR shows none, so its read acknowledges no THR_EMPTY. If that
        // is enabled and the transmitter is empty, the last write raises it again.
        self.write_register(offsets::IER, 0);
        let shown = self.isr().fifo_enabled();
        self.write_register(offsets::IER, interrupts.bits());
        if shown != expected {
            return Err(ConfigurationError::Fifos { expected, shown });
        }
        Ok(())
    }

    // Checks the registers in turn.
    fn check_registers(
        &mut self,
        frame: LCR,
        outputs: MCR,
        interrupts: IER,
        divisor: u16,
    ) -> Result<(), ConfigurationError>
        ensures { Made B.step (ShowsAll frame.0 outputs.0 interrupts.0 divisor result)
            self.old self.new }
    {
        // LCR comes first, since its DLAB says what other offsets are. What is only read comes
        // before what has to be written for it.
        self.check_frame(frame)?;
        self.check_outputs(outputs)?;
        self.check_interrupts(interrupts)?;
        self.check_divisor(divisor)?;
        self.check_fifos(interrupts)
    }

    /// Checks, register by register, whether the chip shows what was written to it: the frame, the
    /// outputs to the modem and the interrupts, the divisor, and whether the FIFOs are on.
    ///
    /// What is expected is the configuration of the driver (`config`), these outputs, which after
    /// `init` are `MCR::READY`, and the FIFOs as `fifo_enabled` says. `LOOP_BACK` is left out of
    /// the outputs. A break may be on.
    ///
    /// Call it after `init`, `init_with`, `set_frame` or `set_frame_when_idle` on a chip that may
    /// ignore a write: these calls do not read back what they wrote. A DesignWare UART ignores LCR
    /// while it sends, receives, or has received data. After `attach` and `restore` the driver does
    /// not know the divisor, so a difference does not tell much.
    ///
    /// Does not wait: makes at most 13 accesses. To read the divisor it sets DLAB, as `dll_dlm`
    /// does, but reads offset 0 only if LCR shows that DLAB is set. To read ISR it writes 0 to IER,
    /// and writes the interrupts back: so no interrupt is acknowledged, and the interrupt output
    /// falls and rises as in `retrigger_interrupts`. No received byte is read, and nothing that is
    /// saved for `lsr` or `msr` changes.
    ///
    /// # Errors
    ///
    /// The first difference, in this order:
    ///
    /// - `NoDivisor` if the configuration has no divisor, or is not computable
    ///   (`Config::is_computable`). No access was made.
    /// - `LineControl` if LCR shows another frame, or DLAB. LCR alone was read.
    /// - `ModemControl` if MCR shows other outputs, or loopback. Nothing was written.
    /// - `Interrupts` if IER shows other interrupts. Nothing was written.
    /// - `LineControl` if LCR does not show DLAB after that was set, and then LCR was written as it
    ///   was before; or if LCR does not show that DLAB was cleared again.
    /// - `Divisor` if the divisor latch shows another divisor. DLAB is clear again.
    /// - `Fifos` if ISR shows FIFOs that are on where the driver takes them to be off, or the other
    ///   way round.
    ///
    /// # Examples
    ///
    /// ```
    /// uart.init(Config::DEFAULT)?;
    /// uart.check_configured(MCR::READY)?;
    /// ```
    pub fn check_configured(&mut self, outputs: MCR) -> Result<(), ConfigurationError>
        // promise: a register that does not show what was written is an error, the first one found;
        //   the latch is not read unless LCR shows that it is open
        // with: check_configured, ChecksConfigured, OpensLatch
        // shown by: the_chip_shows_what_was_written, a_check_while_data_wait,
        //   that_do_not_keep_what_is_written
        // refused: check_configured_tells_no_ignored_line,
        //   check_configured_tells_the_outputs_first, check_configured_leaves_the_latch_open
        ensures { Made B.step (ChecksConfigured (fields self.old).config outputs.0 result)
            self.old self.new }
    {
        let Some(divisor) = self.configured_divisor() else {
            return Err(ConfigurationError::NoDivisor);
        };
        let frame = frame_of(&self.config);
        let interrupts = self.config.interrupts;
        let outputs = outputs.difference(MCR::LOOP_BACK);
        self.check_registers(frame, outputs, interrupts, divisor)
    }
}
