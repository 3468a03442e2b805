//! Line errors and changes of the modem lines: noted when their interrupts are served, and taken by
//! the caller. And all registers at once.
ghost use Rattle.uart_ring.specs.Ring.{RingDid};
ghost use Rattle.uart_ring.specs.Status.{NotesLine, NotesModem};
ghost use Rattle.uart_ring.specs.Status.{TakesLine, TakesModem, DumpsRegisters};

use super::Uart16550Ring;
use bitflags::Flags;
use uart_16550::backend::Backend;
use uart_spec::ConfigRegisterDump;
use uart_spec::registers::{LSR, MSR};

impl<B: Backend> Uart16550Ring<B> {
    // Notes the errors that LSR shows, and those that the driver has saved. Returns both with the
    // other bits of LSR.
    pub(super) fn note_line(&mut self) -> LSR
        ensures { RingDid B.step (NotesLine result.0) self.old self.new }
    {
        let status = self.uart.lsr();
        self.line.insert(status.intersection(LSR::LINE_ERRORS));
        status
    }

    // Notes the changes that MSR shows, and those that the driver has saved.
    pub(super) fn note_modem(&mut self)
        ensures { RingDid B.step NotesModem self.old self.new }
    {
        let status = self.uart.msr();
        self.modem.insert(status.intersection(MSR::CHANGES));
    }

    /// Reads LSR once. Returns it joined with the errors that were noted when interrupts were
    /// served, and with those that the driver has saved. Both are then forgotten.
    ///
    /// # Examples
    ///
    /// ```
    /// let line = self.ring.take_line();
    /// if line.contains(LSR::OVERRUN_ERROR) {
    ///     self.overruns = self.overruns.saturating_add(1);
    /// }
    /// ```
    pub fn take_line(&mut self) -> LSR
        ensures { RingDid B.step (TakesLine result.0) self.old self.new }
    {
        let line = self.uart.lsr().union(self.line);
        self.line = LSR::from_bits_retain(0);
        line
    }

    /// Reads MSR once. Returns it joined with the changes that were noted when interrupts were
    /// served, and with those that the driver has saved. Both are then forgotten.
    ///
    /// # Examples
    ///
    /// ```
    /// let modem = self.ring.take_modem();
    /// let came_back = modem.contains(MSR::DELTA_CTS.union(MSR::CTS));
    /// ```
    pub fn take_modem(&mut self) -> MSR
        ensures { RingDid B.step (TakesModem result.0) self.old self.new }
    {
        let modem = self.uart.msr().union(self.modem);
        self.modem = MSR::from_bits_retain(0);
        modem
    }

    /// Reads all registers, as the driver's `config_register_dump` does, and then sends bytes that
    /// wait, as `resume_transmit` does.
    ///
    /// ISR is among the registers, and a read of it that shows `THR_EMPTY` acknowledges that
    /// interrupt. So after the driver's own call, through `inner_mut`, bytes in the transmit ring
    /// may wait for ever. After this call they do not.
    ///
    /// `take_line` and `take_modem` still return what the reads of LSR and MSR have cleared.
    ///
    /// Does not wait. Under DLAB, which is set meanwhile, the divisor latch is read in place of
    /// DATA and IER: mask the interrupt, as for every call.
    ///
    /// # Examples
    ///
    /// ```
    /// let dump = self.ring.config_register_dump();
    /// ```
    pub fn config_register_dump(&mut self) -> ConfigRegisterDump
        // proved: `config_register_dump` reads all registers, as the driver's does, and then sends
        //   bytes that wait, as `resume_transmit` does
        ensures { RingDid B.step (DumpsRegisters result) self.old self.new }
    {
        let dump = self.uart.config_register_dump();
        // Behind the dump, since what it acknowledges never comes again. A `retrigger` would raise
        // the interrupt again on a chip that does so whenever THR_EMPTY is enabled while THR is
        // empty; to send what waits needs nothing of the chip.
        self.resume_transmit();
        dump
    }
}
