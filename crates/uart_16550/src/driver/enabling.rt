//! How FIFOs of 64 are turned on.
ghost use Rattle.std.specs.Prelude.{◌≡◌};
ghost use Rattle.uart_16550.specs.Driver.{Did};
ghost use Rattle.uart_16550.specs.Sizing.{Enables64, is_64_shown};

use super::Uart16550;
use super::setup::level_control_of;
use crate::backend::Backend;
use bitflags::Flags;
use uart_spec::FifoSizeError;
use uart_spec::registers::{FCR, ISR, LCR, LSR, offsets};

// Returns whether this is what a 16750 shows while its FIFOs are on and hold 64.
fn is_64_shown(isr: ISR) -> bool
    ensures { result ≡ is_64_shown isr.0 }
{
    // A 16750 leaves bit 4 clear. Where nobody answers a bus mostly shows FF or 7F, which have it.
    isr.fifo_enabled() && isr.contains(ISR::FIFO_64_ENABLED) && !isr.contains(ISR::DMA_RX_END)
}

impl<B: Backend> Uart16550<B> {
    /// Turns on the FIFOs of 64 characters of a 16750, which has FIFOs of 16 after power-on.
    /// Returns whether the FIFOs hold 64 then. It does not set the size of the driver:
    /// `set_fifo_size` does, as in the example.
    ///
    /// Call it after `init`, and again after a reset of the chip. The answer is whether ISR shows
    /// bits 5 to 7 set and bit 4 clear after a write of FCR without DLAB, as other calls make it. A
    /// chip that ends the mode there counts as one of 16, and so does a bus where nobody answers:
    /// FF and 7F are `false`, and 0 is `Stalled`. On a chip that shows something else in these bits
    /// the answer is of no use.
    ///
    /// Nothing goes out on the line, but for what is in the transmitter already: the call waits
    /// until it is empty, at most `spin_limit` polls. A chip that switches empties its FIFOs, so
    /// bytes that were received and not taken are lost: take them first. A chip that does not
    /// switch loses nothing.
    ///
    /// Reads LCR and IER. After the wait it disables all interrupts, writes FCR while DLAB is set,
    /// restores LCR, writes FCR once more, reads ISR, and restores IER. While DLAB is set, offsets
    /// 0 and 1 are the latch, as in `dll_dlm`, so nothing else may access the chip. The level of
    /// the receiver FIFO is that of the configuration, or one byte if none is configured. Error
    /// bits are saved for the next `lsr`. If `THR_EMPTY` is enabled, the chip raises that interrupt
    /// again.
    ///
    /// # Errors
    ///
    /// - `FifosOff` if the FIFOs are off (`fifo_enabled`). No access was made.
    /// - `Stalled` if the transmitter was not empty after `spin_limit` polls. Nothing was written.
    ///
    /// # Examples
    ///
    /// ```
    /// if uart.enable_64_byte_fifos()? {
    ///     uart.set_fifo_size(FifoSize::SixtyFour);
    /// }
    /// ```
    pub fn enable_64_byte_fifos(&mut self) -> Result<bool, FifoSizeError>
        // promise: a 16750 is told to hold 64 characters, once its transmitter is empty and with no
        //   interrupt meanwhile. The answer is what stays after a write of FCR without DLAB, and
        //   never `true` on a bus that always shows FF, 7F or 0; LCR, IER and the size of the
        //   driver are as before
        // with: enable_64_byte_fifos, Enables64
        // shown by: the_upper_bits_of_isr_are_the_answer, a_bus_where_nobody_answers_holds_no_64,
        //   the_frame_is_kept_with_one_stop_bit, a_16750_holds_64,
        //   a_chip_that_leaves_64_again_holds_16, a_chip_without_64_loses_nothing,
        //   a_16750_is_told_to_hold_64, bursts_of_64_go_out_whole
        // refused: enable_64_byte_fifos_believes_a_bus_where_nobody_answers,
        //   enable_64_byte_fifos_believes_a_chip_that_asks_for_no_dlab,
        //   enable_64_byte_fifos_does_not_wait, enable_64_byte_fifos_leaves_dlab_set,
        //   enable_64_byte_fifos_looks_too_early, enable_64_byte_fifos_leaves_interrupts_off
        ensures { Did B.step (Enables64 result) self.old self.new }
    {
        if !self.fifo_enabled {
            return Err(FifoSizeError::FifosOff);
        }
        let lcr = self.lcr();
        let ier = self.ier();
        // A chip that switches empties its FIFOs: a byte that is still to go out would be lost.
        if !self.wait_for(LSR::TRANSMITTER_EMPTY) {
            return Err(FifoSizeError::Stalled);
        }
        let control = level_control_of(self.fifo_level());
        // With two stop bits the frame may make LCR 0xbf, for which later chips show another
        // register in place of FCR. A receiver looks at one stop bit, so it loses no character.
        let opened = lcr.difference(LCR::MORE_STOP_BITS).union(LCR::DLAB);
        // While DLAB is set a handler could reach neither data nor IER.
        self.write_register(offsets::IER, 0);
        // A 16750 looks at the bit only while DLAB is set, by its data sheet.
        self.write_register(offsets::LCR, opened.bits());
        self.write_register(offsets::FCR, control.union(FCR::FIFO_64_ENABLE).bits());
        self.write_register(offsets::LCR, lcr.bits());
        // So it keeps its FIFOs of 64 here. A chip that looks at the bit always leaves them, and
        // would do so at the next call that writes FCR: bytes that were written for them would be
        // lost. The answer is what stays.
        self.write_register(offsets::FCR, control.bits());
        // IER is still 0, so this read acknowledges no interrupt.
        let on = is_64_shown(self.isr());
        self.write_register(offsets::IER, ier.bits());
        Ok(on)
    }
}
