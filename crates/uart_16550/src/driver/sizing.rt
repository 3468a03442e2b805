//! How the size of the FIFOs is found.
ghost use Rattle.std.specs.Prelude.{[], ◌∷◌};
ghost use Rattle.uart_spec.specs.declared.registers.offsets.TheConstants as offsets;
ghost use Rattle.uart_spec.specs.declared.access.Access.TheVariants.{Write};
ghost use Rattle.uart_16550.specs.Grammar.{Only, Times};
ghost use Rattle.uart_16550.specs.Loopback.{test_byte};
ghost use Rattle.uart_16550.specs.Driver.{Made, Did};
ghost use Rattle.uart_16550.specs.Sizing.{TakesBack, Measures, Sizes, FindsFifoSize};

use super::Uart16550;
use super::loopback::TEST_BYTE;
use crate::backend::Backend;
use uart_spec::registers::{FifoTriggerLevel, LSR};
use uart_spec::{FifoSize, FifoSizeError};

// How many bytes are sent: one more than the largest FIFO holds. The shift register takes the first
// of them, so a FIFO of 256 is full although the last character may still be on its way.
const FLOOD: usize = 257;

impl<B: Backend> Uart16550<B> {
    // Writes the test byte so many times, with no look between: what does not fit is lost.
    fn flood(&mut self, count: usize)
        ensures { Made B.step (Times count (Only (Write offsets.DATA test_byte ∷ [])))
            self.old self.new }
    {
        for _turn in 0..count {
            self.write_byte(TEST_BYTE);
        }
    }

    // Takes what came back, and returns how many bytes that were. No more can come back than were
    // sent, so no look follows the last of so many.
    fn take_back(&mut self) -> usize
        ensures { Made B.step (TakesBack result) self.old self.new }
    {
        for count in 0..FLOOD {
            let Ok(_) = self.try_receive_byte() else {
                return count;
            };
        }
        FLOOD
    }

    // Floods the transmitter, and tells the size by what comes back, while the device is in
    // loopback.
    fn find_size(&mut self) -> Result<FifoSize, FifoSizeError>
        ensures { Made B.step (Measures result) self.old self.new }
    {
        // A byte from before would be counted.
        if !self.drain_received() {
            return Err(FifoSizeError::Stalled);
        }
        self.flood(FLOOD);
        if !self.wait_for(LSR::TRANSMITTER_EMPTY) {
            return Err(FifoSizeError::Stalled);
        }
        // Nothing was taken meanwhile. So the receiver's FIFO has as many as it holds, and lost the
        // others.
        let returned = self.take_back();
        match FifoSize::largest_up_to(returned) {
            Some(size) => Ok(size),
            None => Err(FifoSizeError::TooFew { returned }),
        }
    }

    // Measures, and resets the FIFOs then. What a wait that reached the limit has left in the
    // transmitter would go out otherwise, as soon as loopback is left.
    fn find_and_reset(&mut self, level: Option<FifoTriggerLevel>) -> Result<FifoSize, FifoSizeError>
        ensures { Did B.step (Sizes level result) self.old self.new }
    {
        let found = self.find_size();
        self.fifo_enabled = self.set_fifo(level);
        found
    }

    /// Finds how many characters the FIFOs of the chip hold as they are set up now: the largest
    /// `FifoSize` that is safe in `set_fifo_size` and `send_burst`. It does not set it.
    ///
    /// Sends 257 bytes in loopback without looking, and counts those that come back: they are as
    /// many as the smaller of the two FIFOs holds, or few more. A count between two sizes gives the
    /// lower one. Call it after `init`, on a chip that passed `test_loopback`, and keep the answer:
    /// it holds until something changes the mode of the FIFOs, as another driver or a reset.
    ///
    /// Nothing goes out on the line, but for what is in the transmitter already: the call waits
    /// until it is empty. Then it takes as long as its bytes need at the baud rate that is set up,
    /// for a FIFO of 256 about 268 ms at 9,600 baud and 22 ms at 115,200. What arrives on the line
    /// meanwhile is lost, and so are bytes that were received before and not taken: take them
    /// first. The divisor and the frame stay as they are.
    ///
    /// Waits at most `spin_limit` polls each time. The errors that are found in loopback are those
    /// of its own bytes, the overrun among them, and are discarded; error bits that were saved
    /// before it stay saved. Changes of the modem lines are saved as by `test_loopback`. The FIFOs
    /// are reset and set up again, with the level of the configuration, or one byte if none is
    /// configured, and `fifo_enabled` is read again. Afterwards MCR and IER are as before.
    ///
    /// A chip whose transmitter holds fewer characters than its receiver is measured right only if
    /// the transmitter sends little while the bytes are written, that is at usual baud rates.
    ///
    /// # Errors
    ///
    /// - `FifosOff` if the FIFOs are off (`fifo_enabled`). No access was made.
    /// - `Stalled` after `spin_limit` unsuccessful polls in a row. If the first wait failed,
    ///   nothing was written, and what the polls cleared is saved. Later the FIFOs are reset, so
    ///   that of the bytes in the transmitter at most the rest of one character goes out. On a chip
    ///   without FIFOs, which a reset of them does not empty, up to two bytes may go out.
    /// - `TooFew` if fewer than 16 bytes came back. Call `test_loopback` to see whether any does.
    ///
    /// Except for the first wait, MCR and IER are restored before the error is returned.
    ///
    /// # Examples
    ///
    /// ```
    /// let size = uart.find_fifo_size()?;
    /// uart.set_fifo_size(size);
    /// ```
    pub fn find_fifo_size(&mut self) -> Result<FifoSize, FifoSizeError>
        // promise: the size of the FIFOs is found in loopback: never more than came back, with
        //   nothing on the line, and with MCR, IER and noted errors as before
        // with: find_fifo_size, largest_up_to, IsLargestUpTo
        // shown by: a_count_gives_the_largest_size_of_no_more,
        //   the_size_of_the_fifos_is_found_in_loopback, a_flood_that_stalls_stays_inside,
        //   bytes_and_errors_from_before
        // refused: find_fifo_size_counts_one_more, find_fifo_size_keeps_its_overrun,
        //   find_fifo_size_turns_the_fifos_off, uart_spec/largest_up_to_is_too_large
        ensures { Did B.step (FindsFifoSize result) self.old self.new }
    {
        if !self.fifo_enabled {
            return Err(FifoSizeError::FifosOff);
        }
        let mcr = self.mcr();
        let ier = self.ier();
        // A byte that is still to go out would be counted, and would never reach the remote.
        if !self.wait_for(LSR::TRANSMITTER_EMPTY) {
            return Err(FifoSizeError::Stalled);
        }
        let noted = self.saved_lsr;
        let level = self.level_of(true);
        let before = self.enter_loopback(level);
        let found = self.find_and_reset(level);
        self.leave_loopback(mcr, ier, before, noted);
        found
    }
}
