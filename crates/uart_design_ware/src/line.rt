//! Writes of LCR, which the chip ignores while it is busy.
ghost use Rattle.std.specs.Prelude.{◌≡◌};
ghost use Rattle.uart_design_ware.specs.Doing.{Did};
ghost use Rattle.uart_design_ware.specs.Line.{AsksIfBusy, KeepsWaiting, OffersLine, TriesLine};
ghost use Rattle.uart_design_ware.specs.Line.{DiscardsUnreadable, MakesRoom, WritesLine};

use crate::fault::DesignWareFault;
use crate::kept::KeptCharacter;
use crate::registers::DesignWareRegisters;
use crate::state::DesignWare;
use bitflags::Flags;
use uart_spec::registers::{FCR, LCR, LSR, offsets};

// The bit of USR that says that the chip is busy.
pub(crate) const BUSY: u8 = 1;

impl<R: DesignWareRegisters> DesignWare<R> {
    // Returns whether the chip is busy.
    fn is_busy(&mut self) -> bool
        ensures { Did R.step (AsksIfBusy result) self.old self.new }
    {
        self.read_usr() & BUSY == BUSY
    }

    // Writes LCR and reads it back, and returns whether the chip took it. Some versions do not keep
    // the bit of stick parity.
    fn tries(&mut self, line: LCR) -> bool
        ensures { Did R.step (TriesLine line.0 result) self.old self.new }
    {
        self.store(offsets::LCR, line.bits());
        let shown = LCR::from_bits_retain(self.load(offsets::LCR));
        shown.difference(LCR::PARITY2).bits() == line.difference(LCR::PARITY2).bits()
    }

    // Writes LCR if the chip is not busy, and returns whether the chip took it.
    fn takes(&mut self, line: LCR) -> bool
        ensures { Did R.step (OffersLine line.0 result) self.old self.new }
    {
        if self.is_busy() {
            return false;
        }
        // A character may begin after the look at USR, and then the write is ignored.
        self.tries(line)
    }

    // Discards received data while offset 0 is the latch. They cannot be read, and must not be lost
    // in silence.
    fn discard_unreadable(&mut self)
        ensures { Did R.step DiscardsUnreadable self.old self.new }
    {
        if self.look().contains(LSR::DATA_READY) {
            self.cleared.insert(LSR::OVERRUN_ERROR);
            let control = self.fifo_control.union(FCR::RX_FIFO_RESET);
            self.store(offsets::FCR, control.bits());
        }
    }

    // Keeps received data. Those that find no room stay in the chip.
    fn keep_waiting(&mut self)
        ensures { Did R.step KeepsWaiting self.old self.new }
    {
        while !self.kept.is_full() {
            if !self.look().contains(LSR::DATA_READY) {
                return;
            }
            let errors = self.cleared;
            self.cleared = LSR::from_bits_retain(0);
            let byte = self.load(offsets::DATA);
            self.kept.keep(KeptCharacter { byte, errors });
        }
    }

    // Takes received data out of the way, which keep the chip busy.
    fn make_room(&mut self)
        ensures { Did R.step MakesRoom self.old self.new }
    {
        if LCR::from_bits_retain(self.load(offsets::LCR)).contains(LCR::DLAB) {
            self.discard_unreadable();
        } else {
            self.keep_waiting();
        }
    }

    // Writes LCR.
    pub(crate) fn write_line(&mut self, line: LCR)
        ensures { Did R.step (WritesLine line.0) self.old self.new }
    {
        self.line = line;
        for _round in 0..self.patience.get() {
            if self.takes(line) {
                self.end_fault();
                return;
            }
            self.make_room();
        }
        self.begin_fault(DesignWareFault::LineControlIgnored);
        // The last write may have been ignored, which interrupts.
        self.read_usr();
    }
}
