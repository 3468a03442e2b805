//! Laws about the backend. They follow from the contracts of its accesses, for every device.
//!
//! The contract of each function is a law that callers can cite. The functions do nothing.
ghost use Rattle.std.specs.Prelude.{◌≡◌};
ghost use Rattle.uart_design_ware.specs.Laws.{DataHandsOn, LineIsBounded, LineIsTakenOrTold};
ghost use Rattle.uart_design_ware.specs.Laws.{LineKeepsBytes, StatusTakesNothing};
ghost use Rattle.uart_design_ware.specs.declared.kept.TheConstants.{KEPT};
ghost use Rattle.uart_design_ware.specs.declared.line.TheConstants.{BUSY};
ghost use Rattle.uart_design_ware.specs.declared.registers.TheConstants.{USR};
ghost use Rattle.uart_design_ware.specs.declared.serving.TheConstants as serving;

/// After a write of LCR by the driver LCR shows what was written, or `fault` says that the chip
/// ignored it.
pub fn line_is_taken_or_told()
    // promise: over a DesignWare UART LCR is as written after each write, or a fault is told
    // with: line_is_taken_or_told, IsTaken.shows
    // shown by: init_while_the_chip_sends_and_data_wait, a_chip_that_stays_busy,
    //   a_write_that_is_always_ignored
    // refused: an_ignored_line_passes_for_taken, a_fault_of_lcr_is_not_told
    ensures { LineIsTakenOrTold }
{}

/// No received byte is taken from the driver: what a write of LCR reads is kept, in order, and what
/// is kept or read is what the driver's reads of DATA return. Its reads of LSR take nothing.
#[tactic(auto, using(crate::proofs::Keeping::kept))]
pub fn no_received_byte_is_taken()
    // promise: there no received byte is taken from the driver, and each wait is bounded
    // with: no_received_byte_is_taken.line, no_received_byte_is_taken.data, waits_are_bounded
    // shown by: kept_data_have_their_errors, a_timeout_with_data_or_with_a_break_is_the_drivers,
    //   a_chip_that_stays_busy
    // refused: a_kept_byte_is_another_one, a_byte_is_read_that_lsr_does_not_show,
    //   a_wait_takes_one_round_less
    ensures line { LineKeepsBytes }
    ensures data { DataHandsOn }
    ensures status { StatusTakesNothing }
{}

/// Each wait is bounded by the patience.
pub fn waits_are_bounded()
    ensures { LineIsBounded }
{}

/// The numbers of the chip, and the limits of the backend.
pub fn constants_are_these()
    // proved: The numbers of the chip, and the limits
    // on: `laws::constants_are_these`
    ensures usr { USR ≡ 31 }
    ensures busy { BUSY ≡ 1 }
    ensures cause { serving.CAUSE ≡ 15 }
    ensures none { serving.NONE ≡ 1 }
    ensures data { serving.DATA ≡ 4 }
    ensures busy_detect { serving.BUSY_DETECT ≡ 7 }
    ensures timeout { serving.TIMEOUT ≡ 12 }
    ensures rounds { serving.ROUNDS ≡ 4 }
    ensures kept { KEPT ≡ 64 }
{}
