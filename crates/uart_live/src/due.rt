//! The interrupt line of a chip that was left alone for so long that a reception timeout is due.
ghost use Rattle.std.specs.Prelude.{◌≡◌, is_some};
ghost use Rattle.uart_chip.specs.Chip as spec;
ghost use Rattle.uart_live.specs.Quick.{when_due};
ghost use Rattle.uart_spec.specs.Bits.{has_any};
ghost use Rattle.uart_spec.specs.declared.registers.line_status.TheConstants.LSR;

use bitflags::Flags;
use uart_chip::controlling::ChipParts;
use uart_chip::receiving::ReceiverParts;
use uart_spec::registers::{IER, LSR};

// Returns whether LSR shows an error of the line. The transmitter has no part in that.
fn has_line_errors<P: ChipParts>(parts: &P) -> bool
    ensures { result ≡ has_any (spec.line_status (P.state parts.now)) LSR.LINE_ERRORS.0 }
{
    parts.receiver().status().intersects(LSR::LINE_ERRORS)
}

/// Returns whether the interrupt line is up if a reception timeout is due, and a THR-empty
/// interrupt is pending or is not.
// Each character that waits is a cause then, so the trigger level and the ticks are not looked at.
pub fn interrupts_when_due<P: ChipParts>(parts: &P, is_thr_pending: bool) -> bool
    ensures { result ≡ is_some (spec.interrupt (when_due is_thr_pending (P.state parts.now))) }
{
    let enabled = parts.ier();
    if enabled.intersects(IER::DATA_READY) && parts.receiver().queue_len() > 0 {
        return true;
    }
    if enabled.intersects(IER::THR_EMPTY) && is_thr_pending {
        return true;
    }
    if enabled.intersects(IER::RECEIVER_LINE_STATUS) && has_line_errors(parts) {
        return true;
    }
    enabled.intersects(IER::MODEM_STATUS) && parts.has_modem_changes()
}
