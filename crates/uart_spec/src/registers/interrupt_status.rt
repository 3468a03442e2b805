//! Interrupt status.
ghost use Rattle.std.specs.Prelude.{◌≡◌, not};
ghost use Rattle.uart_spec.specs.Bits.{IsOnlyIfAny, has};
ghost use Rattle.uart_spec.specs.Fields.{Identifies};

use crate::registers::InterruptType;
use bitflags::Flags;

/// Interrupt status register (ISR), offset 2, read only. Also called interrupt identification
/// register (IIR).
///
/// A read that identifies a `THR_EMPTY` interrupt acknowledges it.
#[derive(Clone, Copy, Debug, PartialEq, Eq, PartialOrd, Ord, Hash, Default)]
pub struct ISR(pub(super) u8);

impl ISR {
    /// Returns the pending interrupt. `None` if none is pending, or if its code is not known.
    pub fn interrupt_type(self) -> Option<InterruptType>
        // proved: Which interrupt ISR shows, whether one is pending, whether the FIFO is on; which
        //   bits of LSR are errors
        // on: `ISR::interrupt_type`, `has_pending_interrupt`, `fifo_enabled`,
        //   `InterruptType::from_bits`, `priority`, `LSR::has_error`
        ensures { IsOnlyIfAny (Identifies self.0) result }
    {
        InterruptType::from_bits(self.0)
    }

    /// Returns whether an interrupt is pending: bit 0 is clear then.
    pub fn has_pending_interrupt(self) -> bool
        ensures { result ≡ not (has self.0 ISR.INTERRUPT_STATUS.0) }
    {
        !self.contains(ISR::INTERRUPT_STATUS)
    }

    /// Returns whether the FIFOs are on and work: bits 6 and 7 are both set then.
    pub fn fifo_enabled(self) -> bool
        ensures { result ≡ has self.0 ISR.FIFOS_ENABLED.0 }
    {
        self.contains(ISR::FIFOS_ENABLED)
    }
}
