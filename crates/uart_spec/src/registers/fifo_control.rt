//! FIFO control.
ghost use Rattle.std.specs.Prelude.{◌≡◌, ◌*◌};
ghost use Rattle.std.specs.Int.RustNames.{bit_and, bit_or};
ghost use Rattle.uart_spec.specs.Bits.{IsOnly, SameOutside};
ghost use Rattle.uart_spec.specs.Fields.{HasTrigger, trigger_code};

use crate::registers::FifoTriggerLevel;

/// FIFO control register (FCR), offset 2, write only.
#[derive(Clone, Copy, Debug, PartialEq, Eq, PartialOrd, Ord, Hash, Default)]
pub struct FCR(pub(super) u8);

impl FCR {
    /// Returns the register with this trigger level. No other bit changes.
    pub fn set_fifo_trigger_level(self, level: FifoTriggerLevel) -> Self
        ensures own { HasTrigger 6 result.0 level }
        ensures others { SameOutside 6 2 self.0 result.0 }
        ensures bits { result.0 ≡ bit_or (bit_and self.0 0x3F) (64 * trigger_code level) }
    {
        FCR((self.0 & 0b0011_1111) | (level.to_raw_bits() << 6))
    }

    /// Returns the trigger level of the receiver FIFO.
    pub fn fifo_trigger_level(self) -> FifoTriggerLevel
        // proved: Each field is its table of codes: a getter returns the case whose code is in its
        //   bits, a setter changes its bits alone, and its getter returns what was set
        // on: `FCR::fifo_trigger_level`, `set_fifo_trigger_level`, `LCR::word_length`,
        //   `set_word_length`, `parity`, `set_parity`, `PSD::pdf`, `set_pdf`; `from_raw_bits` and
        //   `to_raw_bits` of `FifoTriggerLevel`, `WordLength`, `Parity`
        ensures { IsOnly (HasTrigger 6 self.0) result }
    {
        FifoTriggerLevel::from_raw_bits(self.0 >> 6)
    }
}
