//! Line control.
ghost use Rattle.std.specs.Prelude.{◌≡◌, ◌*◌};
ghost use Rattle.std.specs.Int.RustNames.{bit_and, bit_or};
ghost use Rattle.uart_spec.specs.Bits.{IsOnly, SameOutside};
ghost use Rattle.uart_spec.specs.Fields.{HasParity, HasWordLength, parity_code, word_length_code};

use crate::registers::{Parity, WordLength};

/// Line control register (LCR), offset 3: the format of a character on the line, and the divisor
/// latch access bit.
#[derive(Clone, Copy, Debug, PartialEq, Eq, PartialOrd, Ord, Hash, Default)]
pub struct LCR(pub(super) u8);

impl LCR {
    /// Returns the number of data bits of a character.
    pub fn word_length(self) -> WordLength
        ensures { IsOnly (HasWordLength 0 self.0) result }
    {
        WordLength::from_raw_bits(self.0)
    }

    /// Returns the register with this word length. No other bit changes.
    pub fn set_word_length(self, length: WordLength) -> Self
        // promise: each field of a register is its table of codes, and a setter changes its bits
        //   alone
        // with: set_word_length.own, set_word_length.others, set_parity.own,
        //   set_fifo_trigger_level.own
        // shown by: fields, codes
        // refused: wrong_parity_code, parity_clears_the_stop_bit
        ensures own { HasWordLength 0 result.0 length }
        ensures others { SameOutside 0 2 self.0 result.0 }
        ensures bits { result.0 ≡ bit_or (bit_and self.0 0xFC) (word_length_code length) }
    {
        LCR((self.0 & 0b1111_1100) | length.to_raw_bits())
    }

    /// Returns the parity of a character.
    pub fn parity(self) -> Parity
        ensures { IsOnly (HasParity 3 self.0) result }
    {
        Parity::from_raw_bits(self.0 >> 3)
    }

    /// Returns the register with this parity. No other bit changes.
    pub fn set_parity(self, parity: Parity) -> Self
        ensures own { HasParity 3 result.0 parity }
        ensures others { SameOutside 3 3 self.0 result.0 }
        ensures bits { result.0 ≡ bit_or (bit_and self.0 0xC7) (8 * parity_code parity) }
    {
        LCR((self.0 & 0b1100_0111) | (parity.to_raw_bits() << 3))
    }
}
