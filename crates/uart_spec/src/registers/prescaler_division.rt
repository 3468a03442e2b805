//! Prescaler division.
ghost use Rattle.std.specs.Prelude.{◌≡◌, ◌≤◌};
ghost use Rattle.std.specs.Int.RustNames.{bit_and, bit_or};
ghost use Rattle.uart_spec.specs.Bits.{SameOutside, field};

/// Prescaler division register (PSD), offset 6 while DLAB is set, on chips that have a prescaler.
#[derive(Clone, Copy, Debug, PartialEq, Eq, PartialOrd, Ord, Hash, Default)]
pub struct PSD(pub(super) u8);

impl PSD {
    /// Returns the prescaler division factor, 0 to 15.
    pub fn pdf(self) -> u8
        ensures { result ≡ field 0 4 self.0 }
    {
        self.0 & 0b0000_1111
    }

    /// Returns the register with this prescaler division factor. No other bit changes.
    pub fn set_pdf(self, pdf: u8) -> Self
        requires { pdf ≤ 15 }
        ensures own { field 0 4 result.0 ≡ pdf }
        ensures others { SameOutside 0 4 self.0 result.0 }
        ensures bits { result.0 ≡ bit_or (bit_and self.0 0xF0) pdf }
    {
        PSD((self.0 & 0b1111_0000) | pdf)
    }
}
