//! Modem status.
ghost use Rattle.std.specs.Prelude.{◌≡◌};
ghost use Rattle.uart_spec.specs.Lines as spec;

use crate::registers::flag;
use bitflags::Flags;

/// Modem status register (MSR), offset 6: the modem lines, and which of them changed. A read clears
/// the four changes, the low bits.
#[derive(Clone, Copy, Debug, PartialEq, Eq, PartialOrd, Ord, Hash, Default)]
pub struct MSR(pub(super) u8);

impl MSR {
    // Returns whether this line has changed.
    fn is_changed(self, before: MSR, line: MSR) -> bool
        ensures { result ≡ spec.is_changed before.0 self.0 line.0 }
    {
        before.intersection(line) != self.intersection(line)
    }

    /// Returns the changes of the lines since an earlier reading, as their bits: of RI only its
    /// trailing edge, from set to clear.
    pub fn changes_since(self, before: MSR) -> MSR
        // proved: Which modem lines changed between two values of MSR, as the bits of these
        //   changes: of RI only the trailing edge
        // on: `MSR::changes_since`
        ensures { result.0 ≡ spec.line_changes before.0 self.0 }
    {
        let cts = flag(self.is_changed(before, MSR::CTS), MSR::DELTA_CTS);
        let dsr = flag(self.is_changed(before, MSR::DSR), MSR::DELTA_DSR);
        let ri = flag(
            before.intersects(MSR::RI) && !self.intersects(MSR::RI),
            MSR::TRAILING_EDGE_RI,
        );
        let cd = flag(self.is_changed(before, MSR::CD), MSR::DELTA_CD);
        cts.union(dsr).union(ri.union(cd))
    }
}
