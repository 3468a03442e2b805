//! The registers of a DesignWare UART.
ghost use Rattle.uart_spec.specs.declared.access.Access.{Access};
ghost use Rattle.uart_spec.specs.declared.access.Access.TheVariants.{Read};

use uart_spec::backend::Backend;

/// The offset of USR, counted in registers: it is beyond the eight of a 16550.
///
/// Contracts speak of a read of USR as of a read of this offset.
pub const USR: usize = 0x1f;

/// The eight registers of a DesignWare UART, and USR, which is beyond them.
///
/// `DesignWareMemory` is one for registers in memory. Implement it for registers of your own, as
/// for a model of such a chip, beside [`Backend`].
pub trait DesignWareRegisters: Backend {
    /// Reads USR, and returns its lowest byte. In it bit 0 says that the chip is busy. The read
    /// ends a busy-detect interrupt.
    fn read_usr(&mut self) -> u8
        ensures { Self.step self.old (Read USR result) self.new };
}
