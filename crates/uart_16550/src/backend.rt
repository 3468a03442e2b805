//! How a driver reads and writes the registers of its device.
ghost use Rattle.uart_spec.specs.declared.access.Access.{Access};
ghost use Rattle.uart_spec.specs.declared.access.Access.TheVariants.{Read, Write};

pub use crate::mmio::MmioBackend;
pub use crate::pio::PioBackend;
pub use uart_spec::backend::Backend;

/// Access to I/O ports, for example by the instructions `in` and `out` of x86.
///
/// Pass it to `Uart16550::new_port`, which makes a `PioBackend` of it. In Rattle an implementation
/// also defines a step relation, as a `Backend` does, with the port instead of the offset of the
/// register.
pub trait PortAccess {
    // This access of a port, with the byte that it reads or writes, may lead from the first state
    // to the second. An `Access` of a port is that of a register, with the port as its offset.
    ghost step: { Self → Access → Self → Type 0 };

    /// Reads one byte from a port, and returns it.
    fn port_in(&mut self, port: u16) -> u8
        ensures { step self.old (Read port result) self.new };

    /// Writes one byte to a port.
    fn port_out(&mut self, port: u16, value: u8)
        ensures { step self.old (Write port value) self.new };
}

/// Access to single bytes of memory, for example by a volatile load and a volatile store.
///
/// Pass it to `Uart16550::new_mmio`, which makes an `MmioBackend` of it. In Rattle an
/// implementation also defines a step relation, as a `Backend` does, with the address instead of
/// the offset of the register.
pub trait ByteAccess {
    // This access of an address, with the byte that it loads or stores, may lead from the first
    // state to the second.
    ghost step: { Self → Access → Self → Type 0 };

    /// Loads the byte at an address, and returns it.
    fn load(&mut self, address: usize) -> u8
        ensures { step self.old (Read address result) self.new };

    /// Stores a byte at an address.
    fn store(&mut self, address: usize, value: u8)
        ensures { step self.old (Write address value) self.new };
}
