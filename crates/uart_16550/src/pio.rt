//! The backend for a device at I/O ports.
ghost use Rattle.std.specs.Prelude.{◌≡◌, ◌+◌, ◌<◌, IfOk, IfErr};
ghost use Rattle.std.specs.Borrow.{Lends, sem};
ghost use Rattle.uart_spec.specs.declared.baud.TheConstants.{NUM_REGISTERS};
ghost use Rattle.uart_16550.specs.contracts.pio.PioBackend.{the_row};
ghost use Rattle.uart_16550.specs.Pio.{IsPortBase, IsAtPorts, IsPortRefusal, PortStep};

use crate::backend::{Backend, PortAccess};
use std::marker::Model;
use uart_spec::InvalidAddressError;
use uart_spec::registers::offsets;

/// A device whose eight registers are at consecutive I/O ports.
///
/// An access to a register is one access to the port `base + offset`, and to no other port.
#[derive(Clone, Debug, PartialEq, Eq, PartialOrd, Hash, Drop)]
pub struct PioBackend<P> {
    base: u16,
    access: P,
}

impl<P> Model for PioBackend<P> {
    ghost use Rattle.uart_16550.specs.Pio.{Ports, IsPortBase};

    ghost Value = { Ports P };

    ghost view = { λ b. record { base = b.base; access = b.access } };

    ghost invariant = { λ b. IsPortBase b.base };

    ghost inverse = { λ p. record { base = p.base; access = p.access } };
}

impl<P: PortAccess> PioBackend<P> {
    // Returns the backend from this port on, unless the last register would be beyond the last
    // port. All constructors share this test. The model's invariant is what it found, so no sum of
    // base and offset overflows later.
    pub(crate) fn new(base: u16, access: P) -> Result<Self, InvalidAddressError>
    where
        P: Drop,
        ensures ok { IfOk result (λ ports. IsAtPorts ports base access) }
        ensures refused { IfErr result (IsPortRefusal base) }
    {
        if base.checked_add(offsets::SPR as u16).is_none() {
            return Err(InvalidAddressError::InvalidBaseAddress(base as usize));
        }
        Ok(PioBackend { base, access })
    }

    /// Returns the port of the first register.
    pub fn base(&self) -> u16
        ensures value { result ≡ self.now.base }
        ensures in_range { IsPortBase result }
    {
        self.base
    }

    /// Returns the access object, to read its state. Makes no access.
    pub fn access(&self) -> &P
        ensures { result.now ≡ self.now.access }
    {
        &self.access
    }

    /// Returns the access object, for what it can do besides the accesses, such as reporting a
    /// fault. Makes no access itself.
    ///
    /// Accesses by the caller bypass the driver: status bits that they clear are not saved, and the
    /// driver does not notice what they change.
    // An object that counts accesses or remembers a fault is of use only if its owner can reach it.
    pub fn access_mut(&mut self) -> &mut P
        ensures* writes_back { sem 𝓛 (Lends (the_row P.row) P.row self.entry result
            (λ p. record self.old { access = p })) }
        ensures value { result.now ≡ self.old.access }
    {
        &mut self.access
    }

    // Returns the port of a register.
    fn port(&self, register_offset: u8) -> u16
        requires { register_offset < NUM_REGISTERS }
        ensures { result ≡ self.now.base + register_offset }
    {
        self.base + register_offset as u16
    }
}

impl<P: PortAccess> Backend for PioBackend<P> {
    ghost step = { PortStep P.step };

    fn read(&mut self, register_offset: u8) -> u8 {
        let port = self.port(register_offset);
        self.access.port_in(port)
    }

    fn write(&mut self, register_offset: u8, value: u8) {
        let port = self.port(register_offset);
        self.access.port_out(port, value);
    }
}
