//! Laws about constants.
//!
//! The contract of each function is a law that callers can cite. The functions do nothing.
ghost use Rattle.std.specs.Prelude.{◌≡◌};
ghost use Rattle.uart_port.specs.declared.ports.TheConstants.{FLOATING};

/// What a read returns if nothing is at the port: all bits are set.
pub fn floating_is_this()
    ensures { FLOATING ≡ 255 }
{}
