//! Laws about the limits of machines.
//!
//! The contract of each function is a law that callers can cite. The functions do nothing.
ghost use Rattle.std.specs.Prelude.{◌≡◌};
ghost use Rattle.uart_events.specs.declared.event.TheConstants.{MAX_CHAR_TICKS, MAX_WIRE_CAPACITY};

/// The most ticks of a character, and the most bytes of a wire, of a machine that is built.
pub fn limits_are_these()
    ensures character { MAX_CHAR_TICKS ≡ 1000 }
    ensures wire { MAX_WIRE_CAPACITY ≡ 65536 }
{}
