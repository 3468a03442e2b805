//! A law about the limit of calls as data.
//!
//! The contract of each function is a law that callers can cite. The functions do nothing.
ghost use Rattle.std.specs.Prelude.{◌≡◌};
ghost use Rattle.uart_call.specs.declared.call.TheConstants.{CALL_BYTES};

/// The most bytes of a call as data.
pub fn limits_are_these()
    ensures call { CALL_BYTES ≡ 64 }
{}
