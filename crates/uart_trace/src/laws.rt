//! Laws about constants.
//!
//! The contract of each function is a law that callers can cite. The functions do nothing.
ghost use Rattle.std.specs.Prelude.{◌≡◌};
ghost use Rattle.uart_trace.specs.declared.comments.TheConstants.{MOST_READ};

/// How many bytes of a script are looked at.
pub fn most_read_is_this()
    ensures { MOST_READ ≡ 65537 }
{}
