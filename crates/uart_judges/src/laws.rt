//! Laws of recordings and traces: their limits, and what times count.
//!
//! The contract of each function is a law that callers can cite. The functions do nothing.
ghost use Rattle.std.specs.Prelude.{◌≡◌};
ghost use Rattle.uart_judges.specs.declared.audit.findings.TheConstants.{HANDLER_TIME};
ghost use Rattle.uart_judges.specs.declared.audit.step.TheConstants.{CHARACTER_TIME};
ghost use Rattle.uart_judges.specs.declared.audit.step.TheConstants.{LEAST_DIVISOR, MOST_HELD};
ghost use Rattle.uart_judges.specs.declared.audit.unread.TheConstants.{MOST_UNREAD};
ghost use Rattle.uart_judges.specs.declared.findings.verifying.TheConstants.{MOST_TRACE_BYTES};
ghost use Rattle.uart_judges.specs.declared.recording.fields.TheConstants.{MICROSECOND, SECOND};
ghost use Rattle.uart_judges.specs.declared.recording.fields.TheConstants.{MOST_MICROSECONDS};
ghost use Rattle.uart_judges.specs.declared.recording.limits.TheConstants.{MOST_LINE_BYTES};
ghost use Rattle.uart_judges.specs.declared.recording.limits.TheConstants.{MOST_REPEATS, MOST_SECONDS};

/// The most that a recording or a trace may have.
pub fn limits_are_these()
    // proved: The most that a line, a repeated read, a time and a trace may have; the nanoseconds
    //   of a second
    // on: `laws::limits_are_these`, `laws::times_are_these`
    ensures trace { MOST_TRACE_BYTES ≡ 67108864 }
    ensures line { MOST_LINE_BYTES ≡ 65535 }
    ensures repeats { MOST_REPEATS ≡ 100000000 }
    ensures seconds { MOST_SECONDS ≡ 9999999999 }
    ensures microseconds { MOST_MICROSECONDS ≡ 999999 }
{}

/// The nanoseconds of a second and of a microsecond, of a character of 12 bits at divisor 1, and of
/// the time in which a driver has left its handler.
pub fn times_are_these()
    ensures second { SECOND ≡ 1000000000 }
    ensures microsecond { MICROSECOND ≡ 1000 }
    ensures character { CHARACTER_TIME ≡ 104167 }
    ensures handler { HANDLER_TIME ≡ 1000000000 }
{}

/// What a judge of a driver takes a chip to hold, and the divisor that it takes if none was seen.
pub fn a_chip_holds_these()
    ensures transmitter { MOST_HELD ≡ 17 }
    ensures receiver { MOST_UNREAD ≡ 16 }
    ensures divisor { LEAST_DIVISOR ≡ 1 }
{}
