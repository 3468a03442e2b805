//! The limits of the language.
ghost use Rattle.std.specs.Prelude.{◌≡◌};

/// The longest script, in bytes.
pub const MOST_BYTES: usize = 65_536;

/// The most bytes that are read of a script: one more than the longest script has. A longer one is
/// refused as these are.
pub const MOST_READ: usize = MOST_BYTES + 1;

/// The longest script, in lines.
pub const MOST_LINES: u32 = 4_096;

/// The largest spin limit that a line may set: how many unsuccessful polls in a row end a wait.
pub const MOST_LIMIT: u64 = 1_000_000;

/// The spin limit if no line sets one.
pub const DEFAULT_LIMIT: u64 = MOST_LIMIT;

/// The most ticks of a line, as many as an event has.
pub const MOST_TICKS: u64 = u16::MAX as u64;

/// The highest baud rate, in bits per second.
pub const MOST_RATE: u64 = u32::MAX as u64;

/// The most digits of a number of a script.
pub const SCRIPT_DIGITS: usize = 10;

/// The most digits of a number, so that any that has them fits into 64 bits.
pub const MOST_DIGITS: usize = 19;

/// The values of the limits in the definition of the language.
pub fn limits_are_these()
    // proved: The limits of the language
    // on: `limits::limits_are_these`
    ensures bytes { MOST_BYTES ≡ 65536 }
    ensures read { MOST_READ ≡ 65537 }
    ensures lines { MOST_LINES ≡ 4096 }
    ensures limit { MOST_LIMIT ≡ 1000000 }
    ensures default_limit { DEFAULT_LIMIT ≡ 1000000 }
    ensures ticks { MOST_TICKS ≡ 65535 }
    ensures rate { MOST_RATE ≡ 4294967295 }
    ensures script_digits { SCRIPT_DIGITS ≡ 10 }
    ensures digits { MOST_DIGITS ≡ 19 }
{}
