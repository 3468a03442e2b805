//! Why bytes are not a script.

ghost use Rattle.std.specs.Prelude.{◌≡◌};
ghost use Rattle.uart_language.specs.declared.cause.ScriptError.TheVariants.{OutOfMemory};
ghost use Rattle.uart_language.specs.Output.{cause_text};

use std::alloc::{AllocError, AllocFailed};
use thiserror::Error;

/// What is wrong with a line, in the order in which a line is checked.
///
/// `TooLong` is reported for a script of too many bytes, at line 0, and for the first line beyond
/// [`MOST_LINES`](super::limits::MOST_LINES).
#[derive(Clone, Copy, Debug, PartialEq, Eq)]
pub enum Cause {
    /// The line has a byte outside of 20 to 7E.
    BadByte,
    /// The first line is not a `chip` line, or another line starts with `chip`, or a line other
    /// than the second with `limit`, or one with `fifo-size` that is neither the second nor the
    /// third behind `limit`.
    Misplaced,
    /// The first word of the line is not in the language.
    UnknownWord,
    /// The line has too few or too many words.
    WrongCount,
    /// A field that takes one of a few words has a different one.
    BadWord,
    /// A number has a wrong form, or is out of its range.
    BadNumber,
    /// Hexadecimal digits have a wrong form.
    BadHex,
    /// There are more bytes than [`CALL_BYTES`](uart_call::CALL_BYTES).
    TooManyBytes,
    /// The bytes of a text are not UTF-8.
    BadText,
    /// There are more lines than [`MOST_LINES`](super::limits::MOST_LINES), or more bytes than
    /// [`MOST_BYTES`](super::limits::MOST_BYTES).
    TooLong,
}

impl Cause {
    /// Returns the text that is printed for the cause.
    pub fn text(self) -> &'static str
        ensures { result.now ≡ cause_text self }
    {
        match self {
            Cause::BadByte => "bad byte",
            Cause::Misplaced => "misplaced",
            Cause::UnknownWord => "unknown word",
            Cause::WrongCount => "wrong count",
            Cause::BadWord => "bad word",
            Cause::BadNumber => "bad number",
            Cause::BadHex => "bad hex",
            Cause::TooManyBytes => "too many bytes",
            Cause::BadText => "bad text",
            Cause::TooLong => "too long",
        }
    }
}

/// Why there is no [`Script`](super::Script).
#[derive(Clone, Copy, Debug, PartialEq, Eq, Error)]
pub enum ScriptError {
    /// The bytes are not a script: the first faulty line, counted from 1, and what is wrong with
    /// it; line 0 if there are too many bytes.
    #[error("line {line}: {}", .cause.text())]
    Refused {
        /// The number of the line.
        line: u32,
        /// What is wrong with it.
        cause: Cause,
    },
    /// Memory for the script could not be allocated.
    #[error("out of memory")]
    OutOfMemory,
}

impl From<AllocError> for ScriptError {
    ghost from_gives = { λ _ e. e ≡ OutOfMemory };

    fn from(_error: AllocError) -> ScriptError {
        ScriptError::OutOfMemory
    }
}

impl<T: Drop> From<AllocFailed<T>> for ScriptError {
    ghost from_gives = { λ _ e. e ≡ OutOfMemory };

    fn from(_error: AllocFailed<T>) -> ScriptError {
        ScriptError::OutOfMemory
    }
}
