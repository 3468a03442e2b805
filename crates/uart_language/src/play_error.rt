//! Why a script was not played.

ghost use Rattle.std.specs.Prelude.{◌≡◌};
ghost use Rattle.uart_language.specs.Streams.{play_error};
ghost use Rattle.uart_language.specs.declared.play_error.PlayError.TheVariants.{OutOfMemory};

use crate::cause::{Cause, ScriptError};
use std::alloc::AllocError;
use thiserror::Error;

/// Why a script was not played to its end.
///
/// Something was written only at a `WriteFault`: a beginning of the output.
#[derive(Clone, Copy, Debug, PartialEq, Eq, Error)]
pub enum PlayError {
    /// The input is not a script: the first faulty line, counted from 1, and what is wrong with it;
    /// line 0 if there are too many bytes.
    #[error("line {line}: {}", .cause.text())]
    Refused {
        /// The number of the line.
        line: u32,
        /// What is wrong with it.
        cause: Cause,
    },
    /// The reader failed.
    #[error("read fault")]
    ReadFault,
    /// The writer failed, or accepted no byte.
    #[error("write fault")]
    WriteFault,
    /// Memory for the script, its machine or its output could not be allocated.
    #[error("out of memory")]
    OutOfMemory,
}

impl From<ScriptError> for PlayError {
    ghost from_gives = { λ e p. p ≡ play_error e };

    fn from(error: ScriptError) -> PlayError {
        match error {
            ScriptError::Refused { line, cause } => PlayError::Refused { line, cause },
            ScriptError::OutOfMemory => PlayError::OutOfMemory,
        }
    }
}

impl From<AllocError> for PlayError {
    ghost from_gives = { λ _ p. p ≡ OutOfMemory };

    fn from(_error: AllocError) -> PlayError {
        PlayError::OutOfMemory
    }
}
