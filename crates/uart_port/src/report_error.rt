//! Why calls were not played to their end.

ghost use Rattle.std.specs.Prelude.{◌≡◌};
ghost use Rattle.uart_port.specs.declared.report_error.ReportError.TheVariants.{OutOfMemory};

use std::alloc::AllocError;
use std::io;
use thiserror::Error;

/// Why the calls were not played to their end, though no port failed.
#[derive(Debug, Drop, Error)]
pub enum ReportError {
    /// The trace could not be written.
    #[error("the trace cannot be written: {0}")]
    Trace(io::Error),
    /// An answer could not be printed.
    #[error("standard output cannot be written: {0}")]
    Output(io::Error),
    /// Memory for an answer could not be allocated.
    #[error("out of memory")]
    OutOfMemory,
}

impl From<AllocError> for ReportError {
    ghost from_gives = { λ _ end. end ≡ OutOfMemory };

    fn from(_error: AllocError) -> ReportError {
        ReportError::OutOfMemory
    }
}
