//! Why bytes are not a trace.
ghost use Rattle.std.specs.Prelude.{◌≡◌};
ghost use Rattle.uart_judges.specs.declared.traces.cause.TraceFault.TheVariants.{Line};
ghost use Rattle.uart_judges.specs.declared.traces.cause.TraceError.TheVariants.{OutOfMemory};

use std::alloc::{AllocError, AllocFailed};
use thiserror::Error;
use uart_language::Cause;

/// What is wrong with a line of a trace.
#[derive(Clone, Copy, Debug, PartialEq, Eq, Error)]
pub enum TraceFault {
    /// The line has no form that a line of a trace has.
    #[error("{}", .0.text())]
    Line(Cause),
    /// The line is an event of a schedule, or `next`: a trace has only calls of the driver.
    #[error("no call of the driver")]
    NoDriverCall,
    /// An access or an answer without a call before it.
    #[error("no call before it")]
    NoCallBefore,
    /// The call has no answer before another call, a new driver, or the end of the trace.
    #[error("the call has no answer")]
    NoAnswer,
}

/// Why bytes were not read as a trace.
#[derive(Clone, Copy, Debug, PartialEq, Eq, Error)]
pub enum TraceError {
    /// The bytes are not a trace: the first faulty line, counted from 1, and what is wrong with it.
    #[error("line {line}: {fault}")]
    NoTrace {
        /// The number of the line.
        line: usize,
        /// What is wrong with it.
        fault: TraceFault,
    },
    /// Memory for the trace could not be allocated.
    #[error("out of memory")]
    OutOfMemory,
}

impl From<Cause> for TraceFault {
    ghost from_gives = { λ cause fault. fault ≡ Line cause };

    fn from(cause: Cause) -> TraceFault {
        TraceFault::Line(cause)
    }
}

impl<T: Drop> From<AllocFailed<T>> for TraceError {
    ghost from_gives = { λ _ e. e ≡ OutOfMemory };

    fn from(_error: AllocFailed<T>) -> TraceError {
        TraceError::OutOfMemory
    }
}

impl From<AllocError> for TraceError {
    ghost from_gives = { λ _ e. e ≡ OutOfMemory };

    fn from(_error: AllocError) -> TraceError {
        TraceError::OutOfMemory
    }
}
