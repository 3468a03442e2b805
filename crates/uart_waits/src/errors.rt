//! Why a call over shared rings did nothing, or not all.
use thiserror::Error;
use uart_ring::{RingError, StuckError, UnnotedError};

/// Why a call over shared rings did nothing more.
#[derive(Clone, Copy, Debug, PartialEq, Eq, Drop, Error)]
pub enum SharedError {
    /// There are no rings: `Shared::start` was not called, or `Shared::stop` was. Or a line has no
    /// such port.
    #[error("there are no rings")]
    NoRings,
    /// The call came in the middle of another one, which goes on when this one has returned. Or the
    /// kernel's section let two in.
    #[error("the rings are in use by a call that is not done")]
    InUse,
    /// At a bus of two wires the direction is not to send. Nothing was queued.
    #[error("the direction is not to send")]
    NotSending,
    /// The kernel's function said not to go on waiting, or the chip was not empty after as many
    /// looks as the driver's spin limit.
    #[error("waiting was given up")]
    GaveUp,
    /// What is awaited does not come, since the chip is stuck. A `restart` starts it again.
    #[error("the chip is stuck: {0}")]
    Stuck(StuckError),
    /// Bytes in the receive ring have no note of their errors.
    #[error("no bytes were taken: {0}")]
    Unnoted(UnnotedError),
}

/// Why no rings were started.
#[derive(Clone, Copy, Debug, PartialEq, Eq, Drop, Error)]
pub enum StartError {
    /// The rings could not be made.
    #[error("the rings could not be made: {0}")]
    NoRings(RingError),
    /// There are rings already.
    #[error("there are rings already")]
    Started,
    /// The line has no place of this number.
    #[error("the line has no such place")]
    NoPlace,
    /// The call came in the middle of another one.
    #[error("the rings are in use by a call that is not done")]
    InUse,
}

/// Why not all bytes were sent or received, and how many were.
#[derive(Clone, Copy, Debug, PartialEq, Eq, Drop, Error)]
#[error("{cause} after {done} bytes")]
pub struct Unfinished {
    /// How many bytes were, from the front.
    pub done: usize,
    /// Why no more.
    pub cause: SharedError,
}
