//! Why a call at the bus failed.
use std::fmt;
use thiserror::Error;
use uart_spec::StalledError;

/// The transmitter is not empty, so the bus was not given back.
#[derive(Clone, Copy, Debug, PartialEq, Eq, Hash, Drop, Error)]
#[error("the transmitter is not empty")]
pub struct BusyError;

/// The direction is not to send, so nothing was written.
#[derive(Clone, Copy, Debug, PartialEq, Eq, Hash, Drop, Error)]
#[error("the direction is not to send")]
pub struct NotSendingError;

/// Why not all of the echo was heard.
#[derive(Clone, Copy, Debug, PartialEq, Eq, Hash, Drop, Error)]
pub enum EchoError {
    /// Another byte was heard than was sent: two ends sent at once, or the bus is disturbed.
    #[error("the echo has {heard:#04x} after {done} bytes, which was not sent there")]
    Differs {
        /// How many bytes were heard as they were sent.
        done: usize,
        /// What was heard then.
        heard: u8,
    },
    /// A wait for a byte ended at the spin limit.
    #[error("no echo came after {done} bytes")]
    Silent {
        /// How many bytes were heard as they were sent.
        done: usize,
    },
}

/// Why not all bytes were sent.
#[derive(Clone, Debug, PartialEq, Eq, Hash, Drop, Error)]
pub enum SendError {
    /// The direction is not to send. Nothing was written.
    #[error("the direction is not to send")]
    NotSending,
    /// A wait for room ended at the spin limit.
    #[error("not all bytes were sent: {0}")]
    Stalled(StalledError),
}
