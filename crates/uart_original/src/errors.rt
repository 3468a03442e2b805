//! The errors that the original has.
ghost use Rattle.std.specs.Prelude.{◌≡◌, IfNone, IfSome};
ghost use Rattle.uart_original.specs.Original.{IsStalledInit, IsStalledTest};
ghost use Rattle.uart_original.specs.Original.{divisor_error, init_error, loopback_error};

use std::fmt;
use thiserror::Error;
use uart_spec::{ByteSendError, InvalidAddressError, NonIntegerDivisorError};

/// Why there is no divisor for a baud rate.
///
/// The original may get more cases, so a match has to have one for all others.
#[derive(Clone, Debug, PartialEq, Eq, PartialOrd, Hash, Drop, Error)]
pub enum InvalidDivisorError {
    /// No whole divisor gives the baud rate.
    #[error(transparent)]
    NonInteger(NonIntegerDivisorError),
    /// The divisor does not fit into the divisor latch of 16 bits.
    #[error("divisor {divisor} is out of range (1..=65535)")]
    OutOfRange {
        /// The divisor.
        divisor: u32,
    },
}

impl From<uart_spec::InvalidDivisorError> for InvalidDivisorError {
    ghost from_gives = { λ error own. divisor_error own ≡ error };

    fn from(error: uart_spec::InvalidDivisorError) -> Self {
        match error {
            uart_spec::InvalidDivisorError::NonInteger(cause) => Self::NonInteger(cause),
            uart_spec::InvalidDivisorError::OutOfRange { divisor } => Self::OutOfRange { divisor },
        }
    }
}

/// Why an initialisation failed.
///
/// The original may get more cases, so a match has to have one for all others.
#[derive(Clone, Debug, PartialEq, Eq, Hash, Drop, Error)]
pub enum InitError {
    /// No device is at the address.
    #[error("the device could not be detected")]
    DeviceNotPresent,
    /// There is no divisor for the baud rate.
    #[error("invalid baud rate: {0}")]
    InvalidBaudRate(InvalidDivisorError),
}

/// Returns the error of the original for one of the driver's initialisation, or `None` for a stall.
pub fn init_error_of(error: uart_spec::InitError) -> Option<InitError>
    // promise: the errors of the original crate are the driver's without its stalls, and its dump
    //   has the same registers
    // with: init_error_of.some, init_error_of.none, loopback_error_of.some, loopback_error_of.none
    // shown by: every_call, what_cannot_be_computed_is_an_error
    // refused: a_stall_is_no_device, a_stalled_test_refused_a_byte,
    //   original_baud_rate_forgets_the_prescaler
    // proved: The errors of the original crate are those of the driver without its stalls: a case
    //   of one is the same case of the other, and a stall is none. Its dump has the same registers,
    //   its divisor, and its baud rate where that is a whole number
    // on: `init_error_of`, `loopback_error_of`, the implementations of `From`;
    //   `ConfigRegisterDump::divisor`, `baud_rate`
    ensures some { IfSome result (λ own. init_error own ≡ error) }
    ensures none { IfNone result (IsStalledInit error) }
{
    match error {
        uart_spec::InitError::DeviceNotPresent => Some(InitError::DeviceNotPresent),
        uart_spec::InitError::InvalidBaudRate(cause) => Some(InitError::InvalidBaudRate(
            cause.into(),
        )),
        uart_spec::InitError::Stalled => None,
    }
}

/// Why a loopback test failed.
#[derive(Clone, Debug, PartialEq, Eq, Hash, Drop)]
pub enum LoopbackError {
    /// The device did not accept the test byte.
    SendError(ByteSendError),
    /// The device returned a byte other than the test byte.
    UnexpectedLoopbackByte {
        /// The byte that was sent.
        expected: u8,
        /// The byte that was received.
        actual: u8,
    },
    /// The device returned bytes other than the test message.
    UnexpectedLoopbackMsg {
        /// The bytes that were sent.
        expected: [u8; 16],
        /// The bytes that were received.
        actual: [u8; 16],
    },
}

// The text is that of the driver's error.
impl fmt::Display for LoopbackError {
    fn fmt<W: fmt::Write>(&self, f: &mut fmt::Formatter<W>) -> fmt::Result {
        let error = match *self {
            Self::SendError(ByteSendError::NoCapacity) => {
                uart_spec::LoopbackError::SendError(ByteSendError::NoCapacity)
            }
            Self::SendError(ByteSendError::RemoteNotClearToSend) => {
                uart_spec::LoopbackError::SendError(ByteSendError::RemoteNotClearToSend)
            }
            Self::UnexpectedLoopbackByte { expected, actual } => {
                uart_spec::LoopbackError::UnexpectedLoopbackByte { expected, actual }
            }
            Self::UnexpectedLoopbackMsg { expected, actual } => {
                uart_spec::LoopbackError::UnexpectedLoopbackMsg { expected, actual }
            }
        };
        fmt::Display::fmt(&error, f)
    }
}

impl std::error::Error for LoopbackError {}

/// Returns the error of the original for one of the driver's loopback test, or `None` for a stall.
pub fn loopback_error_of(error: uart_spec::LoopbackError) -> Option<LoopbackError>
    ensures some { IfSome result (λ own. loopback_error own ≡ error) }
    ensures none { IfNone result (IsStalledTest error) }
{
    match error {
        uart_spec::LoopbackError::SendError(cause) => Some(LoopbackError::SendError(cause)),
        uart_spec::LoopbackError::UnexpectedLoopbackByte { expected, actual } => {
            Some(LoopbackError::UnexpectedLoopbackByte { expected, actual })
        }
        uart_spec::LoopbackError::UnexpectedLoopbackMsg { expected, actual } => {
            Some(LoopbackError::UnexpectedLoopbackMsg { expected, actual })
        }
        uart_spec::LoopbackError::Stalled => None,
    }
}

/// Why a terminal could not be set up.
#[derive(Clone, Debug, PartialEq, Eq, Hash, Drop, Error)]
pub enum Uart16550TtyError {
    /// No device can be at the address.
    #[error(transparent)]
    AddressError(InvalidAddressError),
    /// The initialisation failed.
    #[error("error initializing the device: {0}")]
    InitError(InitError),
    /// The loopback test failed.
    #[error("error testing the device: {0}")]
    TestError(LoopbackError),
}
