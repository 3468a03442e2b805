//! Everything about a 16550 serial chip that needs no access to it: its registers with their named
//! bits and fields, the arithmetic of its baud rate generator, its configuration, the errors of its
//! driver, and the trait for the access to them.
//!
//! Bits are numbered from 0, the lowest, to 7. Frequencies are in hertz and baud rates in bits per
//! second.
#![tactic(auto)]

pub mod access;
pub mod backend;
mod baud;
mod checked;
mod config;
mod dump;
mod errors;
pub mod laws;
mod layout;
mod received;
pub mod registers;
mod setup;
mod timing;

pub use baud::{
    CLK_FREQUENCY_HZ, FIFO_SIZE, NUM_REGISTERS, calc_baud_rate, calc_divisor, calc_frequency,
};
pub use checked::{accepted, checked_baud_rate, checked_divisor, checked_frequency};
pub use config::{BaudRate, Config};
pub use dump::ConfigRegisterDump;
pub use errors::{
    AttachError, ByteReceiveError, ByteSendError, ConfigurationError, FifoSizeError, FifosOffError,
    FrameError, InitError, InvalidAddressError, InvalidDivisorError, LoopbackError,
    NearestDivisorError, NonIntegerBaudRateError, NonIntegerDivisorError,
    RemoteReadyToReceiveError, StalledError, Uart16550TtyError,
};
pub use layout::{
    ByteOrder, InvalidLayoutError, RegisterLayout, RegisterWidth, check_layout, check_ports,
    check_spacing,
};
pub use received::Received;
pub use setup::{FifoAction, FifoSize, Setup, TransmitterWait};
