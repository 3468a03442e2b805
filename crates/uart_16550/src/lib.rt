//! A driver for the serial chips of the 16550 family, proved over any backend.
//!
//! - [`Uart16550`] is the driver: initialisation, loopback test, sending and receiving by polling,
//!   status, interrupts.
//! - [`Uart16550Tty`] sends text through it as terminals expect it.
//! - [`backend`] has the access to registers at I/O ports and in memory, and the trait for a
//!   backend of your own.
//! - [`embedded_io`] has traits for byte readers and writers, which the driver implements.
//!
//! No call blocks forever: each wait ends with an error after [`Uart16550::spin_limit`]
//! unsuccessful polls in a row. The contract of each call says which accesses it makes, in which
//! order, and how it changes the driver's fields.
//!
//! # Examples
//!
//! ```
//! // `ports` is a `PortAccess`: how this program accesses I/O ports.
//! let mut uart = Uart16550::new_port(0x3f8, ports)?;
//! uart.init(Config::DEFAULT)?;
//! uart.send_bytes_exact(b"hello")?;
//! ```
#![tactic(auto)]

mod address;
pub mod backend;
mod driver;
pub mod embedded_io;
pub mod laws;
mod mmio;
mod patience;
mod pio;
mod tty;

pub use driver::{DEFAULT_SPIN_LIMIT, DriverState, Uart16550};
pub use patience::{Patience, WaitEnd, WaitError};
pub use tty::Uart16550Tty;
pub use uart_spec as spec;
pub use uart_spec::{
    AttachError, BaudRate, ByteReceiveError, ByteSendError, Config, ConfigRegisterDump, InitError,
    InvalidAddressError, InvalidDivisorError, LoopbackError, NearestDivisorError,
    NonIntegerBaudRateError, NonIntegerDivisorError, Received, RemoteReadyToReceiveError,
    StalledError, Uart16550TtyError,
};
