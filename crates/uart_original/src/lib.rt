//! What the interface of the original crate has otherwise than the driver: its waits end when the
//! device lets them, so none of its errors is a stall.
#![tactic(auto)]

mod driver;
mod dump;
mod errors;

pub use dump::ConfigRegisterDump;
pub use errors::{
    InitError, InvalidDivisorError, LoopbackError, Uart16550TtyError, init_error_of,
    loopback_error_of,
};
