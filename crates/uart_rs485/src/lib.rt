//! A driver at a bus on which one end at a time may send, as RS-485 with two wires.
//!
//! A transceiver between the chip and the bus has two directions, and an output of the chip
//! switches it. [`HalfDuplex`] is a driver whose calls switch it: no byte is written while the
//! direction is not to send, and the bus is given back only when the transmitter is empty.
//! [`HalfDuplexRing`] is the same over rings that are served by interrupts.
#![tactic(auto)]

mod bus;
mod direction;
mod errors;
pub mod laws;
mod receive;
mod rings;
mod state;
mod transfer;

pub use bus::HalfDuplex;
pub use direction::{Direction, DirectionLine};
pub use errors::{BusyError, EchoError, NotSendingError, SendError};
pub use rings::HalfDuplexRing;
