//! Plays scripts: [`play`] reads one, runs its calls over a new device, and writes the answers and
//! the last state of the device.
//!
//! The meaning of a script, and what is printed for it, are defined in `uart_language`.
#![tactic(auto)]

pub mod laws;
mod playing;

pub use playing::{machine_for, play};
pub use uart_language::{Input, Output, PlayError, Std, StreamFault};
