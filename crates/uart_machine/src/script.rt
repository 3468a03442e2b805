//! Plays scripts: [`play`] reads one, runs its calls over a new device, and writes the answers and
//! the last state of the device.

pub use uart_language::{Cause, Script, ScriptError, parse};
pub use uart_play::{Input, Output, PlayError, Std, StreamFault, play};
