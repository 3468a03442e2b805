//! What a call of the driver as data means, and the function that makes such a call, over any
//! backend.
//!
//! [`check`] returns whether a list of accesses is one that a call makes; if it returns `None`, the
//! list is not, whatever the call might have returned. [`next`] returns what the driver does next
//! after some accesses, and [`follow`] how much of a list it makes. Judges and runs need all of
//! this, and no script language: so it is a crate of its own.
#![tactic(auto)]

mod checking;
pub mod laws;
mod performing;
pub mod replay;
mod tape;
#[cfg(test)]
mod tests;

pub use checking::{Followed, NextStep, Returned, Turn, check, follow, next};
pub use performing::{perform, perform_on_driver};
pub use tape::{Recorded, Request, Tape};
pub use uart_call::{Answer, CALL_BYTES, Call};
