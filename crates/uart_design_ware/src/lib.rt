//! A backend for UARTs of Synopsys' DesignWare, which do four things that a 16550 does not.
//!
//! [`DesignWare`] is a backend over the registers of such a chip, which implement
//! [`DesignWareRegisters`]. The driver above it is the one for every 16550, unchanged.
#![tactic(auto)]

mod fault;
mod kept;
pub mod laws;
mod line;
mod parameters;
mod recovery;
mod registers;
mod serving;
mod state;

pub use fault::DesignWareFault;
pub use parameters::fifo_size_of;
pub use registers::{DesignWareRegisters, USR};
pub use state::DesignWare;
