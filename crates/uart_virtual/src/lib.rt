//! A serial port of a virtual machine: a live chip, and what its monitor has to do.
//!
//! Each call returns as plain data whether to signal the guest's interrupt, the level of the line,
//! whether there is room for input again, and how many bytes of output are ready. Time passes in
//! the calls alone.
#![tactic(auto)]

mod clock;
pub mod laws;
mod port;
mod told;

pub use clock::Clock;
pub use port::{
    Answer, Received, Restored, VirtualPort, VirtualPortWith, kind_of_read, kind_of_write, settle,
    settle_ticks, tell,
};
pub use told::{Kind, Seen, Todo, Told};
