//! Runs of calls over the software chip, and what is proved of driver and chip together.
#![tactic(auto)]

pub mod laws;
mod running;

pub use running::run;
