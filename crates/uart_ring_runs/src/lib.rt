//! Runs of ring calls over the software chip, and what is proved of rings, driver and chip
//! together.
#![tactic(auto)]

mod call;
pub mod laws;
mod running;

pub use call::{RingAnswer, RingCall, perform_ring};
pub use running::run_ring;
