//! What a recording or a trace says about its driver and its chip.
//!
//! [`traces`] reads the recorded calls of a driver, and checks that it makes them. [`recording`]
//! reads what was seen at a chip's port; of that, [`audit`] judges the driver and [`replay`] the
//! chip. [`findings`] prints what they find, and where a trace strays.
#![tactic(auto)]

pub mod audit;
pub mod findings;
pub mod laws;
pub mod recording;
pub mod replay;
pub mod traces;
