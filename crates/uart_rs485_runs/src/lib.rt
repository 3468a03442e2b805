//! A bus of two wires over the software chip: what the output of the chip makes the transceiver do.
//!
//! The contracts of [`laws`] are theorems. The functions do nothing.
#![tactic(auto)]

pub mod laws;
