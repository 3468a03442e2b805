//! How late a handler of interrupts may be, without flow control, so that no character is dropped.
//!
//! The contracts of [`laws`] are theorems. The functions do nothing.
#![tactic(auto)]

pub mod laws;
