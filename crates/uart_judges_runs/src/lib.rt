//! What the judge of a driver does not find in the recordings of our own driver.
//!
//! The contracts of [`laws`] are theorems. The functions do nothing.
#![tactic(auto)]

pub mod laws;
