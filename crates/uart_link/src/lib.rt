//! Two serial chips in software, each with its driver and rings, joined by a null-modem cable, and
//! what is proved of them together.
//!
//! [`CabledChip`] is the chip at one end of the cable. [`run_link`] makes the calls of both ends in
//! any order, under a schedule that says when time passes and when characters arrive. Which
//! characters arrive is for the cable to say: those that left the other end.
#![tactic(auto)]

mod call;
mod device;
pub mod laws;
mod link;
mod ring_call;

pub use call::{CALL_MOMENTS, LinkCall, Moment, Side};
pub use device::CabledChip;
pub use link::{Link, run_link};
