//! Calls of a driver as plain data: [`Call`] is a call, and [`Answer`] is what came of it.
//!
//! What says what calls mean, and the language of scripts stand on this crate side by side. The
//! chip does not: it knows events alone.
#![tactic(auto)]

mod call;
pub mod laws;

pub use call::{Answer, CALL_BYTES, Call};
