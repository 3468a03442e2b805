//! Who waits at rings that a handler and tasks share, for what, and whose turn it is.
//!
//! [`Waits`] has a place at each end of the rings. A task that looked in vain comes into one, by
//! [`Waits::register`]. After each call over the rings [`Waits::take_due`] takes those out whose
//! turn it is, to be woken. What wakes a task is of any kind: it is never looked at, copied or
//! dropped.
//!
//! [`Occupancy`] is whether somebody uses the rings. A handler that comes meanwhile leaves a mark
//! there, and who uses them serves it before leaving.
#![tactic(auto)]

mod awaited;
mod errors;
pub mod laws;
mod occupancy;
mod waits;

pub use awaited::{Awaited, Seen};
pub use errors::{SharedError, StartError, Unfinished};
pub use occupancy::Occupancy;
pub use waits::{Due, Waiter, Waits};
