//! Whether a recorded chip answered as the chip that is defined could have.
//!
//! A recording has the accesses to a chip and what each read returned, and mostly neither the time
//! that passed nor what came from outside. A [`Replayer`] reports a read whose value the chip could
//! not have returned, whatever the time that passed, and whatever characters arrived and lines
//! changed. It does not claim to find every such read.
//!
//! Time, arrivals and lines are not used even where a recording has them: tools place an arrival
//! where LSR first shows it. What a replayer knows is of constant size: the latches, the FIFO, and
//! what stays as it is until an access changes it.

mod difference;
mod known;
mod latches;
mod looped;
mod replayer;
mod rule;

pub use difference::{Difference, Reported};
pub use known::{Known, Sender, Start};
pub use latches::KnownLatches;
pub use looped::{Looped, MOST_LOOPED};
pub use replayer::Replayer;
pub use rule::{Rule, broken};
